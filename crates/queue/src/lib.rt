// A priority queue over a lent slice: a binary heap, written once for every kind of entry.
#![tactic(auto)]

ghost use Rattle.std.specs.Prelude.{◌≡◌, ◌-◌, Bool};
ghost use Rattle.queue.specs.Orders.{OrderLaws};

pub mod heap;
pub mod offer;
pub mod queues;

pub use heap::{replace_first, sift_down, sift_up};
pub use offer::{ByLength, Offer, OfferQueue};
pub use queues::Queue;

/// An order on entries.
pub trait Order {
    type Entry: Copy;

    ghost le: { Self.Entry → Self.Entry → Bool };

    /// Whether the first comes before the second, or is as far.
    fn at_most(a: Self::Entry, b: Self::Entry) -> bool
        ensures { result ≡ le a b };

    ghost lawful: { OrderLaws le };
}
