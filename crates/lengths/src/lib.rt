// Kinds of length: a zero, an order, and a row in which tables hold a length.
#![tactic(auto)]

ghost use Rattle.std.specs.Prelude.{◌≡◌};
ghost use Rattle.lengths.specs.Kinds.{Kind, KindLaws};

pub mod counted;
pub mod counted_row;
pub mod counting;
pub mod whole;
pub mod wholes;

pub use counted::Counted;
pub use counted_row::CountedRow;
pub use whole::Whole;

/// A kind of length. A row is a plain value under no condition: every row is read as some length.
pub trait Length: Copy {
    type Row: Copy;

    ghost kind: { Kind Self Self.Row };

    /// The least length.
    fn zero() -> Self
        ensures { result ≡ kind.zero };

    /// Whether it is at most as long as the other.
    fn at_most(self, other: Self) -> bool
        ensures { result ≡ kind.le self other };

    /// The row in which tables hold it.
    fn encode(self) -> Self::Row
        ensures { result ≡ kind.encode self };

    /// The length that a row is read as, any row.
    fn decode(row: Self::Row) -> Self
        ensures { result ≡ kind.decode row };

    ghost lawful: { KindLaws kind };
}
