// What one call answers, with no memory of its own.
use measuring::Counts;
use plate::Refusal;

/// The answer to a call over a list and marks that are lent, else as `Answer`.
#[derive(Clone, Copy, Debug, PartialEq, Eq)]
pub enum Reply<K> {
    Done,
    Measured(Counts),
    Distance(Option<K>),
    Nearest(Option<u8>),
    /// How many cells of the list are the way's: 0 where the cell is unreached.
    Way(usize),
    Gap(Option<K>),
    /// How many of the marks are 1.
    Route(usize),
    Refused(Refusal),
    NotAllowed,
}
