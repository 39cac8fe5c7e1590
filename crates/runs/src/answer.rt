// Answers as values.
use measuring::Counts;
use plate::Refusal;

/// What a call answered.
#[derive(Debug, Drop)]
pub enum Answer<K> {
    /// An edit, a seal or a break was carried out.
    Done,
    /// How many cells are reached, and how many steps were put to the gauge.
    Measured(Counts),
    /// The cell's length, or none where it is unreached.
    Distance(Option<K>),
    /// The cell's pad, from 0 to 64, or none where it is unreached.
    Nearest(Option<u8>),
    /// The numbers of the cells from the cell back to its source; no cells where it is unreached.
    Way(Vec<u16>),
    /// The least length between the groups, or none where there is no path between them.
    Gap(Option<K>),
    /// A mark for each cell, 1 on a shortest path between the groups and else 0, and how many are
    /// 1.
    Route { marks: Vec<u8>, count: usize },
    /// The call was sent back, and changed nothing.
    Refused(Refusal),
    /// The plate's state does not allow the call, which changed nothing.
    NotAllowed,
}
