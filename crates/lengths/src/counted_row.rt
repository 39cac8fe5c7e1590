// The rows in which tables hold counted lengths.

/// A plain pair under no condition. Where only tampering left more steps than units, it is read as zero.
#[derive(Clone, Copy, Debug, PartialEq, Eq)]
pub struct CountedRow {
    pub units: u64,
    pub steps: u64,
}
