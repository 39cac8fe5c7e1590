// The size of a plate.
ghost use Rattle.std.specs.Prelude.{◌≤◌};

/// What a plate is opened with: how many rows and columns it is to have. Any numbers may come; a `Size` has those that a plate can have.
#[derive(Clone, Copy, Debug, PartialEq, Eq)]
pub struct Dimensions {
    pub rows: u16,
    pub columns: u16,
}

/// 1 to 256 rows and 1 to 256 columns.
#[derive(Clone, Copy, Debug, PartialEq, Eq)]
pub struct Size {
    pub rows: u16,
    pub columns: u16,
    ghost some_rows: { 1 ≤ rows },
    ghost few_rows: { rows ≤ 256 },
    ghost some_columns: { 1 ≤ columns },
    ghost few_columns: { columns ≤ 256 },
}
