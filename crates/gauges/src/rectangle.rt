// A rectangle of cells.

/// Its first and last rows and columns, ends included. Any numbers may come; a fence takes those up to 255 of which no first is above
/// its last.
#[derive(Clone, Copy, Debug, Default, PartialEq, Eq)]
pub struct Rectangle {
    pub first_row: u16,
    pub first_column: u16,
    pub last_row: u16,
    pub last_column: u16,
}
