// A step from one cell of a plate to a neighbour.

/// A cell by its row and column, with its height, from 0 to 65,535. On a plate rows and columns are below 256.
#[derive(Clone, Copy, Debug, PartialEq, Eq)]
pub struct Point {
    pub row: u16,
    pub column: u16,
    pub height: u16,
}

/// From one cell to another; on a plate they are neighbours.
#[derive(Clone, Copy, Debug, PartialEq, Eq)]
pub struct Step {
    pub from: Point,
    pub to: Point,
}
