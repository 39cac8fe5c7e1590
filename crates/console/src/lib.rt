// What a program prints of a sheet, as text.
#![tactic(auto)]

pub mod gaps;
pub mod lines;

pub use gaps::{gap_line, sheet_gap};
pub use lines::Line;
