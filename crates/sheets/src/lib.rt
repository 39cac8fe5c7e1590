// Sheets: a board as lines of text, read in place.
#![tactic(auto)]

pub mod fault;
pub mod line;
pub mod lines;
pub mod reader;
pub mod reading;
pub mod refusal;
pub mod token;

pub use fault::{Fault, Layer};
pub use line::Line;
pub use reader::SheetReader;
pub use reading::{make_edit, open_plate, read_sheet};
pub use refusal::Refusal;
pub use token::{Keyword, Place, Token};
