// What a board is made of: its size, cells, pad groups and map records.
#![tactic(auto)]

pub mod cell;
pub mod group;
pub mod record;
pub mod size;
pub mod tables;

pub use cell::{Cell, known_pad};
pub use group::Group;
pub use record::MapRecord;
pub use size::{Dimensions, Size};
pub use tables::{LONGEST_SIDE, PADS, fill_front, group_of};
