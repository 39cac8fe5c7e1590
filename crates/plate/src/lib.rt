// The calls on a plate. A header of plain numbers moves from call to call; the tables are lent. Pads, groups, rows and columns come as
// numbers, since any may come and a wrong one is sent back with its refusal.
#![tactic(auto)]

pub mod edit;
pub mod edits;
pub mod header;
pub mod maps;
mod readings;
pub mod refusal;
mod routes;
pub mod seals;
mod ways;

pub use edit::Edit;
pub use header::{Draft, Header, HeaderRef, Sealed};
pub use readings::Readings;
pub use refusal::Refusal;
pub use seals::NotSealed;
