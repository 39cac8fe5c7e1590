// How a program over a plate reads its input and how it ends: what stopped it, and what it prints of that.
#![tactic(auto)]

pub mod input;
pub mod output;
pub mod stop;

pub use input::read_input;
pub use output::Output;
pub use stop::{Stop, finish};
