//! Pictures of runs: their tasks as far as they are drawn, and two touches that nothing orders.
#![tactic(auto)]

mod drawing;
mod picture;

pub use drawing::dot_text;
pub use picture::{Link, Pair, Picture, Task, Touch, Wait};
