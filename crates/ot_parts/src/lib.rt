//! Bodies as shared parts: runs of sets and folds, each with the cells that it touches, and the control
//! statements behind them. What is left of a body is places in parts.
#![tactic(auto)]

mod assign;
mod assigns;
mod bytes;
mod frames;
mod gather;
mod held;
mod holding;
mod leading;
mod listed;
mod making;
mod part;
mod rest;
mod run;
mod same;
mod share;
mod step;
mod steps;
mod touched;
mod weigh;

pub use assign::Assign;
pub use assigns::Assigns;
pub use leading::Leading;
pub use making::parts_of;
pub use part::Part;
pub use rest::Rest;
pub use run::{Run, Tested};
pub use same::same_parts;
pub use step::Step;
