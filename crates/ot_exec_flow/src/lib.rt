//! What of a run rests on memory: where the values of branches and of indexes come from, found in the machine's code alone.
#![tactic(auto)]

mod deciding;
mod flow;
mod graph;
mod slots;
mod spots;
mod trace;

pub use flow::marks_of;
pub use slots::{given_by, spare_of};
