//! The task graph of a run: its tasks, who created whom, and who waits for whom by itself.
#![tactic(auto)]

mod child;
mod dot;
mod drawing;
mod family;
mod graph;
mod label;
mod laws;
mod link;
mod mark;
mod met;
mod place;
mod rows;
mod run;

pub use child::Child;
pub use dot::dot_text;
pub use drawing::{Drawing, draw};
pub use family::Family;
pub use graph::{Graph, graph_of};
pub use laws::waits_at_cells;
pub use link::Link;
pub use mark::Mark;
