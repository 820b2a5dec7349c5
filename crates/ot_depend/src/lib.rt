//! The children of one body, and which of them may run.
#![tactic(auto)]

mod cells;
mod child;
mod groups;
mod kept;
pub mod laws;
mod numbers;
mod places;
pub mod siblings;

pub use siblings::Siblings;
