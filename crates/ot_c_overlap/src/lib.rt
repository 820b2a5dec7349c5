//! Items of `depend` clauses that overlap in part.
#![tactic(auto)]

mod claims;
mod clause;
mod first;
mod item;
mod names;
mod order;
mod request;
mod walk;

pub use clause::is_difference;
pub use request::first_overlap;
