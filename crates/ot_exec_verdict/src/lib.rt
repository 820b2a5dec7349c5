//! What is found in code: whether something races in its run, or on the ways of what isn't known.
#![tactic(auto)]

mod asking;
mod finding;
mod join;
mod judging;
mod locked;
mod others;
mod region;
mod running;
mod ways;

pub use finding::{Bounds, Finding, Rest};
pub use judging::finding_of;
