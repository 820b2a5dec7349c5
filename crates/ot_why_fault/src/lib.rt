//! What is at fault in a program that is refused.
#![tactic(auto)]

mod find;
pub mod laws;
mod look;
mod own;
mod why;

pub use find::{Found, first_fault};
pub use why::{Count, Wanted, Why};
