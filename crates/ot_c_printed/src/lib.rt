//! A program as C with OpenMP, read back before it is given.
#![tactic(auto)]

mod apart;
mod arrays;
mod fault;
mod whole;

pub use fault::NoC;
pub use whole::c_checked;
