//! The last program that a session runs, with the arrays and cells before it.
#![tactic(auto)]

mod fault;
mod found;
mod reading;
mod request;
mod stop;

pub use fault::{LastFault, Untaken};
pub use found::LastRun;
pub use reading::{begun, last_run, last_run_in};
