//! From a text in C with OpenMP to the machine's code, with what is told of places in it.
#![tactic(auto)]

mod beyond;
mod cast;
mod reading;
mod reason;

pub use reading::{Given, Placed, Read, Reading, byte_of, reading_of};
