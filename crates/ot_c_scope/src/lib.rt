//! What names of C mean at a place of the text, and the numbers that are known there.
#![tactic(auto)]

mod constants;
mod fault;
pub mod json;
pub mod kind;
mod layers;
mod openings;
mod portions;
mod reason;
mod runs;
mod scope;
mod sizes;

pub use constants::{both, constant, power};
pub use fault::CFault;
pub use reason::Reason;
pub use runs::{run, run_by, untouched};
pub use scope::{Meaning, Opening, Pointee, Portion, Scope, Sense, Turn, points_into};
pub use sizes::{no_number, size};
