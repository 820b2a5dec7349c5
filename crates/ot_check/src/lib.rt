//! Checks that a program can't race, and hands it on as checked.
#![tactic(auto)]

mod block;
mod cell_set;
mod checked;
mod checking;
mod fault;
mod job;
pub mod laws;
mod modes;
mod opened;
mod standing;
mod statement;
mod table;
mod tasks;
mod touch;
mod users;
mod walk;

pub use checked::Checked;
pub use checking::{check, first_offence};
pub use fault::{CheckFault, Offence};
pub use job::{JobSpec, Outcome};
