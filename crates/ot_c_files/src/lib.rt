//! Files of C with OpenMP, from words.
#![tactic(auto)]

mod declaration;
mod file;
mod fixed;
mod known;
mod main_body;
mod program;
mod region;

pub use file::read_file;
pub use program::{Declaration, File, Initial, Step, Top, Variable};
