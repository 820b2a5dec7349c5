//! The requests of a file, judged one after another as a session judges them, with no program run.
#![tactic(auto)]

mod arrays;
mod fault;
mod findings;
mod line;
mod lines;
mod place;
mod told;
mod verdict;

pub use fault::JudgeFault;
pub use findings::{Finding, Findings};
pub use line::{is_goodbye, is_long, line_of};
pub use lines::lines_of;
