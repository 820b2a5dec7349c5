//! Lines of events: tenants ask, workers start and finish pieces, in any order that a user types.
#![tactic(auto)]

pub mod answer;
pub mod fault;
pub mod line;
mod names;
mod play;
pub mod session;
mod word;

pub use answer::{Answer, write_answer};
pub use fault::SimFault;
pub use line::{Line, read_line};
pub use session::sim_lines;
