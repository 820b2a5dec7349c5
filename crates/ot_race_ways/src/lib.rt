//! Races on any way through a program.
#![tactic(auto)]

mod extent;
mod follow;
mod judging;
mod known;
pub mod laws;
mod naming;
mod reads;
mod straight;
mod verdict;

pub use judging::any_way;
pub use known::known_number;
pub use reads::note_reads;
pub use straight::is_straight;
pub use verdict::{Turn, Verdict};
