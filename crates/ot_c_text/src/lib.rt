//! Texts in C with OpenMP, judged, and as sessions that run them.
#![tactic(auto)]

mod judging;
mod reading;
mod reasons;
mod requests;
mod session;
mod settling;

pub use judging::judge_text;
pub use reading::{Meaning, meaning_of};
pub use session::{Session, session_of};
