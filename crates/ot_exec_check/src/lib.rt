//! A text of C with OpenMP, executed and judged.
#![tactic(auto)]

mod drawing;
mod judging;
mod label;
mod naming;
mod placing;
mod reason;
mod telling;

pub use judging::{Drawn, Judged, Verdict, draw_run, judge_run};
