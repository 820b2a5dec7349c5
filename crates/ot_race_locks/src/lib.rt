//! Races of events that hold locks.
#![tactic(auto)]

mod apart;
mod group;
mod judging;
mod kept;
mod line;
mod locks;
mod touch;

pub use apart::Apart;
pub use judging::judge_apart;
pub use locks::Locks;
