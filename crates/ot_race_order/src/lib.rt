//! Races of events by what orders tasks, and what they touch: the language, or C.
#![tactic(auto)]

mod alike;
mod apart;
mod depends;
mod judging;
pub mod laws;
mod listing;
mod order;

pub use alike::is_alike;
pub use apart::judge_apart_by;
pub use judging::judge_by;
pub use listing::races_by;
pub use order::Order;
