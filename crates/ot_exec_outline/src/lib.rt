//! Outlines: what a text does with cells and tasks, step by step.
#![tactic(auto)]

mod decided;
mod following;
pub mod laws;
mod noted;
mod outline;
mod program;
mod step;
mod ways;

pub use following::follow;
pub use noted::{Did, Noted, events_of};
pub use outline::outline_of;
pub use program::{NoProgram, program_of};
pub use step::Step;
pub use ways::{Asks, OneWay, Told, race_of};
