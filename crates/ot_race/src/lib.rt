//! Races of programs: two touches of a cell that nothing orders.
#![tactic(auto)]

mod count;
mod ends;
mod event;
mod first_race;
mod histories;
mod history;
mod judging;
mod lanes;
pub mod laws;
mod order;
mod race;
mod run;
mod siblings;
mod standing;
mod touch;
mod uses;

pub use event::{Deed, Event};
pub use first_race::{run_events, this_run};
pub use judging::judge;
pub use order::Standings;
pub use race::Race;
pub use uses::{fold_as, note, note_writes};
