//! All races of a list of events: each pair of statements of which touches race.
#![tactic(auto)]

mod compare;
mod found;
mod listing;
mod races;
mod touched;

pub use listing::all_races;
pub use races::{More, Races};
