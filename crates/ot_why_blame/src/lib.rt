//! What a statement of a program offends against, and which other statement has a part in it.
#![tactic(auto)]

mod around;
mod child;
mod left;
mod offence;
mod pending;
mod places;
mod race;
mod through;
mod touch;
mod walk;
mod wanted;
mod wrong;

pub use offence::{Blame, Blamed, find_blame};
