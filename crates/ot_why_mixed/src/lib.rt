//! Which cell the clauses of a task declare under `red` and otherwise.
#![tactic(auto)]

mod clause;
mod mixed;

pub use mixed::mixed_in;
