//! Files of C with OpenMP become programs of the language.
#![tactic(auto)]

mod known;
mod lowered;
mod region;
mod statements;
mod turns;

pub use lowered::{Lowered, Reductions, lower, lower_by_turns};
pub use ot_c_arrays::{CArray, all_cells, cell_count};
pub use ot_c_scope::{CFault, Reason};
