//! Arrays in C: their names, and their cells as they begin.
#![tactic(auto)]

pub mod array;
pub mod laws;
mod name;

pub use array::{CArray, all_cells, cell_count};
pub use name::{is_taken, name_in_c, own_name};
