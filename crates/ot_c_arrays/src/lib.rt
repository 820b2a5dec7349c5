//! What a file of C declares: its constants, its arrays, and its pointers to their cells.
#![tactic(auto)]

mod arrays;
mod place;
mod pointer;

pub use arrays::{Declared, declaration, named, number_of};
pub use ot_c_names::{CArray, all_cells, cell_count};
pub use place::byte_of;
pub use pointer::pointers;
