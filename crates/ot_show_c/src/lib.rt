//! A program over arrays as C with OpenMP, which prints what the program shows.
#![tactic(auto)]

mod array;
mod clause;
mod fold;
pub mod laws;
mod named;
mod statement;
mod value;
mod whole;

pub use fold::only_folds;
pub use named::names;
pub use statement::each_once;
pub use whole::c_text;
