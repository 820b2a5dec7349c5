//! Clauses of directives of OpenMP become clauses of the language, and say what names mean behind them.
#![tactic(auto)]

mod clause;
mod own;
mod portion;
mod section;
mod words;

pub use clause::{Heading, group_operation, headed};
pub use own::Taking;
pub use portion::{has_copy, same_value};
pub use section::no_cells;
pub use words::{call_fold, fold_of, is_minus, is_same, operation_word};
