//! C with OpenMP, from words to statements.
#![tactic(auto)]

mod directive;
mod fault;
pub mod marks;
mod part;
mod simple;
mod statement;
mod tree;
mod turns;

pub use directive::{Directive, own_clauses};
pub use fault::{Fault, ReadError, words_left};
pub use part::{read_index, value, values};
pub use statement::{read_block, read_body, read_statement};
pub use tree::{Spot, Stmt, Target, Turns};
pub use turns::{integer_type, type_word};
