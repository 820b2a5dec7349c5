//! C with OpenMP, from words to values and clauses.
#![tactic(auto)]

mod clause;
mod fault;
mod front;
pub mod laws;
mod marks;
mod sign;
mod tree;
mod value;

pub use clause::read_clauses;
pub use fault::{Fault, ReadError};
pub use front::left_of;
pub use sign::{Sign, Unary};
pub use tree::{Call, Clause, Expr, Item, Operation, Place, Range, Role};
pub use value::read_value;
