//! Trees of C with OpenMP.
#![tactic(auto)]

mod clause;
mod expr;
mod kind;
mod stmt;
mod unit;

pub use clause::{Action, Clause, Default, Dependence, Iterator, Reducing, Role};
pub use expr::{Binary, Designator, Entry, Expr, Initial, Sign};
pub use kind::{Integer, Length, Member, Record, Type};
pub use stmt::{Directive, Stmt};
pub use unit::{Enumerator, Function, Storage, Unit, Variable};
