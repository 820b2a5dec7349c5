//! Task programs as trees, their cells, and the plain evaluator: each task is executed where it is
//! created.
#![tactic(auto)]

pub mod cells;
mod declared;
pub mod expr;
pub mod fold;
mod meeting;
pub mod plain;
pub mod program;
pub mod shape;
mod signs;
pub mod stmt;

pub use cells::Cells;
pub use expr::{Cell, Expr, Look, Op, Section, value};
pub use fold::{Fold, Monoid};
pub use plain::{Counts, plain_run};
pub use program::Program;
pub use shape::{ArrayShape, Shape};
pub use stmt::{Decl, Mode, Stmt, Use, same_stmts};
