//! Statements and directives.
use crate::clause::Clause;
use crate::expr::{Expr, Initial};

/// A directive that is read, or one of those of which a combined one is made.
#[derive(Clone, Copy, Debug, PartialEq, Eq)]
pub enum Directive {
    Parallel,
    For,
    Sections,
    Section,
    Single,
    /// `master` and `masked`
    Masked,
    Task,
    Taskloop,
    Taskgroup,
    Taskwait,
    Taskyield,
    Critical,
    Atomic,
    Barrier,
    Simd,
    Flush,
    Scope,
}

/// A statement, with the number of the token at which it begins.
#[derive(Drop)]
pub enum Stmt {
    Empty(u32),
    Does(Expr),
    /// A variable of a block begins, with its initial value.
    Declares(u32, u32, Option<Initial>),
    /// The statements of a block, and the token at which it ends.
    Block(u32, Vec<Stmt>, u32),
    If(u32, Expr, Box<Stmt>, Option<Box<Stmt>>),
    While(u32, Expr, Box<Stmt>),
    /// The statement goes first.
    Do(u32, Box<Stmt>, Expr),
    /// What is done first, the test, what is done behind each turn, and the body. The whole is a block.
    For(u32, Vec<Stmt>, Option<Expr>, Option<Expr>, Box<Stmt>),
    Switch(u32, Expr, Box<Stmt>),
    /// `case VALUE:`, or `default:`, before the next statement.
    Case(u32, Option<Expr>),
    Break(u32),
    Continue(u32),
    Return(u32, Option<Expr>),
    /// `goto`, with the label's name.
    Goto(u32, u32),
    Label(u32, u32),
    /// The directives of which it is made, the name of a `critical` one, its clauses, and its body if it has one.
    Construct(u32, Vec<Directive>, Option<u32>, Vec<Clause>, Option<Box<Stmt>>),
}
