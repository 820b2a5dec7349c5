//! What words say.
use crate::sign::{Sign, Unary};
use ot_c_words::{IntegerType, Name};

/// A function that a value calls.
#[derive(Clone, Copy, Debug, PartialEq, Eq)]
pub enum Call {
    Min,
    Max,
}

/// A value. Each part but a cast has how many words are left where its own word stands: a number, a name, or a sign.
#[derive(Debug, Drop)]
pub enum Expr {
    Number(usize, u64, IntegerType),
    /// A name alone: a loop's variable, a constant, or an array of one cell.
    Variable(usize, Name),
    /// A cell of an array: any value may stand for its place.
    Cell(usize, Name, Box<Expr>),
    /// `(uint64_t)` before a value
    Cast(Box<Expr>),
    Unary(usize, Unary, Box<Expr>),
    Call(usize, Call, Box<Expr>, Box<Expr>),
    Op(usize, Sign, Box<Expr>, Box<Expr>),
    /// `test ? one : other`
    Choice(usize, Box<Expr>, Box<Expr>, Box<Expr>),
}

/// What a reduction combines by (OpenMP API 5.2, section 5.5.5).
#[derive(Clone, Copy, Debug, PartialEq, Eq)]
pub enum Operation {
    Plus,
    Times,
    And,
    Or,
    Xor,
    Min,
    Max,
}

/// What a clause says, of its items where it has any.
#[derive(Clone, Copy, Debug, PartialEq, Eq)]
pub enum Role {
    In,
    Out,
    Inout,
    /// `in_reduction`
    Reduces(Operation),
    /// `task_reduction`
    Combines(Operation),
    Shared,
    Firstprivate,
    /// `default(shared)`
    Default,
    /// `default(none)`: what is named is listed.
    DefaultNone,
    NumThreads,
    Priority,
    Untied,
    Mergeable,
}

/// What of an array: all of it, or cells in a row: the first one, and how many.
#[derive(Debug, Drop)]
pub enum Place {
    Whole,
    Cells(Expr, Expr),
}

#[derive(Debug, Drop)]
pub struct Item {
    /// How many words are left where its name stands.
    pub left: usize,
    pub array: Name,
    pub place: Place,
}

/// What an iterator goes over: from the first to before the end.
#[derive(Debug, Drop)]
pub struct Range {
    pub variable: Name,
    pub start: Expr,
    pub end: Expr,
}

/// A clause of a directive.
#[derive(Debug, Drop)]
pub struct Clause {
    /// How many words are left where its name stands.
    pub left: usize,
    pub role: Role,
    pub over: Option<Range>,
    pub items: Vec<Item>,
}
