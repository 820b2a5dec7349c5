//! What statements say.
use ot_c_expressions::{Clause, Expr, Sign};
use ot_c_words::{IntegerType, Name};

/// What is assigned to: a cell of an array, or a variable, which is an array of one cell.
#[derive(Debug, Drop)]
pub struct Target {
    /// How many words are left where its name stands.
    pub left: usize,
    pub array: Name,
    pub index: Option<Expr>,
}

/// A cell of an array that an address is taken of.
#[derive(Debug, Drop)]
pub struct Spot {
    /// How many words are left where the array's name stands.
    pub left: usize,
    pub array: Name,
    pub index: Expr,
}

/// A loop's turns: its variable, from the start on, by one.
#[derive(Debug, Drop)]
pub struct Turns {
    /// How many words are left where its variable is declared.
    pub left: usize,
    /// Among the names of the text.
    pub variable: usize,
    pub kind: IntegerType,
    pub start: Expr,
    pub end: Expr,
    /// Whether the end has a turn too.
    pub through: bool,
}

/// A statement, each with how many words are left where it begins, so that it can be told where it stands.
#[derive(Debug, Drop)]
pub enum Stmt {
    Block(usize, Vec<Stmt>),
    /// `=`, or where there is a sign, that and `=`; `++` adds one.
    Assign(usize, Target, Option<Sign>, Expr),
    If(usize, Expr, Vec<Stmt>, Vec<Stmt>),
    For(usize, Turns, Vec<Stmt>),
    Task(usize, Vec<Clause>, Vec<Stmt>),
    Wait(usize, Vec<Clause>),
    Group(usize, Vec<Clause>, Vec<Stmt>),
    Yield(usize),
    /// A function, with values.
    Call(usize, Name, Vec<Expr>),
    /// `printf`, with what it prints behind its text.
    Print(usize, Vec<Expr>),
    /// `show`, with the first cell that is shown, and how many.
    Show(usize, Spot, Expr),
    /// A pointer, where its name stands, and the cell to which it points.
    Point(usize, Name, Spot),
}
