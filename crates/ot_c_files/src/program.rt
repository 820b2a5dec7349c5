//! What a file says.
use ot_c_expressions::{Clause, Expr};
use ot_c_statements::Stmt;
use ot_c_words::{IntegerType, Name};

/// What a variable begins with.
#[derive(Debug, Drop)]
pub enum Initial {
    Nothing,
    Value(Expr),
    /// Some of an array's, from its first cell on.
    Values(Vec<Expr>),
}

/// A variable, or an array where it has a length.
#[derive(Debug, Drop)]
pub struct Variable {
    /// How many words are left where its name stands.
    pub left: usize,
    pub name: Name,
    /// In cells.
    pub length: Option<Expr>,
    pub initial: Initial,
}

/// Variables of a type.
#[derive(Debug, Drop)]
pub struct Declaration {
    /// Whether it says `static`.
    pub stays: bool,
    pub kind: IntegerType,
    pub variables: Vec<Variable>,
}

/// What stands in a file before `main`, a constant and a function with how many words are left where its name stands.
#[derive(Debug, Drop)]
pub enum Top {
    /// A name that stands for a value from here on: its number among the names of the text.
    Constant(usize, usize, Expr),
    Declares(Declaration),
    /// A function without parameters that gives nothing, and what it does.
    Function(usize, Name, Vec<Stmt>),
}

/// What `main` does.
#[derive(Debug, Drop)]
pub enum Step {
    Declares(Declaration),
    /// A parallel region, with how many words are left where it begins, of which one thread does these statements.
    Region(usize, Vec<Clause>, Vec<Stmt>),
    Does(Stmt),
}

/// A file: what stands before `main`, and what that does, both in their order.
#[derive(Debug, Drop)]
pub struct File {
    pub tops: Vec<Top>,
    pub main: Vec<Step>,
}
