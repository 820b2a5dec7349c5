//! A whole text.
use crate::expr::{Expr, Initial};
use crate::kind::{Record, Type};
use crate::stmt::Stmt;

/// Where a variable lives (ISO C11, section 6.2.4).
#[derive(Clone, Copy, Debug, PartialEq, Eq)]
pub enum Storage {
    /// Of the file, or `static`.
    Static,
    /// `extern`, and nowhere defined here.
    Extern,
    /// `threadprivate`
    Threadprivate,
    /// Of a block.
    Automatic,
    Parameter,
}

#[derive(Drop)]
pub struct Variable {
    /// Its number among the names.
    pub name: u32,
    /// Its type's number.
    pub kind: u32,
    pub storage: Storage,
    /// Whether it is `_Atomic`.
    pub is_atomic: bool,
    /// The token at which it is declared.
    pub at: u32,
    /// The initial value of a static one. That of another stands where it is declared.
    pub initial: Option<Initial>,
}

#[derive(Drop)]
pub struct Function {
    pub name: u32,
    /// The number of its type.
    pub kind: u32,
    /// Its parameters, by the numbers of their variables. As long as it has no body there are none.
    pub parameters: Vec<u32>,
    /// None where it is only declared.
    pub body: Option<Stmt>,
    pub at: u32,
}

/// An enumerator: so much more than the value, or than 0.
#[derive(Drop)]
pub struct Enumerator {
    pub value: Option<Expr>,
    pub more: u32,
}

/// What a text declares, in its order. Types, records, variables, functions and enumerators have numbers: their places here.
#[derive(Drop)]
pub struct Unit {
    pub types: Vec<Type>,
    pub records: Vec<Record>,
    pub enumerators: Vec<Enumerator>,
    pub variables: Vec<Variable>,
    pub functions: Vec<Function>,
}
