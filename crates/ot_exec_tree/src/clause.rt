//! Clauses of directives.
use crate::expr::Expr;
use crate::stmt::Directive;

/// A reduction identifier (OpenMP API 5.2, section 5.5.1).
#[derive(Clone, Copy, Debug, PartialEq, Eq)]
pub enum Reducing {
    Plus,
    Times,
    And,
    Or,
    Xor,
    /// `&&`
    Both,
    /// `||`
    Either,
    Min,
    Max,
}

/// A task dependence type (OpenMP API 5.2, section 15.9.1).
#[derive(Clone, Copy, Debug, PartialEq, Eq)]
pub enum Dependence {
    In,
    Out,
    Inout,
    Mutexinoutset,
    Inoutset,
}

#[derive(Clone, Copy, Debug, PartialEq, Eq)]
pub enum Default {
    Shared,
    None,
    Private,
    Firstprivate,
}

/// What an atomic construct does.
#[derive(Clone, Copy, Debug, PartialEq, Eq)]
pub enum Action {
    Read,
    Write,
    Update,
    Capture,
}

/// What a clause says.
#[derive(Clone, Copy, Debug, PartialEq, Eq)]
pub enum Role {
    Private,
    Firstprivate,
    Lastprivate,
    Shared,
    Default(Default),
    /// For this directive alone, or for each that it may stand for.
    If(Option<Directive>),
    Final,
    Priority,
    NumThreads,
    Grainsize,
    NumTasks,
    Collapse,
    Reduction(Reducing),
    InReduction(Reducing),
    TaskReduction(Reducing),
    Depend(Dependence),
    Atomic(Action),
    Nowait,
    Nogroup,
    Untied,
    Mergeable,
    /// What says nothing of order or of data: `schedule`, `proc_bind`, `hint`, `seq_cst` and the like.
    Other,
}

/// A variable of `iterator(..)`, with its first value, its end and its step.
#[derive(Drop)]
pub struct Iterator {
    pub variable: u32,
    pub start: Expr,
    pub end: Expr,
    pub step: Option<Expr>,
}

/// A clause, at its token.
#[derive(Drop)]
pub struct Clause {
    pub at: u32,
    pub role: Role,
    pub iterators: Vec<Iterator>,
    /// Its items, or its one value.
    pub items: Vec<Expr>,
}
