//! Expressions. Each has the number of the token at which it stands: of an operator between two, that of the operator.
use crate::kind::Integer;

/// What stands before an operand.
#[derive(Clone, Copy, Debug, PartialEq, Eq)]
pub enum Sign {
    Plus,
    Minus,
    /// `~`
    Complement,
    /// `!`
    Not,
    /// `&`
    Address,
    /// `*`
    Follow,
}

/// What stands between two operands.
#[derive(Clone, Copy, Debug, PartialEq, Eq)]
pub enum Binary {
    Add,
    Subtract,
    Multiply,
    Divide,
    Remainder,
    And,
    Or,
    Xor,
    ShiftLeft,
    ShiftRight,
    Less,
    LessOrEqual,
    Greater,
    GreaterOrEqual,
    Equal,
    NotEqual,
    /// `&&`
    Both,
    /// `||`
    Either,
}

/// Where an initial value goes: an element, or a member.
#[derive(Drop)]
#[cycle(expr)]
pub enum Designator {
    Element(Expr),
    Member(u32),
}

/// One of a list of initial values.
#[derive(Drop)]
#[cycle(expr)]
pub struct Entry {
    /// None for the next element or member.
    pub path: Vec<Designator>,
    pub value: Initial,
}

/// An initial value (ISO C11, section 6.7.9).
#[derive(Drop)]
#[cycle(expr)]
pub enum Initial {
    Value(Expr),
    /// At this token a list begins.
    List(u32, Vec<Entry>),
}

#[derive(Drop)]
#[cycle(expr)]
pub enum Expr {
    Number(u32, u64, Integer),
    /// A floating constant, of so many bytes. Its value isn't kept.
    Real(u32, u32),
    /// A string: how many bytes it has with the 0 behind them.
    Text(u32, u32),
    /// A variable, by its number in the unit.
    Variable(u32, u32),
    /// A function, by its number.
    Function(u32, u32),
    /// An enumerator, by its number.
    Enumerator(u32, u32),
    /// A name that isn't declared, which a call may have: its number among the names.
    Undeclared(u32, u32),
    Unary(u32, Sign, Box<Expr>),
    /// `++x` or `--x`: whether it adds one.
    StepBefore(u32, bool, Box<Expr>),
    /// `x++` or `x--`
    StepBehind(u32, bool, Box<Expr>),
    Binary(u32, Binary, Box<Expr>, Box<Expr>),
    /// `=`, or an operator and `=`.
    Assign(u32, Option<Binary>, Box<Expr>, Box<Expr>),
    /// `test ? one : other`
    Choice(u32, Box<Expr>, Box<Expr>, Box<Expr>),
    Comma(u32, Box<Expr>, Box<Expr>),
    /// To the type of this number.
    Cast(u32, u32, Box<Expr>),
    SizeOfType(u32, u32),
    SizeOf(u32, Box<Expr>),
    /// A compound literal: the variable that it makes. Its initial value is here.
    Literal(u32, u32, Box<Initial>),
    Index(u32, Box<Expr>, Box<Expr>),
    /// An array section `a[start : length]` (OpenMP API 5.2, section 3.2.5).
    Section(u32, Box<Expr>, Option<Box<Expr>>, Option<Box<Expr>>),
    /// `a.name`
    Member(u32, Box<Expr>, u32),
    /// `a->name`
    Arrow(u32, Box<Expr>, u32),
    Call(u32, Box<Expr>, Vec<Expr>),
    /// A type where a value may stand, as in `va_arg`.
    Kind(u32, u32),
}
