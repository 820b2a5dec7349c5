//! Where expressions stand.
use ot_exec_tree::{Expr, Sign};

/// The token of an expression.
pub(crate) fn at_of(expr: &Expr) -> u32 {
    match expr {
        Expr::Number(at, _, _) => *at,
        Expr::Real(at, _)
        | Expr::Text(at, _)
        | Expr::Variable(at, _)
        | Expr::Function(at, _)
        | Expr::Enumerator(at, _)
        | Expr::Undeclared(at, _)
        | Expr::SizeOfType(at, _)
        | Expr::Kind(at, _) => *at,
        Expr::Unary(at, _, _) => *at,
        Expr::StepBefore(at, _, _) | Expr::StepBehind(at, _, _) => *at,
        Expr::Binary(at, _, _, _) => *at,
        Expr::Assign(at, _, _, _) => *at,
        Expr::Choice(at, _, _, _) => *at,
        Expr::Comma(at, _, _) | Expr::Index(at, _, _) => *at,
        Expr::Cast(at, _, _) => *at,
        Expr::SizeOf(at, _) => *at,
        Expr::Literal(at, _, _) => *at,
        Expr::Section(at, _, _, _) => *at,
        Expr::Member(at, _, _) | Expr::Arrow(at, _, _) => *at,
        Expr::Call(at, _, _) => *at,
    }
}

/// The token at which the name of a place begins.
pub(crate) fn site_of(expr: &Expr) -> u32 {
    match expr {
        Expr::Index(_, one, _) | Expr::Section(_, one, _, _) => site_of(one),
        Expr::Member(_, one, _) | Expr::Arrow(_, one, _) => site_of(one),
        Expr::Unary(at, Sign::Follow, _) => *at,
        other => at_of(other),
    }
}
