//! Whether a program is straight.
ghost use Rattle.std.specs.Prelude.{◌≡◌};
ghost use Rattle.ot_model.specs.View.{expr_of, stmt_of, stmts_of};
ghost use Rattle.ot_race_ways.specs.Straight.{is_fixed, is_straight, is_straight_one};

use crate::known::{is_straight_if, known_number, names_none};
use ot_model::{Expr, Stmt};

/// Whether a body has no picks and no branches but those whose values and conditions name no cell: the way through it does what its
/// run does.
#[cycle(straight)]
pub fn is_straight(body: &Vec<Stmt>) -> bool
    ensures { result ≡ is_straight (stmts_of body.now.items) }
{
    for stmt in body {
        if !is_straight_one(stmt) {
            return false;
        }
    }
    true
}

#[cycle(straight)]
fn is_straight_one(stmt: &Stmt) -> bool
    ensures { result ≡ is_straight_one (stmt_of stmt.now) }
{
    match stmt {
        Stmt::Set(_, expr) | Stmt::Fold(_, _, expr) => is_fixed(expr),
        Stmt::If(expr, one, two) => {
            is_straight_if(known_number(expr), is_straight(one), is_straight(two))
        }
        Stmt::Wait(_) => true,
        Stmt::Task(_, body) | Stmt::Group(_, _, body) => is_straight(body),
    }
}

/// Whether a value reads the same cells whatever they hold.
fn is_fixed(expr: &Expr) -> bool
    ensures { result ≡ is_fixed (expr_of expr.now) }
{
    match expr {
        Expr::Number(_) | Expr::Cell(_) => true,
        Expr::Op(_, one, two) => is_fixed(one) && is_fixed(two),
        Expr::Pick(section, chosen) => names_none(chosen) && section.len > 0,
    }
}
