//! A greatest or least number that an `if` keeps: where a task has a copy of x of its own, `if (x < e) x = e;` is
//! `x = max(x, e);`.
ghost use Rattle.std.specs.Prelude.{◌≡◌, option_map};
ghost use Rattle.serde_json.specs.View.{view};
ghost use Rattle.ot_c_expressions.specs.Tree.{expr_of};
ghost use Rattle.ot_c_statements.specs.Tree.{aim_of, stmt_of, list_of, body_of};
ghost use Rattle.ot_c_scope.specs.Results.{GivesAs};
ghost use Rattle.ot_c_lines.specs.Extremes.{kept_of};
ghost use Rattle.ot_c_lines.specs.Extremes as meant;

use crate::assignments::{aimed, cell_aimed, change, is_target};
use ot_c_clauses::same_value;
use ot_c_expressions::{Expr, Operation, Sign};
use ot_c_scope::{CFault, Scope, Sense};
use ot_c_statements::{Stmt, Target};
use serde_json::Value;
use std::alloc::Global;

/// What is assigned to, by which operation the `if` folds into it, and what.
#[derive(Clone, Copy)]
pub struct Extreme<'a> {
    pub target: &'a Target,
    pub operation: Operation,
    pub expr: &'a Expr,
}

/// What `if (one < other) target = expr;` keeps.
fn kept_below<'a>(
    target: &'a Target,
    one: &Expr,
    other: &Expr,
    expr: &'a Expr,
) -> Option<Extreme<'a>>
    ensures { option_map kept_of result ≡ meant.kept_below (aim_of target.now) (expr_of one.now) (expr_of other.now) (expr_of expr.now) }
{
    if is_target(target, one) && same_value(other, expr) {
        return Some(Extreme {
            target,
            operation: Operation::Max,
            expr,
        });
    }
    if is_target(target, other) && same_value(one, expr) {
        return Some(Extreme {
            target,
            operation: Operation::Min,
            expr,
        });
    }
    None
}

/// What `if (test) target = expr;` keeps, of which `x > y` is `y < x`.
#[tactic(auto, unfolding(crate::specs::Extremes::kept_by))]
fn kept_by<'a>(test: &Expr, target: &'a Target, expr: &'a Expr) -> Option<Extreme<'a>>
    ensures { option_map kept_of result ≡ meant.kept_by (expr_of test.now) (aim_of target.now) (expr_of expr.now) }
{
    match test {
        Expr::Op(_, Sign::Less, one, other) => kept_below(target, one, other, expr),
        Expr::Op(_, Sign::More, one, other) => kept_below(target, other, one, expr),
        _ => None,
    }
}

/// Whether a task has a copy of its own.
fn is_own(sense: Sense) -> bool
    ensures { result ≡ meant.is_own sense }
{
    match sense {
        Sense::Combined(opening, _, _) => opening.own,
        _ => false,
    }
}

/// What `target = expr;` assigns to what.
#[tactic(auto, unfolding(crate::specs::Extremes::set_of))]
fn set_of(stmt: &Stmt) -> Option<(&Target, &Expr)>
    ensures { option_map (λ x. (aim_of x.0.now, expr_of x.1.now)) result ≡ meant.set_of (stmt_of stmt.now) }
{
    match stmt {
        Stmt::Assign(_, target, None, expr) => Some((target, expr)),
        _ => None,
    }
}

/// The only statement of a body.
fn only(stmts: &[Stmt]) -> Option<&Stmt>
    ensures { option_map (λ s. stmt_of s.now) result ≡ meant.only (body_of (list_of stmts.now)) }
{
    match stmts {
        [] => None,
        [stmt] => Some(stmt),
        _ => None,
    }
}

/// What an `if` without an `else` does, if it is one assignment.
fn only_set<'a>(one: &'a [Stmt], two: &[Stmt]) -> Option<(&'a Target, &'a Expr)>
    ensures { option_map (λ x. (aim_of x.0.now, expr_of x.1.now)) result ≡ meant.only_set (body_of (list_of one.now)) (body_of (list_of two.now)) }
{
    match two {
        [] => set_of(only(one)?),
        _ => None,
    }
}

/// What an `if` keeps in a task's own copy, if it does.
pub fn kept_if<'a>(
    scope: &Scope<'_>,
    test: &Expr,
    one: &'a [Stmt],
    two: &[Stmt],
) -> Option<Extreme<'a>>
    ensures { option_map kept_of result ≡ meant.kept_if scope.now (expr_of test.now) (body_of (list_of one.now)) (body_of (list_of two.now)) }
{
    let (target, expr) = only_set(one, two)?;
    if is_own(scope.sense(target.array)) {
        kept_by(test, target, expr)
    } else {
        None
    }
}

/// The fold that stands for such an `if`.
pub fn extreme_folded(
    alloc: Global,
    scope: &Scope<'_>,
    extreme: &Extreme<'_>,
) -> Result<Value, CFault>
    ensures { GivesAs (λ v. view v) result (meant.extreme_folded scope.now (kept_of extreme.now)) }
{
    let target = extreme.target;
    let left = target.left;
    let placed = aimed(left, scope.sense(target.array))?;
    let cell = cell_aimed(alloc, scope, target, placed)?;
    let folds = (Some(extreme.operation), false);
    change(
        alloc,
        scope,
        left,
        placed.own,
        placed.kind,
        cell,
        folds,
        extreme.expr,
    )
}
