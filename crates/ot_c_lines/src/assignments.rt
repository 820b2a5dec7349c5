//! Assignments.
ghost use Rattle.std.specs.Prelude.{◌≡◌, option_map};
ghost use Rattle.serde_json.specs.View.{view};
ghost use Rattle.ot_c_expressions.specs.Tree.{expr_of};
ghost use Rattle.ot_c_statements.specs.Tree.{aim_of, index_of};
ghost use Rattle.ot_c_scope.specs.Results.{GivesAs};
ghost use Rattle.ot_c_lines.specs.Assignments.{place_of};
ghost use Rattle.ot_c_lines.specs.Assignments as meant;

use ot_c_clauses::{call_fold, fold_of, has_copy, is_minus, is_same, no_cells, operation_word};
use ot_c_expressions::{Expr, Operation, Sign};
use ot_c_meaning::{assigned, changed};
use ot_c_scope::kind::is_word;
use ot_c_scope::{CFault, Pointee, Reason, Scope, Sense, json, size, untouched};
use ot_c_statements::Target;
use ot_c_words::{IntegerType, Name};
use serde_json::Value;
use std::alloc::Global;

/// A cell of what has so many.
fn cell_of(
    alloc: Global,
    scope: &Scope<'_>,
    left: usize,
    array: Name,
    length: Option<usize>,
    index: &Option<Expr>,
) -> Result<Value, CFault>
    ensures { GivesAs (λ v. view v) result (meant.own_cell scope.now left array length (index_of index.now)) }
{
    let name = scope.named(alloc, array)?;
    match (length, index) {
        (None, None) => Ok(json::form2(alloc, "c", name, Value::from(0u64))?),
        (Some(_), Some(index)) => {
            let (index, _) = size(alloc, scope, index)?;
            Ok(json::form2(alloc, "c", name, index)?)
        }
        (None, Some(_)) => Err(CFault::Outside(left, Reason::NoArray)),
        (Some(_), None) => Err(CFault::Outside(left, Reason::WholeArray)),
    }
}

/// Whether it is the cell itself that a pointer points to.
#[tactic(auto, unfolding(crate::specs::Assignments::is_start))]
fn is_start(index: &Option<Expr>) -> bool
    ensures { result ≡ meant.is_start (index_of index.now) }
{
    match index {
        Some(Expr::Number(_, number, _)) => *number == 0,
        _ => false,
    }
}

fn pointed_cell(
    alloc: Global,
    scope: &Scope<'_>,
    left: usize,
    cell: Pointee,
    index: &Option<Expr>,
) -> Result<Value, CFault>
    ensures { GivesAs (λ v. view v) result (meant.pointed_cell scope.now left cell (index_of index.now)) }
{
    if !is_start(index) {
        return Err(CFault::Outside(left, Reason::Pointee));
    }
    let name = scope.named(alloc, Name::Other(cell.array))?;
    Ok(json::form2(alloc, "c", name, Value::from(cell.place))?)
}

/// What is assigned to: a pointer's cell or how many cells there are; their type; and by which operation the task folds into
/// its own copy of it, if it has one.
#[derive(Clone, Copy)]
pub(crate) struct Placed {
    pointee: Option<Pointee>,
    pub(crate) kind: IntegerType,
    length: Option<usize>,
    pub(crate) own: Option<Operation>,
}

pub(crate) fn aimed(left: usize, sense: Sense) -> Result<Placed, CFault>
    ensures { GivesAs place_of result (meant.aimed_place left sense) }
{
    match sense {
        Sense::Cells(kind, length) => {
            Ok(Placed {
                pointee: None,
                kind,
                length,
                own: None,
            })
        }
        Sense::Combined(opening, kind, length) => {
            if opening.own {
                Ok(Placed {
                    pointee: opening.pointee,
                    kind,
                    length,
                    own: Some(opening.operation),
                })
            } else {
                Err(CFault::Outside(left, Reason::Combined))
            }
        }
        other => Err(CFault::Outside(left, no_cells(other))),
    }
}

/// No open group combines by a pointer over an array's cell that is assigned to.
fn free(scope: &Scope<'_>, left: usize, array: Name, index: &Option<Expr>) -> Result<(), CFault>
    ensures { GivesAs (λ x. x) result (meant.free scope.now left array (index_of index.now)) }
{
    match index {
        Some(index) => untouched(scope, left, array, index),
        None => Ok(()),
    }
}

/// Whether it is a cell of which the task has a copy, or is an array's or a variable's own.
fn is_copied(scope: &Scope<'_>, array: Name, placed: Placed, index: &Option<Expr>) -> bool
    ensures { result ≡ meant.is_copied scope.now array (place_of placed) (index_of index.now) }
{
    match (placed.own, index) {
        (Some(_), Some(index)) => has_copy(scope, array, placed.length, index),
        _ => true,
    }
}

/// The cell that is assigned to.
pub(crate) fn cell_aimed(
    alloc: Global,
    scope: &Scope<'_>,
    target: &Target,
    placed: Placed,
) -> Result<Value, CFault>
    ensures { GivesAs (λ v. view v) result (meant.cell_aimed scope.now (aim_of target.now) (place_of placed)) }
{
    let left = target.left;
    match placed.pointee {
        None => {
            free(scope, left, target.array, &target.index)?;
            if !is_copied(scope, target.array, placed, &target.index) {
                return Err(CFault::Outside(left, Reason::Combined));
            }
            let length = placed.length;
            cell_of(alloc, scope, left, target.array, length, &target.index)
        }
        Some(cell) => pointed_cell(alloc, scope, left, cell, &target.index),
    }
}

/// The cell folded into by a value.
fn fold(alloc: Global, operation: Operation, cell: Value, value: Value) -> Result<Value, CFault>
    ensures { GivesAs (λ v. view v) result (Ok (meant.fold operation (view cell) (view value))) }
{
    let word = json::text(alloc, operation_word(operation))?;
    Ok(json::form3(alloc, "fold", word, cell, value)?)
}

/// A value, or where it is taken away the same below zero.
fn taken(alloc: Global, minus: bool, value: Value) -> Result<Value, CFault>
    ensures { GivesAs (λ v. view v) result (Ok (meant.taken_away minus (view value))) }
{
    if minus {
        Ok(json::form2(alloc, "-", Value::from(0u64), value)?)
    } else {
        Ok(value)
    }
}

/// Whether a task whose own copy has this operation, if it is one, may fold by another.
fn may_fold(own: Option<Operation>, operation: Operation) -> bool
    ensures { result ≡ meant.may_fold own operation }
{
    match own {
        Some(own) => is_same(own, operation),
        None => true,
    }
}

/// A fold: `cell op= expr`, of a cell of a type.
pub(crate) fn change(
    alloc: Global,
    scope: &Scope<'_>,
    left: usize,
    own: Option<Operation>,
    kind: IntegerType,
    cell: Value,
    folds: (Option<Operation>, bool),
    expr: &Expr,
) -> Result<Value, CFault>
    ensures { GivesAs (λ v. view v) result (meant.changed_cell scope.now left own kind (view cell) folds (expr_of expr.now)) }
{
    let (Some(operation), minus) = folds else {
        return Err(CFault::Outside(left, Reason::OwnCopy));
    };
    if !may_fold(own, operation) {
        return Err(CFault::Outside(left, Reason::OwnCopy));
    }
    let value = changed(alloc, scope, kind, operation, minus, expr)?;
    let value = taken(alloc, minus, value)?;
    fold(alloc, operation, cell, value)
}

/// Whether two places are the same number, or the same name.
#[tactic(auto, unfolding(crate::specs::Assignments::same_place))]
fn same_place(one: &Expr, two: &Expr) -> bool
    ensures { result ≡ meant.same_place (expr_of one.now) (expr_of two.now) }
{
    match (one, two) {
        (Expr::Number(_, one, _), Expr::Number(_, two, _)) => *one == *two,
        (Expr::Variable(_, Name::Other(one)), Expr::Variable(_, Name::Other(two))) => {
            *one == *two
        }
        _ => false,
    }
}

#[tactic(auto, unfolding(crate::specs::Assignments::is_target_by))]
fn is_target_by(array: Name, index: &Option<Expr>, expr: &Expr) -> bool
    ensures { result ≡ meant.is_target_by array (index_of index.now) (expr_of expr.now) }
{
    match (array, index, expr) {
        (Name::Other(one), None, Expr::Variable(_, Name::Other(two))) => one == *two,
        (Name::Other(one), Some(place), Expr::Cell(_, Name::Other(two), other)) => {
            one == *two && same_place(place, other)
        }
        _ => false,
    }
}

/// Whether a value is what is assigned to.
pub(crate) fn is_target(target: &Target, expr: &Expr) -> bool
    ensures { result ≡ meant.is_target (aim_of target.now) (expr_of expr.now) }
{
    is_target_by(target.array, &target.index, expr)
}

/// `x = x op e`, `x = min(x, e)` or `x = max(x, e)`, where a task has a copy of x of its own.
fn own_set(
    alloc: Global,
    scope: &Scope<'_>,
    left: usize,
    own: Operation,
    kind: IntegerType,
    cell: Value,
    target: &Target,
    expr: &Expr,
) -> Result<Value, CFault>
    ensures { GivesAs (λ v. view v) result (meant.own_set scope.now left own kind (view cell) (aim_of target.now) (expr_of expr.now)) }
{
    let own = Some(own);
    match expr {
        Expr::Op(_, sign, one, two) => {
            if !is_target(target, one) {
                return Err(CFault::Outside(left, Reason::OwnCopy));
            }
            let folds = (fold_of(*sign), is_minus(*sign));
            change(alloc, scope, left, own, kind, cell, folds, two)
        }
        Expr::Call(_, call, one, two) => {
            if !is_target(target, one) {
                return Err(CFault::Outside(left, Reason::OwnCopy));
            }
            let folds = (Some(call_fold(*call)), false);
            change(alloc, scope, left, own, kind, cell, folds, two)
        }
        Expr::Number(_, _, _) | Expr::Variable(_, _) | Expr::Cell(_, _, _) | Expr::Cast(_) => {
            Err(CFault::Outside(left, Reason::OwnCopy))
        }
        Expr::Unary(_, _, _) | Expr::Choice(_, _, _, _) => {
            Err(CFault::Outside(left, Reason::OwnCopy))
        }
    }
}

/// `x = min(x, e)` or `x = max(x, e)` of a `uint64_t`: by which operation e is folded into x.
#[tactic(auto, unfolding(crate::specs::Assignments::called_fold))]
fn called_fold<'a>(
    kind: IntegerType,
    target: &Target,
    expr: &'a Expr,
) -> Option<(Operation, &'a Expr)>
    ensures { option_map (λ x. (x.0, expr_of x.1.now)) result ≡ meant.called_fold kind (aim_of target.now) (expr_of expr.now) }
{
    match expr {
        Expr::Call(_, call, one, two) => {
            if is_word(kind) && is_target(target, one) {
                Some((call_fold(*call), &**two))
            } else {
                None
            }
        }
        _ => None,
    }
}

/// `cell = expr`, of a cell of a type.
fn set(
    alloc: Global,
    scope: &Scope<'_>,
    kind: IntegerType,
    cell: Value,
    target: &Target,
    expr: &Expr,
) -> Result<Value, CFault>
    ensures { GivesAs (λ v. view v) result (meant.set_cell_form scope.now kind (view cell) (aim_of target.now) (expr_of expr.now)) }
{
    match called_fold(kind, target, expr) {
        Some((operation, more)) => {
            let folds = (Some(operation), false);
            change(alloc, scope, target.left, None, kind, cell, folds, more)
        }
        None => {
            let value = assigned(alloc, scope, kind, expr)?;
            Ok(json::form2(alloc, "set", cell, value)?)
        }
    }
}

/// An assignment.
pub fn assignment(
    alloc: Global,
    scope: &Scope<'_>,
    target: &Target,
    sign: Option<Sign>,
    expr: &Expr,
) -> Result<Value, CFault>
    ensures { GivesAs (λ v. view v) result (meant.assignment scope.now (aim_of target.now) sign (expr_of expr.now)) }
{
    let left = target.left;
    let placed = aimed(left, scope.sense(target.array))?;
    let cell = cell_aimed(alloc, scope, target, placed)?;
    let kind = placed.kind;
    match (sign, placed.own) {
        (Some(sign), own) => {
            let folds = (fold_of(sign), is_minus(sign));
            change(alloc, scope, left, own, kind, cell, folds, expr)
        }
        (None, None) => set(alloc, scope, kind, cell, target, expr),
        (None, Some(own)) => own_set(alloc, scope, left, own, kind, cell, target, expr),
    }
}
