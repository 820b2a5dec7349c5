//! What is assigned to cells, in the types that it has in C.
ghost use Rattle.std.specs.Prelude.{◌≡◌};
ghost use Rattle.serde_json.specs.View.{view};
ghost use Rattle.ot_c_expressions.specs.Tree.{expr_of};
ghost use Rattle.ot_c_scope.specs.Results.{GivesAs};
ghost use Rattle.ot_c_meaning.specs.Arithmetic.{worth_of};
ghost use Rattle.ot_c_meaning.specs.Stores as stores;

use crate::arithmetic::{Basic, Worth, agrees, disagrees, is_counted, result_kind, result_whole};
use crate::values::value;
use ot_c_expressions::{Expr, Operation, left_of};
use ot_c_scope::kind::{holds, is_signed, joined, keeps};
use ot_c_scope::{CFault, Reason, Scope, constant};
use ot_c_words::IntegerType;
use serde_json::Value;
use std::alloc::Global;

/// Whether a number is known that a type holds.
fn fits(kind: IntegerType, known: Option<(u64, IntegerType)>) -> bool
    ensures { result ≡ stores.fits kind known }
{
    match known {
        Some((number, _)) => holds(kind, number),
        None => false,
    }
}

/// `cell = expr`, of a cell of a type: what is put into it.
pub fn assigned(
    alloc: Global,
    scope: &Scope<'_>,
    kind: IntegerType,
    expr: &Expr,
) -> Result<Value, CFault>
    ensures { GivesAs (λ v. view v) result (stores.value_assigned scope.now kind (expr_of expr.now)) }
{
    let worth = value(alloc, scope, expr)?;
    if keeps(kind, worth.kind, worth.whole) || fits(kind, constant(scope, expr)) {
        Ok(worth.value)
    } else {
        Err(CFault::Outside(left_of(expr), Reason::Conversion))
    }
}

/// Whether what a sign makes of a type goes into a cell.
fn kept_in(
    left: usize,
    basic: Basic,
    target: IntegerType,
    kind: IntegerType,
    whole: bool,
) -> Result<(), CFault>
    ensures { GivesAs (λ x. x) result (stores.kept_in left basic target kind whole) }
{
    if !agrees(basic, kind, whole) {
        return Err(CFault::Outside(left, disagrees(basic)));
    }
    let result = result_kind(basic, kind);
    if keeps(target, result, result_whole(basic, kind, whole)) {
        Ok(())
    } else {
        Err(CFault::Outside(left, Reason::Conversion))
    }
}

/// Whether a cell of a type and a value with a sign between go into the cell.
fn kept(left: usize, basic: Basic, kind: IntegerType, worth: &Worth) -> Result<(), CFault>
    ensures { GivesAs (λ x. x) result (stores.value_kept left basic kind (worth_of worth.now)) }
{
    let whole = !is_signed(kind) && worth.whole;
    kept_in(left, basic, kind, joined(kind, worth.kind), whole)
}

/// Whether the `min` or `max` of a cell of a type and a value goes into the cell.
fn kept_extreme(left: usize, kind: IntegerType, worth: &Worth) -> Result<(), CFault>
    ensures { GivesAs (λ x. x) result (stores.kept_extreme left kind (worth_of worth.now)) }
{
    if is_signed(kind) || !is_counted(worth) {
        return Err(CFault::Outside(left, Reason::Signed));
    }
    if keeps(kind, IntegerType::UnsignedLong, true) {
        Ok(())
    } else {
        Err(CFault::Outside(left, Reason::Conversion))
    }
}

/// The sign of a sum, or of a difference.
fn sum(minus: bool) -> Basic
    ensures { result ≡ stores.sum minus }
{
    if minus { Basic::Minus } else { Basic::Plus }
}

/// Whether a cell of a type and a value, by an operation, go into the cell.
fn folded(
    left: usize,
    kind: IntegerType,
    operation: Operation,
    minus: bool,
    worth: &Worth,
) -> Result<(), CFault>
    ensures { GivesAs (λ x. x) result (stores.value_folded left kind operation minus (worth_of worth.now)) }
{
    match operation {
        Operation::Plus => kept(left, sum(minus), kind, worth),
        Operation::Times => kept(left, Basic::Times, kind, worth),
        Operation::And => kept(left, Basic::And, kind, worth),
        Operation::Or => kept(left, Basic::Or, kind, worth),
        Operation::Xor => kept(left, Basic::Xor, kind, worth),
        Operation::Min | Operation::Max => kept_extreme(left, kind, worth),
    }
}

/// `cell op= expr`, of a cell of a type, or `cell -= expr` where it is taken away from a sum: what is folded into it, or
/// taken away.
pub fn changed(
    alloc: Global,
    scope: &Scope<'_>,
    kind: IntegerType,
    operation: Operation,
    minus: bool,
    expr: &Expr,
) -> Result<Value, CFault>
    ensures { GivesAs (λ v. view v) result (stores.value_changed scope.now kind operation minus (expr_of expr.now)) }
{
    let worth = value(alloc, scope, expr)?;
    folded(left_of(expr), kind, operation, minus, &worth)?;
    Ok(worth.value)
}
