//! Values: numbers that a program computes.
ghost use Rattle.std.specs.Prelude.{◌≡◌, ◌&&◌};
ghost use Rattle.serde_json.specs.View.{view};
ghost use Rattle.ot_c_expressions.specs.Tree.{expr_of};
ghost use Rattle.ot_c_scope.specs.Results.{GivesAs};
ghost use Rattle.ot_c_meaning.specs.Arithmetic.{worth_of};
ghost use Rattle.ot_c_meaning.specs.Values as values;

use crate::arithmetic::{
    Worth, by_way, called, choice, has_rest, held, left_out, signed, way_of, whole, word,
};
use ot_c_expressions::{Expr, Sign};
use ot_c_scope::json::{form2, three};
use ot_c_scope::{CFault, Reason, Scope, Sense, both, constant, no_number, size, untouched};
use ot_c_words::{IntegerType, Name};
use serde_json::Value;
use std::alloc::Global;

/// The name of an array, a cell of which is wanted, and its cells' type.
fn array_name(
    alloc: Global,
    scope: &Scope<'_>,
    left: usize,
    array: Name,
) -> Result<(Value, IntegerType), CFault>
    ensures { GivesAs (λ x. (view x.0, x.1)) result (values.array_name scope.now left array) }
{
    match scope.sense(array) {
        Sense::Cells(kind, Some(_)) => Ok((scope.named(alloc, array)?, kind)),
        other => Err(CFault::Outside(left, no_array(other))),
    }
}

/// Why a name has no cells that are read or written here.
fn no_array(sense: Sense) -> Reason
    ensures { result ≡ values.no_array sense }
{
    match sense {
        Sense::Nothing => Reason::Unknown,
        Sense::Combined(_, _, _) => Reason::Combined,
        Sense::Pointer(_, _) => Reason::Pointer,
        Sense::Constant(_, _) | Sense::Turn(_) | Sense::Begins => Reason::NoArray,
        Sense::Cells(_, _) | Sense::Function(_) => Reason::NoArray,
    }
}

/// A cell of an array, at a place that is known before the program runs.
fn cell(
    alloc: Global,
    scope: &Scope<'_>,
    left: usize,
    array: Name,
    index: &Expr,
) -> Result<Worth, CFault>
    ensures { GivesAs worth_of result (values.cell scope.now left array (expr_of index.now)) }
{
    let (name, kind) = array_name(alloc, scope, left, array)?;
    let (index, _) = size(alloc, scope, index)?;
    Ok(held(form2(alloc, "c", name, index)?, kind))
}

fn named(alloc: Global, scope: &Scope<'_>, left: usize, name: Name) -> Result<Worth, CFault>
    ensures { GivesAs worth_of result (values.name_value scope.now left name) }
{
    match scope.sense(name) {
        Sense::Constant(number, kind) => Ok(whole(Value::from(number), kind)),
        Sense::Turn(kind) => Ok(whole(scope.named(alloc, name)?, kind)),
        Sense::Cells(kind, None) => {
            let name = scope.named(alloc, name)?;
            Ok(held(form2(alloc, "c", name, Value::from(0u64))?, kind))
        }
        other => Err(CFault::Outside(left, no_number(other))),
    }
}

/// Whether a name is no cell.
fn is_no_cell(sense: Sense) -> bool
    ensures { result ≡ values.is_no_cell sense }
{
    !matches!(sense, Sense::Cells(_, _))
}

/// Whether a value reads no cell, and makes no choice.
#[tactic(auto, unfolding(crate::specs::Values::is_settled))]
fn is_settled(scope: &Scope<'_>, expr: &Expr) -> bool
    ensures { result ≡ values.is_settled scope.now (expr_of expr.now) }
{
    match expr {
        Expr::Number(_, _, _) => true,
        Expr::Variable(_, name) => is_no_cell(scope.sense(*name)),
        Expr::Cell(_, _, _) | Expr::Choice(_, _, _, _) => false,
        Expr::Cast(one) | Expr::Unary(_, _, one) => is_settled(scope, one),
        Expr::Call(_, _, one, two) | Expr::Op(_, _, one, two) => {
            is_settled(scope, one) && is_settled(scope, two)
        }
    }
}

/// `a[first + value % count]`
fn picked(
    alloc: Global,
    left: usize,
    array: (Value, IntegerType),
    first: Value,
    count: (Value, IntegerType),
    chosen: Worth,
) -> Result<Worth, CFault>
    ensures { GivesAs worth_of result (values.pick_value left (view array.0, array.1) (view first) (view count.0, count.1) (worth_of chosen)) }
{
    if !has_rest(&chosen, count.1) {
        return Err(CFault::Outside(left, Reason::Signed));
    }
    let section = three(alloc, array.0, first, count.0)?;
    Ok(held(form2(alloc, "pick", section, chosen.value)?, array.1))
}

/// A cell of an array, at a size that is a sum.
fn summed(
    alloc: Global,
    scope: &Scope<'_>,
    array: (Value, IntegerType),
    first: Value,
    more: &Expr,
) -> Result<Worth, CFault>
    ensures { GivesAs worth_of result (values.sum_value scope.now (view array.0, array.1) (view first) (expr_of more.now)) }
{
    let (more, _) = size(alloc, scope, more)?;
    let index = form2(alloc, "+", first, more)?;
    Ok(held(form2(alloc, "c", array.0, index)?, array.1))
}

/// `a[index]`, where the name of the array stands where so many words are left.
#[cycle(value)]
#[tactic(auto, unfolding(crate::specs::Values::indexed_value, crate::specs::Values::pick_behind))]
fn indexed(
    alloc: Global,
    scope: &Scope<'_>,
    left: usize,
    array: Name,
    index: &Expr,
) -> Result<Worth, CFault>
    ensures { GivesAs worth_of result (values.indexed_value scope.now left array (expr_of index.now)) }
{
    match index {
        Expr::Op(sign, Sign::Rest, chosen, count) => {
            let array = array_name(alloc, scope, left, array)?;
            let count = size(alloc, scope, count)?;
            let chosen = value(alloc, scope, chosen)?;
            picked(alloc, *sign, array, Value::from(0u64), count, chosen)
        }
        Expr::Op(_, Sign::Plus, first, more) => {
            let array = array_name(alloc, scope, left, array)?;
            let (first, _) = size(alloc, scope, first)?;
            match &**more {
                Expr::Op(sign, Sign::Rest, chosen, count) => {
                    let count = size(alloc, scope, count)?;
                    let chosen = value(alloc, scope, chosen)?;
                    picked(alloc, *sign, array, first, count, chosen)
                }
                _ => summed(alloc, scope, array, first, more),
            }
        }
        _ => cell(alloc, scope, left, array, index),
    }
}

/// Whether each of two values reads no cell, and makes no choice.
fn are_settled(scope: &Scope<'_>, one: &Expr, other: &Expr) -> bool
    ensures { result ≡ (values.is_settled scope.now (expr_of one.now) && values.is_settled scope.now (expr_of other.now)) }
{
    is_settled(scope, one) && is_settled(scope, other)
}

/// A value.
#[cycle(value)]
#[tactic(auto, unfolding(crate::specs::Values::value))]
pub fn value(alloc: Global, scope: &Scope<'_>, expr: &Expr) -> Result<Worth, CFault>
    ensures { GivesAs worth_of result (values.value scope.now (expr_of expr.now)) }
{
    match expr {
        Expr::Number(_, number, kind) => Ok(whole(Value::from(*number), *kind)),
        Expr::Variable(left, name) => named(alloc, scope, *left, *name),
        Expr::Cell(left, array, index) => {
            untouched(scope, *left, *array, index)?;
            indexed(alloc, scope, *left, *array, index)
        }
        Expr::Cast(inner) => Ok(word(value(alloc, scope, inner)?.value)),
        Expr::Unary(left, sign, inner) => signed(alloc, *left, *sign, value(alloc, scope, inner)?),
        Expr::Choice(left, test, one, other) => {
            let test = value(alloc, scope, test);
            if !are_settled(scope, one, other) {
                return left_out(*left, test);
            }
            let one = value(alloc, scope, one);
            let first = value(alloc, scope, other);
            let again = value(alloc, scope, other);
            choice(alloc, *left, test, one, first, again)
        }
        Expr::Call(left, call, one, two) => {
            let one = value(alloc, scope, one);
            let two = value(alloc, scope, two);
            called(alloc, *left, *call, one, two)
        }
        Expr::Op(left, sign, one, two) => {
            let by = constant(scope, two);
            let all = both(*sign, constant(scope, one), by);
            let settled = is_settled(scope, two);
            let one = value(alloc, scope, one);
            let two = value(alloc, scope, two);
            by_way(alloc, *left, way_of(*sign), one, two, by, all, settled)
        }
    }
}
