ghost use Rattle.std.specs.Prelude.{◌≡◌, min, ◌-◌, ◌^◌, Result};
ghost use Rattle.serde_json.specs.Data.{array};
ghost use Rattle.serde_json.specs.View.{view, items_view};
ghost use Rattle.ot_model.specs.Tree.{E};
ghost use Rattle.ot_model.specs.View.{expr_of};
ghost use Rattle.ot_model.specs.declared.expr.Section.{Section};
ghost use Rattle.ot_program.specs.declared.fault.Refusal.{Refusal};
ghost use Rattle.ot_program.specs.Returned.{Gives};
ghost use Rattle.ot_program.specs.walk.Sizes.{bindings_of};
ghost use Rattle.ot_program.specs.Meanings.{op_of};
ghost use Rattle.ot_program.specs.walk.Parts.{operation, pick_of, value_of, expression_of};
ghost use Rattle.ot_program.specs.Limits.{depth_of, nodes_of, picked_of};
ghost use Rattle.ot_program.specs.walk.Counting.{with_expression};

use crate::both::join;
use crate::counts::Counts;
use crate::fault::{ProgramFault, Refusal};
use crate::limits::MAX_DEPTH;
use crate::name::is_word;
use crate::number::whole_number;
use crate::part::{cell_at, read_section};
use crate::scope::Scope;
use ot_model::{Expr, Op, Section};
use serde_json::Value;
use std::alloc::Global;

/// A value as a part of a statement.
pub(crate) fn read_expression(
    alloc: Global,
    scope: &Scope,
    value: &Value,
) -> Result<Expr, ProgramFault>
    ensures { Gives expr_of result (expression_of scope.now.shape.now
        (bindings_of scope.now.variables.now) (view value.now)) }
{
    let expr = read_value(alloc, scope, value)?;
    if depth(&expr) <= MAX_DEPTH {
        Ok(expr)
    } else {
        Err(ProgramFault::Refused(Refusal::TooLarge))
    }
}

#[cycle(value)]
#[tactic(auto, unfolding(crate::specs::walk::Parts::value_of))]
fn read_value(alloc: Global, scope: &Scope, value: &Value) -> Result<Expr, ProgramFault>
    ensures { Gives expr_of result (value_of scope.now.shape.now
        (bindings_of scope.now.variables.now) (view value.now)) }
{
    match value {
        Value::Number(number) => match whole_number(number) {
            Some(number) => Ok(Expr::Number(number)),
            None => Err(ProgramFault::Refused(Refusal::Form)),
        },
        Value::String(name) => {
            let number = scope.variables.number(name.as_str())?;
            Ok(Expr::Number(u64::from(number)))
        }
        Value::Array(items) => value_form(alloc, scope, items),
        _ => Err(ProgramFault::Refused(Refusal::Form)),
    }
}

// `["c", name, size]`, `["pick", section, value]`, `[op, value, value]`
#[cycle(value)]
#[tactic(auto, using(crate::proofs::ValueForms::no_value_but_three), unfolding(crate::specs::walk::Parts::value_of))]
fn value_form(alloc: Global, scope: &Scope, items: &[Value]) -> Result<Expr, ProgramFault>
    ensures { Gives expr_of result (value_of scope.now.shape.now
        (bindings_of scope.now.variables.now) (array (items_view items.now))) }
{
    if items.len() != 3 {
        return Err(ProgramFault::Refused(Refusal::Form));
    }
    match items {
        [tag, one, two] => {
            if is_word(tag, "c") {
                return Ok(Expr::Cell(cell_at(scope, one, two)?));
            }
            if is_word(tag, "pick") {
                let section = read_section(scope, one);
                let chosen = read_value(alloc, scope, two);
                return pick(alloc, section, chosen);
            }
            let Some(op) = read_op(tag) else {
                return Err(ProgramFault::Refused(Refusal::Form));
            };
            let one = read_value(alloc, scope, one);
            let two = read_value(alloc, scope, two);
            operation(alloc, op, one, two)
        }
        _ => unreachable!(),
    }
}

// The section and the value of a pick, whatever they are read as.
fn pick(
    alloc: Global,
    section: Result<Section, Refusal>,
    chosen: Result<Expr, ProgramFault>,
) -> Result<Expr, ProgramFault>
    ensures { (s : Result E Refusal) → Gives expr_of chosen s
        → Gives expr_of result (pick_of section s) }
{
    let (section, chosen) = join(section.map_err(ProgramFault::Refused), chosen)?;
    Ok(Expr::Pick(section, Box::new(alloc, chosen)?))
}

// What the two sides of an operation may be is any reading that they give.
fn operation(
    alloc: Global,
    op: Op,
    one: Result<Expr, ProgramFault>,
    two: Result<Expr, ProgramFault>,
) -> Result<Expr, ProgramFault>
    ensures { (r s : Result E Refusal) → Gives expr_of one r → Gives expr_of two s
        → Gives expr_of result (operation (Some op) r s) }
{
    let (one, two) = join(one, two)?;
    Ok(Expr::Op(op, Box::new(alloc, one)?, Box::new(alloc, two)?))
}

fn read_op(tag: &Value) -> Option<Op>
    ensures { result ≡ op_of (view tag.now) }
{
    match tag {
        Value::String(text) => Op::of_word(text.as_str()),
        _ => None,
    }
}

// The depth of an expression, or the greatest number of 32 bits where it has more.
fn depth(expr: &Expr) -> u32
    ensures { result ≡ min (depth_of (expr_of expr.now)) (2 ^ 32 - 1) }
{
    match expr {
        Expr::Number(_) | Expr::Cell(_) => 1,
        Expr::Op(_, one, two) => depth(one).max(depth(two)).saturating_add(1),
        Expr::Pick(_, value) => depth(value).saturating_add(1),
    }
}

/// The counts with a statement more that has this expression, where none passes its limit.
pub(crate) fn count_expression(counts: Counts, expr: &Expr) -> Result<Counts, Refusal>
    ensures { result ≡ with_expression counts (expr_of expr.now) }
{
    counts.plus(1, nodes(expr), picked(expr))
}

// How many numbers, variables, cells, operations and picks an expression has, or the greatest
// number of 32 bits where it has more.
fn nodes(expr: &Expr) -> u32
    ensures { result ≡ min (nodes_of (expr_of expr.now)) (2 ^ 32 - 1) }
{
    match expr {
        Expr::Number(_) | Expr::Cell(_) => 1,
        Expr::Op(_, one, two) => nodes(one).saturating_add(nodes(two)).saturating_add(1),
        Expr::Pick(_, value) => nodes(value).saturating_add(1),
    }
}

// How many cells the sections of its picks have, or the greatest number of 32 bits where they have
// more.
fn picked(expr: &Expr) -> u32
    ensures { result ≡ min (picked_of (expr_of expr.now)) (2 ^ 32 - 1) }
{
    match expr {
        Expr::Number(_) | Expr::Cell(_) => 0,
        Expr::Op(_, one, two) => picked(one).saturating_add(picked(two)),
        Expr::Pick(section, value) => picked(value).saturating_add(section.len),
    }
}
