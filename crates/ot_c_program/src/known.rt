//! Numbers of values that name no cell.
ghost use Rattle.std.specs.Prelude.{◌≡◌};
ghost use Rattle.serde_json.specs.Data.{array};
ghost use Rattle.serde_json.specs.View.{view, items_view};
ghost use Rattle.ot_model.specs.Tree.{applied};
ghost use Rattle.ot_why_place.specs.Spots.{trail_bindings};
ghost use Rattle.ot_c_program.specs.Turns as meant;

use ot_model::Op;
use ot_why_place::Trail;
use serde_json::Value;

/// The number of a value that names no cell, where loops' variables have these.
#[cycle(known)]
#[tactic(auto, using(crate::proofs::KnownLemmas::numbers))]
pub(crate) fn known(value: &Value, numbers: &Trail<'_, '_>) -> Option<u64>
    ensures { result ≡ meant.number_at_turn (trail_bindings numbers.now) (view value.now) }
{
    match value {
        Value::Number(number) => number.as_u64(),
        Value::String(name) => numbers.number(name.as_str()),
        Value::Array(items) => known_of_items(items, numbers),
        _ => None,
    }
}

#[cycle(known)]
#[tactic(auto, using(crate::proofs::KnownLemmas::numbers))]
fn known_of_items(items: &[Value], numbers: &Trail<'_, '_>) -> Option<u64>
    ensures { result ≡ meant.number_at_turn (trail_bindings numbers.now) (array (items_view items.now)) }
{
    if items.len() != 3 {
        return None;
    }
    match items {
        [sign, one, two] => computed(op_of(sign), known(one, numbers), known(two, numbers)),
        _ => unreachable!(),
    }
}

/// The operation of values that a word names.
fn op_of(sign: &Value) -> Option<Op>
    ensures { result ≡ meant.word_operation (view sign.now) }
{
    match sign {
        Value::String(text) => Op::of_word(text.as_str()),
        _ => None,
    }
}

/// The result of an operation on two numbers, where all are known.
fn computed(op: Option<Op>, one: Option<u64>, two: Option<u64>) -> Option<u64>
    ensures { result ≡ meant.operation_number op one two }
{
    Some(applied(op?, one?, two?))
}

fn applied(op: Op, one: u64, two: u64) -> u64
    ensures { result ≡ applied op one two }
{
    match op {
        Op::Plus => one.wrapping_add(two),
        Op::Minus => one.wrapping_sub(two),
        Op::Times => one.wrapping_mul(two),
        Op::And => one & two,
        Op::Or => one | two,
        Op::Xor => one ^ two,
        Op::Less => u64::from(one < two),
        Op::Equal => u64::from(one == two),
        Op::Min => one.min(two),
        Op::Max => one.max(two),
    }
}
