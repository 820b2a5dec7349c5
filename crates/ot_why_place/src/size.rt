//! The numbers that sizes are.
ghost use Rattle.std.specs.Prelude.{◌≡◌, ◌+◌, ◌-◌, ◌*◌, unwrap_or};
ghost use Rattle.serde_json.specs.Data.{string, array};
ghost use Rattle.serde_json.specs.View.{view, items_view};
ghost use Rattle.ot_program.specs.Meanings.{sign_of, exact, size};
ghost use Rattle.ot_why_place.specs.Spots.{trail_bindings};

use crate::trail::Trail;
use ot_model::Op;
use serde_json::Value;

/// What a size is, or 0 where it is none.
#[cycle(size)]
#[tactic(auto, using(crate::proofs::SizeLemmas::sizes))]
pub fn size_of(value: &Value, trail: &Trail<'_, '_>) -> u64
    ensures { result ≡ size (trail_bindings trail.now) (view value.now) }
{
    match value {
        Value::Number(number) => number.as_u64().unwrap_or(0),
        Value::String(name) => trail.number(name.as_str()).unwrap_or(0),
        Value::Array(items) => size_of_items(items, trail),
        _ => 0,
    }
}

#[cycle(size)]
#[tactic(auto, using(crate::proofs::SizeLemmas::sizes))]
fn size_of_items(items: &[Value], trail: &Trail<'_, '_>) -> u64
    ensures { result ≡ size (trail_bindings trail.now) (array (items_view items.now)) }
{
    if items.len() != 3 {
        return 0;
    }
    match items {
        [tag, one, two] => {
            let one = size_of(one, trail);
            let two = size_of(two, trail);
            exact(sign_of(tag), one, two).unwrap_or(0)
        }
        _ => unreachable!(),
    }
}

/// The exact result of an operation, where there is one of 32 bits.
pub fn exact(sign: Option<Op>, one: u64, two: u64) -> Option<u64>
    ensures { result ≡ exact sign one two }
{
    let result = match sign? {
        Op::Plus => one.checked_add(two)?,
        Op::Minus => one.checked_sub(two)?,
        Op::Times => one.checked_mul(two)?,
        _ => return None,
    };
    if result < 1 << 32 { Some(result) } else { None }
}

/// The operation of sizes that a word names.
pub fn sign_of(tag: &Value) -> Option<Op>
    ensures { result ≡ sign_of (view tag.now) }
{
    match tag {
        Value::String(text) => sign_named(text.as_str()),
        _ => None,
    }
}

fn sign_named(text: &str) -> Option<Op>
    ensures { result ≡ sign_of (string text.now) }
{
    match text {
        "+" => Some(Op::Plus),
        "-" => Some(Op::Minus),
        "*" => Some(Op::Times),
        _ => None,
    }
}
