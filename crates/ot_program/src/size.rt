ghost use Rattle.std.specs.Prelude.{◌≡◌, ◌-◌, ◌^◌, min, Some};
ghost use Rattle.serde_json.specs.Data.{array};
ghost use Rattle.serde_json.specs.View.{view, items_view};
ghost use Rattle.ot_program.specs.walk.Sizes.{bindings_of, sign_named, sign_of, exact, size_of, shallow, size_operation};
ghost use Rattle.ot_program.specs.Limits.{size_depth};

use crate::both::both;
use crate::fault::Refusal;
use crate::limits::MAX_DEPTH;
use crate::number::whole_number;
use crate::scope::Variables;
use serde_json::Value;

/// An operation of sizes.
#[derive(Clone, Copy, Debug, PartialEq, Eq)]
pub(crate) enum Sign {
    Plus,
    Minus,
    Times,
}

/// A size: a number, a variable, or an operation, each part of it exact and from 0 to 2^32 - 1.
#[cycle(size)]
#[tactic(auto, unfolding(crate::specs::walk::Sizes::size_of))]
pub(crate) fn read_size(value: &Value, variables: &Variables) -> Result<u32, Refusal>
    ensures { result ≡ size_of (bindings_of variables.now) (view value.now) }
{
    match value {
        Value::Number(number) => match whole_number(number) {
            Some(number) if number < 1 << 32 => Ok(number as u32),
            Some(_) => Err(Refusal::Size),
            None => Err(Refusal::Form),
        },
        Value::String(name) => variables.number(name.as_str()),
        Value::Array(items) => size_form(items, variables),
        _ => Err(Refusal::Form),
    }
}

// `[op, size, size]`
#[cycle(size)]
#[tactic(auto, using(crate::proofs::SizeForms::no_size_but_three), unfolding(crate::specs::walk::Sizes::size_of))]
fn size_form(items: &[Value], variables: &Variables) -> Result<u32, Refusal>
    ensures { result ≡ size_of (bindings_of variables.now) (array (items_view items.now)) }
{
    if items.len() != 3 {
        return Err(Refusal::Form);
    }
    match items {
        [tag, one, two] => {
            let Some(sign) = read_sign(tag) else {
                return Err(Refusal::Form);
            };
            let one = read_size(one, variables);
            let two = read_size(two, variables);
            operation(sign, one, two)
        }
        _ => unreachable!(),
    }
}

fn operation(
    sign: Sign,
    one: Result<u32, Refusal>,
    two: Result<u32, Refusal>,
) -> Result<u32, Refusal>
    ensures { result ≡ size_operation (Some sign) one two }
{
    let (one, two) = both(one, two)?;
    exact(sign, one, two)
}

fn exact(sign: Sign, one: u32, two: u32) -> Result<u32, Refusal>
    ensures { result ≡ exact sign one two }
{
    let result = match sign {
        Sign::Plus => one.checked_add(two),
        Sign::Minus => one.checked_sub(two),
        Sign::Times => one.checked_mul(two),
    };
    result.ok_or(Refusal::Size)
}

fn read_sign(tag: &Value) -> Option<Sign>
    ensures { result ≡ sign_of (view tag.now) }
{
    match tag {
        Value::String(text) => sign_named(text.as_str()),
        _ => None,
    }
}

fn sign_named(text: &str) -> Option<Sign>
    ensures { result ≡ sign_named text.now }
{
    match text {
        "+" => Some(Sign::Plus),
        "-" => Some(Sign::Minus),
        "*" => Some(Sign::Times),
        _ => None,
    }
}

/// Whether a size is no deeper than an expression may be.
pub(crate) fn check_depth(size: &Value) -> Result<(), Refusal>
    ensures { result ≡ shallow (view size.now) }
{
    if depth(size) <= MAX_DEPTH {
        Ok(())
    } else {
        Err(Refusal::TooLarge)
    }
}

// The depth of a size, or the greatest number of 32 bits where it has more.
#[cycle(depth)]
#[tactic(auto, unfolding(crate::specs::Limits::size_depth))]
fn depth(size: &Value) -> u32
    ensures { result ≡ min (size_depth (view size.now)) (2 ^ 32 - 1) }
{
    match size {
        Value::Array(items) => depth_of_parts(items),
        _ => 1,
    }
}

#[cycle(depth)]
#[tactic(auto, using(crate::proofs::SizeForms::depth_but_three), unfolding(crate::specs::Limits::size_depth))]
fn depth_of_parts(items: &[Value]) -> u32
    ensures { result ≡ min (size_depth (array (items_view items.now))) (2 ^ 32 - 1) }
{
    if items.len() != 3 {
        return 1;
    }
    match items {
        [_, one, two] => {
            let one = depth(one);
            let two = depth(two);
            one.max(two).saturating_add(1)
        }
        _ => unreachable!(),
    }
}
