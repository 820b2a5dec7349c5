//! Arithmetic: operations of values, in the types that they have in C.
ghost use Rattle.std.specs.Prelude.{◌≡◌, true, false};
ghost use Rattle.serde_json.specs.View.{view};
ghost use Rattle.ot_c_scope.specs.Results.{GivesAs};
ghost use Rattle.ot_c_meaning.specs.Arithmetic.{Valued, worth_of};
ghost use Rattle.ot_c_meaning.specs.Arithmetic as meant;

use ot_c_expressions::{Call, Sign, Unary};
use ot_c_scope::json::form2;
use ot_c_scope::kind::{is_narrow, is_signed, is_word, joined};
use ot_c_scope::{CFault, Reason, power};
use ot_c_words::IntegerType;
use serde_json::Value;
use std::alloc::Global;

/// A value, with the type that it has in C, and whether it is known to be no negative number there. What it is in the
/// language is the same number modulo 2^64.
#[derive(Drop)]
pub struct Worth {
    pub value: Value,
    pub kind: IntegerType,
    pub whole: bool,
}

/// A value of type `uint64_t`.
pub(crate) fn word(value: Value) -> Worth
    ensures { worth_of result ≡ meant.word_value (view value) }
{
    Worth {
        value,
        kind: IntegerType::UnsignedLong,
        whole: true,
    }
}

/// A number of a type that isn't negative.
pub(crate) fn whole(value: Value, kind: IntegerType) -> Worth
    ensures { worth_of result ≡ meant.whole (view value) kind }
{
    Worth {
        value,
        kind,
        whole: true,
    }
}

/// A number of a type, as cells hold them.
pub(crate) fn held(value: Value, kind: IntegerType) -> Worth
    ensures { worth_of result ≡ meant.held_value (view value) kind }
{
    Worth {
        value,
        kind,
        whole: !is_signed(kind),
    }
}

/// An operation that the language has as C has it.
#[derive(Clone, Copy)]
pub(crate) enum Basic {
    Or,
    Xor,
    And,
    Equal,
    Less,
    Plus,
    Minus,
    Times,
}

/// How an operation of two values is meant.
#[derive(Clone, Copy)]
pub(crate) enum Manner {
    /// As it stands.
    Is,
    /// Of the second one and the first.
    Turned,
    /// Whether it gives 0.
    Not,
    /// Whether it gives 0 of the second one and the first.
    TurnedNot,
}

/// What two values with a sign between become.
#[derive(Clone, Copy)]
pub(crate) enum Way {
    Plain(Manner, Basic),
    /// An operation of whether both aren't 0, of which C may leave out the second.
    Lazy(Basic),
    Shift,
    Rest,
    /// A number that is known.
    Known,
}

pub(crate) fn way_of(sign: Sign) -> Way
    ensures { result ≡ meant.way_of sign }
{
    match sign {
        Sign::Or => Way::Plain(Manner::Is, Basic::Or),
        Sign::Xor => Way::Plain(Manner::Is, Basic::Xor),
        Sign::And => Way::Plain(Manner::Is, Basic::And),
        Sign::Equal => Way::Plain(Manner::Is, Basic::Equal),
        Sign::Unequal => Way::Plain(Manner::Not, Basic::Equal),
        Sign::Less => Way::Plain(Manner::Is, Basic::Less),
        Sign::More => Way::Plain(Manner::Turned, Basic::Less),
        Sign::AtMost => Way::Plain(Manner::TurnedNot, Basic::Less),
        Sign::AtLeast => Way::Plain(Manner::Not, Basic::Less),
        Sign::Plus => Way::Plain(Manner::Is, Basic::Plus),
        Sign::Minus => Way::Plain(Manner::Is, Basic::Minus),
        Sign::Times => Way::Plain(Manner::Is, Basic::Times),
        Sign::Both => Way::Lazy(Basic::And),
        Sign::Either => Way::Lazy(Basic::Or),
        Sign::ShiftLeft => Way::Shift,
        Sign::Rest => Way::Rest,
        Sign::Over | Sign::ShiftRight => Way::Known,
    }
}

fn basic_word(basic: Basic) -> &'static str
    ensures { result.now ≡ meant.basic_word basic }
{
    match basic {
        Basic::Or => "|",
        Basic::Xor => "^",
        Basic::And => "&",
        Basic::Equal => "=",
        Basic::Less => "<",
        Basic::Plus => "+",
        Basic::Minus => "-",
        Basic::Times => "*",
    }
}

fn call_word(call: Call) -> &'static str
    ensures { result.now ≡ meant.call_word call }
{
    match call {
        Call::Min => "min",
        Call::Max => "max",
    }
}

/// Whether the language computes in numbers of 64 bits what C does in this type, of numbers that aren't negative or may be.
pub(crate) fn agrees(basic: Basic, kind: IntegerType, whole: bool) -> bool
    ensures { result ≡ meant.agrees basic kind whole }
{
    match basic {
        Basic::Plus | Basic::Minus | Basic::Times => !is_narrow(kind),
        Basic::Or | Basic::Xor | Basic::And | Basic::Equal => whole || !is_narrow(kind),
        Basic::Less => whole || is_word(kind),
    }
}

/// Why it doesn't.
pub(crate) fn disagrees(basic: Basic) -> Reason
    ensures { result ≡ meant.disagrees basic }
{
    match basic {
        Basic::Plus | Basic::Minus | Basic::Times => Reason::Wraps,
        Basic::Or | Basic::Xor | Basic::And | Basic::Equal => Reason::Wraps,
        Basic::Less => Reason::Signed,
    }
}

/// The type of a result.
pub(crate) fn result_kind(basic: Basic, kind: IntegerType) -> IntegerType
    ensures { result ≡ meant.result_kind basic kind }
{
    match basic {
        Basic::Equal | Basic::Less => IntegerType::Int,
        Basic::Plus | Basic::Minus | Basic::Times => kind,
        Basic::Or | Basic::Xor | Basic::And => kind,
    }
}

/// Whether a result isn't negative.
pub(crate) fn result_whole(basic: Basic, kind: IntegerType, whole: bool) -> bool
    ensures { result ≡ meant.result_whole basic kind whole }
{
    match basic {
        Basic::Equal | Basic::Less => true,
        Basic::Minus => is_word(kind),
        Basic::Plus | Basic::Times => whole || is_word(kind),
        Basic::Or | Basic::Xor | Basic::And => whole || is_word(kind),
    }
}

/// Whether it is a test for less of numbers that may be negative.
fn is_raised(basic: Basic, kind: IntegerType, whole: bool) -> bool
    ensures { result ≡ meant.is_raised basic kind whole }
{
    matches!(basic, Basic::Less) && is_signed(kind) && !whole
}

/// A number and 2^63.
fn raised(alloc: Global, value: Value) -> Result<Value, CFault>
    ensures { GivesAs (λ v. view v) result (Ok (meant.raised_form (view value))) }
{
    Ok(form2(alloc, "+", value, Value::from(1u64 << 63))?)
}

/// Whether a number of a signed type is less than another: with 2^63 more both are, in their order, from 0 to 2^64 - 1.
fn raised_less(alloc: Global, one: Value, two: Value) -> Result<Worth, CFault>
    ensures { GivesAs worth_of result (Ok (meant.raised_less (view one) (view two))) }
{
    let one = raised(alloc, one)?;
    let two = raised(alloc, two)?;
    Ok(whole(form2(alloc, "<", one, two)?, IntegerType::Int))
}

/// A basic operation of two values.
fn applied(
    alloc: Global,
    left: usize,
    basic: Basic,
    one: Worth,
    two: Worth,
) -> Result<Worth, CFault>
    ensures { GivesAs worth_of result (meant.operation_value left basic (worth_of one) (worth_of two)) }
{
    let kind = joined(one.kind, two.kind);
    let both = one.whole && two.whole;
    if is_raised(basic, kind, both) {
        return raised_less(alloc, one.value, two.value);
    }
    if !agrees(basic, kind, both) {
        return Err(CFault::Outside(left, disagrees(basic)));
    }
    Ok(Worth {
        value: form2(alloc, basic_word(basic), one.value, two.value)?,
        kind: result_kind(basic, kind),
        whole: result_whole(basic, kind, both),
    })
}

/// A number of type `int`.
fn int(number: u64) -> Worth
    ensures { worth_of result ≡ meant.int number }
{
    whole(Value::from(number), IntegerType::Int)
}

/// Whether a value is 0.
fn denied(alloc: Global, left: usize, one: Worth) -> Result<Worth, CFault>
    ensures { GivesAs worth_of result (meant.denial_value left (worth_of one)) }
{
    applied(alloc, left, Basic::Equal, one, int(0))
}

/// Whether a value isn't 0.
fn truth(alloc: Global, left: usize, one: Worth) -> Result<Worth, CFault>
    ensures { GivesAs worth_of result (meant.truth left (worth_of one)) }
{
    let none = denied(alloc, left, one)?;
    denied(alloc, left, none)
}

/// An operation of two values, as it is meant.
fn meant(
    alloc: Global,
    left: usize,
    manner: Manner,
    basic: Basic,
    one: Worth,
    two: Worth,
) -> Result<Worth, CFault>
    ensures { GivesAs worth_of result (meant.manner_value left manner basic (worth_of one) (worth_of two)) }
{
    match manner {
        Manner::Is => applied(alloc, left, basic, one, two),
        Manner::Turned => applied(alloc, left, basic, two, one),
        Manner::Not => {
            let result = applied(alloc, left, basic, one, two)?;
            denied(alloc, left, result)
        }
        Manner::TurnedNot => {
            let result = applied(alloc, left, basic, two, one)?;
            denied(alloc, left, result)
        }
    }
}

/// A value with a sign before it.
pub(crate) fn signed(alloc: Global, left: usize, sign: Unary, one: Worth) -> Result<Worth, CFault>
    ensures { GivesAs worth_of result (meant.sign_value left sign (worth_of one)) }
{
    match sign {
        Unary::Plus => Ok(one),
        Unary::Minus => applied(alloc, left, Basic::Minus, int(0), one),
        Unary::Not => denied(alloc, left, one),
        Unary::Invert => {
            let below = applied(alloc, left, Basic::Minus, int(0), int(1))?;
            applied(alloc, left, Basic::Minus, below, one)
        }
    }
}

/// Two values, of which C may leave out the second.
fn lazily(alloc: Global, left: usize, basic: Basic, one: Worth, two: Worth) -> Result<Worth, CFault>
    ensures { GivesAs worth_of result (meant.lazily left basic (worth_of one) (worth_of two)) }
{
    let one = truth(alloc, left, one)?;
    let two = truth(alloc, left, two)?;
    applied(alloc, left, basic, one, two)
}

/// One of two values by a test, of which C leaves out one. `other` and `again` are the same.
fn chosen(
    alloc: Global,
    left: usize,
    test: Worth,
    one: Worth,
    other: Worth,
    again: Worth,
) -> Result<Worth, CFault>
    ensures { GivesAs worth_of result (meant.choice_value left (worth_of test) (worth_of one) (worth_of other) (worth_of again)) }
{
    let whole = one.whole && other.whole;
    let test = truth(alloc, left, test)?;
    let more = applied(alloc, left, Basic::Minus, one, other)?;
    let more = applied(alloc, left, Basic::Times, test, more)?;
    let sum = applied(alloc, left, Basic::Plus, again, more)?;
    Ok(Worth {
        value: sum.value,
        kind: sum.kind,
        whole: sum.whole || whole,
    })
}

/// A number that is known.
fn known(left: usize, number: Option<(u64, IntegerType)>, why: Reason) -> Result<Worth, CFault>
    ensures { GivesAs worth_of result (meant.number_known left number why) }
{
    match number {
        Some((number, kind)) => Ok(whole(Value::from(number), kind)),
        None => Err(CFault::Outside(left, why)),
    }
}

/// 2 to a number that is known, where that is below 2^64.
fn power_of(by: Option<(u64, IntegerType)>) -> Option<u64>
    ensures { result ≡ meant.power_of by }
{
    let (count, _) = by?;
    power(count)
}

/// A value shifted to the left by a number that is known, or a number that is known.
fn shifted(
    alloc: Global,
    left: usize,
    one: Worth,
    by: Option<(u64, IntegerType)>,
    all: Option<(u64, IntegerType)>,
) -> Result<Worth, CFault>
    ensures { GivesAs worth_of result (meant.shift_value left (worth_of one) by all) }
{
    if !is_word(one.kind) {
        return known(left, all, Reason::Shift);
    }
    match power_of(by) {
        Some(number) => applied(alloc, left, Basic::Times, one, word(Value::from(number))),
        None => Err(CFault::Outside(left, Reason::Shift)),
    }
}

/// Whether `%` of a value by a number of this type is a rest of the number that the value is modulo 2^64.
pub(crate) fn has_rest(worth: &Worth, kind: IntegerType) -> bool
    ensures { result ≡ meant.has_rest (worth_of worth.now) kind }
{
    worth.whole || is_word(joined(worth.kind, kind))
}

fn is_power(number: u64) -> bool
    ensures { result ≡ meant.is_power number }
{
    number > 0 && number & (number - 1) == 0
}

/// A value `%` a power of two, or a number that is known.
fn rest(
    alloc: Global,
    left: usize,
    one: Worth,
    by: Option<(u64, IntegerType)>,
    all: Option<(u64, IntegerType)>,
) -> Result<Worth, CFault>
    ensures { GivesAs worth_of result (meant.rest left (worth_of one) by all) }
{
    let Some((number, kind)) = by else {
        return Err(CFault::Outside(left, Reason::Rest));
    };
    if !is_power(number) || !has_rest(&one, kind) {
        return known(left, all, Reason::Rest);
    }
    let joined = joined(one.kind, kind);
    let value = form2(alloc, "&", one.value, Value::from(number - 1))?;
    Ok(whole(value, joined))
}

/// A choice by a test, where what C leaves out may not be computed.
pub(crate) fn left_out(left: usize, test: Result<Worth, CFault>) -> Result<Worth, CFault>
    ensures { (t r s : Valued) → GivesAs worth_of test t
        → GivesAs worth_of result (meant.choice_of left t r s false) }
{
    test?;
    Err(CFault::Outside(left, Reason::LeftOut))
}

/// A choice by a test, where both may be computed. `other` and `again` are the same.
pub(crate) fn choice(
    alloc: Global,
    left: usize,
    test: Result<Worth, CFault>,
    one: Result<Worth, CFault>,
    other: Result<Worth, CFault>,
    again: Result<Worth, CFault>,
) -> Result<Worth, CFault>
    ensures { (t r s : Valued) → GivesAs worth_of test t → GivesAs worth_of one r → GivesAs worth_of other s
        → GivesAs worth_of again s → GivesAs worth_of result (meant.choice_of left t r s true) }
{
    chosen(alloc, left, test?, one?, other?, again?)
}

/// Whether a value is the same number as a `uint64_t`.
pub(crate) fn is_counted(worth: &Worth) -> bool
    ensures { result ≡ meant.is_counted (worth_of worth.now) }
{
    worth.whole || is_word(worth.kind)
}

/// `min` or `max` of two numbers of type `uint64_t`.
fn extreme(alloc: Global, left: usize, call: Call, one: Worth, two: Worth) -> Result<Worth, CFault>
    ensures { GivesAs worth_of result (meant.extreme left call (worth_of one) (worth_of two)) }
{
    if is_counted(&one) && is_counted(&two) {
        Ok(word(form2(alloc, call_word(call), one.value, two.value)?))
    } else {
        Err(CFault::Outside(left, Reason::Signed))
    }
}

/// What a function says of two values.
pub(crate) fn called(
    alloc: Global,
    left: usize,
    call: Call,
    one: Result<Worth, CFault>,
    two: Result<Worth, CFault>,
) -> Result<Worth, CFault>
    ensures { (r s : Valued) → GivesAs worth_of one r → GivesAs worth_of two s
        → GivesAs worth_of result (meant.value_of_call left call r s) }
{
    extreme(alloc, left, call, one?, two?)
}

/// Two values by a way. The second may be a constant, or both; it may be left out if it is settled.
pub(crate) fn by_way(
    alloc: Global,
    left: usize,
    way: Way,
    one: Result<Worth, CFault>,
    two: Result<Worth, CFault>,
    by: Option<(u64, IntegerType)>,
    all: Option<(u64, IntegerType)>,
    settled: bool,
) -> Result<Worth, CFault>
    ensures { (r s : Valued) → GivesAs worth_of one r → GivesAs worth_of two s
        → GivesAs worth_of result (meant.by_way left way r s by all settled) }
{
    match way {
        Way::Known => known(left, all, Reason::Quotient),
        Way::Rest => rest(alloc, left, one?, by, all),
        Way::Shift => shifted(alloc, left, one?, by, all),
        Way::Lazy(basic) => {
            let one = one?;
            if !settled {
                return Err(CFault::Outside(left, Reason::LeftOut));
            }
            lazily(alloc, left, basic, one, two?)
        }
        Way::Plain(manner, basic) => meant(alloc, left, manner, basic, one?, two?),
    }
}
