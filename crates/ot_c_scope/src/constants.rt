//! Constants: numbers that are known where they stand.
ghost use Rattle.std.specs.Prelude.{◌≡◌};
ghost use Rattle.ot_c_expressions.specs.Tree.{expr_of};
ghost use Rattle.ot_c_scope.specs.Constants as constants;

use crate::kind::{holds, joined, width};
use crate::scope::{Scope, Sense};
use ot_c_expressions::{Expr, Sign};
use ot_c_words::{IntegerType, Name};

/// A number that its type holds.
fn held(number: u64, kind: IntegerType) -> Option<(u64, IntegerType)>
    ensures { result ≡ constants.constant_held number kind }
{
    if holds(kind, number) {
        Some((number, kind))
    } else {
        None
    }
}

fn named(scope: &Scope<'_>, name: Name) -> Option<(u64, IntegerType)>
    ensures { result ≡ constants.name_constant scope.now name }
{
    match scope.sense(name) {
        Sense::Constant(number, kind) => Some((number, kind)),
        Sense::Nothing | Sense::Turn(_) | Sense::Begins => None,
        Sense::Cells(_, _) | Sense::Combined(_, _, _) => None,
        Sense::Pointer(_, _) | Sense::Function(_) => None,
    }
}

/// 2^count, where that is a number below 2^64.
pub fn power(count: u64) -> Option<u64>
    ensures { result ≡ constants.power count }
{
    if count < 64 { Some(1 << count) } else { None }
}

/// Whether two numbers are divided.
fn quotient(one: u64, two: u64) -> Option<u64>
    ensures { result ≡ constants.quotient one two }
{
    if two == 0 { None } else { Some(one / two) }
}

fn remainder(one: u64, two: u64) -> Option<u64>
    ensures { result ≡ constants.remainder one two }
{
    if two == 0 { None } else { Some(one % two) }
}

/// The exact result, where it is a number from 0 to 2^64 - 1.
fn exact(sign: Sign, one: u64, two: u64) -> Option<u64>
    ensures { result ≡ constants.exact sign one two }
{
    match sign {
        Sign::Plus => one.checked_add(two),
        Sign::Minus => one.checked_sub(two),
        Sign::Times => one.checked_mul(two),
        Sign::Over => quotient(one, two),
        Sign::Rest => remainder(one, two),
        Sign::ShiftLeft => one.checked_mul(power(two)?),
        Sign::ShiftRight => quotient(one, power(two)?),
        Sign::Or | Sign::Xor | Sign::And | Sign::Equal | Sign::Less | Sign::Either => None,
        Sign::Both | Sign::Unequal | Sign::More | Sign::AtMost | Sign::AtLeast => None,
    }
}

fn is_shift(sign: Sign) -> bool
    ensures { result ≡ constants.is_shift sign }
{
    matches!(sign, Sign::ShiftLeft | Sign::ShiftRight)
}

/// Two numbers with a sign between: a shift, which is by less than its type has bits.
fn shifted(
    sign: Sign,
    one: (u64, IntegerType),
    two: (u64, IntegerType),
) -> Option<(u64, IntegerType)>
    ensures { result ≡ constants.constant_shift sign one two }
{
    if two.0 < width(one.1) {
        let number = exact(sign, one.0, two.0)?;
        held(number, one.1)
    } else {
        None
    }
}

/// Two numbers with a sign between.
fn applied(
    sign: Sign,
    one: (u64, IntegerType),
    two: (u64, IntegerType),
) -> Option<(u64, IntegerType)>
    ensures { result ≡ constants.constant_operation sign one two }
{
    if is_shift(sign) {
        return shifted(sign, one, two);
    }
    let number = exact(sign, one.0, two.0)?;
    held(number, joined(one.1, two.1))
}

/// Two numbers with a sign between, where both are known.
pub fn both(
    sign: Sign,
    one: Option<(u64, IntegerType)>,
    two: Option<(u64, IntegerType)>,
) -> Option<(u64, IntegerType)>
    ensures { result ≡ constants.both sign one two }
{
    applied(sign, one?, two?)
}

/// The number that a value is wherever it is computed, with its type.
#[tactic(auto, unfolding(crate::specs::Constants::constant))]
pub fn constant(scope: &Scope<'_>, expr: &Expr) -> Option<(u64, IntegerType)>
    ensures { result ≡ constants.constant scope.now (expr_of expr.now) }
{
    match expr {
        Expr::Number(_, number, kind) => Some((*number, *kind)),
        Expr::Variable(_, name) => named(scope, *name),
        Expr::Cell(_, _, _) => None,
        Expr::Cast(value) => {
            let (number, _) = constant(scope, value)?;
            Some((number, IntegerType::UnsignedLong))
        }
        Expr::Unary(_, _, _) | Expr::Call(_, _, _, _) | Expr::Choice(_, _, _, _) => None,
        Expr::Op(_, sign, one, two) => both(*sign, constant(scope, one), constant(scope, two)),
    }
}
