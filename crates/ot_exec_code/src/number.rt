//! Operations on numbers.
ghost use Rattle.std.specs.Prelude.{◌≡◌};
ghost use Rattle.ot_exec_code.specs.Numbers.{operated, with_sign, shifted_right, differ};

use crate::kind::Kind;
use crate::operation::Operation;

/// An operation on two numbers of a type. It is None where a number would be divided by 0, or shifted by as many bits as it has, or more.
pub fn operate(operation: Operation, kind: Kind, a: u64, b: u64) -> Option<u64>
    ensures { result ≡ operated operation kind a b }
{
    match operation {
        Operation::Add => Some(kind.narrow(a.wrapping_add(b))),
        Operation::Subtract => Some(kind.narrow(a.wrapping_sub(b))),
        Operation::Multiply => Some(kind.narrow(a.wrapping_mul(b))),
        Operation::Divide => quotient(kind, a, b),
        Operation::Remainder => remainder(kind, a, b),
        Operation::And => Some(kind.narrow(a & b)),
        Operation::Or => Some(kind.narrow(a | b)),
        Operation::Xor => Some(kind.narrow(a ^ b)),
        Operation::ShiftLeft => shift_left(kind, a, b),
        Operation::ShiftRight => shift_right(kind, a, b),
        Operation::Less => Some(u64::from(kind.rank(a) < kind.rank(b))),
        Operation::LessOrEqual => Some(u64::from(kind.rank(a) <= kind.rank(b))),
        Operation::Equal => Some(u64::from(a == b)),
    }
}

ghost use Rattle.ot_exec_code.specs.declared.operation.Operation.TheVariants.{Divide, Remainder, ShiftLeft, ShiftRight};

fn quotient(kind: Kind, a: u64, b: u64) -> Option<u64>
    ensures { result ≡ operated Divide kind a b }
{
    if b == 0 {
        return None;
    }
    let size = kind.magnitude(a) / kind.magnitude(b);
    Some(kind.narrow(with_sign(kind.is_negative(a) != kind.is_negative(b), size)))
}

fn remainder(kind: Kind, a: u64, b: u64) -> Option<u64>
    ensures { result ≡ operated Remainder kind a b }
{
    if b == 0 {
        return None;
    }
    let size = kind.magnitude(a) % kind.magnitude(b);
    Some(kind.narrow(with_sign(kind.is_negative(a), size)))
}

/// This size with a sign.
fn with_sign(negative: bool, size: u64) -> u64
    ensures { result ≡ with_sign negative size }
{
    if negative {
        0u64.wrapping_sub(size)
    } else {
        size
    }
}

fn shift_left(kind: Kind, a: u64, b: u64) -> Option<u64>
    ensures { result ≡ operated ShiftLeft kind a b }
{
    if b < u64::from(kind.width.bits()) {
        Some(kind.narrow(a << b))
    } else {
        None
    }
}

fn shift_right(kind: Kind, a: u64, b: u64) -> Option<u64>
    ensures { result ≡ operated ShiftRight kind a b }
{
    if b >= u64::from(kind.width.bits()) {
        return None;
    }
    let shifted = if kind.is_negative(a) {
        !(!a >> b)
    } else {
        a >> b
    };
    Some(kind.narrow(shifted))
}
