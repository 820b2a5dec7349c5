//! Operations on values.
ghost use Rattle.std.specs.Prelude.{◌≡◌};
ghost use Rattle.ot_exec_state.specs.Results.{Gives};
ghost use Rattle.ot_exec_state.specs.Values.{is_so, is_zero, is_somewhere, vanishes, no_result, of_numbers, value_known, is_equality, one_is_null, compared_places, values_compared, values_combined, fits_pointer, value_converted, place_advanced, distance};

use crate::fault::{Halt, Reason};
use crate::value::Value;
use ot_exec_code::{Kind, Operation, Width, operate};

/// The type of a pointer's index.
const INDEX: Kind = Kind {
    width: Width::Bits64,
    signed: true,
};

impl Value {
    /// Whether a condition is so; of a value that isn't known the answer says it.
    pub fn is_so(self, answer: bool) -> bool
        ensures { result ≡ is_so self answer }
    {
        match self {
            Value::Number(n) => n != 0,
            Value::Unknown => answer,
            Value::Pointer(_, _) | Value::Within(_, _, _) | Value::Function(_) => true,
        }
    }

    fn is_zero(self) -> bool
        ensures { result ≡ is_zero self }
    {
        match self {
            Value::Number(n) => n == 0,
            Value::Pointer(_, _) | Value::Within(_, _, _) | Value::Function(_) | Value::Unknown =>
                false,
        }
    }

    fn is_somewhere(self) -> bool
        ensures { result ≡ is_somewhere self }
    {
        match self {
            Value::Pointer(_, _) | Value::Within(_, _, _) | Value::Function(_) => true,
            Value::Number(_) | Value::Unknown => false,
        }
    }
}

fn vanishes(operation: Operation) -> bool
    ensures { result ≡ vanishes operation }
{
    matches!(operation, Operation::Multiply | Operation::And)
}

fn is_equality(operation: Operation) -> bool
    ensures { result ≡ is_equality operation }
{
    matches!(operation, Operation::Equal)
}

/// What stands for a number that there may be.
fn known(number: Option<u64>) -> Value
    ensures { result ≡ value_known number }
{
    match number {
        Some(n) => Value::Number(n),
        None => Value::Unknown,
    }
}

fn of_numbers(operation: Operation, number: Option<u64>) -> Result<Value, Halt>
    ensures { Gives (λ v. v) result (of_numbers operation number) }
{
    match number {
        Some(n) => Ok(Value::Number(n)),
        None => without(operation),
    }
}

fn without(operation: Operation) -> Result<Value, Halt>
    ensures { Gives (λ v. v) result (no_result operation) }
{
    if matches!(operation, Operation::Divide | Operation::Remainder) {
        Err(Halt::For(Reason::DivideByZero))
    } else {
        Ok(Value::Unknown)
    }
}

/// Two places, of one object or not, at these indexes.
#[tactic(auto, unfolding(crate::specs::Values::compared_places))]
fn compared_places(operation: Operation, same: bool, k: u64, l: u64) -> Value
    ensures { result ≡ compared_places operation same k l }
{
    match (operation, same) {
        (Operation::Equal, _) => Value::Number(u64::from(same && k == l)),
        (Operation::Less, true) => known(operate(Operation::Less, INDEX, k, l)),
        (Operation::LessOrEqual, true) => known(operate(Operation::LessOrEqual, INDEX, k, l)),
        (_, _) => Value::Unknown,
    }
}

fn one_is_null(a: Value, b: Value) -> bool
    ensures { result ≡ one_is_null a b }
{
    a.is_zero() && b.is_somewhere() || b.is_zero() && a.is_somewhere()
}

#[tactic(auto, unfolding(crate::specs::Values::values_compared))]
fn compared(operation: Operation, a: Value, b: Value) -> Value
    ensures { result ≡ values_compared operation a b }
{
    match (a, b) {
        (Value::Pointer(o, k), Value::Pointer(p, l)) => compared_places(operation, o == p, k, l),
        (Value::Function(f), Value::Function(g)) => {
            if is_equality(operation) {
                Value::Number(u64::from(f == g))
            } else {
                Value::Unknown
            }
        }
        (_, _) => {
            if is_equality(operation) && one_is_null(a, b) {
                Value::Number(0)
            } else {
                Value::Unknown
            }
        }
    }
}

/// An operation on two values.
#[tactic(auto, unfolding(crate::specs::Values::values_combined))]
pub fn combined(operation: Operation, kind: Kind, a: Value, b: Value) -> Result<Value, Halt>
    ensures { Gives (λ v. v) result (values_combined operation kind a b) }
{
    match (a, b) {
        (Value::Number(m), Value::Number(n)) => {
            of_numbers(operation, operate(operation, kind, m, n))
        }
        (_, _) => {
            if vanishes(operation) && (a.is_zero() || b.is_zero()) {
                Ok(Value::Number(0))
            } else {
                Ok(compared(operation, a, b))
            }
        }
    }
}

/// A value, converted to a type.
#[tactic(auto, unfolding(crate::specs::Values::value_converted))]
pub fn converted(kind: Kind, value: Value) -> Value
    ensures { result ≡ value_converted kind value }
{
    match value {
        Value::Number(n) => Value::Number(kind.narrow(n)),
        Value::Pointer(_, _) | Value::Within(_, _, _) | Value::Function(_) | Value::Unknown => {
            if fits_pointer(kind.width) {
                value
            } else {
                Value::Unknown
            }
        }
    }
}

fn fits_pointer(width: Width) -> bool
    ensures { result ≡ fits_pointer width }
{
    matches!(width, Width::Bits64)
}

/// The place that lies so many elements of this many cells behind another, at which an array of so many cells begins, or 0 where it isn't
/// known how many.
#[tactic(auto, unfolding(crate::specs::Values::place_advanced))]
pub fn advanced(place: Value, number: Value, stride: u32, cells: u32) -> Value
    ensures { result ≡ place_advanced place number stride cells }
{
    match (place, number) {
        (Value::Pointer(o, k), Value::Number(n)) => {
            Value::Pointer(o, k.wrapping_add(n.wrapping_mul(u64::from(stride))))
        }
        (Value::Pointer(o, k), _) => Value::Within(o, k, cells),
        (Value::Within(o, first, among), _) => Value::Within(o, first, among),
        (Value::Number(p), Value::Number(n)) => {
            if p == 0 && n == 0 {
                Value::Number(0)
            } else {
                Value::Unknown
            }
        }
        (_, _) => Value::Unknown,
    }
}

/// How many elements of this many cells lie between two places.
#[tactic(auto, unfolding(crate::specs::Values::distance))]
pub fn distance(a: Value, b: Value, stride: u32) -> Value
    ensures { result ≡ distance a b stride }
{
    match (a, b) {
        (Value::Pointer(o, k), Value::Pointer(p, l)) => {
            if o == p {
                known(operate(
                    Operation::Divide,
                    INDEX,
                    k.wrapping_sub(l),
                    u64::from(stride),
                ))
            } else {
                Value::Unknown
            }
        }
        (_, _) => Value::Unknown,
    }
}
