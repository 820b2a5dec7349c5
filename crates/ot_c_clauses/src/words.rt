//! Words of operations.
ghost use Rattle.std.specs.Prelude.{◌≡◌};
ghost use Rattle.ot_c_clauses.specs.Operations as meant;

use ot_c_expressions::{Call, Operation, Sign};

/// How the language writes an operation of folds.
pub fn operation_word(operation: Operation) -> &'static str
    ensures { result.now ≡ meant.operation_word operation }
{
    match operation {
        Operation::Plus => "+",
        Operation::Times => "*",
        Operation::And => "&",
        Operation::Or => "|",
        Operation::Xor => "^",
        Operation::Min => "min",
        Operation::Max => "max",
    }
}

/// By which operation `x op= e` folds; taking away adds.
pub fn fold_of(sign: Sign) -> Option<Operation>
    ensures { result ≡ meant.folding_sign sign }
{
    match sign {
        Sign::Plus | Sign::Minus => Some(Operation::Plus),
        Sign::Times => Some(Operation::Times),
        Sign::And => Some(Operation::And),
        Sign::Or => Some(Operation::Or),
        Sign::Xor => Some(Operation::Xor),
        Sign::Equal | Sign::Less | Sign::Rest => None,
        Sign::Either | Sign::Both | Sign::Unequal | Sign::More | Sign::AtMost => None,
        Sign::AtLeast | Sign::ShiftLeft | Sign::ShiftRight | Sign::Over => None,
    }
}

/// Whether the sign is that of a difference.
pub fn is_minus(sign: Sign) -> bool
    ensures { result ≡ meant.is_minus sign }
{
    matches!(sign, Sign::Minus)
}

/// The operation of folds that a call of `min` or `max` is.
pub fn call_fold(call: Call) -> Operation
    ensures { result ≡ meant.call_fold call }
{
    match call {
        Call::Min => Operation::Min,
        Call::Max => Operation::Max,
    }
}

/// Whether it is by which number is greater.
pub(crate) fn is_extreme(operation: Operation) -> bool
    ensures { result ≡ meant.is_extreme operation }
{
    matches!(operation, Operation::Min | Operation::Max)
}

fn rank(operation: Operation) -> u32
    ensures { result ≡ meant.operation_rank operation }
{
    match operation {
        Operation::Plus => 0,
        Operation::Times => 1,
        Operation::And => 2,
        Operation::Or => 3,
        Operation::Xor => 4,
        Operation::Min => 5,
        Operation::Max => 6,
    }
}

/// Whether both are one operation.
pub fn is_same(one: Operation, two: Operation) -> bool
    ensures { result ≡ meant.is_same_operation one two }
{
    rank(one) == rank(two)
}
