ghost use Rattle.std.specs.Prelude.{◌≡◌};
ghost use Rattle.ot_exec_state.specs.Results.{Gives};
ghost use Rattle.ot_exec_state.specs.Values.{is_unknown, number_or};

use crate::fault::{Halt, Reason};

/// What a slot or a cell has.
#[derive(Clone, Copy, Debug, PartialEq, Eq)]
pub enum Value {
    /// A number of some integer type, kept in 64 bits.
    Number(u64),
    /// The place of an object at an index, as two's complement has it: it may lie outside, where nothing may be touched.
    Pointer(u32, u64),
    /// A place somewhere in an object: in so many cells from this one on, or in all of them where they are none.
    Within(u32, u64, u32),
    /// A function, by its number.
    Function(u32),
    Unknown,
}

/// Whether nothing is known of the value.
pub fn is_unknown(value: Value) -> bool
    ensures { result ≡ is_unknown value }
{
    match value {
        Value::Unknown => true,
        Value::Number(_) | Value::Pointer(_, _) | Value::Within(_, _, _) | Value::Function(_) =>
            false,
    }
}

/// The number that a value is, or else this is the reason.
pub fn number(reason: Reason, value: Value) -> Result<u64, Halt>
    ensures { Gives (λ n. n) result (number_or reason value) }
{
    match value {
        Value::Number(n) => Ok(n),
        Value::Pointer(_, _) | Value::Within(_, _, _) | Value::Function(_) | Value::Unknown => Err(
            Halt::For(reason),
        ),
    }
}
