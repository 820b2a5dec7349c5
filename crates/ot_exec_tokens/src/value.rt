//! Values in tests of `#if`: each has 64 bits, and a sign or none (ISO C11, section 6.10.1).
ghost use Rattle.std.specs.Prelude.{◌≡◌, ◌<◌, ◌||◌, ◌↔◌, IsTrue, false};

use ot_exec_lexemes::Mark;

#[derive(Clone, Copy)]
pub(crate) struct Value {
    pub bits: u64,
    pub is_unsigned: bool,
}

impl Value {
    /// Whether something holds, which is a signed value.
    pub(crate) fn told(holds: bool) -> Value
        ensures sign { result.is_unsigned ≡ false }
    {
        Value {
            bits: u64::from(holds),
            is_unsigned: false,
        }
    }

    pub(crate) fn holds(self) -> bool {
        self.bits != 0
    }

    /// What it is as a number with a sign.
    fn number(self) -> i64 {
        i64::from_ne_bytes(self.bits.to_ne_bytes())
    }

    /// In the type in which two values meet: it has no sign where either has none.
    pub(crate) fn beside(self, other: Value) -> Value
        ensures bits { result.bits ≡ self.bits }
        ensures sign { result.is_unsigned ≡ (self.is_unsigned || other.is_unsigned) }
    {
        Value {
            bits: self.bits,
            is_unsigned: self.is_unsigned || other.is_unsigned,
        }
    }

    /// A value of the same type.
    fn with(self, bits: u64) -> Value
        ensures bits { result.bits ≡ bits }
        ensures sign { result.is_unsigned ≡ self.is_unsigned }
    {
        Value {
            bits,
            is_unsigned: self.is_unsigned,
        }
    }
}

fn bits_of(number: i64) -> u64 {
    u64::from_ne_bytes(number.to_ne_bytes())
}

/// What a mark makes of the two values around it.
pub(crate) fn joined(mark: Mark, one: Value, two: Value) -> Option<Value> {
    match mark {
        Mark::Either => Some(Value::told(one.holds() || two.holds())),
        Mark::Both => Some(Value::told(one.holds() && two.holds())),
        Mark::ShiftLeft => Some(one.with(shifted_left(one, two)?)),
        Mark::ShiftRight => Some(one.with(shifted_right(one, two)?)),
        _ => met(mark, one.beside(two), two.beside(one)),
    }
}

/// What a mark makes of two values of one type.
fn met(mark: Mark, one: Value, two: Value) -> Option<Value> {
    match mark {
        Mark::Or => Some(one.with(one.bits | two.bits)),
        Mark::Xor => Some(one.with(one.bits ^ two.bits)),
        Mark::And => Some(one.with(one.bits & two.bits)),
        Mark::Plus => Some(one.with(one.bits.wrapping_add(two.bits))),
        Mark::Minus => Some(one.with(one.bits.wrapping_sub(two.bits))),
        Mark::Star => Some(one.with(one.bits.wrapping_mul(two.bits))),
        Mark::Slash => Some(one.with(quotient(one, two)?)),
        Mark::Percent => Some(one.with(remainder(one, two)?)),
        _ => Some(Value::told(compared(mark, one, two)?)),
    }
}

fn quotient(one: Value, two: Value) -> Option<u64> {
    if one.is_unsigned {
        one.bits.checked_div(two.bits)
    } else {
        Some(bits_of(one.number().checked_div(two.number())?))
    }
}

fn remainder(one: Value, two: Value) -> Option<u64> {
    if one.is_unsigned {
        one.bits.checked_rem(two.bits)
    } else {
        Some(bits_of(one.number().checked_rem(two.number())?))
    }
}

/// By how much is a small number, of whichever type: one below 0 is none.
fn shifted_left(one: Value, by: Value) -> Option<u64> {
    one.bits.checked_shl(u32::try_from(by.bits).ok()?)
}

fn shifted_right(one: Value, by: Value) -> Option<u64> {
    let by = u32::try_from(by.bits).ok()?;
    if one.is_unsigned {
        one.bits.checked_shr(by)
    } else {
        Some(bits_of(one.number().checked_shr(by)?))
    }
}

fn compared(mark: Mark, one: Value, two: Value) -> Option<bool> {
    match mark {
        Mark::Equal => Some(one.bits == two.bits),
        Mark::NotEqual => Some(one.bits != two.bits),
        Mark::Less => Some(is_less(one, two)),
        Mark::Greater => Some(is_less(two, one)),
        Mark::LessOrEqual => Some(!is_less(two, one)),
        Mark::GreaterOrEqual => Some(!is_less(one, two)),
        _ => None,
    }
}

fn is_less(one: Value, two: Value) -> bool
    ensures unsigned { IsTrue one.is_unsigned → (IsTrue result ↔ (one.bits < two.bits)) }
{
    if one.is_unsigned {
        one.bits < two.bits
    } else {
        one.number() < two.number()
    }
}

/// What a mark makes of the value behind it.
pub(crate) fn signed(mark: Mark, value: Value) -> Option<Value> {
    match mark {
        Mark::Plus => Some(value),
        Mark::Minus => Some(value.with(0u64.wrapping_sub(value.bits))),
        Mark::Not => Some(Value::told(!value.holds())),
        Mark::Complement => Some(value.with(!value.bits)),
        _ => None,
    }
}
