//! Numbers and characters (ISO C11, section 6.4.4).
use crate::token::Kind;
use ot_exec_tree::Integer;

/// What stands behind the digits: whether it says unsigned, and long.
#[derive(Clone, Copy)]
struct Suffix {
    is_unsigned: bool,
    is_long: bool,
}

/// The number that is spelled so.
pub fn number_of(text: &[u8]) -> Option<Kind> {
    let is_hexadecimal = matches!(text, [b'0', b'x' | b'X', ..]);
    if is_real(text, is_hexadecimal) {
        return Some(Kind::Real(real_bytes(text, is_hexadecimal)));
    }
    let (base, digits) = match text {
        [b'0', b'x' | b'X', digits @ ..] => (16, digits),
        [b'0', b'b' | b'B', digits @ ..] => (2, digits),
        [b'0', ..] => (8, text),
        _ => (10, text),
    };
    let len = digits.iter().take_while(|d| figure(**d) < base).count();
    let suffix = suffix_of(&digits[len.min(digits.len())..])?;
    let value = value_of(base, &digits[..len.min(digits.len())])?;
    let kind = type_of(value, base == 10, suffix)?;
    Some(Kind::Number(value, kind))
}

/// Whether it has a point or an exponent.
fn is_real(text: &[u8], is_hexadecimal: bool) -> bool {
    if is_hexadecimal {
        text.iter().any(|b| matches!(*b, b'.' | b'p' | b'P'))
    } else {
        text.iter().any(|b| matches!(*b, b'.' | b'e' | b'E'))
    }
}

/// How many bytes a floating constant has.
fn real_bytes(text: &[u8], is_hexadecimal: bool) -> u32 {
    match text.last() {
        Some(b'f' | b'F') if !is_hexadecimal => 4,
        Some(b'l' | b'L') => 16,
        _ => 8,
    }
}

/// The value of a digit, or more than any base has.
fn figure(digit: u8) -> u64 {
    match digit {
        b'0'..=b'9' => u64::from(digit - b'0'),
        b'a'..=b'f' => u64::from(digit - b'a') + 10,
        b'A'..=b'F' => u64::from(digit - b'A') + 10,
        _ => 99,
    }
}

/// The value of digits, where it has 64 bits.
fn value_of(base: u64, digits: &[u8]) -> Option<u64> {
    let mut value: u64 = 0;
    for digit in digits {
        value = value.checked_mul(base)?.checked_add(figure(*digit))?;
    }
    Some(value)
}

fn suffix_of(text: &[u8]) -> Option<Suffix> {
    let is_unsigned = text.iter().any(|b| matches!(*b, b'u' | b'U'));
    let is_long = text.iter().any(|b| matches!(*b, b'l' | b'L'));
    if text.len() > 3
        || text
            .iter()
            .any(|b| !matches!(*b, b'u' | b'U' | b'l' | b'L'))
    {
        return None;
    }
    Some(Suffix {
        is_unsigned,
        is_long,
    })
}

/// The first type that holds it.
fn type_of(value: u64, is_decimal: bool, suffix: Suffix) -> Option<Integer> {
    let may_be_unsigned = suffix.is_unsigned || !is_decimal;
    if !suffix.is_long && !suffix.is_unsigned && value < 1 << 31 {
        Some(Integer::Int)
    } else if !suffix.is_long && may_be_unsigned && value < 1 << 32 {
        Some(Integer::Unsigned)
    } else if !suffix.is_unsigned && value < 1 << 63 {
        Some(Integer::Long)
    } else if may_be_unsigned {
        Some(Integer::UnsignedLong)
    } else {
        None
    }
}

/// Whether a number is unsigned where all types have 64 bits, as in tests of `#if` (ISO C11, section 6.10.1).
pub fn is_unsigned(text: &[u8], value: u64) -> bool {
    value >= 1 << 63 || text.iter().any(|b| matches!(*b, b'u' | b'U'))
}

/// The value of a character, which stands between quotes: one letter, or a pair that begins with a backslash.
pub fn character_of(text: &[u8]) -> Option<Kind> {
    let value = match text {
        [_, letter, _] => u64::from(*letter),
        [_, b'\\', b'x', digits @ .., _] => value_of(16, digits)? % 256,
        [_, b'\\', digits @ .., _] if digits.len() <= 3 && digits.iter().all(|d| figure(*d) < 8) =>
            { value_of(8, digits)? % 256 }
        [_, b'\\', letter, _] => escaped(*letter),
        _ => return None,
    };
    // (a `char` has a sign)
    let value = if value < 128 {
        value
    } else {
        value.wrapping_sub(256)
    };
    Some(Kind::Number(value, Integer::Int))
}

/// What stands for a letter behind a backslash.
fn escaped(letter: u8) -> u64 {
    match letter {
        b'n' => 10,
        b't' => 9,
        b'r' => 13,
        b'a' => 7,
        b'b' => 8,
        b'f' => 12,
        b'v' => 11,
        _ => u64::from(letter),
    }
}
