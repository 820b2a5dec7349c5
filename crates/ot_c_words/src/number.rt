//! Numbers.
ghost use Rattle.std.specs.Prelude.{◌≡◌, ◌<◌, ◌≤◌, OnOk, length};
ghost use Rattle.ot_c_words.specs.Numbers as read;

use crate::fault::Wrong;
use crate::span::is_digit;
use crate::table::look_up;
use crate::word::IntegerType;

#[derive(Clone, Copy)]
pub enum Base {
    Decimal,
    Hexadecimal,
}

/// What stands behind the digits of a number.
#[derive(Clone, Copy)]
pub enum Suffix {
    Plain,
    Unsigned,
    Long,
    UnsignedLong,
}

const SUFFIXES: [(&str, Suffix); 15] = [
    ("", Suffix::Plain),
    ("u", Suffix::Unsigned),
    ("U", Suffix::Unsigned),
    ("l", Suffix::Long),
    ("L", Suffix::Long),
    ("ll", Suffix::Long),
    ("LL", Suffix::Long),
    ("ul", Suffix::UnsignedLong),
    ("UL", Suffix::UnsignedLong),
    ("lu", Suffix::UnsignedLong),
    ("LU", Suffix::UnsignedLong),
    ("ull", Suffix::UnsignedLong),
    ("ULL", Suffix::UnsignedLong),
    ("llu", Suffix::UnsignedLong),
    ("LLU", Suffix::UnsignedLong),
];

fn base_of(base: Base) -> u64
    ensures { result ≡ read.base_of base }
{
    match base {
        Base::Decimal => 10,
        Base::Hexadecimal => 16,
    }
}

fn figure(digit: u8) -> u64
    ensures { result ≡ read.figure digit }
{
    if is_digit(digit) {
        u64::from(digit - b'0')
    } else if digit >= b'a' && digit <= b'f' {
        u64::from(digit - 87)
    } else if digit >= b'A' && digit <= b'F' {
        u64::from(digit - 55)
    } else {
        16
    }
}

/// How many digits stand at the front.
fn figures_len(base: Base, text: &[u8]) -> usize
    ensures value { result ≡ read.figures_len base text.now }
    ensures within { result ≤ length text.now }
{
    let base = base_of(base);
    for i in 0..text.len() {
        if figure(text[i]) >= base {
            return i;
        }
    }
    text.len()
}

/// The number that digits write, where it has 64 bits.
fn value_of(base: Base, digits: &[u8]) -> Option<u64>
    ensures { result ≡ read.value_of base digits.now }
{
    let times = base_of(base);
    let mut value: u64 = 0;
    for digit in digits {
        let shifted = value.checked_mul(times)?;
        value = shifted.checked_add(figure(*digit))?;
    }
    Some(value)
}

fn suffix_of(text: &[u8]) -> Option<Suffix>
    ensures { result ≡ read.suffix_of text.now }
{
    look_up(&SUFFIXES, text)
}

fn signed_type(base: Base, value: u64) -> Option<IntegerType>
    ensures { result ≡ read.signed_type base value }
{
    if value < 1 << 63 {
        return Some(IntegerType::Long);
    }
    match base {
        Base::Decimal => None,
        Base::Hexadecimal => Some(IntegerType::UnsignedLong),
    }
}

fn plain_type(base: Base, value: u64) -> Option<IntegerType>
    ensures { result ≡ read.plain_type base value }
{
    if value < 1 << 31 {
        return Some(IntegerType::Int);
    }
    match base {
        Base::Decimal => signed_type(base, value),
        Base::Hexadecimal => {
            if value < 1 << 32 {
                Some(IntegerType::Unsigned)
            } else {
                signed_type(base, value)
            }
        }
    }
}

/// The first type that holds the number, of those that its base and its end leave.
#[tactic(auto, unfolding(crate::specs::Numbers::type_of))]
fn type_of(base: Base, suffix: Suffix, value: u64) -> Option<IntegerType>
    ensures { result ≡ read.type_of base suffix value }
{
    match suffix {
        Suffix::Plain => plain_type(base, value),
        Suffix::Unsigned => {
            if value < 1 << 32 {
                Some(IntegerType::Unsigned)
            } else {
                Some(IntegerType::UnsignedLong)
            }
        }
        Suffix::Long => signed_type(base, value),
        Suffix::UnsignedLong => Some(IntegerType::UnsignedLong),
    }
}

/// One digit or more, and an end that says of which type it is.
#[tactic(auto, unfolding(crate::specs::Numbers::in_base))]
fn in_base(base: Base, text: &[u8]) -> Result<(u64, IntegerType), Wrong>
    ensures value { result ≡ read.in_base base text.now }
    ensures some { OnOk result (0 < length text.now) }
{
    let len = figures_len(base, text);
    if len == 0 {
        return Err(Wrong::NoNumber);
    }
    let Some(suffix) = suffix_of(&text[len..]) else {
        return Err(Wrong::NoNumber);
    };
    let Some(value) = value_of(base, &text[..len]) else {
        return Err(Wrong::TooLarge);
    };
    match type_of(base, suffix, value) {
        Some(kind) => Ok((value, kind)),
        None => Err(Wrong::TooLarge),
    }
}

/// The number that a text is. One that begins with a zero and a digit is octal, which isn't read.
#[tactic(auto, unfolding(crate::specs::Numbers::number_of))]
pub(crate) fn number(text: &[u8]) -> Result<(u64, IntegerType), Wrong>
    ensures value { result ≡ read.number_of text.now }
    ensures some { OnOk result (0 < length text.now) }
{
    match text {
        [first, second, digits @ ..] => {
            if *first == b'0' && (*second == b'x' || *second == b'X') {
                in_base(Base::Hexadecimal, digits)
            } else if *first == b'0' && is_digit(*second) {
                Err(Wrong::NoNumber)
            } else {
                in_base(Base::Decimal, text)
            }
        }
        _ => in_base(Base::Decimal, text),
    }
}
