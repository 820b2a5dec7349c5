//! Types of numbers, where `long` has 64 bits.
ghost use Rattle.std.specs.Prelude.{◌≡◌};
ghost use Rattle.ot_c_scope.specs.Kinds as kinds;

use ot_c_words::IntegerType;

/// Narrower types, and signed ones among equals, before others.
fn rank(kind: IntegerType) -> u32
    ensures { result ≡ kinds.rank kind }
{
    match kind {
        IntegerType::Int => 0,
        IntegerType::Unsigned => 1,
        IntegerType::Long => 2,
        IntegerType::UnsignedLong => 3,
    }
}

/// The type in which two numbers meet (C17, section 6.3.1.8).
pub fn joined(one: IntegerType, two: IntegerType) -> IntegerType
    ensures { result ≡ kinds.kind_joined one two }
{
    if rank(one) < rank(two) { two } else { one }
}

/// Whether a type holds a number.
pub fn holds(kind: IntegerType, number: u64) -> bool
    ensures { result ≡ kinds.holds kind number }
{
    match kind {
        IntegerType::Int => number < 1 << 31,
        IntegerType::Unsigned => number < 1 << 32,
        IntegerType::Long => number < 1 << 63,
        IntegerType::UnsignedLong => true,
    }
}

/// Whether the type is `uint64_t`, whose numbers are those of cells.
pub fn is_word(kind: IntegerType) -> bool
    ensures { result ≡ kinds.is_word kind }
{
    matches!(kind, IntegerType::UnsignedLong)
}

/// Whether it is `unsigned`, whose numbers wrap otherwise than those of the language.
pub fn is_narrow(kind: IntegerType) -> bool
    ensures { result ≡ kinds.is_narrow kind }
{
    matches!(kind, IntegerType::Unsigned)
}

/// Whether it has negative numbers.
pub fn is_signed(kind: IntegerType) -> bool
    ensures { result ≡ kinds.is_signed kind }
{
    matches!(kind, IntegerType::Int | IntegerType::Long)
}

/// Whether a type holds the number that is so much below zero.
pub fn holds_below(kind: IntegerType, number: u64) -> bool
    ensures { result ≡ kinds.holds_below kind number }
{
    match kind {
        IntegerType::Int => number <= 1 << 31,
        IntegerType::Long => number <= 1 << 63,
        IntegerType::Unsigned | IntegerType::UnsignedLong => false,
    }
}

fn is_int(kind: IntegerType) -> bool
    ensures { result ≡ kinds.is_int kind }
{
    matches!(kind, IntegerType::Int)
}

/// Whether a number of a type, which isn't negative or may be, is the same modulo 2^64 where it is converted to `target`.
pub fn keeps(target: IntegerType, kind: IntegerType, whole: bool) -> bool
    ensures { result ≡ kinds.keeps target kind whole }
{
    match target {
        IntegerType::UnsignedLong => true,
        IntegerType::Long => !is_word(kind),
        IntegerType::Int => is_int(kind),
        IntegerType::Unsigned => is_narrow(kind) || (is_int(kind) && whole),
    }
}

/// How many bits a type has.
pub fn width(kind: IntegerType) -> u64
    ensures { result ≡ kinds.width kind }
{
    match kind {
        IntegerType::Int | IntegerType::Unsigned => 32,
        IntegerType::Long | IntegerType::UnsignedLong => 64,
    }
}
