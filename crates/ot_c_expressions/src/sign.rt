//! Signs between two values and how tightly they bind, and signs before one (C17, section 6.5).
ghost use Rattle.std.specs.Prelude.{◌≡◌, ◌≤◌};
ghost use Rattle.ot_c_expressions.specs.Signs as signs;

use ot_c_words::{Mark, Word};

/// A sign between two values.
#[derive(Clone, Copy, Debug, PartialEq, Eq)]
pub enum Sign {
    /// `||`
    Either,
    /// `&&`
    Both,
    Or,
    Xor,
    And,
    Equal,
    Unequal,
    Less,
    More,
    AtMost,
    AtLeast,
    ShiftLeft,
    ShiftRight,
    Plus,
    Minus,
    Times,
    Over,
    Rest,
}

/// A sign before a value.
#[derive(Clone, Copy, Debug, PartialEq, Eq)]
pub enum Unary {
    Plus,
    Minus,
    /// `~`
    Invert,
    /// `!`
    Not,
}

/// How a value may begin with a mark.
#[derive(Clone, Copy)]
pub(crate) enum Begin {
    /// A bracket, or a type in one.
    Bracket,
    Sign(Unary),
}

/// How tightly a sign binds its sides; more loosely than all binds `?:`, by 1.
pub(crate) fn binds(sign: Sign) -> u32
    ensures value { result ≡ signs.binds sign }
    ensures within { (2 ≤ result) × (result ≤ 11) }
{
    match sign {
        Sign::Either => 2,
        Sign::Both => 3,
        Sign::Or => 4,
        Sign::Xor => 5,
        Sign::And => 6,
        Sign::Equal | Sign::Unequal => 7,
        Sign::Less | Sign::More | Sign::AtMost | Sign::AtLeast => 8,
        Sign::ShiftLeft | Sign::ShiftRight => 9,
        Sign::Plus | Sign::Minus => 10,
        Sign::Times | Sign::Over | Sign::Rest => 11,
    }
}

#[tactic(auto, unfolding(crate::specs::Signs::sign_of))]
fn sign_of(mark: Mark) -> Option<Sign>
    ensures { result ≡ signs.sign_of mark }
{
    match mark {
        Mark::Either => Some(Sign::Either),
        Mark::Both => Some(Sign::Both),
        Mark::Or => Some(Sign::Or),
        Mark::Xor => Some(Sign::Xor),
        Mark::And => Some(Sign::And),
        Mark::Equal => Some(Sign::Equal),
        Mark::Unequal => Some(Sign::Unequal),
        Mark::Less => Some(Sign::Less),
        Mark::More => Some(Sign::More),
        Mark::AtMost => Some(Sign::AtMost),
        Mark::AtLeast => Some(Sign::AtLeast),
        Mark::ShiftLeft => Some(Sign::ShiftLeft),
        Mark::ShiftRight => Some(Sign::ShiftRight),
        Mark::Plus => Some(Sign::Plus),
        Mark::Minus => Some(Sign::Minus),
        Mark::Times => Some(Sign::Times),
        Mark::Over => Some(Sign::Over),
        Mark::Rest => Some(Sign::Rest),
        _ => None,
    }
}

/// How a value begins with this mark, if it may.
#[tactic(auto, unfolding(crate::specs::Signs::begin_of))]
pub(crate) fn begin_of(mark: Mark) -> Option<Begin>
    ensures { result ≡ signs.begin_of mark }
{
    match mark {
        Mark::Open => Some(Begin::Bracket),
        Mark::Plus => Some(Begin::Sign(Unary::Plus)),
        Mark::Minus => Some(Begin::Sign(Unary::Minus)),
        Mark::Invert => Some(Begin::Sign(Unary::Invert)),
        Mark::Not => Some(Begin::Sign(Unary::Not)),
        _ => None,
    }
}

/// The sign at the front, and what is behind it.
#[tactic(auto, unfolding(crate::specs::Signs::any_sign))]
fn any_sign(words: &[Word]) -> Option<(Sign, &[Word])>
    ensures { signs.view_of_found (λ x. (x.0, x.1.now)) result ≡ signs.any_sign words.now }
{
    match words {
        [Word::Mark(mark), rest @ ..] => {
            let sign = sign_of(*mark)?;
            Some((sign, rest))
        }
        _ => None,
    }
}

/// The sign at the front, where it binds at least so tightly, and what is behind it.
pub(crate) fn front_sign(least: u32, words: &[Word]) -> Option<(Sign, &[Word])>
    ensures { signs.view_of_found (λ x. (x.0, x.1.now)) result ≡ signs.front_sign least words.now }
{
    let (sign, rest) = any_sign(words)?;
    if binds(sign) < least {
        None
    } else {
        Some((sign, rest))
    }
}
