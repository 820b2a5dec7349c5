//! The turns of a loop: `(uint64_t i = 0; i < 8; i++)`.
ghost use Rattle.std.specs.Prelude.{◌≡◌};
ghost use Rattle.ot_c_words.specs.Reading.{Gives};
ghost use Rattle.ot_c_expressions.specs.Tree.{expr_of};
ghost use Rattle.ot_c_statements.specs.Tree.{course_of};
ghost use Rattle.ot_c_statements.specs.Loops as read;

use crate::fault::{Fault, ReadError};
use crate::marks::behind_mark;
use crate::part::value;
use crate::tree::Turns;
use ot_c_expressions::Expr;
use ot_c_words::{IntegerType, Known, Mark, Name, Word};
use std::alloc::Global;

/// The type that a word says.
#[tactic(auto, unfolding(crate::specs::Loops::type_word))]
pub fn type_word(name: Name) -> Option<IntegerType>
    ensures { result ≡ read.type_word name }
{
    match name {
        Name::Known(Known::Int) => Some(IntegerType::Int),
        Name::Known(Known::Unsigned) => Some(IntegerType::Unsigned),
        Name::Known(Known::Long) => Some(IntegerType::Long),
        Name::Known(Known::Word64) => Some(IntegerType::UnsignedLong),
        Name::Known(Known::Size) => Some(IntegerType::UnsignedLong),
        _ => None,
    }
}

/// The type that a word says behind `unsigned`.
#[tactic(auto, unfolding(crate::specs::Loops::unsigned_word))]
fn unsigned_word(name: Name) -> Option<IntegerType>
    ensures { result ≡ read.unsigned_word name }
{
    match name {
        Name::Known(Known::Int) => Some(IntegerType::Unsigned),
        Name::Known(Known::Long) => Some(IntegerType::UnsignedLong),
        _ => None,
    }
}

/// Behind `unsigned`: `int`, `long` or nothing.
#[tactic(auto, unfolding(crate::specs::Loops::unsigned_at))]
fn unsigned(words: &[Word]) -> (IntegerType, &[Word])
    ensures { (result.0, result.1.now) ≡ read.unsigned_at words.now }
{
    match words {
        [Word::Name(name), rest @ ..] => match unsigned_word(*name) {
            Some(kind) => (kind, rest),
            None => (IntegerType::Unsigned, words),
        },
        _ => (IntegerType::Unsigned, words),
    }
}

/// A type, behind its first word.
fn type_behind(kind: IntegerType, words: &[Word]) -> (IntegerType, &[Word])
    ensures { (result.0, result.1.now) ≡ read.type_behind kind words.now }
{
    match kind {
        IntegerType::Unsigned => unsigned(words),
        IntegerType::Int => (IntegerType::Int, words),
        IntegerType::Long => (IntegerType::Long, words),
        IntegerType::UnsignedLong => (IntegerType::UnsignedLong, words),
    }
}

/// A type of integers that comes next, and what stands behind it.
#[tactic(auto, unfolding(crate::specs::Loops::type_at))]
pub fn integer_type(words: &[Word]) -> Result<(IntegerType, &[Word]), ReadError>
    ensures { Gives (λ x. (x.0, x.1.now)) result (read.type_at words.now) }
{
    match words {
        [Word::Name(name), rest @ ..] => match type_word(*name) {
            Some(kind) => Ok(type_behind(kind, rest)),
            None => Err(ReadError::Fault(Fault::NoType(words.len()))),
        },
        _ => Err(ReadError::Fault(Fault::NoType(words.len()))),
    }
}

#[tactic(auto, unfolding(crate::specs::Loops::variable_at))]
fn variable(words: &[Word]) -> Result<(usize, &[Word]), ReadError>
    ensures { Gives (λ x. (x.0, x.1.now)) result (read.variable_at words.now) }
{
    match words {
        [Word::Name(Name::Other(number)), rest @ ..] => Ok((*number, rest)),
        _ => Err(ReadError::Fault(Fault::NoVariable(words.len()))),
    }
}

/// This variable, and no other.
#[tactic(auto, unfolding(crate::specs::Loops::this_at))]
fn this_variable(wanted: usize, words: &[Word]) -> Result<&[Word], ReadError>
    ensures { Gives (λ x. x.now) result (read.this_at wanted words.now) }
{
    let (found, rest) = variable(words)?;
    if found == wanted {
        Ok(rest)
    } else {
        Err(ReadError::Fault(Fault::OtherVariable(words.len())))
    }
}

/// `<` or `<=`: whether the end has a turn too.
#[tactic(auto, unfolding(crate::specs::Loops::until_at))]
fn until(words: &[Word]) -> Result<(bool, &[Word]), ReadError>
    ensures { Gives (λ x. (x.0, x.1.now)) result (read.until_at words.now) }
{
    match words {
        [Word::Mark(Mark::Less), rest @ ..] => Ok((false, rest)),
        [Word::Mark(Mark::AtMost), rest @ ..] => Ok((true, rest)),
        _ => Err(ReadError::Fault(Fault::NoMark(words.len()))),
    }
}

/// Behind a variable: `++` or `+= 1`.
#[tactic(auto, unfolding(crate::specs::Loops::advance_at))]
fn advance(words: &[Word]) -> Result<&[Word], ReadError>
    ensures { Gives (λ x. x.now) result (read.advance_at words.now) }
{
    match words {
        [Word::Mark(Mark::Increment), rest @ ..] => Ok(rest),
        [
            Word::Mark(Mark::AddAssign),
            Word::Number(number, _),
            rest @ ..,
        ] => {
            if *number == 1 {
                Ok(rest)
            } else {
                Err(ReadError::Fault(Fault::OtherStep(words.len())))
            }
        }
        _ => Err(ReadError::Fault(Fault::OtherStep(words.len()))),
    }
}

/// `i++`, `i += 1` or `++i`.
#[tactic(auto, unfolding(crate::specs::Loops::step_at))]
fn step(wanted: usize, words: &[Word]) -> Result<&[Word], ReadError>
    ensures { Gives (λ x. x.now) result (read.step_at wanted words.now) }
{
    match words {
        [Word::Mark(Mark::Increment), rest @ ..] => this_variable(wanted, rest),
        _ => {
            let rest = this_variable(wanted, words)?;
            advance(rest)
        }
    }
}

/// `(uint64_t i = 0;`
#[tactic(auto, unfolding(crate::specs::Loops::first_at))]
fn first(
    alloc: Global,
    words: &[Word],
) -> Result<(IntegerType, usize, usize, Expr, &[Word]), ReadError>
    ensures { Gives (λ x. (x.0, x.1, x.2, expr_of x.3, x.4.now)) result (read.first_at words.now) }
{
    let rest = behind_mark(Mark::Open, words)?;
    let (kind, rest) = integer_type(rest)?;
    let left = rest.len();
    let (variable, rest) = variable(rest)?;
    let rest = behind_mark(Mark::Assign, rest)?;
    let (start, rest) = value(alloc, rest)?;
    let rest = behind_mark(Mark::Semicolon, rest)?;
    Ok((kind, left, variable, start, rest))
}

/// `i < 8; i++)`
#[tactic(auto, unfolding(crate::specs::Loops::last_at))]
fn last(alloc: Global, variable: usize, words: &[Word]) -> Result<(bool, Expr, &[Word]), ReadError>
    ensures { Gives (λ x. (x.0, expr_of x.1, x.2.now)) result (read.last_at variable words.now) }
{
    let rest = this_variable(variable, words)?;
    let (through, rest) = until(rest)?;
    let (end, rest) = value(alloc, rest)?;
    let rest = behind_mark(Mark::Semicolon, rest)?;
    let rest = step(variable, rest)?;
    let rest = behind_mark(Mark::Close, rest)?;
    Ok((through, end, rest))
}

/// Behind `for`.
#[tactic(auto, unfolding(crate::specs::Loops::course_at))]
pub(crate) fn turns(alloc: Global, words: &[Word]) -> Result<(Turns, &[Word]), ReadError>
    ensures { Gives (λ x. (course_of x.0, x.1.now)) result (read.course_at words.now) }
{
    let (kind, left, variable, start, rest) = first(alloc, words)?;
    let (through, end, rest) = last(alloc, variable, rest)?;
    let turns = Turns {
        left,
        variable,
        kind,
        start,
        end,
        through,
    };
    Ok((turns, rest))
}
