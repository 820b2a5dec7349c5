//! Values, by how tightly signs bind.
ghost use Rattle.std.specs.Prelude.{◌≡◌, ◌≤◌};
ghost use Rattle.ot_c_words.specs.Reading.{Gives};
ghost use Rattle.ot_c_expressions.specs.Signs.{view_of_found};
ghost use Rattle.ot_c_expressions.specs.Tree.{expr_of};
ghost use Rattle.ot_c_expressions.specs.Reading.{operand_at, named_at, called_at, bracket_at, prefixed_at, more_at, choice_at, value_at};
ghost use Rattle.ot_c_expressions.specs.Reading as read;

use crate::fault::{Fault, ReadError};
use crate::marks::behind_mark;
use crate::sign::{Begin, Unary, begin_of, binds, front_sign};
use crate::tree::{Call, Expr};
use ot_c_words::{Known, Mark, Name, Word};
use std::alloc::Global;

/// How deep values nest: a bracket and what stands in it are two.
const MAX_DEPTH: u32 = 72;

/// How many signs stand in a row.
const MAX_SIGNS: u32 = 24;

/// More tightly than any sign between two values binds one before a value.
const TIGHTEST: u32 = 12;

#[tactic(auto, unfolding(crate::specs::Reading::call_of))]
fn call_of(name: Name) -> Option<Call>
    ensures { result ≡ read.call_of name }
{
    match name {
        Name::Known(Known::Min) => Some(Call::Min),
        Name::Known(Known::Max) => Some(Call::Max),
        _ => None,
    }
}

#[tactic(auto, unfolding(crate::specs::Reading::is_unsigned))]
fn is_unsigned(name: Name) -> bool
    ensures { result ≡ read.is_unsigned name }
{
    matches!(name, Name::Known(Known::Word64))
}

/// Behind `uint64_t )`.
#[tactic(auto, unfolding(crate::specs::Reading::cast_end))]
fn cast_end(words: &[Word]) -> Option<&[Word]>
    ensures { view_of_found (λ x. x.now) result ≡ read.cast_end words.now }
{
    match words {
        [Word::Name(name), Word::Mark(Mark::Close), rest @ ..] => {
            if is_unsigned(*name) { Some(rest) } else { None }
        }
        _ => None,
    }
}

/// Behind a name: a cell's place, or nothing.
#[cycle(value)]
#[tactic(auto, unfolding(crate::specs::Reading::named_at, crate::specs::Reading::indexed_at))]
fn named(
    alloc: Global,
    depth: u32,
    name: Name,
    words: &[Word],
) -> Result<(Expr, &[Word]), ReadError>
    requires { depth ≤ 72 }
    ensures { Gives (λ x. (expr_of x.0, x.1.now)) result (named_at (value_at depth) name words.now) }
{
    match words {
        [Word::Mark(Mark::OpenIndex), rest @ ..] => {
            let (index, rest) = value(alloc, depth, 1, rest)?;
            let rest = behind_mark(Mark::CloseIndex, rest)?;
            let left = words.len() + 1;
            Ok((Expr::Cell(left, name, Box::new(alloc, index)?), rest))
        }
        _ => Ok((Expr::Variable(words.len() + 1, name), words)),
    }
}

/// Behind a function's name: its two values.
#[cycle(value)]
#[tactic(auto, unfolding(crate::specs::Reading::called_at))]
fn called(
    alloc: Global,
    depth: u32,
    call: Call,
    words: &[Word],
) -> Result<(Expr, &[Word]), ReadError>
    requires { depth ≤ 72 }
    ensures { Gives (λ x. (expr_of x.0, x.1.now)) result (called_at (value_at depth) call words.now) }
{
    let rest = behind_mark(Mark::Open, words)?;
    let (one, rest) = value(alloc, depth, 1, rest)?;
    let rest = behind_mark(Mark::Comma, rest)?;
    let (two, rest) = value(alloc, depth, 1, rest)?;
    let rest = behind_mark(Mark::Close, rest)?;
    let left = words.len() + 1;
    let expr = Expr::Call(left, call, Box::new(alloc, one)?, Box::new(alloc, two)?);
    Ok((expr, rest))
}

/// Behind a bracket: a type and a value, or a value and the bracket's end.
#[cycle(value)]
#[tactic(auto, unfolding(crate::specs::Reading::bracket_at))]
fn bracket(alloc: Global, depth: u32, words: &[Word]) -> Result<(Expr, &[Word]), ReadError>
    requires { depth ≤ 72 }
    ensures { Gives (λ x. (expr_of x.0, x.1.now)) result (bracket_at (value_at depth) words.now) }
{
    match cast_end(words) {
        Some(rest) => {
            let (expr, rest) = value(alloc, depth, TIGHTEST, rest)?;
            Ok((Expr::Cast(Box::new(alloc, expr)?), rest))
        }
        None => {
            let (expr, rest) = value(alloc, depth, 1, words)?;
            let rest = behind_mark(Mark::Close, rest)?;
            Ok((expr, rest))
        }
    }
}

/// Behind a sign before a value.
#[cycle(value)]
#[tactic(auto, unfolding(crate::specs::Reading::prefixed_at))]
fn prefixed(
    alloc: Global,
    depth: u32,
    sign: Unary,
    words: &[Word],
) -> Result<(Expr, &[Word]), ReadError>
    requires { depth ≤ 72 }
    ensures { Gives (λ x. (expr_of x.0, x.1.now)) result (prefixed_at (value_at depth) sign words.now) }
{
    let (expr, rest) = value(alloc, depth, TIGHTEST, words)?;
    let left = words.len() + 1;
    Ok((Expr::Unary(left, sign, Box::new(alloc, expr)?), rest))
}

#[cycle(value)]
#[tactic(auto, unfolding(crate::specs::Reading::operand_at))]
fn operand(alloc: Global, depth: u32, words: &[Word]) -> Result<(Expr, &[Word]), ReadError>
    requires { depth ≤ 72 }
    ensures { Gives (λ x. (expr_of x.0, x.1.now)) result (operand_at (value_at depth) words.now) }
{
    match words {
        [Word::Number(number, kind), rest @ ..] => Ok((
            Expr::Number(words.len(), *number, *kind),
            rest,
        )),
        [Word::Name(name), rest @ ..] => match call_of(*name) {
            Some(call) => called(alloc, depth, call, rest),
            None => named(alloc, depth, *name, rest),
        },
        [Word::Mark(mark), rest @ ..] => match begin_of(*mark) {
            Some(Begin::Bracket) => bracket(alloc, depth, rest),
            Some(Begin::Sign(sign)) => prefixed(alloc, depth, sign, rest),
            None => Err(ReadError::Fault(Fault::NoValue(words.len()))),
        },
        _ => Err(ReadError::Fault(Fault::NoValue(words.len()))),
    }
}

/// What goes on behind a value, with signs that bind at least so tightly.
#[cycle(value)]
#[tactic(auto, unfolding(crate::specs::Reading::more_at))]
fn more(
    alloc: Global,
    depth: u32,
    turns: u32,
    least: u32,
    left: Expr,
    words: &[Word],
) -> Result<(Expr, &[Word]), ReadError>
    requires depth { depth ≤ 72 }
    requires turns { turns ≤ 24 }
    ensures { Gives (λ x. (expr_of x.0, x.1.now)) result (more_at (value_at depth) turns least (expr_of left) words.now) }
{
    let Some((sign, rest)) = front_sign(least, words) else {
        return Ok((left, words));
    };
    if turns == 0 {
        return Err(ReadError::Fault(Fault::TooDeep(words.len())));
    }
    let (right, rest) = value(alloc, depth, binds(sign) + 1, rest)?;
    let both = Expr::Op(
        words.len(),
        sign,
        Box::new(alloc, left)?,
        Box::new(alloc, right)?,
    );
    more(alloc, depth, turns - 1, least, both, rest)
}

/// What stands behind `?`, where such a choice may stand.
#[tactic(auto, unfolding(crate::specs::Reading::question_at))]
fn question(least: u32, words: &[Word]) -> Option<&[Word]>
    ensures { view_of_found (λ x. x.now) result ≡ read.question_at least words.now }
{
    match words {
        [Word::Mark(Mark::Question), rest @ ..] => { if least <= 1 { Some(rest) } else { None } }
        _ => None,
    }
}

/// A choice that a test begins, or the test alone.
#[cycle(value)]
#[tactic(auto, unfolding(crate::specs::Reading::choice_at))]
fn choice(
    alloc: Global,
    depth: u32,
    least: u32,
    test: Expr,
    words: &[Word],
) -> Result<(Expr, &[Word]), ReadError>
    requires { depth ≤ 72 }
    ensures { Gives (λ x. (expr_of x.0, x.1.now)) result (choice_at (value_at depth) least (expr_of test) words.now) }
{
    let Some(rest) = question(least, words) else {
        return Ok((test, words));
    };
    let (one, rest) = value(alloc, depth, 1, rest)?;
    let rest = behind_mark(Mark::Colon, rest)?;
    let (other, rest) = value(alloc, depth, 1, rest)?;
    let expr = Expr::Choice(
        words.len(),
        Box::new(alloc, test)?,
        Box::new(alloc, one)?,
        Box::new(alloc, other)?,
    );
    Ok((expr, rest))
}

#[cycle(value)]
#[tactic(auto, unfolding(crate::specs::Reading::value_at))]
fn value(
    alloc: Global,
    depth: u32,
    least: u32,
    words: &[Word],
) -> Result<(Expr, &[Word]), ReadError>
    requires { depth ≤ 72 }
    ensures { Gives (λ x. (expr_of x.0, x.1.now)) result (value_at depth least words.now) }
{
    if depth == 0 {
        return Err(ReadError::Fault(Fault::TooDeep(words.len())));
    }
    let (first, rest) = operand(alloc, depth - 1, words)?;
    let (expr, rest) = more(alloc, depth - 1, MAX_SIGNS, least, first, rest)?;
    choice(alloc, depth - 1, least, expr, rest)
}

/// The value at the front, and the words behind it.
pub fn read_value(alloc: Global, words: &[Word]) -> Result<(Expr, &[Word]), ReadError>
    ensures { Gives (λ x. (expr_of x.0, x.1.now)) result (value_at 72 1 words.now) }
{
    value(alloc, MAX_DEPTH, 1, words)
}
