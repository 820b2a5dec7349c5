//! Values and clauses, which `ot_c_expressions` reads.
ghost use Rattle.std.specs.Prelude.{◌≡◌};
ghost use Rattle.ot_c_words.specs.Reading.{Gives};
ghost use Rattle.ot_c_expressions.specs.Tree.{expr_of, clauses_of};
ghost use Rattle.ot_c_statements.specs.Tree.{exprs_of, index_of};
ghost use Rattle.ot_c_statements.specs.Reading as read;

use crate::fault::{Fault, ReadError};
use crate::marks::{another, behind_mark};
use ot_c_expressions::{Clause, Expr, read_clauses, read_value};
use ot_c_words::{Mark, Word};
use std::alloc::Global;

/// A value that comes next, and what stands behind it.
pub fn value(alloc: Global, words: &[Word]) -> Result<(Expr, &[Word]), ReadError>
    ensures { Gives (λ x. (expr_of x.0, x.1.now)) result (read.value words.now) }
{
    match read_value(alloc, words) {
        Ok(found) => Ok(found),
        Err(ot_c_expressions::ReadError::Memory) => Err(ReadError::Memory),
        Err(ot_c_expressions::ReadError::Fault(fault)) => Err(ReadError::Fault(Fault::Part(fault))),
    }
}

/// `[3]`, or nothing.
#[tactic(auto, unfolding(crate::specs::Reading::index_at))]
pub fn read_index(alloc: Global, words: &[Word]) -> Result<(Option<Expr>, &[Word]), ReadError>
    ensures { Gives (λ x. (index_of x.0, x.1.now)) result (read.index_at words.now) }
{
    match words {
        [Word::Mark(Mark::OpenIndex), rest @ ..] => {
            let (index, rest) = value(alloc, rest)?;
            let rest = behind_mark(Mark::CloseIndex, rest)?;
            Ok((Some(index), rest))
        }
        _ => Ok((None, words)),
    }
}

/// The clauses up to the end of a directive.
pub(crate) fn clauses(alloc: Global, words: &[Word]) -> Result<(Vec<Clause>, &[Word]), ReadError>
    ensures { Gives (λ x. (clauses_of x.0.items, x.1.now)) result (read.clauses words.now) }
{
    match read_clauses(alloc, words) {
        Ok(found) => Ok(found),
        Err(ot_c_expressions::ReadError::Memory) => Err(ReadError::Memory),
        Err(ot_c_expressions::ReadError::Fault(fault)) => Err(ReadError::Fault(Fault::Part(fault))),
    }
}

/// A value behind those that were found, and whether another follows.
#[tactic(auto, unfolding(crate::specs::Reading::values_step))]
fn values_step(
    alloc: Global,
    mut found: Vec<Expr>,
    words: &[Word],
) -> Result<(Vec<Expr>, bool, &[Word]), ReadError>
    ensures { Gives (λ x. (exprs_of x.0.items, x.1, x.2.now)) result (read.values_step (exprs_of found.items) words.now) }
{
    let (value, rest) = value(alloc, words)?;
    let (more, rest) = another(rest);
    found.push(value)?;
    Ok((found, more, rest))
}

/// Values with commas between them.
pub fn values(alloc: Global, words: &[Word]) -> Result<(Vec<Expr>, &[Word]), ReadError>
    ensures { Gives (λ x. (exprs_of x.0.items, x.1.now)) result (read.values words.now) }
{
    let mut found = Vec::new(alloc);
    let mut rest = words;
    for _turn in 0..words.len() {
        let (put, more, behind) = values_step(alloc, found, rest)?;
        if !more {
            return Ok((put, behind));
        }
        found = put;
        rest = behind;
    }
    Err(ReadError::Fault(Fault::TooLong(rest.len())))
}
