//! A parallel region around what one thread does (OpenMP API 5.2, sections 10.1, 10.5 and 11.1).
ghost use Rattle.std.specs.Prelude.{◌≡◌};
ghost use Rattle.ot_c_words.specs.Reading.{Gives};
ghost use Rattle.ot_c_expressions.specs.Signs.{view_of_found as seen};
ghost use Rattle.ot_c_expressions.specs.Tree.{clauses_of};
ghost use Rattle.ot_c_statements.specs.Tree.{body_of, list_of};
ghost use Rattle.ot_c_files.specs.Regions as read;

use ot_c_expressions::Clause;
use ot_c_statements::marks::behind_mark;
use ot_c_statements::{Directive, Fault, ReadError, Stmt, own_clauses, read_body};
use ot_c_words::{Known, Mark, Name, Word};
use std::alloc::Global;

#[tactic(auto, unfolding(crate::specs::Regions::is_parallel))]
fn is_parallel(name: Name) -> bool
    ensures { result ≡ read.is_parallel name }
{
    matches!(name, Name::Known(Known::Parallel))
}

/// Behind `#pragma omp parallel`.
#[tactic(auto, unfolding(crate::specs::Regions::parallel_end))]
pub(crate) fn parallel_end(words: &[Word]) -> Option<&[Word]>
    ensures { seen (λ x. x.now) result ≡ read.parallel_end words.now }
{
    match words {
        [Word::Pragma, Word::Name(name), rest @ ..] => {
            if is_parallel(*name) { Some(rest) } else { None }
        }
        _ => None,
    }
}

/// Whether what follows is done by one thread.
#[tactic(auto, unfolding(crate::specs::Regions::is_single))]
fn is_single(name: Name) -> bool
    ensures { result ≡ read.is_single name }
{
    matches!(
        name,
        Name::Known(Known::Single | Known::Master | Known::Masked)
    )
}

/// `#pragma omp single` without a clause.
#[tactic(auto, unfolding(crate::specs::Regions::single_at))]
fn single(words: &[Word]) -> Result<&[Word], ReadError>
    ensures { Gives (λ x. x.now) result (read.single_at words.now) }
{
    match words {
        [Word::Pragma, Word::Name(name), Word::End, rest @ ..] => {
            if is_single(*name) {
                Ok(rest)
            } else {
                Err(ReadError::Fault(Fault::NoSingle(words.len())))
            }
        }
        _ => Err(ReadError::Fault(Fault::NoSingle(words.len()))),
    }
}

/// What one thread does.
#[tactic(auto, unfolding(crate::specs::Regions::alone_at))]
fn alone(alloc: Global, words: &[Word]) -> Result<(Vec<Stmt>, &[Word]), ReadError>
    ensures { Gives (λ x. (body_of (list_of x.0.items), x.1.now)) result (read.alone_at words.now) }
{
    let rest = single(words)?;
    read_body(alloc, rest)
}

/// What one thread does, and no more, in a block or not.
#[tactic(auto, unfolding(crate::specs::Regions::within_at))]
fn within(alloc: Global, words: &[Word]) -> Result<(Vec<Stmt>, &[Word]), ReadError>
    ensures { Gives (λ x. (body_of (list_of x.0.items), x.1.now)) result (read.within_at words.now) }
{
    match words {
        [Word::Mark(Mark::OpenBlock), rest @ ..] => {
            let (body, rest) = alone(alloc, rest)?;
            let rest = behind_mark(Mark::CloseBlock, rest)?;
            Ok((body, rest))
        }
        _ => alone(alloc, words),
    }
}

/// What follows `#pragma omp parallel`.
#[tactic(auto, unfolding(crate::specs::Regions::region_at))]
pub(crate) fn region(
    alloc: Global,
    words: &[Word],
) -> Result<(Vec<Clause>, Vec<Stmt>, &[Word]), ReadError>
    ensures { Gives (λ x. (clauses_of x.0.items, body_of (list_of x.1.items), x.2.now)) result (read.region_at words.now) }
{
    let (clauses, rest) = own_clauses(alloc, Directive::Parallel, words)?;
    let (body, rest) = within(alloc, rest)?;
    Ok((clauses, body, rest))
}
