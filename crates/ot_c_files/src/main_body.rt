//! What `main` does.
ghost use Rattle.std.specs.Prelude.{◌≡◌};
ghost use Rattle.ot_c_words.specs.Reading.{Gives};
ghost use Rattle.ot_c_expressions.specs.Signs.{view_of_found as seen};
ghost use Rattle.ot_c_files.specs.Program.{step_of, main_of};
ghost use Rattle.ot_c_files.specs.Main as read;

use crate::declaration::{declaration, declares};
use crate::program::Step;
use crate::region::{parallel_end, region};
use ot_c_statements::{Fault, ReadError, read_statement};
use ot_c_words::{Known, Mark, Name, Word};
use std::alloc::Global;

#[tactic(auto, unfolding(crate::specs::Main::is_return))]
fn is_return(name: Name) -> bool
    ensures { result ≡ read.is_return name }
{
    matches!(name, Name::Known(Known::Return))
}

/// Behind the end of `main`, and `return 0;` where that stands before it.
#[tactic(auto, unfolding(crate::specs::Main::main_end))]
fn main_end(words: &[Word]) -> Option<&[Word]>
    ensures { seen (λ x. x.now) result ≡ read.main_end words.now }
{
    match words {
        [Word::Mark(Mark::CloseBlock), rest @ ..] => Some(rest),
        [
            Word::Name(name),
            Word::Number(number, _),
            Word::Mark(Mark::Semicolon),
            Word::Mark(Mark::CloseBlock),
            rest @ ..,
        ] => {
            if is_return(*name) && *number == 0 {
                Some(rest)
            } else {
                None
            }
        }
        _ => None,
    }
}

/// A statement, or a declaration.
#[tactic(auto, unfolding(crate::specs::Main::plain_at))]
fn plain(alloc: Global, words: &[Word]) -> Result<(Step, &[Word]), ReadError>
    ensures { Gives (λ x. (step_of x.0, x.1.now)) result (read.plain_at words.now) }
{
    if declares(words) {
        let (declaration, rest) = declaration(alloc, words)?;
        Ok((Step::Declares(declaration), rest))
    } else {
        let (stmt, rest) = read_statement(alloc, words)?;
        Ok((Step::Does(stmt), rest))
    }
}

/// What `main` does next.
#[tactic(auto, unfolding(crate::specs::Main::act_at))]
fn act(alloc: Global, words: &[Word]) -> Result<(Step, &[Word]), ReadError>
    ensures { Gives (λ x. (step_of x.0, x.1.now)) result (read.act_at words.now) }
{
    match parallel_end(words) {
        Some(rest) => {
            let (clauses, body, rest) = region(alloc, rest)?;
            Ok((Step::Region(words.len(), clauses, body), rest))
        }
        None => plain(alloc, words),
    }
}

fn is_region(step: &Step) -> bool
    ensures { result ≡ read.is_region (step_of step.now) }
{
    matches!(step, Step::Region(_, _, _))
}

/// Whether there is a parallel region.
pub(crate) fn has_region(steps: &[Step]) -> bool
    ensures { result ≡ read.has_region (main_of steps.now) }
{
    for step in steps {
        if is_region(step) {
            return true;
        }
    }
    false
}

/// What `main` does behind what was found, or its end.
#[tactic(auto, unfolding(crate::specs::Main::main_step))]
fn main_step(
    alloc: Global,
    mut found: Vec<Step>,
    words: &[Word],
) -> Result<(Vec<Step>, bool, &[Word]), ReadError>
    ensures { Gives (λ x. (main_of x.0.items, x.1, x.2.now)) result (read.main_step (main_of found.items) words.now) }
{
    if let Some(rest) = main_end(words) {
        return Ok((found, false, rest));
    }
    let (step, rest) = act(alloc, words)?;
    found.push(step)?;
    Ok((found, true, rest))
}

/// What `main` does, up to its end.
pub(crate) fn main_body(alloc: Global, words: &[Word]) -> Result<(Vec<Step>, &[Word]), ReadError>
    ensures { Gives (λ x. (main_of x.0.items, x.1.now)) result (read.main_at words.now) }
{
    let mut found = Vec::new(alloc);
    let mut rest = words;
    for _turn in 0..words.len() {
        let (put, more, behind) = main_step(alloc, found, rest)?;
        if !more {
            return Ok((put, behind));
        }
        found = put;
        rest = behind;
    }
    Err(ReadError::Fault(Fault::TooLong(rest.len())))
}
