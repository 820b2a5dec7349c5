//! Declarations of arrays and variables.
ghost use Rattle.std.specs.Prelude.{◌≡◌};
ghost use Rattle.ot_c_words.specs.Reading.{Gives};
ghost use Rattle.ot_c_expressions.specs.Signs.{view_of_found as seen};
ghost use Rattle.ot_c_statements.specs.Tree.{index_of};
ghost use Rattle.ot_c_files.specs.Program.{initial_of, variable_of, variables_of, declaration_of};
ghost use Rattle.ot_c_files.specs.Declarations as read;

use crate::program::{Declaration, Initial, Variable};
use ot_c_statements::marks::{another, behind_mark, name};
use ot_c_statements::{Fault, ReadError, integer_type, read_index, type_word, value, values};
use ot_c_words::{Known, Mark, Name, Word};
use std::alloc::Global;

#[tactic(auto, unfolding(crate::specs::Declarations::is_static))]
fn is_static(name: Name) -> bool
    ensures { result ≡ read.is_static name }
{
    matches!(name, Name::Known(Known::Static))
}

/// Behind `static`.
#[tactic(auto, unfolding(crate::specs::Declarations::static_end))]
pub(crate) fn static_end(words: &[Word]) -> Option<&[Word]>
    ensures { seen (λ x. x.now) result ≡ read.static_end words.now }
{
    match words {
        [Word::Name(name), rest @ ..] => { if is_static(*name) { Some(rest) } else { None } }
        _ => None,
    }
}

/// Whether `static` stands here, and what is behind it.
fn storage(words: &[Word]) -> (bool, &[Word])
    ensures { (result.0, result.1.now) ≡ read.storage words.now (read.static_end words.now) }
{
    match static_end(words) {
        Some(rest) => (true, rest),
        None => (false, words),
    }
}

/// Whether a declaration begins with this word.
#[tactic(auto, unfolding(crate::specs::Declarations::begins))]
fn begins(name: Name) -> bool
    ensures { result ≡ read.begins name }
{
    is_static(name) || type_word(name).is_some()
}

/// Whether a declaration begins here.
#[tactic(auto, unfolding(crate::specs::Declarations::declares))]
pub(crate) fn declares(words: &[Word]) -> bool
    ensures { result ≡ read.declares words.now }
{
    match words {
        [Word::Name(name), ..] => begins(*name),
        _ => false,
    }
}

/// Behind `=`: a value, or some in braces.
#[tactic(auto, unfolding(crate::specs::Declarations::initial_value))]
fn initial_value(alloc: Global, words: &[Word]) -> Result<(Initial, &[Word]), ReadError>
    ensures { Gives (λ x. (initial_of x.0, x.1.now)) result (read.initial_value words.now) }
{
    match words {
        [Word::Mark(Mark::OpenBlock), rest @ ..] => {
            let (values, rest) = values(alloc, rest)?;
            let rest = behind_mark(Mark::CloseBlock, rest)?;
            Ok((Initial::Values(values), rest))
        }
        _ => {
            let (value, rest) = value(alloc, words)?;
            Ok((Initial::Value(value), rest))
        }
    }
}

/// `= 1`, `= {1, 2}` or nothing.
#[tactic(auto, unfolding(crate::specs::Declarations::initial_at))]
fn initial(alloc: Global, words: &[Word]) -> Result<(Initial, &[Word]), ReadError>
    ensures { Gives (λ x. (initial_of x.0, x.1.now)) result (read.initial_at words.now) }
{
    match words {
        [Word::Mark(Mark::Assign), rest @ ..] => initial_value(alloc, rest),
        _ => Ok((Initial::Nothing, words)),
    }
}

#[tactic(auto, unfolding(crate::specs::Declarations::variable_at))]
fn variable(alloc: Global, words: &[Word]) -> Result<(Variable, &[Word]), ReadError>
    ensures { Gives (λ x. (variable_of x.0, x.1.now)) result (read.variable_at words.now) }
{
    let left = words.len();
    let (name, rest) = name(words)?;
    let (length, rest) = read_index(alloc, rest)?;
    let (initial, rest) = initial(alloc, rest)?;
    let variable = Variable {
        left,
        name,
        length,
        initial,
    };
    Ok((variable, rest))
}

/// A variable behind those that were found, and whether another follows.
#[tactic(auto, unfolding(crate::specs::Declarations::variables_step))]
fn variables_step(
    alloc: Global,
    mut found: Vec<Variable>,
    words: &[Word],
) -> Result<(Vec<Variable>, bool, &[Word]), ReadError>
    ensures { Gives (λ x. (variables_of x.0.items, x.1, x.2.now)) result (read.variables_step (variables_of found.items) words.now) }
{
    let (variable, rest) = variable(alloc, words)?;
    let (more, rest) = another(rest);
    found.push(variable)?;
    Ok((found, more, rest))
}

/// Variables with commas between them.
fn variables(alloc: Global, words: &[Word]) -> Result<(Vec<Variable>, &[Word]), ReadError>
    ensures { Gives (λ x. (variables_of x.0.items, x.1.now)) result (read.variables_at words.now) }
{
    let mut found = Vec::new(alloc);
    let mut rest = words;
    for _turn in 0..words.len() {
        let (put, more, behind) = variables_step(alloc, found, rest)?;
        if !more {
            return Ok((put, behind));
        }
        found = put;
        rest = behind;
    }
    Err(ReadError::Fault(Fault::TooLong(rest.len())))
}

/// `static uint64_t a[3] = {1, 2}, b;`
#[tactic(auto, unfolding(crate::specs::Declarations::declaration_at))]
pub(crate) fn declaration(
    alloc: Global,
    words: &[Word],
) -> Result<(Declaration, &[Word]), ReadError>
    ensures { Gives (λ x. (declaration_of x.0, x.1.now)) result (read.declaration_at words.now) }
{
    let (stays, rest) = storage(words);
    let (kind, rest) = integer_type(rest)?;
    let (variables, rest) = variables(alloc, rest)?;
    let rest = behind_mark(Mark::Semicolon, rest)?;
    let declaration = Declaration {
        stays,
        kind,
        variables,
    };
    Ok((declaration, rest))
}
