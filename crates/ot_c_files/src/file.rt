//! A file whole.
ghost use Rattle.std.specs.Prelude.{◌≡◌};
ghost use Rattle.ot_c_words.specs.Reading.{Gives};
ghost use Rattle.ot_c_expressions.specs.Tree.{expr_of};
ghost use Rattle.ot_c_expressions.specs.Signs.{view_of_found as seen};
ghost use Rattle.ot_c_files.specs.Program.{top_of, tops_of, file_of};
ghost use Rattle.ot_c_files.specs.Files as read;

use crate::declaration::{declaration, static_end};
use crate::known::{known_begin, known_end};
use crate::main_body::{has_region, main_body};
use crate::program::{File, Top};
use ot_c_expressions::Expr;
use ot_c_statements::marks::{behind_mark, directive_end, name};
use ot_c_statements::{Fault, ReadError, read_block, value};
use ot_c_words::{Known, Mark, Name, Word};
use std::alloc::Global;

/// Behind `#define` and a name.
#[tactic(auto, unfolding(crate::specs::Files::constant_value))]
fn constant_value(alloc: Global, words: &[Word]) -> Result<(Expr, &[Word]), ReadError>
    ensures { Gives (λ x. (expr_of x.0, x.1.now)) result (read.constant_value words.now) }
{
    match words {
        [Word::Number(number, kind), Word::End, rest @ ..] => {
            Ok((Expr::Number(words.len(), *number, *kind), rest))
        }
        [Word::Name(name), Word::End, rest @ ..] => Ok((Expr::Variable(words.len(), *name), rest)),
        [Word::Mark(Mark::Open), rest @ ..] => {
            let (value, rest) = value(alloc, rest)?;
            let rest = behind_mark(Mark::Close, rest)?;
            let rest = directive_end(rest)?;
            Ok((value, rest))
        }
        _ => Err(ReadError::Fault(Fault::NoConstant(words.len()))),
    }
}

/// Behind `#define`: a name that means nothing by itself.
#[tactic(auto, unfolding(crate::specs::Files::constant_name))]
fn constant_name(words: &[Word]) -> Result<(usize, &[Word]), ReadError>
    ensures { Gives (λ x. (x.0, x.1.now)) result (read.constant_name words.now) }
{
    match words {
        [Word::Name(Name::Other(number)), rest @ ..] => Ok((*number, rest)),
        _ => Err(ReadError::Fault(Fault::NoConstant(words.len()))),
    }
}

/// What follows `#define`.
#[tactic(auto, unfolding(crate::specs::Files::constant_at))]
fn constant(alloc: Global, words: &[Word]) -> Result<(Top, &[Word]), ReadError>
    ensures { Gives (λ x. (top_of x.0, x.1.now)) result (read.constant_at words.now) }
{
    let (name, rest) = constant_name(words)?;
    let (value, rest) = constant_value(alloc, rest)?;
    Ok((Top::Constant(words.len(), name, value), rest))
}

#[tactic(auto, unfolding(crate::specs::Files::is_void))]
fn is_void(name: Name) -> bool
    ensures { result ≡ read.is_void name }
{
    matches!(name, Name::Known(Known::Void))
}

/// Behind `void`.
#[tactic(auto, unfolding(crate::specs::Files::void_end))]
fn void_end(words: &[Word]) -> Option<&[Word]>
    ensures { seen (λ x. x.now) result ≡ read.void_end words.now }
{
    match words {
        [Word::Name(name), rest @ ..] => { if is_void(*name) { Some(rest) } else { None } }
        _ => None,
    }
}

/// Behind `void` or `static void`.
#[tactic(auto, unfolding(crate::specs::Files::function_end))]
fn function_end(words: &[Word]) -> Option<&[Word]>
    ensures { seen (λ x. x.now) result ≡ read.function_end words.now }
{
    match static_end(words) {
        Some(rest) => void_end(rest),
        None => void_end(words),
    }
}

/// `(void)` or `()`.
#[tactic(auto, unfolding(crate::specs::Files::parameters_at))]
fn parameters(words: &[Word]) -> Result<&[Word], ReadError>
    ensures { Gives (λ x. x.now) result (read.parameters_at words.now) }
{
    let rest = behind_mark(Mark::Open, words)?;
    match void_end(rest) {
        Some(behind) => behind_mark(Mark::Close, behind),
        None => behind_mark(Mark::Close, rest),
    }
}

/// Behind `void`.
#[tactic(auto, unfolding(crate::specs::Files::function_at))]
fn function(alloc: Global, words: &[Word]) -> Result<(Top, &[Word]), ReadError>
    ensures { Gives (λ x. (top_of x.0, x.1.now)) result (read.function_at words.now) }
{
    let (name, rest) = name(words)?;
    let rest = parameters(rest)?;
    let rest = behind_mark(Mark::OpenBlock, rest)?;
    let (body, rest) = read_block(alloc, rest)?;
    Ok((Top::Function(words.len(), name, body), rest))
}

/// A function or a declaration.
#[tactic(auto, unfolding(crate::specs::Files::global_at))]
fn global(alloc: Global, words: &[Word]) -> Result<(Top, &[Word]), ReadError>
    ensures { Gives (λ x. (top_of x.0, x.1.now)) result (read.global_at words.now) }
{
    match function_end(words) {
        Some(rest) => function(alloc, rest),
        None => {
            let (declaration, rest) = declaration(alloc, words)?;
            Ok((Top::Declares(declaration), rest))
        }
    }
}

#[tactic(auto, unfolding(crate::specs::Files::top_at))]
fn top(alloc: Global, words: &[Word]) -> Result<(Top, &[Word]), ReadError>
    ensures { Gives (λ x. (top_of x.0, x.1.now)) result (read.top_at words.now) }
{
    match words {
        [Word::Define, rest @ ..] => constant(alloc, rest),
        _ => global(alloc, words),
    }
}

#[tactic(auto, unfolding(crate::specs::Files::is_int))]
fn is_int(name: Name) -> bool
    ensures { result ≡ read.is_int name }
{
    matches!(name, Name::Known(Known::Int))
}

#[tactic(auto, unfolding(crate::specs::Files::is_main))]
fn is_main(name: Name) -> bool
    ensures { result ≡ read.is_main name }
{
    matches!(name, Name::Known(Known::Main))
}

/// Behind `int main`.
#[tactic(auto, unfolding(crate::specs::Files::main_begin))]
fn main_begin(words: &[Word]) -> Option<&[Word]>
    ensures { seen (λ x. x.now) result ≡ read.main_begin words.now }
{
    match words {
        [Word::Name(one), Word::Name(two), rest @ ..] => {
            if is_int(*one) && is_main(*two) {
                Some(rest)
            } else {
                None
            }
        }
        _ => None,
    }
}

/// Behind `#include`.
#[tactic(auto, unfolding(crate::specs::Files::include_end))]
fn include_end(words: &[Word]) -> Option<&[Word]>
    ensures { seen (λ x. x.now) result ≡ read.include_end words.now }
{
    match words {
        [Word::Include, Word::End, rest @ ..] => Some(rest),
        _ => None,
    }
}

/// What stands next before `main`, behind what was found; `#include` and functions that are known say nothing.
#[tactic(auto, unfolding(crate::specs::Files::next_top))]
fn next_top(
    alloc: Global,
    mut found: Vec<Top>,
    words: &[Word],
) -> Result<(Vec<Top>, bool, &[Word]), ReadError>
    ensures { Gives (λ x. (tops_of x.0.items, x.1, x.2.now)) result (read.next_top (tops_of found.items) words.now) }
{
    if let Some(rest) = include_end(words) {
        return Ok((found, true, rest));
    }
    if let Some((function, rest)) = known_begin(words) {
        let rest = known_end(function, rest)?;
        return Ok((found, true, rest));
    }
    let (top, rest) = top(alloc, words)?;
    found.push(top)?;
    Ok((found, true, rest))
}

/// What stands next before `main`, or `main`.
#[tactic(auto, unfolding(crate::specs::Files::tops_step))]
fn tops_step(
    alloc: Global,
    found: Vec<Top>,
    words: &[Word],
) -> Result<(Vec<Top>, bool, &[Word]), ReadError>
    ensures { Gives (λ x. (tops_of x.0.items, x.1, x.2.now)) result (read.tops_step (tops_of found.items) words.now) }
{
    match main_begin(words) {
        Some(rest) => Ok((found, false, rest)),
        None => next_top(alloc, found, words),
    }
}

/// What stands before `main`, up to its brackets.
fn tops(alloc: Global, words: &[Word]) -> Result<(Vec<Top>, &[Word]), ReadError>
    ensures { Gives (λ x. (tops_of x.0.items, x.1.now)) result (read.tops_at words.now) }
{
    let mut found = Vec::new(alloc);
    let mut rest = words;
    for _turn in 0..words.len() {
        let (put, more, behind) = tops_step(alloc, found, rest)?;
        if !more {
            return Ok((put, behind));
        }
        found = put;
        rest = behind;
    }
    Err(ReadError::Fault(Fault::TooLong(rest.len())))
}

/// Nothing, and no more.
#[tactic(auto, unfolding(crate::specs::Files::none_left))]
fn none_left(words: &[Word]) -> Result<&[Word], ReadError>
    ensures { Gives (λ x. x.now) result (read.none_left words.now) }
{
    match words {
        [] => Ok(words),
        _ => Err(ReadError::Fault(Fault::More(words.len()))),
    }
}

/// The file that words say.
#[tactic(auto, unfolding(crate::specs::Files::file_at))]
pub fn read_file(alloc: Global, words: &[Word]) -> Result<File, ReadError>
    ensures { Gives file_of result (read.file_at words.now) }
{
    let (tops, rest) = tops(alloc, words)?;
    let rest = parameters(rest)?;
    let rest = behind_mark(Mark::OpenBlock, rest)?;
    let (main, rest) = main_body(alloc, rest)?;
    let rest = none_left(rest)?;
    if has_region(&main) {
        Ok(File { tops, main })
    } else {
        Err(ReadError::Fault(Fault::NoRegion(rest.len())))
    }
}
