//! Programs and jobs that tests read from text. No program stands on it.
#![tactic(auto)]

ghost use Rattle.std.specs.Prelude.{◌≡◌, ◌∷◌, [], IfOk};
ghost use Rattle.ot_model.specs.Programs.{array_lengths, expanded_of, IsNamedIn};

use ot_check::{JobSpec, check};
use ot_model::{ArrayShape, Cells, Program, Shape};
use ot_program::{ProgramFault, read_program};
use serde_json::Value;
use std::alloc::{AllocError, Global};
use std::sync::Arc;

/// An array `a` of so many cells, and a limit of task statements.
pub fn one_array(alloc: Global, len: u32, tasks: u32) -> Result<Shape, AllocError>
    ensures { IfOk result (λ shape. array_lengths shape ≡ len ∷ []) }
{
    let name = String::from_str(alloc, "a")?;
    let arrays = vec![in alloc; ArrayShape { name, len }]?;
    Ok(Shape::new(arrays, tasks))
}

/// The word that a program of this text begins with, and the rest of the text: `program2` where the text begins with
/// this word and a space, else `program`.
fn profile(text: &str) -> (&str, &str) {
    match text.split_once("program2 ") {
        Some((before, rest)) if before.is_empty() => ("program2", rest),
        _ => ("program", text),
    }
}

/// Reads a program that begins with this word, of these shows and this body, a comma between them.
fn read_as(alloc: Global, word: &str, text: &str, shape: &Shape) -> Result<Program, ProgramFault>
    ensures { IfOk result (λ program. IsNamedIn (array_lengths shape.now) (expanded_of program)) }
{
    let text = format!(in alloc; "[\"{word}\",{text}]")?;
    match Value::from_str(alloc, text.as_str()) {
        Ok(value) => read_program(alloc, &value, shape),
        Err(_) => Err(ProgramFault::Memory),
    }
}

/// Reads a program of these shows and this body, a comma between them. One of `program2` has this word and a space
/// before it.
pub fn read(alloc: Global, text: &str, shape: &Shape) -> Result<Program, ProgramFault>
    ensures { IfOk result (λ program. IsNamedIn (array_lengths shape.now) (expanded_of program)) }
{
    let (word, text) = profile(text);
    read_as(alloc, word, text, shape)
}

/// The job of a body over an array of at most 65,536 cells. The body of a `program2` has this word and a space before
/// it. What is refused, but for the reader's refusals, is told as want of memory.
pub fn job_over(alloc: Global, array: Vec<u64>, body: &str) -> Result<JobSpec, ProgramFault> {
    if array.len() > 65536 {
        return Err(ProgramFault::Memory);
    }
    let shape = one_array(alloc, array.len() as u32, 1024)?;
    let (word, body) = profile(body);
    let text = format!(in alloc; "[],{body}")?;
    let program = read_as(alloc, word, text.as_str(), &shape)?;
    let Ok(checked) = check(alloc, program, &shape) else {
        return Err(ProgramFault::Memory);
    };
    let checked = Arc::new(alloc, checked)?;
    let before = Arc::new(alloc, Cells::new(vec![in alloc; array]?))?;
    Ok(JobSpec::new(checked, before))
}

/// The job of a body over this number, 2, 3, as by `job_over`.
pub fn job_of(alloc: Global, first: u64, body: &str) -> Result<JobSpec, ProgramFault> {
    let array = vec![in alloc; first, 2, 3]?;
    job_over(alloc, array, body)
}
