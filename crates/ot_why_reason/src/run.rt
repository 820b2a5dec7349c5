//! The program that a request runs.
ghost use Rattle.std.specs.Prelude.{◌≡◌, option_map, IfOk};
ghost use Rattle.serde_json.specs.Data.{array};
ghost use Rattle.serde_json.specs.View.{view, items_view};
ghost use Rattle.ot_model.specs.Programs.{expanded_of};
ghost use Rattle.ot_program.specs.Programs.{program_of};
ghost use Rattle.ot_why_reason.specs.Runs.{run_of, read_or_none};

use ot_model::{Program, Shape};
use ot_program::{ProgramFault, is_word, read_program};
use serde_json::Value;
use std::alloc::{AllocError, Global};

/// The program that a request runs over arrays of this shape, where it runs one that can be read.
pub fn program_in(
    alloc: Global,
    request: &Value,
    shape: &Shape,
) -> Result<Option<Program>, AllocError>
    ensures { IfOk result (λ program. option_map expanded_of program ≡ run_of shape.now (view request.now)) }
{
    match request {
        Value::Array(items) => program_of_items(alloc, items, shape),
        _ => Ok(None),
    }
}

#[tactic(auto, using(crate::proofs::RunLemmas::runs))]
fn program_of_items(
    alloc: Global,
    items: &[Value],
    shape: &Shape,
) -> Result<Option<Program>, AllocError>
    ensures { IfOk result (λ program. option_map expanded_of program ≡ run_of shape.now (array (items_view items.now))) }
{
    if items.len() != 2 {
        return Ok(None);
    }
    match items {
        [tag, text] => {
            if is_word(tag, "run") {
                read(alloc, text, shape)
            } else {
                Ok(None)
            }
        }
        _ => unreachable!(),
    }
}

fn read(alloc: Global, text: &Value, shape: &Shape) -> Result<Option<Program>, AllocError>
    ensures { IfOk result (λ program. option_map expanded_of program ≡ read_or_none (program_of shape.now (view text.now))) }
{
    match read_program(alloc, text, shape) {
        Ok(program) => Ok(Some(program)),
        Err(ProgramFault::Memory) => Err(AllocError),
        Err(ProgramFault::Refused(_)) => Ok(None),
    }
}

/// Whether a request runs a program whose folds have operations.
pub fn has_operations(request: &Value) -> bool {
    let Value::Array(items) = request else {
        return false;
    };
    let Some(Value::Array(program)) = items.get(1) else {
        return false;
    };
    match program.first() {
        Some(word) => is_word(word, "program2"),
        None => false,
    }
}
