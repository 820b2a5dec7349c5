//! The contexts in which an event stands.
ghost use Rattle.std.specs.Prelude.{◌≡◌, IfOk};
ghost use Rattle.ot_exec_machine.specs.Telling.{context_at, around};

use ot_exec_state::Context;
use std::alloc::{AllocError, Global};

/// The calls and turns of loops in which a context stands, itself first, so many at most.
pub fn contexts_of(
    alloc: Global,
    contexts: &[Context],
    context: u32,
    most: u32,
) -> Result<Vec<Context>, AllocError>
    ensures { IfOk result (λ found. found.items ≡ around contexts.now most context) }
{
    let mut found = Vec::new(alloc);
    let mut number = context;
    for _ in 0..most {
        match context_at(contexts, number) {
            Some(it) => {
                found.push(it)?;
                number = it.outer;
            }
            None => return Ok(found),
        }
    }
    Ok(found)
}

fn context_at(contexts: &[Context], number: u32) -> Option<Context>
    ensures { result ≡ context_at contexts.now number }
{
    if number == 0 {
        None
    } else {
        contexts.get(number as usize).copied()
    }
}
