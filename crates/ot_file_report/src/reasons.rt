//! The reasons of a refusal as notes.
ghost use Rattle.std.specs.Prelude.{◌≡◌, None, IfOk, All};
ghost use Rattle.ot_file_report.specs.NoteView.{stands_of};

use crate::note::Note;
use ot_book::{Book, Code};
use ot_why_reason::{Telling, reasons};
use serde_json::Value;
use std::alloc::{AllocError, Global};

/// The reasons of a refusal, each where the request is refused. No array has changed since.
pub(crate) fn reason_notes(
    alloc: Global,
    book: &Book,
    line: &[u8],
    request: &Option<Value>,
    code: Code,
) -> Result<Vec<Note>, AllocError>
    ensures { IfOk result (λ notes. All (λ stand. stand ≡ None) (stands_of notes.items)) }
{
    let limits = book.limits();
    let shape = book.store().shape(alloc, &limits)?;
    let told = reasons(
        alloc,
        line,
        request,
        shape.arrays(),
        &limits,
        code,
        Telling::File,
    )?;
    let mut notes = Vec::new(alloc);
    for reason in &told {
        notes.push(Note {
            number: None,
            words: String::from_str(alloc, reason.as_str())?,
        })?;
    }
    Ok(notes)
}
