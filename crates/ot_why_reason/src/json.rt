//! Lines that are no JSON.
ghost use Rattle.std.specs.Prelude.{vec_len, ◌<◌, IfOk};

use crate::place::Telling;
use serde_json::Value;
use std::alloc::{AllocError, Global};
use std::str::from_utf8;

/// Where the line is no JSON, and what the JSON reader says of it. Columns count bytes, from 1.
pub(crate) fn no_json(
    alloc: Global,
    line: &[u8],
    telling: Telling,
) -> Result<Vec<String>, AllocError>
    ensures { IfOk result (λ reasons. 0 < vec_len reasons) }
{
    let mut reasons = Vec::new(alloc);
    reasons.push(not_json(alloc, line, telling)?)?;
    Ok(reasons)
}

fn not_json(alloc: Global, line: &[u8], telling: Telling) -> Result<String, AllocError> {
    if line.trim_ascii().is_empty() {
        return String::from_str(alloc, "the line is empty");
    }
    match (from_utf8(line), telling) {
        (Ok(text), _) => not_read(alloc, text, telling),
        (Err(_), Telling::File) => String::from_str(alloc, "no UTF-8"),
        (Err(error), Telling::Line) => {
            let column = error.valid_up_to().saturating_add(1);
            format!(in alloc; "line 1, column {column}: no UTF-8")
        }
    }
}

/// What the JSON reader says of a text. In a file the place is told beside it.
fn not_read(alloc: Global, text: &str, telling: Telling) -> Result<String, AllocError> {
    let said = match Value::from_str(alloc, text) {
        Ok(_) => return String::from_str(alloc, "invalid JSON"),
        Err(error) if error.is_memory() => return Err(AllocError),
        Err(error) => format!(in alloc; "{error}")?,
    };
    match (telling, said.as_str().split_once(" at line ")) {
        (Telling::File, Some((what, _))) => String::from_str(alloc, what),
        _ => Ok(said),
    }
}
