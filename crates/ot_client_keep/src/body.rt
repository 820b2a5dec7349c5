//! The session that makes arrays again.
ghost use Rattle.std.specs.Prelude.{◌≡◌, ◌++◌, [], ◌+◌, List, ℕ, map, IfOk};
ghost use Rattle.ot_client_keep.specs.Arrays.{named_by};
ghost use Rattle.ot_client_keep.specs.Files.{Makes, MakesOne, new_line, put_line};

use crate::array::Array;
use crate::piece::{first_filled, piece_end};
use json::Writer;
use ot_book::write_numbers;
use std::alloc::{AllocError, Global};

/// The lines that make the arrays, without a goodbye.
pub(crate) fn session_text(alloc: Global, arrays: &[Array]) -> Result<Vec<u8>, AllocError>
    ensures { IfOk result (λ text. Makes (map named_by arrays.now) text.items) }
{
    let mut text = Vec::new(alloc);
    for array in arrays {
        text = with_array(text, array.name.as_str(), array.cells.as_slice())?;
    }
    Ok(text)
}

/// The text, and then the lines that make one array.
fn with_array(text: Vec<u8>, name: &str, cells: &[u64]) -> Result<Vec<u8>, AllocError>
    ensures { IfOk result (λ more. (lines : List ℕ) × MakesOne (name.now, cells.now) lines × (more.items ≡ text.items ++ lines)) }
{
    let mut text = with_new(text, name, cells.len())?;
    let mut at = first_filled(cells, 0);
    while at < cells.len() {
        let end = piece_end(cells, at);
        let numbers = &cells[at..end];
        text = with_put(text, name, at, numbers)?;
        at = first_filled(cells, end);
    }
    Ok(text)
}

/// The text, and then a line that makes an array of zeros.
fn with_new(text: Vec<u8>, name: &str, len: usize) -> Result<Vec<u8>, AllocError>
    ensures { IfOk result (λ more. more.items ≡ text.items ++ new_line name.now len) }
{
    let mut out = Writer::new(text);
    out.begin_array()?;
    out.string("new")?;
    out.string(name)?;
    out.u64(len as u64)?;
    out.end_array()?;
    let mut more = out.into_inner();
    more.push(b'\n')?;
    Ok(more)
}

/// The text, and then a line that writes numbers from a cell on.
fn with_put(text: Vec<u8>, name: &str, start: usize, numbers: &[u64]) -> Result<Vec<u8>, AllocError>
    ensures { IfOk result (λ more. more.items ≡ text.items ++ put_line name.now (record { start = start; numbers = numbers.now })) }
{
    let mut out = Writer::new(text);
    out.begin_array()?;
    out.string("put")?;
    out.string(name)?;
    out.u64(start as u64)?;
    write_numbers(numbers, &mut out)?;
    out.end_array()?;
    let mut more = out.into_inner();
    more.push(b'\n')?;
    Ok(more)
}
