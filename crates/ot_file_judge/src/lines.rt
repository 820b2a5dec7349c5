//! The requests of a file, one a line.
ghost use Rattle.std.specs.Prelude.{◌≡◌, ◌++◌, IfOk, OnOk, flat_map};
ghost use Rattle.ot_file_judge.specs.Judging.{lines_of_file, with_end};

use crate::line::line_of;
use ot_file_text::{blanked, next_piece};
use std::alloc::{AllocError, Global};

/// The lines of a file's requests, each with its LF: what `omptaskd solo` reads.
pub fn lines_of(alloc: Global, text: &[u8]) -> Result<Vec<u8>, AllocError>
    ensures { IfOk result (λ lines. lines.items ≡ flat_map with_end (lines_of_file text.now)) }
{
    let blank = blanked(alloc, text)?;
    let mut out = Vec::new(alloc);
    let mut from = 0;
    while let Some(piece) = next_piece(blank.as_slice(), from) {
        let line = line_of(alloc, &blank[piece.start..piece.end])?;
        put_line(&mut out, line.as_slice())?;
        from = piece.end;
    }
    Ok(out)
}

/// A line behind others.
fn put_line(out: &mut Vec<u8>, line: &[u8]) -> Result<(), AllocError>
    ensures { OnOk result (out.new.items ≡ out.old.items ++ with_end line.now) }
{
    out.extend_from_slice(line)?;
    out.push(b'\n')?;
    Ok(())
}
