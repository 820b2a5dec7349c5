//! The requests of a file as lines.
ghost use Rattle.std.specs.Prelude.{◌≡◌, [], ◌∷◌, IfOk, OnOk};
ghost use Rattle.ot_file_judge.specs.Judging.{is_goodbye, is_long, is_program, begins_program, line_of};

use ot_file_text::{offset_of, one_line};
use std::alloc::{AllocError, Global};

/// How many bytes a line of a session may have.
const LONGEST_LINE: usize = 65_536;

/// The line of a piece of a file without comments. A program stands for the request that runs it.
pub fn line_of(alloc: Global, piece: &[u8]) -> Result<Vec<u8>, AllocError>
    ensures { IfOk result (λ line. line.items ≡ line_of piece.now) }
{
    let text = one_line(alloc, piece)?;
    if !is_program(piece) {
        return Ok(text);
    }
    let mut line = Vec::with_capacity(alloc, text.len())?;
    line.extend_from_slice(b"[\"run\",".as_slice())?;
    line.extend_from_slice(text.as_slice())?;
    line.push(b']')?;
    Ok(line)
}

/// Whether the line is `["bye"]`, byte by byte.
pub fn is_goodbye(line: &[u8]) -> bool
    ensures { result ≡ is_goodbye line.now }
{
    line == b"[\"bye\"]".as_slice()
}

/// Whether the line has more bytes than one of a session may have.
pub fn is_long(line: &[u8]) -> bool
    ensures { result ≡ is_long line.now }
{
    line.len() > LONGEST_LINE
}

/// Whether a piece is an array that begins with the word of a program.
pub(crate) fn is_program(piece: &[u8]) -> bool
    ensures { result ≡ is_program piece.now }
{
    match offset_of(piece, &[0]) {
        Some(offset) => begins_program(&piece[offset..]),
        None => false,
    }
}

/// Whether the first item of an array is the word of a program.
fn begins_program(item: &[u8]) -> bool
    ensures { result ≡ begins_program item.now }
{
    item.starts_with(b"\"program\"".as_slice()) || item.starts_with(b"\"program2\"".as_slice())
}
