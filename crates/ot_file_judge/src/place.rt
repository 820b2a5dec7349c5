//! Where in a piece its request is refused.
ghost use Rattle.std.specs.Prelude.{◌≡◌, ◌≤◌, ℕ, Some, length, IfOk, unwrap_or, option_map};
ghost use Rattle.ot_book.specs.Answers as replies;
ghost use Rattle.ot_book.specs.Books.{last_told};
ghost use Rattle.serde_json.specs.Data.{Data, array};
ghost use Rattle.serde_json.specs.View.{view, items_view};
ghost use Rattle.ot_store.specs.Arrays.{shape_in};
ghost use Rattle.ot_why_fault.specs.Whys.{shape_of};
ghost use Rattle.ot_file_judge.specs.Judging.{path_in_piece, statement_offset, fault_offset, runs_program};

use crate::line::is_program;
use crate::told::told_last;
use ot_book::{Book, Told};
use ot_file_text::offset_of;
use ot_model::ArrayShape;
use ot_program::is_word;
use ot_why_fault::first_fault;
use ot_why_place::{Place, entry_of, place_of};
use serde_json::Value;
use std::alloc::{AllocError, Global};

/// How many bytes stand before a program in the line that runs it.
const BEFORE_PROGRAM: usize = 7;

/// How many bytes of a piece stand before the place at which its request, the last one of the book, is refused. The value of its
/// line is given, where that is JSON.
pub(crate) fn place_in(
    alloc: Global,
    book: &Book,
    request: &Option<Value>,
    piece: &[u8],
) -> Result<usize, AllocError>
    ensures within { IfOk result (λ place. place ≤ length piece.now) }
    ensures statement { IfOk result (λ place. (code number : ℕ) → last_told book.now ≡ Some (replies.Offends code number)
        → place ≡ unwrap_or (statement_offset (option_map view request.now) piece.now number) 0) }
    ensures fault { IfOk result (λ place. (code : ℕ) (d : Data) → last_told book.now ≡ Some (replies.Refused code) → option_map view request.now ≡ Some d
        → place ≡ unwrap_or (fault_offset (shape_in book.now.limits book.now.store) piece.now d) 0) }
{
    match told_last(book) {
        Some(Told::Offends(_, number)) => statement_in(alloc, request, piece, *number),
        Some(Told::Refused(_)) => refused_in(alloc, book, request, piece),
        _ => Ok(0),
    }
}

/// How many bytes of a piece stand before the place at which its request is refused that has no offence: where it is no JSON, or
/// where the program that it runs has a fault.
fn refused_in(
    alloc: Global,
    book: &Book,
    request: &Option<Value>,
    piece: &[u8],
) -> Result<usize, AllocError>
    ensures within { IfOk result (λ place. place ≤ length piece.now) }
    ensures fault { IfOk result (λ place. (d : Data) → option_map view request.now ≡ Some d
        → place ≡ unwrap_or (fault_offset (shape_in book.now.limits book.now.store) piece.now d) 0) }
{
    match request {
        Some(request) => fault_in(alloc, book, request, piece),
        None => not_json_in(alloc, piece),
    }
}

/// How many bytes of a piece stand before the statement of its request that has this number in replies.
pub(crate) fn statement_in(
    alloc: Global,
    request: &Option<Value>,
    piece: &[u8],
    number: u32,
) -> Result<usize, AllocError>
    ensures offset { IfOk result (λ offset. offset ≡ unwrap_or (statement_offset (option_map view request.now) piece.now number) 0) }
    ensures within { IfOk result (λ offset. offset ≤ length piece.now) }
{
    let Some(request) = request else {
        return Ok(0);
    };
    match place_of(alloc, request, number)? {
        Some(place) => Ok(offset_in(piece, &place)),
        None => Ok(0),
    }
}

/// How many bytes of a piece stand before a place in its line.
fn offset_in(piece: &[u8], place: &Place<'_>) -> usize
    ensures offset { result ≡ unwrap_or (offset_of piece.now (path_in_piece (is_program piece.now) place.now.path.items)) 0 }
    ensures within { result ≤ length piece.now }
{
    match offset_of(piece, path_in(is_program(piece), place.path.as_slice())) {
        Some(offset) => offset,
        None => 0,
    }
}

ghost use Rattle.ot_file_text.specs.Items.{offset_of};
ghost use Rattle.ot_file_judge.specs.Judging.{is_program};

/// The path in a piece to what a path in its line leads to.
fn path_in(is_program: bool, path: &[usize]) -> &[usize]
    ensures { result.now ≡ path_in_piece is_program path.now }
{
    match path {
        [_, rest @ ..] if is_program => rest,
        _ => path,
    }
}

/// How many bytes of a piece that is no JSON stand before the place at which it goes wrong.
fn not_json_in(alloc: Global, piece: &[u8]) -> Result<usize, AllocError>
    ensures { IfOk result (λ place. place ≤ length piece.now) }
{
    let line = flat_line(alloc, piece)?;
    let before = if is_program(piece) { BEFORE_PROGRAM } else { 0 };
    match Value::from_slice(alloc, line.as_slice()) {
        Ok(_) => Ok(0),
        Err(error) if error.is_memory() => Err(AllocError),
        Err(error) => {
            let in_line = error.column().saturating_sub(1);
            Ok(in_line.saturating_sub(before).min(piece.len()))
        }
    }
}

/// The line of a piece with all its white space, so that each byte stands as far from the piece's first as it does in the file.
/// A tab stands for an LF: it is white space too, and not allowed in a string either.
fn flat_line(alloc: Global, piece: &[u8]) -> Result<Vec<u8>, AllocError> {
    let mut line = Vec::new(alloc);
    if is_program(piece) {
        line.extend_from_slice(b"[\"run\",".as_slice())?;
    }
    for byte in piece {
        line.push(if *byte == b'\n' { b'\t' } else { *byte })?;
    }
    if is_program(piece) {
        line.push(b']')?;
    }
    Ok(line)
}

/// How many bytes of a piece stand before the first statement of its program that has a fault, over the arrays of a book.
fn fault_in(alloc: Global, book: &Book, request: &Value, piece: &[u8]) -> Result<usize, AllocError>
    ensures offset { IfOk result (λ place. place ≡ unwrap_or (fault_offset (shape_in book.now.limits book.now.store) piece.now (view request.now)) 0) }
    ensures within { IfOk result (λ place. place ≤ length piece.now) }
{
    let limits = book.limits();
    let shape = book.store().shape(alloc, &limits)?;
    fault_over(alloc, shape.arrays(), limits.tasks, request, piece)
}

/// The same over these arrays, and with at most so many task statements.
fn fault_over(
    alloc: Global,
    arrays: &[ArrayShape],
    tasks: u32,
    request: &Value,
    piece: &[u8],
) -> Result<usize, AllocError>
    ensures offset { IfOk result (λ place. place ≡ unwrap_or (fault_offset (shape_of arrays.now tasks) piece.now (view request.now)) 0) }
    ensures within { IfOk result (λ place. place ≤ length piece.now) }
{
    if !runs_program(request) {
        return Ok(0);
    }
    let Some(found) = first_fault(alloc, request, arrays, tasks)? else {
        return Ok(0);
    };
    match entry_of(alloc, request, found.index)? {
        Some(place) => Ok(offset_in(piece, &place)),
        None => Ok(0),
    }
}

/// Whether a request runs a program.
fn runs_program(request: &Value) -> bool
    ensures { result ≡ runs_program (view request.now) }
{
    match request {
        Value::Array(items) => is_run(items),
        _ => false,
    }
}

/// Whether these are the word of a request that runs a program, and one item more.
#[tactic(auto, using(crate::proofs::RunLemmas::runs))]
fn is_run(items: &[Value]) -> bool
    ensures { result ≡ runs_program (array (items_view items.now)) }
{
    if items.len() != 2 {
        return false;
    }
    match items {
        [word, _] => is_word(word, "run"),
        _ => unreachable!(),
    }
}
