//! What is said of a refusal, line by line.
ghost use Rattle.std.specs.Prelude.{◌≡◌, ℕ, List, IfOk, MatchOption, None, Some, string_bytes};
ghost use Rattle.ot_book.specs.Codes.{code_number};
ghost use Rattle.ot_check.specs.Offences.{code_of};
ghost use Rattle.ot_why_explain.specs.Explaining.{last_code, with_code};
ghost use Rattle.ot_why_reason.specs.Places.{texts_of};
ghost use Rattle.ot_why_explain.specs.Remarks.{AreReasons, SaysWhy, behind_ends};

use ot_book::{Book, Code, Entry, Told, read_line};
use ot_check::Offence;
use ot_why_blame::{Blame, Blamed, find_blame};
use ot_why_reason::{Telling, has_operations, place_in, program_in, reasons, sentence_of};
use serde_json::Value;
use std::alloc::{AllocError, Global};

/// What is said of the last request of a book, where it was refused: lines with an LF between them, of which the first
/// begins with the code.
pub(crate) fn remarks_on_last(alloc: Global, book: &Book) -> Result<Option<String>, AllocError>
    ensures { IfOk result (λ remarks. MatchOption remarks (last_code book.now ≡ None)
        (λ text. (code : ℕ) × (last_code book.now ≡ Some code) × (first : List ℕ) × (string_bytes text ≡ with_code code first))) }
{
    let Some(entry) = book.log().last() else {
        return Ok(None);
    };
    match &entry.told {
        Told::Refused(code) => Ok(Some(refused(alloc, book, entry, *code)?)),
        Told::Offends(offence, place) => {
            Ok(Some(offends(alloc, book, entry, *offence, *place)?))
        }
        Told::Lost => Ok(Some(sentence(alloc, 508)?)),
        _ => Ok(None),
    }
}

/// `427: ` and the code's sentence.
pub(crate) fn sentence(alloc: Global, code: u32) -> Result<String, AllocError>
    ensures { IfOk result (λ text. (first : List ℕ) × (string_bytes text ≡ with_code code first)) }
{
    let sentence = sentence_of(code);
    format!(in alloc; "{code}: {sentence}")
}

/// The sentence, and what more can be said of a refusal without a place.
fn refused(alloc: Global, book: &Book, entry: &Entry, code: Code) -> Result<String, AllocError>
    ensures { IfOk result (λ text. (first : List ℕ) × (string_bytes text ≡ with_code (code_number code) first)) }
{
    let mut said = sentence(alloc, code.number())?;
    let more = behind(alloc, book, entry, code)?;
    said.push_str(more.as_str())?;
    Ok(said)
}

/// The reasons of the refusal, each behind an LF.
fn behind(alloc: Global, book: &Book, entry: &Entry, code: Code) -> Result<String, AllocError>
    ensures { IfOk result (λ text. SaysWhy book.now entry.now.line.items code (string_bytes text)) }
{
    let told = reasons_of(alloc, book, entry.line.as_slice(), code)?;
    behind_ends(alloc, told.as_slice())
}

/// The reasons of the refusal. No array has changed since.
fn reasons_of(
    alloc: Global,
    book: &Book,
    line: &[u8],
    code: Code,
) -> Result<Vec<String>, AllocError>
    ensures { IfOk result (λ told. AreReasons book.now line.now code (texts_of told.items)) }
{
    let limits = book.limits();
    let shape = book.store().shape(alloc, &limits)?;
    let request = read_line(alloc, line)?;
    reasons(
        alloc,
        line,
        &request,
        shape.arrays(),
        &limits,
        code,
        Telling::Line,
    )
}

/// Lines, each behind an LF.
fn behind_ends(alloc: Global, lines: &[String]) -> Result<String, AllocError>
    ensures { IfOk result (λ text. string_bytes text ≡ behind_ends (texts_of lines.now)) }
{
    let mut said = String::new(alloc);
    for line in lines {
        said.push_str("\n")?;
        said.push_str(line.as_str())?;
    }
    Ok(said)
}

/// The sentence, the statement at the place, and what it offends against.
fn offends(
    alloc: Global,
    book: &Book,
    entry: &Entry,
    offence: Offence,
    place: u32,
) -> Result<String, AllocError>
    ensures { IfOk result (λ text. (first : List ℕ) × (string_bytes text ≡ with_code (code_of offence) first)) }
{
    let mut said = sentence(alloc, offence.code())?;
    let blamed = blamed(alloc, book, entry.line.as_slice(), offence, place)?;
    said.push_str(blamed.as_str())?;
    Ok(said)
}

/// The statement at the place, and what it offends against, each behind an LF. No array has changed since.
fn blamed(
    alloc: Global,
    book: &Book,
    line: &[u8],
    offence: Offence,
    place: u32,
) -> Result<String, AllocError> {
    let Some(request) = read_line(alloc, line)? else {
        return Ok(String::new(alloc));
    };
    let shape = book.store().shape(alloc, &book.limits())?;
    let Some(program) = program_in(alloc, &request, &shape)? else {
        return Ok(String::new(alloc));
    };
    let blamed = Blamed {
        program: &program,
        arrays: shape.arrays(),
        has_operations: has_operations(&request),
    };
    match find_blame(alloc, blamed, place, offence)? {
        Some(blame) => shown(alloc, &request, place, &blame),
        None => Ok(String::new(alloc)),
    }
}

fn shown(alloc: Global, request: &Value, place: u32, blame: &Blame) -> Result<String, AllocError> {
    let mut said = String::from_str(alloc, "\n")?;
    put_place(alloc, request, place, &mut said)?;
    said.push_str(": ")?;
    said.push_str(blame.statement.as_str())?;
    said.push_str("\n")?;
    said.push_str(blame.before.as_str())?;
    if let Some(other) = blame.other {
        put_place(alloc, request, other, &mut said)?;
        said.push_str(blame.behind.as_str())?;
    }
    Ok(said)
}

/// `statement 5 at [1][2][0], where i = 31`
fn put_place(
    alloc: Global,
    request: &Value,
    place: u32,
    said: &mut String,
) -> Result<(), AllocError> {
    let at = place_in(alloc, request, place, Telling::Line)?;
    said.push_str(format!(in alloc; "statement {place}{}", at.as_str())?.as_str())
}
