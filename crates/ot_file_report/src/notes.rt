//! The notes behind a refusal.
ghost use Rattle.std.specs.Prelude.{◌≡◌, ◌≤◌, IfOk, length, map, option_and_then, Some, option_map, [], ◌∷◌};
ghost use Rattle.serde_json.specs.View.{view};
ghost use Rattle.ot_file_judge.specs.Judging.{Refusal, IsBookBehind, IsSeen};
ghost use Rattle.ot_file_diagnosis.specs.DiagnosisView.{remark_by};
ghost use Rattle.ot_file_report.specs.Report.{Names, NamesBy, StandIn, notes_told};
ghost use Rattle.ot_file_report.specs.NoteView.{note_by, stands_of};

use crate::note::Note;
use crate::reasons::reason_notes;
use ot_book::{Book, Entry, Told};
use ot_check::Offence;
use ot_file_diagnosis::Remark;
use ot_file_judge::{Finding, Findings};
use ot_why_blame::{Blame, Blamed, find_blame};
use ot_why_reason::{Telling, has_operations, place_in, program_in};
use serde_json::Value;
use std::alloc::{AllocError, Global};

/// Notes behind a refusal, each at its place.
pub(crate) fn placed(
    alloc: Global,
    findings: &mut Findings<'_>,
    finding: &Finding,
    notes: Vec<Note>,
) -> Result<Vec<Remark>, AllocError>
    requires { (finding.now.start ≤ finding.now.end) × (finding.now.end ≤ length findings.old.blank) }
    ensures told { IfOk result (λ told. map remark_by told.items ≡ notes_told (option_map view finding.now.request) findings.old.blank finding.now.start finding.now.end finding.now.place (map note_by notes.items)) }
    ensures same { findings.new ≡ findings.old }
{
    let mut told = Vec::new(alloc);
    for note in notes {
        let place = match note.number {
            Some(number) => findings.statement(alloc, finding, number)?,
            None => finding.place,
        };
        told.push(Remark {
            place: Some(place),
            file: None,
            turns: Vec::new(alloc),
            message: note.words,
        })?;
    }
    Ok(told)
}

/// The notes behind a refusal, which is what the book told last: of an offence the statement, and what it offends against; else
/// the reasons.
pub(crate) fn notes_of(
    alloc: Global,
    book: &Book,
    finding: &Finding,
) -> Result<Vec<Note>, AllocError>
    ensures { IfOk result (λ notes. (one : Refusal) → IsBookBehind one book.now → IsSeen one finding.now → Names one (stands_of notes.items)) }
{
    let Some(_) = finding.code else {
        return Ok(Vec::new(alloc));
    };
    match last_entry(book) {
        Some(entry) => notes_on(alloc, book, &finding.request, entry),
        None => Ok(Vec::new(alloc)),
    }
}

ghost use Rattle.ot_book.specs.Books.{last_told};
ghost use Rattle.ot_book.specs.ReplyView.{told_of};

/// The last line of a book's log, with what was told.
fn last_entry(book: &Book) -> Option<&Entry>
    ensures { option_map (λ entry. told_of entry.now.told) result ≡ last_told book.now }
{
    book.log().last()
}

/// The notes behind what an entry of the log was told, whose line has this value.
fn notes_on(
    alloc: Global,
    book: &Book,
    request: &Option<Value>,
    entry: &Entry,
) -> Result<Vec<Note>, AllocError>
    ensures { IfOk result (λ notes. NamesBy book.now (option_map view request.now) (Some (told_of entry.now.told)) (stands_of notes.items)) }
{
    match &entry.told {
        Told::Refused(code) => reason_notes(alloc, book, entry.line.as_slice(), request, *code),
        Told::Offends(offence, place) => blame_notes(alloc, book, request, *offence, *place),
        _ => Ok(Vec::new(alloc)),
    }
}

ghost use Rattle.ot_check.specs.Offences.{code_of};
ghost use Rattle.ot_store.specs.Arrays.{shape_in};
ghost use Rattle.ot_why_reason.specs.Runs.{run_of};

/// The statement that offends, and what it offends against. No array has changed since.
fn blame_notes(
    alloc: Global,
    book: &Book,
    request: &Option<Value>,
    offence: Offence,
    place: u32,
) -> Result<Vec<Note>, AllocError>
    ensures { IfOk result (λ notes.
        StandIn (option_and_then (run_of (shape_in book.now.limits book.now.store)) (option_map view request.now)) (code_of offence) place (stands_of notes.items)) }
{
    let Some(request) = request else {
        return Ok(Vec::new(alloc));
    };
    let shape = book.store().shape(alloc, &book.limits())?;
    let Some(program) = program_in(alloc, request, &shape)? else {
        return Ok(Vec::new(alloc));
    };
    let blamed = Blamed {
        program: &program,
        arrays: shape.arrays(),
        has_operations: has_operations(request),
    };
    match find_blame(alloc, blamed, place, offence)? {
        Some(blame) => two_notes(alloc, request, place, &blame),
        None => Ok(Vec::new(alloc)),
    }
}

/// The note on a statement, and that on the other one, which has a part in its offence.
fn two_notes(
    alloc: Global,
    request: &Value,
    place: u32,
    blame: &Blame,
) -> Result<Vec<Note>, AllocError>
    ensures { IfOk result (λ notes. stands_of notes.items ≡ Some place ∷ blame.now.other ∷ []) }
{
    let mut words = statement_words(alloc, request, place)?;
    words.push_str(": ")?;
    words.push_str(blame.statement.as_str())?;
    let mut notes = Vec::new(alloc);
    notes.push(Note {
        number: Some(place),
        words,
    })?;
    notes.push(Note {
        number: blame.other,
        words: blame_words(alloc, request, blame)?,
    })?;
    Ok(notes)
}

/// What a statement offends against, with the other statement where there is one.
fn blame_words(alloc: Global, request: &Value, blame: &Blame) -> Result<String, AllocError> {
    let mut words = String::from_str(alloc, blame.before.as_str())?;
    if let Some(other) = blame.other {
        words.push_str(statement_words(alloc, request, other)?.as_str())?;
        words.push_str(blame.behind.as_str())?;
    }
    Ok(words)
}

/// `statement 5, where i = 31`
fn statement_words(alloc: Global, request: &Value, number: u32) -> Result<String, AllocError> {
    let place = place_in(alloc, request, number, Telling::File)?;
    format!(in alloc; "statement {number}{}", place.as_str())
}
