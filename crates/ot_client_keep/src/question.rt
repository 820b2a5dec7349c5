//! What is asked of a server, and its answer.
ghost use Rattle.std.specs.Prelude.{◌≡◌, IfOk, MatchResult, string_bytes, true};
ghost use Rattle.ot_client_ask.specs.Streams.{link};
ghost use Rattle.ot_client_keep.specs.Answers.{reply_by};
ghost use Rattle.ot_client_keep.specs.Files.{Cells, Listed, Taken, Used};
ghost use Rattle.ot_client_keep.specs.Asked.{question_by};
ghost use Rattle.ot_client_keep.specs.Questions.{Arrays, CellsOf, Checkpoint, TurnFails, Free, Line, Turn, Units, fits_question, cells_line, free_line, question_line};
ghost use Rattle.ot_model.specs.Programs.{arrays_of};

use crate::answer::{Answer, read_answer};
use crate::fault::KeepFault;
use ot_client_ask::{AskFault, LineSource, hear};
use ot_model::ArrayShape;
use ot_session::{Sink, write_whole};
use std::alloc::{AllocError, Global};

/// A request.
#[derive(Clone, Copy, Debug)]
enum Question<'a> {
    /// Begin the log anew.
    Checkpoint,
    /// Tell the used units.
    Units,
    /// Name the arrays.
    Arrays,
    /// Tell all cells of an array, which has so many.
    CellsOf(&'a str, u32),
    /// Free an array.
    Free(&'a str),
    /// Take a line of a file, which has its LF.
    Line(&'a [u8]),
}

/// Lets the log begin anew, and hears the number of this request.
pub(crate) fn ask_checkpoint<H: LineSource, W: Sink>(
    alloc: Global,
    heard: &mut H,
    wire: &mut W,
) -> Result<u32, KeepFault>
    ensures { MatchResult result
        (λ told. Turn Checkpoint (link (H.coming heard.old) (W.draft wire.old)) (link (H.coming heard.new) (W.draft wire.new)) (Taken told))
        (λ fault. TurnFails Checkpoint (link (H.coming heard.old) (W.draft wire.old)) (link (H.coming heard.new) (W.draft wire.new)) fault) }
{
    match ask(alloc, &Question::Checkpoint, heard, wire) {
        Ok(Answer::Taken(told)) => Ok(told),
        Ok(_) => unreachable!(),
        Err(fault) => Err(fault),
    }
}

/// Asks for the used units.
pub(crate) fn ask_units<H: LineSource, W: Sink>(
    alloc: Global,
    heard: &mut H,
    wire: &mut W,
) -> Result<u64, KeepFault>
    ensures { MatchResult result
        (λ told. Turn Units (link (H.coming heard.old) (W.draft wire.old)) (link (H.coming heard.new) (W.draft wire.new)) (Used told))
        (λ fault. TurnFails Units (link (H.coming heard.old) (W.draft wire.old)) (link (H.coming heard.new) (W.draft wire.new)) fault) }
{
    match ask(alloc, &Question::Units, heard, wire) {
        Ok(Answer::Used(told)) => Ok(told),
        Ok(_) => unreachable!(),
        Err(fault) => Err(fault),
    }
}

/// Asks for the names of the arrays, and how many cells each has.
pub(crate) fn ask_arrays<H: LineSource, W: Sink>(
    alloc: Global,
    heard: &mut H,
    wire: &mut W,
) -> Result<Vec<ArrayShape>, KeepFault>
    ensures { MatchResult result
        (λ told. Turn Arrays (link (H.coming heard.old) (W.draft wire.old))
        (link (H.coming heard.new) (W.draft wire.new)) (Listed (arrays_of told.items)))
        (λ fault. TurnFails Arrays (link (H.coming heard.old) (W.draft wire.old)) (link (H.coming heard.new) (W.draft wire.new)) fault) }
{
    match ask(alloc, &Question::Arrays, heard, wire) {
        Ok(Answer::Listed(told)) => Ok(told),
        Ok(_) => unreachable!(),
        Err(fault) => Err(fault),
    }
}

/// Asks for all cells of an array, which has so many.
pub(crate) fn ask_cells<H: LineSource, W: Sink>(
    alloc: Global,
    name: &str,
    len: u32,
    heard: &mut H,
    wire: &mut W,
) -> Result<Vec<u64>, KeepFault>
    ensures { MatchResult result
        (λ told. Turn (CellsOf name.now len) (link (H.coming heard.old) (W.draft wire.old))
        (link (H.coming heard.new) (W.draft wire.new)) (Cells told.items))
        (λ fault. TurnFails (CellsOf name.now len) (link (H.coming heard.old) (W.draft wire.old))
        (link (H.coming heard.new) (W.draft wire.new)) fault) }
{
    match ask(alloc, &Question::CellsOf(name, len), heard, wire) {
        Ok(Answer::Cells(told)) => Ok(told),
        Ok(_) => unreachable!(),
        Err(fault) => Err(fault),
    }
}

/// Lets an array be freed, and hears that it was.
pub(crate) fn ask_free<H: LineSource, W: Sink>(
    alloc: Global,
    name: &str,
    heard: &mut H,
    wire: &mut W,
) -> Result<u32, KeepFault>
    ensures { MatchResult result
        (λ told. Turn (Free name.now) (link (H.coming heard.old) (W.draft wire.old)) (link (H.coming heard.new) (W.draft wire.new)) (Taken told))
        (λ fault. TurnFails (Free name.now) (link (H.coming heard.old) (W.draft wire.old)) (link (H.coming heard.new) (W.draft wire.new)) fault) }
{
    match ask(alloc, &Question::Free(name), heard, wire) {
        Ok(Answer::Taken(told)) => Ok(told),
        Ok(_) => unreachable!(),
        Err(fault) => Err(fault),
    }
}

/// Sends a line of a file, and hears that it is taken.
pub(crate) fn ask_line<H: LineSource, W: Sink>(
    alloc: Global,
    line: &[u8],
    heard: &mut H,
    wire: &mut W,
) -> Result<u32, KeepFault>
    ensures { MatchResult result
        (λ told. Turn (Line line.now) (link (H.coming heard.old) (W.draft wire.old)) (link (H.coming heard.new) (W.draft wire.new)) (Taken told))
        (λ fault. TurnFails (Line line.now) (link (H.coming heard.old) (W.draft wire.old)) (link (H.coming heard.new) (W.draft wire.new)) fault) }
{
    match ask(alloc, &Question::Line(line), heard, wire) {
        Ok(Answer::Taken(told)) => Ok(told),
        Ok(_) => unreachable!(),
        Err(fault) => Err(fault),
    }
}

/// Sends a request, and hears what it asks for.
fn ask<H: LineSource, W: Sink>(
    alloc: Global,
    question: &Question<'_>,
    heard: &mut H,
    wire: &mut W,
) -> Result<Answer, KeepFault>
    ensures turn { MatchResult result
        (λ answer. Turn (question_by question.now) (link (H.coming heard.old) (W.draft wire.old))
        (link (H.coming heard.new) (W.draft wire.new)) (reply_by answer))
        (λ fault. TurnFails (question_by question.now) (link (H.coming heard.old) (W.draft wire.old))
        (link (H.coming heard.new) (W.draft wire.new)) fault) }
    ensures fits { IfOk result (λ answer. fits_question (question_by question.now) (reply_by answer) ≡ true) }
{
    let Ok(line) = question_line(alloc, question) else {
        return Err(KeepFault::Ask(AskFault::Memory));
    };
    if write_whole(wire, &line).is_err() {
        return Err(KeepFault::Ask(AskFault::Closed));
    }
    let mut reply = Vec::new(alloc);
    if let Err(fault) = hear(heard, &mut reply) {
        return Err(KeepFault::Ask(fault));
    }
    match read_answer(alloc, &reply) {
        Ok(Some(answer)) if fits(question, &answer) => Ok(answer),
        Ok(_) => Err(KeepFault::StrangeReply),
        Err(_) => Err(KeepFault::Ask(AskFault::Memory)),
    }
}

/// The line of a request, with its LF.
fn question_line(alloc: Global, question: &Question<'_>) -> Result<Vec<u8>, AllocError>
    ensures { IfOk result (λ line. line.items ≡ question_line (question_by question.now)) }
{
    match question {
        Question::Checkpoint => Vec::from_slice(alloc, b"[\"checkpoint\"]\n".as_slice()),
        Question::Units => Vec::from_slice(alloc, b"[\"used\"]\n".as_slice()),
        Question::Arrays => Vec::from_slice(alloc, b"[\"list\"]\n".as_slice()),
        Question::CellsOf(name, len) => cells_line(alloc, name, *len),
        Question::Free(name) => free_line(alloc, name),
        Question::Line(line) => Vec::from_slice(alloc, line),
    }
}

fn cells_line(alloc: Global, name: &str, len: u32) -> Result<Vec<u8>, AllocError>
    ensures { IfOk result (λ line. line.items ≡ cells_line name.now len) }
{
    let line = format!(in alloc; "[\"get\",\"{name}\",0,{len}]\n")?;
    Ok(line.into_bytes())
}

fn free_line(alloc: Global, name: &str) -> Result<Vec<u8>, AllocError>
    ensures { IfOk result (λ line. line.items ≡ free_line name.now) }
{
    let line = format!(in alloc; "[\"free\",\"{name}\"]\n")?;
    Ok(line.into_bytes())
}

/// Whether an answer is one to the request.
fn fits(question: &Question<'_>, answer: &Answer) -> bool
    ensures { result ≡ fits_question (question_by question.now) (reply_by answer.now) }
{
    match (question, answer) {
        (Question::Checkpoint | Question::Free(_) | Question::Line(_), Answer::Taken(_)) => true,
        (Question::Units, Answer::Used(_)) => true,
        (Question::Arrays, Answer::Listed(_)) => true,
        (Question::CellsOf(_, len), Answer::Cells(cells)) => cells.len() == *len as usize,
        _ => false,
    }
}
