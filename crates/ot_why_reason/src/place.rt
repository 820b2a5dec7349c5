//! Where something stands in a line, in words.
ghost use Rattle.std.specs.Prelude.{◌≡◌, ◌++◌, ℕ, List, map, string_bytes, IfOk, OnOk};
ghost use Rattle.serde_json.specs.View.{view};
ghost use Rattle.ot_why_place.specs.Spots.{turn_by, place_by};
ghost use Rattle.ot_why_reason.specs.Places.{path_words, turn_words, before_turn, turns_words, where_words, place_words, in_file, entry_words, statement_words};

use ot_why_place::{Place, Turn, place_of};
use serde_json::Value;
use std::alloc::{AllocError, Global};

/// How many bytes of a statement are shown at most.
const MAX_STATEMENT: usize = 100;

/// How many bytes of a part of a statement are shown at most.
const MAX_PART: usize = 60;

/// How the place of something in a line is told.
#[derive(Clone, Copy, Debug, PartialEq, Eq)]
pub enum Telling {
    /// By indices from 0 into the lists of the line, and the turns of the loops around it: ` at [1][2][0], where i = 31`.
    Line,
    /// By the turns of the loops alone, where the place in a file is told beside it: `, where i = 31`.
    File,
}

/// Where the statement of this number stands in a request that runs a program; nothing where there is no such statement.
pub fn place_in(
    alloc: Global,
    request: &Value,
    number: u32,
    telling: Telling,
) -> Result<String, AllocError>
    ensures { IfOk result (λ text. string_bytes text ≡ statement_words telling (view request.now) number) }
{
    match place_of(alloc, request, number)? {
        Some(place) => at(alloc, &place, telling),
        None => Ok(String::new(alloc)),
    }
}

fn at(alloc: Global, place: &Place<'_>, telling: Telling) -> Result<String, AllocError>
    ensures { IfOk result (λ text. string_bytes text ≡ place_words telling (place_by place.now)) }
{
    let mut said = String::new(alloc);
    put_place(alloc, &mut said, place, telling)?;
    Ok(said)
}

/// A place behind other words.
fn put_place(
    alloc: Global,
    said: &mut String,
    place: &Place<'_>,
    telling: Telling,
) -> Result<(), AllocError>
    ensures { OnOk result (string_bytes said.new ≡ string_bytes said.old ++ place_words telling (place_by place.now)) }
{
    match telling {
        Telling::Line => {
            said.push_str(" at ")?;
            put_path(alloc, said, place.path.as_slice())?;
            put_where(alloc, said, place.turns.as_slice())
        }
        Telling::File => put_where(alloc, said, place.turns.as_slice()),
    }
}

/// A place, and what stands there.
pub(crate) fn at_line(
    alloc: Global,
    place: &Place<'_>,
    statement: &Value,
    telling: Telling,
) -> Result<String, AllocError>
    ensures { IfOk result (λ text. (shown : List ℕ) × (string_bytes text ≡ entry_words telling (place_by place.now) ++ shown)) }
{
    let mut said = String::new(alloc);
    put_entry(alloc, &mut said, place, telling)?;
    said.push_str(cut(alloc, statement, MAX_STATEMENT)?.as_str())?;
    Ok(said)
}

/// A place before what stands there.
fn put_entry(
    alloc: Global,
    said: &mut String,
    place: &Place<'_>,
    telling: Telling,
) -> Result<(), AllocError>
    ensures { OnOk result (string_bytes said.new ≡ string_bytes said.old ++ entry_words telling (place_by place.now)) }
{
    match telling {
        Telling::Line => {
            said.push_str("at ")?;
            put_path(alloc, said, place.path.as_slice())?;
            put_where(alloc, said, place.turns.as_slice())?;
            said.push_str(": ")
        }
        Telling::File => put_in_file(alloc, said, place.turns.as_slice()),
    }
}

/// The variables of the loops before what stands there, where there are loops.
fn put_in_file(alloc: Global, said: &mut String, turns: &[Turn<'_>]) -> Result<(), AllocError>
    ensures { OnOk result (string_bytes said.new ≡ string_bytes said.old ++ in_file (map turn_by turns.now)) }
{
    match turns {
        [] => Ok(()),
        [_, ..] => {
            put_turns(alloc, said, turns)?;
            said.push_str(": ")
        }
    }
}

/// A part of a statement as it is written.
pub(crate) fn shown(alloc: Global, part: &Value) -> Result<String, AllocError> {
    cut(alloc, part, MAX_PART)
}

/// Indices into lists.
fn put_path(alloc: Global, said: &mut String, path: &[usize]) -> Result<(), AllocError>
    ensures { OnOk result (string_bytes said.new ≡ string_bytes said.old ++ path_words path.now) }
{
    for index in path {
        said.push_str(format!(in alloc; "[{index}]")?.as_str())?;
    }
    Ok(())
}

/// The variables of the loops behind a comma, where there are loops.
fn put_where(alloc: Global, said: &mut String, turns: &[Turn<'_>]) -> Result<(), AllocError>
    ensures { OnOk result (string_bytes said.new ≡ string_bytes said.old ++ where_words (map turn_by turns.now)) }
{
    match turns {
        [] => Ok(()),
        [_, ..] => {
            said.push_str(", ")?;
            put_turns(alloc, said, turns)
        }
    }
}

/// The variables of the loops with their numbers, the outermost first, which is the last one here.
fn put_turns(alloc: Global, said: &mut String, turns: &[Turn<'_>]) -> Result<(), AllocError>
    ensures { OnOk result (string_bytes said.new ≡ string_bytes said.old ++ turns_words (map turn_by turns.now)) }
{
    match turns {
        [] => Ok(()),
        [turn, outer @ ..] => {
            put_turns(alloc, said, outer)?;
            said.push_str(before_turn(outer))?;
            put_turn(alloc, said, *turn)
        }
    }
}

/// What stands before a loop's variable that is the outermost, or behind others.
fn before_turn(outer: &[Turn<'_>]) -> &'static str
    ensures { result.now ≡ before_turn (map turn_by outer.now) }
{
    match outer {
        [] => "where ",
        [_, ..] => ", ",
    }
}

fn put_turn(alloc: Global, said: &mut String, turn: Turn<'_>) -> Result<(), AllocError>
    ensures { OnOk result (string_bytes said.new ≡ string_bytes said.old ++ turn_words (turn_by turn.entry)) }
{
    let (name, number) = (turn.name, turn.number);
    said.push_str(format!(in alloc; "{name} = {number}")?.as_str())
}

/// A value as it is written, cut where it has more bytes.
fn cut(alloc: Global, value: &Value, most: usize) -> Result<String, AllocError> {
    let mut text = value.to_string(alloc)?;
    if text.len() <= most {
        return Ok(text);
    }
    let mut end = most.saturating_sub(3);
    for _ in 0..3 {
        if !text.is_char_boundary(end) {
            end = end.saturating_sub(1);
        }
    }
    if text.is_char_boundary(end) {
        text.truncate(end);
    }
    text.push_str("...")?;
    Ok(text)
}
