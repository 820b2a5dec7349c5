//! What is found, as a value of JSON.
ghost use Rattle.std.specs.Prelude.{◌≡◌, map, IfOk, OnOk, string_bytes};
ghost use Rattle.serde_json.specs.Data.{Data};
ghost use Rattle.serde_json.specs.View.{view, members_view};
ghost use Rattle.ot_file_diagnosis.specs.DiagnosisView.{turn_by, remark_by, diagnosis_by};
ghost use Rattle.ot_file_diagnosis.specs.Codes.{severity_text, code_text};
ghost use Rattle.ot_file_diagnosis.specs.Values as meant;

use crate::diagnosis::{Code, Diagnosis, Place, Remark, Severity, Turn};
use serde_json::{Map, Value, put};
use std::alloc::{AllocError, Global};

/// What is found in a file of this name: an object with what is said of it, and its code, its severity and its notes.
pub(crate) fn value_of(alloc: Global, name: &str, found: &Diagnosis) -> Result<Value, AllocError>
    ensures { IfOk result (λ v. view v ≡ meant.diagnosis_value name.now (diagnosis_by found.now)) }
{
    let code = text_of(alloc, code_of(alloc, found.code)?.as_str())?;
    let severity = text_of(alloc, severity_of(found.severity))?;
    let notes = Value::Array(notes_of(alloc, name, found.notes.as_slice())?);
    let mut members = members_of(alloc, name, &found.told)?;
    put(&mut members, alloc, "code", code)?;
    put(&mut members, alloc, "severity", severity)?;
    put(&mut members, alloc, "notes", notes)?;
    Ok(Value::Object(members))
}

/// Its notes, an object each.
fn notes_of(alloc: Global, name: &str, notes: &[Remark]) -> Result<Vec<Value>, AllocError>
    ensures { IfOk result (λ values. map (λ v. view v) values.items ≡ meant.note_values name.now (map remark_by notes.now)) }
{
    let mut values = Vec::new(alloc);
    for note in notes {
        values.push(Value::Object(members_of(alloc, name, note)?))?;
    }
    Ok(values)
}

/// What is said, as members of an object: the file, the place where there is one, the words, and the turns.
fn members_of(alloc: Global, name: &str, remark: &Remark) -> Result<Map<String, Value>, AllocError>
    ensures { IfOk result (λ members. members_view members.entries ≡ meant.members_of name.now (remark_by remark.now)) }
{
    let file = text_of(alloc, remark.path(name))?;
    let message = text_of(alloc, remark.message.as_str())?;
    let turns = Value::Array(turns_of(alloc, remark.turns.as_slice())?);
    let mut members = Map::new(alloc);
    put(&mut members, alloc, "file", file)?;
    put(&mut members, alloc, "message", message)?;
    put(&mut members, alloc, "turns", turns)?;
    put_place(alloc, remark.from(), remark.place, &mut members)?;
    Ok(members)
}

/// Puts a place into an object, where there is one, of a file that has so many bytes before it in the text that is shown.
fn put_place(
    alloc: Global,
    from: usize,
    place: Option<Place>,
    members: &mut Map<String, Value>,
) -> Result<(), AllocError>
    ensures { OnOk result (members_view members.new.entries ≡ meant.with_place from place (members_view members.old.entries)) }
{
    let Some(place) = place else {
        return Ok(());
    };
    put(
        members,
        alloc,
        "byte",
        Value::from(place.byte.saturating_sub(from)),
    )?;
    put(members, alloc, "line", Value::from(place.position.line))?;
    put(members, alloc, "column", Value::from(place.position.column))?;
    Ok(())
}

/// The turns of loops, the outermost first: each as the variable and its number.
fn turns_of(alloc: Global, turns: &[Turn]) -> Result<Vec<Value>, AllocError>
    ensures { IfOk result (λ values. map (λ v. view v) values.items ≡ map meant.turn_value (map turn_by turns.now)) }
{
    let mut values = Vec::new(alloc);
    for turn in turns {
        values.push(turn_of(alloc, turn)?)?;
    }
    Ok(values)
}

/// `["i",1]`
fn turn_of(alloc: Global, turn: &Turn) -> Result<Value, AllocError>
    ensures { IfOk result (λ v. view v ≡ meant.turn_value (turn_by turn.now)) }
{
    let mut parts = Vec::new(alloc);
    parts.push(text_of(alloc, turn.name.as_str())?)?;
    parts.push(Value::from(turn.number))?;
    Ok(Value::Array(parts))
}

/// A text as a value.
pub(crate) fn text_of(alloc: Global, text: &str) -> Result<Value, AllocError>
    ensures { IfOk result (λ v. view v ≡ Data.string text.now) }
{
    Ok(Value::String(String::from_str(alloc, text)?))
}

/// What a severity is called.
pub(crate) fn severity_of(severity: Severity) -> &'static str
    ensures { result.now ≡ severity_text severity }
{
    match severity {
        Severity::Error => "error",
        Severity::Note => "note",
    }
}

/// What a code is called.
pub(crate) fn code_of(alloc: Global, code: Code) -> Result<String, AllocError>
    ensures { IfOk result (λ text. string_bytes text ≡ code_text code) }
{
    match code {
        Code::Race => String::from_str(alloc, "race"),
        Code::Lifetime => String::from_str(alloc, "lifetime"),
        Code::MoreRaces => String::from_str(alloc, "more-races"),
        Code::Outside => String::from_str(alloc, "outside"),
        Code::OnlyRun => String::from_str(alloc, "only-run"),
        Code::AsIf => String::from_str(alloc, "as-if"),
        Code::Refused(number) | Code::Answered(number) => format!(in alloc; "{number}"),
        Code::Long => String::from_str(alloc, "long"),
        Code::Full => String::from_str(alloc, "full"),
    }
}
