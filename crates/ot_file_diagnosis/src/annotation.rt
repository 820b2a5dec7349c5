//! What is found, as GitHub's workflows take it.
ghost use Rattle.std.specs.Prelude.{◌≡◌, ◌++◌, flat_map, map, OnOk, IfOk, string_bytes};
ghost use Rattle.ot_file_diagnosis.specs.DiagnosisView.{remark_by, diagnosis_by};
ghost use Rattle.ot_file_diagnosis.specs.Annotations as meant;

use crate::diagnosis::{Diagnosis, Place, Remark, Severity};
use crate::escape::{put_message, put_property};
use crate::text::{label_of, place_of};
use std::alloc::{AllocError, Global};

/// Writes what is found in a file of this name as the annotation of a line: `::error file=NAME,line=LINE,col=COLUMN::MESSAGE`.
pub(crate) fn put_annotation(
    alloc: Global,
    name: &str,
    found: &Diagnosis,
    out: &mut Vec<u8>,
) -> Result<(), AllocError>
    ensures { OnOk result (out.new.items ≡ out.old.items ++ meant.annotation_text name.now (diagnosis_by found.now)) }
{
    out.extend_from_slice(command_of(found.severity).as_bytes())?;
    put_property(found.told.path(name).as_bytes(), out)?;
    put_where(alloc, found.told.place, out)?;
    put_told(alloc, found, out)?;
    put_notes(alloc, name, found.notes.as_slice(), out)?;
    out.push(b'\n')?;
    Ok(())
}

fn command_of(severity: Severity) -> &'static str
    ensures { result.now ≡ meant.command_text severity }
{
    match severity {
        Severity::Error => "::error file=",
        Severity::Note => "::notice file=",
    }
}

/// `,line=LINE,col=COLUMN`, where there is a place.
fn put_where(alloc: Global, place: Option<Place>, out: &mut Vec<u8>) -> Result<(), AllocError>
    ensures { OnOk result (out.new.items ≡ out.old.items ++ meant.where_text place) }
{
    if let Some(place) = place {
        let position = place.position;
        let text = format!(in alloc; ",line={},col={}", position.line, position.column)?;
        out.extend_from_slice(text.as_bytes())?;
    }
    Ok(())
}

/// The message, with the code where the text form has it.
fn put_told(alloc: Global, found: &Diagnosis, out: &mut Vec<u8>) -> Result<(), AllocError>
    ensures { OnOk result (out.new.items ≡ out.old.items ++ meant.told_text (diagnosis_by found.now)) }
{
    let label = label_of(alloc, found.code)?;
    out.extend_from_slice(b"::".as_slice())?;
    put_message(found.told.message.as_bytes(), out)?;
    out.extend_from_slice(label.as_bytes())?;
    Ok(())
}

/// Notes, each on a line of its own in the message.
fn put_notes(
    alloc: Global,
    name: &str,
    notes: &[Remark],
    out: &mut Vec<u8>,
) -> Result<(), AllocError>
    ensures { OnOk result (out.new.items ≡ out.old.items ++ meant.notes_text name.now (map remark_by notes.now)) }
{
    for note in notes {
        put_note(alloc, name, note, out)?;
    }
    Ok(())
}

fn put_note(alloc: Global, name: &str, note: &Remark, out: &mut Vec<u8>) -> Result<(), AllocError>
    ensures { OnOk result (out.new.items ≡ out.old.items ++ meant.note_text name.now (remark_by note.now)) }
{
    let place = place_of(alloc, note.path(name), note.place)?;
    let stands = place.as_str();
    let message = note.message.as_str();
    let line = format!(in alloc; "\n{stands}: {message}")?;
    put_message(line.as_bytes(), out)
}
