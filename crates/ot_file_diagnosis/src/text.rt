//! What is found, as compilers show it.
ghost use Rattle.std.specs.Prelude.{◌≡◌, ◌++◌, flat_map, map, IfOk, OnOk, string_bytes};
ghost use Rattle.ot_file_diagnosis.specs.DiagnosisView.{remark_by, diagnosis_by};
ghost use Rattle.ot_file_diagnosis.specs.Texts as meant;

use crate::diagnosis::{Code, Diagnosis, Place, Remark, Severity};
use crate::paint::Paint;
use crate::picture::put_picture;
use std::alloc::{AllocError, Global};

/// A file: what it is called, and its bytes.
#[derive(Clone, Copy, Debug)]
pub struct Source<'a> {
    pub name: &'a str,
    pub text: &'a [u8],
}

/// Writes what is found in a file, with the lines of its source.
pub fn put_diagnosis(
    alloc: Global,
    paint: Paint,
    source: Source<'_>,
    found: &Diagnosis,
    out: &mut Vec<u8>,
) -> Result<(), AllocError>
    ensures { OnOk result (out.new.items ≡ out.old.items ++ meant.diagnosis_text paint source.entry.name.now source.entry.text.now (diagnosis_by found.now)) }
{
    let label = label_of(alloc, found.code)?;
    put_remark(
        alloc,
        paint,
        source,
        found.severity,
        &found.told,
        label.as_str(),
        out,
    )?;
    put_notes(alloc, paint, source, found.notes.as_slice(), out)
}

/// Writes the notes of what is found.
fn put_notes(
    alloc: Global,
    paint: Paint,
    source: Source<'_>,
    notes: &[Remark],
    out: &mut Vec<u8>,
) -> Result<(), AllocError>
    ensures { OnOk result (out.new.items ≡ out.old.items ++ meant.notes_shown paint source.entry.name.now source.entry.text.now (map remark_by notes.now)) }
{
    for note in notes {
        put_remark(alloc, paint, source, Severity::Note, note, "", out)?;
    }
    Ok(())
}

/// Writes a remark, with a label behind it.
fn put_remark(
    alloc: Global,
    paint: Paint,
    source: Source<'_>,
    severity: Severity,
    remark: &Remark,
    label: &str,
    out: &mut Vec<u8>,
) -> Result<(), AllocError>
    ensures { OnOk result (out.new.items ≡ out.old.items ++ meant.remark_text paint source.entry.name.now source.entry.text.now severity (remark_by remark.now) label.now) }
{
    put_line(alloc, paint, source.name, severity, remark, label, out)?;
    match remark.place {
        Some(place) => put_picture(alloc, paint, source.text, place, out),
        None => Ok(()),
    }
}

/// `NAME:LINE:COLUMN: error: MESSAGE [race]`
fn put_line(
    alloc: Global,
    paint: Paint,
    name: &str,
    severity: Severity,
    remark: &Remark,
    label: &str,
    out: &mut Vec<u8>,
) -> Result<(), AllocError>
    ensures { OnOk result (out.new.items ≡ out.old.items ++ meant.line_text paint name.now severity (remark_by remark.now) label.now) }
{
    let place = place_of(alloc, remark.path(name), remark.place)?;
    out.extend_from_slice(place.as_bytes())?;
    out.extend_from_slice(mark_of(paint, severity).as_bytes())?;
    put_words(remark.message.as_bytes(), out)?;
    out.extend_from_slice(label.as_bytes())?;
    out.push(b'\n')?;
    Ok(())
}

/// Writes words on one line.
fn put_words(words: &[u8], out: &mut Vec<u8>) -> Result<(), AllocError>
    ensures { OnOk result (out.new.items ≡ out.old.items ++ map meant.one_line_byte words.now) }
{
    for byte in words {
        out.push(on_line(*byte))?;
    }
    Ok(())
}

/// A byte of words on one line: an LF is a space.
fn on_line(byte: u8) -> u8
    ensures { result ≡ meant.one_line_byte byte }
{
    if byte == b'\n' { b' ' } else { byte }
}

/// `NAME:LINE:COLUMN`, or the name alone.
pub fn place_of(alloc: Global, name: &str, place: Option<Place>) -> Result<String, AllocError>
    ensures { IfOk result (λ text. string_bytes text ≡ meant.place_text name.now place) }
{
    match place {
        Some(place) => {
            format!(in alloc; "{name}:{}:{}", place.position.line, place.position.column)
        }
        None => String::from_str(alloc, name),
    }
}

fn mark_of(paint: Paint, severity: Severity) -> &'static str
    ensures { result.now ≡ meant.mark_text paint severity }
{
    match (paint, severity) {
        (Paint::Plain, Severity::Error) => ": error: ",
        (Paint::Plain, Severity::Note) => ": note: ",
        (Paint::Coloured, Severity::Error) => ": \x1b[1;31merror:\x1b[0m ",
        (Paint::Coloured, Severity::Note) => ": \x1b[1;36mnote:\x1b[0m ",
    }
}

/// ` [race]`, at the end of a line; nothing where the message says it, or where there is nothing to say.
pub(crate) fn label_of(alloc: Global, code: Code) -> Result<String, AllocError>
    ensures { IfOk result (λ label. string_bytes label ≡ meant.label_text code) }
{
    match code {
        Code::Race => String::from_str(alloc, " [race]"),
        Code::Lifetime => String::from_str(alloc, " [lifetime]"),
        Code::Outside => String::from_str(alloc, " [outside]"),
        Code::Refused(number) => format!(in alloc; " [{number}]"),
        _ => Ok(String::new(alloc)),
    }
}
