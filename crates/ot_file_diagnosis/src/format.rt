//! What is found in files, in the format that is asked for.
ghost use Rattle.std.specs.Prelude.{◌≡◌, ◌++◌, false, map, IfOk, OnOk, string_bytes};
ghost use Rattle.serde_json.specs.View.{view};
ghost use Rattle.serde_json.specs.Written.{compact_text, has_float};
ghost use Rattle.ot_file_diagnosis.specs.DiagnosisView.{diagnosis_by};
ghost use Rattle.ot_file_diagnosis.specs.Formats as meant;
ghost use Rattle.ot_file_diagnosis.specs.Sarif.{document_value, result_value};
ghost use Rattle.ot_file_diagnosis.specs.Values.{diagnosis_value};

use crate::annotation::put_annotation;
use crate::diagnosis::{Code, Diagnosis};
use crate::paint::Paint;
use crate::sarif::{document_of, result_of};
use crate::text::{Source, put_diagnosis};
use crate::value::value_of;
use serde_json::Value;
use std::alloc::{AllocError, Global};

/// How what is found is told.
#[derive(Clone, Copy, Debug, PartialEq, Eq)]
pub enum Format {
    /// As compilers do.
    Text(Paint),
    /// A value of JSON on a line for each diagnosis.
    Json,
    /// One document of SARIF 2.1.0 for all files.
    Sarif,
    /// An annotation of GitHub's workflows on a line for each diagnosis.
    Github,
}

/// Writes what is found in a file. Of SARIF's document nothing is written here.
pub fn put_found(
    alloc: Global,
    format: Format,
    source: Source<'_>,
    found: &[Diagnosis],
    out: &mut Vec<u8>,
) -> Result<(), AllocError>
    ensures { OnOk result (out.new.items ≡ out.old.items ++ meant.found_text format source.entry.name.now source.entry.text.now (map diagnosis_by found.now)) }
{
    for one in found {
        put_one(alloc, format, source, one, out)?;
    }
    Ok(())
}

fn put_one(
    alloc: Global,
    format: Format,
    source: Source<'_>,
    one: &Diagnosis,
    out: &mut Vec<u8>,
) -> Result<(), AllocError>
    ensures { OnOk result (out.new.items ≡ out.old.items ++ meant.one_text format source.entry.name.now source.entry.text.now (diagnosis_by one.now)) }
{
    match format {
        Format::Text(paint) => put_diagnosis(alloc, paint, source, one, out),
        Format::Json => put_value(alloc, source.name, one, out),
        Format::Sarif => Ok(()),
        Format::Github => put_annotation(alloc, source.name, one, out),
    }
}

/// Writes a diagnosis as JSON on a line.
fn put_value(
    alloc: Global,
    name: &str,
    one: &Diagnosis,
    out: &mut Vec<u8>,
) -> Result<(), AllocError>
    ensures { OnOk result (out.new.items ≡ out.old.items ++ meant.value_line name.now (diagnosis_by one.now)) }
{
    let text = value_text(alloc, name, one)?;
    out.extend_from_slice(text.as_bytes())?;
    out.push(b'\n')?;
    Ok(())
}

fn value_text(alloc: Global, name: &str, one: &Diagnosis) -> Result<String, AllocError>
    ensures { IfOk result (λ text. string_bytes text ≡ compact_text (diagnosis_value name.now (diagnosis_by one.now))) }
{
    let value = value_of(alloc, name, one)?;
    value.to_string(alloc)
}

/// Puts what is found in a file of this name behind other results of SARIF.
pub fn put_results(
    alloc: Global,
    name: &str,
    found: &[Diagnosis],
    results: &mut Vec<Value>,
) -> Result<(), AllocError>
    ensures { OnOk result (map (λ r. view r) results.new.items ≡ map (λ r. view r) results.old.items ++ map (result_value name.now) (map diagnosis_by found.now)) }
{
    for one in found {
        results.push(result_of(alloc, name, one)?)?;
    }
    Ok(())
}

/// Writes the document of SARIF that has these results.
pub fn put_document(alloc: Global, results: Vec<Value>, out: &mut Vec<u8>) -> Result<(), AllocError>
    ensures { OnOk result (has_float (document_value (map (λ r. view r) results.items)) ≡ false
        → out.new.items ≡ out.old.items ++ meant.document_text (map (λ r. view r) results.items)) }
{
    let document = document_of(alloc, results)?;
    let text = document.to_string(alloc)?;
    out.extend_from_slice(text.as_bytes())?;
    out.push(b'\n')?;
    Ok(())
}

/// What is found, without what a server refuses.
pub fn without_refusals(alloc: Global, found: Vec<Diagnosis>) -> Result<Vec<Diagnosis>, AllocError>
    ensures { IfOk result (λ kept. map diagnosis_by kept.items ≡ meant.without_refusals (map diagnosis_by found.items)) }
{
    let mut kept = Vec::new(alloc);
    for one in found {
        keep(&mut kept, one)?;
    }
    Ok(kept)
}

fn keep(kept: &mut Vec<Diagnosis>, one: Diagnosis) -> Result<(), AllocError>
    ensures { OnOk result (map diagnosis_by kept.new.items ≡ map diagnosis_by kept.old.items ++ meant.kept_if_told (diagnosis_by one)) }
{
    match one.code {
        Code::Refused(_) => {}
        _ => kept.push(one)?,
    }
    Ok(())
}
