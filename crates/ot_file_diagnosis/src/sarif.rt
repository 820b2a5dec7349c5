//! What is found, as SARIF 2.1.0.
ghost use Rattle.std.specs.Prelude.{◌≡◌, map, IfOk, OnOk, string_bytes};
ghost use Rattle.serde_json.specs.View.{view, items_view, members_view};
ghost use Rattle.ot_file_diagnosis.specs.DiagnosisView.{remark_by, diagnosis_by};
ghost use Rattle.ot_file_diagnosis.specs.Sarif as meant;

use crate::diagnosis::{Code, Diagnosis, Place, Remark};
use crate::escape::uri_of;
use crate::value::{code_of, severity_of, text_of};
use serde_json::{Map, Value, put};
use std::alloc::{AllocError, Global};

/// What is found in a file of this name, as a result.
pub(crate) fn result_of(alloc: Global, name: &str, found: &Diagnosis) -> Result<Value, AllocError>
    ensures { IfOk result (λ v. view v ≡ meant.result_value name.now (diagnosis_by found.now)) }
{
    let uri = uri_of(alloc, found.told.path(name))?;
    let rule = text_of(alloc, code_of(alloc, found.code)?.as_str())?;
    let level = text_of(alloc, severity_of(found.severity))?;
    let told = words_of(alloc, found.told.message.as_str())?;
    let places = places_of(alloc, uri.as_str(), found.told.place)?;
    let related = related_to(alloc, name, found.notes.as_slice())?;
    let mut members = Map::new(alloc);
    put(&mut members, alloc, "ruleId", rule)?;
    put(&mut members, alloc, "level", level)?;
    put(&mut members, alloc, "message", told)?;
    put(&mut members, alloc, "locations", places)?;
    put(
        &mut members,
        alloc,
        "relatedLocations",
        Value::Array(related),
    )?;
    Ok(Value::Object(members))
}

/// An object with one member.
fn only(alloc: Global, key: &str, value: Value) -> Result<Value, AllocError>
    ensures { IfOk result (λ v. view v ≡ meant.only key.now (view value)) }
{
    let mut members = Map::new(alloc);
    put(&mut members, alloc, key, value)?;
    Ok(Value::Object(members))
}

/// `{"text":WORDS}`
fn words_of(alloc: Global, words: &str) -> Result<Value, AllocError>
    ensures { IfOk result (λ v. view v ≡ meant.words_value words.now) }
{
    only(alloc, "text", text_of(alloc, words)?)
}

/// Where a file is wrong, as the one location of a result.
fn places_of(alloc: Global, uri: &str, place: Option<Place>) -> Result<Value, AllocError>
    ensures { IfOk result (λ v. view v ≡ meant.places_value uri.now place) }
{
    let physical = physical_of(alloc, uri, place)?;
    let location = only(alloc, "physicalLocation", physical)?;
    let mut locations = Vec::new(alloc);
    locations.push(location)?;
    Ok(Value::Array(locations))
}

/// A file, and a line and a column of it where there is a place.
fn physical_of(alloc: Global, uri: &str, place: Option<Place>) -> Result<Value, AllocError>
    ensures { IfOk result (λ v. view v ≡ meant.physical_value uri.now place) }
{
    let artifact = only(alloc, "uri", text_of(alloc, uri)?)?;
    let mut members = Map::new(alloc);
    put(&mut members, alloc, "artifactLocation", artifact)?;
    put_region(alloc, place, &mut members)?;
    Ok(Value::Object(members))
}

fn put_region(
    alloc: Global,
    place: Option<Place>,
    members: &mut Map<String, Value>,
) -> Result<(), AllocError>
    ensures { OnOk result (members_view members.new.entries ≡ meant.with_region place (members_view members.old.entries)) }
{
    let Some(place) = place else {
        return Ok(());
    };
    let region = region_of(alloc, place)?;
    put(members, alloc, "region", region)
}

/// A line and a column.
fn region_of(alloc: Global, place: Place) -> Result<Value, AllocError>
    ensures { IfOk result (λ v. view v ≡ meant.region_value place) }
{
    let mut members = Map::new(alloc);
    put(
        &mut members,
        alloc,
        "startLine",
        Value::from(place.position.line),
    )?;
    put(
        &mut members,
        alloc,
        "startColumn",
        Value::from(place.position.column),
    )?;
    Ok(Value::Object(members))
}

/// Notes, as locations that belong to a result.
fn related_to(alloc: Global, name: &str, notes: &[Remark]) -> Result<Vec<Value>, AllocError>
    ensures { IfOk result (λ values. map (λ v. view v) values.items ≡ map (meant.related_value name.now) (map remark_by notes.now)) }
{
    let mut values = Vec::new(alloc);
    for note in notes {
        values.push(related_of(alloc, name, note)?)?;
    }
    Ok(values)
}

fn related_of(alloc: Global, name: &str, note: &Remark) -> Result<Value, AllocError>
    ensures { IfOk result (λ v. view v ≡ meant.related_value name.now (remark_by note.now)) }
{
    let uri = uri_of(alloc, note.path(name))?;
    let physical = physical_of(alloc, uri.as_str(), note.place)?;
    let told = words_of(alloc, note.message.as_str())?;
    let mut members = Map::new(alloc);
    put(&mut members, alloc, "physicalLocation", physical)?;
    put(&mut members, alloc, "message", told)?;
    Ok(Value::Object(members))
}

/// The document that has these results.
pub(crate) fn document_of(alloc: Global, results: Vec<Value>) -> Result<Value, AllocError>
    ensures { IfOk result (λ v. view v ≡ meant.document_value (map (λ r. view r) results.items)) }
{
    let run = run_of(alloc, results)?;
    let mut runs = Vec::new(alloc);
    runs.push(run)?;
    let schema = text_of(alloc, "https://json.schemastore.org/sarif-2.1.0.json")?;
    let version = text_of(alloc, "2.1.0")?;
    let mut members = Map::new(alloc);
    put(&mut members, alloc, "$schema", schema)?;
    put(&mut members, alloc, "version", version)?;
    put(&mut members, alloc, "runs", Value::Array(runs))?;
    Ok(Value::Object(members))
}

/// The run of the program that has these results. Columns count characters.
fn run_of(alloc: Global, results: Vec<Value>) -> Result<Value, AllocError>
    ensures { IfOk result (λ v. view v ≡ meant.run_value (map (λ r. view r) results.items)) }
{
    let driver = driver_of(alloc)?;
    let tool = only(alloc, "driver", driver)?;
    let columns = text_of(alloc, "unicodeCodePoints")?;
    let mut members = Map::new(alloc);
    put(&mut members, alloc, "tool", tool)?;
    put(&mut members, alloc, "columnKind", columns)?;
    put(&mut members, alloc, "results", Value::Array(results))?;
    Ok(Value::Object(members))
}

/// The program, with its rules.
fn driver_of(alloc: Global) -> Result<Value, AllocError>
    ensures { IfOk result (λ v. view v ≡ meant.driver_value) }
{
    let kinds = [
        Code::Race,
        Code::Lifetime,
        Code::MoreRaces,
        Code::Outside,
        Code::OnlyRun,
        Code::AsIf,
        Code::Refused(425),
        Code::Refused(426),
        Code::Refused(427),
        Code::Refused(428),
        Code::Refused(429),
    ];
    let rules = rules_of(alloc, kinds.as_slice())?;
    let name = text_of(alloc, "omptask")?;
    let mut members = Map::new(alloc);
    put(&mut members, alloc, "name", name)?;
    put(&mut members, alloc, "rules", Value::Array(rules))?;
    Ok(Value::Object(members))
}

fn rules_of(alloc: Global, kinds: &[Code]) -> Result<Vec<Value>, AllocError>
    ensures { IfOk result (λ values. map (λ v. view v) values.items ≡ map meant.rule_value kinds.now) }
{
    let mut values = Vec::new(alloc);
    for kind in kinds {
        values.push(rule_of(alloc, *kind)?)?;
    }
    Ok(values)
}

/// A rule, and what it means.
fn rule_of(alloc: Global, kind: Code) -> Result<Value, AllocError>
    ensures { IfOk result (λ v. view v ≡ meant.rule_value kind) }
{
    let id = text_of(alloc, code_of(alloc, kind)?.as_str())?;
    let meaning = words_of(alloc, meaning_of(kind))?;
    let mut members = Map::new(alloc);
    put(&mut members, alloc, "id", id)?;
    put(&mut members, alloc, "shortDescription", meaning)?;
    Ok(Value::Object(members))
}

/// What a code means, in short.
fn meaning_of(code: Code) -> &'static str
    ensures { result.now ≡ meant.meaning_text code }
{
    match code {
        Code::Race => "Two touches of a cell race",
        Code::Lifetime => "A task may touch what has ended",
        Code::MoreRaces => "More races than are told",
        Code::Outside => "The file isn't judged",
        Code::OnlyRun => "Only the run with these numbers was judged",
        Code::AsIf => "What the verdict takes for granted",
        Code::Refused(_) => "omptaskd refuses the program",
        Code::Answered(_) => "omptaskd refuses the request",
        Code::Long => "The request has too many bytes",
        Code::Full => "The log has no room for the request",
    }
}
