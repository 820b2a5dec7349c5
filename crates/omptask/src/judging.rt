//! A text, judged, or written as lines.
ghost use Rattle.std.specs.Prelude.{◌≡◌, false, [], ◌∷◌, ◌++◌, map, if◌then◌else◌, IfOk, OnOk, flat_map};
ghost use Rattle.ot_file_diagnosis.specs.Summaries.{summary_text};
ghost use Rattle.std.specs.Io.KnownBytes.{Appends};
ghost use Rattle.serde_json.specs.View.{view};
ghost use Rattle.ot_model.specs.Programs.{arrays_of};
ghost use Rattle.ot_file_diagnosis.specs.DiagnosisView.{diagnosis_by};
ghost use Rattle.ot_file_judge.specs.Judging.{lines_of_file, with_end};
ghost use Rattle.omptask.specs.Faults.{outcome_of};
ghost use Rattle.omptask.specs.declared.ended.Ended.TheVariants.{Well};
ghost use Rattle.omptask.specs.Judged as meant;

use crate::ended::Ended;
use crate::fault::Fault;
use ot_c_judge::Verdict;
use ot_c_text::{Session, judge_text};
use ot_exec_check::judge_run;
use ot_exec_tokens::Whole;
use ot_file_diagnosis::{
    Code, Diagnosis, Format, Outcome, Remark, Severity, Source, put_document, put_found,
    put_summary, without_refusals,
};
use ot_file_judge::{JudgeFault, lines_of};
use ot_file_report::report_on;
use ot_model::ArrayShape;
use ot_session::{Sink, write_whole};
use serde_json::Value;
use std::alloc::{AllocError, Global};

/// What is found in a file, and how its judging ended.
#[derive(Drop)]
pub(crate) struct Judged {
    pub(crate) outcome: Outcome,
    pub(crate) found: Vec<Diagnosis>,
}

/// Writes the requests of a file, one a line.
pub(crate) fn write_lines<W: Sink>(alloc: Global, text: &[u8], to: &mut W) -> Result<Ended, Fault>
    ensures lines { OnOk result (Appends (W.draft to.old).held (W.draft to.new).held (flat_map with_end (lines_of_file text.now))) }
    ensures ended { IfOk result (λ ended. ended ≡ Well) }
{
    let Ok(lines) = lines_of(alloc, text) else {
        return Err(Fault::Memory);
    };
    write(to, lines.as_slice())?;
    Ok(Ended::Well)
}

/// Writes the session that runs a text in C, where there is one.
pub(crate) fn write_session<W: Sink>(session: &Session, to: &mut W) -> Result<Ended, Fault>
    ensures lines { OnOk result (Appends (W.draft to.old).held (W.draft to.new).held (meant.session_lines session.now)) }
    ensures ended { IfOk result (λ ended. ended ≡ meant.ended_with session.now) }
{
    let (lines, ended): (&[u8], Ended) = match session {
        Session::Lines(lines) => (lines.as_slice(), Ended::Well),
        Session::Outside(_) => (&[], Ended::Outside),
    };
    write(to, lines)?;
    Ok(ended)
}

/// Judges a text in C; where only its races are to be told, what a server refuses isn't kept. Where that is asked for it is executed,
/// behind definitions, with those of the files that it includes.
pub(crate) fn judge_c(
    alloc: Global,
    races_only: bool,
    executes: bool,
    defined: &[String],
    source: Source<'_>,
    whole: &Whole,
) -> Result<Judged, AllocError>
    ensures { IfOk result (λ judged. executes ≡ false → meant.JudgesC races_only source.entry.name.now source.entry.text.now judged) }
{
    if executes {
        return executed(alloc, races_only, defined, whole);
    }
    judge_as_it_stands(alloc, races_only, source, whole)
}

/// Judges a text in C to which nothing is added. It is executed where it means no program that can be judged.
fn judge_as_it_stands(
    alloc: Global,
    races_only: bool,
    source: Source<'_>,
    whole: &Whole,
) -> Result<Judged, AllocError>
    ensures { IfOk result (meant.JudgesC races_only source.entry.name.now source.entry.text.now) }
{
    match judge_text(alloc, source.name, source.text)? {
        Some(report) => Ok(Judged {
            outcome: outcome_of(report.verdict),
            found: kept_where(alloc, races_only, report.found)?,
        }),
        None => executed(alloc, races_only, &[], whole),
    }
}

/// What is told of a text that is executed.
fn executed(
    alloc: Global,
    races_only: bool,
    defined: &[String],
    whole: &Whole,
) -> Result<Judged, AllocError> {
    let told = judge_run(alloc, defined, whole)?;
    Ok(Judged {
        outcome: outcome_of_run(told.verdict),
        found: kept_where(alloc, races_only, told.found)?,
    })
}

/// How the judging of a text in C ended that is executed, by its verdict.
pub(crate) fn outcome_of_run(verdict: ot_exec_check::Verdict) -> Outcome {
    match verdict {
        ot_exec_check::Verdict::Clean => Outcome::Clean,
        ot_exec_check::Verdict::OnlyRun => Outcome::OnlyRun,
        ot_exec_check::Verdict::Races => Outcome::Races,
        ot_exec_check::Verdict::Outside => Outcome::Outside,
    }
}

fn kept_where(
    alloc: Global,
    races_only: bool,
    found: Vec<Diagnosis>,
) -> Result<Vec<Diagnosis>, AllocError>
    ensures { IfOk result (λ kept. map diagnosis_by kept.items ≡ meant.kept_where races_only (map diagnosis_by found.items)) }
{
    if races_only {
        without_refusals(alloc, found)
    } else {
        Ok(found)
    }
}

/// How the judging of a text in C ended that means a program, by its verdict.
fn outcome_of(verdict: Verdict) -> Outcome
    ensures { result ≡ outcome_of verdict }
{
    match verdict {
        Verdict::Clean => Outcome::Clean,
        Verdict::OnlyRun => Outcome::OnlyRun,
        Verdict::Races => Outcome::Races,
    }
}

/// Judges a file of requests, where these arrays are there before it.
pub(crate) fn judge_requests(
    alloc: Global,
    text: &[u8],
    arrays: &[ArrayShape],
) -> Result<Judged, Fault>
    ensures { IfOk result (meant.JudgesRequests text.now (arrays_of arrays.now)) }
{
    match report_on(alloc, text, arrays) {
        Ok(found) => Ok(Judged {
            outcome: outcome_after(found.as_slice()),
            found,
        }),
        Err(JudgeFault::Array(place)) => Err(Fault::BadDefinition(place)),
        Err(JudgeFault::Memory) => Err(Fault::Memory),
    }
}

/// How it ended where these requests are refused.
fn outcome_after(found: &[Diagnosis]) -> Outcome
    ensures { result ≡ meant.outcome_after (map diagnosis_by found.now) }
{
    match found {
        [] => Outcome::Taken,
        [_, ..] => Outcome::Refused,
    }
}

/// That a text has no lines, as it includes files.
pub(crate) fn without_lines(alloc: Global) -> Result<Session, AllocError>
    ensures { IfOk result meant.HasNoLines }
{
    let words = "it includes files that are there: it is executed, and has no lines";
    Ok(Session::Outside(of_file(alloc, words)?))
}

/// What is told of a text in C++.
pub(crate) fn judge_cpp(alloc: Global) -> Result<Judged, AllocError>
    ensures found { IfOk result (λ judged. map diagnosis_by judged.found.items ≡ meant.in_cpp ∷ []) }
    ensures outcome { IfOk result (λ judged. judged.outcome ≡ Outcome.Outside) }
{
    let mut found = Vec::new(alloc);
    found.push(in_cpp(alloc)?)?;
    Ok(Judged {
        outcome: Outcome::Outside,
        found,
    })
}

fn in_cpp(alloc: Global) -> Result<Diagnosis, AllocError>
    ensures { IfOk result (λ found. diagnosis_by found ≡ meant.in_cpp) }
{
    of_file(alloc, "this is C++, which isn't read")
}

/// That a whole file isn't judged, in these words.
fn of_file(alloc: Global, words: &str) -> Result<Diagnosis, AllocError>
    ensures { IfOk result (λ found. diagnosis_by found ≡ meant.whole_file words.now) }
{
    Ok(Diagnosis {
        severity: Severity::Error,
        code: Code::Outside,
        told: Remark {
            place: None,
            file: None,
            turns: Vec::new(alloc),
            message: String::from_str(alloc, words)?,
        },
        notes: Vec::new(alloc),
    })
}

/// Writes what was judged of a file.
pub(crate) fn tell<W: Sink>(
    alloc: Global,
    format: Format,
    source: Source<'_>,
    judged: &Judged,
    to: &mut W,
) -> Result<(), Fault>
    ensures { OnOk result (meant.TellsJudged format source.entry.name.now source.entry.text.now judged.now (W.draft to.old).held (W.draft to.new).held) }
{
    let mut out = Vec::new(alloc);
    match put_found(alloc, format, source, judged.found.as_slice(), &mut out) {
        Ok(()) => write(to, out.as_slice()),
        Err(_) => Err(Fault::Memory),
    }
}

/// Writes what is told at the end of all files.
pub(crate) fn tell_end<W: Sink>(
    alloc: Global,
    format: Format,
    quiet: bool,
    outcomes: &[Outcome],
    results: Vec<Value>,
    to: &mut W,
) -> Result<(), Fault>
    ensures { OnOk result (meant.TellsEnd format quiet outcomes.now (map (λ r. view r) results.items) (W.draft to.old).held (W.draft to.new).held) }
{
    match end_text(alloc, format, quiet, outcomes, results) {
        Ok(out) => write(to, out.as_slice()),
        Err(_) => Err(Fault::Memory),
    }
}

/// What is told at the end of all files.
fn end_text(
    alloc: Global,
    format: Format,
    quiet: bool,
    outcomes: &[Outcome],
    results: Vec<Value>,
) -> Result<Vec<u8>, AllocError>
    ensures { IfOk result (λ text. meant.PutsEnd format quiet outcomes.now (map (λ r. view r) results.items) [] text.items) }
{
    let mut out = Vec::new(alloc);
    match format {
        Format::Text(_) => put_summary_unless(alloc, quiet, outcomes, &mut out)?,
        Format::Sarif => put_sarif(alloc, results, &mut out)?,
        Format::Json | Format::Github => {}
    }
    Ok(out)
}

fn put_summary_unless(
    alloc: Global,
    quiet: bool,
    outcomes: &[Outcome],
    out: &mut Vec<u8>,
) -> Result<(), AllocError>
    ensures { OnOk result (out.new.items ≡ (if quiet then out.old.items else out.old.items ++ summary_text outcomes.now)) }
{
    if quiet {
        return Ok(());
    }
    put_summary(alloc, outcomes, out)
}

/// Writes the document of SARIF with these results.
fn put_sarif(alloc: Global, results: Vec<Value>, out: &mut Vec<u8>) -> Result<(), AllocError>
    ensures { OnOk result (meant.PutsDocument (map (λ r. view r) results.items) out.old.items out.new.items) }
{
    put_document(alloc, results, out)
}

/// Writes a text.
fn write<W: Sink>(to: &mut W, text: &[u8]) -> Result<(), Fault>
    ensures { OnOk result (Appends (W.draft to.old).held (W.draft to.new).held text.now) }
{
    match write_whole(to, text) {
        Ok(()) => Ok(()),
        Err(_) => Err(Fault::WriteFailed),
    }
}
