//! A file, judged, and what is told of it.
ghost use Rattle.std.specs.Prelude.{◌≡◌, ◌≤◌, [], ◌∷◌, ◌++◌, List, Ok, IfOk, OnOk, length, map};
ghost use Rattle.ot_file_diagnosis.specs.DiagnosisView.{remark_by, diagnosis_by};
ghost use Rattle.ot_file_text.specs.Comments.{comments_blanked};
ghost use Rattle.ot_store.specs.Arrays.{Named};
ghost use Rattle.ot_model.specs.Programs.{arrays_of};
ghost use Rattle.ot_file_judge.specs.Judging.{Refusal, IsBookBehind, IsSeen, refusals_in, finds, arrays_made, Goes};
ghost use Rattle.ot_file_report.specs.Report.{Reports, IsTold, refusal_at};

use crate::notes::{notes_of, placed};
use crate::words::{kind_of, words_of};
use ot_file_diagnosis::{Diagnosis, Remark, Severity};
use ot_file_judge::{Finding, Findings, JudgeFault};
use ot_file_text::blanked;
use ot_model::ArrayShape;
use std::alloc::{AllocError, Global};

/// Judges the requests of a file one after another, as a session of a tenant that begins with these arrays does, but runs no
/// program, and tells which are refused, and where in the file.
pub fn report_on(
    alloc: Global,
    text: &[u8],
    arrays: &[ArrayShape],
) -> Result<Vec<Diagnosis>, JudgeFault>
    ensures { IfOk result (λ found. (now : List Named) × (arrays_made [] (arrays_of arrays.now) ≡ Ok now)
        × Reports (comments_blanked text.now) (refusals_in (finds now) (comments_blanked text.now)) (map diagnosis_by found.items)) }
{
    let blank = blanked(alloc, text)?;
    let mut findings = Findings::new(alloc, blank.as_slice(), arrays)?;
    report_all(alloc, &mut findings)
}

/// Tells the refusals that are still to come.
fn report_all(alloc: Global, findings: &mut Findings<'_>) -> Result<Vec<Diagnosis>, JudgeFault>
    ensures { (all : List Refusal) → Goes all findings.old → IfOk result (λ found. Reports findings.old.blank all (map diagnosis_by found.items)) }
{
    let mut found = Vec::new(alloc);
    while let Some(finding) = findings.next(alloc)? {
        put(&mut found, told_of(alloc, findings, &finding)?)?;
        // (it is let go by a call, as the loop would else have a path for each kind of value)
        drop(finding);
    }
    Ok(found)
}

fn put(found: &mut Vec<Diagnosis>, one: Diagnosis) -> Result<(), AllocError>
    ensures { OnOk result (map diagnosis_by found.new.items ≡ map diagnosis_by found.old.items ++ diagnosis_by one ∷ []) }
{
    found.push(one)?;
    Ok(())
}

/// What is told of a refusal, which is what the book of the findings told last.
fn told_of(
    alloc: Global,
    findings: &mut Findings<'_>,
    finding: &Finding,
) -> Result<Diagnosis, AllocError>
    requires { (finding.now.start ≤ finding.now.end) × (finding.now.end ≤ length findings.old.blank) }
    ensures told { IfOk result (λ found. (one : Refusal) → IsBookBehind one findings.old.book → IsSeen one finding.now → IsTold findings.old.blank one finding.now.place (diagnosis_by found)) }
    ensures same { findings.new ≡ findings.old }
{
    let notes = notes_of(alloc, findings.book(), finding)?;
    let remarks = placed(alloc, findings, finding, notes)?;
    refused(alloc, finding, remarks)
}

/// A refusal, with these notes.
fn refused(alloc: Global, finding: &Finding, notes: Vec<Remark>) -> Result<Diagnosis, AllocError>
    ensures { IfOk result (λ found. diagnosis_by found ≡ refusal_at finding.now.place finding.now.is_long finding.now.code (map remark_by notes.items)) }
{
    let message = words_of(alloc, finding)?;
    Ok(Diagnosis {
        severity: Severity::Error,
        code: kind_of(finding),
        told: Remark {
            place: Some(finding.place),
            file: None,
            turns: Vec::new(alloc),
            message,
        },
        notes,
    })
}
