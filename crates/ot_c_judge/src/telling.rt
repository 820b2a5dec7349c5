//! What is said of a C text.
ghost use Rattle.std.specs.Prelude.{◌≡◌, ◌++◌, [], ◌∷◌, map, IfOk, Some, None, string_bytes};
ghost use Rattle.ot_file_diagnosis.specs.DiagnosisView.{remark_by, diagnosis_by};
ghost use Rattle.ot_file_diagnosis.specs.Diagnoses.{place_in};
ghost use Rattle.ot_model.specs.Programs.{arrays_of};
ghost use Rattle.ot_c_judge.specs.SiteView.{site_by};
ghost use Rattle.ot_c_judge.specs.Reports as meant;

use crate::line::{cell_text, turns_of, turns_text};
use crate::source::Site;
use ot_check::Offence;
use ot_file_diagnosis::{Code, Diagnosis, Place, Remark, Severity, place_of};
use ot_model::{ArrayShape, Mode, Use};
use ot_race_all::More;
use std::alloc::{AllocError, Global};

/// A touch that races with another one, and what the two do with the cell.
pub(crate) fn here_told(
    alloc: Global,
    name: &str,
    cell: &str,
    here: &Site<'_>,
    one: &str,
    other: &Site<'_>,
    two: &str,
) -> Result<Remark, AllocError>
    ensures { IfOk result (λ told. remark_by told ≡ meant.here_told name.now cell.now (site_by here.now) one.now (site_by other.now) two.now) }
{
    let message = here_words(alloc, name, cell, here, one, other, two)?;
    at_site(alloc, here, message)
}

fn here_words(
    alloc: Global,
    name: &str,
    cell: &str,
    here: &Site<'_>,
    one: &str,
    other: &Site<'_>,
    two: &str,
) -> Result<String, AllocError>
    ensures { IfOk result (λ words. string_bytes words ≡ meant.here_words name.now cell.now (site_by here.now) one.now (site_by other.now) two.now) }
{
    let at = place_of(alloc, name, Some(other.place))?;
    let at = at.as_str();
    let turns = turns_text(alloc, here)?;
    let turns = turns.as_str();
    format!(in alloc; "{cell} is {one} here while it may be {two} at {at}{turns}")
}

/// Words about a site, with its turns.
fn at_site(alloc: Global, site: &Site<'_>, message: String) -> Result<Remark, AllocError>
    ensures { IfOk result (λ told. remark_by told ≡ meant.at_site (site_by site.now) (string_bytes message)) }
{
    Ok(Remark {
        place: Some(site.place),
        file: None,
        turns: turns_of(alloc, site)?,
        message,
    })
}

/// The other touch, with what is known of the two.
pub(crate) fn other_told(alloc: Global, other: &Site<'_>, known: &str) -> Result<Remark, AllocError>
    ensures { IfOk result (λ told. remark_by told ≡ meant.other_told (site_by other.now) known.now) }
{
    let turns = turns_text(alloc, other)?;
    let turns = turns.as_str();
    let message = format!(in alloc; "the other touch{turns}; {known}")?;
    at_site(alloc, other, message)
}

/// That only the run was judged.
pub(crate) fn only_run(alloc: Global) -> Result<Diagnosis, AllocError>
    ensures { IfOk result (λ found. diagnosis_by found ≡ meant.only_run) }
{
    let words = "only the run with these numbers was judged: there are too many paths";
    let message = String::from_str(alloc, words)?;
    Ok(of_file(alloc, Code::OnlyRun, message))
}

/// A note on the whole file.
fn of_file(alloc: Global, code: Code, message: String) -> Diagnosis
    ensures { diagnosis_by result ≡ meant.of_file code (string_bytes message) }
{
    Diagnosis {
        severity: Severity::Note,
        code,
        told: Remark {
            place: None,
            file: None,
            turns: Vec::new(alloc),
            message,
        },
        notes: Vec::new(alloc),
    }
}

/// How many races there are that aren't told, where there are some.
pub(crate) fn more_races(alloc: Global, more: More) -> Result<Vec<Diagnosis>, AllocError>
    ensures { IfOk result (λ found. map diagnosis_by found.items ≡ meant.more_found more) }
{
    let mut found = Vec::new(alloc);
    if is_none(more) {
        return Ok(found);
    }
    let words = more_words(alloc, more)?;
    found.push(of_file(alloc, Code::MoreRaces, words))?;
    Ok(found)
}

fn is_none(more: More) -> bool
    ensures { result ≡ meant.is_none more }
{
    match more {
        More::Exactly(count) => count == 0,
        More::AtLeast(_) => false,
    }
}

/// `3 more races`
fn more_words(alloc: Global, more: More) -> Result<String, AllocError>
    ensures { IfOk result (λ words. string_bytes words ≡ meant.more_words more) }
{
    match more {
        More::Exactly(1) => String::from_str(alloc, "1 more race"),
        More::Exactly(count) => format!(in alloc; "{count} more races"),
        More::AtLeast(count) => format!(in alloc; "at least {count} more races"),
    }
}

/// An offence of a program of whose races this is known.
pub(crate) fn refused(
    alloc: Global,
    site: &Site<'_>,
    known: &str,
    words: &str,
    code: u32,
) -> Result<Diagnosis, AllocError>
    ensures { IfOk result (λ found. diagnosis_by found ≡ meant.refusal_note (site_by site.now) known.now words.now code) }
{
    let message = refused_words(alloc, site, known, words)?;
    Ok(Diagnosis {
        severity: Severity::Note,
        code: Code::Refused(code),
        told: at_site(alloc, site, message)?,
        notes: Vec::new(alloc),
    })
}

fn refused_words(
    alloc: Global,
    site: &Site<'_>,
    known: &str,
    words: &str,
) -> Result<String, AllocError>
    ensures { IfOk result (λ told. string_bytes told ≡ meant.refused_words (site_by site.now) known.now words.now) }
{
    let turns = turns_text(alloc, site)?;
    let turns = turns.as_str();
    format!(in alloc; "{known}, but omptaskd refuses it: {words}{turns}")
}

/// What is to be done about an offence.
pub(crate) fn advice(
    alloc: Global,
    arrays: &[ArrayShape],
    offence: Offence,
    lacking: Option<Use>,
) -> Result<String, AllocError>
    ensures { IfOk result (λ words. string_bytes words ≡ meant.advice (arrays_of arrays.now) offence lacking) }
{
    match offence {
        Offence::NotDeclared => lack(alloc, "the task lacks ", arrays, lacking),
        Offence::ChildBeyond => lack(alloc, "the task around this one lacks ", arrays, lacking),
        Offence::ReductionMisuse => String::from_str(alloc, "a reduction is misused"),
        Offence::ConflictsWithChild => String::from_str(
            alloc,
            "a taskwait is missing before this, for a child that may use the same",
        ),
        Offence::EndsWithChildren => String::from_str(
            alloc,
            "a taskwait is missing at the end of the task, for a child of it",
        ),
    }
}

/// Who lacks a clause, and the clause.
fn lack(
    alloc: Global,
    who: &str,
    arrays: &[ArrayShape],
    lacking: Option<Use>,
) -> Result<String, AllocError>
    ensures { IfOk result (λ words. string_bytes words ≡ who.now ++ meant.lacking_clause (arrays_of arrays.now) lacking) }
{
    match lacking {
        Some(used) => {
            let cell = cell_text(alloc, arrays, used.cell)?;
            let cell = cell.as_str();
            let kind = kind_text(used.mode);
            format!(in alloc; "{who}depend({kind}: {cell})")
        }
        None => format!(in alloc; "{who}a clause"),
    }
}

/// The kind of a dependence that allows such a use.
fn kind_text(mode: Mode) -> &'static str
    ensures { result.now ≡ meant.kind_text mode }
{
    match mode {
        Mode::Reads => "in",
        Mode::Writes => "out",
        Mode::Folds(_) => "inout",
    }
}

/// That a text isn't judged, for this reason, at a place.
pub fn outside(alloc: Global, place: Place, reason: &str) -> Result<Diagnosis, AllocError>
    ensures { IfOk result (λ found. diagnosis_by found ≡ meant.outside_error place reason.now) }
{
    Ok(Diagnosis {
        severity: Severity::Error,
        code: Code::Outside,
        told: Remark {
            place: Some(place),
            file: None,
            turns: Vec::new(alloc),
            message: String::from_str(alloc, reason)?,
        },
        notes: Vec::new(alloc),
    })
}
