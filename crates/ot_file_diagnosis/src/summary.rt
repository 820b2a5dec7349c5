//! How many files ended how, in one line.
ghost use Rattle.std.specs.Prelude.{◌≡◌, ◌≤◌, ◌++◌, ◌∷◌, List, false, count_by, length, IfOk, OnOk};
ghost use Rattle.ot_file_diagnosis.specs.Summaries as meant;

use std::alloc::{AllocError, Global};

/// How the judging of a file ended.
#[derive(Clone, Copy, Debug, PartialEq, Eq)]
pub enum Outcome {
    /// Touches race.
    Races,
    /// Requests are refused.
    Refused,
    /// It isn't judged.
    Outside,
    /// Its run has no race, and of its other ways nothing is known.
    OnlyRun,
    /// It has no race.
    Clean,
    /// Each request is accepted.
    Taken,
}

/// Writes how many files ended how: `3 files: 1 races, 1 isn't judged, 1 has no race`.
pub fn put_summary(alloc: Global, outcomes: &[Outcome], out: &mut Vec<u8>) -> Result<(), AllocError>
    ensures { OnOk result (out.new.items ≡ out.old.items ++ meant.summary_text outcomes.now) }
{
    let count = outcomes.len();
    let files = if count == 1 { "file" } else { "files" };
    let text = format!(in alloc; "{count} {files}")?;
    out.extend_from_slice(text.as_bytes())?;
    let kinds = [
        Outcome::Races,
        Outcome::Refused,
        Outcome::Outside,
        Outcome::OnlyRun,
        Outcome::Clean,
        Outcome::Taken,
    ];
    put_parts(alloc, outcomes, kinds.as_slice(), out)?;
    out.push(b'\n')?;
    Ok(())
}

/// Writes of each of these kinds how many files there are, where there are some.
fn put_parts(
    alloc: Global,
    outcomes: &[Outcome],
    kinds: &[Outcome],
    out: &mut Vec<u8>,
) -> Result<(), AllocError>
    ensures { OnOk result (out.new.items ≡ out.old.items ++ meant.parts_text outcomes.now false kinds.now) }
{
    let mut later = false;
    for kind in kinds {
        later = put_kind(alloc, outcomes, later, *kind, out)?;
    }
    Ok(())
}

/// Writes of one kind how many files there are, where there are some, and tells whether something stands before the next one.
fn put_kind(
    alloc: Global,
    outcomes: &[Outcome],
    later: bool,
    kind: Outcome,
    out: &mut Vec<u8>,
) -> Result<bool, AllocError>
    ensures { IfOk result (λ now. (others : List Outcome) → out.new.items ++ meant.parts_text outcomes.now now others ≡ out.old.items ++ meant.parts_text outcomes.now later (kind ∷ others)) }
{
    let count = count_of(outcomes, kind);
    if count == 0 {
        return Ok(later);
    }
    put_part(alloc, later, count, kind, out)?;
    Ok(true)
}

/// `, 2 race`, where something stands before, else `: 2 race`.

fn put_part(
    alloc: Global,
    later: bool,
    count: usize,
    kind: Outcome,
    out: &mut Vec<u8>,
) -> Result<(), AllocError>
    ensures { OnOk result (out.new.items ≡ out.old.items ++ meant.part_text later count kind) }
{
    let lead = if later { ", " } else { ": " };
    let are = phrase(kind, count == 1);
    let text = format!(in alloc; "{lead}{count} {are}")?;
    out.extend_from_slice(text.as_bytes())?;
    Ok(())
}

/// How many are of this kind.
fn count_of(outcomes: &[Outcome], kind: Outcome) -> usize
    ensures is { result ≡ count_by (meant.is_same kind) outcomes.now }
    ensures within { result ≤ length outcomes.now }
{
    let mut count = 0;
    for outcome in outcomes {
        if *outcome == kind {
            count += 1;
        }
    }
    count
}

/// What is said of one file, or of several.
fn phrase(kind: Outcome, is_one: bool) -> &'static str
    ensures { result.now ≡ meant.phrase kind is_one }
{
    match (kind, is_one) {
        (Outcome::Races, true) => "races",
        (Outcome::Races, false) => "race",
        (Outcome::Refused, true) => "has refused requests",
        (Outcome::Refused, false) => "have refused requests",
        (Outcome::Outside, true) => "isn't judged",
        (Outcome::Outside, false) => "aren't judged",
        (Outcome::OnlyRun, true) => "has no race in its run",
        (Outcome::OnlyRun, false) => "have no race in their runs",
        (Outcome::Clean, true) => "has no race",
        (Outcome::Clean, false) => "have no race",
        (Outcome::Taken, true) => "is accepted",
        (Outcome::Taken, false) => "are accepted",
    }
}
