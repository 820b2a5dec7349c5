//! The other ways of code: those of other numbers in memory.
ghost use Rattle.std.specs.Prelude.{IfOk, Some};
ghost use Rattle.ot_exec_state.specs.declared.limits.Limits.{Limits};
ghost use Rattle.ot_exec_verdict.specs.Findings.{MeetsBeyond, MeetsOther};

use crate::finding::{Met, Others, Setting};
use crate::join::forgotten;
use crate::ways::{WAYS, ways_of};
use ot_exec_code::Code;
use ot_exec_flow::marks_of;
use ot_exec_machine::Limits;
use std::alloc::{AllocError, Global};

/// How often branches are split whose bodies can't be executed both.
const TRIES: usize = 8;

/// What is met where less is known.
pub(crate) fn others_of(
    alloc: Global,
    code: &Code,
    setting: Setting<'_>,
) -> Result<Others, AllocError>
    ensures { IfOk result (MeetsBeyond setting.entry.bounds.way) }
{
    let Some(marks) = marks_of(alloc, code, setting.parameters, setting.closed)? else {
        return Ok(Others::Unknown);
    };
    if !marks.iter().any(|is_marked| *is_marked) {
        return Ok(Others::Unmarked);
    }
    let mut split = vec![in alloc; false; code.forms.len()]?;
    let mut budget = WAYS;
    for _ in 0..TRIES {
        let met = other_ways(
            alloc,
            code,
            setting.bounds.way,
            &marks,
            &mut split,
            &mut budget,
        )?;
        if let Some(met) = met {
            return Ok(others_in(met));
        }
    }
    Ok(Others::Unknown)
}

/// What is met there.
fn others_in(met: Met) -> Others
    ensures { (l : Limits) → MeetsOther l (Some met) → MeetsBeyond l result }
{
    match met {
        Met::Nothing(_) => Others::Nothing,
        Met::Races(run, race) => Others::Races(run, race),
        Met::Changes(name) => Others::Changes(name),
        Met::Fault(_) | Met::TooMany | Met::Crowded => Others::Unknown,
    }
}

/// What is met on other ways, where these branches are split; none where one more has to be, which then is.
fn other_ways(
    alloc: Global,
    code: &Code,
    limits: Limits,
    marks: &[bool],
    split: &mut [bool],
    budget: &mut u32,
) -> Result<Option<Met>, AllocError>
    ensures { IfOk result (MeetsOther limits) }
{
    let Some(other) = forgotten(alloc, code, marks, split)? else {
        return Ok(Some(Met::TooMany));
    };
    let met = ways_of(alloc, &other.code, limits, Some(&other), budget)?;
    let Met::Fault(fault) = met else {
        return Ok(Some(met));
    };
    match other.joined_by(fault.at) {
        Some(branch) => {
            if let Some(place) = split.get_mut(branch) {
                *place = true;
            }
            Ok(None)
        }
        None if other.splits_loops(split) => Ok(None),
        None => Ok(Some(Met::TooMany)),
    }
}
