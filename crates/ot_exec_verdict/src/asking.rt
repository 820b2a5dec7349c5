//! Code whose run asks, and code of which less is known.
ghost use Rattle.std.specs.Prelude.{IfOk};
ghost use Rattle.ot_exec_verdict.specs.Findings.{Rests, ComesToFinding};

use crate::finding::{Finding, Met, Others, Outcome, Rest, Setting};
use crate::others::others_of;
use crate::ways::{WAYS, asks_at, ways_of};
use ot_exec_code::Code;
use std::alloc::{AllocError, Global};

/// What is found in code whose run asks: on its ways. Where they are too many it isn't judged, unless it is with less that is known.
pub(crate) fn found_asking(
    alloc: Global,
    code: &Code,
    setting: Setting<'_>,
) -> Result<Outcome, AllocError>
    ensures { IfOk result (ComesToFinding code.now setting.entry.bounds) }
{
    let mut budget = WAYS;
    match ways_of(alloc, code, setting.bounds.way, None, &mut budget)? {
        Met::Nothing(rest) => found_beyond(alloc, code, setting, rest),
        Met::Races(run, race) => Ok(Outcome::Found(Finding::OnWay(run, race))),
        Met::Fault(fault) => Ok(Outcome::Found(Finding::Ended(fault))),
        Met::TooMany => found_with_less(alloc, code, setting),
        Met::Crowded => Ok(Outcome::Found(Finding::Crowded)),
        Met::Changes(name) => Ok(Outcome::Changes(name)),
    }
}

/// What is found of other numbers in memory, where nothing races, as this says.
pub(crate) fn found_beyond(
    alloc: Global,
    code: &Code,
    setting: Setting<'_>,
    rest: Rest,
) -> Result<Outcome, AllocError>
    requires { Rests code.now setting.bounds rest }
    ensures { IfOk result (ComesToFinding code.now setting.entry.bounds) }
{
    Ok(match others_of(alloc, code, setting)? {
        Others::Unmarked | Others::Nothing => Outcome::Found(Finding::Nothing(rest)),
        Others::Unknown => Outcome::Found(Finding::OnlyRun(rest)),
        Others::Races(run, race) => Outcome::Found(Finding::OnOtherWay(run, race)),
        Others::Changes(name) => Outcome::Changes(name),
    })
}

/// The same where there are too many ways.
fn found_with_less(alloc: Global, code: &Code, setting: Setting<'_>) -> Result<Outcome, AllocError>
    ensures { IfOk result (ComesToFinding code.now setting.entry.bounds) }
{
    let at = asks_at(alloc, code, setting.bounds.way)?;
    Ok(match others_of(alloc, code, setting)? {
        Others::Unmarked | Others::Unknown => Outcome::Found(Finding::TooManyWays(at)),
        Others::Nothing => Outcome::Found(Finding::Nothing(Rest::Less)),
        Others::Races(run, race) => Outcome::Found(Finding::OnOtherWay(run, race)),
        Others::Changes(name) => Outcome::Changes(name),
    })
}
