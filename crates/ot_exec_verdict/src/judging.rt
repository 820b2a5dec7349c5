//! Code, executed and judged.
ghost use Rattle.std.specs.Prelude.{◌<◌, ◌^◌, [], length, IfOk, OnOk};
ghost use Rattle.ot_exec_machine.specs.Runs.{TellsEvents};
ghost use Rattle.ot_exec_verdict.specs.Findings.{run_by, SaysMore, Finds, ComesToFinding, IsNamed, IsAlone};

use crate::asking::{found_asking, found_beyond};
use crate::finding::{Bounds, Finding, Outcome, Rest, Setting};
use crate::locked::changes;
use crate::running::found_alone;
use ot_exec_code::Code;
use ot_exec_machine::{Limits, Run, run_code};
use std::alloc::{AllocError, Global};

/// How many objects the run writes under locks at most, by their names, and how often one more is found on its ways.
const CHANGING: usize = 32;

const LATE: usize = 8;

/// Executes code and judges what its tasks touch, as C orders them. What is written under locks is put into its `changing`. It is told of
/// each function how many parameters it has, and by the name of an object whether nothing but the code writes it.
pub fn finding_of(
    alloc: Global,
    code: &mut Code,
    bounds: Bounds,
    parameters: &[u32],
    closed: &[bool],
) -> Result<Finding, AllocError>
    ensures code { OnOk result (SaysMore code.old code.new) }
    ensures found { IfOk result (Finds code.new bounds) }
{
    let setting = Setting {
        bounds,
        parameters,
        closed,
    };
    for _ in 0..LATE {
        let Some(run) = named_run(alloc, code, bounds.run)? else {
            return Ok(Finding::TooManyChanges);
        };
        match found_once(alloc, code, setting, run)? {
            Outcome::Found(finding) => return Ok(finding),
            Outcome::Changes(name) => code.changing.push(name)?,
        }
    }
    Ok(Finding::TooManyChanges)
}

/// The run, of which the code says what it writes under locks; none where that is too much.
fn named_run(alloc: Global, code: &mut Code, limits: Limits) -> Result<Option<Run>, AllocError>
    ensures code { OnOk result (SaysMore code.old code.new) }
    ensures run { IfOk result (IsNamed code.new limits) }
{
    let none = Vec::new(alloc);
    for _ in 0..=CHANGING {
        let run = run_code(alloc, code, limits, &none)?;
        match changes(run.fault) {
            Some(name) => code.changing.push(name)?,
            None => return Ok(Some(run)),
        }
    }
    Ok(None)
}

/// What is found in code of which this is the run.
fn found_once(
    alloc: Global,
    code: &Code,
    setting: Setting<'_>,
    run: Run,
) -> Result<Outcome, AllocError>
    requires is { TellsEvents run (run_by code.now setting.bounds.run []) }
    requires few { length run.log.items < 2 ^ 32 }
    ensures { IfOk result (ComesToFinding code.now setting.entry.bounds) }
{
    if run.asked > 0 {
        return found_asking(alloc, code, setting);
    }
    match run.fault {
        Some(fault) => Ok(Outcome::Found(Finding::Ended(fault))),
        None => found_in_run(alloc, code, setting, run),
    }
}

/// The same where its run came to its end and asked nothing.
fn found_in_run(
    alloc: Global,
    code: &Code,
    setting: Setting<'_>,
    run: Run,
) -> Result<Outcome, AllocError>
    requires alone { IsAlone code.now setting.bounds.run run }
    requires few { length run.log.items < 2 ^ 32 }
    ensures { IfOk result (ComesToFinding code.now setting.entry.bounds) }
{
    match found_alone(alloc, run)? {
        Finding::Nothing(_) => found_beyond(alloc, code, setting, Rest::Run),
        found => Ok(Outcome::Found(found)),
    }
}
