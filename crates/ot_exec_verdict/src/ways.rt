//! Ways of a run, by the answers to what isn't known.
ghost use Rattle.std.specs.Prelude.{◌≡◌, ◌++◌, ◌∷◌, [], IfOk, None};
ghost use Rattle.ot_exec_verdict.specs.Findings.{Meets, IsFault, IsOldOr};

use crate::finding::{Met, Rest};
use crate::join::Other;
use crate::locked::{has_locks, locked_ways};
use ot_exec_code::Code;
use ot_exec_machine::{Fault, Limits, Reason, Ways, run_code};
use ot_exec_outline::{Told, race_of};
use ot_race_order::Order;
use std::alloc::{AllocError, Global};

/// How many questions are answered on one way, and how many ways are gone.
pub(crate) const QUESTIONS: u32 = 12;

pub(crate) const WAYS: u32 = 64;

/// Of code that asks: all its ways, unless there are too many. Each takes one from the budget.
pub(crate) fn ways_of(
    alloc: Global,
    code: &Code,
    limits: Limits,
    joined: Option<&Other>,
    budget: &mut u32,
) -> Result<Met, AllocError>
    ensures { IfOk result (Meets code.now limits) }
{
    if has_locks(code) {
        return locked_ways(alloc, code, limits, joined, budget);
    }
    let ways = Ways { code, limits };
    let none = Vec::new(alloc);
    match race_of(alloc, Order::OfC, &ways, QUESTIONS, budget, &none)? {
        Told::RacesOn(answers, race) => {
            let run = run_code(alloc, code, limits, &answers)?;
            Ok(Met::Races(run, race))
        }
        Told::RacesNowhere => {
            if let Some(fault) = first_limit(alloc, code, limits, joined)? {
                return Ok(Met::Fault(fault));
            }
            Ok(Met::Nothing(Rest::Ways))
        }
        Told::TooMany => Ok(Met::TooMany),
    }
}

/// The answers with one more.
pub(crate) fn with(alloc: Global, given: &[bool], next: bool) -> Result<Vec<bool>, AllocError>
    ensures { IfOk result (λ more. more.items ≡ given.now ++ next ∷ []) }
{
    let mut more = given.to_vec(alloc)?;
    more.push(next)?;
    Ok(more)
}

/// The next answers behind these, which begin with yes: the last yes becomes a no. There are none behind all no.
fn next(answers: &mut Vec<bool>) -> Result<bool, AllocError> {
    for _ in 0..answers.len() {
        match answers.pop() {
            Some(true) => {
                answers.push(false)?;
                return Ok(true);
            }
            Some(false) => {}
            None => return Ok(false),
        }
    }
    Ok(false)
}

/// What ends a way that isn't an error of the program: what the judge can't do, and what a body comes to that is joined with another. On a
/// way that asks nothing each fault does, and so it does where no way comes to its end.
fn first_limit(
    alloc: Global,
    code: &Code,
    limits: Limits,
    joined: Option<&Other>,
) -> Result<Option<Fault>, AllocError>
    ensures { IfOk result (IsFault code.now limits) }
{
    let mut answers = Vec::new(alloc);
    let mut last = None;
    let mut has_ended = false;
    for _ in 0..WAYS.saturating_mul(QUESTIONS) {
        let run = run_code(alloc, code, limits, &answers)?;
        if run.asked > answers.len() && answers.len() < QUESTIONS as usize {
            answers.push(true)?;
            continue;
        }
        if let Some(fault) = run.fault
            && is_limit(fault, joined)
        {
            return Ok(Some(fault));
        }
        has_ended = has_ended || run.fault.is_none();
        last = later_of(last, run.fault);
        if !next(&mut answers)? {
            return Ok(unless(has_ended, last));
        }
    }
    Ok(unless(has_ended, last))
}

/// The fault of a way, or of those before where it has none.
fn later_of(last: Option<Fault>, fault: Option<Fault>) -> Option<Fault>
    ensures { IsOldOr last fault result }
{
    match fault {
        Some(_) => fault,
        None => last,
    }
}

fn unless(has_ended: bool, last: Option<Fault>) -> Option<Fault>
    ensures { IsOldOr last None result }
{
    if has_ended { None } else { last }
}

/// Whether a fault ends the judging: one that isn't the program's own, or that every way has.
pub(crate) fn is_limit(fault: Fault, joined: Option<&Other>) -> bool {
    if fault.asked == 0 || !is_error(fault.reason) {
        return true;
    }
    match joined {
        Some(other) => other.is_joined(fault.at),
        None => false,
    }
}

/// Whether it is the program that errs, where this ends a run.
fn is_error(reason: Reason) -> bool {
    matches!(
        reason,
        Reason::Null | Reason::Outside | Reason::Ended | Reason::DivideByZero
    )
}

/// The form by which a run asks more than is answered, or else the last by which it asks.
pub(crate) fn asks_at(alloc: Global, code: &Code, limits: Limits) -> Result<usize, AllocError> {
    let none = Vec::new(alloc);
    let run = run_code(alloc, code, limits, &none)?;
    let most = run.asked.min(QUESTIONS as usize + 1);
    let mut few = 0u32;
    let mut many = limits.steps;
    for _ in 0..32 {
        if few >= many {
            break;
        }
        let half = few.saturating_add(many.saturating_sub(few) / 2);
        if asked_by(alloc, code, limits, half)? >= most {
            many = half;
        } else {
            few = half.saturating_add(1);
        }
    }
    let steps = many.saturating_sub(1);
    let run = run_code(alloc, code, Limits { steps, ..limits }, &none)?;
    Ok(match run.fault {
        Some(fault) => fault.at,
        None => 0,
    })
}

/// How many questions are asked in so many steps.
fn asked_by(alloc: Global, code: &Code, limits: Limits, steps: u32) -> Result<usize, AllocError> {
    let none = Vec::new(alloc);
    let run = run_code(alloc, code, Limits { steps, ..limits }, &none)?;
    Ok(run.asked)
}
