//! Faults on the ways of code.
ghost use Rattle.std.specs.Prelude.{◌≡◌, ◌++◌, ◌∷◌, [], ◌==◌, ℕ, Bool, None, IfOk, Ok, zero};
ghost use Rattle.ot_exec_outline.specs.Followed.{list_answer};
ghost use Rattle.ot_exec_outline.specs.Ways.{endings, Begins};
ghost use Rattle.ot_exec_machine.specs.Runs.{run_of, asked_in};
ghost use Rattle.ot_exec_machine.specs.Telling.{fault_of, found_in, met_on, met_in, None_met};
ghost use Rattle.ot_exec_machine.specs.declared.faults.Met.TheVariants.{NoFault};

use crate::run::run_code;
use crate::ways::Ways;
use ot_exec_state::Fault;
use std::alloc::{AllocError, Global};

/// What is met on ways.
#[derive(Debug, Drop)]
pub enum Met {
    NoFault,
    /// The first fault, on the way of these answers.
    FaultOn(Vec<bool>, Fault),
    /// There are too many ways, or too many questions on one.
    TooMany,
}

/// The first fault on a way that begins with the given answers, with ways and the budget as `ot_exec_outline::race_of` has them.
pub fn first_fault(
    alloc: Global,
    ways: &Ways<'_>,
    questions: u32,
    budget: &mut u32,
    given: &[bool],
) -> Result<Met, AllocError>
    ensures met { IfOk result (λ met. (found_in met, budget.new)
        ≡ met_in (λ p. fault_of (run_of ways.now.code.now ways.now.limits p)) (endings (λ p. asked_in (run_of ways.now.code.now ways.now.limits p)) questions given.now) budget.old) }
    ensures nowhere { result ≡ Ok NoFault → (answers : ℕ → Bool) → Begins given.now answers → fault_of (run_of ways.now.code.now ways.now.limits answers) ≡ None }
{
    let way = way_of(alloc, ways, given)?;
    if way.asked <= given.len() {
        if *budget == 0 {
            return Ok(Met::TooMany);
        }
        *budget -= 1;
        return met_alone(alloc, way.fault, given);
    }
    if questions == 0 {
        return Ok(Met::TooMany);
    }
    let one = with(alloc, given, true)?;
    match first_fault(alloc, ways, questions - 1, budget, &one)? {
        Met::NoFault => {
            let two = with(alloc, given, false)?;
            first_fault(alloc, ways, questions - 1, budget, &two)
        }
        met => Ok(met),
    }
}

/// How a way ends: by which fault, if by one, and behind how many questions.
#[derive(Clone, Copy)]
struct Outcome {
    fault: Option<Fault>,
    asked: usize,
}

fn way_of(alloc: Global, ways: &Ways<'_>, given: &[bool]) -> Result<Outcome, AllocError>
    ensures fault { IfOk result (λ way. way.fault ≡ fault_of (run_of ways.now.code.now ways.now.limits (list_answer given.now))) }
    ensures asked { IfOk result (λ way. way.asked ≡ asked_in (run_of ways.now.code.now ways.now.limits (list_answer given.now))) }
{
    let run = run_code(alloc, ways.code, ways.limits, given)?;
    Ok(Outcome {
        fault: run.fault,
        asked: run.asked,
    })
}

/// What is met on one way alone.
fn met_alone(alloc: Global, fault: Option<Fault>, given: &[bool]) -> Result<Met, AllocError>
    ensures { IfOk result (λ met. (left : ℕ) → (found_in met, left) ≡ met_on given.now fault left (None_met, left)) }
{
    match fault {
        Some(fault) => Ok(Met::FaultOn(given.to_vec(alloc)?, fault)),
        None => Ok(Met::NoFault),
    }
}

/// The answers with one more.
fn with(alloc: Global, given: &[bool], next: bool) -> Result<Vec<bool>, AllocError>
    ensures { IfOk result (λ more. more.items ≡ given.now ++ next ∷ []) }
{
    let mut more = given.to_vec(alloc)?;
    more.push(next)?;
    Ok(more)
}
