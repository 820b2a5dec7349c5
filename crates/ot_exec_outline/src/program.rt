//! The program of an outline.
ghost use Rattle.std.specs.Prelude.{◌≡◌, ◌<◌, MatchResult, IfOk, min};
ghost use Rattle.ot_model.specs.Programs.{expanded_of};
ghost use Rattle.ot_model.specs.Tree.{size, size_one, tasks_in, tasks_in_one};
ghost use Rattle.ot_model.specs.View.{stmt_of, stmts_of};
ghost use Rattle.ot_exec_outline.specs.Tree.{no_form, no_form_one, body_of_steps, statement_of};
ghost use Rattle.ot_exec_outline.specs.View.{step_of, steps_in};
ghost use Rattle.ot_exec_outline.specs.Programs.{IsProgram, TellsNoProgram};

use crate::step::Step;
use ot_model::{Program, Section, Stmt};
use std::alloc::{AllocError, Global};

/// Why an outline is no program.
#[derive(Debug, Drop)]
pub enum NoProgram {
    Memory,
    /// At this site stands the first step that the language has no form for.
    NoForm(u32),
    /// It has more than 20,000 statements.
    TooLarge,
}

/// One more than the statements that a program may have. They are counted up to here.
const MANY: u32 = 20_001;

/// The program of these steps that shows these sections, or why they are none.
pub fn program_of(
    alloc: Global,
    shows: Vec<Section>,
    steps: &Vec<Step>,
) -> Result<Program, NoProgram>
    ensures { MatchResult result (λ program. IsProgram shows.items (steps_in steps.now.items) (expanded_of program)) (λ fault. TellsNoProgram fault (steps_in steps.now.items)) }
{
    if let Some(site) = no_form_in(steps) {
        return Err(NoProgram::NoForm(site));
    }
    let statements = count_in(steps);
    if statements == MANY {
        return Err(NoProgram::TooLarge);
    }
    let tasks = tasks_in(steps);
    match body_of(alloc, steps) {
        Ok(body) => Ok(Program {
            shows,
            body,
            statements,
            tasks,
        }),
        Err(AllocError) => Err(NoProgram::Memory),
    }
}

/// The site of the first step that the language has no form for.
#[cycle(no_form)]
fn no_form_in(steps: &Vec<Step>) -> Option<u32>
    ensures { result ≡ no_form (steps_in steps.now.items) }
{
    for step in steps {
        if let Some(site) = no_form_one(step) {
            return Some(site);
        }
    }
    None
}

#[cycle(no_form)]
fn no_form_one(step: &Step) -> Option<u32>
    ensures { result ≡ no_form_one (step_of step.now) }
{
    match step {
        Step::Set(_, _, _) | Step::Fold(_, _, _, _) | Step::Wait(_, _) => None,
        Step::Touch(site, _) | Step::Choose(site, _, _, _) => Some(*site),
        Step::If(_, _, _, one, two) => match no_form_in(one) {
            Some(site) => Some(site),
            None => no_form_in(two),
        },
        Step::Task(_, _, body) | Step::Group(_, _, _, body) => no_form_in(body),
    }
}

/// The statements of the language that steps are.
#[cycle(body)]
#[tactic(auto, using(crate::proofs::StepLemmas::stmts_as))]
fn body_of(alloc: Global, steps: &[Step]) -> Result<Vec<Stmt>, AllocError>
    ensures { IfOk result (λ body. stmts_of body.items ≡ body_of_steps (steps_in steps.now)) }
{
    let mut body = Vec::with_capacity(alloc, steps.len())?;
    for step in steps {
        body.push(statement_of(alloc, step)?)?;
    }
    Ok(body)
}

#[cycle(body)]
fn statement_of(alloc: Global, step: &Step) -> Result<Stmt, AllocError>
    ensures { IfOk result (λ statement. stmt_of statement ≡ statement_of (step_of step.now)) }
{
    match step {
        Step::Set(_, cell, expr) => Ok(Stmt::Set(*cell, expr.copy(alloc)?)),
        Step::Fold(_, op, cell, expr) => Ok(Stmt::Fold(*op, *cell, expr.copy(alloc)?)),
        Step::Touch(_, _) | Step::Choose(_, _, _, _) => Ok(Stmt::Wait(None)),
        Step::If(_, _, expr, one, two) => {
            let expr = expr.copy(alloc)?;
            let one = body_of(alloc, one)?;
            let two = body_of(alloc, two)?;
            Ok(Stmt::If(expr, one, two))
        }
        Step::Task(_, decl, body) => {
            let decl = decl.copy(alloc)?;
            Ok(Stmt::Task(decl, body_of(alloc, body)?))
        }
        Step::Wait(_, None) => Ok(Stmt::Wait(None)),
        Step::Wait(_, Some(decl)) => Ok(Stmt::Wait(Some(decl.copy(alloc)?))),
        Step::Group(_, op, cells, body) => {
            let cells = cells.as_slice().to_vec(alloc)?;
            Ok(Stmt::Group(*op, cells, body_of(alloc, body)?))
        }
    }
}

/// How many statements steps are, as far as they are counted.
#[cycle(count)]
fn count_in(steps: &Vec<Step>) -> u32
    ensures { result ≡ min (size (body_of_steps (steps_in steps.now.items))) 20001 }
{
    let mut count = 0;
    for step in steps {
        count = both(count, count_one(step));
    }
    count
}

#[cycle(count)]
fn count_one(step: &Step) -> u32
    ensures { result ≡ min (size_one (statement_of (step_of step.now))) 20001 }
{
    match step {
        Step::Set(_, _, _)
        | Step::Fold(_, _, _, _)
        | Step::Touch(_, _)
        | Step::Choose(_, _, _, _)
        | Step::Wait(_, _) => 1,
        Step::If(_, _, _, one, two) => both(both(1, count_in(one)), count_in(two)),
        Step::Task(_, _, body) | Step::Group(_, _, _, body) => both(1, count_in(body)),
    }
}

/// How many task statements.
#[cycle(tasks)]
fn tasks_in(steps: &Vec<Step>) -> u32
    ensures { result ≡ min (tasks_in (body_of_steps (steps_in steps.now.items))) 20001 }
{
    let mut count = 0;
    for step in steps {
        count = both(count, tasks_one(step));
    }
    count
}

#[cycle(tasks)]
fn tasks_one(step: &Step) -> u32
    ensures { result ≡ min (tasks_in_one (statement_of (step_of step.now))) 20001 }
{
    match step {
        Step::Set(_, _, _)
        | Step::Fold(_, _, _, _)
        | Step::Touch(_, _)
        | Step::Choose(_, _, _, _)
        | Step::Wait(_, _) => 0,
        Step::If(_, _, _, one, two) => both(tasks_in(one), tasks_in(two)),
        Step::Task(_, _, body) => both(1, tasks_in(body)),
        Step::Group(_, _, _, body) => tasks_in(body),
    }
}

ghost use Rattle.std.specs.Prelude.{◌≤◌, ◌+◌};

/// So many and so many.
fn both(one: u32, other: u32) -> u32
    requires one { one ≤ 20001 }
    requires other { other ≤ 20001 }
    ensures { result ≡ min (one + other) 20001 }
{
    if one + other < MANY {
        one + other
    } else {
        MANY
    }
}
