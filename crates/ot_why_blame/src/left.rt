//! The child that a task's body leaves unawaited.
ghost use Rattle.std.specs.Prelude.{◌≡◌, ℕ, ◌+◌, ◌<◌, ◌≤◌, ◌^◌, List, None, IfOk, IfSome, option_map};
ghost use Rattle.ot_model.specs.View.{stmt_of, stmts_of};
ghost use Rattle.ot_model.specs.Tree.{size};
ghost use Rattle.ot_check.specs.Offences.{Step, Passes, Offends};
ghost use Rattle.ot_check.specs.declared.fault.Offence.TheVariants.{EndsWithChildren};
ghost use Rattle.ot_why_blame.specs.Races.{IsPending, LeavesChild};
ghost use Rattle.ot_why_blame.specs.Walk.{pending_of, pending_carried, inside_of};

use crate::child::Child;
use crate::pending::tasks_pending;
use crate::race::statement_at;
use crate::walk::{Search, walk};
use crate::wanted::Wanted;
use ot_model::{Program, Stmt};
use std::alloc::{AllocError, Global};

/// A child that the task at a place of a program may leave: it is unawaited at the end of some path through
/// the task's body. It is None only where the task leaves none.
pub(crate) fn find_left<'a>(
    alloc: Global,
    program: &'a Program,
    place: u32,
) -> Result<Option<Child<'a>>, AllocError>
    ensures leaves { IfOk result (λ found. IfSome found (λ child. LeavesChild (stmts_of program.now.body.items) place child.place child.decl.now)) }
    ensures all { IfOk result (λ found. found ≡ None → Offends (stmts_of program.now.body.items) place EndsWithChildren → ⊥) }
{
    let Some(stmt) = statement_at(&program.body, place) else {
        return Ok(None);
    };
    match body_of(stmt) {
        Some(inside) => find_pending(alloc, inside, place + 1, program.statements + 1),
        None => Ok(None),
    }
}

/// The body of a task.
fn body_of<'a>(stmt: &'a Stmt) -> Option<&'a Vec<Stmt>>
    ensures { inside_of (stmt_of stmt.now) ≡ option_map (λ body. stmts_of body.now.items) result }
{
    match stmt {
        Stmt::Task(_, body) => Some(body),
        Stmt::Set(_, _)
        | Stmt::Fold(_, _, _)
        | Stmt::If(_, _, _)
        | Stmt::Wait(_)
        | Stmt::Group(_, _, _) => None,
    }
}

/// A child that is unawaited at the end of some path through a body whose first statement has this place, the
/// latest of them. The places of its statements are below `end`.
fn find_pending<'a>(
    alloc: Global,
    body: &'a Vec<Stmt>,
    place: u32,
    end: u32,
) -> Result<Option<Child<'a>>, AllocError>
    requires some { 0 < place }
    requires below { place + size (stmts_of body.now.items) ≤ end }
    ensures pending { IfOk result (λ found. IfSome found (λ child. (path : List Step) × Passes place (stmts_of body.now.items) path × IsPending path child.place child.decl.now)) }
    ensures all { IfOk result (λ found. found ≡ None → (task : ℕ) → pending_carried task None place (stmts_of body.now.items) ≡ None) }
{
    let mut tasks = tasks_pending(alloc, body, &Wanted::Each, place, 0)?;
    while let Some(task) = tasks.pop() {
        if let Some(child) = pending(body, place, task) {
            return Ok(Some(child));
        }
    }
    // The tasks above are only those for which it looks first.
    for other in place..end {
        if let Some(child) = pending(body, place, other) {
            return Ok(Some(child));
        }
    }
    Ok(None)
}

/// The task at a place, where it is unawaited at the end of some path through a body whose first statement has
/// this place.
fn pending<'a>(body: &'a Vec<Stmt>, place: u32, task: u32) -> Option<Child<'a>>
    requires some { 0 < place }
    requires short { place + size (stmts_of body.now.items) < 2 ^ 32 }
    ensures pending { IfSome result (λ child. (path : List Step) × Passes place (stmts_of body.now.items) path × IsPending path child.place child.decl.now) }
    ensures carried { pending_of result ≡ pending_carried task None place (stmts_of body.now.items) }
{
    // A walk to a place that no statement has goes through the whole body.
    let search = Search {
        place: 0,
        child: task,
    };
    match walk(body, &search, place, None) {
        Ok(behind) => behind.child,
        Err(_) => None,
    }
}
