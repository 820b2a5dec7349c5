//! The child with which a statement conflicts.
ghost use Rattle.std.specs.Prelude.{◌≡◌, ◌+◌, ◌<◌, ◌≤◌, ◌^◌, None, Some, IfOk, IfSome, MatchOption, true, false};
ghost use Rattle.std.specs.List.{list_any};
ghost use Rattle.ot_model.specs.View.{stmt_of, stmts_of};
ghost use Rattle.ot_model.specs.Tree.{size, size_one};
ghost use Rattle.ot_check.specs.Offences.{Offends, clashes};
ghost use Rattle.ot_check.specs.declared.fault.Offence.TheVariants.{ConflictsWithChild};
ghost use Rattle.ot_why_blame.specs.Races.{IsAt, Races, conflicts_at, uses_of};
ghost use Rattle.ot_why_blame.specs.Walk.{Pending, met_statement, IsSpared};

use crate::child::Child;
use crate::pending::tasks_pending;
use crate::touch::uses_against;
use crate::walk::{Search, walk};
use crate::wanted::Wanted;
use ot_model::{Cell, Decl, Program, Stmt};
use std::alloc::{AllocError, Global};

/// A statement, a child that may be unawaited there, and a cell at which they conflict.
#[derive(Clone, Copy, Debug)]
pub(crate) struct Race<'a> {
    pub(crate) stmt: &'a Stmt,
    pub(crate) child: Child<'a>,
    pub(crate) cell: Cell,
}

/// The statement at a place of a program.
pub(crate) fn statement_at<'a>(body: &'a Vec<Stmt>, place: u32) -> Option<&'a Stmt>
    requires short { 1 + size (stmts_of body.now.items) < 2 ^ 32 }
    ensures stands { IfSome result (λ stmt. IsAt place (stmt_of stmt.now) (stmts_of body.now.items)) }
    ensures within { IfSome result (λ stmt. place + size_one (stmt_of stmt.now) ≤ 1 + size (stmts_of body.now.items)) }
    ensures met { MatchOption result (met_statement place 0 None 1 (stmts_of body.now.items) ≡ None)
        (λ stmt. (child : Pending) × (met_statement place 0 None 1 (stmts_of body.now.items) ≡ Some (stmt_of stmt.now, child))) }
{
    // No statement has the place 0, so the walk carries no child.
    let search = Search { place, child: 0 };
    match walk(body, &search, 1, None) {
        Ok(_) => None,
        Err(arrived) => Some(arrived.stmt),
    }
}

/// A child with which the statement at a place of a program conflicts, the latest of them. One walk tells which of those
/// that are wanted may be unawaited there, and one for each of these shows that it is. It is None only where the statement
/// conflicts with no child: what isn't told is looked for too.
pub(crate) fn find_race<'a>(
    alloc: Global,
    program: &'a Program,
    place: u32,
    wanted: &Wanted,
) -> Result<Option<Race<'a>>, AllocError>
    ensures races { IfOk result (λ found. IfSome found (λ race. Races (stmts_of program.now.body.items) place (stmt_of race.stmt.now) race.child.place race.child.decl.now race.cell)) }
    ensures all { IfOk result (λ found. found ≡ None → Offends (stmts_of program.now.body.items) place ConflictsWithChild → ⊥) }
{
    let mut tasks = tasks_pending(alloc, &program.body, wanted, 1, place)?;
    while let Some(child) = tasks.pop() {
        if let Some(race) = race_with(&program.body, Search { place, child }) {
            return Ok(Some(race));
        }
    }
    // The tasks above are only those for which it looks first.
    for other in 1..place {
        let search = Search {
            place,
            child: other,
        };
        if let Some(race) = race_with(&program.body, search) {
            return Ok(Some(race));
        }
    }
    Ok(None)
}

/// The child that a walk carries to the statement to which it goes, where the two conflict.
fn race_with<'a>(body: &'a Vec<Stmt>, search: Search) -> Option<Race<'a>>
    requires short { 1 + size (stmts_of body.now.items) < 2 ^ 32 }
    ensures races { IfSome result (λ race. Races (stmts_of body.now.items) search.place (stmt_of race.stmt.now) race.child.place race.child.decl.now race.cell) }
    ensures all { result ≡ None → IsSpared search.place search.child (stmts_of body.now.items) }
{
    let arrived = match walk(body, &search, 1, None) {
        Ok(_) => return None,
        Err(arrived) => arrived,
    };
    match arrived.child {
        None => None,
        Some(child) => match conflict(arrived.stmt, child.decl) {
            None => None,
            Some(cell) => Some(Race {
                stmt: arrived.stmt,
                child,
                cell,
            }),
        },
    }
}

/// A cell that the statement uses in conflict with what a child declares.
fn conflict(stmt: &Stmt, decl: &Decl) -> Option<Cell>
    ensures { MatchOption result (list_any (λ u. clashes u decl.now) (uses_of (stmt_of stmt.now)) ≡ false)
        (λ cell. conflicts_at cell (stmt_of stmt.now) decl.now ≡ true) }
{
    for used in decl.uses() {
        if uses_against(used.mode, used.cell, stmt) {
            return Some(used.cell);
        }
    }
    None
}
