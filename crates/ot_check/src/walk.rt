ghost use Rattle.std.specs.Prelude.{◌≡◌, ◌+◌, ◌≤◌, ◌<◌, ◌^◌, ◌||◌, IfOk, Some, true};
ghost use Rattle.std.specs.Option.{option_or};
ghost use Rattle.ot_model.specs.Tree.{Group, size, size_one};
ghost use Rattle.ot_model.specs.View.{stmt_of, stmts_of};
ghost use Rattle.ot_model.specs.Names.{NamedIn, OneNamedIn, AreInShape, AreDeclaredIn};
ghost use Rattle.ot_check.specs.Discipline.{anyone, behind, behind_one, nobody, nothing_open, through, through_one, with_group};
ghost use Rattle.ot_check.specs.walk.Walk.{ending_offence, first, first_one, first_within, offence_at};
ghost use Rattle.ot_check.specs.walk.States.{Leads, Whatever, lens_of, of_both, one_more};

use crate::fault::Offence;
use crate::standing::Standing;
use crate::statement::own_offence;
use ot_model::{Cell, Decl, Fold, Stmt};
use std::alloc::{AllocError, Global};

/// What a walk tells.
#[derive(Clone, Copy, Debug)]
pub(crate) struct Walked {
    /// The place behind what was walked.
    pub(crate) next: u32,
    /// The first offence in it, with its place.
    pub(crate) first: Option<(u32, Offence)>,
}

/// The first of two, of which the one stands before the other.
fn earlier(one: Option<(u32, Offence)>, other: Option<(u32, Offence)>) -> Option<(u32, Offence)>
    ensures { result ≡ option_or one other }
{
    match one {
        Some(told) => Some(told),
        None => other,
    }
}

/// An offence of the statement at this place.
fn at(place: u32, offence: Option<Offence>) -> Option<(u32, Offence)>
    ensures { result ≡ offence_at place offence }
{
    match offence {
        Some(offence) => Some((place, offence)),
        None => None,
    }
}

/// What is told of a task whose body ends so.
fn ended(left: bool) -> Option<Offence>
    ensures { result ≡ ending_offence left }
{
    if left {
        Some(Offence::EndsWithChildren)
    } else {
        None
    }
}

/// Walks a body whose first statement has this place. It goes on behind an offence, since a task's body
/// is left with children or without them all the same.
#[cycle(walk)]
pub(crate) fn walk(
    alloc: Global,
    body: &Vec<Stmt>,
    standing: &mut Standing,
    place: u32,
) -> Result<Walked, AllocError>
    requires named { NamedIn (lens_of standing.old) (stmts_of body.now.items) }
    requires counted { standing.old.tasks.passed ≤ place }
    requires short { place + size (stmts_of body.now.items) < 2 ^ 32 }
    ensures told { IfOk result (λ w. Whatever standing.old (λ own opened children. w.first ≡ first own opened children place (stmts_of body.now.items))) }
    ensures behind { IfOk result (λ _. Leads standing.old standing.new (λ children. behind children (stmts_of body.now.items)) (λ d. through d (stmts_of body.now.items))) }
    ensures lens { IfOk result (λ _. lens_of standing.new ≡ lens_of standing.old) }
    ensures counted { IfOk result (λ w. standing.new.tasks.passed + place ≤ standing.old.tasks.passed + w.next) }
    ensures place { IfOk result (λ w. w.next ≡ place + size (stmts_of body.now.items)) }
{
    let mut next = place;
    let mut told = None;
    for stmt in body {
        let one = walk_one(alloc, stmt, standing, next)?;
        told = earlier(told, one.first);
        next = one.next;
    }
    Ok(Walked { next, first: told })
}

#[cycle(walk)]
fn walk_one(
    alloc: Global,
    stmt: &Stmt,
    standing: &mut Standing,
    place: u32,
) -> Result<Walked, AllocError>
    requires named { OneNamedIn (lens_of standing.old) (stmt_of stmt.now) }
    requires counted { standing.old.tasks.passed ≤ place }
    requires short { place + size_one (stmt_of stmt.now) < 2 ^ 32 }
    ensures told { IfOk result (λ w. Whatever standing.old (λ own opened children. w.first ≡ first_one own opened children place (stmt_of stmt.now))) }
    ensures behind { IfOk result (λ _. Leads standing.old standing.new (λ children. behind_one children (stmt_of stmt.now)) (λ d. through_one d (stmt_of stmt.now))) }
    ensures lens { IfOk result (λ _. lens_of standing.new ≡ lens_of standing.old) }
    ensures counted { IfOk result (λ w. standing.new.tasks.passed + place ≤ standing.old.tasks.passed + w.next) }
    ensures place { IfOk result (λ w. w.next ≡ place + size_one (stmt_of stmt.now)) }
{
    let own = own_offence(stmt, &*standing);
    let within = walk_within(alloc, stmt, standing, place)?;
    Ok(Walked {
        next: within.next,
        first: earlier(at(place, own), within.first),
    })
}

/// A statement, of whose own offences only the children are told that a task's body leaves.
#[cycle(walk)]
fn walk_within(
    alloc: Global,
    stmt: &Stmt,
    standing: &mut Standing,
    place: u32,
) -> Result<Walked, AllocError>
    requires named { OneNamedIn (lens_of standing.old) (stmt_of stmt.now) }
    requires counted { standing.old.tasks.passed ≤ place }
    requires short { place + size_one (stmt_of stmt.now) < 2 ^ 32 }
    ensures told { IfOk result (λ w. Whatever standing.old (λ own opened children. w.first ≡ first_within own opened children place (stmt_of stmt.now))) }
    ensures behind { IfOk result (λ _. Leads standing.old standing.new (λ children. behind_one children (stmt_of stmt.now)) (λ d. through_one d (stmt_of stmt.now))) }
    ensures lens { IfOk result (λ _. lens_of standing.new ≡ lens_of standing.old) }
    ensures counted { IfOk result (λ w. standing.new.tasks.passed + place ≤ standing.old.tasks.passed + w.next) }
    ensures place { IfOk result (λ w. w.next ≡ place + size_one (stmt_of stmt.now)) }
{
    let next = place + 1;
    match stmt {
        Stmt::Set(_, _) | Stmt::Fold(_, _, _) => Ok(Walked { next, first: None }),
        Stmt::If(_, one, two) => {
            let before = standing.region.unawaited.copy(alloc)?;
            let first = walk(alloc, one, standing, next)?;
            let behind_first = standing.begin_other(before);
            let second = walk(alloc, two, standing, first.next)?;
            standing.end_other(&behind_first)?;
            Ok(Walked {
                next: second.next,
                first: earlier(first.first, second.first),
            })
        }
        Stmt::Task(decl, body) => walk_task(alloc, decl, body, standing, place),
        Stmt::Wait(wait) => {
            standing.await_children(wait);
            Ok(Walked { next, first: None })
        }
        Stmt::Group(op, cells, body) => walk_group(alloc, *op, cells, body, standing, next),
    }
}

/// The body of the task at this place, and whether it leaves children.
#[cycle(walk)]
fn walk_task(
    alloc: Global,
    decl: &Decl,
    body: &Vec<Stmt>,
    standing: &mut Standing,
    place: u32,
) -> Result<Walked, AllocError>
    requires declared { AreDeclaredIn (lens_of standing.old) decl.now }
    requires named { NamedIn (lens_of standing.old) (stmts_of body.now.items) }
    requires counted { standing.old.tasks.passed ≤ place }
    requires short { place + 1 + size (stmts_of body.now.items) < 2 ^ 32 }
    ensures told { IfOk result (λ w. Whatever standing.old (λ own opened children. w.first
        ≡ option_or (offence_at place (ending_offence (behind nobody (stmts_of body.now.items) anyone))) (first (Some decl.now) nothing_open nobody (place + 1) (stmts_of body.now.items)))) }
    ensures behind { IfOk result (λ _. Leads standing.old standing.new (λ children. one_more children decl.now) (λ d. true)) }
    ensures lens { IfOk result (λ _. lens_of standing.new ≡ lens_of standing.old) }
    ensures counted { IfOk result (λ w. standing.new.tasks.passed + place ≤ standing.old.tasks.passed + w.next) }
    ensures place { IfOk result (λ w. w.next ≡ place + 1 + size (stmts_of body.now.items)) }
{
    let outer = standing.begin_task(alloc, decl)?;
    let walked = walk(alloc, body, standing, place + 1)?;
    let left = standing.has_children();
    standing.end_task(alloc, outer, decl)?;
    Ok(Walked {
        next: walked.next,
        first: earlier(at(place, ended(left)), walked.first),
    })
}

/// The body of a group, from its place on. The group's end awaits the children made in it; those from
/// before stay unawaited where some path through it has no wait that awaits them.
#[cycle(walk)]
fn walk_group(
    alloc: Global,
    op: Fold,
    cells: &[Cell],
    body: &Vec<Stmt>,
    standing: &mut Standing,
    place: u32,
) -> Result<Walked, AllocError>
    requires grouped { AreInShape (lens_of standing.old) cells.now }
    requires named { NamedIn (lens_of standing.old) (stmts_of body.now.items) }
    requires counted { standing.old.tasks.passed ≤ place }
    requires short { place + size (stmts_of body.now.items) < 2 ^ 32 }
    ensures told { IfOk result (λ w. Whatever standing.old (λ own opened children. w.first ≡ first own (with_group opened op cells.now) children place (stmts_of body.now.items))) }
    ensures behind { IfOk result (λ _. Leads standing.old standing.new (λ children. behind_one children (Group op cells.now (stmts_of body.now.items))) (λ d. through d (stmts_of body.now.items))) }
    ensures lens { IfOk result (λ _. lens_of standing.new ≡ lens_of standing.old) }
    ensures counted { IfOk result (λ w. standing.new.tasks.passed + place ≤ standing.old.tasks.passed + w.next) }
    ensures place { IfOk result (λ w. w.next ≡ place + size (stmts_of body.now.items)) }
{
    let outside = standing.begin_group(alloc, op, cells)?;
    let walked = walk(alloc, body, standing, place)?;
    standing.end_group(outside);
    Ok(walked)
}
