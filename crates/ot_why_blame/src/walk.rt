//! A walk through a body to a statement of it, with one task as a child that may be unawaited there.
ghost use Rattle.std.specs.Prelude.{◌≡◌, ◌==◌, ◌+◌, ◌<◌, ◌≤◌, ◌^◌, ◌⊎◌, IfOk, IfErr, List, Some, not, if◌then◌else◌};
ghost use Rattle.std.specs.Option.{option_or};
ghost use Rattle.ot_model.specs.Tree.{Task, Group, size, size_one};
ghost use Rattle.ot_model.specs.declared.expr.Cell.{Cell};
ghost use Rattle.ot_model.specs.declared.fold.Fold.{Fold};
ghost use Rattle.ot_check.specs.Offences.{awaits, PassesOne, Passes};
ghost use Rattle.ot_check.specs.Discipline.{through};
ghost use Rattle.ot_model.specs.View.{stmt_of, stmts_of};
ghost use Rattle.ot_why_blame.specs.Walk.{pending_of, only, pending_carried, met_statement, Carries, Arrives, ArrivesOne, Follows, FollowsAll, FollowsOne, FollowsInside};

use crate::child::Child;
use crate::through::{awaits, through};
use ot_model::{Decl, Stmt};

/// What a walk looks for.
#[derive(Clone, Copy, Debug)]
pub(crate) struct Search {
    /// The place of the statement to which it goes.
    pub(crate) place: u32,
    /// The place of the one task that it carries as a child.
    pub(crate) child: u32,
}

/// The statement to which a walk came, and a child that may be unawaited there.
#[derive(Clone, Copy, Debug)]
pub(crate) struct Arrived<'a> {
    pub(crate) stmt: &'a Stmt,
    pub(crate) child: Option<Child<'a>>,
}

/// What a walk carries behind a statement or a body: the next place, and a child that may be unawaited.
#[derive(Clone, Copy, Debug)]
pub(crate) struct Behind<'a> {
    pub(crate) next: u32,
    pub(crate) child: Option<Child<'a>>,
}

/// Walks a body whose first statement has this place, where this child may be unawaited before it.
#[cycle(walk)]
pub(crate) fn walk<'a>(
    body: &'a Vec<Stmt>,
    search: &Search,
    place: u32,
    child: Option<Child<'a>>,
) -> Result<Behind<'a>, Arrived<'a>>
    requires short { place + size (stmts_of body.now.items) < 2 ^ 32 }
    ensures place { IfOk result (λ behind. behind.next ≡ place + size (stmts_of body.now.items)) }
    ensures carries { IfOk result (λ behind. Carries (Passes place (stmts_of body.now.items)) (pending_of child.entry) (pending_of behind.child)) }
    ensures arrives { IfErr result (λ at. Arrives place (stmts_of body.now.items) (pending_of child.entry) search.now.place (stmt_of at.stmt.now) (pending_of at.child)) }
    ensures within { IfErr result (λ at. search.now.place + size_one (stmt_of at.stmt.now) ≤ place + size (stmts_of body.now.items)) }
    ensures follows { FollowsAll search.now (pending_of child.entry) place (stmts_of body.now.items) result }
{
    let mut behind = Behind { next: place, child };
    for stmt in body {
        match walk_one(stmt, search, behind.next, behind.child) {
            Ok(now) => behind = now,
            Err(arrived) => return Err(arrived),
        }
    }
    Ok(behind)
}

#[cycle(walk)]
fn walk_one<'a>(
    stmt: &'a Stmt,
    search: &Search,
    place: u32,
    child: Option<Child<'a>>,
) -> Result<Behind<'a>, Arrived<'a>>
    requires short { place + size_one (stmt_of stmt.now) < 2 ^ 32 }
    ensures place { IfOk result (λ behind. behind.next ≡ place + size_one (stmt_of stmt.now)) }
    ensures carries { IfOk result (λ behind. Carries (PassesOne place (stmt_of stmt.now)) (pending_of child.entry) (pending_of behind.child)) }
    ensures arrives { IfErr result (λ at. ArrivesOne place (stmt_of stmt.now) (pending_of child.entry) search.now.place (stmt_of at.stmt.now) (pending_of at.child)) }
    ensures within { IfErr result (λ at. search.now.place + size_one (stmt_of at.stmt.now) ≤ place + size_one (stmt_of stmt.now)) }
    ensures follows { FollowsOne search.now (pending_of child.entry) place (stmt_of stmt.now) result }
{
    if place == search.place {
        return Err(Arrived { stmt, child });
    }
    let next = place + 1;
    match stmt {
        Stmt::Set(_, _) | Stmt::Fold(_, _, _) => Ok(Behind { next, child }),
        Stmt::If(_, one, two) => match walk(one, search, next, child) {
            Ok(first) => walk_other(two, search, first, child),
            Err(arrived) => Err(arrived),
        },
        Stmt::Task(decl, body) => walk_task(decl, body, search, place, child),
        Stmt::Wait(wait) => Ok(Behind {
            next,
            child: passed(wait, child),
        }),
        Stmt::Group(_, _, body) => walk_group(body, search, place, child),
    }
}

/// The second body of an `if`. A child behind either may be unawaited behind both.
#[cycle(walk)]
fn walk_other<'a>(
    body: &'a Vec<Stmt>,
    search: &Search,
    first: Behind<'a>,
    child: Option<Child<'a>>,
) -> Result<Behind<'a>, Arrived<'a>>
    requires short { first.next + size (stmts_of body.now.items) < 2 ^ 32 }
    ensures place { IfOk result (λ behind. behind.next ≡ first.entry.next + size (stmts_of body.now.items)) }
    ensures carries { IfOk result (λ behind. (pending_of behind.child ≡ pending_of first.entry.child)
        ⊎ Carries (Passes first.entry.next (stmts_of body.now.items)) (pending_of child.entry) (pending_of behind.child)) }
    ensures arrives { IfErr result (λ at. Arrives first.entry.next (stmts_of body.now.items) (pending_of child.entry) search.now.place (stmt_of at.stmt.now) (pending_of at.child)) }
    ensures within { IfErr result (λ at. search.now.place + size_one (stmt_of at.stmt.now) ≤ first.entry.next + size (stmts_of body.now.items)) }
    ensures follows { Follows (option_or (pending_carried search.now.child (pending_of child.entry) first.entry.next (stmts_of body.now.items)) (pending_of first.entry.child))
        (met_statement search.now.place search.now.child (pending_of child.entry) first.entry.next (stmts_of body.now.items)) result }
{
    match walk(body, search, first.next, child) {
        Ok(second) => Ok(Behind {
            next: second.next,
            child: either(first.child, second.child),
        }),
        Err(arrived) => Err(arrived),
    }
}

/// The second child, or else the first.
fn either<'a>(first: Option<Child<'a>>, second: Option<Child<'a>>) -> Option<Child<'a>>
    ensures { pending_of result ≡ option_or (pending_of second.entry) (pending_of first.entry) }
{
    match second {
        Some(child) => Some(child),
        None => first,
    }
}

/// A task, whose body is entered with no child.
#[cycle(walk)]
fn walk_task<'a>(
    decl: &'a Decl,
    body: &'a Vec<Stmt>,
    search: &Search,
    place: u32,
    child: Option<Child<'a>>,
) -> Result<Behind<'a>, Arrived<'a>>
    requires short { place + 1 + size (stmts_of body.now.items) < 2 ^ 32 }
    ensures place { IfOk result (λ behind. behind.next ≡ place + (1 + size (stmts_of body.now.items))) }
    ensures carries { IfOk result (λ behind. Carries (PassesOne place (Task decl.now (stmts_of body.now.items))) (pending_of child.entry) (pending_of behind.child)) }
    ensures arrives { IfErr result (λ at. ArrivesOne place (Task decl.now (stmts_of body.now.items)) (pending_of child.entry) search.now.place (stmt_of at.stmt.now) (pending_of at.child)) }
    ensures within { IfErr result (λ at. search.now.place + size_one (stmt_of at.stmt.now) ≤ place + (1 + size (stmts_of body.now.items))) }
    ensures follows { FollowsInside search.now (pending_of child.entry) place (Task decl.now (stmts_of body.now.items)) result }
{
    match walk(body, search, place + 1, None) {
        Ok(inside) => Ok(Behind {
            next: inside.next,
            child: made(decl, search, place, child),
        }),
        Err(arrived) => Err(arrived),
    }
}

/// The child that a task is, where it is the one to carry, or else the one from before.
fn made<'a>(
    decl: &'a Decl,
    search: &Search,
    place: u32,
    child: Option<Child<'a>>,
) -> Option<Child<'a>>
    ensures { pending_of result ≡ (if place == search.now.child then Some (place, decl.now) else pending_of child.entry) }
{
    if place == search.child {
        Some(Child { place, decl })
    } else {
        child
    }
}

/// The body of a group. Its end awaits the children made in it.
#[cycle(walk)]
fn walk_group<'a>(
    body: &'a Vec<Stmt>,
    search: &Search,
    place: u32,
    child: Option<Child<'a>>,
) -> Result<Behind<'a>, Arrived<'a>>
    requires short { place + 1 + size (stmts_of body.now.items) < 2 ^ 32 }
    ensures place { IfOk result (λ behind. behind.next ≡ place + (1 + size (stmts_of body.now.items))) }
    ensures carries { (op : Fold) (cells : List Cell) → IfOk result (λ behind. Carries (PassesOne place (Group op cells (stmts_of body.now.items))) (pending_of child.entry) (pending_of behind.child)) }
    ensures arrives { (op : Fold) (cells : List Cell) → IfErr result (λ at. ArrivesOne place (Group op cells (stmts_of body.now.items)) (pending_of child.entry) search.now.place (stmt_of at.stmt.now) (pending_of at.child)) }
    ensures within { IfErr result (λ at. search.now.place + size_one (stmt_of at.stmt.now) ≤ place + (1 + size (stmts_of body.now.items))) }
    ensures follows { (op : Fold) (cells : List Cell) → FollowsInside search.now (pending_of child.entry) place (Group op cells (stmts_of body.now.items)) result }
{
    match walk(body, search, place + 1, child) {
        Ok(inside) => Ok(Behind {
            next: inside.next,
            child: kept(body, search, place + 1, child, inside.child),
        }),
        Err(arrived) => Err(arrived),
    }
}

/// The child from before a wait, where the wait doesn't await it.
fn passed<'a>(wait: &Option<Decl>, child: Option<Child<'a>>) -> Option<Child<'a>>
    ensures { pending_of result ≡ only (λ d. not (awaits wait.now d)) (pending_of child.entry) }
{
    match child {
        Some(one) if !awaits(wait, one.decl) => child,
        _ => None,
    }
}

/// The child from before a body whose first statement has this place, where some path of the body has no wait that awaits
/// it. A walk through the body came to its end with `inside`: where the task stands before the body, that tells already.
fn kept<'a>(
    body: &Vec<Stmt>,
    search: &Search,
    place: u32,
    child: Option<Child<'a>>,
    inside: Option<Child<'a>>,
) -> Option<Child<'a>>
    requires { pending_of inside ≡ pending_carried search.now.child (pending_of child) place (stmts_of body.now.items) }
    ensures { pending_of result ≡ only (λ d. through d (stmts_of body.now.items)) (pending_of child.entry) }
{
    if search.child < place {
        return inside;
    }
    match child {
        Some(one) if through(one.decl, body) => child,
        _ => None,
    }
}
