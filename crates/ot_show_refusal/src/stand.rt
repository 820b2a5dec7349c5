//! The statements of a program, each where it stands.
ghost use Rattle.std.specs.Prelude.{◌≡◌, ◌+◌, ◌++◌, ◌<◌, ◌^◌, IfOk, OnOk, option_map};
ghost use Rattle.ot_model.specs.View.{stmt_of, stmts_of};
ghost use Rattle.ot_model.specs.Tree.{size, size_one};
ghost use Rattle.ot_show_refusal.specs.Stands.{standing_found, holder, is_task, stands, standings_within};
ghost use Rattle.ot_show_refusal.specs.StandView.{standing_of, standings_of};

use ot_model::{Program, Stmt};
use std::alloc::{AllocError, Global};

/// A statement where it stands.
#[derive(Clone, Copy, Debug)]
pub(crate) struct Stand<'a> {
    /// Its number, from 1, as replies count.
    pub(crate) place: u32,
    /// The number of the task in whose body it stands: 0 for the program.
    pub(crate) owner: u32,
    pub(crate) stmt: &'a Stmt,
}

/// All statements of a program, in the order in which replies count them.
pub(crate) fn stands_in<'a>(
    alloc: Global,
    program: &'a Program,
) -> Result<Vec<Stand<'a>>, AllocError>
    ensures { IfOk result (λ found. standings_of found.items ≡ stands 0 1 (stmts_of program.now.body.items)) }
{
    let mut found = Vec::new(alloc);
    put_all(0, 1, &program.body, &mut found)?;
    Ok(found)
}

/// Puts the statements of a body of this task, whose first one has this number, and answers the number behind them.
#[cycle(stand)]
fn put_all<'a>(
    owner: u32,
    place: u32,
    body: &'a Vec<Stmt>,
    found: &mut Vec<Stand<'a>>,
) -> Result<u32, AllocError>
    requires { place + size (stmts_of body.now.items) < 2 ^ 32 }
    ensures next { IfOk result (λ next. next ≡ place + size (stmts_of body.now.items)) }
    ensures found { OnOk result (standings_of found.new.items ≡ standings_of found.old.items ++ stands owner place (stmts_of body.now.items)) }
{
    let mut next = place;
    for stmt in body {
        found.push(Stand {
            place: next,
            owner,
            stmt,
        })?;
        next = put_within(owner, next, stmt, found)?;
    }
    Ok(next)
}

/// Puts the statements in the bodies of a statement of this task and with this number.
#[cycle(stand)]
fn put_within<'a>(
    owner: u32,
    place: u32,
    stmt: &'a Stmt,
    found: &mut Vec<Stand<'a>>,
) -> Result<u32, AllocError>
    requires { place + size_one (stmt_of stmt.now) < 2 ^ 32 }
    ensures next { IfOk result (λ next. next ≡ place + size_one (stmt_of stmt.now)) }
    ensures found { OnOk result (standings_of found.new.items ≡ standings_of found.old.items ++ standings_within owner place (stmt_of stmt.now)) }
{
    let inside = place + 1;
    match stmt {
        Stmt::Set(_, _) | Stmt::Fold(_, _, _) | Stmt::Wait(_) => Ok(inside),
        Stmt::If(_, one, two) => {
            let second = put_all(owner, inside, one, found)?;
            put_all(owner, second, two, found)
        }
        Stmt::Task(_, body) => put_all(place, inside, body, found),
        Stmt::Group(_, _, body) => put_all(owner, inside, body, found),
    }
}

/// The statement with this number.
pub(crate) fn stand_at<'a>(stands: &[Stand<'a>], place: u32) -> Option<Stand<'a>>
    ensures { option_map standing_of result ≡ standing_found place (standings_of stands.now) }
{
    for stand in stands {
        if stand.place == place {
            return Some(*stand);
        }
    }
    None
}

impl<'a> Stand<'a> {
    /// Whether it is a task.
    pub(crate) fn is_task(self) -> bool
        ensures { result ≡ is_task (stmt_of self.entry.stmt.now) }
    {
        matches!(self.stmt, Stmt::Task(_, _))
    }

    /// The task that does it: itself where it is one, else the one around it.
    pub(crate) fn holder(self) -> u32
        ensures { result ≡ holder (standing_of self.entry) }
    {
        if self.is_task() {
            self.place
        } else {
            self.owner
        }
    }
}
