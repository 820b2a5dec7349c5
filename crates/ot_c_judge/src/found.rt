//! The statement at a place of a program.
ghost use Rattle.std.specs.Prelude.{◌≡◌, ◌+◌, ◌<◌, ◌^◌, IfOk, IfErr, option_map};
ghost use Rattle.ot_model.specs.View.{stmt_of, stmts_of};
ghost use Rattle.ot_model.specs.Tree.{size, size_one};
ghost use Rattle.ot_c_judge.specs.Lacks.{stood_in_body, found_one};
ghost use Rattle.ot_c_judge.specs.Fits.{Fits, FitsOne};
ghost use Rattle.ot_c_judge.specs.FoundView.{Follows};

use ot_model::{Decl, Stmt};

/// A statement, and what the task around it declares.
#[derive(Clone, Copy, Debug)]
pub(crate) struct Stood<'a> {
    pub(crate) own: Option<&'a Decl>,
    pub(crate) statement: &'a Stmt,
}

/// A walk to a place through a body, in a task that declares this, whose first statement has this place: to the statement there, or
/// to the next place behind the body.
#[cycle(find)]
pub(crate) fn find_in<'a>(
    body: &'a Vec<Stmt>,
    goal: u32,
    place: u32,
    own: Option<&'a Decl>,
) -> Result<u32, Stood<'a>>
    requires short { place + size (stmts_of body.now.items) < 2 ^ 32 }
    requires fits { Fits (stmts_of body.now.items) }
    ensures next { IfOk result (λ next. next ≡ place + size (stmts_of body.now.items)) }
    ensures fits { IfErr result (λ at. FitsOne (stmt_of at.statement.now)) }
    ensures found { Follows (stood_in_body goal (option_map (λ d. d.now) own.entry) place (stmts_of body.now.items)) result }
{
    let mut next = place;
    for stmt in body {
        match find_one(stmt, goal, next, own) {
            Ok(behind) => next = behind,
            Err(stood) => return Err(stood),
        }
    }
    Ok(next)
}

#[cycle(find)]
fn find_one<'a>(
    stmt: &'a Stmt,
    goal: u32,
    place: u32,
    own: Option<&'a Decl>,
) -> Result<u32, Stood<'a>>
    requires short { place + size_one (stmt_of stmt.now) < 2 ^ 32 }
    requires fits { FitsOne (stmt_of stmt.now) }
    ensures next { IfOk result (λ next. next ≡ place + size_one (stmt_of stmt.now)) }
    ensures fits { IfErr result (λ at. FitsOne (stmt_of at.statement.now)) }
    ensures found { Follows (found_one goal (option_map (λ d. d.now) own.entry) place (stmt_of stmt.now)) result }
{
    if place == goal {
        return Err(Stood {
            own,
            statement: stmt,
        });
    }
    let next = place + 1;
    match stmt {
        Stmt::Set(_, _) | Stmt::Fold(_, _, _) => Ok(next),
        Stmt::If(_, one, two) => match find_in(one, goal, next, own) {
            Ok(behind) => find_in(two, goal, behind, own),
            Err(stood) => Err(stood),
        },
        Stmt::Task(decl, body) => find_in(body, goal, next, Some(decl)),
        Stmt::Wait(_) => Ok(next),
        Stmt::Group(_, _, body) => find_in(body, goal, next, own),
    }
}
