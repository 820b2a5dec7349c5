//! Places of statements: each has a number, from 1, before those in its bodies.
ghost use Rattle.std.specs.Prelude.{◌≡◌, ◌+◌, ◌<◌, ◌^◌};
ghost use Rattle.ot_model.specs.View.{stmt_of, stmts_of};
ghost use Rattle.ot_model.specs.Tree.{size, size_one};

use ot_model::Stmt;

/// The place behind a statement that stands at this one, and behind all that stands in it.
#[cycle(behind)]
pub(crate) fn behind(stmt: &Stmt, place: u32) -> u32
    requires { place + size_one (stmt_of stmt.now) < 2 ^ 32 }
    ensures { result ≡ place + size_one (stmt_of stmt.now) }
{
    let inside = place + 1;
    match stmt {
        Stmt::Set(_, _) | Stmt::Fold(_, _, _) | Stmt::Wait(_) => inside,
        Stmt::If(_, one, two) => behind_all(two, behind_all(one, inside)),
        Stmt::Task(_, body) | Stmt::Group(_, _, body) => behind_all(body, inside),
    }
}

/// The place behind a body whose first statement stands at this one.
#[cycle(behind)]
pub(crate) fn behind_all(body: &Vec<Stmt>, place: u32) -> u32
    requires { place + size (stmts_of body.now.items) < 2 ^ 32 }
    ensures { result ≡ place + size (stmts_of body.now.items) }
{
    let mut next = place;
    for stmt in body {
        next = behind(stmt, next);
    }
    next
}
