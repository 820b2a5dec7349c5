ghost use Rattle.std.specs.Prelude.{◌≡◌};
ghost use Rattle.ot_model.specs.View.{stmt_of, stmts_of};
ghost use Rattle.ot_check.specs.Offences.{awaits};
ghost use Rattle.ot_check.specs.Discipline.{through, through_one};

use ot_model::{Decl, Stmt};

/// Whether a wait awaits a child that declares this.
pub(crate) fn awaits(wait: &Option<Decl>, decl: &Decl) -> bool
    ensures { result ≡ awaits wait.now decl.now }
{
    match wait {
        None => true,
        Some(declared) => declared.depends_on(decl),
    }
}

/// Whether some path of a body has no wait that awaits a child that declares this.
#[cycle(through)]
pub(crate) fn through(decl: &Decl, body: &Vec<Stmt>) -> bool
    ensures { result ≡ through decl.now (stmts_of body.now.items) }
{
    for stmt in body {
        if !through_one(decl, stmt) {
            return false;
        }
    }
    true
}

#[cycle(through)]
fn through_one(decl: &Decl, stmt: &Stmt) -> bool
    ensures { result ≡ through_one decl.now (stmt_of stmt.now) }
{
    match stmt {
        Stmt::Set(_, _) | Stmt::Fold(_, _, _) | Stmt::Task(_, _) => true,
        Stmt::If(_, one, two) => through(decl, one) || through(decl, two),
        Stmt::Wait(wait) => !awaits(wait, decl),
        Stmt::Group(_, _, body) => through(decl, body),
    }
}
