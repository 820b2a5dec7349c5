ghost use Rattle.std.specs.Prelude.{◌≡◌};
ghost use Rattle.ot_model.specs.View.{stmt_of};
ghost use Rattle.ot_model.specs.Names.{OneNamedIn};
ghost use Rattle.ot_check.specs.Discipline.{is_marked};
ghost use Rattle.ot_check.specs.walk.Walk.{leading};
ghost use Rattle.ot_check.specs.walk.States.{Whatever, lens_of};

use crate::fault::Offence;
use crate::standing::Standing;
use crate::touch::value_breaks;
use ot_model::{Mode, Stmt, Use};

/// The first offence of a statement itself, but for children that a task's body leaves.
pub(crate) fn own_offence(stmt: &Stmt, standing: &Standing) -> Option<Offence>
    requires { OneNamedIn (lens_of standing.now) (stmt_of stmt.now) }
    ensures { Whatever standing.now (λ own opened children. result ≡ leading (is_marked own opened children (stmt_of stmt.now))) }
{
    if is_offence(stmt, standing, Offence::NotDeclared) {
        return Some(Offence::NotDeclared);
    }
    if is_offence(stmt, standing, Offence::ChildBeyond) {
        return Some(Offence::ChildBeyond);
    }
    if is_offence(stmt, standing, Offence::ReductionMisuse) {
        return Some(Offence::ReductionMisuse);
    }
    if is_offence(stmt, standing, Offence::ConflictsWithChild) {
        return Some(Offence::ConflictsWithChild);
    }
    None
}

/// Whether a statement itself is this offence, but for children that a task's body leaves.
fn is_offence(stmt: &Stmt, standing: &Standing, offence: Offence) -> bool
    requires { OneNamedIn (lens_of standing.now) (stmt_of stmt.now) }
    ensures { Whatever standing.now (λ own opened children. result ≡ is_marked own opened children (stmt_of stmt.now) offence) }
{
    match stmt {
        Stmt::Set(cell, expr) => {
            let used = Use {
                cell: *cell,
                mode: Mode::Writes,
            };
            value_breaks(expr, standing, offence) || standing.touch_breaks(used, offence)
        }
        Stmt::Fold(op, cell, expr) => {
            let used = Use {
                cell: *cell,
                mode: Mode::Folds(*op),
            };
            value_breaks(expr, standing, offence) || standing.touch_breaks(used, offence)
        }
        Stmt::If(expr, _, _) => value_breaks(expr, standing, offence),
        Stmt::Task(decl, _) => match offence {
            Offence::ChildBeyond => standing.region.exceeds(decl),
            Offence::ReductionMisuse => standing.region.misfits(decl),
            Offence::NotDeclared | Offence::ConflictsWithChild | Offence::EndsWithChildren => false,
        },
        Stmt::Wait(_) => false,
        Stmt::Group(_, cells, _) => standing.group_breaks(cells, offence),
    }
}
