//! Whether C orders the tasks of a program as the language does.
ghost use Rattle.std.specs.Prelude.{◌≡◌};
ghost use Rattle.ot_model.specs.View.{stmt_of, stmts_of};
ghost use Rattle.ot_race_order.specs.Orders.{is_alike, folds_in, folds_in_one};

use crate::depends::has_fold;
use crate::order::Order;
use ot_model::Stmt;

/// Whether this orders the tasks of a body as the language does.
pub fn is_alike(order: Order, body: &Vec<Stmt>) -> bool
    ensures { result ≡ is_alike order (stmts_of body.now.items) }
{
    match order {
        Order::OfLanguage | Order::OfCByPointers => true,
        Order::OfC => !folds_in(body),
    }
}

#[cycle(folding)]
fn folds_in(body: &Vec<Stmt>) -> bool
    ensures { result ≡ folds_in (stmts_of body.now.items) }
{
    for stmt in body {
        if folds_in_one(stmt) {
            return true;
        }
    }
    false
}

#[cycle(folding)]
fn folds_in_one(stmt: &Stmt) -> bool
    ensures { result ≡ folds_in_one (stmt_of stmt.now) }
{
    match stmt {
        Stmt::Set(_, _) | Stmt::Fold(_, _, _) | Stmt::Wait(_) => false,
        Stmt::If(_, one, two) => folds_in(one) || folds_in(two),
        Stmt::Task(decl, body) => has_fold(decl) || folds_in(body),
        Stmt::Group(_, _, body) => folds_in(body),
    }
}
