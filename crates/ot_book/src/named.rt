ghost use Rattle.std.specs.Prelude.{◌≡◌, ◌-◌, ◌^◌, min};
ghost use Rattle.ot_model.specs.View.{expr_of, stmt_of, stmts_of};
ghost use Rattle.ot_program.specs.Limits.{picked_of};
ghost use Rattle.ot_book.specs.Shelves.{named_in, named_in_one};

use ot_model::{Expr, Stmt};

/// How many cells statements name, or the greatest number of 32 bits where they name more. It looks once at each
/// statement, and at each part of their values.
#[cycle(named)]
pub(crate) fn cells_named(stmts: &[Stmt]) -> u32
    ensures { result ≡ min (named_in (stmts_of stmts.now)) (2 ^ 32 - 1) }
{
    let mut total = 0u32;
    for stmt in stmts {
        total = total.saturating_add(named_in_one(stmt));
    }
    total
}

#[cycle(named)]
fn named_in_one(stmt: &Stmt) -> u32
    ensures { result ≡ min (named_in_one (stmt_of stmt.now)) (2 ^ 32 - 1) }
{
    match stmt {
        Stmt::Set(_, value) | Stmt::Fold(_, _, value) => picked(value),
        Stmt::If(test, one, two) => {
            let either = cells_named(one).saturating_add(cells_named(two));
            picked(test).saturating_add(either)
        }
        Stmt::Task(declared, body) => {
            count(declared.uses().len()).saturating_add(cells_named(body))
        }
        Stmt::Wait(None) => 0,
        Stmt::Wait(Some(declared)) => count(declared.uses().len()),
        Stmt::Group(_, cells, body) => count(cells.len()).saturating_add(cells_named(body)),
    }
}

/// How many cells the sections have that a value picks from.
fn picked(value: &Expr) -> u32
    ensures { result ≡ min (picked_of (expr_of value.now)) (2 ^ 32 - 1) }
{
    match value {
        Expr::Number(_) | Expr::Cell(_) => 0,
        Expr::Op(_, one, two) => picked(one).saturating_add(picked(two)),
        Expr::Pick(section, chosen) => picked(chosen).saturating_add(section.len),
    }
}

fn count(cells: usize) -> u32
    ensures { result ≡ min cells (2 ^ 32 - 1) }
{
    u32::try_from(cells).unwrap_or(u32::MAX)
}
