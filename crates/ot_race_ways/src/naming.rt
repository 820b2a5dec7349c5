//! How many cells are named.
ghost use Rattle.std.specs.Prelude.{◌≡◌, min, length, ◌+◌, ◌≤◌};
ghost use Rattle.ot_model.specs.View.{expr_of, stmt_of, stmts_of};
ghost use Rattle.ot_race_ways.specs.Known.{choices, may_read};
ghost use Rattle.ot_race_ways.specs.Naming.{named_in, named_in_one};

use crate::known::known_number;
use ot_model::{Expr, Section, Stmt};

/// One more than the cells that may be named on all ways together. They are counted up to here.
const MANY_CELLS: u32 = 20_000_001;

/// How many cells the statements of a body name, those in its statements among them.
#[cycle(naming)]
pub(crate) fn named_in(body: &Vec<Stmt>) -> u32
    ensures { result ≡ min (named_in (stmts_of body.now.items)) 20000001 }
{
    let mut named = 0;
    for stmt in body {
        named = both(named, named_in_one(stmt));
    }
    named
}

#[cycle(naming)]
fn named_in_one(stmt: &Stmt) -> u32
    ensures { result ≡ min (named_in_one (stmt_of stmt.now)) 20000001 }
{
    match stmt {
        Stmt::Set(_, expr) | Stmt::Fold(_, _, expr) => named_by(expr),
        Stmt::If(expr, one, two) => both(both(named_by(expr), named_in(one)), named_in(two)),
        Stmt::Task(decl, body) => both(few(decl.uses().len()), named_in(body)),
        Stmt::Wait(None) => 0,
        Stmt::Wait(Some(decl)) => few(decl.uses().len()),
        Stmt::Group(_, cells, body) => both(few(cells.len()), named_in(body)),
    }
}

/// How many cells a value names.
fn named_by(expr: &Expr) -> u32
    ensures { result ≡ min (length (may_read (expr_of expr.now))) 20000001 }
{
    match expr {
        Expr::Number(_) => 0,
        Expr::Cell(_) => 1,
        Expr::Op(_, one, two) => both(named_by(one), named_by(two)),
        Expr::Pick(section, chosen) => both(
            choices(*section, known_number(chosen)),
            named_by(chosen),
        ),
    }
}

/// How many cells a pick may choose, whose value is known or isn't.
fn choices(section: Section, chosen: Option<u64>) -> u32
    ensures { result ≡ min (length (choices section chosen)) 20000001 }
{
    match chosen {
        Some(_) => section.len.min(1),
        None => few(section.len as usize),
    }
}

/// So many and so many.
fn both(one: u32, other: u32) -> u32
    requires one { one ≤ 20000001 }
    requires other { other ≤ 20000001 }
    ensures { result ≡ min (one + other) 20000001 }
{
    few((one + other) as usize)
}

fn few(cells: usize) -> u32
    ensures { result ≡ min cells 20000001 }
{
    if cells < MANY_CELLS as usize {
        cells as u32
    } else {
        MANY_CELLS
    }
}
