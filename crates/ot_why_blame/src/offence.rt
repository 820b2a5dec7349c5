//! What a statement offends against, and which other statement has a part in it.
ghost use Rattle.std.specs.Prelude.{◌≡◌, ◌++◌, None, IfOk, OnOk, MatchOption, option_and_then};
ghost use Rattle.ot_model.specs.View.{stmt_of, stmts_of};
ghost use Rattle.ot_model.specs.Signs.{identifier};
ghost use Rattle.ot_why_blame.specs.Words.{use_words, declared_words, touch_words};
ghost use Rattle.ot_check.specs.Offences.{Offends};
ghost use Rattle.ot_why_blame.specs.Races.{IsNamed};

use crate::around::{Around, seek_around};
use crate::left::find_left;
use crate::race::{find_race, statement_at};
use crate::wanted::{Touched, Wanted};
use crate::wrong::{wrong, wrong_by};
use ot_check::Offence;
use ot_model::{ArrayShape, Cell, Fold, Mode, Program, Stmt};
use ot_show_print::Printer;
use std::alloc::{AllocError, Global};

/// What is said of a statement that offends. Between `before` and `behind` stands the place of the other statement.
#[derive(Debug, Drop)]
pub struct Blame {
    /// The statement as it is printed.
    pub statement: String,
    /// The number of the other statement: the pending child, the child that is left, the open group or the task around.
    pub other: Option<u32>,
    /// What the statement offends against, up to the other one.
    pub before: String,
    /// What is said behind the other one; all that is said of it where there is none is before.
    pub behind: String,
}

/// A program over arrays, whose folds have operations or haven't.
#[derive(Clone, Copy)]
pub struct Blamed<'a> {
    pub program: &'a Program,
    pub arrays: &'a [ArrayShape],
    pub has_operations: bool,
}

/// What the statement at a place of a program, counted from 1 as replies count, offends against. It is None only where the
/// statement has no such offence. Of a conflict the other is a child that may be pending there and conflicts with the
/// statement; of a task that can end before a child it is that child.
pub fn find_blame(
    alloc: Global,
    blamed: Blamed<'_>,
    place: u32,
    offence: Offence,
) -> Result<Option<Blame>, AllocError>
    ensures { IfOk result (λ blame. MatchOption blame (Offends (stmts_of blamed.entry.program.now.body.items) place offence → ⊥)
        (λ b. IsNamed (stmts_of blamed.entry.program.now.body.items) place offence b.other)) }
{
    let Some(stmt) = statement_at(&blamed.program.body, place) else {
        return Ok(None);
    };
    let mut printer = Printer::new(alloc, blamed.arrays);
    printer.statement(stmt)?;
    let statement = printer.into_text();
    let named = match offence {
        Offence::ConflictsWithChild => conflict(alloc, blamed, place, stmt)?,
        Offence::EndsWithChildren => left(alloc, blamed, place)?,
        _ => misfit(alloc, blamed, place, stmt, offence)?,
    };
    Ok(Some(Blame {
        statement,
        other: named.other,
        before: named.before,
        behind: named.behind,
    }))
}

/// What is offended against: the other statement, and what is said before and behind it.
#[derive(Drop)]
struct Named {
    other: Option<u32>,
    before: String,
    behind: String,
}

impl Named {
    /// Where there is no other statement.
    fn alone(alloc: Global, before: String) -> Named
        ensures { result.other ≡ None }
    {
        Named {
            other: None,
            before,
            behind: String::new(alloc),
        }
    }
}

ghost use Rattle.ot_check.specs.declared.fault.Offence.TheVariants.{ConflictsWithChild, EndsWithChildren};

fn conflict(alloc: Global, blamed: Blamed<'_>, place: u32, stmt: &Stmt) -> Result<Named, AllocError>
    ensures { IfOk result (λ named. IsNamed (stmts_of blamed.entry.program.now.body.items) place ConflictsWithChild named.other) }
{
    let touched = Touched::by(alloc, blamed.arrays, stmt)?;
    let Some(race) = find_race(alloc, blamed.program, place, &Wanted::Touching(touched))? else {
        let words = String::from_str(alloc, wrong_by(Offence::ConflictsWithChild))?;
        return Ok(Named::alone(alloc, words));
    };
    let mut before = Printer::new(alloc, blamed.arrays);
    before.words("conflicts at ")?;
    before.cell(race.cell)?;
    before.words(" with ")?;
    let mut behind = Printer::new(alloc, blamed.arrays);
    behind.words(", which may be pending: ")?;
    behind.task(race.child.decl)?;
    Ok(Named {
        other: Some(race.child.place),
        before: before.into_text(),
        behind: behind.into_text(),
    })
}

fn left(alloc: Global, blamed: Blamed<'_>, place: u32) -> Result<Named, AllocError>
    ensures { IfOk result (λ named. IsNamed (stmts_of blamed.entry.program.now.body.items) place EndsWithChildren named.other) }
{
    let Some(child) = find_left(alloc, blamed.program, place)? else {
        let words = String::from_str(alloc, wrong_by(Offence::EndsWithChildren))?;
        return Ok(Named::alone(alloc, words));
    };
    let mut behind = Printer::new(alloc, blamed.arrays);
    behind.words(": ")?;
    behind.task(child.decl)?;
    Ok(Named {
        other: Some(child.place),
        before: String::from_str(alloc, "can end before its child, ")?,
        behind: behind.into_text(),
    })
}

/// What doesn't fit the task around the statement, or the groups that are open there.
fn misfit(
    alloc: Global,
    blamed: Blamed<'_>,
    place: u32,
    stmt: &Stmt,
    offence: Offence,
) -> Result<Named, AllocError> {
    let around = seek_around(alloc, &blamed.program.body, place)?;
    let mut before = Printer::new(alloc, blamed.arrays);
    let Some(used) = around.misfit(offence, stmt) else {
        wrong(alloc, &mut before, stmt, offence, blamed.has_operations)?;
        return Ok(Named::alone(alloc, before.into_text()));
    };
    put_use(&mut before, stmt, used.mode)?;
    before.cell(used.cell)?;
    let mut behind = Printer::new(alloc, blamed.arrays);
    let other = put_around(&mut before, &mut behind, &around, offence, used.cell)?;
    Ok(Named {
        other,
        before: before.into_text(),
        behind: behind.into_text(),
    })
}

/// The group or the task that the use of a cell doesn't fit.
fn put_around(
    before: &mut Printer<'_>,
    behind: &mut Printer<'_>,
    around: &Around<'_>,
    offence: Offence,
    cell: Cell,
) -> Result<Option<u32>, AllocError> {
    if offence == Offence::ReductionMisuse {
        if let Some(open) = around.group_of(cell) {
            before.words(", a cell of the open group of ")?;
            behind.words(": ")?;
            behind.group(open.op, open.cells)?;
            return Ok(Some(open.place));
        }
    }
    match around.task {
        Some(task) => {
            before.words(", and is in ")?;
            behind.words(": ")?;
            behind.task(task.decl)?;
            Ok(Some(task.place))
        }
        None => {
            before.words(", and no open group names it")?;
            Ok(None)
        }
    }
}

/// How a statement uses a cell, or declares it.
fn put_use(printer: &mut Printer<'_>, stmt: &Stmt, mode: Mode) -> Result<(), AllocError>
    ensures text { OnOk result (printer.new.text ≡ printer.old.text ++ use_words (stmt_of stmt.now) mode) }
    ensures names { printer.new.names ≡ printer.old.names }
{
    match stmt {
        Stmt::Group(_, _, _) => printer.words("it names "),
        Stmt::Task(_, _) => put_declared(printer, mode),
        Stmt::Set(_, _) | Stmt::Fold(_, _, _) | Stmt::If(_, _, _) | Stmt::Wait(_) => {
            put_touch(printer, mode)
        }
    }
}

/// How a task declares a cell.
fn put_declared(printer: &mut Printer<'_>, mode: Mode) -> Result<(), AllocError>
    ensures text { OnOk result (printer.new.text ≡ printer.old.text ++ declared_words mode) }
    ensures names { printer.new.names ≡ printer.old.names }
{
    match mode {
        Mode::Reads => printer.words("it declares, for reading, "),
        Mode::Writes => printer.words("it declares, for writing, "),
        Mode::Folds(op) => put_operation(printer, "it declares, under `red` by `", op, "`, "),
    }
}

/// How a statement touches a cell.
fn put_touch(printer: &mut Printer<'_>, mode: Mode) -> Result<(), AllocError>
    ensures text { OnOk result (printer.new.text ≡ printer.old.text ++ touch_words mode) }
    ensures names { printer.new.names ≡ printer.old.names }
{
    match mode {
        Mode::Reads => printer.words("it reads "),
        Mode::Writes => printer.words("it writes "),
        Mode::Folds(op) => put_operation(printer, "it folds by `", op, "` into "),
    }
}

/// An operation between words.
fn put_operation(
    printer: &mut Printer<'_>,
    before: &str,
    op: Fold,
    behind: &str,
) -> Result<(), AllocError>
    ensures text { OnOk result (printer.new.text ≡ printer.old.text ++ (before.now ++ (identifier op ++ behind.now))) }
    ensures names { printer.new.names ≡ printer.old.names }
{
    printer.words(before)?;
    printer.operation(op)?;
    printer.words(behind)
}
