//! What an offence is, where no child has a part in it.
use ot_check::Offence;
use ot_model::{Decl, Fold, Mode, Stmt};
use ot_show_print::Printer;
use std::alloc::{AllocError, Global};

/// What is wrong with a statement. Where the program's folds have operations, it names them.
pub(crate) fn wrong(
    alloc: Global,
    printer: &mut Printer<'_>,
    stmt: &Stmt,
    offence: Offence,
    has_operations: bool,
) -> Result<(), AllocError> {
    if !has_operations {
        return printer.words(wrong_by(offence));
    }
    match (offence, stmt) {
        (Offence::NotDeclared, Stmt::Fold(op, _, _)) => not_declared(printer, *op),
        (Offence::NotDeclared, _) => printer.words(
            "it reads a cell that its task declares neither for reading nor for writing; or writes one that isn't declared for writing",
        ),
        (Offence::ReductionMisuse, Stmt::Task(decl, _)) => misfit(alloc, printer, decl),
        (Offence::ReductionMisuse, Stmt::Group(_, _, _)) => printer.words(
            "it names a cell which the task around doesn't declare for writing or which an open group names",
        ),
        (Offence::ReductionMisuse, _) => printer.words("it touches a cell of an open group"),
        _ => printer.words(wrong_by(offence)),
    }
}

/// A fold that its task's declaration doesn't let.
fn not_declared(printer: &mut Printer<'_>, op: Fold) -> Result<(), AllocError> {
    printer.words(
        "it reads a cell that its task declares neither for reading nor for writing; or folds by `",
    )?;
    printer.operation(op)?;
    printer.words("` into one that is declared neither for writing nor under `red` by `")?;
    printer.operation(op)?;
    printer.words("`")
}

/// A task that doesn't fit the reductions that are open.
fn misfit(alloc: Global, printer: &mut Printer<'_>, decl: &Decl) -> Result<(), AllocError> {
    printer.words("it declares a cell of an open group without `red`")?;
    let operations = operations_of(alloc, decl)?;
    for op in &operations {
        printer.words("; or, under `red` by `")?;
        printer.operation(*op)?;
        printer.words("`, a cell that the task around hasn't under `red` by `")?;
        printer.operation(*op)?;
        printer.words("` and no open group by `")?;
        printer.operation(*op)?;
        printer.words("` names")?;
    }
    Ok(())
}

/// The operations by which a declaration folds, each once, in the order of its cells.
fn operations_of(alloc: Global, decl: &Decl) -> Result<Vec<Fold>, AllocError> {
    let mut operations = Vec::new(alloc);
    for used in decl.uses() {
        if let Mode::Folds(op) = used.mode {
            if !operations.contains(&op) {
                operations.push(op)?;
            }
        }
    }
    Ok(operations)
}

/// What an offence is, where each fold is by `+`.
pub(crate) fn wrong_by(offence: Offence) -> &'static str {
    match offence {
        Offence::NotDeclared => {
            "it reads a cell that its task declares neither for reading nor for writing; writes one that isn't declared for writing; or adds to one that is declared neither for writing nor under `red`"
        }
        Offence::ChildBeyond => {
            "it declares, for reading, a cell that the task around declares neither for reading nor for writing; or, for writing, one that isn't declared for writing"
        }
        Offence::ReductionMisuse => {
            "it touches a cell of an open group; or declares such a cell without `red`, or under `red` a cell that the task around hasn't under `red` and no open group names; or it is a group that names a cell which the task around doesn't declare for writing or which an open group names"
        }
        Offence::ConflictsWithChild => {
            "it touches a cell, or is a group that names one, in conflict with a child that may be pending"
        }
        Offence::EndsWithChildren => "its body can end with a child pending",
    }
}
