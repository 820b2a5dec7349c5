//! Statements, and the bodies that they have.
ghost use Rattle.std.specs.Prelude.{◌≡◌, ◌++◌, OnOk, IfOk, map, string_bytes};
ghost use Rattle.ot_model.specs.View.{expr_of, stmt_of, stmts_of};
ghost use Rattle.ot_show_c.specs.Statements as written;

use crate::clause::{declared, pointer, reduction};
use crate::fold::fold;
use crate::value::value;
use ot_model::{Cell, Decl, Expr, Fold, Stmt};
use ot_show_print::Printer;
use std::alloc::{AllocError, Global};
use std::collections::BTreeSet;

/// Statements behind this margin, in the body of a task with this declaration. The root declares nothing here.
#[cycle(statement)]
fn statements(
    alloc: Global,
    out: &mut Printer<'_>,
    margin: &str,
    own: &Decl,
    stmts: &[Stmt],
) -> Result<(), AllocError>
    ensures text { OnOk result (out.new.text ≡ out.old.text ++ written.body out.old.names margin.now own.now (stmts_of stmts.now)) }
    ensures names { out.new.names ≡ out.old.names }
{
    for stmt in stmts {
        statement(alloc, out, margin, own, stmt)?;
    }
    Ok(())
}

#[cycle(statement)]
fn statement(
    alloc: Global,
    out: &mut Printer<'_>,
    margin: &str,
    own: &Decl,
    stmt: &Stmt,
) -> Result<(), AllocError>
    ensures text { OnOk result (out.new.text ≡ out.old.text ++ written.c_statement out.old.names margin.now own.now (stmt_of stmt.now)) }
    ensures names { out.new.names ≡ out.old.names }
{
    match stmt {
        Stmt::Set(cell, expr) => set(out, margin, *cell, expr),
        Stmt::Fold(op, cell, expr) => {
            out.words(margin)?;
            fold(out, own, *op, *cell, expr)
        }
        Stmt::If(expr, one, two) => {
            condition(out, margin, expr)?;
            inside(alloc, out, margin, own, one)?;
            otherwise(alloc, out, margin, own, two)?;
            line(out, margin, "}")
        }
        Stmt::Task(decl, body) => {
            directive(alloc, out, margin, "#pragma omp task", decl)?;
            block(alloc, out, margin, decl, body)
        }
        Stmt::Wait(None) => line(out, margin, "#pragma omp taskwait"),
        Stmt::Wait(Some(decl)) => wait_for(alloc, out, margin, decl),
        Stmt::Group(op, cells, body) => group(alloc, out, margin, own, *op, cells, body),
    }
}

fn set(out: &mut Printer<'_>, margin: &str, cell: Cell, expr: &Expr) -> Result<(), AllocError>
    ensures text { OnOk result (out.new.text ≡ out.old.text ++ written.set_text out.old.names margin.now cell (expr_of expr.now)) }
    ensures names { out.new.names ≡ out.old.names }
{
    out.words(margin)?;
    out.cell(cell)?;
    out.words(" = ")?;
    value(out, expr)?;
    out.words(";\n")
}

fn condition(out: &mut Printer<'_>, margin: &str, expr: &Expr) -> Result<(), AllocError>
    ensures text { OnOk result (out.new.text ≡ out.old.text ++ written.c_condition out.old.names margin.now (expr_of expr.now)) }
    ensures names { out.new.names ≡ out.old.names }
{
    out.words(margin)?;
    out.words("if (")?;
    value(out, expr)?;
    out.words(") {\n")
}

/// A task or a wait, with what it declares.
fn directive(
    alloc: Global,
    out: &mut Printer<'_>,
    margin: &str,
    words: &str,
    decl: &Decl,
) -> Result<(), AllocError>
    ensures text { OnOk result (out.new.text ≡ out.old.text ++ written.directive out.old.names margin.now words.now decl.now) }
    ensures names { out.new.names ≡ out.old.names }
{
    out.words(margin)?;
    out.words(words)?;
    declared(alloc, out, decl)?;
    out.words("\n")
}

/// A wait with clauses (OpenMP API 5.2, section 15.5). One that declares no cell awaits nobody, so nothing stands for it.
fn wait_for(
    alloc: Global,
    out: &mut Printer<'_>,
    margin: &str,
    decl: &Decl,
) -> Result<(), AllocError>
    ensures text { OnOk result (out.new.text ≡ out.old.text ++ written.wait_for out.old.names margin.now decl.now) }
    ensures names { out.new.names ≡ out.old.names }
{
    if decl.uses().is_empty() {
        return Ok(());
    }
    directive(alloc, out, margin, "#pragma omp taskwait", decl)
}

/// A line whole.
pub(crate) fn line(out: &mut Printer<'_>, margin: &str, words: &str) -> Result<(), AllocError>
    ensures text { OnOk result (out.new.text ≡ out.old.text ++ written.line margin.now words.now) }
    ensures names { out.new.names ≡ out.old.names }
{
    out.words(margin)?;
    out.words(words)?;
    out.words("\n")
}

/// The margin of what stands one block deeper.
fn deeper(alloc: Global, margin: &str) -> Result<String, AllocError>
    ensures { IfOk result (λ wider. string_bytes wider ≡ written.deeper margin.now) }
{
    let mut wider = String::from_str(alloc, margin)?;
    wider.push_str("    ")?;
    Ok(wider)
}

/// Statements one block deeper.
#[cycle(statement)]
fn inside(
    alloc: Global,
    out: &mut Printer<'_>,
    margin: &str,
    own: &Decl,
    body: &[Stmt],
) -> Result<(), AllocError>
    ensures text { OnOk result (out.new.text ≡ out.old.text ++ written.body out.old.names (written.deeper margin.now) own.now (stmts_of body.now)) }
    ensures names { out.new.names ≡ out.old.names }
{
    let wider = deeper(alloc, margin)?;
    statements(alloc, out, wider.as_str(), own, body)
}

/// A body in a block of its own.
#[cycle(statement)]
pub(crate) fn block(
    alloc: Global,
    out: &mut Printer<'_>,
    margin: &str,
    own: &Decl,
    body: &[Stmt],
) -> Result<(), AllocError>
    ensures text { OnOk result (out.new.text ≡ out.old.text ++ written.block margin.now (written.body out.old.names (written.deeper margin.now) own.now (stmts_of body.now))) }
    ensures names { out.new.names ≡ out.old.names }
{
    line(out, margin, "{")?;
    inside(alloc, out, margin, own, body)?;
    line(out, margin, "}")
}

/// The second body of an `if`, behind the first.
#[cycle(statement)]
fn otherwise(
    alloc: Global,
    out: &mut Printer<'_>,
    margin: &str,
    own: &Decl,
    body: &[Stmt],
) -> Result<(), AllocError>
    ensures text { OnOk result (out.new.text ≡ out.old.text ++ written.otherwise margin.now (stmts_of body.now) (written.body out.old.names (written.deeper margin.now) own.now (stmts_of body.now))) }
    ensures names { out.new.names ≡ out.old.names }
{
    if is_end(body) {
        return Ok(());
    }
    line(out, margin, "} else {")?;
    inside(alloc, out, margin, own, body)
}

fn is_end(body: &[Stmt]) -> bool
    ensures { result ≡ written.is_end (stmts_of body.now) }
{
    body.is_empty()
}

/// A group. One with reductions stands in a block with a pointer to each cell that is reduced.
#[cycle(statement)]
fn group(
    alloc: Global,
    out: &mut Printer<'_>,
    margin: &str,
    own: &Decl,
    op: Fold,
    cells: &[Cell],
    body: &[Stmt],
) -> Result<(), AllocError>
    ensures text { OnOk result (out.new.text ≡ out.old.text ++ written.group_text out.old.names margin.now op cells.now (written.body out.old.names (written.deeper margin.now) own.now (stmts_of body.now)) (written.body out.old.names (written.deeper (written.deeper margin.now)) own.now (stmts_of body.now))) }
    ensures names { out.new.names ≡ out.old.names }
{
    if cells.is_empty() {
        line(out, margin, "#pragma omp taskgroup")?;
        return block(alloc, out, margin, own, body);
    }
    let cells = each_once(alloc, cells)?;
    line(out, margin, "{")?;
    let wider = deeper(alloc, margin)?;
    reduced(out, wider.as_str(), op, &cells)?;
    block(alloc, out, wider.as_str(), own, body)?;
    line(out, margin, "}")
}

/// The pointers to the cells that a group reduces, and its first line.
fn reduced(out: &mut Printer<'_>, margin: &str, op: Fold, cells: &[Cell]) -> Result<(), AllocError>
    ensures text { OnOk result (out.new.text ≡ out.old.text ++ written.reduced_group out.old.names margin.now op cells.now) }
    ensures names { out.new.names ≡ out.old.names }
{
    pointers(out, margin, op, cells)?;
    out.words(margin)?;
    out.words("#pragma omp taskgroup")?;
    reduction(out, " task_reduction(", op, cells)?;
    out.words("\n")
}

fn pointers(out: &mut Printer<'_>, margin: &str, op: Fold, cells: &[Cell]) -> Result<(), AllocError>
    ensures text { OnOk result (out.new.text ≡ out.old.text ++ written.pointers out.old.names margin.now op cells.now) }
    ensures names { out.new.names ≡ out.old.names }
{
    for cell in cells {
        declared_pointer(out, margin, op, *cell)?;
    }
    Ok(())
}

fn declared_pointer(
    out: &mut Printer<'_>,
    margin: &str,
    op: Fold,
    cell: Cell,
) -> Result<(), AllocError>
    ensures text { OnOk result (out.new.text ≡ out.old.text ++ written.declared_pointer out.old.names margin.now op cell) }
    ensures names { out.new.names ≡ out.old.names }
{
    out.words(margin)?;
    out.words("uint64_t *")?;
    pointer(out, op, cell)?;
    out.words(" = &")?;
    out.cell(cell)?;
    out.words(";\n")
}

/// The cells in order, each once.
pub fn each_once(alloc: Global, cells: &[Cell]) -> Result<Vec<Cell>, AllocError>
    ensures { IfOk result (λ once. once.items ≡ written.each_once cells.now) }
{
    let mut places = places_of(alloc, cells)?;
    let mut once = Vec::with_capacity(alloc, places.len())?;
    while let Some((array, index)) = places.pop_first() {
        once.push(Cell { array, index })?;
    }
    Ok(once)
}

/// The arrays and places of cells, in order.
fn places_of(alloc: Global, cells: &[Cell]) -> Result<BTreeSet<(u32, u32)>, AllocError>
    ensures { IfOk result (λ places. map written.cell_of_pair places.keys ≡ written.each_once cells.now) }
{
    let mut places = BTreeSet::new(alloc);
    for cell in cells {
        places.insert((cell.array, cell.index))?;
    }
    Ok(places)
}
