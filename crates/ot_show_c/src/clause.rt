//! Clauses of tasks, waits and groups: dependences (OpenMP API 5.2, section 15.9.5) and reductions (5.5.9 and 5.5.10).
ghost use Rattle.std.specs.Prelude.{◌≡◌, ◌++◌, OnOk, IfOk, codes};
ghost use Rattle.ot_show_c.specs.Statements as written;

use ot_model::{Cell, Decl, Fold, Mode, Section};
use ot_show_print::{Printer, cells_in, sections_in};
use std::alloc::{AllocError, Global};

/// So many cells side by side are listed; more are told by an iterator.
const LISTED: u32 = 8;

/// The clauses of a task, or of a wait.
pub(crate) fn declared(alloc: Global, out: &mut Printer<'_>, decl: &Decl) -> Result<(), AllocError>
    ensures text { OnOk result (out.new.text ≡ out.old.text ++ written.c_clauses out.old.names decl.now) }
    ensures names { out.new.names ≡ out.old.names }
{
    dependences(alloc, out, "in", decl, Mode::Reads)?;
    dependences(alloc, out, "out", decl, Mode::Writes)?;
    folded(alloc, out, decl, Fold::Plus)?;
    folded(alloc, out, decl, Fold::Times)?;
    folded(alloc, out, decl, Fold::And)?;
    folded(alloc, out, decl, Fold::Or)?;
    folded(alloc, out, decl, Fold::Xor)?;
    folded(alloc, out, decl, Fold::Min)?;
    folded(alloc, out, decl, Fold::Max)
}

/// The cells that are folded by an operation. They are items of `depend` too: `in_reduction` makes no task wait.
fn folded(alloc: Global, out: &mut Printer<'_>, decl: &Decl, op: Fold) -> Result<(), AllocError>
    ensures text { OnOk result (out.new.text ≡ out.old.text ++ written.fold_clauses out.old.names decl.now op) }
    ensures names { out.new.names ≡ out.old.names }
{
    let cells = cells_in(alloc, decl, Mode::Folds(op))?;
    dependences(alloc, out, "in", decl, Mode::Folds(op))?;
    reduction(out, " in_reduction(", op, &cells)
}

/// The cells of this mode. Each is an item of its own: sections that overlap but aren't the same may not be items.
fn dependences(
    alloc: Global,
    out: &mut Printer<'_>,
    kind: &str,
    decl: &Decl,
    mode: Mode,
) -> Result<(), AllocError>
    ensures text { OnOk result (out.new.text ≡ out.old.text ++ written.c_dependences out.old.names kind.now decl.now mode) }
    ensures names { out.new.names ≡ out.old.names }
{
    let sections = sections_in(alloc, decl, mode)?;
    let few = short(alloc, &sections)?;
    listed(out, " depend(", kind, &few)?;
    iterations(out, " depend(iterator(at = ", kind, &sections)
}

fn is_long(section: Section) -> bool
    ensures { result ≡ written.is_long section }
{
    section.len > LISTED
}

/// Those that aren't too long for a list.
fn short(alloc: Global, sections: &[Section]) -> Result<Vec<Section>, AllocError>
    ensures { IfOk result (λ few. few.items ≡ written.short sections.now) }
{
    let mut few = Vec::new(alloc);
    for section in sections {
        if !is_long(*section) {
            few.push(*section)?;
        }
    }
    Ok(few)
}

/// A clause that lists the cells, if there are any.
fn listed(
    out: &mut Printer<'_>,
    opened: &str,
    kind: &str,
    sections: &[Section],
) -> Result<(), AllocError>
    ensures text { OnOk result (out.new.text ≡ out.old.text ++ written.list_clause out.old.names opened.now kind.now sections.now) }
    ensures names { out.new.names ≡ out.old.names }
{
    if sections.is_empty() {
        return Ok(());
    }
    out.words(opened)?;
    out.words(kind)?;
    items(out, sections)?;
    out.words(")")
}

/// The cells of sections, behind a colon.
fn items(out: &mut Printer<'_>, sections: &[Section]) -> Result<(), AllocError>
    ensures text { OnOk result (out.new.text ≡ out.old.text ++ written.items out.old.names (codes ": ") sections.now) }
    ensures names { out.new.names ≡ out.old.names }
{
    let mut before = ": ";
    for section in sections {
        row(out, before, *section)?;
        before = ", ";
    }
    Ok(())
}

/// The cells of a section, these words before the first and commas between.
#[tactic(auto, using(crate::proofs::RowLemmas::row_step))]
fn row(out: &mut Printer<'_>, before: &str, section: Section) -> Result<(), AllocError>
    ensures text { OnOk result (out.new.text ≡ out.old.text ++ written.item_row out.old.names before.now section.array section.start section.len) }
    ensures names { out.new.names ≡ out.old.names }
{
    let mut words = before;
    for place in 0..section.len {
        let index = u64::from(section.start) + u64::from(place);
        item(out, words, section.array, index)?;
        words = ", ";
    }
    Ok(())
}

/// A cell behind words.
fn item(out: &mut Printer<'_>, before: &str, array: u32, index: u64) -> Result<(), AllocError>
    ensures text { OnOk result (out.new.text ≡ out.old.text ++ written.item out.old.names before.now array index) }
    ensures names { out.new.names ≡ out.old.names }
{
    out.words(before)?;
    out.name(array)?;
    out.words("[")?;
    out.number(index)?;
    out.words("]")
}

/// A clause for each section that is too long for a list.
fn iterations(
    out: &mut Printer<'_>,
    opened: &str,
    kind: &str,
    sections: &[Section],
) -> Result<(), AllocError>
    ensures text { OnOk result (out.new.text ≡ out.old.text ++ written.iterations out.old.names opened.now kind.now sections.now) }
    ensures names { out.new.names ≡ out.old.names }
{
    for section in sections {
        if is_long(*section) {
            iterated(out, opened, kind, *section)?;
        }
    }
    Ok(())
}

/// A clause with an iterator.
fn iterated(
    out: &mut Printer<'_>,
    opened: &str,
    kind: &str,
    section: Section,
) -> Result<(), AllocError>
    ensures text { OnOk result (out.new.text ≡ out.old.text ++ written.iterator_clause out.old.names opened.now kind.now section) }
    ensures names { out.new.names ≡ out.old.names }
{
    out.words(opened)?;
    out.number(u64::from(section.start))?;
    out.words(":")?;
    out.number(u64::from(section.start) + u64::from(section.len))?;
    out.words("), ")?;
    out.words(kind)?;
    out.words(": ")?;
    out.name(section.array)?;
    out.words("[at])")
}

/// A clause over the pointers to these cells, if there are any, by this operation.
pub(crate) fn reduction(
    out: &mut Printer<'_>,
    opened: &str,
    op: Fold,
    cells: &[Cell],
) -> Result<(), AllocError>
    ensures text { OnOk result (out.new.text ≡ out.old.text ++ written.c_reduction out.old.names opened.now op cells.now) }
    ensures names { out.new.names ≡ out.old.names }
{
    if cells.is_empty() {
        return Ok(());
    }
    out.words(opened)?;
    out.words(op.identifier())?;
    pointed(out, op, cells)?;
    out.words(")")
}

/// What the pointers to these cells point to, behind a colon.
fn pointed(out: &mut Printer<'_>, op: Fold, cells: &[Cell]) -> Result<(), AllocError>
    ensures text { OnOk result (out.new.text ≡ out.old.text ++ written.pointer_items out.old.names (codes ": ") op cells.now) }
    ensures names { out.new.names ≡ out.old.names }
{
    let mut before = ": ";
    for cell in cells {
        out.words(before)?;
        pointer(out, op, *cell)?;
        out.words("[0:1]")?;
        before = ", ";
    }
    Ok(())
}

/// `Sum_a_0`, the pointer over which `a[0]` is reduced by `+`. (A compiler may take a clause over two cells of one
/// array for one over the array, so each cell has a pointer of its own.) No array has a capital in its name.
pub(crate) fn pointer(out: &mut Printer<'_>, op: Fold, cell: Cell) -> Result<(), AllocError>
    ensures text { OnOk result (out.new.text ≡ out.old.text ++ written.pointer out.old.names op cell) }
    ensures names { out.new.names ≡ out.old.names }
{
    out.words(pointer_word(op))?;
    out.name(cell.array)?;
    out.words("_")?;
    out.number(u64::from(cell.index))
}

/// What the name of a pointer begins with over which a cell is reduced by an operation.
fn pointer_word(op: Fold) -> &'static str
    ensures { result.now ≡ written.pointer_word op }
{
    match op {
        Fold::Plus => "Sum_",
        Fold::Times => "Product_",
        Fold::And => "And_",
        Fold::Or => "Or_",
        Fold::Xor => "Xor_",
        Fold::Min => "Min_",
        Fold::Max => "Max_",
    }
}
