//! Cells in a row as sections.
ghost use Rattle.std.specs.Prelude.{◌≡◌, IfOk, Some};
ghost use Rattle.ot_show_print.specs.Shown as rows;
ghost use Rattle.ot_model.specs.Cells.{same_mode};

use ot_model::{Cell, Decl, Mode, Section, Use};
use std::alloc::{AllocError, Global};

/// Whether it is a use in this mode.
fn is_in(used: Use, mode: Mode) -> bool
    ensures { result ≡ same_mode used.mode mode }
{
    used.mode == mode
}

/// The cells that are declared in this mode.
pub fn cells_in(alloc: Global, decl: &Decl, mode: Mode) -> Result<Vec<Cell>, AllocError>
    ensures { IfOk result (λ cells. cells.items ≡ rows.cells_in decl.now mode) }
{
    let mut cells = Vec::new(alloc);
    for used in decl.uses() {
        if is_in(*used, mode) {
            cells.push(used.cell)?;
        }
    }
    Ok(cells)
}

/// Whether the cell is the one behind the section, and can be taken into it.
fn goes_on(section: Section, cell: Cell) -> bool
    ensures { result ≡ rows.goes_on section cell }
{
    section.array == cell.array
        && u64::from(section.start) + u64::from(section.len) == u64::from(cell.index)
        && section.len < u32::MAX
}

/// The cells as sections, those in a row as one.
pub(crate) fn sections_of(alloc: Global, cells: &[Cell]) -> Result<Vec<Section>, AllocError>
    ensures { IfOk result (λ sections. sections.items ≡ rows.sections_of cells.now) }
{
    let mut sections = Vec::new(alloc);
    if cells.is_empty() {
        return Ok(sections);
    }
    let mut open = Section {
        array: cells[0].array,
        start: cells[0].index,
        len: 1,
    };
    for cell in &cells[1..] {
        if goes_on(open, *cell) {
            open.len += 1;
        } else {
            sections.push(open)?;
            open = Section {
                array: cell.array,
                start: cell.index,
                len: 1,
            };
        }
    }
    sections.push(open)?;
    Ok(sections)
}

/// The cells that are declared in this mode, those side by side as one section.
#[tactic(auto, using(crate::proofs::SectionLemmas::comes_back))]
pub fn sections_in(alloc: Global, decl: &Decl, mode: Mode) -> Result<Vec<Section>, AllocError>
    ensures cells { IfOk result (λ sections. rows.section_cells sections.items ≡ rows.cells_in decl.now mode) }
    ensures exact { IfOk result (λ sections. sections.items ≡ rows.sections_of (rows.cells_in decl.now mode)) }
{
    let cells = cells_in(alloc, decl, mode)?;
    sections_of(alloc, &cells)
}
