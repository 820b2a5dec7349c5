//! The cells at which a child waits for earlier ones by itself.
ghost use Rattle.std.specs.Prelude.{◌≡◌, ◌∷◌, ◌++◌, [], ◌==◌, ℕ, cond, OnOk, replicate};
ghost use Rattle.ot_depend.specs.Siblings.{times};
ghost use Rattle.ot_show_graph.specs.Written.{cells_with};

use ot_model::Cell;
use std::alloc::{AllocError, Global};
use std::collections::BTreeMap;

/// The cells, in their order, by the place of the earlier child.
pub(crate) type Met = BTreeMap<usize, Vec<Cell>>;

/// Puts a cell to each of these children.
pub(crate) fn put_all(
    alloc: Global,
    met: &mut Met,
    children: &[usize],
    cell: Cell,
) -> Result<(), AllocError>
    ensures { OnOk result ((e : ℕ) → cells_with met.new e ≡ cells_with met.old e ++ replicate (times e children.now) cell) }
{
    for child in children {
        put_cell(alloc, met, *child, cell)?;
    }
    Ok(())
}

/// Puts a cell to a child.
pub(crate) fn put_cell(
    alloc: Global,
    met: &mut Met,
    child: usize,
    cell: Cell,
) -> Result<(), AllocError>
    ensures { OnOk result ((e : ℕ) → cells_with met.new e ≡ cells_with met.old e ++ cond (child == e) (cell ∷ []) []) }
{
    if let Some(cells) = met.get_mut(&child) {
        cells.push(cell)?;
        return Ok(());
    }
    let mut cells = Vec::new(alloc);
    cells.push(cell)?;
    met.insert(child, cells)?;
    Ok(())
}
