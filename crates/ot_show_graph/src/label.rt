//! At which cells each link of a family holds.
ghost use Rattle.std.specs.Prelude.{◌≡◌, List, length, IfOk, OnOk};
ghost use Rattle.ot_model.specs.Cells.{AreInOrder};
ghost use Rattle.ot_model.specs.declared.expr.Cell.{Cell};
ghost use Rattle.ot_model.specs.declared.stmt.Use.{Use};
ghost use Rattle.ot_depend.specs.Siblings.{uses_cell, writes_cell};
ghost use Rattle.ot_show_graph.specs.Children.{decls_of};
ghost use Rattle.ot_show_graph.specs.Written.{AreLabels, AreMet, TellsRows, row_behind, row_in_rows};

use crate::child::Child;
use crate::met::Met;
use crate::rows::Rows;
use ot_model::Use;
use std::alloc::{AllocError, Global};
use std::collections::BTreeMap;

/// For each child, the cells at which it waits for earlier ones by itself.
pub(crate) fn labels_of(alloc: Global, children: &[Child<'_>]) -> Result<Vec<Met>, AllocError>
    ensures labels { IfOk result (λ labels. AreLabels (decls_of children.now) labels.items) }
    ensures len { IfOk result (λ labels. length labels.items ≡ length children.now) }
{
    let mut rows = Rows::new(alloc);
    let mut labels = Vec::with_capacity(alloc, children.len())?;
    for child in children {
        let uses = child.decl.uses();
        let met = met_by(alloc, &rows, uses)?;
        enter(alloc, &mut rows, uses, labels.len())?;
        labels.push(met)?;
    }
    Ok(labels)
}

/// The cells at which a child with these uses waits by itself for those in the rows.
fn met_by(alloc: Global, rows: &Rows, uses: &[Use]) -> Result<Met, AllocError>
    ensures { IfOk result (λ met. (before : List (List Use)) → TellsRows before (row_in_rows rows.now) → AreMet before uses.now met) }
{
    let mut met = BTreeMap::new(alloc);
    for used in uses {
        rows.put(alloc, &mut met, *used)?;
    }
    Ok(met)
}

/// A child has these uses.
fn enter(alloc: Global, rows: &mut Rows, uses: &[Use], child: usize) -> Result<(), AllocError>
    requires { AreInOrder uses.now }
    ensures { OnOk result ((c : Cell) → row_in_rows rows.new c ≡ row_behind child (uses_cell c uses.now) (writes_cell c uses.now) (row_in_rows rows.old c)) }
{
    for used in uses {
        rows.enter(alloc, child, *used)?;
    }
    Ok(())
}
