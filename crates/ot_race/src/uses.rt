//! What statements do with cells.
ghost use Rattle.std.specs.Prelude.{◌≡◌, ◌++◌, map, OnOk, option_map, [], ◌∷◌, Some};
ghost use Rattle.ot_model.specs.View.{expr_of};
ghost use Rattle.ot_model.specs.Tree.{HasAll};
ghost use Rattle.ot_model.specs.Cells.{cell_of};
ghost use Rattle.ot_model.specs.declared.stmt.Mode.TheVariants.{Reads, Writes};
ghost use Rattle.ot_check.specs.Offences.{use_as, folds_to, folds_by};
ghost use Rattle.ot_race.specs.Events.{reads_now, fold_as};

use ot_model::{Cell, Cells, Decl, Expr, Fold, Mode, Use, value};
use std::alloc::AllocError;

/// Notes the cells that a value reads, of a pick the one that is chosen.
pub(crate) fn note_reads(expr: &Expr, cells: &Cells, uses: &mut Vec<Use>) -> Result<(), AllocError>
    requires { HasAll (cell_of cells.now) (expr_of expr.now) }
    ensures { OnOk result (uses.new.items ≡ uses.old.items ++ map (use_as Reads) (reads_now (cell_of cells.now) (expr_of expr.now))) }
{
    match expr {
        Expr::Number(_) => Ok(()),
        Expr::Cell(cell) => note(*cell, Mode::Reads, uses),
        Expr::Op(_, one, two) => {
            note_reads(one, cells, uses)?;
            note_reads(two, cells, uses)
        }
        Expr::Pick(section, chosen) => {
            note_reads(chosen, cells, uses)?;
            let place = value(chosen, cells) % u64::from(section.len);
            let cell = Cell {
                array: section.array,
                index: section.start + place as u32,
            };
            note(cell, Mode::Reads, uses)
        }
    }
}

/// Notes one use.
pub fn note(cell: Cell, mode: Mode, uses: &mut Vec<Use>) -> Result<(), AllocError>
    ensures { OnOk result (uses.new.items ≡ uses.old.items ++ use_as mode cell ∷ []) }
{
    uses.push(Use { cell, mode })?;
    Ok(())
}

/// Notes that these cells are written.
pub fn note_writes(cells: &[Cell], uses: &mut Vec<Use>) -> Result<(), AllocError>
    ensures { OnOk result (uses.new.items ≡ uses.old.items ++ map (use_as Writes) cells.now) }
{
    for cell in cells {
        note(*cell, Mode::Writes, uses)?;
    }
    Ok(())
}

/// What a fold does in a task that declares this, or in the program's own body.
pub fn fold_as(own: Option<&Decl>, op: Fold, cell: Cell) -> Mode
    ensures { result ≡ fold_as (option_map (λ d. d.now) own.entry) op cell }
{
    match own {
        Some(decl) if folds_to(decl, op, cell) => Mode::Folds(op),
        _ => Mode::Writes,
    }
}

/// Whether the cell is declared as `red` by the operation.
fn folds_to(decl: &Decl, op: Fold, cell: Cell) -> bool
    ensures { result ≡ folds_to (Some decl.now) op cell }
{
    match decl.mode(cell) {
        Some(mode) => folds_by(op, mode),
        None => false,
    }
}

fn folds_by(op: Fold, mode: Mode) -> bool
    ensures { result ≡ folds_by op mode }
{
    match mode {
        Mode::Folds(other) => other == op,
        Mode::Reads | Mode::Writes => false,
    }
}
