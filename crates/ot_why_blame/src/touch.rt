//! Whether a statement uses a cell in conflict with a mode.
ghost use Rattle.std.specs.Prelude.{◌≡◌, map};
ghost use Rattle.std.specs.List.{list_any};
ghost use Rattle.ot_model.specs.View.{expr_of, stmt_of};
ghost use Rattle.ot_model.specs.Tree.{cells_of, cells_named};
ghost use Rattle.ot_model.specs.Cells.{same_cell};
ghost use Rattle.ot_model.specs.declared.stmt.Mode.TheVariants.{Reads};
ghost use Rattle.ot_check.specs.Offences.{use_as};
ghost use Rattle.ot_why_blame.specs.Races.{uses_of};
ghost use Rattle.ot_why_blame.specs.Walk.{is_use_against};

use ot_model::{Cell, Expr, Mode, Section, Stmt, Use};

/// Whether the statement uses the cell in conflict with this mode.
pub(crate) fn uses_against(mode: Mode, cell: Cell, stmt: &Stmt) -> bool
    ensures { result ≡ list_any (is_use_against mode cell) (uses_of (stmt_of stmt.now)) }
{
    match stmt {
        Stmt::Set(target, expr) => {
            let used = Use {
                cell: *target,
                mode: Mode::Writes,
            };
            value_against(mode, cell, expr) || use_against(mode, cell, used)
        }
        Stmt::Fold(op, target, expr) => {
            let used = Use {
                cell: *target,
                mode: Mode::Folds(*op),
            };
            value_against(mode, cell, expr) || use_against(mode, cell, used)
        }
        Stmt::If(expr, _, _) => value_against(mode, cell, expr),
        Stmt::Group(_, cells, _) => mode.conflicts(Mode::Writes) && has(cells, cell),
        Stmt::Task(_, _) | Stmt::Wait(_) => false,
    }
}

/// Whether a use is one of the cell, in conflict with this mode.
fn use_against(mode: Mode, cell: Cell, used: Use) -> bool
    ensures { result ≡ is_use_against mode cell used }
{
    used.cell == cell && mode.conflicts(used.mode)
}

/// Whether the value reads the cell, in conflict with this mode.
fn value_against(mode: Mode, cell: Cell, expr: &Expr) -> bool
    ensures { result ≡ list_any (is_use_against mode cell) (map (use_as Reads) (cells_named (expr_of expr.now))) }
{
    mode.conflicts(Mode::Reads) && reads(expr, cell)
}

fn has(cells: &[Cell], cell: Cell) -> bool
    ensures { result ≡ list_any (λ c. same_cell c cell) cells.now }
{
    for one in cells {
        if *one == cell {
            return true;
        }
    }
    false
}

/// Whether the value reads the cell.
fn reads(expr: &Expr, cell: Cell) -> bool
    ensures { result ≡ list_any (λ c. same_cell c cell) (cells_named (expr_of expr.now)) }
{
    match expr {
        Expr::Number(_) => false,
        Expr::Cell(one) => *one == cell,
        Expr::Op(_, one, two) => reads(one, cell) || reads(two, cell),
        Expr::Pick(section, chosen) => is_in(*section, cell) || reads(chosen, cell),
    }
}

/// Whether the cell is one of the section.
fn is_in(section: Section, cell: Cell) -> bool
    ensures { result ≡ list_any (λ c. same_cell c cell) (cells_of section) }
{
    if section.array != cell.array || cell.index < section.start {
        return false;
    }
    cell.index - section.start < section.len
}
