ghost use Rattle.std.specs.Prelude.{◌≡◌, ◌+◌, ◌∷◌, [], ◌≤◌, ◌^◌, OnOk, IfOk, IfSome, map, option_map};
ghost use Rattle.std.specs.List.{fold, range_with_len};
ghost use Rattle.ot_model.specs.Cells.{AreInOrder, mode_in};
ghost use Rattle.ot_model.specs.Tree.{cell_at, cells_named};
ghost use Rattle.ot_model.specs.View.{expr_of};
ghost use Rattle.ot_model.specs.declared.expr.Cell.{Cell};
ghost use Rattle.ot_model.specs.declared.stmt.Mode.TheVariants.{Reads};
ghost use Rattle.ot_parts.specs.Assigns.{assign_of, assigns_of};
ghost use Rattle.ot_parts.specs.Modes.{mode_added, strongest, PicksFit, AssignsFit, use_as, touches, test_touches, piece_touches};

use crate::assign::Assign;
use crate::held::Held;
use ot_model::{Cell, Decl, Expr, Mode, Section, Use};
use std::alloc::{AllocError, Global};

/// The cells that these assignments and this condition touch and no others, each in the strongest mode in
/// which it is touched.
pub(crate) fn touched(
    alloc: Global,
    assigns: &[Assign],
    condition: Option<&Expr>,
) -> Result<Decl, AllocError>
    requires fits { AssignsFit (assigns_of assigns.now) }
    requires test { IfSome condition (λ e. PicksFit (expr_of e.now)) }
    ensures ordered { IfOk result (λ d. AreInOrder d) }
    ensures exact { IfOk result (λ d. (c : Cell) → mode_in d c ≡ strongest (piece_touches (assigns_of assigns.now) (option_map (λ e. expr_of e.now) condition.entry)) c) }
{
    let mut held = Held::with_capacity(alloc, assigns.len())?;
    for assign in assigns {
        note_assign(&mut held, assign)?;
    }
    note_test(&mut held, condition)?;
    Ok(Decl::new(held.into_uses()?))
}

fn note_test(held: &mut Held, condition: Option<&Expr>) -> Result<(), AllocError>
    requires test { IfSome condition (λ e. PicksFit (expr_of e.now)) }
    ensures { OnOk result ((c : Cell) → strongest held.new c
        ≡ fold (mode_added c) (strongest held.old c) (test_touches (option_map (λ e. expr_of e.now) condition.entry))) }
{
    match condition {
        None => Ok(()),
        Some(condition) => note_reads(held, condition),
    }
}

fn note_assign(held: &mut Held, assign: &Assign) -> Result<(), AllocError>
    requires fits { AssignsFit (assigns_of (assign.now ∷ [])) }
    ensures { OnOk result ((c : Cell) → strongest held.new c
        ≡ fold (mode_added c) (strongest held.old c) (touches (assign_of assign.now))) }
{
    match assign {
        Assign::Set(cell, value) => {
            note_reads(held, value)?;
            held.add(Use {
                cell: *cell,
                mode: Mode::Writes,
            })
        }
        Assign::Fold(op, cell, value) => {
            note_reads(held, value)?;
            held.add(Use {
                cell: *cell,
                mode: Mode::Folds(*op),
            })
        }
    }
}

/// Notes each cell that a value names.
fn note_reads(held: &mut Held, expr: &Expr) -> Result<(), AllocError>
    requires fits { PicksFit (expr_of expr.now) }
    ensures { OnOk result ((c : Cell) → strongest held.new c
        ≡ fold (mode_added c) (strongest held.old c) (map (use_as Reads) (cells_named (expr_of expr.now)))) }
{
    match expr {
        Expr::Number(_) => Ok(()),
        Expr::Cell(cell) => held.add(Use {
            cell: *cell,
            mode: Mode::Reads,
        }),
        Expr::Op(_, one, two) => {
            note_reads(held, one)?;
            note_reads(held, two)
        }
        Expr::Pick(section, chosen) => {
            note_section(held, *section)?;
            note_reads(held, chosen)
        }
    }
}

fn note_section(held: &mut Held, section: Section) -> Result<(), AllocError>
    requires fits { section.start + section.len ≤ 2 ^ 32 }
    ensures { OnOk result ((c : Cell) → strongest held.new c
        ≡ fold (mode_added c) (strongest held.old c) (map (use_as Reads) (map (cell_at section) (range_with_len 0 section.len)))) }
{
    for step in 0..section.len {
        let cell = Cell {
            array: section.array,
            index: section.start + step,
        };
        held.add(Use {
            cell,
            mode: Mode::Reads,
        })?;
    }
    Ok(())
}
