ghost use Rattle.std.specs.Prelude.{◌≡◌, IfOk, IsTrue, Some, map, option_map};
ghost use Rattle.std.specs.Arc.{arc_value};
ghost use Rattle.ot_model.specs.Cells.{AreInOrder, mode_in};
ghost use Rattle.ot_model.specs.declared.expr.Cell.{Cell};
ghost use Rattle.ot_model.specs.declared.stmt.Mode.TheVariants.{Folds};
ghost use Rattle.ot_parts.specs.Modes.{as_held, folds_by, folds_to, held_as, mode_held};

use crate::share::share;
use ot_model::{Cell, Decl, Fold, Mode, Use};
use std::alloc::{AllocError, Global};
use std::sync::Arc;

/// These uses as a piece of a body that declares this holds them: a fold that the body doesn't declare so is
/// a write. They are shared where there is none.
pub(crate) fn hold(
    alloc: Global,
    uses: &Arc<Decl>,
    own: Option<&Decl>,
) -> Result<Arc<Decl>, AllocError>
    ensures ordered { IfOk result (λ d. AreInOrder (arc_value d)) }
    ensures exact { IfOk result (λ d. (c : Cell) → mode_in (arc_value d) c ≡ option_map (held_as (option_map (λ o. o.now) own.entry) c) (mode_in (arc_value uses.now) c)) }
{
    if are_held_so(own, uses.uses()) {
        return Arc::try_clone(uses);
    }
    share(alloc, held(alloc, uses, own)?)
}

/// Whether a piece of a body that declares this holds each use in the mode that it has.
fn are_held_so(own: Option<&Decl>, uses: &[Use]) -> bool
    ensures { IsTrue result → map (as_held (option_map (λ o. o.now) own.entry)) uses.now ≡ uses.now }
{
    for used in uses {
        if mode_held(own, *used) != used.mode {
            return false;
        }
    }
    true
}

/// These uses, each in the mode in which a piece of a body that declares this holds it.
fn held(alloc: Global, uses: &Decl, own: Option<&Decl>) -> Result<Decl, AllocError>
    ensures ordered { IfOk result (λ d. AreInOrder d) }
    ensures exact { IfOk result (λ d. (c : Cell) → mode_in d c ≡ option_map (held_as (option_map (λ o. o.now) own.entry) c) (mode_in uses.now c)) }
{
    let uses = uses.uses();
    let mut held = Vec::with_capacity(alloc, uses.len())?;
    for used in uses {
        held.push(Use {
            cell: used.cell,
            mode: mode_held(own, *used),
        })?;
    }
    Ok(Decl::new(held))
}

/// The mode in which a touch is held.
fn mode_held(own: Option<&Decl>, used: Use) -> Mode
    ensures { result ≡ mode_held (option_map (λ o. o.now) own.entry) used }
{
    match used.mode {
        Mode::Folds(op) => fold_held(own, op, used.cell),
        mode => mode,
    }
}

/// The mode in which a fold is held.
fn fold_held(own: Option<&Decl>, op: Fold, cell: Cell) -> Mode
    ensures { result ≡ held_as (option_map (λ o. o.now) own.entry) cell (Folds op) }
{
    if folds_to(own, op, cell) {
        Mode::Folds(op)
    } else {
        Mode::Writes
    }
}

fn folds_to(own: Option<&Decl>, op: Fold, cell: Cell) -> bool
    ensures { result ≡ folds_to (option_map (λ o. o.now) own.entry) op cell }
{
    match own {
        None => false,
        Some(own) => declares_fold(own, op, cell),
    }
}

fn declares_fold(own: &Decl, op: Fold, cell: Cell) -> bool
    ensures { result ≡ folds_to (Some own.now) op cell }
{
    match own.mode(cell) {
        None => false,
        Some(mode) => folds_by(op, mode),
    }
}

fn folds_by(op: Fold, mode: Mode) -> bool
    ensures { result ≡ folds_by op mode }
{
    match mode {
        Mode::Folds(declared) => declared == op,
        _ => false,
    }
}
