ghost use Rattle.std.specs.Prelude.{◌≡◌, ◌<◌};
ghost use Rattle.ot_model.specs.Cells.{number_of};
ghost use Rattle.ot_check.specs.Offences.{covers, folds_by};
ghost use Rattle.ot_check.specs.walk.Rows.{is_by};

use ot_model::{Fold, Mode};

/// Whether a body that declares a cell in the one mode may use it in the other.
pub(crate) fn covers(declared: Mode, wanted: Mode) -> bool
    ensures { result ≡ covers declared wanted }
{
    match (declared, wanted) {
        (Mode::Writes, _) | (Mode::Reads, Mode::Reads) => true,
        (Mode::Folds(one), Mode::Folds(other)) => one == other,
        (_, _) => false,
    }
}

/// Whether it is `Folds` of this operation.
pub(crate) fn folds_by(op: Fold, mode: Mode) -> bool
    ensures { result ≡ folds_by op mode }
{
    match mode {
        Mode::Folds(other) => other == op,
        Mode::Reads | Mode::Writes => false,
    }
}

/// Whether it folds by this operation, if it folds.
pub(crate) fn is_by(op: Fold, mode: Mode) -> bool
    ensures { result ≡ is_by op mode }
{
    match mode {
        Mode::Folds(other) => op == other,
        Mode::Reads | Mode::Writes => true,
    }
}

/// The number of an operation, from 0 to 6.
pub(crate) fn number(op: Fold) -> usize
    ensures exact { result ≡ number_of op }
    ensures small { result < 7 }
{
    match op {
        Fold::Plus => 0,
        Fold::Times => 1,
        Fold::And => 2,
        Fold::Or => 3,
        Fold::Xor => 4,
        Fold::Min => 5,
        Fold::Max => 6,
    }
}
