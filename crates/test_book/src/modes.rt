//! What two uses of one cell are to each other, and what a lent copy of a cell begins and ends as.
use ot_model::{Fold, Mode};

/// All operations of folds.
pub(crate) const OPERATIONS: [Fold; 7] = [
    Fold::Plus,
    Fold::Times,
    Fold::And,
    Fold::Or,
    Fold::Xor,
    Fold::Min,
    Fold::Max,
];

/// Two modes, whether uses in them conflict, and whether one of them writes.
const PAIRS: [(Mode, Mode, bool, bool); 9] = [
    (Mode::Reads, Mode::Reads, false, false),
    (Mode::Reads, Mode::Writes, true, true),
    (Mode::Reads, Mode::Folds(Fold::Plus), true, false),
    (Mode::Writes, Mode::Reads, true, true),
    (Mode::Writes, Mode::Writes, true, true),
    (Mode::Writes, Mode::Folds(Fold::Plus), true, true),
    (Mode::Folds(Fold::Plus), Mode::Reads, true, false),
    (Mode::Folds(Fold::Plus), Mode::Writes, true, true),
    (
        Mode::Folds(Fold::Plus),
        Mode::Folds(Fold::Plus),
        false,
        false,
    ),
];

/// The first two that are something else to each other.
fn other_pair() -> Option<(Mode, Mode)> {
    for (one, two, conflicts, one_writes) in &PAIRS {
        if one.conflicts(*two) != *conflicts || one.one_writes(*two) != *one_writes {
            return Some((*one, *two));
        }
    }
    None
}

#[test]
fn uses_of_one_cell_meet_by_their_modes(rt: HostRuntime) {
    assert_eq!(rt; other_pair(), None);
}

/// The first two operations by which folds into one cell are something else to each other: they conflict
/// where the operations differ, and none writes.
fn other_operations() -> Option<(Fold, Fold)> {
    for one in &OPERATIONS {
        for two in &OPERATIONS {
            let (first, second) = (Mode::Folds(*one), Mode::Folds(*two));
            if first.conflicts(second) != (*one != *two) || first.one_writes(second) {
                return Some((*one, *two));
            }
        }
    }
    None
}

#[test]
fn folds_into_one_cell_meet_by_their_operations(rt: HostRuntime) {
    assert_eq!(rt; other_operations(), None);
}

const TOP: u64 = 18446744073709551615;

/// A mode, what a copy of a stored 2^64 - 1 begins as in it, and what is stored once it has come
/// back as 5.
const COPIES: [(Mode, u64, u64); 9] = [
    (Mode::Reads, TOP, TOP),
    (Mode::Writes, TOP, 5),
    (Mode::Folds(Fold::Plus), 0, 4),
    (Mode::Folds(Fold::Times), 1, 18446744073709551611),
    (Mode::Folds(Fold::And), TOP, 5),
    (Mode::Folds(Fold::Or), 0, TOP),
    (Mode::Folds(Fold::Xor), 0, 18446744073709551610),
    (Mode::Folds(Fold::Min), TOP, 5),
    (Mode::Folds(Fold::Max), 0, TOP),
];

/// The first mode in which it is something else.
fn other_mode() -> Option<Mode> {
    for (mode, first, joined) in &COPIES {
        if mode.first(TOP) != *first || mode.joined(TOP, 5) != *joined {
            return Some(*mode);
        }
    }
    None
}

#[test]
fn a_lent_copy_starts_and_comes_back_by_its_mode(rt: HostRuntime) {
    assert_eq!(rt; other_mode(), None);
}
