//! The children of one body: readers and a writer of one cell, and one for which memory is refused.
ghost use Rattle.std.specs.Prelude.{◌≡◌, ◌++◌, ◌∷◌, [], OnOk, IfOk, length};
ghost use Rattle.ot_depend.specs.Siblings.{IsUnfinished, sibling_created};

use super::table::{Asked, assert_rows};
use ot_depend::Siblings;
use ot_model::{Cell, Decl, Mode, Use};
use std::alloc::{AllocError, Global};
use std::sync::Arc;

/// Adds a child that uses the first cell of the first array, in these groups.
fn add(
    alloc: Global,
    siblings: &mut Siblings,
    mode: Mode,
    groups: &[u32],
) -> Result<usize, AllocError>
    ensures { OnOk result (siblings.new ≡ siblings.old
        ++ sibling_created (record { cell = record { array = 0; index = 0 }; mode = mode } ∷ []) groups.now ∷ []) }
{
    let only = Use {
        cell: Cell { array: 0, index: 0 },
        mode,
    };
    let decl = Decl::new(vec![in alloc; only]?);
    siblings.add(alloc, Arc::new(alloc, decl)?, groups)
}

/// Two readers, a writer and a reader of one cell, numbered in that order, and some in the groups 7
/// and 8.
fn family(alloc: Global) -> Result<Siblings, AllocError>
    ensures zero { IfOk result (λ siblings. IsUnfinished siblings 0) }
    ensures one { IfOk result (λ siblings. IsUnfinished siblings 1) }
    ensures two { IfOk result (λ siblings. IsUnfinished siblings 2) }
    ensures four { IfOk result (λ siblings. length siblings ≡ 4) }
{
    let mut siblings = Siblings::new(alloc);
    let _ = add(alloc, &mut siblings, Mode::Reads, &[])?;
    let _ = add(alloc, &mut siblings, Mode::Reads, &[7])?;
    let _ = add(alloc, &mut siblings, Mode::Writes, &[7, 8])?;
    let _ = add(alloc, &mut siblings, Mode::Reads, &[8])?;
    Ok(siblings)
}

/// Whether the children 0 to 4 are ready, and how many children have not finished: all, and those in
/// the groups 7, 8 and 9.
fn state(siblings: &Siblings) -> ([bool; 5], [usize; 4]) {
    let ready = [
        siblings.ready(0),
        siblings.ready(1),
        siblings.ready(2),
        siblings.ready(3),
        siblings.ready(4),
    ];
    let unfinished = [
        siblings.unfinished(),
        siblings.unfinished_in(7),
        siblings.unfinished_in(8),
        siblings.unfinished_in(9),
    ];
    (ready, unfinished)
}

/// Finishes so many of the first three children in their order, as far as each is ready then.
fn finish_first(siblings: &mut Siblings, count: u32)
    requires zero { IsUnfinished siblings.old 0 }
    requires one { IsUnfinished siblings.old 1 }
    requires two { IsUnfinished siblings.old 2 }
{
    if count == 0 || !siblings.ready(0) {
        return;
    }
    siblings.finish(0);
    if count == 1 || !siblings.ready(1) {
        return;
    }
    siblings.finish(1);
    if count == 2 || !siblings.ready(2) {
        return;
    }
    siblings.finish(2);
}

/// How many children have finished, and the state then.
const STATES: &str = "0 gives ([true, true, false, false, false], [4, 2, 2, 0])
1 gives ([true, true, false, false, false], [3, 2, 2, 0])
2 gives ([true, true, true, false, false], [2, 1, 2, 0])
3 gives ([true, true, true, true, false], [1, 0, 1, 0])";

/// The state once so many children have finished.
pub(crate) fn finished(alloc: Global, count: &str) -> Result<String, AllocError> {
    let mut siblings = family(alloc)?;
    finish_first(&mut siblings, count.parse().unwrap_or(0));
    format!(in alloc; "{:?}", state(&siblings))
}

#[test]
fn a_writer_waits_for_each_reader(rt: HostRuntime) {
    assert_rows(&rt, rt.alloc(), Asked::Finished, [1, 1, 0], STATES);
}

/// Adds a child that reads the first cell, in the groups 7 and 8, and tells whether memory was
/// refused. A state that this doesn't leave is told as none.
fn is_refused(alloc: Global, siblings: &mut Siblings) -> Option<bool> {
    let before = siblings.unfinished();
    let added = add(alloc, siblings, Mode::Reads, &[7, 8]);
    let after = if added.is_ok() {
        before.saturating_add(1)
    } else {
        before
    };
    let right = added.unwrap_or(before) == before
        && siblings.unfinished() == after
        && siblings.unfinished_in(7) == after
        && siblings.unfinished_in(8) == after
        && siblings.unfinished_in(9) == 0
        && siblings.ready(before) == (after != before);
    if right { Some(after == before) } else { None }
}

/// It passes whichever allocation fails, and prints a line where one did.
#[test]
fn a_refused_child_changes_nothing(rt: HostRuntime) {
    let mut siblings = Siblings::new(rt.alloc());
    for _ in 0..4 {
        match is_refused(rt.alloc(), &mut siblings) {
            Some(true) => {
                let _ = println!(rt; "memory was refused");
            }
            Some(false) => {}
            None => panic!(rt; "another state"),
        }
    }
}

/// For how many siblings each child of the family waits by itself, none having finished.
fn waits(alloc: Global) -> Result<[usize; 4], AllocError> {
    let family = family(alloc)?;
    Ok([
        family.waiting(0),
        family.waiting(1),
        family.waiting(2),
        family.waiting(3),
    ])
}

/// Three writers of one cell.
fn writers(alloc: Global) -> Result<Siblings, AllocError>
    ensures { IfOk result (λ siblings. length siblings ≡ 3) }
{
    let mut siblings = Siblings::new(alloc);
    let _ = add(alloc, &mut siblings, Mode::Writes, &[])?;
    let _ = add(alloc, &mut siblings, Mode::Writes, &[])?;
    let _ = add(alloc, &mut siblings, Mode::Writes, &[])?;
    Ok(siblings)
}

/// The last of three writers waits for the one before it alone, though it depends on both.
#[test]
fn a_child_waits_for_those_just_before(rt: HostRuntime) -> Result<(), AllocError> {
    assert_eq!(rt; waits(rt.alloc())?, [0, 0, 2, 1]);
    let writers = writers(rt.alloc())?;
    assert_eq!(rt;
        [writers.waiting(0), writers.waiting(1), writers.waiting(2)],
        [0, 1, 1]
    );
    Ok(())
}
