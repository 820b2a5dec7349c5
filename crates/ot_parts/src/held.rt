ghost use Rattle.std.specs.Prelude.{◌≡◌, ◌++◌, [], IsTrue, IfOk, OnOk, length, true};
ghost use Rattle.std.specs.List.{AllWithin};
ghost use Rattle.ot_model.specs.Cells.{is_before, AreInOrder, mode_in};
ghost use Rattle.ot_model.specs.declared.expr.Cell.{Cell};
ghost use Rattle.ot_model.specs.declared.stmt.Mode.TheVariants.{Folds};
ghost use Rattle.ot_parts.specs.Modes.{stronger, mode_added, strongest, IsPlaceOf};

use ot_model::{Cell, Fold, Mode, Use};
use std::alloc::{AllocError, Global};
use std::marker::Model;

/// So many uses are moved at most to put one in front of them.
const MOST_MOVED: usize = 256;

/// Uses of cells, as they are collected. They stand in a list in order, each cell once. What would move
/// too many of these is set aside, and once more stand aside than in the list, all are sorted together.
/// So n uses cost about n log n steps, in whatever order they come.
#[derive(Drop)]
pub(crate) struct Held {
    list: Vec<Use>,
    aside: Vec<Use>,
}

impl Model for Held {
    ghost use Rattle.std.specs.Prelude.{List, ◌++◌};
    ghost use Rattle.ot_model.specs.declared.stmt.Use.{Use};
    ghost use Rattle.ot_model.specs.Cells.{AreInOrder};

    ghost Value = { List Use };

    ghost view = { λ h. h.list.items ++ h.aside.items };

    ghost invariant = { λ h. AreInOrder h.list.items };
}

impl Held {
    /// No uses, with room for so many.
    pub(crate) fn with_capacity(alloc: Global, capacity: usize) -> Result<Held, AllocError>
        ensures { IfOk result (λ held. held ≡ []) }
    {
        Ok(Held {
            list: Vec::with_capacity(alloc, capacity)?,
            aside: Vec::new(alloc),
        })
    }

    /// Adds a use. A cell that comes last is put at the end of the list, and the place of another is
    /// found by halving.
    pub(crate) fn add(&mut self, used: Use) -> Result<(), AllocError>
        ensures { OnOk result ((c : Cell) → strongest self.new c ≡ mode_added c (strongest self.old c) used) }
    {
        let place = place_of(&self.list, used.cell);
        if self.list.len() - place > MOST_MOVED && self.list[place].cell != used.cell {
            return set_aside(&mut self.list, &mut self.aside, used);
        }
        put(&mut self.list, place, used)
    }

    /// The uses in order, each cell once in the strongest of its modes.
    pub(crate) fn into_uses(self) -> Result<Vec<Use>, AllocError>
        ensures ordered { IfOk result (λ uses. AreInOrder uses.items) }
        ensures exact { IfOk result (λ uses. (c : Cell) → mode_in uses.items c ≡ strongest self c) }
    {
        let Held {
            mut list,
            mut aside,
        } = self;
        if aside.is_empty() {
            return Ok(list);
        }
        gather(&mut list, &mut aside)?;
        Ok(list)
    }
}

fn set_aside(list: &mut Vec<Use>, aside: &mut Vec<Use>, used: Use) -> Result<(), AllocError>
    requires ordered { AreInOrder list.old.items }
    ensures ordered { AreInOrder list.new.items }
    ensures added { OnOk result ((c : Cell) → strongest (list.new.items ++ aside.new.items) c
        ≡ mode_added c (strongest (list.old.items ++ aside.old.items) c) used) }
{
    aside.push(used)?;
    if aside.len() > list.len() {
        gather(list, aside)?;
    }
    Ok(())
}

/// Brings what stands aside into the list.
fn gather(list: &mut Vec<Use>, aside: &mut Vec<Use>) -> Result<(), AllocError>
    requires ordered { AreInOrder list.old.items }
    ensures ordered { AreInOrder list.new.items }
    ensures empty { OnOk result (aside.new.items ≡ []) }
    ensures exact { OnOk result ((c : Cell) → mode_in list.new.items c ≡ strongest (list.old.items ++ aside.old.items) c) }
{
    aside.extend_from_slice(list)?;
    aside.sort_unstable_by_key(|used| (used.cell.array, used.cell.index));
    list.clear();
    for used in aside.iter() {
        let place = place_of(list, used.cell);
        put(list, place, *used)?;
    }
    aside.clear();
    Ok(())
}

/// Puts a use at the place of its cell. A cell that is there is held in the stronger mode.
fn put(list: &mut Vec<Use>, place: usize, used: Use) -> Result<(), AllocError>
    requires ordered { AreInOrder list.old.items }
    requires place { IsPlaceOf list.old.items used.cell place }
    ensures ordered { AreInOrder list.new.items }
    ensures added { OnOk result ((c : Cell) → mode_in list.new.items c ≡ mode_added c (mode_in list.old.items c) used) }
{
    if place < list.len() && list[place].cell == used.cell {
        list[place].mode = stronger(list[place].mode, used.mode);
        return Ok(());
    }
    list.insert(place, used)?;
    Ok(())
}

/// How many of the cells come before this one.
fn place_of(list: &[Use], cell: Cell) -> usize
    requires { AreInOrder list.now }
    ensures { IsPlaceOf list.now cell result }
{
    if comes_last(list, cell) {
        return list.len();
    }
    list.partition_point(|used| used.cell.is_before(cell))
}

/// Whether the last of the cells, if there is one, comes before this one.
fn comes_last(list: &[Use], cell: Cell) -> bool
    requires { AreInOrder list.now }
    ensures { IsTrue result → AllWithin (λ u. is_before u.cell cell ≡ true) list.now 0 (length list.now) }
{
    match list.last() {
        None => true,
        Some(last) => last.cell.is_before(cell),
    }
}

/// The mode in which a cell is held for two touches.
fn stronger(one: Mode, two: Mode) -> Mode
    ensures { result ≡ stronger one two }
{
    match (one, two) {
        (Mode::Reads, _) => two,
        (Mode::Folds(_), Mode::Reads) => one,
        (Mode::Folds(op), Mode::Folds(other)) => stronger_fold(op, other),
        (_, _) => Mode::Writes,
    }
}

/// The mode of two folds: by two operations they are a write.
fn stronger_fold(one: Fold, two: Fold) -> Mode
    ensures { result ≡ stronger (Folds one) (Folds two) }
{
    if one == two {
        Mode::Folds(one)
    } else {
        Mode::Writes
    }
}
