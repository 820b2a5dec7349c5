//! What a judge keeps of tasks by the cells that they declare, as `ot_depend` keeps a body's children.
ghost use Rattle.std.specs.Prelude.{◌≡◌, ◌<◌, ◌⊎◌, ◌++◌, ℕ, IfOk, OnOk, false, true, [], ◌∷◌, Contains, length};
ghost use Rattle.ot_model.specs.Cells.{one_writes};
ghost use Rattle.ot_model.specs.declared.stmt.Mode.{Mode};
ghost use Rattle.ot_model.specs.declared.stmt.Use.{Use};
ghost use Rattle.ot_race.specs.Ends.{goes_on};
ghost use Rattle.ot_race.specs.Siblings.{is_write, seen_in, siblings_seen, seen_by_all, IsElsewhere, IsPut, HaveEntered, HavePassed};

use crate::ends::keep_going_on;
use crate::lanes::Shelf;
use ot_model::{Cell, Mode, Use};
use std::alloc::{AllocError, Global};

/// The children of one task that declare a cell.
#[derive(Debug, Drop)]
pub(crate) struct Row {
    /// Those that write it: one, where each of them has ended before the next begins.
    writers: Vec<u32>,
    /// Those that don't, and begin behind these.
    users: Vec<u32>,
}

/// The rows of all tasks' children, by array.
#[derive(Debug, Drop)]
pub(crate) struct Siblings {
    shelves: Vec<Shelf>,
}

/// An event, and where each task ends.
#[derive(Clone, Copy, Debug)]
pub(crate) struct Moment<'a> {
    pub(crate) number: u32,
    pub(crate) ends: &'a [u32],
}

fn is_write(mode: Mode) -> bool
    ensures { result ≡ is_write mode }
{
    matches!(mode, Mode::Writes)
}

impl Row {
    /// No child. It takes no memory.
    pub(crate) fn new(alloc: Global) -> Row
        ensures { (m : Mode) → seen_in result m ≡ [] }
    {
        Row {
            writers: Vec::new(alloc),
            users: Vec::new(alloc),
        }
    }

    /// Puts those behind the list on which one depends that uses the cell in this mode.
    pub(crate) fn list(&self, mode: Mode, listed: &mut Vec<u32>) -> Result<(), AllocError>
        ensures { OnOk result (listed.new.items ≡ listed.old.items ++ seen_in self.now mode) }
    {
        listed.extend_from_slice(&self.writers)?;
        if is_write(mode) {
            listed.extend_from_slice(&self.users)?;
        }
        Ok(())
    }

    /// Takes those of them out that have ended.
    fn pass(&mut self, alloc: Global, mode: Mode, at: Moment<'_>) -> Result<(), AllocError>
        ensures only { OnOk result ((m : Mode) (c : ℕ) → Contains (seen_in self.new m) c → Contains (seen_in self.old m) c) }
        ensures kept { OnOk result ((m : Mode) (c : ℕ) → Contains (seen_in self.old m) c → Contains (seen_in self.new m) c
            ⊎ ((goes_on at.entry.ends.now at.entry.number c ≡ false) × Contains (seen_in self.old mode) c)) }
    {
        keep_going_on(alloc, at.ends, at.number, &mut self.writers)?;
        if is_write(mode) {
            keep_going_on(alloc, at.ends, at.number, &mut self.users)?;
        }
        Ok(())
    }

    /// A child declares the cell in this mode. Where it writes the cell, it stands for those that have
    /// ended.
    fn enter(
        &mut self,
        alloc: Global,
        child: u32,
        mode: Mode,
        at: Moment<'_>,
    ) -> Result<(), AllocError>
        ensures only { OnOk result ((m : Mode) (c : ℕ) → Contains (seen_in self.new m) c → Contains (seen_in self.old m) c ⊎ ((c ≡ child) × (one_writes mode m ≡ true))) }
        ensures kept { OnOk result ((m : Mode) (c : ℕ) → Contains (seen_in self.old m) c → Contains (seen_in self.new m) c
            ⊎ ((goes_on at.entry.ends.now at.entry.number c ≡ false) × Contains (seen_in self.old mode) c × Contains (seen_in self.new m) child)) }
        ensures entered { OnOk result ((m : Mode) → one_writes mode m ≡ true → Contains (seen_in self.new m) child) }
    {
        if is_write(mode) {
            self.pass(alloc, mode, at)?;
            self.writers.push(child)?;
        } else {
            self.users.push(child)?;
        }
        Ok(())
    }
}

impl Siblings {
    /// No row. It takes no memory.
    pub(crate) fn new(alloc: Global) -> Siblings
        ensures { (parent : ℕ) (u : Use) → siblings_seen result parent u ≡ [] }
    {
        Siblings {
            shelves: Vec::new(alloc),
        }
    }

    /// The children of this parent, but for those that others stand for, on which one depends that has
    /// these uses.
    pub(crate) fn list(
        &self,
        alloc: Global,
        parent: u32,
        uses: &[Use],
    ) -> Result<Vec<u32>, AllocError>
        ensures { IfOk result (λ listed. listed.items ≡ seen_by_all self.now parent uses.now) }
    {
        let mut listed = Vec::new(alloc);
        for used in uses {
            self.list_one(parent, *used, &mut listed)?;
        }
        Ok(listed)
    }

    fn list_one(&self, parent: u32, used: Use, listed: &mut Vec<u32>) -> Result<(), AllocError>
        ensures { OnOk result (listed.new.items ≡ listed.old.items ++ siblings_seen self.now parent used) }
    {
        match self.shelves.get(used.cell.array as usize) {
            Some(shelf) => shelf.list(used.cell.index, parent, used.mode, listed),
            None => Ok(()),
        }
    }

    /// A child of this parent has these uses.
    pub(crate) fn enter(
        &mut self,
        alloc: Global,
        parent: u32,
        child: u32,
        uses: &[Use],
        at: Moment<'_>,
    ) -> Result<(), AllocError>
        ensures { OnOk result (HaveEntered at.entry.ends.now at.entry.number parent child uses.now self.old self.new) }
    {
        for used in uses {
            self.enter_one(alloc, parent, child, *used, at)?;
        }
        Ok(())
    }

    fn enter_one(
        &mut self,
        alloc: Global,
        parent: u32,
        child: u32,
        used: Use,
        at: Moment<'_>,
    ) -> Result<(), AllocError>
        ensures { OnOk result (HaveEntered at.entry.ends.now at.entry.number parent child (used ∷ []) self.old self.new) }
    {
        let mut row = self.take(alloc, parent, used.cell)?;
        row.enter(alloc, child, used.mode, at)?;
        self.put(alloc, parent, used.cell, row)
    }

    /// Takes a row out.
    fn take(&mut self, alloc: Global, parent: u32, cell: Cell) -> Result<Row, AllocError>
        ensures was { IfOk result (λ row. (u : Use) → u.cell ≡ cell → siblings_seen self.old parent u ≡ seen_in row u.mode) }
        ensures others { OnOk result ((p : ℕ) (u : Use) → IsElsewhere parent cell p u → siblings_seen self.new p u ≡ siblings_seen self.old p u) }
    {
        self.reach(alloc, cell.array)?;
        self.shelves[cell.array as usize].take(alloc, cell.index, parent)
    }

    /// Puts a row in.
    fn put(&mut self, alloc: Global, parent: u32, cell: Cell, row: Row) -> Result<(), AllocError>
        ensures { OnOk result (IsPut parent cell row self.old self.new) }
    {
        self.reach(alloc, cell.array)?;
        self.shelves[cell.array as usize].put(alloc, cell.index, parent, row)
    }

    /// Makes a shelf for the array.
    fn reach(&mut self, alloc: Global, array: u32) -> Result<(), AllocError>
        ensures same { (p : ℕ) (u : Use) → siblings_seen self.new p u ≡ siblings_seen self.old p u }
        ensures there { OnOk result (array < length self.new.shelves.items) }
    {
        for _ in self.shelves.len()..array as usize + 1 {
            self.shelves.push(Shelf::new(alloc))?;
        }
        Ok(())
    }

    /// A wait of this parent that has these uses is over.
    pub(crate) fn pass(
        &mut self,
        alloc: Global,
        parent: u32,
        uses: &[Use],
        at: Moment<'_>,
    ) -> Result<(), AllocError>
        ensures { OnOk result (HavePassed at.entry.ends.now at.entry.number parent uses.now self.old self.new) }
    {
        for used in uses {
            self.pass_one(alloc, parent, *used, at)?;
        }
        Ok(())
    }

    fn pass_one(
        &mut self,
        alloc: Global,
        parent: u32,
        used: Use,
        at: Moment<'_>,
    ) -> Result<(), AllocError>
        ensures { OnOk result (HavePassed at.entry.ends.now at.entry.number parent (used ∷ []) self.old self.new) }
    {
        if !self.has(used.cell) {
            return Ok(());
        }
        let mut row = self.take(alloc, parent, used.cell)?;
        row.pass(alloc, used.mode, at)?;
        self.put(alloc, parent, used.cell, row)
    }
    /// Whether the cell has rows.
    fn has(&self, cell: Cell) -> bool {
        match self.shelves.get(cell.array as usize) {
            Some(shelf) => shelf.has(cell.index),
            None => false,
        }
    }
}
