//! Rows of children, by cell and by parent.
ghost use Rattle.std.specs.Prelude.{◌≡◌, ◌≢◌, ◌==◌, ◌++◌, [], ℕ, OnOk, false, ◌<◌, ◌⊎◌, IfOk, length, nat_lt};
ghost use Rattle.std.specs.BTreeMap.{get};
ghost use Rattle.std.specs.Ordering.{nat_cmp};
ghost use Rattle.ot_model.specs.declared.stmt.Mode.{Mode};
ghost use Rattle.ot_race.specs.Siblings.{seen_in, seen_of, seen_lane, seen_at};

use crate::siblings::Row;
use ot_model::Mode;
use std::alloc::{AllocError, Global};
use std::collections::BTreeMap;

/// The rows of a cell: that of the parent whose child named it last, and those of others.
#[derive(Debug, Drop)]
pub(crate) struct Lane {
    parent: u32,
    row: Row,
    others: BTreeMap<u32, Row>,
}

/// The lanes of the first cells of an array.
#[derive(Debug, Drop)]
pub(crate) struct Shelf {
    lanes: Vec<Lane>,
}

impl Lane {
    /// No child. It takes no memory.
    fn new(alloc: Global, parent: u32) -> Lane
        ensures { (p : ℕ) (m : Mode) → seen_lane result p m ≡ [] }
    {
        Lane {
            parent,
            row: Row::new(alloc),
            others: BTreeMap::new(alloc),
        }
    }

    /// Whether its first row is this parent's.
    fn is_of(&self, parent: u32) -> bool
        ensures { result ≡ (self.now.parent == parent) }
    {
        self.parent == parent
    }

    /// Puts those of this parent's children behind the list on which one depends that uses the cell in
    /// this mode.
    fn list(&self, parent: u32, mode: Mode, listed: &mut Vec<u32>) -> Result<(), AllocError>
        ensures { OnOk result (listed.new.items ≡ listed.old.items ++ seen_lane self.now parent mode) }
    {
        if self.is_of(parent) {
            self.row.list(mode, listed)
        } else {
            self.list_other(parent, mode, listed)
        }
    }

    /// The same where its first row isn't this parent's.
    fn list_other(&self, parent: u32, mode: Mode, listed: &mut Vec<u32>) -> Result<(), AllocError>
        ensures { OnOk result (listed.new.items ≡ listed.old.items ++ seen_of (get nat_cmp self.now.others parent) mode) }
    {
        match self.others.get(&parent) {
            Some(row) => row.list(mode, listed),
            None => Ok(()),
        }
    }

    /// Takes the row of this parent out.
    fn take(&mut self, alloc: Global, parent: u32) -> Row
        ensures was { (m : Mode) → seen_lane self.old parent m ≡ seen_in result m }
        ensures others { (p : ℕ) (m : Mode) → p ≢ parent → seen_lane self.new p m ≡ seen_lane self.old p m }
    {
        if self.is_of(parent) {
            std::mem::replace(&mut self.row, Row::new(alloc))
        } else {
            self.take_other(alloc, parent)
        }
    }

    /// The same where its first row isn't this parent's.
    fn take_other(&mut self, alloc: Global, parent: u32) -> Row
        ensures was { (m : Mode) → seen_of (get nat_cmp self.old.others parent) m ≡ seen_in result m }
        ensures first { self.new.parent ≡ self.old.parent }
        ensures row { self.new.row ≡ self.old.row }
        ensures others { (p : ℕ) → p ≢ parent → get nat_cmp self.new.others p ≡ get nat_cmp self.old.others p }
    {
        match self.others.remove(&parent) {
            Some(row) => row,
            None => Row::new(alloc),
        }
    }

    /// Puts the row of this parent in.
    fn put(&mut self, parent: u32, row: Row) -> Result<(), AllocError>
        ensures { OnOk result (((m : Mode) → seen_lane self.new parent m ≡ seen_in row m)
            × ((p : ℕ) (m : Mode) → p ≢ parent → seen_lane self.new p m ≡ seen_lane self.old p m)) }
    {
        if self.is_of(parent) {
            self.row = row;
            Ok(())
        } else {
            self.put_first(parent, row)
        }
    }

    /// The same where its first row isn't this parent's: then it is.
    fn put_first(&mut self, parent: u32, row: Row) -> Result<(), AllocError>
        requires { (self.old.parent == parent) ≡ false }
        ensures { OnOk result (((m : Mode) → seen_lane self.new parent m ≡ seen_in row m)
            × ((p : ℕ) (m : Mode) → p ≢ parent → seen_lane self.new p m ≡ seen_lane self.old p m)) }
    {
        let before = std::mem::replace(&mut self.row, row);
        self.others.insert(self.parent, before)?;
        self.parent = parent;
        Ok(())
    }
}

impl Shelf {
    /// No lane. It takes no memory.
    pub(crate) fn new(alloc: Global) -> Shelf
        ensures { (i p : ℕ) (m : Mode) → seen_at result i p m ≡ [] }
    {
        Shelf {
            lanes: Vec::new(alloc),
        }
    }

    /// Whether a cell has a lane.
    pub(crate) fn has(&self, index: u32) -> bool
        ensures { result ≡ nat_lt index (length self.now.lanes.items) }
    {
        (index as usize) < self.lanes.len()
    }

    /// Puts those of this parent's children behind the list on which one depends that uses the cell in
    /// this mode.
    pub(crate) fn list(
        &self,
        index: u32,
        parent: u32,
        mode: Mode,
        listed: &mut Vec<u32>,
    ) -> Result<(), AllocError>
        ensures { OnOk result (listed.new.items ≡ listed.old.items ++ seen_at self.now index parent mode) }
    {
        match self.lanes.get(index as usize) {
            Some(lane) => lane.list(parent, mode, listed),
            None => Ok(()),
        }
    }

    /// Takes the row of this parent out.
    pub(crate) fn take(&mut self, alloc: Global, index: u32, parent: u32) -> Result<Row, AllocError>
        ensures was { IfOk result (λ row. (m : Mode) → seen_at self.old index parent m ≡ seen_in row m) }
        ensures others { OnOk result ((i p : ℕ) (m : Mode) → (p ≢ parent) ⊎ (i ≢ index) → seen_at self.new i p m ≡ seen_at self.old i p m) }
    {
        self.reach(alloc, index, parent)?;
        Ok(self.lanes[index as usize].take(alloc, parent))
    }

    /// Puts the row of this parent in.
    pub(crate) fn put(
        &mut self,
        alloc: Global,
        index: u32,
        parent: u32,
        row: Row,
    ) -> Result<(), AllocError>
        ensures { OnOk result (((m : Mode) → seen_at self.new index parent m ≡ seen_in row m)
            × ((i p : ℕ) (m : Mode) → (p ≢ parent) ⊎ (i ≢ index) → seen_at self.new i p m ≡ seen_at self.old i p m)) }
    {
        self.reach(alloc, index, parent)?;
        self.lanes[index as usize].put(parent, row)
    }

    /// Makes a lane for the cell.
    fn reach(&mut self, alloc: Global, index: u32, parent: u32) -> Result<(), AllocError>
        ensures same { (i p : ℕ) (m : Mode) → seen_at self.new i p m ≡ seen_at self.old i p m }
        ensures there { OnOk result (index < length self.new.lanes.items) }
    {
        for _ in self.lanes.len()..index as usize + 1 {
            self.lanes.push(Lane::new(alloc, parent))?;
        }
        Ok(())
    }
}
