//! Which items claim which cells.
ghost use Rattle.std.specs.Prelude.{◌≡◌, ℕ, OnOk, true, false, if◌then◌else◌, Some, None, ◌≢◌};
ghost use Rattle.ot_c_overlap.specs.Claims.{claimed_section, Clashes, DiffersAt, AreWhole, is_here, is_taken};

use crate::item::Item;
use ot_model::Section;
use std::alloc::{AllocError, Global};
use std::collections::BTreeMap;

/// The section that has a cell among the items of a task's children that write, by that task, the array and the index.
#[derive(Debug, Drop)]
pub(crate) struct Claims {
    sections: BTreeMap<(u32, u32, u64), Section>,
}

impl Claims {
    /// No claim. It takes no memory.
    pub(crate) fn new(alloc: Global) -> Claims
        ensures { (parent array index : ℕ) → claimed_section result parent array index ≡ None }
    {
        Claims {
            sections: BTreeMap::new(alloc),
        }
    }

    /// Whether the section of an item claims its first cell, and so each of its cells.
    fn has_claimed(&self, item: &Item) -> bool
        ensures { result ≡ true → claimed_section self.now item.now.parent item.now.section.array item.now.section.start ≡ Some item.now.section }
    {
        let start = u64::from(item.section.start);
        match self.sections.get(&(item.parent, item.section.array, start)) {
            Some(section) => are_same(*section, item.section),
            None => false,
        }
    }

    /// Whether a cell of an item is claimed by another section. It looks at one cell where the item's own section claims it.
    pub(crate) fn clashes(&self, item: &Item) -> bool
        requires { AreWhole self.now }
        ensures some { result ≡ true → Clashes self.now item.now }
        ensures none { result ≡ false → Clashes self.now item.now → ⊥ }
    {
        if self.has_claimed(item) {
            return false;
        }
        let start = u64::from(item.section.start);
        let len = u64::from(item.section.len);
        for index in start..start + len {
            if self.differs(item, index) {
                return true;
            }
        }
        false
    }

    /// Whether another section than that of the item claims the cell at an index of its array.
    fn differs(&self, item: &Item, index: u64) -> bool
        ensures some { result ≡ true → DiffersAt self.now item.now index }
        ensures none { result ≡ false → DiffersAt self.now item.now index → ⊥ }
    {
        match self.sections.get(&(item.parent, item.section.array, index)) {
            Some(section) => !are_same(*section, item.section),
            None => false,
        }
    }

    /// An item that writes claims its cells.
    pub(crate) fn take(&mut self, item: &Item) -> Result<(), AllocError>
        requires { AreWhole self.old }
        ensures { OnOk result ((parent array index : ℕ) → claimed_section self.new parent array index
            ≡ (if is_taken item.now parent array index then Some item.now.section else claimed_section self.old parent array index)) }
    {
        if item.writes {
            self.claim(item)
        } else {
            Ok(())
        }
    }

    /// An item claims its cells, where its section doesn't yet.
    fn claim(&mut self, item: &Item) -> Result<(), AllocError>
        requires { AreWhole self.old }
        ensures { OnOk result ((parent array index : ℕ) → claimed_section self.new parent array index
            ≡ (if is_here item.now parent array index then Some item.now.section else claimed_section self.old parent array index)) }
    {
        if self.has_claimed(item) {
            return Ok(());
        }
        self.enter(item)
    }

    /// An item claims its cells.
    fn enter(&mut self, item: &Item) -> Result<(), AllocError>
        ensures { OnOk result ((parent array index : ℕ) → claimed_section self.new parent array index
            ≡ (if is_here item.now parent array index then Some item.now.section else claimed_section self.old parent array index)) }
    {
        let start = u64::from(item.section.start);
        let len = u64::from(item.section.len);
        let section = item.section;
        for index in start..start + len {
            self.sections
                .insert((item.parent, section.array, index), section)?;
        }
        Ok(())
    }
}

fn are_same(one: Section, other: Section) -> bool
    ensures same { result ≡ true → one ≡ other }
    ensures apart { result ≡ false → one ≢ other }
{
    one == other
}
