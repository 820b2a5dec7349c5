//! Touches of a cell in one mode, under one set of locks.
ghost use Rattle.std.specs.Prelude.{◌≡◌, ◌⊎◌, ◌==◌, ◌&&◌, OnOk, true, Contains};
ghost use Rattle.ot_model.specs.Cells.{same_mode};
ghost use Rattle.ot_sets.specs.Sets.{has};
ghost use Rattle.ot_race_locks.specs.Kinds.{kind, kind_of, are_against, MissingFrom, TipIsPut, HasGrown};

use crate::locks::Locks;
use ot_model::Mode;
use ot_sets::Numbers;
use std::alloc::AllocError;

#[derive(Debug, Drop)]
pub(crate) struct Group {
    /// The number of the set of locks.
    pub(crate) set: u32,
    pub(crate) mode: Mode,
    /// Touches of this kind, to which all others are up.
    pub(crate) tips: Vec<u32>,
}

impl Group {
    /// Whether the group is of this kind.
    pub(crate) fn is_of(&self, set: u32, mode: Mode) -> bool
        ensures { result ≡ (self.now.set == set && same_mode self.now.mode mode) }
    {
        self.set == set && self.mode == mode
    }

    /// Whether its touches race with those of this kind where nothing orders them.
    pub(crate) fn is_against(&self, locks: &Locks<'_>, set: u32, mode: Mode) -> bool
        ensures { result ≡ are_against locks.now (kind_of self.now) (kind set mode) }
    {
        self.mode.conflicts(mode) && !locks.share(self.set, set)
    }

    /// The last of its tips, where it is in the set, or 0.
    pub(crate) fn newest(&self, known: &Numbers) -> u32
        ensures { (result ≡ 0) ⊎ (Contains self.now.tips.items result × (has known.now result ≡ true)) }
    {
        match self.tips.last() {
            Some(newest) if known.has(*newest as usize) => *newest,
            _ => 0,
        }
    }

    /// A touch more.
    pub(crate) fn add(&mut self, number: u32, known: &Numbers) -> Result<(), AllocError>
        ensures { OnOk result (HasGrown (kind_of self.old) number known.now self.old self.new) }
    {
        put(&mut self.tips, number, known)
    }
}

/// Puts an event behind tips, in place of the last one where it is behind that.
fn put(tips: &mut Vec<u32>, event: u32, known: &Numbers) -> Result<(), AllocError>
    ensures { OnOk result (TipIsPut tips.old.items event known.now tips.new.items) }
{
    match tips.pop() {
        Some(last) if !known.has(last as usize) => tips.push(last)?,
        _ => {}
    }
    tips.push(event)?;
    Ok(())
}

ghost use Rattle.ot_race_locks.specs.Kinds.{IsRising};

/// The last of these tips from this one on that isn't in the set.
pub(crate) fn missing_from(tips: &[u32], from: u32, known: &Numbers) -> Option<u32>
    requires { IsRising tips.now }
    ensures { MissingFrom tips.now from known.now result }
{
    let count = tips.len();
    for passed in 0..count {
        let tip = tips[count - 1 - passed];
        if tip < from {
            return None;
        }
        if !known.has(tip as usize) {
            return Some(tip);
        }
    }
    None
}
