//! How many children have not finished, by the groups that were open where they were created.
ghost use Rattle.std.specs.Prelude.{◌≡◌, ◌≢◌, ◌+◌, ◌-◌, ◌^◌, ◌<◌, ◌≤◌, ◌==◌, ℕ, true, cond, OnOk, All};
ghost use Rattle.std.specs.List.{list_any};
ghost use Rattle.ot_depend.specs.Groups.{count_of, IsCounted};

use std::alloc::{AllocError, Global};
use std::collections::BTreeMap;

/// A counter for each group.
#[derive(Debug, Drop)]
pub(crate) struct Groups {
    counts: BTreeMap<u32, usize>,
}

impl Groups {
    /// No group is counted. It takes no memory.
    pub(crate) fn new(alloc: Global) -> Groups
        ensures { (g : ℕ) → count_of result g ≡ 0 }
    {
        Groups {
            counts: BTreeMap::new(alloc),
        }
    }

    /// How many are counted for a group.
    pub(crate) fn of(&self, group: u32) -> usize
        ensures { result ≡ count_of self.now group }
    {
        self.counts.get(&group).copied().unwrap_or(0)
    }

    /// Makes a counter for a group that has none yet.
    fn make_one(&mut self, group: u32) -> Result<(), AllocError>
        ensures same { (g : ℕ) → count_of self.new g ≡ count_of self.old g }
        ensures made { OnOk result (IsCounted self.new group) }
        ensures kept { (g : ℕ) → IsCounted self.old g → IsCounted self.new g }
    {
        if !self.counts.contains_key(&group) {
            self.counts.insert(group, 0)?;
        }
        Ok(())
    }

    /// Makes a counter for each of these groups that has none yet.
    pub(crate) fn make_room(&mut self, groups: &[u32]) -> Result<(), AllocError>
        ensures same { (g : ℕ) → count_of self.new g ≡ count_of self.old g }
        ensures made { OnOk result (All (IsCounted self.new) groups.now) }
    {
        for group in groups {
            self.make_one(*group)?;
        }
        Ok(())
    }

    /// Counts one more for a group that has a counter.
    fn raise_one(&mut self, group: u32)
        requires made { IsCounted self.old group }
        requires small { count_of self.old group < 2 ^ 63 }
        ensures raised { count_of self.new group ≡ count_of self.old group + 1 }
        ensures others { (g : ℕ) → g ≢ group → count_of self.new g ≡ count_of self.old g }
        ensures kept { (g : ℕ) → IsCounted self.old g → IsCounted self.new g }
    {
        if let Some(count) = self.counts.get_mut(&group) {
            *count += 1;
        }
    }

    /// Counts one less for a group.
    fn lower_one(&mut self, group: u32)
        requires { 1 ≤ count_of self.old group }
        ensures lowered { count_of self.new group + 1 ≡ count_of self.old group }
        ensures others { (g : ℕ) → g ≢ group → count_of self.new g ≡ count_of self.old g }
    {
        if let Some(count) = self.counts.get_mut(&group) {
            *count -= 1;
        }
    }

    /// Counts one more for each of these groups, which are to have counters, once where a group
    /// stands there several times. It takes no memory.
    pub(crate) fn raise(&mut self, groups: &[u32])
        requires made { All (IsCounted self.old) groups.now }
        requires small { (g : ℕ) → count_of self.old g < 2 ^ 63 }
        ensures { (g : ℕ) → count_of self.new g ≡ count_of self.old g + cond (list_any (λ x. x == g) groups.now) 1 0 }
    {
        for i in 0..groups.len() {
            if !groups[..i].contains(&groups[i]) {
                self.raise_one(groups[i]);
            }
        }
    }

    /// Counts one less for each of these groups, once where a group stands there several times. It
    /// takes no memory.
    pub(crate) fn lower(&mut self, groups: &[u32])
        requires { (g : ℕ) → list_any (λ x. x == g) groups.now ≡ true → 1 ≤ count_of self.old g }
        ensures { (g : ℕ) → count_of self.new g + cond (list_any (λ x. x == g) groups.now) 1 0 ≡ count_of self.old g }
    {
        for i in 0..groups.len() {
            if !groups[..i].contains(&groups[i]) {
                self.lower_one(groups[i]);
            }
        }
    }
}
