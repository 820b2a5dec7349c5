//! The touches of a cell, by their kinds.
ghost use Rattle.std.specs.Prelude.{◌≡◌, [], IfOk, Contains, MatchOption, map, Some, slice_get};
ghost use Rattle.ot_race_locks.specs.Kinds.{kind, kind_of, groups_of, IsRising, IsFrom, IsRacing, KindHasBegun, KindFits};
ghost use Rattle.ot_race_locks.specs.declared.group.Group.{Group};

use crate::group::{Group, missing_from};
use crate::locks::Locks;
use ot_model::Mode;
use ot_sets::Numbers;
use std::alloc::{AllocError, Global};

/// A cell is touched in so many kinds, and no more.
const KINDS: usize = 64;

#[derive(Debug, Drop)]
pub(crate) struct Line {
    pub(crate) groups: Vec<Group>,
}

impl Line {
    /// No touch at all. It takes no memory.
    pub(crate) fn new(alloc: Global) -> Line
        ensures { groups_of result ≡ [] }
    {
        Line {
            groups: Vec::new(alloc),
        }
    }

    /// The place of the group of this kind.
    fn find(&self, set: u32, mode: Mode) -> Option<usize>
        ensures { MatchOption result (Contains (map kind_of (groups_of self.now)) (kind set mode) → ⊥)
            (λ place. (g : Group) × (slice_get (groups_of self.now) place ≡ Some g) × (kind_of g ≡ kind set mode)) }
    {
        for place in 0..self.groups.len() {
            if self.groups[place].is_of(set, mode) {
                return Some(place);
            }
        }
        None
    }

    /// A touch more, where it is of no kind that is one too many.
    pub(crate) fn add(
        &mut self,
        alloc: Global,
        set: u32,
        mode: Mode,
        number: u32,
        known: &Numbers,
    ) -> Result<bool, AllocError>
        ensures { IfOk result (KindFits (kind set mode) number known.now (groups_of self.old) (groups_of self.new)) }
    {
        let Some(place) = self.find(set, mode) else {
            return self.begin(alloc, set, mode, number);
        };
        self.groups[place].add(number, known)?;
        Ok(true)
    }
    /// The first touch of a kind.
    fn begin(
        &mut self,
        alloc: Global,
        set: u32,
        mode: Mode,
        number: u32,
    ) -> Result<bool, AllocError>
        ensures { IfOk result (KindHasBegun (kind set mode) number (groups_of self.old) (groups_of self.new)) }
    {
        if self.groups.len() >= KINDS {
            return Ok(false);
        }
        let tips = vec![in alloc; number]?;
        self.groups.push(Group { set, mode, tips })?;
        Ok(true)
    }
}

/// A touch that isn't in the set, of a kind that is against this one. Where the last of the same kind is in the set all
/// before it are behind that one, and are looked at no more.
pub(crate) fn racing(
    groups: &[Group],
    locks: &Locks<'_>,
    set: u32,
    mode: Mode,
    known: &Numbers,
) -> Option<u32>
    requires { (g : Group) → Contains groups.now g → IsRising g.tips.items }
    ensures { IsRacing locks.now groups.now (kind set mode) known.now result }
{
    let from = last_known(groups, set, mode, known);
    for group in groups {
        if group.is_against(locks, set, mode) {
            if let Some(tip) = missing_from(&group.tips, from, known) {
                return Some(tip);
            }
        }
    }
    None
}

/// The last touch of this kind, where it is in the set, or 0.
fn last_known(groups: &[Group], set: u32, mode: Mode, known: &Numbers) -> u32
    ensures { IsFrom groups.now (kind set mode) known.now result }
{
    for group in groups {
        if group.is_of(set, mode) {
            return group.newest(known);
        }
    }
    0
}
