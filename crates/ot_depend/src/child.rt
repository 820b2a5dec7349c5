//! One child of a body, and who waits for whom among the children.
ghost use Rattle.std.specs.Prelude.{◌≡◌, ◌+◌, ◌<◌, ◌||◌, false, OnOk, All, length, not, vec_capacity};
ghost use Rattle.std.specs.List.{list_any};
ghost use Rattle.ot_depend.specs.Cells.{is_pending};
ghost use Rattle.ot_depend.specs.Kept.{ends_with, due, enlist, kids_enlisted, woken, waiters_of, WaitForAll, HasRoom, Admits};
ghost use Rattle.ot_depend.specs.Children.{kid_of, kids_of, HasRoomAt, AdmitsAt};

use crate::numbers::{make_room, put_last};
use ot_model::Decl;
use std::alloc::AllocError;
use std::sync::Arc;

/// One child of the body.
#[derive(Debug, Drop)]
pub(crate) struct Child {
    pub(crate) decl: Arc<Decl>,
    /// The groups that were open where it was created.
    pub(crate) groups: Vec<u32>,
    pub(crate) finished: bool,
    /// For how many unfinished siblings it waits by itself.
    pub(crate) waiting: usize,
    /// The later children that wait for it by themselves.
    pub(crate) waiters: Vec<usize>,
}

impl Child {
    /// Makes room for one more child that waits for it, where it has not finished.
    fn make_room(&mut self) -> Result<(), AllocError>
        ensures same { kid_of self.new ≡ kid_of self.old }
        ensures made { OnOk result (self.new.finished ≡ false → HasRoom self.new.waiters) }
    {
        if self.finished {
            return Ok(());
        }
        make_room(&mut self.waiters)
    }

    /// Puts a later child to those that wait for it, where it has not finished, and tells whether
    /// it did so. There is to be room. It takes no memory.
    fn enlist(&mut self, later: usize) -> bool
        requires { self.old.finished ≡ false → Admits later self.old.waiters }
        ensures exact { kid_of self.new ≡ enlist later (kid_of self.old) }
        ensures told { result ≡ not (self.old.finished || ends_with later self.old.waiters.items) }
        ensures admits { self.new.finished ≡ false → Admits later self.new.waiters }
    {
        !self.finished && put_last(&mut self.waiters, later)
    }
}

/// Makes room for one more child that waits for each of these that has not finished.
pub(crate) fn make_rooms(children: &mut Vec<Child>, earlier: &[usize]) -> Result<(), AllocError>
    requires { All (λ p. p < length children.old.items) earlier.now }
    ensures same { kids_of children.new.items ≡ kids_of children.old.items }
    ensures made { OnOk result (All (HasRoomAt children.new.items) earlier.now) }
{
    for place in earlier {
        children[*place].make_room()?;
    }
    Ok(())
}

/// Puts a later child to those that wait for each of these, and tells for how many it waits so. It
/// takes no memory.
pub(crate) fn enlist(children: &mut Vec<Child>, earlier: &[usize], later: usize) -> usize
    requires known { All (λ p. p < length children.old.items) earlier.now }
    requires room { All (AdmitsAt later children.old.items) earlier.now }
    ensures exact { kids_of children.new.items ≡ kids_enlisted later (kids_of children.old.items) earlier.now }
    ensures capacity { vec_capacity children.new ≡ vec_capacity children.old }
    ensures waiting { due later (kids_of children.old.items) + result ≡ due later (kids_of children.new.items) }
{
    let mut waiting = 0;
    for place in earlier {
        waiting += usize::from(children[*place].enlist(later));
    }
    waiting
}

/// Each child that waits for this one waits for one less. It takes no memory.
pub(crate) fn wake(children: &mut Vec<Child>, finished: usize)
    requires known { finished < length children.old.items }
    requires wait { WaitForAll (kids_of children.old.items) (waiters_of (kids_of children.old.items) finished) }
    ensures { kids_of children.new.items ≡ woken (kids_of children.old.items) (waiters_of (kids_of children.old.items) finished) }
{
    for i in 0..children[finished].waiters.len() {
        let later = children[finished].waiters[i];
        children[later].waiting -= 1;
    }
}

/// Whether a child is known, and has not finished.
pub(crate) fn is_pending(children: &[Child], child: usize) -> bool
    ensures { result ≡ is_pending (kids_of children.now) child }
{
    match children.get(child) {
        Some(known) => !known.finished,
        None => false,
    }
}

/// Whether one of these children is known, and has not finished.
pub(crate) fn some_pending(children: &[Child], some: &[usize]) -> bool
    ensures { result ≡ list_any (is_pending (kids_of children.now)) some.now }
{
    for child in some {
        if is_pending(children, *child) {
            return true;
        }
    }
    false
}
