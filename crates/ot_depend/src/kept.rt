//! The children of a body with what is kept beside them: the rows of the cells and the counters.
ghost use Rattle.std.specs.Prelude.{◌≡◌, ◌++◌, ◌∷◌, [], ◌↔◌, ◌+◌, ◌<◌, ◌≤◌, ℕ, IsTrue, OnOk, Some, true, false, length, take, slice_get, All};
ghost use Rattle.ot_model.specs.declared.stmt.Use.{Use};
ghost use Rattle.ot_depend.specs.Siblings.{waiting_for, sibling_created, with_finished, IsReady, IsUnfinished, waits_for, AreFree};

use crate::cells::{Spot, Table};
use crate::child::{Child, enlist, make_rooms, wake};
use crate::groups::Groups;
use ot_model::{Decl, Use};
use std::alloc::{AllocError, Global};
use std::mem;
use std::sync::Arc;

/// The children, and what is kept so that none has to be passed over.
#[derive(Debug, Drop)]
pub(crate) struct Kept {
    pub(crate) children: Vec<Child>,
    cells: Table,
    /// How many have not finished, by group.
    pub(crate) groups: Groups,
    /// How many have not finished.
    pub(crate) unfinished: usize,
    /// The uses of the child that was planned last.
    spots: Vec<Spot>,
    /// The children for whom it waits by itself, where they have not finished.
    earlier: Vec<usize>,
}

impl Kept {
    ghost use Rattle.std.specs.Arc.{arc_value};
    ghost use Rattle.ot_depend.specs.View.{kids_in, siblings_in, IsKept, IsPlanned};
    ghost use Rattle.ot_model.specs.Cells.{updated};
    ghost use Rattle.ot_depend.specs.Kept.{woken, waiters_of, kid_ended};
    ghost use Rattle.ot_depend.specs.Siblings.{LetsTheSame, WaitForLess};

    /// No children. It takes no memory.
    pub(crate) fn new(alloc: Global) -> Kept
        ensures none { siblings_in result ≡ [] }
        ensures kept { IsKept result }
    {
        Kept {
            children: Vec::new(alloc),
            cells: Table::new(alloc),
            groups: Groups::new(alloc),
            unfinished: 0,
            spots: Vec::new(alloc),
            earlier: Vec::new(alloc),
        }
    }

    /// Looks up what adding a child with these uses needs, and makes room for it.
    pub(crate) fn plan(
        &mut self,
        alloc: Global,
        uses: &[Use],
        groups: &[u32],
    ) -> Result<(), AllocError>
        requires { IsKept self.old }
        ensures kept { IsKept self.new }
        ensures same { siblings_in self.new ≡ siblings_in self.old }
        ensures planned { OnOk result (IsPlanned self.new uses.now groups.now) }
    {
        self.groups.make_room(groups)?;
        self.cells.spots(alloc, uses, &mut self.spots)?;
        self.cells.earlier(&self.spots, &mut self.earlier)?;
        make_rooms(&mut self.children, &self.earlier)?;
        self.children.reserve(1)
    }

    /// Adds the child that was planned, and tells its number. It takes no memory.
    pub(crate) fn add(&mut self, alloc: Global, decl: Arc<Decl>, groups: Vec<u32>) -> usize
        requires kept { IsKept self.old }
        requires planned { IsPlanned self.old (arc_value decl) groups.items }
        ensures number { result ≡ length (siblings_in self.old) }
        ensures added { siblings_in self.new ≡ siblings_in self.old ++ sibling_created (arc_value decl) groups.items ∷ [] }
        ensures kept { IsKept self.new }
    {
        let child = self.children.len();
        let waiting = enlist(&mut self.children, &self.earlier, child);
        self.cells.enter(child, &self.spots);
        self.groups.raise(&groups);
        self.unfinished += 1;
        self.children.push_reserved(Child {
            decl,
            groups,
            finished: false,
            waiting,
            waiters: Vec::new(alloc),
        });
        child
    }

    /// Marks a child as finished, and tells those that wait for it. It takes no memory.
    pub(crate) fn finish(&mut self, child: usize)
        requires kept { IsKept self.old }
        requires ready { IsReady (siblings_in self.old) child }
        requires unfinished { IsUnfinished (siblings_in self.old) child }
        ensures marked { siblings_in self.new ≡ with_finished (siblings_in self.old) child }
        ensures kids { kids_in self.new ≡ updated (woken (kids_in self.old) (waiters_of (kids_in self.old) child)) child kid_ended }
        ensures kept { IsKept self.new }
    {
        wake(&mut self.children, child);
        self.groups.lower(&self.children[child].groups);
        self.unfinished -= 1;
        self.children[child].finished = true;
    }

    /// Marks a child as finished, and hands out those that waited for it by themselves.
    pub(crate) fn release(&mut self, child: usize) -> Vec<usize>
        requires kept { IsKept self.old }
        requires ready { IsReady (siblings_in self.old) child }
        requires unfinished { IsUnfinished (siblings_in self.old) child }
        ensures marked { siblings_in self.new ≡ with_finished (siblings_in self.old) child }
        ensures kept { IsKept self.new }
        ensures known { All (λ w. w < length (siblings_in self.old)) result.items }
        ensures others { LetsTheSame result.items (siblings_in self.old) (siblings_in self.new) }
        ensures exact { WaitForLess result.items (siblings_in self.old) (siblings_in self.new) }
    {
        self.finish(child);
        let alloc = *self.children.allocator();
        mem::replace(&mut self.children[child].waiters, Vec::new(alloc))
    }

    /// Whether the child is known and waits for none.
    pub(crate) fn is_ready(&self, child: usize) -> bool
        requires { IsKept self.now }
        ensures { IsTrue result ↔ IsReady (siblings_in self.now) child }
    {
        child < self.children.len() && self.children[child].waiting == 0
    }

    /// For how many unfinished children a known child waits by itself.
    pub(crate) fn waiting(&self, child: usize) -> usize
        requires kept { IsKept self.now }
        requires known { child < length (siblings_in self.now) }
        ensures exact { result ≡ waiting_for (siblings_in self.now) child }
        ensures none { (result ≡ 0) ↔ IsReady (siblings_in self.now) child }
    {
        self.children[child].waiting
    }

    /// The place of the first of these uses, from `from` on, for which a wait that declares them has to
    /// wait for one of the children, or how many uses there are.
    pub(crate) fn count_free(&self, uses: &[Use], from: usize) -> usize
        requires { IsKept self.now }
        ensures from { from ≤ result }
        ensures bounded { from ≤ length uses.now → result ≤ length uses.now }
        ensures free { AreFree (siblings_in self.now) uses.now from → AreFree (siblings_in self.now) uses.now result }
        ensures held { result < length uses.now → waits_for (siblings_in self.now) (take (result + 1) uses.now) ≡ true }
        ensures passed { (i : ℕ) (u : Use) → from ≤ i → i < result → slice_get uses.now i ≡ Some u → waits_for (siblings_in self.now) (u ∷ []) ≡ false }
        ensures stopped { (u : Use) → slice_get uses.now result ≡ Some u → waits_for (siblings_in self.now) (u ∷ []) ≡ true }
        ensures whole { result < length uses.now → waits_for (siblings_in self.now) uses.now ≡ true }
    {
        self.cells.count_free(uses, from, &self.children)
    }

    /// Whether a wait that declares these uses has to wait for one of the children.
    pub(crate) fn waits_for(&self, uses: &[Use]) -> bool
        requires { IsKept self.now }
        ensures { result ≡ waits_for (siblings_in self.now) uses.now }
    {
        self.count_free(uses, 0) < uses.len()
    }
}
