ghost use Rattle.std.specs.Prelude.{◌≡◌, ◌+◌, ◌<◌, ◌≤◌, ◌++◌, ◌↔◌, [], ◌∷◌, ℕ, Some, true, false, IsTrue, IfOk, OnOk, OnErr, length, take, slice_get, count_by, All};

use crate::kept::Kept;
use ot_model::Decl;
use std::alloc::{AllocError, Global};
use std::marker::Model;
use std::sync::Arc;

/// The children of one body, numbered from 0 in order of their creation: what each declares, the
/// groups that were open where it was created, and whether it has finished.
#[derive(Debug, Drop)]
pub struct Siblings {
    kept: Kept,
}

impl Model for Siblings {
    ghost use Rattle.std.specs.Prelude.{List};
    ghost use Rattle.ot_depend.specs.Siblings.{Sibling};

    ghost Value = { List Sibling };

    ghost use Rattle.ot_depend.specs.View.{siblings_in, IsKept};

    ghost view = { λ s. siblings_in s.kept };

    ghost invariant = { λ s. IsKept s.kept };
}

impl Siblings {
    ghost use Rattle.std.specs.Arc.{arc_value};
    ghost use Rattle.ot_model.specs.declared.stmt.Use.{Use};
    ghost use Rattle.ot_depend.specs.Siblings.{waiting_for, IsReady, IsUnfinished, FinishedAreReady, sibling_created, with_finished, is_ready, is_unfinished, is_unfinished_in, waits_for, AreFree, LetsTheSame, WaitForLess};

    /// No children. It takes no memory.
    pub fn new(alloc: Global) -> Siblings
        ensures { result ≡ [] }
    {
        Siblings {
            kept: Kept::new(alloc),
        }
    }

    /// Adds a child that is created with this declaration while these groups are open. The answer
    /// is its number, counted from 0. Where memory is refused, the children are as before.
    pub fn add(
        &mut self,
        alloc: Global,
        decl: Arc<Decl>,
        groups: &[u32],
    ) -> Result<usize, AllocError>
        ensures number { IfOk result (λ child. child ≡ length self.old) }
        ensures added { OnOk result (self.new ≡ self.old ++ sibling_created (arc_value decl) groups.now ∷ []) }
        ensures refused { OnErr result (self.new ≡ self.old) }
    {
        let groups = groups.to_vec(alloc)?;
        self.kept.plan(alloc, decl.uses(), &groups)?;
        Ok(self.kept.add(alloc, decl, groups))
    }

    /// Marks a child as finished. It is to be ready, and not to have finished before. It takes no
    /// memory.
    pub fn finish(&mut self, child: usize)
        requires ready { IsReady self.old child }
        requires unfinished { IsUnfinished self.old child }
        ensures { self.new ≡ with_finished self.old child }
    {
        self.kept.finish(child);
    }

    /// Marks a child as finished, and hands out the children that waited for it by themselves, each once:
    /// those are the children that wait for less now, and no other one is ready by this that wasn't
    /// before. The child is to be ready, and not to have finished before.
    pub fn release(&mut self, child: usize) -> Vec<usize>
        requires ready { IsReady self.old child }
        requires unfinished { IsUnfinished self.old child }
        ensures finished { self.new ≡ with_finished self.old child }
        ensures known { All (λ w. w < length self.old) result.items }
        ensures others { LetsTheSame result.items self.old self.new }
        ensures exact { WaitForLess result.items self.old self.new }
    {
        self.kept.release(child)
    }

    /// Whether the child may run as far as its dependences go: each earlier sibling on which it
    /// depends has finished (OpenMP API 5.2, section 15.9.5). Of two that share a cell, the later
    /// depends on the earlier where at least one of them writes it. Of an unknown number this is
    /// false, of a child that has finished it is true. It takes no memory.
    pub fn ready(&self, child: usize) -> bool
        ensures exact { IsTrue result ↔ IsReady self.now child }
        ensures test { result ≡ is_ready self.now child }
        ensures finished { FinishedAreReady self.now }
    {
        self.kept.is_ready(child)
    }

    /// For how many unfinished siblings the child waits by itself: those on which it depends at a
    /// cell that no sibling between the two writes. It waits for none exactly where it is ready. The
    /// child is to be known. It takes no memory.
    pub fn waiting(&self, child: usize) -> usize
        requires { child < length self.now }
        ensures exact { result ≡ waiting_for self.now child }
        ensures none { (result ≡ 0) ↔ IsReady self.now child }
    {
        self.kept.waiting(child)
    }

    /// How many children have not finished (`taskwait` waits for them, OpenMP API 5.2, section
    /// 15.5). It takes no memory.
    pub fn unfinished(&self) -> usize
        ensures { result ≡ count_by is_unfinished self.now }
    {
        self.kept.unfinished
    }

    /// How many children have not finished of those in whose creation this group was open (the end
    /// of a `taskgroup` waits for them, OpenMP API 5.2, section 15.4). It takes no memory.
    pub fn unfinished_in(&self, group: u32) -> usize
        ensures { result ≡ count_by (is_unfinished_in group) self.now }
    {
        self.kept.groups.of(group)
    }

    /// Whether a wait that declares these cells has to wait still: a child that has not finished shares
    /// a cell with it that at least one of the two writes (`taskwait` with `depend`, OpenMP API 5.2,
    /// sections 15.5 and 15.9.5). A wait without cells awaits nobody. It looks at the rows of these
    /// cells alone, and takes no memory.
    pub fn waits_for(&self, decl: &Decl) -> bool
        ensures { result ≡ waits_for self.now decl.now }
    {
        self.kept.waits_for(decl.uses())
    }
    /// The place of the first use of the declaration, from `from` on, at which a wait that declares these
    /// cells has to wait still: an unfinished child shares its cell, and at least one of the two writes
    /// it. It's how many uses there are where it has to wait at none. As children finish, uses that are
    /// free stay free, so whoever asks again begins where it stopped. It looks at the rows of the cells
    /// that it passes alone, and takes no memory.
    pub fn count_free(&self, decl: &Decl, from: usize) -> usize
        ensures from { from ≤ result }
        ensures bounded { from ≤ length decl.now → result ≤ length decl.now }
        ensures free { AreFree self.now decl.now from → AreFree self.now decl.now result }
        ensures held { result < length decl.now → waits_for self.now (take (result + 1) decl.now) ≡ true }
        ensures passed { (i : ℕ) (u : Use) → from ≤ i → i < result → slice_get decl.now i ≡ Some u → waits_for self.now (u ∷ []) ≡ false }
        ensures stopped { (u : Use) → slice_get decl.now result ≡ Some u → waits_for self.now (u ∷ []) ≡ true }
        ensures whole { result < length decl.now → waits_for self.now decl.now ≡ true }
    {
        self.kept.count_free(decl.uses(), from)
    }
}
