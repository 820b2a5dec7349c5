ghost use Rattle.std.specs.Prelude.{◌≡◌, ◌+◌, ◌<◌, ◌≤◌, false, IsTrue, length, option_map, ◌∷◌, ◌++◌, ◌^◌, [], List, Some, None, IfOk, OnOk, OnErr, MatchOption, vec_len};
ghost use Rattle.std.specs.Arc.{arc_value};
ghost use Rattle.ot_parts.specs.Left.{next_at, frame_parts, outer_parts, parts_left, rest_left, comes, IsTrim, IsShown, IsHidden, steps_left};

use crate::assign::Assign;
use crate::gather::gather;
use crate::part::Part;
use crate::weigh::weigh;
use std::alloc::{AllocError, Global};
use std::mem;
use std::sync::Arc;

/// A place in a body.
#[derive(Debug, Drop)]
pub(crate) struct Frame {
    body: Arc<Vec<Part>>,
    at: usize,
}

impl Frame {
    /// Whether no part comes any more.
    fn is_over(&self) -> bool
        ensures over { IsTrue result → length (arc_value self.now.body).items ≤ self.now.at }
        ensures not { result ≡ false → self.now.at < length (arc_value self.now.body).items }
    {
        self.at >= self.body.len()
    }

    /// Whether at most one part comes.
    fn is_last(&self) -> bool
        ensures last { IsTrue result → length (arc_value self.now.body).items ≤ self.now.at + 1 }
        ensures not { result ≡ false → self.now.at + 1 < length (arc_value self.now.body).items }
    {
        self.at >= self.body.len().saturating_sub(1)
    }

    /// The part that comes next in the body.
    fn next(&self) -> Option<&Part>
        ensures { option_map (λ p. p.now) result ≡ next_at self.now }
    {
        self.body.get(self.at)
    }
}

/// A place in the innermost body that was gone into, and places behind the branches in the bodies around it,
/// the innermost of these last. A body that has nothing left behind its branch isn't kept.
#[derive(Debug, Drop)]
pub(crate) struct Frames {
    inner: Frame,
    outer: Vec<Frame>,
}

impl Frames {
    ghost use Rattle.ot_model.specs.Tree.{append};
    ghost use Rattle.ot_parts.specs.Assigns.{assigns_of};
    ghost use Rattle.ot_parts.specs.Parts.{leading, after_parts, test_of, part_of, parts_of, condition_of, IsPart, weight};
    ghost use Rattle.ot_parts.specs.declared.part.Part.{Part};

    /// At the beginning of a body. It takes no memory.
    pub(crate) fn new(alloc: Global, body: Arc<Vec<Part>>) -> Frames
        ensures { parts_left result ≡ (arc_value body).items }
    {
        Frames {
            inner: Frame { body, at: 0 },
            outer: Vec::new(alloc),
        }
    }

    /// The part that comes next in the innermost body.
    pub(crate) fn next(&self) -> Option<&Part>
        ensures { option_map (λ p. p.now) result ≡ next_at self.now.inner }
    {
        self.inner.next()
    }

    /// The next part, where its control statement comes next, with the sets and folds that come first passed or
    /// not.
    pub(crate) fn shown(&self, passed: bool) -> Option<&Part>
        ensures { MatchOption result (IsHidden passed self.now) (λ p. IsShown passed self.now p.now) }
    {
        let part = self.next()?;
        if !part.shows(passed) {
            return None;
        }
        Some(part)
    }

    /// Whether the next part is the last of all.
    pub(crate) fn is_last(&self) -> bool
        ensures { IsTrue result → (p : Part) → next_at self.now.inner ≡ Some p → parts_left self.now ≡ p ∷ [] }
    {
        self.outer.is_empty() && self.inner.is_last()
    }

    /// Goes past parts of which nothing comes, where the sets and folds that come first are passed or not, and
    /// out of bodies that have nothing left. It takes no memory.
    pub(crate) fn trim(&mut self, passed: bool)
        ensures trim { IsTrim passed self.new }
        ensures same { rest_left passed (parts_of (parts_left self.new)) ≡ rest_left passed (parts_of (parts_left self.old)) }
    {
        while !self.is_trim(passed) {
            self.advance();
        }
    }

    /// Whether something of the next part comes, or nothing is left.
    fn is_trim(&self, passed: bool) -> bool
        ensures trim { IsTrue result → IsTrim passed self.now }
        ensures not { result ≡ false → MatchOption (next_at self.now.inner) (vec_len self.now.outer ≡ 0 → ⊥) (λ p. (comes passed (part_of p) ≡ false) × IsPart (part_of p)) }
    {
        match self.next() {
            Some(part) => part.comes(passed),
            None => self.outer.is_empty(),
        }
    }

    /// Goes past the next part, or where the innermost body has none out of it. It takes no memory.
    pub(crate) fn advance(&mut self)
        ensures past { (p : Part) → next_at self.old.inner ≡ Some p → parts_left self.old ≡ p ∷ parts_left self.new }
        ensures out { next_at self.old.inner ≡ None → parts_left self.new ≡ parts_left self.old }
        ensures fewer { (next_at self.old.inner ≡ None → vec_len self.old.outer ≡ 0 → ⊥) → steps_left self.new < steps_left self.old }
    {
        if !self.inner.is_over() {
            self.inner.at += 1;
        } else if let Some(frame) = self.outer.pop() {
            self.inner = frame;
        }
    }

    /// Goes past the next part into a body.
    pub(crate) fn go_into(&mut self, body: Arc<Vec<Part>>) -> Result<(), AllocError>
        ensures gone { OnOk result ((p : Part) (ps : List Part) → next_at self.old.inner ≡ Some p → parts_left self.old ≡ p ∷ ps → parts_left self.new ≡ (arc_value body).items ++ ps) }
        ensures same { OnErr result ((self.new.inner ≡ self.old.inner) × (self.new.outer.items ≡ self.old.outer.items)) }
    {
        self.outer.reserve(1)?;
        let mut around = mem::replace(&mut self.inner, Frame { body, at: 0 });
        if !around.is_last() {
            around.at += 1;
            self.outer.push_reserved(around);
        }
        Ok(())
    }

    /// The weight of what is left.
    pub(crate) fn weigh(&self) -> u64
        requires { weight (parts_of (parts_left self.now)) < 2 ^ 64 }
        ensures { result ≡ weight (parts_of (parts_left self.now)) }
    {
        let mut sum = weigh(&self.inner.body, self.inner.at);
        for frame in &self.outer {
            sum += weigh(&frame.body, frame.at);
        }
        sum
    }

    /// Puts copies of the sets and folds that come first behind a run. The answer is the part with the control
    /// statement behind them, if there is one.
    pub(crate) fn gather(
        &self,
        alloc: Global,
        run: &mut Vec<Assign>,
    ) -> Result<Option<&Part>, AllocError>
        ensures run { OnOk result (assigns_of run.new.items ≡ append (assigns_of run.old.items) (leading (parts_of (parts_left self.now)))) }
        ensures condition { IfOk result (λ found. MatchOption found (test_of (after_parts (parts_of (parts_left self.now))) ≡ None)
            (λ p. condition_of (part_of p.now).control ≡ test_of (after_parts (parts_of (parts_left self.now))))) }
    {
        if let Some(part) = gather(alloc, &self.inner.body, self.inner.at, run)? {
            return Ok(Some(part));
        }
        let mut left = self.outer.as_slice();
        while let Some((frame, more)) = left.split_last() {
            if let Some(part) = gather(alloc, &frame.body, frame.at, run)? {
                return Ok(Some(part));
            }
            left = more;
        }
        Ok(None)
    }
}
