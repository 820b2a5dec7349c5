//! The calls, tasks and regions that are open.
ghost use Rattle.std.specs.Prelude.{◌≡◌, []};
ghost use Rattle.ot_exec_state.specs.Results.{Gives};
ghost use Rattle.ot_exec_state.specs.View.{nest_of};
ghost use Rattle.ot_exec_state.specs.Nest.{frame_opened, frame_closed, region_begun, region_closed, groups_before, last_item, is_part, joins};

use crate::fault::{Halt, Reason};
use crate::limits::Limits;
use crate::memory::Span;
use ot_model::Fold;

/// What ends where a frame ends.
#[derive(Clone, Copy, Debug, PartialEq, Eq)]
pub enum Kept {
    Call,
    Deferred,
    /// An undeferred task, created at this site, with the object that stands for its end.
    AtOnce(u32, u32),
}

/// What goes on where a call or a task ends: the form, the slots, the task, the context and its set of locks; how many regions were open;
/// and what ends.
#[derive(Clone, Copy, Debug, PartialEq, Eq)]
pub struct Frame {
    pub back: usize,
    pub base: u32,
    pub task: u32,
    pub context: u32,
    pub held: u32,
    pub groups: usize,
    pub kept: Kept,
}

/// A region: how many events there were before it, and how many items of reductions.
#[derive(Clone, Copy, Debug, PartialEq, Eq)]
pub struct Group {
    pub start: usize,
    pub parts: usize,
}

/// An item of a reduction: its operation and its cells.
#[derive(Clone, Copy, Debug, PartialEq, Eq)]
pub struct Part {
    pub fold: Fold,
    pub span: Span,
}

/// All that are open, the innermost last.
#[derive(Drop)]
pub struct Nest {
    pub frames: Vec<Frame>,
    pub groups: Vec<Group>,
    pub parts: Vec<Part>,
}

impl Nest {
    /// A call or a task begins.
    #[tactic(auto, unfolding(crate::specs::Nest::frame_opened))]
    pub fn open(&mut self, limits: Limits, frame: Frame) -> Result<(), Halt>
        ensures { Gives (λ _. nest_of self.new) result (frame_opened limits frame (nest_of self.old)) }
    {
        if self.frames.len() >= limits.open as usize {
            return Err(Halt::For(Reason::TooDeep));
        }
        self.frames.push(frame)?;
        Ok(())
    }

    /// It ends, with as many regions open as at its beginning.
    #[tactic(auto, unfolding(crate::specs::Nest::frame_closed))]
    pub fn close(&mut self) -> Result<Frame, Halt>
        ensures { Gives (λ f. (f, nest_of self.new)) result (frame_closed (nest_of self.old)) }
    {
        match self.frames.last() {
            Some(&frame) => {
                if frame.groups != self.groups.len() {
                    return Err(Halt::For(Reason::Broken));
                }
                let count = self.frames.len();
                self.frames.truncate(count - 1);
                Ok(frame)
            }
            None => Err(Halt::For(Reason::Broken)),
        }
    }

    /// A region begins behind so many events, with these items.
    #[tactic(auto, unfolding(crate::specs::Nest::region_begun))]
    pub fn group(&mut self, limits: Limits, start: usize, parts: &[Part]) -> Result<(), Halt>
        ensures { Gives (λ _. nest_of self.new) result (region_begun limits start parts.now (nest_of self.old)) }
    {
        let before = self.parts.len();
        let most = limits.items as usize;
        if self.groups.len() >= limits.open as usize
            || before > most
            || parts.len() > most - before
        {
            return Err(Halt::For(Reason::TooDeep));
        }
        self.groups.push(Group {
            start,
            parts: before,
        })?;
        self.parts.extend_from_slice(parts)?;
        Ok(())
    }

    /// How many regions were open where what runs began.
    fn groups_before(&self) -> usize
        ensures { result ≡ groups_before (last_item self.now.frames.items) }
    {
        match self.frames.last() {
            Some(frame) => frame.groups,
            None => 0,
        }
    }

    /// A region ends that what runs has begun. Its items go to `parts`; before it there were so many events.
    #[tactic(auto, unfolding(crate::specs::Nest::region_closed))]
    pub fn ungroup(&mut self, parts: &mut Vec<Part>) -> Result<usize, Halt>
        requires { parts.old.items ≡ [] }
        ensures { Gives (λ start. ((start, parts.new.items), nest_of self.new)) result (region_closed (nest_of self.old)) }
    {
        let count = self.groups.len();
        if self.groups_before() >= count {
            return Err(Halt::For(Reason::Broken));
        }
        match self.groups.last() {
            Some(&group) => {
                if group.parts < self.parts.len() {
                    parts.extend_from_slice(&self.parts[group.parts..])?;
                }
                self.parts.truncate(group.parts);
                self.groups.truncate(count - 1);
                Ok(group.start)
            }
            None => Err(Halt::For(Reason::Broken)),
        }
    }

    /// Whether the cell where this begins is one of an item, by this operation.
    #[tactic(auto, unfolding(crate::specs::Nest::joins))]
    pub fn joins(&self, fold: Fold, span: Span) -> bool
        ensures { result ≡ joins fold span (nest_of self.now) }
    {
        for part in &self.parts {
            if is_part(fold, span, *part) {
                return true;
            }
        }
        false
    }
}

fn is_part(fold: Fold, span: Span, part: Part) -> bool
    ensures { result ≡ is_part fold span part }
{
    part.fold == fold
        && part.span.object == span.object
        && part.span.index <= span.index
        && span.index < part.span.end
}
