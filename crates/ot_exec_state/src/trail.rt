//! What happens.
ghost use Rattle.std.specs.Prelude.{◌≡◌, nat_le};
ghost use Rattle.ot_exec_outline.specs.View.{did_of};
ghost use Rattle.ot_exec_state.specs.Results.{Gives};
ghost use Rattle.ot_exec_state.specs.View.{trail_of};
ghost use Rattle.ot_exec_state.specs.Trail.{deed_weight, written_by, note, touch, touches_charged, leaves, enters, within, by_task};
ghost use Rattle.ot_exec_state.specs.Memory.{uses_of, count_of};
ghost use Rattle.std.specs.List.{sum_by};

use crate::fault::{Halt, Reason};
use crate::limits::Limits;
use crate::memory::Span;
use crate::nest::Part;
use ot_exec_outline::{Did, Noted};
use ot_model::{Cell, Mode, Use};
use ot_race::note;
use std::alloc::{AllocError, Global};

/// What is entered at a site.
#[derive(Clone, Copy, Debug, PartialEq, Eq)]
pub enum Entered {
    /// The run itself.
    Run,
    Call,
    /// A turn of a loop, by this number.
    Turn(u64),
    /// A turn of which the number isn't known.
    SomeTurn,
}

/// In which context it stands, the site, and what is entered there.
#[derive(Clone, Copy, Debug, PartialEq, Eq)]
pub struct Context {
    pub outer: u32,
    pub site: u32,
    pub entered: Entered,
}

/// Where an event happens.
#[derive(Clone, Copy, Debug, PartialEq, Eq)]
pub struct Row {
    pub site: u32,
    pub context: u32,
}

/// The task that runs, the context in which it does, all contexts, for each event its row and the number of the set of locks that it holds,
/// the events, and how many cells these name.
#[derive(Drop)]
pub struct Trail {
    pub task: u32,
    pub context: u32,
    pub contexts: Vec<Context>,
    pub rows: Vec<Row>,
    pub held: Vec<u32>,
    pub log: Vec<Noted>,
    pub touches: u32,
}

impl Trail {
    /// Notes an event at this site that holds the set of locks of this number.
    #[tactic(auto, unfolding(crate::specs::Trail::note))]
    pub fn note(
        &mut self,
        limits: Limits,
        site: u32,
        set: u32,
        did: Did,
        uses: Vec<Use>,
    ) -> Result<(), Halt>
        ensures { Gives (λ _. trail_of self.new) result (note limits site set (did_of did) uses.items (trail_of self.old)) }
    {
        let touches = self.touches as u64 + weight(&did) as u64 + uses.len() as u64;
        let place = self.rows.len();
        if place >= limits.events as usize || touches > limits.touches as u64 {
            return Err(Halt::For(Reason::TooManyEvents));
        }
        self.rows.push(Row {
            site,
            context: self.context,
        })?;
        self.held.push(set)?;
        self.log.push(Noted {
            task: self.task,
            place: place as u32,
            did,
            uses,
        })?;
        self.touches = touches as u32;
        Ok(())
    }

    /// Notes that cells are used.
    #[tactic(auto, unfolding(crate::specs::Trail::touch))]
    pub fn touch(
        &mut self,
        alloc: Global,
        limits: Limits,
        site: u32,
        set: u32,
        mode: Mode,
        span: Span,
    ) -> Result<(), Halt>
        ensures { Gives (λ _. trail_of self.new) result (touch limits site set mode span (trail_of self.old)) }
    {
        if self.touches as u64 + span.count() as u64 > limits.touches as u64 {
            return Err(Halt::For(Reason::TooManyEvents));
        }
        let mut uses = Vec::new(alloc);
        add_uses(&mut uses, mode, span)?;
        self.note(limits, site, set, Did::Touches, uses)
    }

    /// So many cells are written that only the task sees.
    #[tactic(auto, unfolding(crate::specs::Trail::touches_charged))]
    pub fn charge(&mut self, limits: Limits, count: u32) -> Result<(), Halt>
        ensures { Gives (λ _. trail_of self.new) result (touches_charged limits count (trail_of self.old)) }
    {
        let touches = self.touches as u64 + count as u64;
        if touches > limits.touches as u64 {
            return Err(Halt::For(Reason::TooManyEvents));
        }
        self.touches = touches as u32;
        Ok(())
    }

    /// Notes that a region ends before which so many events were, and writes its items, without locks.
    #[tactic(auto, unfolding(crate::specs::Trail::leaves))]
    pub fn leave(
        &mut self,
        alloc: Global,
        limits: Limits,
        site: u32,
        start: usize,
        parts: &[Part],
    ) -> Result<(), Halt>
        ensures { Gives (λ _. trail_of self.new) result (leaves limits site start parts.now (trail_of self.old)) }
    {
        let count = self.rows.len();
        if count >= limits.events as usize
            || self.touches > limits.touches
            || !fit(parts, limits.touches - self.touches)
        {
            return Err(Halt::For(Reason::TooManyEvents));
        }
        let mut uses = Vec::new(alloc);
        add_written(&mut uses, parts)?;
        let inside = count.saturating_sub(start);
        self.note(limits, site, 0, Did::Leaves(inside as u32), uses)
    }

    /// A call or a turn of a loop begins.
    #[tactic(auto, unfolding(crate::specs::Trail::enters))]
    pub fn enter(&mut self, limits: Limits, site: u32, entered: Entered) -> Result<(), Halt>
        ensures { Gives (λ _. trail_of self.new) result (enters limits site entered (trail_of self.old)) }
    {
        let count = self.contexts.len();
        if count >= limits.contexts as usize {
            return Err(Halt::For(Reason::TooManyTurns));
        }
        self.contexts.push(Context {
            outer: self.context,
            site,
            entered,
        })?;
        self.context = count as u32;
        Ok(())
    }

    /// Back to a context.
    #[tactic(auto, unfolding(crate::specs::Trail::within))]
    pub fn within(&mut self, limits: Limits, context: u64) -> Result<(), Halt>
        ensures { Gives (λ _. trail_of self.new) result (within limits context (trail_of self.old)) }
    {
        if context >= u64::from(limits.contexts) || context >= self.contexts.len() as u64 {
            return Err(Halt::For(Reason::Broken));
        }
        self.context = context as u32;
        Ok(())
    }

    /// This task runs on, in this context.
    pub fn by_task(&mut self, task: u32, context: u32)
        ensures { trail_of self.new ≡ by_task task context (trail_of self.old) }
    {
        self.task = task;
        self.context = context;
    }
}

/// How many cells a deed names.
fn weight(did: &Did) -> usize
    ensures { result ≡ deed_weight (did_of did.now) }
{
    match did {
        Did::Touches | Did::Leaves(_) | Did::Awaits(None) => 0,
        Did::Begins(_, decl) | Did::Awaits(Some(decl)) => decl.uses().len(),
    }
}

ghost use Rattle.std.specs.Prelude.{◌++◌, OnOk};

/// Adds that these cells are used so.
pub fn add_uses(uses: &mut Vec<Use>, mode: Mode, span: Span) -> Result<(), AllocError>
    ensures { OnOk result (uses.new.items ≡ uses.old.items ++ uses_of mode span) }
{
    for index in span.index..span.end {
        let cell = Cell {
            array: span.object,
            index,
        };
        note(cell, mode, uses)?;
    }
    Ok(())
}

/// Whether items have no more cells than this.
fn fit(parts: &[Part], room: u32) -> bool
    ensures { result ≡ nat_le (sum_by (λ p. count_of p.span) parts.now) room }
{
    let mut left = room;
    for part in parts {
        let count = part.span.count();
        if count > left {
            return false;
        }
        left -= count;
    }
    true
}

/// Adds that the cells of items are written.
fn add_written(uses: &mut Vec<Use>, parts: &[Part]) -> Result<(), AllocError>
    ensures { OnOk result (uses.new.items ≡ uses.old.items ++ written_by parts.now) }
{
    for part in parts {
        add_uses(uses, Mode::Writes, part.span)?;
    }
    Ok(())
}
