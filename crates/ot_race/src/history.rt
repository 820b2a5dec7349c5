//! What a judge keeps of a cell: the last two phases of its touches.
ghost use Rattle.std.specs.Prelude.{◌≡◌, OnOk};
ghost use Rattle.ot_race.specs.Missing.{IsMissing};
ghost use Rattle.ot_race.specs.Histories.{phases_of, no_phases, behind_of, HasThose, AreTips, IsTouched};

use ot_model::Mode;
use ot_sets::Numbers;
use std::alloc::{AllocError, Global};

/// A phase is touches in a row of which no two conflict: reads, or folds by one operation, or one
/// write. Until there is a race each event of a phase comes behind each of the phase before, so that
/// a new touch is behind all that it conflicts with where it is behind the last phase of those. Each
/// event of a phase is one of its tips, or before one, so that these are looked at first.
#[derive(Debug, Drop)]
pub(crate) struct History {
    /// The mode of the last phase.
    mode: Mode,
    /// The events of the phase before the last, and its tips.
    before: Vec<u32>,
    tips_before: Vec<u32>,
    /// The events of the last phase, and its tips.
    last: Vec<u32>,
    tips: Vec<u32>,
}

impl History {
    /// No touch at all. It takes no memory.
    pub(crate) fn new(alloc: Global) -> History
        ensures { phases_of result ≡ no_phases }
    {
        History {
            mode: Mode::Reads,
            before: Vec::new(alloc),
            tips_before: Vec::new(alloc),
            last: Vec::new(alloc),
            tips: Vec::new(alloc),
        }
    }

    /// An earlier event that touched the cell, conflicts with this mode and isn't among these, which are
    /// all up to an event. Where the newest of a phase that goes on is among them, that event is behind
    /// all of the phase before, and these are looked at no more.
    pub(crate) fn racing(&self, mode: Mode, known: &Numbers) -> Option<u32>
        requires { HasThose (phases_of self.now) mode known.now }
        ensures { IsMissing (behind_of (phases_of self.now) mode) known.now result }
    {
        if self.mode.conflicts(mode) {
            missing(&self.tips, known)?;
            return missing(&self.last, known);
        }
        match self.last.last() {
            Some(newest) if known.has(*newest as usize) => None,
            _ => {
                missing(&self.tips_before, known)?;
                missing(&self.before, known)
            }
        }
    }

    /// A touch by an event that comes behind all that it conflicts with, and behind these.
    pub(crate) fn add(&mut self, mode: Mode, event: u32, known: &Numbers) -> Result<(), AllocError>
        ensures { OnOk result (IsTouched (phases_of self.old) mode event known.now (phases_of self.new)) }
    {
        if self.mode.conflicts(mode) {
            std::mem::swap(&mut self.before, &mut self.last);
            std::mem::swap(&mut self.tips_before, &mut self.tips);
            self.last.clear();
            self.tips.clear();
        }
        self.last.push(event)?;
        self.mode = mode;
        put_tip(&mut self.tips, event, known)
    }
}

/// Puts an event among the tips of its phase: in place of the newest, where it is behind that one.
fn put_tip(tips: &mut Vec<u32>, event: u32, known: &Numbers) -> Result<(), AllocError>
    ensures { OnOk result (AreTips tips.old.items event known.now tips.new.items) }
{
    match tips.pop() {
        Some(newest) if !known.has(newest as usize) => tips.push(newest)?,
        _ => {}
    }
    tips.push(event)?;
    Ok(())
}

/// The first of these events that isn't in the set.
fn missing(events: &[u32], known: &Numbers) -> Option<u32>
    ensures { IsMissing events.now known.now result }
{
    for earlier in events {
        if !known.has(*earlier as usize) {
            return Some(*earlier);
        }
    }
    None
}
