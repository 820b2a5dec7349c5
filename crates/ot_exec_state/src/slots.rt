//! Slots of calls and tasks.
ghost use Rattle.std.specs.Prelude.{◌≡◌};
ghost use Rattle.ot_exec_state.specs.Results.{Gives};
ghost use Rattle.ot_exec_state.specs.View.{slots_of};
ghost use Rattle.ot_exec_state.specs.Slots.{slot_read, is_question, slot_put, enter};

use crate::fault::{Halt, Reason};
use crate::limits::Limits;
use crate::value::{Value, is_unknown};

/// All slots, of which those from `base` on are those of what runs.
#[derive(Drop)]
pub struct Slots {
    pub base: u32,
    pub values: Vec<Value>,
}

impl Slots {
    /// What a slot of the function that runs has, or the fault that there is no such slot.
    #[tactic(auto, unfolding(crate::specs::Slots::slot_read))]
    pub fn read(&self, slot: u32) -> Result<Value, Halt>
        ensures { Gives (λ v. v) result (slot_read (slots_of self.now) slot) }
    {
        match self.values.get(self.base as usize + slot as usize) {
            Some(value) => Ok(*value),
            None => Err(Halt::For(Reason::Broken)),
        }
    }

    /// Whether its value isn't known.
    #[tactic(auto, unfolding(crate::specs::Slots::slot_read))]
    pub fn is_question(&self, slot: u32) -> bool
        ensures { result ≡ is_question (slot_read (slots_of self.now) slot) }
    {
        match self.values.get(self.base as usize + slot as usize) {
            Some(value) => is_unknown(*value),
            None => false,
        }
    }

    /// Has a slot of the function that runs have this, or tells that there is no such slot.
    #[tactic(auto, unfolding(crate::specs::Slots::slot_put))]
    pub fn put(&mut self, slot: u32, value: Value) -> Result<(), Halt>
        ensures { Gives (λ _. slots_of self.new) result (slot_put (slots_of self.old) slot value) }
    {
        let at = self.base as usize + slot as usize;
        if at < self.values.len() {
            self.values[at] = value;
            Ok(())
        } else {
            Err(Halt::For(Reason::Broken))
        }
    }

    /// The slots from the `first` on become those of what runs, so many.
    #[tactic(auto, unfolding(crate::specs::Slots::enter))]
    pub fn enter(&mut self, limits: Limits, first: u32, count: u32) -> Result<(), Halt>
        ensures { Gives (λ _. slots_of self.new) result (enter limits (slots_of self.old) first count) }
    {
        let base = self.base as u64 + first as u64;
        let end = base + count as u64;
        if end > limits.slots as u64 {
            return Err(Halt::For(Reason::TooDeep));
        }
        if end as usize > self.values.len() {
            self.values.resize(end as usize, Value::Unknown)?;
        }
        self.base = base as u32;
        Ok(())
    }
}
