//! What the machine does with objects and cells.
ghost use Rattle.std.specs.Prelude.{◌≡◌};
ghost use Rattle.ot_exec_state.specs.Results.{Gives};
ghost use Rattle.ot_exec_machine.specs.Steps.{first_value, object_begun, allocating, object_ended, loading, storing, loading_own, storing_own, reading_range, writing_range};
ghost use Rattle.ot_exec_machine.specs.View.{machine_state};

use crate::locks::{seen, written};
use crate::machine::Machine;
use ot_exec_code::Code;
use ot_exec_state::{Halt, Limits, Reason, Value, number};
use ot_model::Mode;
use std::alloc::Global;

/// What the cells of a new object have.
fn first_value(zero: bool) -> Value
    ensures { result ≡ first_value zero }
{
    if zero {
        Value::Number(0)
    } else {
        Value::Unknown
    }
}

impl Machine {
    #[tactic(auto, unfolding(crate::specs::Steps::object_begun))]
    pub(crate) fn begin(
        &mut self,
        limits: Limits,
        to: u32,
        count: u64,
        name: u32,
        zero: bool,
    ) -> Result<(), Halt>
        ensures { Gives (λ _. machine_state self.new) result (object_begun limits to count name zero (machine_state self.old)) }
    {
        let object = self.memory.begin(limits, count, first_value(zero), name)?;
        self.slots.put(to, Value::Pointer(object, 0))?;
        Ok(())
    }

    #[tactic(auto, unfolding(crate::specs::Steps::allocating))]
    pub(crate) fn allocate(
        &mut self,
        limits: Limits,
        to: u32,
        name: u32,
        slot: u32,
        cells: u32,
        zero: bool,
    ) -> Result<(), Halt>
        ensures { Gives (λ _. machine_state self.new) result (allocating limits to name slot cells zero (machine_state self.old)) }
    {
        let value = self.slots.read(slot)?;
        let count = number(Reason::UnknownLength, value)?;
        match count.checked_mul(u64::from(cells)) {
            Some(count) => {
                if count > u64::from(limits.members) {
                    return Err(Halt::For(Reason::TooMuch));
                }
                self.begin(limits, to, count, name, zero)
            }
            None => Err(Halt::For(Reason::TooMuch)),
        }
    }

    #[tactic(auto, unfolding(crate::specs::Steps::object_ended))]
    pub(crate) fn end(
        &mut self,
        alloc: Global,
        limits: Limits,
        site: u32,
        slot: u32,
    ) -> Result<(), Halt>
        ensures { Gives (λ _. machine_state self.new) result (object_ended limits site slot (machine_state self.old)) }
    {
        let place = self.slots.read(slot)?;
        let span = self.memory.finish(place)?;
        self.trail
            .touch(alloc, limits, site, 0, Mode::Writes, span)?;
        Ok(())
    }

    #[tactic(auto, unfolding(crate::specs::Steps::loading))]
    pub(crate) fn load(
        &mut self,
        alloc: Global,
        code: &Code,
        limits: Limits,
        site: u32,
        to: u32,
        slot: u32,
    ) -> Result<(), Halt>
        ensures { Gives (λ _. machine_state self.new) result (loading code.now limits site to slot (machine_state self.old)) }
    {
        let place = self.slots.read(slot)?;
        let span = self.memory.span(place, 1)?;
        let there = self.memory.taken(place, span)?;
        let held = self.locks.held;
        let value = seen(code, &self.memory, held, span, there)?;
        self.trail
            .touch(alloc, limits, site, held, Mode::Reads, span)?;
        self.put(to, value)
    }

    #[tactic(auto, unfolding(crate::specs::Steps::storing))]
    pub(crate) fn store(
        &mut self,
        alloc: Global,
        code: &Code,
        limits: Limits,
        site: u32,
        slot: u32,
        other: u32,
    ) -> Result<(), Halt>
        ensures { Gives (λ _. machine_state self.new) result (storing code.now limits site slot other (machine_state self.old)) }
    {
        let place = self.slots.read(slot)?;
        let value = self.slots.read(other)?;
        let span = self.memory.span(place, 1)?;
        let held = self.locks.held;
        let there = written(code, &self.memory, held, span, place.kept(value))?;
        self.trail
            .touch(alloc, limits, site, held, Mode::Writes, span)?;
        self.memory.fill(span, there)?;
        Ok(())
    }

    #[tactic(auto, unfolding(crate::specs::Steps::loading_own))]
    pub(crate) fn load_own(&mut self, to: u32, slot: u32) -> Result<(), Halt>
        ensures { Gives (λ _. machine_state self.new) result (loading_own to slot (machine_state self.old)) }
    {
        let place = self.slots.read(slot)?;
        let span = self.memory.span(place, 1)?;
        let value = self.memory.taken(place, span)?;
        self.put(to, value)
    }

    #[tactic(auto, unfolding(crate::specs::Steps::storing_own))]
    pub(crate) fn store_own(&mut self, limits: Limits, slot: u32, other: u32) -> Result<(), Halt>
        ensures { Gives (λ _. machine_state self.new) result (storing_own limits slot other (machine_state self.old)) }
    {
        let place = self.slots.read(slot)?;
        let value = self.slots.read(other)?;
        let span = self.memory.span(place, 1)?;
        self.trail.charge(limits, span.count().saturating_sub(1))?;
        self.memory.fill(span, place.kept(value))?;
        Ok(())
    }

    #[tactic(auto, unfolding(crate::specs::Steps::reading_range))]
    pub(crate) fn read_range(
        &mut self,
        alloc: Global,
        limits: Limits,
        site: u32,
        slot: u32,
        other: u32,
    ) -> Result<(), Halt>
        ensures { Gives (λ _. machine_state self.new) result (reading_range limits site slot other (machine_state self.old)) }
    {
        let place = self.slots.read(slot)?;
        let value = self.slots.read(other)?;
        let count = number(Reason::UnknownLength, value)?;
        let span = self.memory.span(place, count)?;
        let held = self.locks.held;
        self.trail
            .touch(alloc, limits, site, held, Mode::Reads, span)?;
        Ok(())
    }

    #[tactic(auto, unfolding(crate::specs::Steps::writing_range))]
    pub(crate) fn write_range(
        &mut self,
        alloc: Global,
        code: &Code,
        limits: Limits,
        site: u32,
        slot: u32,
        other: u32,
    ) -> Result<(), Halt>
        ensures { Gives (λ _. machine_state self.new) result (writing_range code.now limits site slot other (machine_state self.old)) }
    {
        let place = self.slots.read(slot)?;
        let value = self.slots.read(other)?;
        let count = number(Reason::UnknownLength, value)?;
        let span = self.memory.span(place, count)?;
        let held = self.locks.held;
        let there = written(code, &self.memory, held, span, Value::Unknown)?;
        self.trail
            .touch(alloc, limits, site, held, Mode::Writes, span)?;
        self.memory.fill(span, there)?;
        Ok(())
    }
}
