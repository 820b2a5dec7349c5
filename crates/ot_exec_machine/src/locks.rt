//! What the machine does with locks, and what is known under one.
ghost use Rattle.std.specs.Prelude.{◌≡◌};
ghost use Rattle.ot_exec_state.specs.Locks.{holds_number};
ghost use Rattle.ot_exec_state.specs.Results.{Gives};
ghost use Rattle.ot_exec_machine.specs.Steps.{named_at, value_seen, value_written, locking, unlocking, with_held_again};
ghost use Rattle.ot_exec_machine.specs.View.{machine_state};
ghost use Rattle.ot_exec_state.specs.View.{memory_of};

use crate::machine::Machine;
use ot_exec_code::Code;
use ot_exec_state::{Halt, Limits, Memory, Reason, Span, Value};
use std::alloc::Global;

/// The number by which the object of these cells is named.
#[tactic(auto, unfolding(crate::specs::Steps::named_at))]
fn named_at(memory: &Memory, span: Span) -> Result<u32, Halt>
    ensures { Gives (λ n. n) result (named_at (memory_of memory.now) span) }
{
    match memory.objects.get(span.object as usize) {
        Some(object) => Ok(object.name),
        None => Err(Halt::For(Reason::Broken)),
    }
}

fn has(names: &[u32], name: u32) -> bool
    ensures { result ≡ holds_number name names.now }
{
    names.iter().any(|one| *one == name)
}

/// What is known of a value that is read in these cells by a task that holds the set of this number: under a lock nothing, where tasks write
/// there under locks.
#[tactic(auto, unfolding(crate::specs::Steps::value_seen))]
pub(crate) fn seen(
    code: &Code,
    memory: &Memory,
    held: u32,
    span: Span,
    value: Value,
) -> Result<Value, Halt>
    ensures { Gives (λ x. x) result (value_seen code.now (memory_of memory.now) held span value) }
{
    if held == 0 {
        return Ok(value);
    }
    let name = named_at(memory, span)?;
    if has(&code.changing, name) {
        Ok(Value::Unknown)
    } else {
        Ok(value)
    }
}

/// What is known of one that it writes there: under a lock nothing, and the code has to say that such is written.
#[tactic(auto, unfolding(crate::specs::Steps::value_written))]
pub(crate) fn written(
    code: &Code,
    memory: &Memory,
    held: u32,
    span: Span,
    value: Value,
) -> Result<Value, Halt>
    ensures { Gives (λ x. x) result (value_written code.now (memory_of memory.now) held span value) }
{
    if held == 0 {
        return Ok(value);
    }
    let name = named_at(memory, span)?;
    if !has(&code.changing, name) {
        return Err(Halt::For(Reason::Changes(name)));
    }
    Ok(Value::Unknown)
}

impl Machine {
    #[tactic(auto, unfolding(crate::specs::Steps::locking))]
    pub(crate) fn lock(&mut self, alloc: Global, limits: Limits, slot: u32) -> Result<(), Halt>
        ensures { Gives (λ _. machine_state self.new) result (locking limits slot (machine_state self.old)) }
    {
        let name = self.slots.read(slot)?;
        self.locks.take(alloc, limits, name)?;
        Ok(())
    }

    #[tactic(auto, unfolding(crate::specs::Steps::unlocking))]
    pub(crate) fn unlock(&mut self, alloc: Global, limits: Limits, slot: u32) -> Result<(), Halt>
        ensures { Gives (λ _. machine_state self.new) result (unlocking limits slot (machine_state self.old)) }
    {
        let name = self.slots.read(slot)?;
        self.locks.give_back(alloc, limits, name)?;
        Ok(())
    }

    /// The task goes on with the locks that it held.
    pub(crate) fn hold_again(&mut self, held: u32)
        ensures { machine_state self.new ≡ with_held_again held (machine_state self.old) }
    {
        self.locks.held = held;
    }
}
