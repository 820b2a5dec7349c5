//! What a machine has, and what it does with slots.
ghost use Rattle.std.specs.Prelude.{◌≡◌};
ghost use Rattle.ot_exec_state.specs.Results.{Gives};
ghost use Rattle.ot_exec_machine.specs.State.{from};
ghost use Rattle.ot_exec_machine.specs.Steps.{putting, copying, operating, converting, advancing, measuring};
ghost use Rattle.ot_exec_machine.specs.View.{machine_state};
ghost use Rattle.ot_exec_state.specs.declared.value.Value.TheVariants.{Number};

use ot_exec_code::{Kind, Operation};
use ot_exec_state::{
    Halt, Locks, Memory, Nest, Siblings, Slots, Trail, Value, advanced, combined, converted,
    distance,
};

/// The form that is next, slots, objects, what happened, what is open, locks, siblings in no order, how many tasks there have been, and whether the run has ended.
#[derive(Drop)]
pub(crate) struct Machine {
    pub(crate) at: usize,
    pub(crate) slots: Slots,
    pub(crate) memory: Memory,
    pub(crate) trail: Trail,
    pub(crate) nest: Nest,
    pub(crate) locks: Locks,
    pub(crate) siblings: Vec<Siblings>,
    pub(crate) tasks: u32,
    pub(crate) ended: bool,
}

impl Machine {
    #[tactic(auto, unfolding(crate::specs::Steps::putting))]
    pub(crate) fn put(&mut self, to: u32, value: Value) -> Result<(), Halt>
        ensures { Gives (λ _. machine_state self.new) result (putting to value (machine_state self.old)) }
    {
        self.slots.put(to, value)?;
        Ok(())
    }

    #[tactic(auto, unfolding(crate::specs::Steps::copying))]
    pub(crate) fn copy(&mut self, to: u32, slot: u32) -> Result<(), Halt>
        ensures { Gives (λ _. machine_state self.new) result (copying to slot (machine_state self.old)) }
    {
        let value = self.slots.read(slot)?;
        self.put(to, value)
    }

    #[tactic(auto, unfolding(crate::specs::Steps::operating))]
    pub(crate) fn operate(
        &mut self,
        to: u32,
        operation: Operation,
        kind: Kind,
        one: u32,
        other: u32,
    ) -> Result<(), Halt>
        ensures { Gives (λ _. machine_state self.new) result (operating to operation kind one other (machine_state self.old)) }
    {
        let one = self.slots.read(one)?;
        let other = self.slots.read(other)?;
        let value = combined(operation, kind, one, other)?;
        self.put(to, value)
    }

    #[tactic(auto, unfolding(crate::specs::Steps::converting))]
    pub(crate) fn convert(&mut self, to: u32, kind: Kind, slot: u32) -> Result<(), Halt>
        ensures { Gives (λ _. machine_state self.new) result (converting to kind slot (machine_state self.old)) }
    {
        let value = self.slots.read(slot)?;
        self.put(to, converted(kind, value))
    }

    #[tactic(auto, unfolding(crate::specs::Steps::advancing))]
    pub(crate) fn advance(
        &mut self,
        to: u32,
        place: u32,
        slot: u32,
        stride: u32,
        cells: u32,
    ) -> Result<(), Halt>
        ensures { Gives (λ _. machine_state self.new) result (advancing to place slot stride cells (machine_state self.old)) }
    {
        let place = self.slots.read(place)?;
        let count = self.slots.read(slot)?;
        self.put(to, advanced(place, count, stride, cells))
    }

    #[tactic(auto, unfolding(crate::specs::Steps::measuring))]
    pub(crate) fn measure(&mut self, to: u32, one: u32, other: u32, stride: u32) -> Result<(), Halt>
        ensures { Gives (λ _. machine_state self.new) result (measuring to one other stride (machine_state self.old)) }
    {
        let one = self.slots.read(one)?;
        let other = self.slots.read(other)?;
        self.put(to, distance(one, other, stride))
    }

    pub(crate) fn put_context(&mut self, to: u32) -> Result<(), Halt>
        ensures { Gives (λ _. machine_state self.new) result (putting to (Number self.old.trail.context) (machine_state self.old)) }
    {
        let context = self.trail.context;
        self.put(to, Value::Number(u64::from(context)))
    }

    /// The run goes on there.
    pub(crate) fn jump(&mut self, to: u32)
        ensures { machine_state self.new ≡ from to (machine_state self.old) }
    {
        self.at = to as usize;
    }
}
