//! Where the machine goes on: branches, calls and contexts.
ghost use Rattle.std.specs.Prelude.{◌≡◌};
ghost use Rattle.ot_exec_state.specs.Results.{Gives};
ghost use Rattle.ot_exec_machine.specs.Steps.{function, turn_of, is_kept_by_call, frame_here, state_resumed, branching, repeating, calling, calling_by, returning, turning, going_back};
ghost use Rattle.ot_exec_machine.specs.View.{machine_state};
ghost use Rattle.ot_exec_state.specs.View.{nest_of};

use crate::machine::Machine;
use ot_exec_code::Code;
use ot_exec_state::{Entered, Frame, Halt, Kept, Limits, Reason, Value, is_unknown, number};

/// The function that a value is.
fn function(value: Value) -> Result<u32, Halt>
    ensures { Gives (λ k. k) result (function value) }
{
    match value {
        Value::Function(k) => Ok(k),
        Value::Number(n) => Err(Halt::For(if n == 0 {
            Reason::Null
        } else {
            Reason::NoFunction
        })),
        Value::Pointer(_, _) | Value::Within(_, _, _) | Value::Unknown => Err(Halt::For(
            Reason::NoFunction,
        )),
    }
}

fn turn_of(value: Value) -> Entered
    ensures { result ≡ turn_of value }
{
    match value {
        Value::Number(n) => Entered::Turn(n),
        Value::Pointer(_, _) | Value::Within(_, _, _) | Value::Function(_) | Value::Unknown =>
            Entered::SomeTurn,
    }
}

fn is_call(kept: Kept) -> bool
    ensures { result ≡ is_kept_by_call kept }
{
    match kept {
        Kept::Call => true,
        Kept::Deferred | Kept::AtOnce(_, _) => false,
    }
}

impl Machine {
    #[tactic(auto, unfolding(crate::specs::Steps::branching))]
    pub(crate) fn branch(&mut self, slot: u32, to: u32, answer: bool) -> Result<(), Halt>
        ensures { Gives (λ _. machine_state self.new) result (branching slot to answer (machine_state self.old)) }
    {
        let value = self.slots.read(slot)?;
        if !value.is_so(answer) {
            self.jump(to);
        }
        Ok(())
    }

    #[tactic(auto, unfolding(crate::specs::Steps::repeating))]
    pub(crate) fn repeat(&mut self, slot: u32, to: u32) -> Result<(), Halt>
        ensures { Gives (λ _. machine_state self.new) result (repeating slot to (machine_state self.old)) }
    {
        let value = self.slots.read(slot)?;
        if is_unknown(value) {
            return Err(Halt::For(Reason::UnknownCondition));
        }
        if !value.is_so(false) {
            self.jump(to);
        }
        Ok(())
    }

    #[tactic(auto, unfolding(crate::specs::Steps::calling))]
    pub(crate) fn call(
        &mut self,
        code: &Code,
        limits: Limits,
        site: u32,
        function: u32,
        first: u32,
    ) -> Result<(), Halt>
        ensures { Gives (λ _. machine_state self.new) result (calling code.now limits site function first (machine_state self.old)) }
    {
        match code.functions.get(function as usize) {
            Some(called) => {
                let frame = self.frame(self.at, Kept::Call);
                self.nest.open(limits, frame)?;
                self.slots.enter(limits, first, called.slots)?;
                self.trail.enter(limits, site, Entered::Call)?;
                self.at = called.start as usize;
                Ok(())
            }
            None => Err(Halt::For(Reason::Broken)),
        }
    }

    #[tactic(auto, unfolding(crate::specs::Steps::calling_by))]
    pub(crate) fn call_by(
        &mut self,
        code: &Code,
        limits: Limits,
        site: u32,
        slot: u32,
        first: u32,
    ) -> Result<(), Halt>
        ensures { Gives (λ _. machine_state self.new) result (calling_by code.now limits site slot first (machine_state self.old)) }
    {
        let value = self.slots.read(slot)?;
        let called = function(value)?;
        self.call(code, limits, site, called, first)
    }

    /// What goes on at this form where a frame ends that begins now.
    pub(crate) fn frame(&self, back: usize, kept: Kept) -> Frame
        ensures { result ≡ frame_here back kept (machine_state self.now) }
    {
        Frame {
            back,
            base: self.slots.base,
            task: self.trail.task,
            context: self.trail.context,
            held: self.locks.held,
            groups: self.nest.groups.len(),
            kept,
        }
    }

    pub(crate) fn resume(&mut self, frame: Frame)
        ensures { machine_state self.new ≡ state_resumed (machine_state self.old) frame.back frame.base frame.task frame.context (nest_of self.old.nest) }
    {
        self.at = frame.back;
        self.slots.base = frame.base;
        self.trail.by_task(frame.task, frame.context);
    }

    #[tactic(auto, unfolding(crate::specs::Steps::returning))]
    pub(crate) fn give_back(&mut self) -> Result<(), Halt>
        ensures { Gives (λ _. machine_state self.new) result (returning (machine_state self.old)) }
    {
        let frame = self.nest.close()?;
        if !is_call(frame.kept) {
            return Err(Halt::For(Reason::Broken));
        }
        self.resume(frame);
        Ok(())
    }

    #[tactic(auto, unfolding(crate::specs::Steps::turning))]
    pub(crate) fn turn(&mut self, limits: Limits, site: u32, slot: u32) -> Result<(), Halt>
        ensures { Gives (λ _. machine_state self.new) result (turning limits site slot (machine_state self.old)) }
    {
        let value = self.slots.read(slot)?;
        self.trail.enter(limits, site, turn_of(value))?;
        Ok(())
    }

    #[tactic(auto, unfolding(crate::specs::Steps::going_back))]
    pub(crate) fn go_back(&mut self, limits: Limits, slot: u32) -> Result<(), Halt>
        ensures { Gives (λ _. machine_state self.new) result (going_back limits slot (machine_state self.old)) }
    {
        let value = self.slots.read(slot)?;
        let context = number(Reason::Broken, value)?;
        self.trail.within(limits, context)?;
        Ok(())
    }
}
