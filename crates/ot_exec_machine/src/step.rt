//! What each form does.
ghost use Rattle.std.specs.Prelude.{◌≡◌};
ghost use Rattle.ot_exec_state.specs.Results.{Gives};
ghost use Rattle.ot_exec_machine.specs.Steps.{step};
ghost use Rattle.ot_exec_machine.specs.Runs.{asks};
ghost use Rattle.ot_exec_machine.specs.View.{machine_state};

use crate::machine::Machine;
use crate::tasks::Created;
use ot_exec_code::{Code, Form};
use ot_exec_state::{Halt, Limits, Value};
use std::alloc::Global;

impl Machine {
    /// Whether a form asks a question: by a value that isn't known.
    #[tactic(auto, unfolding(crate::specs::Runs::asks))]
    pub(crate) fn asks(&self, form: &Form) -> bool
        ensures { result ≡ asks form.now (machine_state self.now) }
    {
        match form {
            Form::Branch(_, slot, _) => self.slots.is_question(*slot),
            Form::Task {
                when: Some(slot),
                ..
            } => self.slots.is_question(*slot),
            _ => false,
        }
    }

    /// Executes a form, by the answer to the question that it asks, if it does.
    #[tactic(auto, unfolding(crate::specs::Steps::step))]
    pub(crate) fn step(
        &mut self,
        alloc: Global,
        code: &Code,
        limits: Limits,
        form: &Form,
        answer: bool,
    ) -> Result<(), Halt>
        ensures { Gives (λ _. machine_state self.new) result (step code.now limits form.now answer (machine_state self.old)) }
    {
        match form {
            Form::Number(to, n) => self.put(*to, Value::Number(*n)),
            Form::Unknown(to) => self.put(*to, Value::Unknown),
            Form::Copy(to, slot) => self.copy(*to, *slot),
            Form::Address(to, object, index) => self.put(
                *to,
                Value::Pointer(*object, u64::from(*index)),
            ),
            Form::Function(to, function) => self.put(*to, Value::Function(*function)),
            Form::Operate(to, operation, kind, one, other) => self.operate(
                *to, *operation, *kind, *one, *other,
            ),
            Form::Convert(to, kind, slot) => self.convert(*to, *kind, *slot),
            Form::Advance(to, place, slot, stride, cells) => self.advance(
                *to, *place, *slot, *stride, *cells,
            ),
            Form::Distance(to, one, other, stride) => self.measure(*to, *one, *other, *stride),
            Form::Begin(to, cells, name, zero) => self.begin(
                limits,
                *to,
                u64::from(*cells),
                *name,
                *zero,
            ),
            Form::Allocate(to, name, slot, cells, zero) => self.allocate(
                limits, *to, *name, *slot, *cells, *zero,
            ),
            Form::End(site, slot) => self.end(alloc, limits, *site, *slot),
            Form::Load(site, to, slot) => self.load(alloc, code, limits, *site, *to, *slot),
            Form::Store(site, slot, other) => self.store(alloc, code, limits, *site, *slot, *other),
            Form::LoadOwn(_, to, slot) => self.load_own(*to, *slot),
            Form::StoreOwn(_, slot, other) => self.store_own(limits, *slot, *other),
            Form::ReadRange(site, slot, other) => self.read_range(
                alloc, limits, *site, *slot, *other,
            ),
            Form::WriteRange(site, slot, other) => self.write_range(
                alloc, code, limits, *site, *slot, *other,
            ),
            Form::Jump(to) => {
                self.jump(*to);
                Ok(())
            }
            Form::Branch(_, slot, to) => self.branch(*slot, *to, answer),
            Form::Repeat(_, slot, to) => self.repeat(*slot, *to),
            Form::Call(site, function, first) => self.call(code, limits, *site, *function, *first),
            Form::CallBy(site, slot, first) => self.call_by(code, limits, *site, *slot, *first),
            Form::Return => self.give_back(),
            Form::Task {
                site,
                first,
                slots,
                behind,
                items,
                when,
            } => {
                let created = Created {
                    site: *site,
                    first: *first,
                    slots: *slots,
                    behind: *behind,
                    items,
                    when: *when,
                };
                self.create(alloc, limits, created, answer)
            }
            Form::Finish => self.finish(alloc, limits),
            Form::Wait(site) => self.wait(alloc, limits, *site),
            Form::WaitFor(site, items) => self.wait_for(alloc, limits, *site, items),
            Form::Group(_, items) => self.group(alloc, limits, items),
            Form::Leave(site) => self.leave(alloc, limits, *site),
            Form::Lock(_, slot) => self.lock(alloc, limits, *slot),
            Form::Unlock(_, slot) => self.unlock(alloc, limits, *slot),
            Form::Joins(_, fold, slot) => self.join(*fold, *slot),
            Form::Turn(site, slot) => self.turn(limits, *site, *slot),
            Form::Context(to) => self.put_context(*to),
            Form::Within(slot) => self.go_back(limits, *slot),
            Form::Stop => {
                self.ended = true;
                Ok(())
            }
        }
    }
}
