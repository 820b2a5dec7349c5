//! Slots of code.
ghost use Rattle.std.specs.Prelude.{◌≡◌};
ghost use Rattle.ot_exec_flow.specs.Given.{number_given};

use ot_exec_code::{Code, Form};

/// The slot that a form gives, if it gives one.
pub fn given_by(form: &Form) -> Option<u32>
    ensures { result ≡ number_given form.now }
{
    match form {
        Form::Number(to, _)
        | Form::Unknown(to)
        | Form::Copy(to, _)
        | Form::Address(to, _, _)
        | Form::Function(to, _)
        | Form::Operate(to, _, _, _, _)
        | Form::Convert(to, _, _)
        | Form::Advance(to, _, _, _, _)
        | Form::Distance(to, _, _, _)
        | Form::Begin(to, _, _, _)
        | Form::Allocate(to, _, _, _, _)
        | Form::Load(_, to, _)
        | Form::LoadOwn(_, to, _)
        | Form::Context(to)
        | Form::Call(_, _, to)
        | Form::CallBy(_, _, to) => Some(*to),
        _ => None,
    }
}

/// A slot that no function and no task has.
pub fn spare_of(code: &Code) -> u32 {
    let mut slots = code.slots;
    for function in &code.functions {
        slots = slots.max(function.slots);
    }
    for form in &code.forms {
        if let Form::Task { slots: own, .. } = form {
            slots = slots.max(*own);
        }
    }
    slots
}
