//! The program that a request runs, and the parts of a program, before they are read.
ghost use Rattle.std.specs.Prelude.{◌≡◌, option_map};
ghost use Rattle.serde_json.specs.Data.{array};
ghost use Rattle.serde_json.specs.View.{view, items_view};
ghost use Rattle.ot_program.specs.Requested.{requested_program, program_form, form_by};

use crate::profile::{Profile, read_profile};
use serde_json::Value;

/// A program as it is written: `["program", shows, body]` or `["program2", shows, body]`.
#[derive(Clone, Copy, Debug)]
pub struct ProgramForm<'a> {
    /// The one that its first word names.
    pub profile: Profile,
    pub shows: &'a Value,
    pub body: &'a Value,
}

/// The program that a request runs: the second of its two items. The first isn't looked at.
pub fn requested_program(request: &Value) -> Option<&Value>
    ensures { option_map (λ program. view program.now) result ≡ requested_program (view request.now) }
{
    match request {
        Value::Array(items) => second_of_two(items),
        _ => None,
    }
}

#[tactic(auto, using(crate::proofs::RequestForms::requests))]
fn second_of_two(items: &[Value]) -> Option<&Value>
    ensures { option_map (λ program. view program.now) result ≡ requested_program (array (items_view items.now)) }
{
    match items {
        [_, program] => Some(program),
        _ => None,
    }
}

/// The form of a program, where it has one.
pub fn program_form(program: &Value) -> Option<ProgramForm<'_>>
    ensures { option_map form_by result ≡ program_form (view program.now) }
{
    match program {
        Value::Array(items) => form_of_three(items),
        _ => None,
    }
}

#[tactic(auto, using(crate::proofs::RequestForms::forms))]
fn form_of_three(items: &[Value]) -> Option<ProgramForm<'_>>
    ensures { option_map form_by result ≡ program_form (array (items_view items.now)) }
{
    match items {
        [word, shows, body] => Some(ProgramForm {
            profile: read_profile(word)?,
            shows,
            body,
        }),
        _ => None,
    }
}
