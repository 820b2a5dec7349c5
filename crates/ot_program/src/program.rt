ghost use Rattle.std.specs.Prelude.{IfOk, option_map};
ghost use Rattle.serde_json.specs.View.{view};
ghost use Rattle.ot_model.specs.Programs.{array_lengths, expanded_of, IsNamedIn};
ghost use Rattle.ot_program.specs.Returned.{Gives};
ghost use Rattle.ot_program.specs.Programs.{program_of};
ghost use Rattle.ot_program.specs.Requested.{form_by};
ghost use Rattle.ot_program.specs.walk.Statements.{walk_in, program_at};

use crate::both::join;
use crate::counts::{Counts, cells};
use crate::fault::{ProgramFault, Refusal};
use crate::form::{ProgramForm, program_form};
use crate::head::read_list;
use crate::profile::Profile;
use crate::scope::{Scope, Variables};
use crate::section::read_sections;
use crate::shape::NamedShape;
use crate::statement::read_body;
use ot_model::{Program, Shape};
use serde_json::Value;
use std::alloc::Global;

/// Reads a program over the arrays of `shape`: its expansion, or the first fault of its first
/// statement, in expanded order, that has one.
pub fn read_program(alloc: Global, text: &Value, shape: &Shape) -> Result<Program, ProgramFault>
    ensures read { Gives expanded_of result (program_of shape.now (view text.now)) }
    // Each cell that the program names is in the shape.
    ensures named { IfOk result
        (λ program. IsNamedIn (array_lengths shape.now) (expanded_of program)) }
{
    // The shape's lengths fit 32 bits.
    let _arrays = shape.arrays();
    program_in(alloc, shape, program_form(text))
}

// What has no form is no program.
fn program_in(
    alloc: Global,
    shape: &Shape,
    form: Option<ProgramForm<'_>>,
) -> Result<Program, ProgramFault>
    ensures { Gives expanded_of result (walk_in shape.now (option_map form_by form.entry)) }
{
    let Some(form) = form else {
        return Err(ProgramFault::Refused(Refusal::Form));
    };
    let shape = NamedShape::new(alloc, shape)?;
    program_at(alloc, &shape, form.profile, form.shows, form.body)
}

fn program_at(
    alloc: Global,
    shape: &NamedShape,
    profile: Profile,
    shows: &Value,
    body: &Value,
) -> Result<Program, ProgramFault>
    ensures { Gives expanded_of result (program_at shape.now profile (view shows.now)
        (view body.now)) }
{
    let scope = Scope {
        shape,
        profile,
        variables: &Variables::None,
        level: 1,
    };
    let list = read_list(body).map_err(ProgramFault::Refused);
    let (shows, _) = join(read_sections(alloc, &scope, shows), list)?;
    let mut counts = Counts::none().plus(0, 0, cells(&shows))?;
    let mut statements = Vec::new(alloc);
    read_body(alloc, &scope, body, &mut counts, &mut statements)?;
    Ok(Program {
        shows,
        body: statements,
        statements: counts.statements,
        tasks: counts.tasks,
    })
}
