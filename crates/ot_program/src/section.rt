ghost use Rattle.serde_json.specs.View.{view, items_view};
ghost use Rattle.ot_program.specs.walk.Reading.{each_of};
ghost use Rattle.ot_program.specs.Returned.{Gives};
ghost use Rattle.ot_program.specs.walk.Sizes.{bindings_of};
ghost use Rattle.ot_program.specs.walk.Parts.{section_of, sections_of};

use crate::fault::{ProgramFault, Refusal};
use crate::part::read_section;
use crate::parts::Parts;
use crate::scope::Scope;
use ot_model::Section;
use serde_json::Value;
use std::alloc::Global;

/// `[section, ..]`
pub(crate) fn read_sections(
    alloc: Global,
    scope: &Scope,
    value: &Value,
) -> Result<Vec<Section>, ProgramFault>
    ensures { Gives (λ v. v.items) result (sections_of scope.now.shape.now
        (bindings_of scope.now.variables.now) (view value.now)) }
{
    match value {
        Value::Array(items) => each_section(alloc, scope, items),
        _ => Err(ProgramFault::Refused(Refusal::Form)),
    }
}

// Each of the sections is looked at, also behind a fault.
fn each_section(alloc: Global, scope: &Scope, items: &[Value]) -> Result<Vec<Section>, ProgramFault>
    ensures { Gives (λ v. v.items) result (each_of
        (section_of scope.now.shape.now (bindings_of scope.now.variables.now)) (items_view items.now)) }
{
    let mut sections = Parts::new(alloc);
    for item in items {
        sections.put(read_section(scope, item))?;
    }
    sections.all()
}
