ghost use Rattle.std.specs.Prelude.{◌≡◌};
ghost use Rattle.serde_json.specs.Data.{array};
ghost use Rattle.serde_json.specs.View.{view, items_view};
ghost use Rattle.ot_program.specs.walk.Sizes.{bindings_of};
ghost use Rattle.ot_program.specs.walk.Parts.{array_of, cell_in, cell_at, cell_of, section_in, section_of, section_at};

use crate::both::both;
use crate::fault::Refusal;
use crate::name::{is_name, is_word};
use crate::scope::Scope;
use crate::shape::{KnownArray, NamedShape};
use crate::size::{check_depth, read_size};
use ot_model::{Cell, Section};
use serde_json::Value;

fn read_array(shape: &NamedShape, value: &Value) -> Result<KnownArray, Refusal>
    ensures { result ≡ array_of shape.now (view value.now) }
{
    match value {
        Value::String(text) if is_name(text.as_str()) => {
            shape.find(text.as_str()).ok_or(Refusal::UnknownArray)
        }
        _ => Err(Refusal::Form),
    }
}

impl KnownArray {
    // The cell at an index below the length.
    fn cell(self, index: u32) -> Result<Cell, Refusal>
        ensures { result ≡ cell_in self index }
    {
        if index < self.len {
            Ok(Cell {
                array: self.position,
                index,
            })
        } else {
            Err(Refusal::OutOfRange)
        }
    }

    // The section that ends in the array and has at least one cell.
    fn section(self, start: u32, len: u32) -> Result<Section, Refusal>
        ensures { result ≡ section_in self start len }
    {
        if u64::from(start) + u64::from(len) > u64::from(self.len) {
            Err(Refusal::OutOfRange)
        } else if len == 0 {
            Err(Refusal::EmptySection)
        } else {
            Ok(Section {
                array: self.position,
                start,
                len,
            })
        }
    }
}

/// The cell of a name and an index.
pub(crate) fn cell_at(scope: &Scope, name: &Value, index: &Value) -> Result<Cell, Refusal>
    ensures { result ≡ cell_at scope.now.shape.now (bindings_of scope.now.variables.now)
        (view name.now) (view index.now) }
{
    let size = read_size(index, scope.variables);
    let (known, place) = both(read_array(scope.shape, name), size)?;
    let cell = known.cell(place)?;
    check_depth(index)?;
    Ok(cell)
}

/// `["c", name, size]`
pub(crate) fn read_cell(scope: &Scope, value: &Value) -> Result<Cell, Refusal>
    ensures { result ≡ cell_of scope.now.shape.now (bindings_of scope.now.variables.now)
        (view value.now) }
{
    match value {
        Value::Array(items) => cell_form(scope, items),
        _ => Err(Refusal::Form),
    }
}

#[tactic(auto, using(crate::proofs::Forms::no_cell))]
fn cell_form(scope: &Scope, items: &[Value]) -> Result<Cell, Refusal>
    ensures { result ≡ cell_of scope.now.shape.now (bindings_of scope.now.variables.now)
        (array (items_view items.now)) }
{
    let [tag, name, index] = items else {
        return Err(Refusal::Form);
    };
    if is_word(tag, "c") {
        cell_at(scope, name, index)
    } else {
        Err(Refusal::Form)
    }
}

fn section_at(scope: &Scope, name: &Value, start: &Value, len: &Value) -> Result<Section, Refusal>
    ensures { result ≡ section_at scope.now.shape.now (bindings_of scope.now.variables.now)
        (view name.now) (view start.now) (view len.now) }
{
    let sizes = both(
        read_size(start, scope.variables),
        read_size(len, scope.variables),
    );
    let (known, (first, count)) = both(read_array(scope.shape, name), sizes)?;
    let section = known.section(first, count)?;
    both(check_depth(start), check_depth(len))?;
    Ok(section)
}

/// `[name, size, size]`
pub(crate) fn read_section(scope: &Scope, value: &Value) -> Result<Section, Refusal>
    ensures { result ≡ section_of scope.now.shape.now (bindings_of scope.now.variables.now)
        (view value.now) }
{
    match value {
        Value::Array(items) => section_form(scope, items),
        _ => Err(Refusal::Form),
    }
}

#[tactic(auto, using(crate::proofs::Forms::no_section))]
fn section_form(scope: &Scope, items: &[Value]) -> Result<Section, Refusal>
    ensures { result ≡ section_of scope.now.shape.now (bindings_of scope.now.variables.now)
        (array (items_view items.now)) }
{
    let [name, start, len] = items else {
        return Err(Refusal::Form);
    };
    section_at(scope, name, start, len)
}
