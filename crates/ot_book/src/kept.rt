ghost use Rattle.std.specs.Prelude.{◌≡◌, ◌<◌, IsTrue, string_bytes, IfSome, MatchOption};
ghost use Rattle.ot_model.specs.Programs.{arrays_of};

use crate::named::cells_named;
use ot_check::Checked;
use ot_model::{ArrayShape, Shape};
use std::marker::Model;
use std::sync::Arc;

/// A line that was read, with what it could name then and its program, which can't race. It needn't be read again
/// where it comes again and may name the same.
#[derive(Drop)]
pub(crate) struct Kept {
    line: Vec<u8>,
    shape: Shape,
    checked: Arc<Checked>,
    // How many cells the program names.
    named: u32,
}

/// How many cells the programs that are kept may name in all.
pub(crate) const MAX_NAMED: u32 = 262_144;

impl Model for Kept {
    ghost use Rattle.std.specs.Coded.{codes};
    ghost use Rattle.ot_check.specs.contracts.checked.Checked as e;
    ghost use Rattle.ot_book.specs.Readings.{Reading, IsReading};
    ghost use Rattle.ot_book.specs.Shelves.{IsCounted};

    ghost Value = { Reading };

    ghost coded = { Prim.hlevel (codes, e.the_row.coded) };

    ghost use Rattle.std.specs.Arc.{arc_value};

    ghost view = { λ k. record { line = k.line.items; shape = k.shape; checked = arc_value k.checked } };

    ghost invariant = { λ k.
        let r : Reading = record { line = k.line.items; shape = k.shape; checked = arc_value k.checked } in
        IsReading r × IsCounted r k.named };
}

impl Kept {
    ghost use Rattle.std.specs.Arc.{arc_value};
    ghost use Rattle.ot_book.specs.Readings.{Reading, IsReading};
    ghost use Rattle.ot_book.specs.Shelves.{named_of, IsCounted};

    /// What was read, unless its program alone names more cells than all that are kept may. It takes no memory, and looks
    /// once at the program.
    pub(crate) fn new(line: Vec<u8>, shape: Shape, checked: Arc<Checked>) -> Option<Kept>
        requires { IsReading (record { line = line.items; shape = shape; checked = arc_value checked }) }
        ensures { let r : Reading = record { line = line.items; shape = shape; checked = arc_value checked } in
            MatchOption result (262144 < named_of r) (λ kept. kept ≡ r) }
    {
        let named = cells_named(&checked.program.body);
        if named > MAX_NAMED {
            return None;
        }
        Some(Kept {
            line,
            shape,
            checked,
            named,
        })
    }

    /// Whether it is this line, over whatever it was read.
    pub(crate) fn is_line(&self, line: &[u8]) -> bool
        ensures { IsTrue result → line.now ≡ self.now.line }
    {
        self.line.as_slice() == line
    }

    /// The statements of its program, at most 20,000.
    pub(crate) fn statements(&self) -> u32
        ensures { result ≡ self.now.checked.program.statements }
    {
        self.checked.program.statements
    }

    /// How many cells its program names.
    pub(crate) fn named(&self) -> u32
        ensures { IsCounted self.now result }
    {
        self.named
    }

    /// The program, if it was read of this line over this shape. It takes no memory, and is refused only where more
    /// hold it than can be counted.
    pub(crate) fn program(&self, line: &[u8], shape: &Shape) -> Option<Arc<Checked>>
        ensures reading { IfSome result (λ checked.
            IsReading (record { line = line.now; shape = shape.now; checked = arc_value checked })) }
        ensures kept { IfSome result (λ checked.
            self.now ≡ record { line = line.now; shape = shape.now; checked = arc_value checked }) }
    {
        if !self.is_line(line) || !same_shape(&self.shape, shape) {
            return None;
        }
        Arc::try_clone(&self.checked).ok()
    }
}

/// Whether two shapes are the same.
fn same_shape(one: &Shape, other: &Shape) -> bool
    ensures { IsTrue result → one.now ≡ other.now }
{
    one.tasks() == other.tasks() && same_arrays(one.arrays(), other.arrays())
}

fn same_arrays(one: &[ArrayShape], other: &[ArrayShape]) -> bool
    ensures { IsTrue result → arrays_of one.now ≡ arrays_of other.now }
{
    if one.len() != other.len() {
        return false;
    }
    for i in 0..one.len() {
        if !same_array(&one[i], &other[i]) {
            return false;
        }
    }
    true
}

fn same_array(one: &ArrayShape, other: &ArrayShape) -> bool
    ensures name { IsTrue result → string_bytes one.now.name ≡ string_bytes other.now.name }
    ensures len { IsTrue result → one.now.len ≡ other.now.len }
{
    one.len == other.len && one.name.as_str() == other.name.as_str()
}
