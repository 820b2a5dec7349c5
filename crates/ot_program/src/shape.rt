//! The arrays that a program may name, found by their names.
ghost use Rattle.std.specs.Prelude.{◌≡◌, ◌^◌, ◌<◌, length, IfOk, IfSome};
ghost use Rattle.ot_model.specs.Programs.{arrays_of};
ghost use Rattle.ot_program.specs.walk.Parts.{known_from};
ghost use Rattle.ot_program.specs.walk.Known.{AreKnown};

use ot_model::{ArrayShape, Shape};
use std::alloc::{AllocError, Global};
use std::collections::HashMap;
use std::marker::Model;

/// So many arrays are gone over for a name; where there are more, their names are kept in a map.
const FEW_ARRAYS: usize = 16;

/// An array of the shape: its position, and how many cells it has.
#[derive(Clone, Copy, Debug, PartialEq, Eq)]
pub(crate) struct KnownArray {
    pub(crate) position: u32,
    pub(crate) len: u32,
}

fn find_array(arrays: &[ArrayShape], name: &str) -> Option<KnownArray>
    requires { length arrays.now < 2 ^ 32 }
    ensures { result ≡ known_from 0 (arrays_of arrays.now) name.now }
{
    for (position, array) in arrays.iter().enumerate() {
        if array.name.as_str() == name {
            return Some(KnownArray {
                position: position as u32,
                len: array.len,
            });
        }
    }
    None
}

// The arrays by their names. Of arrays with one name it has the first, so it begins with the last.
fn by_name<'a>(
    alloc: Global,
    arrays: &'a [ArrayShape],
) -> Result<HashMap<&'a str, KnownArray>, AllocError>
    requires { length arrays.now < 2 ^ 32 }
    ensures { IfOk result (AreKnown (arrays_of arrays.now)) }
{
    let mut known = HashMap::with_capacity(alloc, arrays.len())?;
    let mut position = arrays.len();
    while position > 0 {
        position -= 1;
        let array = &arrays[position];
        let found = KnownArray {
            position: position as u32,
            len: array.len,
        };
        known.insert(array.name.as_str(), found)?;
    }
    Ok(known)
}

// The arrays by their names, where they are many.
fn by_name_if_many<'a>(
    alloc: Global,
    arrays: &'a [ArrayShape],
) -> Result<Option<HashMap<&'a str, KnownArray>>, AllocError>
    requires { length arrays.now < 2 ^ 32 }
    ensures { IfOk result (λ known. IfSome known (AreKnown (arrays_of arrays.now))) }
{
    if arrays.len() <= FEW_ARRAYS {
        return Ok(None);
    }
    Ok(Some(by_name(alloc, arrays)?))
}

/// A shape whose arrays are found by their names, at a cost that doesn't grow with their number.
#[derive(Drop)]
pub(crate) struct NamedShape<'a> {
    shape: &'a Shape,
    /// The arrays by their names, where they are many.
    known: Option<HashMap<&'a str, KnownArray>>,
}

impl<'a> Model for NamedShape<'a> {
    ghost use Rattle.std.specs.Prelude.{IfSome};
    ghost use Rattle.ot_model.specs.Programs.{Arrays};

    ghost Value = { Arrays };

    ghost use Rattle.ot_program.specs.walk.Known.{AreKnown};

    ghost view = { λ s. s.shape.now };

    ghost invariant = { λ s. IfSome s.known (AreKnown s.shape.now.arrays) };
}

impl<'a> NamedShape<'a> {
    ghost use Rattle.ot_model.specs.Programs.{AreShort};

    /// It costs a step for each array.
    pub(crate) fn new(alloc: Global, shape: &'a Shape) -> Result<NamedShape<'a>, AllocError>
        ensures { IfOk result (λ named. named ≡ shape.now) }
    {
        let known = by_name_if_many(alloc, shape.arrays())?;
        Ok(NamedShape { shape, known })
    }

    /// The first array of a name.
    pub(crate) fn find(&self, name: &str) -> Option<KnownArray>
        ensures { result ≡ known_from 0 self.now.arrays name.now }
    {
        match &self.known {
            Some(known) => known.get(name).copied(),
            None => find_array(self.shape.arrays(), name),
        }
    }

    /// The arrays in order of creation.
    pub(crate) fn arrays(&self) -> &[ArrayShape]
        ensures arrays { arrays_of result.now ≡ self.now.arrays }
        ensures short { AreShort self.now.arrays }
    {
        self.shape.arrays()
    }

    /// How many task statements a program may have.
    pub(crate) fn tasks(&self) -> u32
        ensures { result ≡ self.now.tasks }
    {
        self.shape.tasks()
    }
}
