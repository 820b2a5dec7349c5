//! The arrays that items name, found by their names.
ghost use Rattle.std.specs.Prelude.{◌≡◌, ◌<◌, ◌^◌, bytes_eq, length, IfOk};
ghost use Rattle.std.specs.List.{position_or_len};
ghost use Rattle.ot_model.specs.Programs.{arrays_of};
ghost use Rattle.ot_c_overlap.specs.Named.{ArePlaced};

use crate::clause::short;
use ot_model::ArrayShape;
use std::alloc::{AllocError, Global};
use std::collections::HashMap;
use std::marker::Model;

/// Arrays, of which the first of each name is found at once.
#[derive(Drop)]
pub(crate) struct Names<'a> {
    arrays: &'a [ArrayShape],
    positions: HashMap<&'a str, usize>,
}

impl<'a> Model for Names<'a> {
    ghost use Rattle.std.specs.Prelude.{List, ℕ};
    ghost use Rattle.ot_model.specs.Programs.{arrays_of};
    ghost use Rattle.ot_c_overlap.specs.Named.{ArePlaced};

    ghost Value = { List (List ℕ × ℕ) };

    ghost view = { λ s. arrays_of s.arrays.now };

    ghost invariant = { λ s. ArePlaced (arrays_of s.arrays.now) s.positions };
}

impl<'a> Names<'a> {
    /// It costs a step for each array.
    pub(crate) fn new(alloc: Global, arrays: &'a [ArrayShape]) -> Result<Names<'a>, AllocError>
        ensures { IfOk result (λ names. names ≡ arrays_of arrays.now) }
    {
        let positions = positions_of(alloc, arrays)?;
        Ok(Names { arrays, positions })
    }

    /// The position of the first array of this name, or behind all.
    pub(crate) fn position(&self, name: &str) -> Result<u32, AllocError>
        ensures { IfOk result (λ position. position ≡ position_or_len (λ a. bytes_eq a.0 name.now) self.now) }
    {
        short(self.place(name) as u64)
    }

    fn place(&self, name: &str) -> usize
        ensures { result ≡ position_or_len (λ a. bytes_eq a.0 name.now) self.now }
    {
        match self.positions.get(name) {
            Some(position) => *position,
            None => self.arrays.len(),
        }
    }
}

/// The position of the first array of each name: that of the last is put first.
fn positions_of<'a>(
    alloc: Global,
    arrays: &'a [ArrayShape],
) -> Result<HashMap<&'a str, usize>, AllocError>
    ensures { IfOk result (ArePlaced (arrays_of arrays.now)) }
{
    let mut positions = HashMap::with_capacity(alloc, arrays.len())?;
    let mut position = arrays.len();
    while position > 0 {
        position -= 1;
        positions.insert(arrays[position].name.as_str(), position)?;
    }
    Ok(positions)
}
