//! What a C program begins with.
ghost use Rattle.std.specs.Prelude.{◌≡◌, IfOk};
ghost use Rattle.ot_c_names.specs.Arrays.{initial_cells};
ghost use Rattle.ot_c_judge.specs.Start.{starting_cells, shape_of};

use ot_c_names::{CArray, cell_count};
use ot_model::{ArrayShape, Cells, Shape};
use std::alloc::{AllocError, Global};

/// How many task statements a program may have: no fewer than statements.
pub(crate) const MAX_TASKS: u32 = 20_000;

/// Names and lengths of arrays, fewer than 2^32 and each shorter.
pub(crate) fn shape_of(alloc: Global, arrays: &[CArray]) -> Result<Shape, AllocError>
    ensures { IfOk result (λ shape. shape ≡ shape_of arrays.now) }
{
    let mut named = Vec::new(alloc);
    for array in arrays {
        let Ok(len) = u32::try_from(cell_count(array)) else {
            return Err(AllocError);
        };
        let name = String::from_str(alloc, array.name.as_str())?;
        named.push(ArrayShape { name, len })?;
    }
    if named.len() > u32::MAX as usize {
        return Err(AllocError);
    }
    Ok(Shape::new(named, MAX_TASKS))
}

/// All numbers of an array at the start, of which none is copied.
fn all_numbers(alloc: Global, array: CArray) -> Result<Vec<u64>, AllocError>
    ensures { IfOk result (λ numbers. numbers.items ≡ initial_cells array) }
{
    let mut numbers = array.cells;
    let zeros = vec![in alloc; 0u64; array.zeros as usize]?;
    numbers.extend_from_slice(&zeros)?;
    Ok(numbers)
}

/// The numbers at the start. Only here are their zeros made.
pub(crate) fn cells_of(alloc: Global, arrays: Vec<CArray>) -> Result<Cells, AllocError>
    ensures { IfOk result (λ cells. cells ≡ starting_cells arrays.items) }
{
    let mut cells = Vec::new(alloc);
    for array in arrays {
        cells.push(all_numbers(alloc, array)?)?;
    }
    Ok(Cells::new(cells))
}
