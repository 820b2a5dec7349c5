//! The arrays that come back.
ghost use Rattle.std.specs.Prelude.{◌≡◌, ◌<◌, ◌^◌, ◌↔◌, IfOk, IsTrue, length, map, replicate};
ghost use Rattle.ot_model.specs.Programs.{arrays_of, expanded_of};
ghost use Rattle.ot_show_c.specs.Programs.{c_declared, lists_of};
ghost use Rattle.ot_show_c.specs.Programs as written;
ghost use Rattle.ot_c_names.specs.Arrays.{with_zeros};
ghost use Rattle.ot_c_arrays.specs.Arrays.{c_array};
ghost use Rattle.ot_c_printed.specs.Printed.{starting_array, named_arrays, arrays_shape};

use ot_c_program::CArray;
use ot_model::{ArrayShape, Program, Shape};
use ot_show_c::names;
use std::alloc::{AllocError, Global};

/// Whether these arrays are those that a program names, with the numbers that they begin with.
pub(crate) fn same_arrays(
    program: &Program,
    arrays: &[ArrayShape],
    before: &[Vec<u64>],
    back: &[CArray],
) -> bool
    ensures { IsTrue result ↔ map c_array back.now ≡ named_arrays (arrays_of arrays.now) (lists_of before.now) (expanded_of program.now) }
{
    let mut rest = back;
    for number in 0..arrays.len().min(before.len()) {
        let array = &arrays[number];
        let numbers = &before[number];
        if !names(program, number) {
            continue;
        }
        match rest {
            [] => return false,
            [one, others @ ..] => {
                if !is_array(one, array, numbers) {
                    return false;
                }
                rest = others;
            }
        }
    }
    rest.is_empty()
}

/// Whether an array that came back has this name, and begins with these numbers.
fn is_array(back: &CArray, array: &ArrayShape, numbers: &[u64]) -> bool
    ensures { IsTrue result ↔ c_array back.now ≡ starting_array (c_declared (written.array_of array.now) numbers.now) }
{
    back.name.as_str() == array.name.as_str() && are_cells(&back.cells, back.zeros, numbers)
}

/// Whether these numbers are cells and so many zeros behind them.
fn are_cells(cells: &[u64], zeros: u32, numbers: &[u64]) -> bool
    ensures { IsTrue result ↔ with_zeros cells.now zeros ≡ numbers.now }
{
    let count = cells.len();
    if numbers.len() != count + zeros as usize {
        return false;
    }
    if !are_same(&numbers[..count], cells) {
        return false;
    }
    are_zeros(&numbers[count..])
}

fn are_same(one: &[u64], two: &[u64]) -> bool
    ensures { IsTrue result ↔ one.now ≡ two.now }
{
    one == two
}

fn are_zeros(numbers: &[u64]) -> bool
    ensures { IsTrue result ↔ replicate (length numbers.now) 0 ≡ numbers.now }
{
    numbers.iter().all(|number| *number == 0)
}

/// How many task statements a program may have: no fewer than statements.
const MAX_TASKS: u32 = 20_000;

/// What a program over these arrays may name: fewer than 2^32 arrays.
pub(crate) fn shape_of(alloc: Global, arrays: &[ArrayShape]) -> Result<Shape, AllocError>
    ensures { IfOk result (λ shape. shape ≡ arrays_shape (arrays_of arrays.now)) }
{
    if arrays.len() > u32::MAX as usize {
        return Err(AllocError);
    }
    let mut named = Vec::new(alloc);
    for array in arrays {
        named.push(shaped(alloc, array.name.as_str(), array.len)?)?;
    }
    Ok(Shape::new(named, MAX_TASKS))
}

/// An array of this name and length.
fn shaped(alloc: Global, name: &str, len: u32) -> Result<ArrayShape, AllocError>
    ensures same { IfOk result (λ shaped. written.array_of shaped ≡ (name.now, len)) }
    ensures short { IfOk result (λ shaped. shaped.len < 2 ^ 32) }
{
    let name = String::from_str(alloc, name)?;
    Ok(ArrayShape { name, len })
}
