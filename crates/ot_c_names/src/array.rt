//! Arrays of programs in C.
ghost use Rattle.std.specs.Prelude.{◌≡◌, length, IfOk};
ghost use Rattle.ot_c_names.specs.Arrays.{initial_cells};

use std::alloc::{AllocError, Global};

/// An array of a program in C, with its cells as it begins: those that the text gives numbers to, and so many zeros behind
/// them. Numbers below zero stand modulo 2^64.
#[derive(Debug, Drop)]
pub struct CArray {
    pub name: String,
    pub cells: Vec<u64>,
    pub zeros: u32,
}

/// How many cells an array has.
pub fn cell_count(array: &CArray) -> usize
    ensures { result ≡ length (initial_cells array.now) }
{
    array.cells.len() + array.zeros as usize
}

/// All cells of an array as it begins.
pub fn all_cells(alloc: Global, array: &CArray) -> Result<Vec<u64>, AllocError>
    ensures { IfOk result (λ cells. cells.items ≡ initial_cells array.now) }
{
    let mut cells = array.cells.clone()?;
    let zeros = vec![in alloc; 0u64; array.zeros as usize]?;
    cells.extend_from_slice(&zeros)?;
    Ok(cells)
}
