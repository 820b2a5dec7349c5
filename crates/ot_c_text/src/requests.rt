//! The requests that make arrays and run a program.
ghost use Rattle.std.specs.Prelude.{◌≡◌, ◌≤◌, ◌==◌, ◌++◌, length, map, drop, take, IfOk};
ghost use Rattle.serde_json.specs.View.{view};
ghost use Rattle.ot_c_arrays.specs.Arrays.{c_array};
ghost use Rattle.ot_c_program.specs.Files.{lowered_of};
ghost use Rattle.ot_c_text.specs.Requests as meant;

use ot_c_program::{CArray, Lowered, all_cells};
use ot_c_scope::json;
use serde_json::Value;
use std::alloc::{AllocError, Global};

/// How many cells are put at once: as numbers of 20 digits they leave room for the rest of a line.
const PIECE: usize = 2_048;

/// The requests that make the arrays of a program with their cells, and run it.
pub(crate) fn requests_of(alloc: Global, lowered: Lowered) -> Result<Vec<Value>, AllocError>
    ensures { IfOk result (λ rs. map view rs.items ≡ meant.requests_of (lowered_of lowered)) }
{
    let mut requests = making(alloc, &lowered.arrays)?;
    requests.push(json::form1(alloc, "run", lowered.program)?)?;
    Ok(requests)
}

/// The requests that make arrays.
fn making(alloc: Global, arrays: &[CArray]) -> Result<Vec<Value>, AllocError>
    ensures { IfOk result (λ rs. map view rs.items ≡ meant.making (map c_array arrays.now)) }
{
    let mut requests = Vec::new(alloc);
    for array in arrays {
        requests = with_array(alloc, requests, array)?;
    }
    Ok(requests)
}

/// The requests that make an array, behind others.
fn with_array(alloc: Global, requests: Vec<Value>, array: &CArray) -> Result<Vec<Value>, AllocError>
    ensures { IfOk result (λ rs. map view rs.items ≡ map view requests.items ++ meant.requests_for (c_array array.now)) }
{
    let name = array.name.as_str();
    let all = all_cells(alloc, array)?;
    let cells = all.as_slice();
    let mut requests = requests;
    requests.push(new_of(alloc, name, cells.len())?)?;
    with_pieces(alloc, requests, name, cells, cells.len() / PIECE + 1)
}

/// `["new",NAME,LEN]`
fn new_of(alloc: Global, name: &str, count: usize) -> Result<Value, AllocError>
    ensures { IfOk result (λ r. view r ≡ meant.new_of name.now count) }
{
    let name = json::text(alloc, name)?;
    json::form2(alloc, "new", name, Value::from(count))
}

/// The requests that put so many pieces of an array, behind others.
fn with_pieces(
    alloc: Global,
    requests: Vec<Value>,
    name: &str,
    cells: &[u64],
    count: usize,
) -> Result<Vec<Value>, AllocError>
    ensures { IfOk result (λ rs. map view rs.items ≡ map view requests.items ++ meant.puts_from name.now (length cells.now) count cells.now) }
{
    let mut requests = requests;
    let mut rest = cells;
    for _turn in 0..count {
        let piece = first_piece(rest);
        let start = cells.len().saturating_sub(rest.len());
        requests = with_piece(alloc, requests, name, start, piece)?;
        rest = behind_piece(rest);
    }
    Ok(requests)
}

/// How many cells the piece at the front has.
fn piece_len(rest: &[u64]) -> usize
    ensures is { result ≡ meant.piece_len rest.now }
    ensures within { result ≤ length rest.now }
{
    if rest.len() < PIECE {
        rest.len()
    } else {
        PIECE
    }
}

fn first_piece(rest: &[u64]) -> &[u64]
    ensures { result.now ≡ take (meant.piece_len rest.now) rest.now }
{
    &rest[..piece_len(rest)]
}

fn behind_piece(rest: &[u64]) -> &[u64]
    ensures { result.now ≡ drop (meant.piece_len rest.now) rest.now }
{
    &rest[piece_len(rest)..]
}

/// The request that puts cells from a place on behind others, where one of them isn't 0.
fn with_piece(
    alloc: Global,
    requests: Vec<Value>,
    name: &str,
    start: usize,
    cells: &[u64],
) -> Result<Vec<Value>, AllocError>
    ensures { IfOk result (λ rs. map view rs.items ≡ map view requests.items ++ meant.put_of name.now start cells.now) }
{
    if are_zeros(cells) {
        return Ok(requests);
    }
    let mut requests = requests;
    requests.push(put_of(alloc, name, start, cells)?)?;
    Ok(requests)
}

/// `["put",NAME,START,[V,..]]`
fn put_of(alloc: Global, name: &str, start: usize, cells: &[u64]) -> Result<Value, AllocError>
    ensures { IfOk result (λ r. view r ≡ meant.putting name.now start cells.now) }
{
    let name = json::text(alloc, name)?;
    let numbers = json::list(numbers(alloc, cells)?);
    json::form3(alloc, "put", name, Value::from(start), numbers)
}

fn are_zeros(cells: &[u64]) -> bool
    ensures { result ≡ meant.are_zeros cells.now }
{
    cells.iter().all(|cell| is_zero(*cell))
}

fn is_zero(cell: u64) -> bool
    ensures { result ≡ (cell == 0) }
{
    cell == 0
}

fn numbers(alloc: Global, cells: &[u64]) -> Result<Vec<Value>, AllocError>
    ensures { IfOk result (λ vs. map view vs.items ≡ meant.numbers_data cells.now) }
{
    let mut values = Vec::new(alloc);
    for cell in cells {
        values.push(Value::from(*cell))?;
    }
    Ok(values)
}
