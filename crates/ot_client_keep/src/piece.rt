//! How an array's cells are cut into pieces, one for each line: from one cell that isn't 0 to another, so that a tenant
//! has fewer lines than a log has room for, and none is longer than a line may be.
ghost use Rattle.std.specs.Prelude.{◌≡◌, ◌≢◌, ◌≤◌, ◌<◌, ◌+◌, ℕ, length, slice_index};

/// Bytes of numbers and commas behind which a piece ends.
const FULL: usize = 60_000;

/// So many zeros in a row end a piece.
const GAP: usize = 64;

/// The first cell from `from` on that isn't 0, or the end.
pub(crate) fn first_filled(cells: &[u64], from: usize) -> usize
    requires { from ≤ length cells.now }
    ensures behind { from ≤ result }
    ensures within { result ≤ length cells.now }
    ensures zeros { (k : ℕ) → from ≤ k → k < result → slice_index cells.now k ≡ 0 }
    ensures filled { result < length cells.now → slice_index cells.now result ≢ 0 }
{
    let mut at = from;
    while at < cells.len() && cells[at] == 0 {
        at += 1;
    }
    at
}

/// The end of the piece that begins at a cell.
pub(crate) fn piece_end(cells: &[u64], start: usize) -> usize
    requires { start < length cells.now }
    ensures some { start < result }
    ensures within { result ≤ length cells.now }
{
    let mut end = start + 1;
    let mut size = digits(cells[start]) + 1;
    let mut at = end;
    while at < cells.len() && at - end < GAP && size < FULL {
        size += digits(cells[at]) + 1;
        if cells[at] != 0 {
            end = at + 1;
        }
        at += 1;
    }
    end
}

/// How many digits a number is written with.
fn digits(number: u64) -> usize
    ensures some { 1 ≤ result }
    ensures few { result ≤ 20 }
{
    match number.checked_ilog10() {
        Some(power) => power as usize + 1,
        None => 1,
    }
}
