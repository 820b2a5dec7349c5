ghost use Rattle.std.specs.Prelude.{◌≡◌, ◌↔◌, ◌⊎◌, ◌≤◌, IfOk, OnOk, All, Contains, None, true, false, length, replicate};
ghost use Rattle.std.specs.List.Sorted.{IsPartitionPoint};
ghost use Rattle.ot_model.specs.Cells.{is_before, AreInOrder};
ghost use Rattle.ot_model.specs.declared.expr.Cell.{Cell};
ghost use Rattle.ot_model.specs.declared.stmt.Mode.TheVariants.{Writes};
ghost use Rattle.ot_owner.specs.Kept.{rows_of, summed_of};
ghost use Rattle.ot_owner.specs.Owning.{IsNamed};

use crate::rows::{Group, Row};
use ot_model::{Cell, Decl, Fold, Mode, Use};
use std::alloc::{AllocError, Global};
use std::marker::Model;

/// So many rows a group has a place for: one for each of 16 workers, and one that is nobody's.
const ROWS: usize = 17;

/// Room for a group that is to be opened: the cells that it names, and a place for the row of each worker.
/// No row is made by it, so it takes no more memory than its cells.
#[derive(Debug, Drop)]
pub struct Room {
    decl: Decl,
    rows: Vec<Row>,
}

impl Model for Room {
    ghost use Rattle.std.specs.Prelude.{◌≡◌, List, All, None, replicate};
    ghost use Rattle.ot_model.specs.declared.stmt.Mode.TheVariants.{Writes};
    ghost use Rattle.ot_model.specs.declared.stmt.Use.{Use};
    ghost use Rattle.ot_owner.specs.Kept.{rows_of};

    ghost Value = { List Use };

    ghost view = { λ r. r.decl };

    ghost invariant = { λ r. (rows_of r.rows.items ≡ replicate 17 None) × All (λ u. u.mode ≡ Writes) r.decl };
}

impl Room {
    /// Room for a group that names these cells, in any order, and as often as they come.
    pub(crate) fn of(alloc: Global, cells: &[Cell]) -> Result<Room, AllocError>
        ensures { IfOk result (λ room. (c : Cell) → IsNamed room c ↔ Contains cells.now c) }
    {
        Ok(Room {
            decl: Decl::new(named(alloc, cells)?),
            rows: empty_rows(alloc)?,
        })
    }

    /// The group of this number in it, by this operation. It takes no memory.
    pub(crate) fn open(self, group: u32, op: Fold) -> Group
        ensures opened { summed_of result ≡ record { group = group; op = op; uses = self; rows = replicate 17 None } }
        ensures written { All (λ u. u.mode ≡ Writes) self }
    {
        let Room { decl, rows } = self;
        Group {
            group,
            op,
            decl,
            rows,
        }
    }
}

/// These cells in order, each once, each to be written. It sorts them, and finds the place of each by
/// halving: n cells cost about n log n steps.
fn named(alloc: Global, cells: &[Cell]) -> Result<Vec<Use>, AllocError>
    ensures ordered { IfOk result (λ uses. AreInOrder uses.items) }
    ensures written { IfOk result (λ uses. All (λ u. u.mode ≡ Writes) uses.items) }
    ensures named { IfOk result (λ uses. (c : Cell) → IsNamed uses.items c ↔ Contains cells.now c) }
{
    let mut sorted = Vec::from_slice(alloc, cells)?;
    sorted.sort_unstable_by_key(|cell| (cell.array, cell.index));
    let mut uses = Vec::with_capacity(alloc, sorted.len())?;
    for cell in sorted.iter() {
        name(&mut uses, *cell)?;
    }
    Ok(uses)
}

/// One cell more, if it isn't there.
fn name(uses: &mut Vec<Use>, cell: Cell) -> Result<(), AllocError>
    requires ordered { AreInOrder uses.old.items }
    requires written { All (λ u. u.mode ≡ Writes) uses.old.items }
    ensures ordered { AreInOrder uses.new.items }
    ensures written { All (λ u. u.mode ≡ Writes) uses.new.items }
    ensures named { OnOk result ((c : Cell) → IsNamed uses.new.items c ↔ ((c ≡ cell) ⊎ IsNamed uses.old.items c)) }
{
    let place = place_of(uses, cell);
    if place < uses.len() && uses[place].cell == cell {
        return Ok(());
    }
    let used = Use {
        cell,
        mode: Mode::Writes,
    };
    uses.insert(place, used)?;
    Ok(())
}

/// How many of the cells come before this one.
fn place_of(uses: &[Use], cell: Cell) -> usize
    requires { AreInOrder uses.now }
    ensures bound { result ≤ length uses.now }
    ensures parts { IsPartitionPoint (λ u. is_before u.cell cell ≡ true) (λ u. is_before u.cell cell ≡ false) uses.now result }
{
    uses.partition_point(|used| used.cell.is_before(cell))
}

/// A place for each row. No row has begun.
fn empty_rows(alloc: Global) -> Result<Vec<Row>, AllocError>
    ensures { IfOk result (λ rows. rows_of rows.items ≡ replicate 17 None) }
{
    let mut rows = Vec::with_capacity(alloc, ROWS)?;
    for _row in 0..ROWS {
        rows.push(Row {
            begun: false,
            copies: Vec::new(alloc),
        })?;
    }
    Ok(rows)
}
