//! What groups combine over, each opening found by the name of its array or pointer.
ghost use Rattle.std.specs.Prelude.{◌≡◌, ℕ, ◌==◌, ◌||◌, [], ◌∷◌, find, IfOk};
ghost use Rattle.std.specs.List.{list_any};
ghost use Rattle.ot_c_scope.specs.Kept.{first_of, points_in};
ghost use Rattle.ot_c_scope.specs.Scopes as around;
ghost use Rattle.ot_c_scope.specs.Scopes.{Run};

use crate::scope::{Opening, Pointee, points_into};
use indexmap::IndexMap;
use std::alloc::{AllocError, Global};
use std::collections::BTreeSet;
use std::marker::Model;

/// Openings, of which the newest by each name is found at once.
#[derive(Drop)]
pub(crate) struct Openings {
    /// In the order in which they were made.
    made: Vec<Opening>,
    newest: IndexMap<usize, Opening>,
    /// The cells that pointers among them name, each by its array and its place.
    cells: BTreeSet<(usize, u64)>,
}

impl Model for Openings {
    ghost use Rattle.std.specs.Prelude.{List, reverse};
    ghost use Rattle.ot_c_scope.specs.declared.scope.Opening.{Opening};
    ghost use Rattle.ot_c_scope.specs.Kept.{AreNewest};

    ghost Value = { List Opening };

    ghost view = { λ s. reverse s.made.items };

    ghost invariant = { λ s. AreNewest s.newest s.cells.keys (reverse s.made.items) };
}

impl Openings {
    /// No opening.
    pub(crate) fn new(alloc: Global) -> Openings
        ensures { result ≡ [] }
    {
        Openings {
            made: Vec::new(alloc),
            newest: IndexMap::new(alloc),
            cells: BTreeSet::new(alloc),
        }
    }

    /// The same, with one within them.
    pub(crate) fn with(self, opening: Opening) -> Result<Openings, AllocError>
        ensures { IfOk result (λ more. more ≡ opening ∷ self) }
    {
        let mut made = self.made;
        let mut newest = self.newest;
        let cells = with_cell(self.cells, opening.pointee)?;
        newest.insert(opening.array, opening)?;
        made.push(opening)?;
        Ok(Openings {
            made,
            newest,
            cells,
        })
    }

    /// Whether there are any.
    pub(crate) fn are_some(&self) -> bool
        ensures { result ≡ around.combines self.now }
    {
        !self.made.is_empty()
    }

    /// The innermost by this name.
    pub(crate) fn of(&self, name: usize) -> Option<Opening>
        ensures { result ≡ find (λ o. o.array == name) self.now }
    {
        self.newest.get(&name).copied()
    }

    /// Whether one of them is by a pointer to one of these cells of an array.
    pub(crate) fn point_into(&self, array: usize, cells: Option<(u64, u64)>) -> bool
        ensures { result ≡ list_any (λ o. around.points_into array cells o.pointee) self.now }
    {
        are_pointed(&self.cells, array, cells)
    }
}

fn with_cell(
    mut cells: BTreeSet<(usize, u64)>,
    cell: Option<Pointee>,
) -> Result<BTreeSet<(usize, u64)>, AllocError>
    ensures { IfOk result (λ more. (x : ℕ) (run : Run) → points_in x run more.keys ≡ (around.points_into x run cell || points_in x run cells.keys)) }
{
    match cell {
        None => Ok(cells),
        Some(cell) => {
            cells.insert((cell.array, cell.place))?;
            Ok(cells)
        }
    }
}

/// Where the first of these cells of an array may stand.
fn first_of(cells: Option<(u64, u64)>) -> u64
    ensures { result ≡ first_of cells }
{
    match cells {
        Some((first, _)) => first,
        None => 0,
    }
}

/// Whether one of these cells of an array is among those of pointers. It looks at one of those.
fn are_pointed(pointees: &BTreeSet<(usize, u64)>, array: usize, cells: Option<(u64, u64)>) -> bool
    ensures { result ≡ points_in array cells pointees.now.keys }
{
    match pointees.range((array, first_of(cells))..).next() {
        Some((found, place)) => {
            let pointee = Pointee {
                array: *found,
                place: *place,
            };
            points_into(array, cells, Some(pointee))
        }
        None => false,
    }
}
