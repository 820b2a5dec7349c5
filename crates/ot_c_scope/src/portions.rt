//! The parts of arrays over which groups combine, each found by its array.
ghost use Rattle.std.specs.Prelude.{◌≡◌, ℕ, nat_eq, ◌==◌, [], ◌∷◌, ◌++◌, find, option_map, IfOk};
ghost use Rattle.indexmap.specs.IndexMap.{get};
ghost use Rattle.ot_c_scope.specs.Kept.{first_or};
ghost use Rattle.ot_c_scope.specs.Scopes.{extent_of};

use crate::scope::Portion;
use indexmap::IndexMap;
use std::alloc::{AllocError, Global};
use std::marker::Model;

/// Parts of arrays, of which the oldest of each array is found at once.
#[derive(Drop)]
pub(crate) struct Portions<'a> {
    /// In the order in which they were made.
    made: Vec<Portion<'a>>,
    oldest: IndexMap<usize, Portion<'a>>,
}

impl<'a> Model for Portions<'a> {
    ghost use Rattle.std.specs.Prelude.{List, map};
    ghost use Rattle.std.specs.Coded.{codes};
    ghost use Rattle.ot_c_scope.specs.Codes.{value_code};
    ghost use Rattle.ot_c_scope.specs.Scopes.{Extent, extent_of};
    ghost use Rattle.ot_c_scope.specs.Kept.{AreOldest};

    ghost Value = { List Extent };

    ghost coded = { Prim.hlevel (codes, value_code) };

    ghost view = { λ s. map extent_of s.made.items };

    ghost invariant = { λ s. AreOldest s.oldest (map extent_of s.made.items) };
}

impl<'a> Portions<'a> {
    /// No part.
    pub(crate) fn new(alloc: Global) -> Portions<'a>
        ensures { result ≡ [] }
    {
        Portions {
            made: Vec::new(alloc),
            oldest: IndexMap::new(alloc),
        }
    }

    /// The same, with one behind them.
    pub(crate) fn with(self, portion: Portion<'a>) -> Result<Portions<'a>, AllocError>
        ensures { IfOk result (λ more. more ≡ self.entry ++ extent_of portion.entry ∷ []) }
    {
        let mut made = self.made;
        let oldest = with_oldest(self.oldest, portion)?;
        made.push(portion)?;
        Ok(Portions { made, oldest })
    }

    /// The first of this array.
    pub(crate) fn of(&self, array: usize) -> Option<Portion<'a>>
        ensures { option_map extent_of result ≡ find (λ p. p.array == array) self.now }
    {
        self.oldest.get(&array).copied()
    }
}

/// The first of each array, with one behind them.
fn with_oldest<'a>(
    mut oldest: IndexMap<usize, Portion<'a>>,
    portion: Portion<'a>,
) -> Result<IndexMap<usize, Portion<'a>>, AllocError>
    ensures { IfOk result (λ m. (x : ℕ) → get nat_eq m x ≡ first_or (get nat_eq oldest.entry x) portion.entry x) }
{
    if oldest.contains_key(&portion.array) {
        return Ok(oldest);
    }
    oldest.insert(portion.array, portion)?;
    Ok(oldest)
}
