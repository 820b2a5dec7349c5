ghost use Rattle.std.specs.Prelude.{◌≡◌, ◌+◌, ◌≤◌, ◌⊎◌, length, take, ◌<◌, ◌∷◌, [], Some, slice_get, remove, IfSome, MatchOption, MatchResult};
ghost use Rattle.ot_book.specs.Shelves.{FitOn, Keeps, Uses};

use crate::kept::{Kept, MAX_NAMED};
use ot_check::Checked;
use ot_model::Shape;
use std::alloc::{AllocError, Global};
use std::fmt;
use std::marker::Model;
use std::sync::Arc;

/// The programs that a book keeps, the one that was used last first: at most 8, with at most 80,000 statements in all, that
/// name at most 262,144 cells in all. A program has at most 20,000 statements, so there is room for four, but where they
/// name too many cells.
#[derive(Drop)]
pub(crate) struct Shelf {
    kept: Vec<Kept>,
}

/// How many programs may be kept.
const MAX_KEPT: usize = 8;
/// How many statements they may have in all.
const MAX_STATEMENTS: u32 = 80_000;

impl Model for Shelf {
    ghost use Rattle.std.specs.Prelude.{List};
    ghost use Rattle.std.specs.Coded.{codes};
    ghost use Rattle.ot_check.specs.contracts.checked.Checked as e;
    ghost use Rattle.ot_book.specs.Readings.{Reading};
    ghost use Rattle.ot_book.specs.Shelves.{FitOn};

    ghost Value = { List Reading };

    ghost coded = { Prim.hlevel (codes, e.the_row.coded) };

    ghost view = { λ s. s.kept.items };

    ghost invariant = { λ s. FitOn s.kept.items };
}

/// Printed is how many programs are kept, and not which.
impl fmt::Debug for Shelf {
    fn fmt<W: fmt::Write>(&self, f: &mut fmt::Formatter<W>) -> fmt::Result {
        fmt::Debug::fmt(&self.kept.len(), f)
    }
}

impl Shelf {
    ghost use Rattle.std.specs.Arc.{arc_value};
    ghost use Rattle.ot_book.specs.Readings.{Reading, IsReading};

    /// An empty one. It takes no memory.
    pub(crate) fn new(alloc: Global) -> Shelf
        ensures { result ≡ [] }
    {
        Shelf {
            kept: Vec::new(alloc),
        }
    }

    /// Whether a program of this line is kept, over whatever it was read.
    pub(crate) fn has_line(&self, line: &[u8]) -> bool {
        self.kept.iter().any(|kept| kept.is_line(line))
    }

    /// The program of this line over this shape, where it is kept: it is the one that was used last from then on. It
    /// takes no memory.
    pub(crate) fn find(&mut self, line: &[u8], shape: &Shape) -> Option<Arc<Checked>>
        ensures reading { IfSome result (λ checked.
            IsReading (record { line = line.now; shape = shape.now; checked = arc_value checked })) }
        ensures used { MatchOption result (self.new ≡ self.old) (λ checked.
            Uses self.old (record { line = line.now; shape = shape.now; checked = arc_value checked }) self.new) }
    {
        let (place, checked) = self.place_of(line, shape)?;
        self.put_first(place);
        Some(checked)
    }

    // The place of the program of this line over this shape, and the program.
    fn place_of(&self, line: &[u8], shape: &Shape) -> Option<(usize, Arc<Checked>)>
        ensures within { IfSome result (λ found. found.0 < length self.now) }
        ensures reading { IfSome result (λ found.
            IsReading (record { line = line.now; shape = shape.now; checked = arc_value found.1 })) }
        ensures there { IfSome result (λ found.
            slice_get self.now found.0 ≡ Some (record { line = line.now; shape = shape.now; checked = arc_value found.1 })) }
    {
        for place in 0..self.kept.len() {
            if let Some(checked) = self.kept[place].program(line, shape) {
                return Some((place, checked));
            }
        }
        None
    }

    // The program at a place is the one that was used last.
    fn put_first(&mut self, place: usize)
        requires { place < length self.old }
        ensures { (r : Reading) → slice_get self.old place ≡ Some r → self.new ≡ r ∷ remove self.old place }
    {
        let kept = self.kept.remove(place);
        let Ok(()) = self.kept.insert(0, kept) else {
            unreachable!()
        };
    }

    /// Keeps one more, used last. Those that were used longest ago go, as few as serves. Where memory is refused nothing
    /// changes. It looks at each that is kept, and not at their programs.
    pub(crate) fn keep(&mut self, kept: Kept) -> Result<(), AllocError>
        ensures { MatchResult result (λ _. Keeps self.old kept self.new) (λ _. self.new ≡ self.old) }
    {
        self.kept.insert(0, kept)?;
        let stay = fitting(&self.kept);
        self.kept.truncate(stay);
        Ok(())
    }
}

/// How many of the first of these may be kept.
fn fitting(kept: &[Kept]) -> usize
    ensures within { result ≤ length kept.now }
    ensures one { (result ≡ length kept.now) ⊎ (1 ≤ result) }
    ensures fit { FitOn (take result kept.now) }
    ensures most { (result ≡ length kept.now) ⊎ (¬ (FitOn (take (result + 1) kept.now))) }
{
    let (mut statements, mut named) = (0u32, 0u32);
    for place in 0..kept.len() {
        statements += kept[place].statements();
        named += kept[place].named();
        if place >= MAX_KEPT || statements > MAX_STATEMENTS || named > MAX_NAMED {
            return place;
        }
    }
    kept.len()
}
