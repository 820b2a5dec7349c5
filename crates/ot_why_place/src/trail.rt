//! Where a walk stands in a text.
ghost use Rattle.std.specs.Prelude.{◌≡◌, ◌++◌, map, IfOk, OnOk};
ghost use Rattle.ot_program.specs.Meanings.{number_bound};
ghost use Rattle.ot_why_place.specs.Spots.{path_of, trail_bindings, turn_by, place_by};

use std::alloc::{AllocError, Global};

/// A loop's variable, and its number in one turn.
#[derive(Clone, Copy, Debug)]
pub struct Turn<'a> {
    pub name: &'a str,
    pub number: u64,
}

/// Where a statement stands in a line, and in which turns of the loops around it.
#[derive(Debug, Drop)]
pub struct Place<'a> {
    /// Indices from 0 into the lists of the line, from the outermost on.
    pub path: Vec<usize>,
    /// The innermost first.
    pub turns: Vec<Turn<'a>>,
}

/// The items and the turns that were entered, the innermost first.
#[derive(Clone, Copy)]
pub enum Trail<'t, 'a> {
    Root,
    Item(usize, &'t Trail<'t, 'a>),
    Turn(Turn<'a>, &'t Trail<'t, 'a>),
}

impl<'a> Trail<'_, 'a> {
    /// The place to which it leads.
    pub fn place(&self, alloc: Global) -> Result<Place<'a>, AllocError>
        ensures { IfOk result (λ place. place_by place ≡ (path_of self.now, trail_bindings self.now)) }
    {
        let mut path = Vec::new(alloc);
        self.put_path(&mut path)?;
        let mut turns = Vec::new(alloc);
        self.put_turns(&mut turns)?;
        Ok(Place { path, turns })
    }

    fn put_path(&self, path: &mut Vec<usize>) -> Result<(), AllocError>
        ensures { OnOk result (path.new.items ≡ path.old.items ++ path_of self.now) }
    {
        match self {
            Trail::Root => Ok(()),
            Trail::Item(index, outer) => {
                outer.put_path(path)?;
                path.push(*index)?;
                Ok(())
            }
            Trail::Turn(_, outer) => outer.put_path(path),
        }
    }

    fn put_turns(&self, turns: &mut Vec<Turn<'a>>) -> Result<(), AllocError>
        ensures { OnOk result (map turn_by turns.new.items ≡ map turn_by turns.old.items ++ trail_bindings self.now) }
    {
        match self {
            Trail::Root => Ok(()),
            Trail::Item(_, outer) => outer.put_turns(turns),
            Trail::Turn(turn, outer) => {
                turns.push(*turn)?;
                outer.put_turns(turns)
            }
        }
    }

    /// The number of a variable. An inner one hides an outer one of the same name.
    pub fn number(&self, name: &str) -> Option<u64>
        ensures { result ≡ number_bound (trail_bindings self.now) name.now }
    {
        match self {
            Trail::Root => None,
            Trail::Item(_, outer) => outer.number(name),
            Trail::Turn(turn, outer) => {
                if turn.name == name {
                    Some(turn.number)
                } else {
                    outer.number(name)
                }
            }
        }
    }
}
