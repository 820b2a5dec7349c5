//! For each cell that is declared, the place of its row, in pages of 32 cells.
ghost use Rattle.std.specs.Prelude.{◌≡◌, ◌≢◌, ◌+◌, ◌^◌, ◌<◌, ℕ, IsSome, OnOk, Some, None, length};
ghost use Rattle.ot_model.specs.declared.expr.Cell.{Cell};
ghost use Rattle.ot_depend.specs.Places.{mark_of, number_of, mark_in, number_in, place_in};

use ot_model::Cell;
use std::alloc::{AllocError, Global};

/// The numbers of an array's cells, in pages of 32 cells, each made as one of its cells is named: 0 where
/// the cell has no row, else one more than the row's place.
#[derive(Debug, Drop)]
pub(crate) struct Shelf {
    pages: Vec<Vec<usize>>,
}

/// The places of all cells.
#[derive(Debug, Drop)]
pub(crate) struct Places {
    shelves: Vec<Shelf>,
}

impl Shelf {
    /// The number of a cell of the array.
    fn at(&self, index: u32) -> usize
        ensures { result ≡ number_of self.now index }
    {
        let place = (index / 32) as usize;
        let offset = (index % 32) as usize;
        if place < self.pages.len() && offset < self.pages[place].len() {
            return self.pages[place][offset];
        }
        0
    }

    /// Makes pages, without cells, up to this one.
    fn reach(&mut self, alloc: Global, place: usize) -> Result<(), AllocError>
        ensures same { (index : ℕ) → mark_of self.new index ≡ mark_of self.old index }
        ensures reached { OnOk result (place < length self.new.pages.items) }
    {
        while self.pages.len() <= place {
            self.pages.push(Vec::new(alloc))?;
        }
        Ok(())
    }

    /// Makes the page of a cell of the array.
    fn make(&mut self, alloc: Global, index: u32) -> Result<(), AllocError>
        ensures same { (other : ℕ) → number_of self.new other ≡ number_of self.old other }
        ensures made { OnOk result (IsSome (mark_of self.new index)) }
    {
        let place = (index / 32) as usize;
        self.reach(alloc, place)?;
        let page = &mut self.pages[place];
        if page.len() < 32 {
            page.resize(32, 0)?;
        }
        Ok(())
    }

    /// Gives a cell of the array a number. Its page is to be made.
    fn set(&mut self, index: u32, number: usize)
        requires { IsSome (mark_of self.old index) }
        ensures there { mark_of self.new index ≡ Some number }
        ensures others { (other : ℕ) → other ≢ index → mark_of self.new other ≡ mark_of self.old other }
    {
        let page = &mut self.pages[(index / 32) as usize];
        page[(index % 32) as usize] = number;
    }
}

impl Places {
    /// No cell has a row. It takes no memory.
    pub(crate) fn new(alloc: Global) -> Places
        ensures { (cell : Cell) → place_in result cell ≡ None }
    {
        Places {
            shelves: Vec::new(alloc),
        }
    }

    /// The place of a cell's row, if it has one.
    pub(crate) fn of(&self, cell: Cell) -> Option<usize>
        ensures { result ≡ place_in self.now cell }
    {
        let number = self.at(cell);
        if number == 0 { None } else { Some(number - 1) }
    }

    /// The number of a cell.
    fn at(&self, cell: Cell) -> usize
        ensures { result ≡ number_in self.now cell }
    {
        let array = cell.array as usize;
        if array < self.shelves.len() {
            return self.shelves[array].at(cell.index);
        }
        0
    }

    /// Makes shelves, without pages, up to that of an array.
    fn reach(&mut self, alloc: Global, array: usize) -> Result<(), AllocError>
        ensures same { (cell : Cell) → mark_in self.new cell ≡ mark_in self.old cell }
        ensures reached { OnOk result (array < length self.new.shelves.items) }
    {
        while self.shelves.len() <= array {
            self.shelves.push(Shelf {
                pages: Vec::new(alloc),
            })?;
        }
        Ok(())
    }

    /// Makes the page of a cell.
    pub(crate) fn make(&mut self, alloc: Global, cell: Cell) -> Result<(), AllocError>
        ensures same { (other : Cell) → place_in self.new other ≡ place_in self.old other }
        ensures made { OnOk result (IsSome (mark_in self.new cell)) }
    {
        let array = cell.array as usize;
        self.reach(alloc, array)?;
        self.shelves[array].make(alloc, cell.index)
    }

    /// Gives a cell a row's place. Its page is to be made. It takes no memory.
    pub(crate) fn set(&mut self, cell: Cell, place: usize)
        requires made { IsSome (mark_in self.old cell) }
        requires small { place + 1 < 2 ^ 64 }
        ensures there { place_in self.new cell ≡ Some place }
        ensures others { (other : Cell) → cell ≢ other → place_in self.new other ≡ place_in self.old other }
    {
        self.shelves[cell.array as usize].set(cell.index, place + 1);
    }
}
