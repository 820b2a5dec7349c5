//! Who uses each cell since it was last written.
ghost use Rattle.std.specs.Prelude.{◌≡◌, ◌≢◌, ◌<◌, ◌++◌, ◌%◌, ℕ, length, OnOk, replicate};
ghost use Rattle.std.specs.Option.{option_to_list};
ghost use Rattle.ot_model.specs.declared.expr.Cell.{Cell};
ghost use Rattle.ot_depend.specs.Siblings.{is_write, times};
ghost use Rattle.ot_show_graph.specs.Written.{cells_with, entered_by, row_on_shelf, row_seen, row_in_rows, entry_on, waited_for, no_child};

use crate::met::{Met, put_all, put_cell};
use ot_model::{Cell, Mode, Use};
use std::alloc::{AllocError, Global};

/// The children for whom one may have to wait that uses a cell next, by their places in the order of creation, from 0.
#[derive(Debug, Drop)]
pub(crate) struct Row {
    /// The last child that writes the cell.
    writer: Option<usize>,
    /// The children that use it since then.
    users: Vec<usize>,
}

/// How many cells a page has.
const CELLS: u32 = 32;

/// The rows of the first cells of a page.
#[derive(Debug, Drop)]
pub(crate) struct Page {
    rows: Vec<Row>,
}

/// The first pages of an array.
#[derive(Debug, Drop)]
pub(crate) struct Shelf {
    pages: Vec<Page>,
}

/// The rows of the cells, in pages, by array.
#[derive(Debug, Drop)]
pub(crate) struct Rows {
    shelves: Vec<Shelf>,
}

impl Rows {
    /// No child uses a cell. It takes no memory.
    pub(crate) fn new(alloc: Global) -> Rows
        ensures { (c : Cell) → row_in_rows result c ≡ no_child }
    {
        Rows {
            shelves: Vec::new(alloc),
        }
    }

    /// Puts the cell of a use to each for whom a child waits by itself that uses it so.
    pub(crate) fn put(&self, alloc: Global, met: &mut Met, used: Use) -> Result<(), AllocError>
        ensures { OnOk result ((e : ℕ) → cells_with met.new e ≡ cells_with met.old e ++ replicate (times e (waited_for (row_in_rows self.now used.cell) used.mode)) used.cell) }
    {
        match self.shelves.get(used.cell.array as usize) {
            Some(shelf) => shelf.put(alloc, met, used),
            None => Ok(()),
        }
    }

    /// A child has this use.
    pub(crate) fn enter(&mut self, alloc: Global, child: usize, used: Use) -> Result<(), AllocError>
        ensures there { OnOk result (row_in_rows self.new used.cell ≡ entered_by child used.mode (row_in_rows self.old used.cell)) }
        ensures others { OnOk result ((c : Cell) → c ≢ used.cell → row_in_rows self.new c ≡ row_in_rows self.old c) }
    {
        self.reach(alloc, used.cell.array)?;
        self.shelves[used.cell.array as usize].enter(alloc, child, used.cell.index, used.mode)
    }

    /// Makes a shelf for the array.
    fn reach(&mut self, alloc: Global, array: u32) -> Result<(), AllocError>
        ensures same { (c : Cell) → row_in_rows self.new c ≡ row_in_rows self.old c }
        ensures there { OnOk result (array < length self.new.shelves.items) }
    {
        for _ in self.shelves.len()..array as usize + 1 {
            self.shelves.push(Shelf {
                pages: Vec::new(alloc),
            })?;
        }
        Ok(())
    }
}

impl Shelf {
    /// Puts the cell of a use, which is of the shelf's array, to each for whom a child waits by itself that uses it so.
    fn put(&self, alloc: Global, met: &mut Met, used: Use) -> Result<(), AllocError>
        ensures { OnOk result ((e : ℕ) → cells_with met.new e ≡ cells_with met.old e ++ replicate (times e (waited_for (row_on_shelf self.now used.cell.index) used.mode)) used.cell) }
    {
        match self.pages.get((used.cell.index / CELLS) as usize) {
            Some(page) => page.put(alloc, met, used),
            None => Ok(()),
        }
    }

    /// A child uses the cell at an index so.
    fn enter(
        &mut self,
        alloc: Global,
        child: usize,
        index: u32,
        mode: Mode,
    ) -> Result<(), AllocError>
        ensures there { OnOk result (row_on_shelf self.new index ≡ entered_by child mode (row_on_shelf self.old index)) }
        ensures others { OnOk result ((i : ℕ) → i ≢ index → row_on_shelf self.new i ≡ row_on_shelf self.old i) }
    {
        let page = index / CELLS;
        self.reach(alloc, page)?;
        self.pages[page as usize].enter(alloc, child, index % CELLS, mode)
    }

    /// Makes a page.
    fn reach(&mut self, alloc: Global, page: u32) -> Result<(), AllocError>
        ensures same { (i : ℕ) → row_on_shelf self.new i ≡ row_on_shelf self.old i }
        ensures there { OnOk result (page < length self.new.pages.items) }
    {
        for _ in self.pages.len()..page as usize + 1 {
            self.pages.push(Page {
                rows: Vec::new(alloc),
            })?;
        }
        Ok(())
    }
}

impl Page {
    /// Puts the cell of a use, which is of this page, to each for whom a child waits by itself that uses it so.
    fn put(&self, alloc: Global, met: &mut Met, used: Use) -> Result<(), AllocError>
        ensures { OnOk result ((e : ℕ) → cells_with met.new e ≡ cells_with met.old e ++ replicate (times e (waited_for (entry_on self.now (used.cell.index % 32)) used.mode)) used.cell) }
    {
        match self.rows.get((used.cell.index % CELLS) as usize) {
            Some(row) => row.put(alloc, met, used),
            None => Ok(()),
        }
    }

    /// A child uses the cell at a place of the page so.
    fn enter(
        &mut self,
        alloc: Global,
        child: usize,
        place: u32,
        mode: Mode,
    ) -> Result<(), AllocError>
        ensures there { OnOk result (entry_on self.new place ≡ entered_by child mode (entry_on self.old place)) }
        ensures others { OnOk result ((k : ℕ) → k ≢ place → entry_on self.new k ≡ entry_on self.old k) }
    {
        self.reach(alloc, place)?;
        self.rows[place as usize].enter(child, mode)
    }

    /// Makes a row for the cell at a place.
    fn reach(&mut self, alloc: Global, place: u32) -> Result<(), AllocError>
        ensures same { (k : ℕ) → entry_on self.new k ≡ entry_on self.old k }
        ensures there { OnOk result (place < length self.new.rows.items) }
    {
        for _ in self.rows.len()..place as usize + 1 {
            self.rows.push(Row::new(alloc))?;
        }
        Ok(())
    }
}

impl Row {
    /// No child uses the cell. It takes no memory.
    fn new(alloc: Global) -> Row
        ensures { row_seen result ≡ no_child }
    {
        Row {
            writer: None,
            users: Vec::new(alloc),
        }
    }

    /// A child uses the cell so.
    fn enter(&mut self, child: usize, mode: Mode) -> Result<(), AllocError>
        ensures { OnOk result (row_seen self.new ≡ entered_by child mode (row_seen self.old)) }
    {
        if is_write(mode) {
            self.writer = Some(child);
            self.users.clear();
        } else {
            self.users.push(child)?;
        }
        Ok(())
    }

    /// Puts the cell of a use to each for whom a child waits by itself that uses it so.
    fn put(&self, alloc: Global, met: &mut Met, used: Use) -> Result<(), AllocError>
        ensures { OnOk result ((e : ℕ) → cells_with met.new e ≡ cells_with met.old e ++ replicate (times e (waited_for (row_seen self.now) used.mode)) used.cell) }
    {
        self.put_writer(alloc, met, used.cell)?;
        if is_write(used.mode) {
            put_all(alloc, met, &self.users, used.cell)
        } else {
            Ok(())
        }
    }

    /// Puts a cell to the last child that writes it.
    fn put_writer(&self, alloc: Global, met: &mut Met, cell: Cell) -> Result<(), AllocError>
        ensures { OnOk result ((e : ℕ) → cells_with met.new e ≡ cells_with met.old e ++ replicate (times e (option_to_list self.now.writer)) cell) }
    {
        match self.writer {
            Some(writer) => put_cell(alloc, met, writer, cell),
            None => Ok(()),
        }
    }
}

/// Whether a mode is `out` or `inout`.
fn is_write(mode: Mode) -> bool
    ensures { result ≡ is_write mode }
{
    matches!(mode, Mode::Writes)
}
