//! For each cell that is declared, the last child that writes it and the children that use it since.
ghost use Rattle.std.specs.Prelude.{◌≡◌, ◌++◌, ◌∷◌, [], ◌+◌, ◌<◌, ◌≤◌, ℕ, IfOk, OnOk, All, Some, true, false, length, take, map, slice_get};
ghost use Rattle.ot_model.specs.declared.stmt.Use.{Use};
ghost use Rattle.ot_model.specs.declared.expr.Cell.{Cell};
ghost use Rattle.ot_model.specs.declared.stmt.Mode.TheVariants.{Reads};
ghost use Rattle.ot_depend.specs.Children.{kids_of};
ghost use Rattle.ot_depend.specs.Cells.{must_wait, some_must_wait, entry_in, line_of, enter, place_of, lines_of, nobody, entry_of, IsSound, IsPlaced, HasRoomIn, AdmitsIn, enter_all, found_all};

use crate::child::{Child, is_pending, some_pending};
use crate::numbers::{make_room, put_last};
use crate::places::Places;
use ot_model::{Cell, Mode, Use};
use std::alloc::{AllocError, Global};

/// The children for whom a child may have to wait that uses the cell next.
#[derive(Debug, Drop)]
pub(crate) struct Row {
    cell: Cell,
    /// The last child that writes it.
    writer: Option<usize>,
    /// The children that use it since then.
    users: Vec<usize>,
}

/// A use, with the place of its cell's row.
#[derive(Clone, Copy, Debug)]
pub(crate) struct Spot {
    one: Use,
    place: usize,
}

/// The rows, and where that of a cell is.
#[derive(Debug, Drop)]
pub(crate) struct Table {
    places: Places,
    rows: Vec<Row>,
}

impl Row {
    ghost use Rattle.ot_depend.specs.Kept.{Admits, row_waits_for};

    /// A child uses the cell so. There is to be room for it. It takes no memory.
    fn enter(&mut self, child: usize, mode: Mode)
        requires { Admits child self.old.users }
        ensures exact { line_of self.new ≡ enter child mode (line_of self.old) }
        ensures admits { Admits child self.new.users }
    {
        if matches!(mode, Mode::Writes) {
            self.writer = Some(child);
            self.users.clear();
        } else {
            put_last(&mut self.users, child);
        }
    }

    /// Puts the children behind the list for whom one that uses the cell so has to wait.
    fn list(&self, mode: Mode, earlier: &mut Vec<usize>) -> Result<(), AllocError>
        ensures { OnOk result (earlier.new.items ≡ earlier.old.items ++ row_waits_for (entry_in self.now) mode) }
    {
        if let Some(writer) = self.writer {
            earlier.push(writer)?;
        }
        let is_written = matches!(mode, Mode::Writes);
        if is_written {
            earlier.extend_from_slice(&self.users)?;
        }
        Ok(())
    }

    /// Whether the last child that writes the cell has not finished: a reader waits for no other.
    fn has_pending_writer(&self, children: &[Child]) -> bool
        ensures { result ≡ must_wait (kids_of children.now) Reads (entry_in self.now) }
    {
        match self.writer {
            Some(writer) => is_pending(children, writer),
            None => false,
        }
    }

    /// Whether a use of the cell has to wait. The row knows no child before the last that writes the
    /// cell, and needs none: that one depends on each of them, so it is unfinished as long as they are.
    fn must_wait(&self, mode: Mode, children: &[Child]) -> bool
        ensures { result ≡ must_wait (kids_of children.now) mode (entry_in self.now) }
    {
        let writes = matches!(mode, Mode::Writes);
        self.has_pending_writer(children) || (writes && some_pending(children, &self.users))
    }
}

impl Table {
    ghost use Rattle.ot_depend.specs.declared.cells.Spot.{Spot};

    /// No cell is declared. It takes no memory.
    pub(crate) fn new(alloc: Global) -> Table
        ensures sound { IsSound result }
        ensures empty { (cell : Cell) → entry_of result cell ≡ nobody }
    {
        Table {
            places: Places::new(alloc),
            rows: Vec::new(alloc),
        }
    }

    /// The place of a cell's row, which is made where the cell has none.
    fn place(&mut self, alloc: Global, cell: Cell) -> Result<usize, AllocError>
        requires { IsSound self.old }
        ensures sound { IsSound self.new }
        ensures same { (other : Cell) → entry_of self.new other ≡ entry_of self.old other }
        ensures placed { IfOk result (λ place. place_of self.new cell ≡ Some place) }
        ensures kept { (other : Cell) (place : ℕ) → place_of self.old other ≡ Some place → place_of self.new other ≡ Some place }
        ensures rows { (place : ℕ) → place < length self.old.rows.items → slice_get self.new.rows.items place ≡ slice_get self.old.rows.items place }
    {
        if let Some(place) = self.places.of(cell) {
            return Ok(place);
        }
        self.places.make(alloc, cell)?;
        let place = self.rows.len();
        self.rows.push(Row {
            cell,
            writer: None,
            users: Vec::new(alloc),
        })?;
        self.places.set(cell, place);
        Ok(place)
    }

    /// The use with the place of its cell's row, which has room for one more child.
    fn spot(&mut self, alloc: Global, one: Use) -> Result<Spot, AllocError>
        requires { IsSound self.old }
        ensures sound { IsSound self.new }
        ensures same { (cell : Cell) → entry_of self.new cell ≡ entry_of self.old cell }
        ensures itself { IfOk result (λ s. s.one ≡ one) }
        ensures placed { IfOk result (λ s. IsPlaced self.new s) }
        ensures made { IfOk result (λ s. HasRoomIn self.new s) }
        ensures kept { OnOk result ((s : Spot) → IsPlaced self.old s → IsPlaced self.new s × (HasRoomIn self.old s → HasRoomIn self.new s)) }
    {
        let place = self.place(alloc, one.cell)?;
        make_room(&mut self.rows[place].users)?;
        Ok(Spot { one, place })
    }

    /// Lists the uses with the places of their rows, each with room for one more child.
    pub(crate) fn spots(
        &mut self,
        alloc: Global,
        uses: &[Use],
        spots: &mut Vec<Spot>,
    ) -> Result<(), AllocError>
        requires { IsSound self.old }
        ensures sound { IsSound self.new }
        ensures same { (cell : Cell) → entry_of self.new cell ≡ entry_of self.old cell }
        ensures uses { OnOk result (map (λ s. s.one) spots.new.items ≡ uses.now) }
        ensures placed { OnOk result (All (IsPlaced self.new) spots.new.items) }
        ensures made { OnOk result (All (HasRoomIn self.new) spots.new.items) }
    {
        spots.clear();
        for one in uses {
            let spot = self.spot(alloc, *one)?;
            spots.push(spot)?;
        }
        Ok(())
    }

    /// Lists the children for whom a child that has these uses waits by itself, where they have not
    /// finished: of each cell the last one that writes it, and where it is written now, those that
    /// use it since.
    pub(crate) fn earlier(&self, spots: &[Spot], earlier: &mut Vec<usize>) -> Result<(), AllocError>
        requires sound { IsSound self.now }
        requires placed { All (IsPlaced self.now) spots.now }
        ensures { OnOk result (earlier.new.items ≡ found_all (lines_of self.now.rows.items) spots.now) }
    {
        earlier.clear();
        for spot in spots {
            self.rows[spot.place].list(spot.one.mode, earlier)?;
        }
        Ok(())
    }

    /// A child has these uses. There is to be room for it. It takes no memory.
    pub(crate) fn enter(&mut self, child: usize, spots: &[Spot])
        requires sound { IsSound self.old }
        requires placed { All (IsPlaced self.old) spots.now }
        requires room { All (AdmitsIn child self.old) spots.now }
        ensures lines { lines_of self.new.rows.items ≡ enter_all child (lines_of self.old.rows.items) spots.now }
        ensures places { (cell : Cell) → place_of self.new cell ≡ place_of self.old cell }
    {
        for spot in spots {
            self.rows[spot.place].enter(child, spot.one.mode);
        }
    }

    /// Whether a use has to wait.
    fn must_wait(&self, one: Use, children: &[Child]) -> bool
        requires { IsSound self.now }
        ensures { result ≡ must_wait (kids_of children.now) one.mode (entry_of self.now one.cell) }
    {
        match self.places.of(one.cell) {
            Some(place) => self.rows[place].must_wait(one.mode, children),
            None => false,
        }
    }

    /// The place of the first use from `from` on that has to wait, or how many uses there are. It takes
    /// no memory.
    pub(crate) fn count_free(&self, uses: &[Use], from: usize, children: &[Child]) -> usize
        requires { IsSound self.now }
        ensures from { from ≤ result }
        ensures bounded { from ≤ length uses.now → result ≤ length uses.now }
        ensures free { some_must_wait (kids_of children.now) self.now (take from uses.now) ≡ false
            → some_must_wait (kids_of children.now) self.now (take result uses.now) ≡ false }
        ensures held { result < length uses.now → some_must_wait (kids_of children.now) self.now (take (result + 1) uses.now) ≡ true }
        ensures passed { (i : ℕ) (u : Use) → from ≤ i → i < result → slice_get uses.now i ≡ Some u → some_must_wait (kids_of children.now) self.now (u ∷ []) ≡ false }
        ensures stopped { (u : Use) → slice_get uses.now result ≡ Some u → some_must_wait (kids_of children.now) self.now (u ∷ []) ≡ true }
        ensures whole { result < length uses.now → some_must_wait (kids_of children.now) self.now uses.now ≡ true }
    {
        let mut place = from;
        while place < uses.len() {
            if self.must_wait(uses[place], children) {
                return place;
            }
            place += 1;
        }
        place
    }
}
