//! How many cells items of reductions have: sections of arrays may have a length that is met when the code runs (OpenMP API 5.2, section 3.2.5).
use crate::clauses::Joined;
use crate::fault::{Fault, Why};
use crate::maker::{Aim, LONG, Maker};
use crate::value::DEEPEST;
use ot_exec_code::{Form, Operation};
use ot_exec_layout::{Class, Sort, type_of};
use ot_exec_tree::{Expr, Integer};

/// A number of cells: this one, or the one that a slot has.
#[derive(Clone, Copy)]
pub(crate) enum Count {
    Of(u32),
    By(u32),
}

impl<'a> Maker<'a> {
    /// The slot that has this number of cells.
    pub(crate) fn counted(&mut self, count: Count) -> Result<u32, Fault> {
        match count {
            Count::Of(cells) => self.number(u64::from(cells)),
            Count::By(slot) => Ok(slot),
        }
    }

    /// How many cells there are of a type.
    fn cells_of(&self, at: u32, sort: Sort) -> Result<Count, Fault> {
        match self.size_slot(sort) {
            Some(slot) => Ok(Count::By(slot)),
            None => Ok(Count::Of(self.extent(at, sort)?.cells)),
        }
    }

    /// How many cells an item has.
    pub(crate) fn item_cells(&mut self, at: u32, item: &Expr, aim: Aim) -> Result<Count, Fault> {
        let each = self.cells_of(at, aim.sort)?;
        match item {
            Expr::Section(_, _, _, Some(length)) => self.cells_of_length(at, each, length),
            Expr::Section(_, one, Some(start), None) => self.cells_behind(at, each, one, start),
            Expr::Section(_, one, None, None) => self.cells_in_all(at, one),
            _ => Ok(each),
        }
    }

    /// So many elements of so many cells each.
    fn cells_of_length(&mut self, at: u32, each: Count, length: &Expr) -> Result<Count, Fault> {
        let constant = self.layouts.constant(self.unit, length);
        if let (Count::Of(cells), Some(constant)) = (each, constant) {
            return match constant.number.checked_mul(u64::from(cells)) {
                Some(all) => match u32::try_from(all) {
                    Ok(all) => Ok(Count::Of(all)),
                    Err(_) => Err(Fault::Refused(at, Why::Clause)),
                },
                None => Err(Fault::Refused(at, Why::Clause)),
            };
        }
        let count = self.converted(DEEPEST, length, Sort::integer(Integer::Long))?;
        let each = self.counted(each)?;
        let slot = self.operate(Operation::Multiply, LONG, count.slot, each)?;
        Ok(Count::By(slot))
    }

    /// All cells of an array.
    fn cells_in_all(&self, at: u32, one: &Expr) -> Result<Count, Fault> {
        match type_of(&self.layouts, self.unit, DEEPEST, one) {
            Some(sort) => match self.class(sort) {
                Class::Array(_) => self.cells_of(at, sort),
                _ => Err(Fault::Refused(at, Why::Clause)),
            },
            None => Err(Fault::Refused(at, Why::Clause)),
        }
    }

    /// Those of an array from an element on, to its end.
    fn cells_behind(
        &mut self,
        at: u32,
        each: Count,
        one: &Expr,
        start: &Expr,
    ) -> Result<Count, Fault> {
        let all = self.cells_in_all(at, one)?;
        let before = self.cells_of_length(at, each, start)?;
        if let (Count::Of(all), Count::Of(before)) = (all, before) {
            return match all.checked_sub(before) {
                Some(cells) => Ok(Count::Of(cells)),
                None => Err(Fault::Refused(at, Why::Clause)),
            };
        }
        let all = self.counted(all)?;
        let before = self.counted(before)?;
        let slot = self.operate(Operation::Subtract, LONG, all, before)?;
        Ok(Count::By(slot))
    }

    /// The task takes part by each of these cells.
    pub(crate) fn takes_part(&mut self, at: u32, joined: Joined) -> Result<(), Fault> {
        let mark = self.frame.next;
        match joined.cells {
            Count::Of(cells) if cells <= 4 => {
                for cell in 0..cells {
                    let slot = self.moved(joined.slot, cell)?;
                    self.emit(Form::Joins(at, joined.fold, slot))?;
                }
            }
            cells => {
                let count = self.counted(cells)?;
                let (index, start, out) = self.begins_count(at, count)?;
                let slot = self.advance(joined.slot, index, 1)?;
                self.emit(Form::Joins(at, joined.fold, slot))?;
                self.ends_count(index, start, out)?;
            }
        }
        self.frame.next = mark;
        Ok(())
    }
}
