//! Sizes that are known only when the code runs.
use crate::fault::{Fault, Why};
use crate::maker::{LONG, Maker, Val};
use crate::value::DEEPEST;
use ot_exec_code::{Form, Operation};
use ot_exec_layout::{Base, Extent, Sort, type_of};
use ot_exec_tree::{Expr, Integer, Length, Type};

impl<'a> Maker<'a> {
    /// The slot that has how many cells a type has whose length isn't constant.
    pub(crate) fn size_slot(&self, sort: Sort) -> Option<u32> {
        if sort.stars > 0 {
            return None;
        }
        match sort.base {
            Base::Of(kind) => self.sizes.get(kind as usize).copied().unwrap_or(None),
            _ => None,
        }
    }

    /// `sizeof`.
    pub(crate) fn size(&mut self, at: u32, expr: &Expr) -> Result<Val, Fault> {
        let sort = Sort::integer(Integer::UnsignedLong);
        if let Some(constant) = self.layouts.constant(self.unit, expr) {
            let slot = self.number(constant.number)?;
            return Ok(self.value(slot, sort));
        }
        let measured = match expr {
            Expr::SizeOfType(_, kind) => Some(Sort::of(self.unit, *kind)),
            Expr::SizeOf(_, one) => type_of(&self.layouts, self.unit, DEEPEST, one),
            _ => None,
        };
        let Some(measured) = measured else {
            return Err(Fault::Refused(at, Why::Incomplete));
        };
        let Some(cells) = self.size_slot(measured) else {
            return Err(Fault::Refused(at, Why::Incomplete));
        };
        let Some(unit) = self.innermost(measured) else {
            return Err(Fault::Refused(at, Why::Incomplete));
        };
        let bytes = self.number(unit.bytes)?;
        let slot = self.operate(Operation::Multiply, LONG, cells, bytes)?;
        let each = self.number(u64::from(unit.cells))?;
        let slot = self.operate(Operation::Divide, LONG, slot, each)?;
        Ok(self.value(slot, sort))
    }

    /// The room of what an array has at last, of which the size is constant.
    pub(crate) fn innermost(&self, sort: Sort) -> Option<Extent> {
        let mut sort = sort;
        for _level in 0..16 {
            if let Some(extent) = self.layouts.extent(self.unit, sort) {
                return Some(extent);
            }
            match sort.target(self.unit) {
                Some(target) => sort = target,
                None => return None,
            }
        }
        None
    }

    /// The sizes in a variable's type get slots, where they aren't constant.
    pub(crate) fn measure(&mut self, depth: u32, at: u32, sort: Sort) -> Result<(), Fault> {
        if depth == 0 {
            return Err(Fault::Refused(at, Why::Nesting));
        }
        if sort.stars > 0 || self.layouts.extent(self.unit, sort).is_some() && !self.leads(sort) {
            return Ok(());
        }
        let Base::Of(kind) = sort.base else {
            return Ok(());
        };
        let unit = self.unit;
        match unit.types.get(kind as usize) {
            Some(Type::Pointer(to)) => self.measure(depth - 1, at, Sort::of(unit, *to)),
            Some(Type::Array(element, Length::By(length))) => {
                let element = Sort::of(unit, *element);
                self.measure(depth - 1, at, element)?;
                self.measure_array(at, kind, element, length)
            }
            _ => Ok(()),
        }
    }

    /// Whether it is a pointer, whose target may have such a size.
    fn leads(&self, sort: Sort) -> bool {
        match sort.base {
            Base::Of(kind) => matches!(self.unit.types.get(kind as usize), Some(Type::Pointer(_))),
            _ => false,
        }
    }

    fn measure_array(
        &mut self,
        at: u32,
        kind: u32,
        element: Sort,
        length: &Expr,
    ) -> Result<(), Fault> {
        let slot = self.fresh()?;
        let mark = self.frame.next;
        let each = match self.layouts.extent(self.unit, element) {
            Some(extent) => self.number(u64::from(extent.cells))?,
            None => match self.size_slot(element) {
                Some(size) => size,
                None => return Err(Fault::Refused(at, Why::Incomplete)),
            },
        };
        let count = self.converted(DEEPEST, length, Sort::integer(Integer::Long))?;
        self.emit(Form::Operate(slot, Operation::Multiply, LONG, count.slot, each))?;
        self.frame.next = mark;
        if let Some(place) = self.sizes.get_mut(kind as usize) {
            *place = Some(slot);
        }
        Ok(())
    }
}
