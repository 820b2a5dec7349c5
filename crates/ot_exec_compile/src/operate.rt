//! Operations on values, and conversions.
use crate::fault::{Fault, Why};
use crate::maker::{Aim, LONG, Maker, Val, WORD, Way};
use ot_exec_code::{Form, Operation};
use ot_exec_layout::{
    Class, Sort, compares, fits, joined, kind_of, meeting, operation_of, promoted,
};
use ot_exec_tree::{Binary, Integer, Sign};

/// How many cells are copied one by one without a loop.
const MOST_BY_ONE: u32 = 16;

impl<'a> Maker<'a> {
    pub(crate) fn class(&self, sort: Sort) -> Class {
        sort.class(self.unit)
    }

    /// How many cells lie between two neighbours to which a pointer of this type leads, or the slot that has that number.
    pub(crate) fn stride(&self, at: u32, pointer: Sort) -> Result<(u32, Option<u32>), Fault> {
        let Some(target) = pointer.target(self.unit) else {
            return Err(Fault::Refused(at, Why::NoPointer));
        };
        if let Some(extent) = self.layouts.extent(self.unit, target) {
            return Ok((extent.cells, None));
        }
        match self.size_slot(target) {
            Some(slot) => Ok((1, Some(slot))),
            None => Err(Fault::Refused(at, Why::Incomplete)),
        }
    }

    /// A pointer moved on by a number of elements.
    pub(crate) fn stepped(&mut self, at: u32, pointer: Val, count: u32) -> Result<Val, Fault> {
        self.stepped_in(at, pointer, count, 0)
    }

    /// A pointer moved on by an index, where an array of so many cells begins, or 0 where it isn't known how many.
    pub(crate) fn indexed(
        &mut self,
        at: u32,
        pointer: Val,
        index: (Val, Integer),
        among: u32,
    ) -> Result<Val, Fault> {
        let long = Sort::integer(Integer::Long);
        let count = self.between(index.0, index.1, Integer::Long, long)?;
        self.stepped_in(at, pointer, count.slot, among)
    }

    fn stepped_in(&mut self, at: u32, pointer: Val, count: u32, among: u32) -> Result<Val, Fault> {
        let (cells, slot) = self.stride(at, pointer.sort)?;
        let count = match slot {
            Some(slot) => self.operate(Operation::Multiply, LONG, count, slot)?,
            None => count,
        };
        let slot = self.advance_in(pointer.slot, count, cells, among)?;
        Ok(Val {
            slot,
            sort: pointer.sort,
            own: pointer.own,
            within: pointer.within,
        })
    }

    /// Converted to a type (ISO C11, section 6.3).
    pub(crate) fn convert(&mut self, at: u32, value: Val, sort: Sort) -> Result<Val, Fault> {
        self.leads_alike(at, value, sort)?;
        match (self.class(value.sort), self.class(sort)) {
            (_, Class::Void) => Ok(self.value(value.slot, Sort::VOID)),
            (Class::Integer(from), Class::Integer(to)) => self.between(value, from, to, sort),
            (Class::Pointer, Class::Integer(Integer::Bool)) => {
                let slot = self.truth(value.slot)?;
                Ok(self.value(slot, sort))
            }
            (Class::Integer(_), Class::Real(_)) => self.unknown_of(sort),
            (Class::Real(_), Class::Integer(_)) | (Class::Real(_), Class::Real(_)) => {
                Ok(self.value(value.slot, sort))
            }
            (Class::Record(_), Class::Record(_))
            | (Class::Pointer, Class::Pointer)
            | (Class::Pointer, Class::Integer(_))
            | (Class::Opaque, Class::Opaque)
            | (Class::Integer(_), Class::Pointer) => Ok(Val { sort, ..value }),
            _ => Err(Fault::Refused(at, Why::Operation)),
        }
    }

    fn between(
        &mut self,
        value: Val,
        from: Integer,
        to: Integer,
        sort: Sort,
    ) -> Result<Val, Fault> {
        let slot = if fits(from, to) {
            value.slot
        } else if to == Integer::Bool {
            self.truth(value.slot)?
        } else {
            let slot = self.fresh()?;
            self.emit(Form::Convert(slot, kind_of(to), value.slot))?;
            slot
        };
        Ok(self.value(slot, sort))
    }

    /// An operation on two values.
    pub(crate) fn operated(
        &mut self,
        at: u32,
        sign: Binary,
        one: Val,
        other: Val,
    ) -> Result<Val, Fault> {
        match (self.class(one.sort), self.class(other.sort)) {
            (Class::Integer(a), Class::Integer(b)) => self.on_integers(
                at,
                sign,
                (one, a),
                (other, b),
            ),
            (Class::Pointer, Class::Pointer)
            | (Class::Pointer, Class::Integer(_))
            | (Class::Integer(_), Class::Pointer)
                if compares(sign) => {
                let slot = self.by(at, sign, one.slot, other.slot)?;
                Ok(self.value(slot, Sort::INT))
            }
            (Class::Pointer, Class::Integer(index)) => self.moved_by(at, sign, one, (other, index)),
            (Class::Integer(index), Class::Pointer) => self.moved_by(at, sign, other, (one, index)),
            (Class::Pointer, Class::Pointer) => self.apart(at, sign, one, other),
            _ => match joined(self.unit, sign, one.sort, other.sort) {
                Some(sort) => self.unknown_of(sort),
                None => Err(Fault::Refused(at, Why::Operation)),
            },
        }
    }

    /// An operation on what two slots have, both as the machine keeps words.
    fn by(&mut self, at: u32, sign: Binary, one: u32, other: u32) -> Result<u32, Fault> {
        let Some((operation, swapped, turned)) = operation_of(sign) else {
            return Err(Fault::Refused(at, Why::Operation));
        };
        let (one, other) = if swapped { (other, one) } else { (one, other) };
        let slot = self.operate(operation, WORD, one, other)?;
        if turned { self.is_zero(slot) } else { Ok(slot) }
    }

    fn on_integers(
        &mut self,
        at: u32,
        sign: Binary,
        one: (Val, Integer),
        other: (Val, Integer),
    ) -> Result<Val, Fault> {
        let Some((operation, swapped, turned)) = operation_of(sign) else {
            return Err(Fault::Refused(at, Why::Operation));
        };
        let integer = meeting(sign, one.1, other.1);
        let sort = Sort::integer(integer);
        let left = self.between(one.0, one.1, integer, sort)?;
        let right = match sign {
            Binary::ShiftLeft | Binary::ShiftRight => other.0,
            _ => self.between(other.0, other.1, integer, sort)?,
        };
        let (left, right) = if swapped {
            (right.slot, left.slot)
        } else {
            (left.slot, right.slot)
        };
        let slot = self.operate(operation, kind_of(integer), left, right)?;
        let slot = if turned { self.is_zero(slot)? } else { slot };
        let sort = if compares(sign) { Sort::INT } else { sort };
        Ok(self.value(slot, sort))
    }

    /// A pointer, and a number added to it or taken away.
    fn moved_by(
        &mut self,
        at: u32,
        sign: Binary,
        pointer: Val,
        index: (Val, Integer),
    ) -> Result<Val, Fault> {
        let long = Sort::integer(Integer::Long);
        let count = self.between(index.0, index.1, Integer::Long, long)?;
        match sign {
            Binary::Add => self.stepped(at, pointer, count.slot),
            Binary::Subtract => {
                let zero = self.number(0)?;
                let back = self.operate(Operation::Subtract, LONG, zero, count.slot)?;
                self.stepped(at, pointer, back)
            }
            _ => Err(Fault::Refused(at, Why::Operation)),
        }
    }

    /// How many elements lie between two pointers.
    fn apart(&mut self, at: u32, sign: Binary, one: Val, other: Val) -> Result<Val, Fault> {
        if sign != Binary::Subtract {
            return Err(Fault::Refused(at, Why::Operation));
        }
        let (cells, by) = self.stride(at, one.sort)?;
        let slot = self.fresh()?;
        self.emit(Form::Distance(slot, one.slot, other.slot, cells))?;
        let slot = match by {
            Some(by) => self.operate(Operation::Divide, LONG, slot, by)?,
            None => slot,
        };
        Ok(self.value(slot, Sort::integer(Integer::Long)))
    }

    /// A sign before a value: `+ - ~ !`.
    pub(crate) fn signed(&mut self, at: u32, sign: Sign, value: Val) -> Result<Val, Fault> {
        match (sign, self.class(value.sort)) {
            (Sign::Not, Class::Integer(_)) | (Sign::Not, Class::Pointer) => {
                let slot = self.is_zero(value.slot)?;
                Ok(self.value(slot, Sort::INT))
            }
            (Sign::Not, Class::Real(_)) => self.unknown_of(Sort::INT),
            (_, Class::Real(_)) => Ok(value),
            (_, Class::Integer(integer)) => {
                let to = promoted(integer);
                let sort = Sort::integer(to);
                let value = self.between(value, integer, to, sort)?;
                self.signed_integer(at, sign, value, to)
            }
            _ => Err(Fault::Refused(at, Why::Operation)),
        }
    }

    fn signed_integer(
        &mut self,
        at: u32,
        sign: Sign,
        value: Val,
        integer: Integer,
    ) -> Result<Val, Fault> {
        let kind = kind_of(integer);
        let slot = match sign {
            Sign::Plus => value.slot,
            Sign::Minus => {
                let zero = self.number(0)?;
                self.operate(Operation::Subtract, kind, zero, value.slot)?
            }
            Sign::Complement => {
                let ones = self.number(kind.narrow(u64::MAX))?;
                self.operate(Operation::Xor, kind, value.slot, ones)?
            }
            _ => return Err(Fault::Refused(at, Why::Operation)),
        };
        Ok(self.value(slot, value.sort))
    }
}

/// Whether each number that memory has is one of this type; of `_Bool` no other number is written there.
fn fills_word(integer: Integer) -> bool {
    matches!(
        integer,
        Integer::Bool | Integer::Long | Integer::UnsignedLong
    )
}

/// Loads and stores.
impl<'a> Maker<'a> {
    /// The value at a place: of an array the pointer to its first element, of a struct the place itself.
    pub(crate) fn load(&mut self, aim: Aim) -> Result<Val, Fault> {
        let own = aim.lends || aim.way == Way::Own;
        match self.class(aim.sort) {
            Class::Array(_) | Class::Function(_) => Ok(Val {
                slot: aim.slot,
                sort: aim.sort.decayed(self.unit),
                own,
                within: aim.within,
            }),
            Class::Record(_) | Class::Opaque => Ok(Val {
                slot: aim.slot,
                sort: aim.sort,
                own,
                within: aim.within,
            }),
            Class::Void => Err(Fault::Refused(aim.site, Why::NoPlace)),
            _ => {
                let slot = self.load_scalar(aim)?;
                let slot = self.of_its_type(aim, slot)?;
                Ok(Val {
                    slot,
                    sort: aim.sort,
                    own: aim.lends,
                    within: None,
                })
            }
        }
    }

    /// What is read from memory is a number of the place's type, though it may have been written as another type of that size.
    fn of_its_type(&mut self, aim: Aim, read: u32) -> Result<u32, Fault> {
        let Class::Integer(integer) = self.class(aim.sort) else {
            return Ok(read);
        };
        if aim.way == Way::Slot || fills_word(integer) {
            return Ok(read);
        }
        let slot = self.fresh()?;
        self.emit(Form::Convert(slot, kind_of(integer), read))?;
        Ok(slot)
    }

    fn load_scalar(&mut self, aim: Aim) -> Result<u32, Fault> {
        if aim.way == Way::Slot {
            return Ok(aim.slot);
        }
        let slot = self.fresh()?;
        match aim.way {
            Way::Thread => self.touches_by_number(aim.site, Form::Load(aim.site, slot, aim.slot))?,
            Way::Cell => self.emit(Form::Load(aim.site, slot, aim.slot))?,
            _ => self.emit(Form::LoadOwn(aim.site, slot, aim.slot))?,
        };
        if let Some(within) = aim.within {
            self.reaches_over(aim, within, false)?;
        }
        Ok(slot)
    }

    /// To a place a value of its type.
    pub(crate) fn store(&mut self, aim: Aim, value: Val) -> Result<(), Fault> {
        if let Class::Record(_) = self.class(aim.sort) {
            // (which may have letters)
            self.writes_letters = true;
            let extent = self.extent(aim.site, aim.sort)?;
            return self.copy_cells(aim, value, extent.cells);
        }
        self.store_scalar(aim, value.slot)
    }

    pub(crate) fn store_scalar(&mut self, aim: Aim, slot: u32) -> Result<(), Fault> {
        if aim.way == Way::Cell && self.is_letter(aim.sort) {
            self.writes_letters = true;
        }
        match aim.way {
            Way::Slot => self.emit(Form::Copy(aim.slot, slot))?,
            Way::Cell => self.emit(Form::Store(aim.site, aim.slot, slot))?,
            Way::Own => self.emit(Form::StoreOwn(aim.site, aim.slot, slot))?,
            Way::Thread => self.touches_by_number(aim.site, Form::Store(aim.site, aim.slot, slot))?,
        };
        match aim.within {
            Some(within) => self.reaches_over(aim, within, true),
            None => Ok(()),
        }
    }

    /// Cells from where a value's place is.
    pub(crate) fn copy_cells(&mut self, to: Aim, from: Val, cells: u32) -> Result<(), Fault> {
        let source = Aim {
            slot: from.slot,
            sort: Sort::INT,
            way: if from.own { Way::Own } else { Way::Cell },
            site: to.site,
            lends: false,
            within: from.within,
        };
        if cells > MOST_BY_ONE {
            let count = self.number(u64::from(cells))?;
            return self.copy_many(to, source, count);
        }
        let mark = self.frame.next;
        for cell in 0..cells {
            let slot = self.moved(source.slot, cell)?;
            let value = self.load_scalar(Aim { slot, ..source })?;
            let slot = self.moved(to.slot, cell)?;
            self.store_scalar(Aim { slot, ..to }, value)?;
            self.frame.next = mark;
        }
        Ok(())
    }

    /// As many cells as the slot has.
    pub(crate) fn copy_many(&mut self, to: Aim, from: Aim, count: u32) -> Result<(), Fault> {
        let (index, start, out) = self.begins_count(to.site, count)?;
        let slot = self.advance(from.slot, index, 1)?;
        let value = self.load_scalar(Aim { slot, ..from })?;
        let slot = self.advance(to.slot, index, 1)?;
        self.store_scalar(Aim { slot, ..to }, value)?;
        self.ends_count(index, start, out)
    }

    /// A loop that counts from 0 up to what the slot has: the slot of its index, where its turns begin, and the jump out of it.
    pub(crate) fn begins_count(&mut self, at: u32, count: u32) -> Result<(u32, u32, u32), Fault> {
        let index = self.number(0)?;
        let start = self.here()?;
        let test = self.operate(Operation::Less, LONG, index, count)?;
        let out = self.repeat(at, test)?;
        Ok((index, start, out))
    }

    pub(crate) fn ends_count(&mut self, index: u32, start: u32, out: u32) -> Result<(), Fault> {
        let one = self.number(1)?;
        self.emit(Form::Operate(index, Operation::Add, LONG, index, one))?;
        self.emit(Form::Jump(start))?;
        self.lands(out)
    }
}
