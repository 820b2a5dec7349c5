//! What functions of the library do.
use crate::fault::{Fault, Why};
use crate::maker::{ACTIVE, ALONE, Aim, COUNT, FINAL, LONG, Maker, NUMBER, Val, WORD, Way};
use crate::names::Known;
use crate::team::{THREADS, Whose};
use ot_exec_code::{Form, Kind, Operation, Width};
use ot_exec_layout::{Base, Class, Extent, Sort};
use ot_exec_tree::{Expr, Integer};

const INT: Kind = Kind {
    width: Width::Bits32,
    signed: true,
};

/// Whether it may be a letter of a string.
fn is_letter(integer: Integer) -> bool {
    matches!(
        integer,
        Integer::Bool | Integer::Char | Integer::UnsignedChar
    )
}

impl<'a> Maker<'a> {
    pub(crate) fn argument(&self, at: u32, base: usize, number: usize) -> Result<Val, Fault> {
        match self.arguments.get(base.saturating_add(number)) {
            Some(value) => Ok(*value),
            None => Err(Fault::Refused(at, Why::Arguments)),
        }
    }

    /// It is told once of each name that it is called as if it touched nothing.
    pub(crate) fn leaves_untouched(&mut self, name: u32) -> Result<(), Fault> {
        if let Some(known) = self.is_untouched.get_mut(name as usize)
            && !*known
        {
            *known = true;
            self.untouched.push(name)?;
        }
        Ok(())
    }

    /// A call of a function of the library.
    pub(crate) fn of_library(
        &mut self,
        at: u32,
        known: Known,
        wanted: Option<Sort>,
        base: usize,
        arguments: &[Expr],
    ) -> Result<Val, Fault> {
        match known {
            Known::Int | Known::Main => self.unknown_of(Sort::INT),
            Known::Long => self.unknown_of(Sort::integer(Integer::Long)),
            Known::Nothing => self.unknown_of(Sort::VOID),
            Known::Real(bytes) => self.unknown_of(Sort {
                stars: 0,
                base: Base::Real(bytes),
            }),
            Known::Pointer => {
                let slot = self.number(0)?;
                Ok(self.value(slot, Sort::ANY_POINTER))
            }
            Known::Allocates
            | Known::AllocatesZeros
            | Known::AllocatesAligned
            | Known::Reallocates => self.allocates(at, known, wanted, base),
            Known::Frees => self.frees(at, base),
            Known::Fills => self.fills_memory(at, base),
            Known::Copies => self.copies(at, base),
            Known::Ends => {
                self.emit(Form::Stop)?;
                self.unknown_of(Sort::VOID)
            }
            Known::Asserts => self.asserts(at, base),
            Known::First => self.argument(at, base, 0),
            Known::Absolute => self.absolute(at, INT, Integer::Int, base),
            Known::AbsoluteLong => self.absolute(at, LONG, Integer::Long, base),
            Known::Writes(first) => self.writes(at, first, None, base),
            Known::Scans(first, number) => self.writes(at, first, Some(number), base),
            Known::Reads => {
                self.reads_texts(at, base, 0, arguments)?;
                self.unknown_of(Sort::INT)
            }
            Known::PutsText => self.puts_text_at(at, base, arguments),
            Known::PutsMost(number) => self.puts_most(at, base, arguments, number as usize),
            Known::PutsBytes => self.puts_bytes(at, base),
            Known::InFinal => self.in_final(at),
            Known::ThreadNumber => self.of_thread(at, false),
            Known::ThreadCount => self.of_thread(at, true),
            Known::ThreadsAtMost => self.threads_at_most(),
            Known::Number(number) => {
                let slot = self.number(u64::from(number))?;
                Ok(self.value(slot, Sort::INT))
            }
            Known::Sorts => self.sorts(at, base),
            Known::Draws => self.draws(at),
            Known::Seeds => self.seeds(at, base),
            Known::WritesLock => {
                let pointer = self.argument(at, base, 0)?;
                self.writes_lock(at, pointer)
            }
            Known::SetsLock => {
                let pointer = self.argument(at, base, 0)?;
                self.sets_lock(at, pointer)
            }
            Known::UnsetsLock => {
                let pointer = self.argument(at, base, 0)?;
                self.unsets_lock(at, pointer)
            }
            Known::TestsLock => {
                let pointer = self.argument(at, base, 0)?;
                self.tests_lock(at, pointer)
            }
            Known::AllocatesTo => self.allocates_to(at, base),
            Known::Other => Err(Fault::Refused(at, Why::Library)),
        }
    }

    /// The room of what a pointer leads to, or of a byte.
    pub(crate) fn leads_to(&self, pointer: Sort) -> Extent {
        let Some(target) = pointer.target(self.unit) else {
            return Extent::scalar(1);
        };
        match self.innermost(target) {
            Some(extent) => {
                if extent.cells == 0 || extent.bytes == 0 {
                    Extent::scalar(1)
                } else {
                    extent
                }
            }
            None => Extent::scalar(1),
        }
    }

    /// How many elements so many bytes are.
    fn elements(&mut self, bytes: u32, extent: Extent) -> Result<u32, Fault> {
        if extent.bytes <= 1 {
            return Ok(bytes);
        }
        let each = self.number(extent.bytes)?;
        self.operate(Operation::Divide, WORD, bytes, each)
    }

    /// How many cells so many bytes are.
    pub(crate) fn cells_in(&mut self, bytes: u32, extent: Extent) -> Result<u32, Fault> {
        let count = self.elements(bytes, extent)?;
        if extent.cells == 1 {
            return Ok(count);
        }
        let each = self.number(u64::from(extent.cells))?;
        self.operate(Operation::Multiply, WORD, count, each)
    }

    fn allocates(
        &mut self,
        at: u32,
        known: Known,
        wanted: Option<Sort>,
        base: usize,
    ) -> Result<Val, Fault> {
        let bytes = match known {
            Known::AllocatesZeros => {
                let count = self.argument(at, base, 0)?;
                let each = self.argument(at, base, 1)?;
                self.operate(Operation::Multiply, WORD, count.slot, each.slot)?
            }
            Known::AllocatesAligned | Known::Reallocates => self.argument(at, base, 1)?.slot,
            _ => self.argument(at, base, 0)?.slot,
        };
        let sort = wanted.unwrap_or(Sort::ANY_POINTER);
        let extent = self.leads_to(sort);
        let count = self.elements(bytes, extent)?;
        let slot = self.fresh()?;
        let name = self.name_at(at);
        let zero = known == Known::AllocatesZeros;
        self.emit(Form::Allocate(slot, name, count, extent.cells, zero))?;
        if known == Known::Reallocates {
            self.frees(at, base)?;
        }
        Ok(self.value(slot, Sort::ANY_POINTER))
    }

    /// `posix_memalign`: what is allocated goes to where the first argument leads.
    fn allocates_to(&mut self, at: u32, base: usize) -> Result<Val, Fault> {
        let pointer = self.argument(at, base, 0)?;
        let bytes = self.argument(at, base, 2)?;
        let aim = self.followed(at, pointer)?;
        let extent = self.leads_to(aim.sort);
        let count = self.elements(bytes.slot, extent)?;
        let slot = self.fresh()?;
        let name = self.name_at(at);
        self.emit(Form::Allocate(slot, name, count, extent.cells, false))?;
        let made = self.value(slot, aim.sort);
        self.store(aim, made)?;
        let done = self.number(0)?;
        Ok(self.value(done, Sort::INT))
    }

    fn frees(&mut self, at: u32, base: usize) -> Result<Val, Fault> {
        let pointer = self.argument(at, base, 0)?;
        let out = self.emit(Form::Branch(at, pointer.slot, 0))?;
        self.emit(Form::End(at, pointer.slot))?;
        self.lands(out)?;
        self.unknown_of(Sort::VOID)
    }

    /// Cells at a pointer, at this site.
    pub(crate) fn at_pointer(&mut self, at: u32, pointer: Val) -> Aim {
        Aim {
            slot: pointer.slot,
            sort: Sort::INT,
            way: if pointer.own { Way::Own } else { Way::Cell },
            site: at,
            lends: false,
            within: pointer.within,
        }
    }

    fn fills_memory(&mut self, at: u32, base: usize) -> Result<Val, Fault> {
        let pointer = self.argument(at, base, 0)?;
        let byte = self.argument(at, base, 1)?;
        let bytes = self.argument(at, base, 2)?;
        self.notes_letters(pointer.sort);
        let extent = self.leads_to(pointer.sort);
        let count = self.cells_in(bytes.slot, extent)?;
        let filled = if extent.bytes == 1 {
            byte.slot
        } else {
            let unknown = self.unknown()?;
            self.operate(Operation::Multiply, WORD, byte.slot, unknown)?
        };
        let aim = self.at_pointer(at, pointer);
        let (index, start, out) = self.begins_count(at, count)?;
        let slot = self.advance(pointer.slot, index, 1)?;
        self.store_scalar(Aim { slot, ..aim }, filled)?;
        self.ends_count(index, start, out)?;
        Ok(pointer)
    }

    fn copies(&mut self, at: u32, base: usize) -> Result<Val, Fault> {
        let to = self.argument(at, base, 0)?;
        let from = self.argument(at, base, 1)?;
        let bytes = self.argument(at, base, 2)?;
        self.notes_letters(to.sort);
        let into = self.leads_to(to.sort);
        let extent = if into.bytes == 1 {
            self.leads_to(from.sort)
        } else {
            into
        };
        let count = self.cells_in(bytes.slot, extent)?;
        let target = self.at_pointer(at, to);
        let source = self.at_pointer(at, from);
        self.copy_many(target, source, count)?;
        Ok(to)
    }

    fn asserts(&mut self, at: u32, base: usize) -> Result<Val, Fault> {
        let value = self.argument(at, base, 0)?;
        let _ = self.test(at, value)?;
        self.unknown_of(Sort::VOID)
    }

    fn absolute(
        &mut self,
        at: u32,
        kind: Kind,
        integer: Integer,
        base: usize,
    ) -> Result<Val, Fault> {
        let value = self.argument(at, base, 0)?;
        let sort = Sort::integer(integer);
        let value = self.convert(at, value, sort)?;
        let zero = self.number(0)?;
        let below = self.operate(Operation::Less, kind, value.slot, zero)?;
        let two = self.number(2)?;
        let twice = self.operate(Operation::Multiply, kind, value.slot, two)?;
        let away = self.operate(Operation::Multiply, kind, below, twice)?;
        let slot = self.operate(Operation::Subtract, kind, value.slot, away)?;
        Ok(self.value(slot, sort))
    }

    /// Where arguments point, from this one on, a cell gets what isn't known.
    fn writes(
        &mut self,
        at: u32,
        first: u32,
        number: Option<u32>,
        base: usize,
    ) -> Result<Val, Fault> {
        let first = base.saturating_add(first as usize);
        let mut count = 0u64;
        for place in first..self.arguments.len() {
            if let Some(pointer) = self.arguments.get(place).copied()
                && pointer.sort.target(self.unit).is_some()
            {
                self.notes_letters(pointer.sort);
                let out = self.emit(Form::Branch(at, pointer.slot, 0))?;
                let written = self.written(pointer.sort, number)?;
                let aim = self.at_pointer(at, pointer);
                self.store_scalar(aim, written)?;
                self.lands(out)?;
                count = count.saturating_add(1);
            }
        }
        if number.is_none() {
            return self.unknown_of(Sort::INT);
        }
        let slot = self.number(count)?;
        Ok(self.value(slot, Sort::INT))
    }

    /// What is written where a pointer leads: this number, if one is read there.
    fn written(&mut self, pointer: Sort, number: Option<u32>) -> Result<u32, Fault> {
        let Some(target) = pointer.target(self.unit) else {
            return self.unknown();
        };
        match (number, self.class(target)) {
            (Some(number), Class::Integer(integer)) if !is_letter(integer) => {
                self.number(u64::from(number))
            }
            _ => self.unknown(),
        }
    }

    fn in_final(&mut self, at: u32) -> Result<Val, Fault> {
        if !self.has_final {
            let slot = self.number(0)?;
            return Ok(self.value(slot, Sort::INT));
        }
        let slot = self.flag(at, FINAL)?;
        Ok(self.value(slot, Sort::INT))
    }

    /// The number of the thread whose text this is, or how many threads its team has.
    fn of_thread(&mut self, at: u32, of_team: bool) -> Result<Val, Fault> {
        let slot = match self.whose {
            Whose::Thread(thread) => self.copy(if of_team { thread.count } else { thread.number })?,
            Whose::Caller if self.has_numbers => {
                self.flag(at, if of_team { COUNT } else { NUMBER })?
            }
            Whose::Caller | Whose::Nobody if of_team => self.threads_now(at)?,
            Whose::Caller | Whose::Nobody => self.unknown()?,
        };
        Ok(self.value(slot, Sort::INT))
    }

    /// How many threads the team has that runs: those with which a team is judged, where there may be several.
    fn threads_now(&mut self, at: u32) -> Result<u32, Fault> {
        self.has_team = true;
        let active = self.flag(at, ACTIVE)?;
        let alone = self.flag(at, ALONE)?;
        let several = self.is_zero(alone)?;
        let several = self.operate(Operation::And, WORD, active, several)?;
        let more = self.number(THREADS - 1)?;
        let more = self.operate(Operation::Multiply, LONG, several, more)?;
        let one = self.number(1)?;
        self.operate(Operation::Add, LONG, one, more)
    }

    /// How many threads a team has at most that begins here.
    fn threads_at_most(&mut self) -> Result<Val, Fault> {
        self.has_team = true;
        let slot = self.number(THREADS)?;
        Ok(self.value(slot, Sort::INT))
    }

    /// What a cell has that says what runs.
    pub(crate) fn flag(&mut self, at: u32, flag: u32) -> Result<u32, Fault> {
        let place = self.fresh()?;
        self.emit(Form::Address(place, self.flags, flag))?;
        let slot = self.fresh()?;
        self.emit(Form::LoadOwn(at, slot, place))?;
        Ok(slot)
    }

    pub(crate) fn set_flag(&mut self, at: u32, flag: u32, slot: u32) -> Result<(), Fault> {
        let place = self.fresh()?;
        self.emit(Form::Address(place, self.flags, flag))?;
        self.emit(Form::StoreOwn(at, place, slot))?;
        Ok(())
    }

    fn sorts(&mut self, at: u32, base: usize) -> Result<Val, Fault> {
        let pointer = self.argument(at, base, 0)?;
        let count = self.argument(at, base, 1)?;
        let each = self.argument(at, base, 2)?;
        let bytes = self.operate(Operation::Multiply, WORD, count.slot, each.slot)?;
        let extent = self.leads_to(pointer.sort);
        let cells = self.cells_in(bytes, extent)?;
        self.emit(Form::ReadRange(at, pointer.slot, cells))?;
        self.emit(Form::WriteRange(at, pointer.slot, cells))?;
        self.unknown_of(Sort::VOID)
    }

    /// The next random number, as the C standard's text makes it (ISO C11, section 7.22.2.2).
    fn draws(&mut self, at: u32) -> Result<Val, Fault> {
        self.is_random = true;
        let place = self.fresh()?;
        self.emit(Form::Address(place, self.seed, 0))?;
        let seed = self.fresh()?;
        self.emit(Form::LoadOwn(at, seed, place))?;
        let by = self.number(1_103_515_245)?;
        let next = self.operate(Operation::Multiply, WORD, seed, by)?;
        let more = self.number(12_345)?;
        let next = self.operate(Operation::Add, WORD, next, more)?;
        self.emit(Form::StoreOwn(at, place, next))?;
        let low = self.number(65_536)?;
        let high = self.operate(Operation::Divide, WORD, next, low)?;
        let many = self.number(32_768)?;
        let slot = self.operate(Operation::Remainder, WORD, high, many)?;
        Ok(self.value(slot, Sort::INT))
    }

    fn seeds(&mut self, at: u32, base: usize) -> Result<Val, Fault> {
        let seed = self.argument(at, base, 0)?;
        let seed = self.convert(at, seed, Sort::integer(Integer::Unsigned))?;
        let place = self.fresh()?;
        self.emit(Form::Address(place, self.seed, 0))?;
        self.emit(Form::StoreOwn(at, place, seed.slot))?;
        self.unknown_of(Sort::VOID)
    }
}
