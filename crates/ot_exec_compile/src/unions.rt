//! Unions whose members aren't scalars of one size. Each member has cells of its own, and behind all there is a cell for each byte. What touches a
//! member's cell touches its bytes, and what writes it leaves nothing known of other members that have bytes there.
use crate::fault::{Fault, Why};
use crate::maker::{Aim, LONG, Maker, Val, Way};
use ot_exec_code::{Form, Operation};
use ot_exec_layout::{Class, Layouts, Sort, is_uneven};
use ot_exec_tree::{Member, Unit};
use std::alloc::Global;

/// Where a place lies in a union: the slot of where that begins, its record, the cells of the member, and at which cell those of bytes begin.
#[derive(Clone, Copy, Debug, PartialEq, Eq)]
pub(crate) struct Within {
    base: u32,
    record: u32,
    start: u32,
    cells: u32,
    bytes: u32,
}

/// Scalars of one size, one behind the other: the first one's cell and its byte.
#[derive(Clone, Copy)]
struct Run {
    start: u32,
    count: u32,
    byte: u64,
    size: u64,
}

/// How many runs a union has at most, how many structs stand in one of its arrays, and how deep its types nest.
const MOST_RUNS: usize = 16;

const MOST_ELEMENTS: u32 = 64;

const DEEPEST: u32 = 16;

/// What has bytes in common with other cells is touched by its own name alone.
pub(crate) fn stands_apart(at: u32, within: Option<Within>) -> Result<(), Fault> {
    match within {
        Some(_) => Err(Fault::Refused(at, Why::Union)),
        None => Ok(()),
    }
}

impl Run {
    fn end(&self) -> u64 {
        self.byte
            .saturating_add(u64::from(self.count).saturating_mul(self.size))
    }

    fn meets(&self, other: Run) -> bool {
        self.byte < other.end() && other.byte < self.end()
    }

    fn is_in(&self, within: Within) -> bool {
        within.start <= self.start && self.start - within.start < within.cells
    }
}

fn members(unit: &Unit, record: u32) -> &[Member] {
    match unit.records.get(record as usize) {
        Some(record) => match &record.members {
            Some(members) => members.as_slice(),
            None => &[],
        },
        None => &[],
    }
}

/// The next number of bytes at which what is so aligned may begin.
fn aligned(bytes: u64, align: u32) -> u64 {
    let align = u64::from(align).max(1);
    match bytes % align {
        0 => bytes,
        over => bytes.saturating_add(align - over),
    }
}

/// The runs of a union, as they are found.
#[derive(Drop)]
struct Runs<'a> {
    unit: &'a Unit,
    layouts: &'a Layouts,
    found: Vec<Run>,
}

impl<'a> Runs<'a> {
    /// One more run, if there is room for it. None where there isn't.
    fn put(&mut self, run: Run) -> Result<bool, Fault> {
        if let Some(last) = self.found.last_mut()
            && last.size == run.size
            && last.end() == run.byte
            && last.start.saturating_add(last.count) == run.start
        {
            last.count = last.count.saturating_add(run.count);
            return Ok(true);
        }
        if self.found.len() >= MOST_RUNS {
            return Ok(false);
        }
        self.found.push(run)?;
        Ok(true)
    }

    /// The scalars of a type that begins at a cell and at a byte. Whether there was room for all.
    #[cycle(runs)]
    fn of_sort(&mut self, depth: u32, sort: Sort, start: u32, byte: u64) -> Result<bool, Fault> {
        if depth == 0 {
            return Ok(false);
        }
        let Some(extent) = self.layouts.extent(self.unit, sort) else {
            return Ok(false);
        };
        match sort.class(self.unit) {
            Class::Record(record) => self.of_record(depth - 1, record, start, byte),
            Class::Array(element) => {
                self.of_array(
                    depth - 1,
                    Sort::of(self.unit, element),
                    extent.cells,
                    start,
                    byte,
                )
            }
            _ => self.put(Run {
                start,
                count: 1,
                byte,
                size: extent.bytes,
            }),
        }
    }

    #[cycle(runs)]
    fn of_array(
        &mut self,
        depth: u32,
        element: Sort,
        cells: u32,
        start: u32,
        byte: u64,
    ) -> Result<bool, Fault> {
        if depth == 0 {
            return Ok(false);
        }
        if let Class::Array(inner) = element.class(self.unit) {
            return self.of_array(depth - 1, Sort::of(self.unit, inner), cells, start, byte);
        }
        let Some(extent) = self.layouts.extent(self.unit, element) else {
            return Ok(false);
        };
        if extent.cells == 1 {
            return self.put(Run {
                start,
                count: cells,
                byte,
                size: extent.bytes,
            });
        }
        let mut at = start;
        let mut first = byte;
        let count = cells.checked_div(extent.cells).unwrap_or(0);
        if count > MOST_ELEMENTS {
            return Ok(false);
        }
        for _element in 0..count {
            if !self.of_sort(depth - 1, element, at, first)? {
                return Ok(false);
            }
            at = at.saturating_add(extent.cells);
            first = first.saturating_add(extent.bytes);
        }
        Ok(true)
    }

    #[cycle(runs)]
    fn of_record(&mut self, depth: u32, record: u32, start: u32, byte: u64) -> Result<bool, Fault> {
        if depth == 0 {
            return Ok(false);
        }
        let is_union = match self.unit.records.get(record as usize) {
            Some(record) => record.is_union,
            None => return Ok(false),
        };
        let mut next = byte;
        for number in 0..members(self.unit, record).len() {
            let Some(place) = self.layouts.nth(self.unit, record, number) else {
                return Ok(false);
            };
            let Some(extent) = self.layouts.extent(self.unit, place.sort) else {
                return Ok(false);
            };
            let first = if is_union {
                byte
            } else {
                aligned(next, extent.align)
            };
            if !self.of_sort(
                depth - 1,
                place.sort,
                start.saturating_add(place.start),
                first,
            )? {
                return Ok(false);
            }
            next = first.saturating_add(extent.bytes);
        }
        Ok(true)
    }
}

/// The runs of a union; none where they are too many.
fn runs_of(
    alloc: Global,
    unit: &Unit,
    layouts: &Layouts,
    record: u32,
) -> Result<Option<Vec<Run>>, Fault> {
    let mut runs = Runs {
        unit,
        layouts,
        found: Vec::new(alloc),
    };
    if runs.of_record(DEEPEST, record, 0, 0)? {
        Ok(Some(runs.found))
    } else {
        Ok(None)
    }
}

/// Whether a type has such a union.
fn has_union(unit: &Unit, depth: u32, sort: Sort) -> bool {
    if depth == 0 {
        return true;
    }
    match sort.class(unit) {
        Class::Array(element) => has_union(unit, depth - 1, Sort::of(unit, element)),
        Class::Record(record) => {
            if is_uneven(unit, record) {
                return true;
            }
            for member in members(unit, record) {
                if has_union(unit, depth - 1, Sort::of(unit, member.kind)) {
                    return true;
                }
            }
            false
        }
        _ => false,
    }
}

/// Whether two types are the same as far as unions go.
fn is_same(unit: &Unit, one: Sort, other: Sort) -> bool {
    one == other || one.class(unit) == other.class(unit)
}

impl<'a> Maker<'a> {
    /// A pointer that is converted leads to what it led to, where unions lie: to one by another type would reach over to nothing.
    pub(crate) fn leads_alike(&self, at: u32, value: Val, sort: Sort) -> Result<(), Fault> {
        if !self.is_pointer(value.sort) {
            return Ok(());
        }
        stands_apart(at, value.within)?;
        if !self.is_pointer(sort) {
            return Ok(());
        }
        let unit = self.unit;
        match (value.sort.target(unit), sort.target(unit)) {
            (Some(from), Some(to)) => {
                let is_any = from == Sort::VOID || to == Sort::VOID;
                if is_any || is_same(unit, from, to) {
                    return Ok(());
                }
                if has_union(unit, DEEPEST, from) || has_union(unit, DEEPEST, to) {
                    return Err(Fault::Refused(at, Why::Union));
                }
                Ok(())
            }
            _ => Ok(()),
        }
    }

    /// A member of what lies at a place, also of an unnamed struct or union within.
    pub(crate) fn member(&mut self, at: u32, whole: Aim, name: u32) -> Result<Aim, Fault> {
        let mut whole = whole;
        for _level in 0..DEEPEST {
            let Class::Record(record) = self.class(whole.sort) else {
                return Err(Fault::Refused(at, Why::NoRecord));
            };
            let Some(number) = self.member_with(record, name) else {
                return Err(Fault::Refused(at, Why::NoMember));
            };
            let is_named = match members(self.unit, record).get(number) {
                Some(member) => member.name.is_some(),
                None => true,
            };
            whole = self.nth_member(at, whole, record, number)?;
            if is_named {
                return Ok(whole);
            }
        }
        Err(Fault::Refused(at, Why::Nesting))
    }

    /// The place among a record's members of the one that has this name, or has one within that does.
    fn member_with(&self, record: u32, name: u32) -> Option<usize> {
        for (number, member) in members(self.unit, record).iter().enumerate() {
            match member.name {
                Some(here) => {
                    if here == name {
                        return Some(number);
                    }
                }
                None => {
                    if let Class::Record(inner) = self.class(Sort::of(self.unit, member.kind))
                        && self.layouts.member(self.unit, inner, name).is_some()
                    {
                        return Some(number);
                    }
                }
            }
        }
        None
    }

    fn nth_member(
        &mut self,
        at: u32,
        whole: Aim,
        record: u32,
        number: usize,
    ) -> Result<Aim, Fault> {
        let Some(place) = self.layouts.nth(self.unit, record, number) else {
            return Err(Fault::Refused(at, Why::NoMember));
        };
        let within = if whole.within.is_none() && is_uneven(self.unit, record) {
            let extent = self.extent(at, place.sort)?;
            let all = self.extent(at, whole.sort)?;
            let bytes = u32::try_from(all.bytes).unwrap_or(u32::MAX);
            Some(Within {
                base: whole.slot,
                record,
                start: place.start,
                cells: extent.cells,
                bytes: all.cells.saturating_sub(bytes),
            })
        } else {
            whole.within
        };
        let slot = self.moved(whole.slot, place.start)?;
        Ok(Aim {
            slot,
            sort: place.sort,
            within,
            ..whole
        })
    }
}

/// Touches that reach over.
impl<'a> Maker<'a> {
    /// A cell of a member is touched: so are its bytes, and where it is written nothing is known any more of what others have there.
    pub(crate) fn reaches_over(
        &mut self,
        aim: Aim,
        within: Within,
        writes: bool,
    ) -> Result<(), Fault> {
        if aim.way == Way::Slot || aim.way == Way::Own && !writes {
            return Ok(());
        }
        let found = runs_of(self.alloc, self.unit, &self.layouts, within.record)?;
        let Some(runs) = found else {
            return Err(Fault::Refused(aim.site, Why::Union));
        };
        let mark = self.frame.next;
        let way = self.fresh()?;
        self.emit(Form::Distance(way, aim.slot, within.base, 1))?;
        for run in runs.iter() {
            if run.is_in(within) {
                self.reaches_from(aim, within, runs.as_slice(), *run, way, writes)?;
            }
        }
        self.frame.next = mark;
        Ok(())
    }

    /// The same where the cell is one of this run, as many behind the union's first as the slot has.
    fn reaches_from(
        &mut self,
        aim: Aim,
        within: Within,
        runs: &[Run],
        run: Run,
        way: u32,
        writes: bool,
    ) -> Result<(), Fault> {
        let start = self.number(u64::from(run.start))?;
        let number = self.operate(Operation::Subtract, LONG, way, start)?;
        let minus = self.number(u64::MAX)?;
        let is_behind = self.operate(Operation::Less, LONG, minus, number)?;
        let before = self.repeat(aim.site, is_behind)?;
        let count = self.number(u64::from(run.count))?;
        let is_before = self.operate(Operation::Less, LONG, number, count)?;
        let behind = self.repeat(aim.site, is_before)?;
        if aim.way == Way::Cell {
            self.touches_bytes(aim, within, run, number, writes)?;
        }
        for other in runs {
            if writes && other.start != run.start && other.meets(run) {
                let (first, cells) = self.common(run, *other, number)?;
                let more = self.number(u64::from(other.start))?;
                let first = self.operate(Operation::Add, LONG, first, more)?;
                let place = self.advance(within.base, first, 1)?;
                self.forgets_cells(aim.site, place, cells)?;
            }
        }
        self.lands(before)?;
        self.lands(behind)
    }

    /// The bytes of a run's cell of this number are touched.
    fn touches_bytes(
        &mut self,
        aim: Aim,
        within: Within,
        run: Run,
        number: u32,
        writes: bool,
    ) -> Result<(), Fault> {
        let size = self.number(run.size)?;
        let way = self.operate(Operation::Multiply, LONG, number, size)?;
        let start = self.number(run.byte.saturating_add(u64::from(within.bytes)))?;
        let byte = self.operate(Operation::Add, LONG, way, start)?;
        let place = self.advance(within.base, byte, 1)?;
        if writes {
            self.emit(Form::WriteRange(aim.site, place, size))?;
        } else {
            self.emit(Form::ReadRange(aim.site, place, size))?;
        }
        Ok(())
    }

    /// Which cells of another run have bytes in common with the one of this number: the slots of the first one's number, and of how many.
    fn common(&mut self, run: Run, other: Run, number: u32) -> Result<(u32, u32), Fault> {
        let size = self.number(run.size)?;
        let byte = self.operate(Operation::Multiply, LONG, number, size)?;
        let away = self.number(run.byte.wrapping_sub(other.byte))?;
        let begin = self.operate(Operation::Add, LONG, byte, away)?;
        let last = self.number(run.size.saturating_sub(1))?;
        let end = self.operate(Operation::Add, LONG, begin, last)?;
        let each = self.number(other.size.max(1))?;
        let first = self.not_below_zero(begin)?;
        let first = self.operate(Operation::Divide, LONG, first, each)?;
        let end = self.operate(Operation::Add, LONG, end, each)?;
        let end = self.not_below_zero(end)?;
        let behind = self.operate(Operation::Divide, LONG, end, each)?;
        let behind = self.at_most(behind, u64::from(other.count))?;
        let cells = self.operate(Operation::Subtract, LONG, behind, first)?;
        let cells = self.not_below_zero(cells)?;
        let first = self.at_most(first, u64::from(other.count))?;
        Ok((first, cells))
    }

    /// The number, or 0 where it is less.
    fn not_below_zero(&mut self, number: u32) -> Result<u32, Fault> {
        let zero = self.number(0)?;
        let is_more = self.operate(Operation::Less, LONG, zero, number)?;
        self.operate(Operation::Multiply, LONG, number, is_more)
    }

    /// The number, or this one where it is more.
    fn at_most(&mut self, number: u32, most: u64) -> Result<u32, Fault> {
        let most = self.number(most)?;
        let away = self.operate(Operation::Subtract, LONG, number, most)?;
        let more = self.not_below_zero(away)?;
        self.operate(Operation::Subtract, LONG, number, more)
    }

    /// Nothing is known of so many cells any more, which nobody else sees.
    pub(crate) fn forgets_cells(&mut self, at: u32, place: u32, cells: u32) -> Result<(), Fault> {
        let unknown = self.unknown()?;
        let (index, start, out) = self.begins_count(at, cells)?;
        let cell = self.advance(place, index, 1)?;
        self.emit(Form::StoreOwn(at, cell, unknown))?;
        self.ends_count(index, start, out)
    }
}
