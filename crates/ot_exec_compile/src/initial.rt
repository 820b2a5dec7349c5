//! Initial values (ISO C11, section 6.7.9).
use crate::fault::{Fault, Why};
use crate::maker::{Aim, Maker, Way, below};
use crate::value::DEEPEST;
use ot_exec_code::Form;
use ot_exec_layout::{Class, Sort, is_uneven, type_of};
use ot_exec_tree::{Designator, Entry, Expr, Initial};

/// Where an initial value goes: so many cells behind a place.
#[derive(Clone, Copy)]
struct Spot {
    aim: Aim,
    start: u32,
    sort: Sort,
}

/// The designators of an entry behind those that are passed.
fn path_of(entry: &Entry, passed: usize) -> &[Designator] {
    match entry.path.as_slice().get(passed..) {
        Some(path) => path,
        None => &[],
    }
}

impl<'a> Maker<'a> {
    /// To this place its initial value.
    #[cycle(value)]
    pub(crate) fn initial(&mut self, depth: u32, aim: Aim, initial: &Initial) -> Result<(), Fault> {
        let depth = below(depth, aim.site)?;
        let spot = Spot {
            aim,
            start: 0,
            sort: aim.sort,
        };
        self.fills_spot(depth, spot, initial)
    }

    /// A compound literal (ISO C11, section 6.5.2.5): a new object each time, of which the end isn't told.
    #[cycle(value)]
    pub(crate) fn literal(
        &mut self,
        depth: u32,
        at: u32,
        variable: u32,
        initial: &Initial,
    ) -> Result<Aim, Fault> {
        let depth = below(depth, at)?;
        self.layouts.complete(self.unit, variable, initial);
        let aim = self.begins_literal(at, variable)?;
        let first = Aim {
            way: Way::Own,
            ..aim
        };
        self.initial(depth, first, initial)?;
        Ok(aim)
    }

    fn begins_literal(&mut self, at: u32, variable: u32) -> Result<Aim, Fault> {
        let sort = self.sort_of(variable);
        let extent = self.extent(at, sort)?;
        let slot = self.fresh()?;
        let name = self.name_at(at);
        self.emit(Form::Begin(slot, extent.cells, name, true))?;
        Ok(Aim {
            slot,
            sort,
            way: Way::Cell,
            site: at,
            lends: false,
            within: None,
        })
    }

    /// One value to a spot.
    #[cycle(value)]
    fn puts(&mut self, depth: u32, spot: Spot, expr: &Expr) -> Result<(), Fault> {
        let depth = below(depth, spot.aim.site)?;
        let mark = self.frame.next;
        let value = self.converted(depth, expr, spot.sort)?;
        let slot = if spot.aim.way == Way::Slot {
            spot.aim.slot
        } else {
            self.moved(spot.aim.slot, spot.start)?
        };
        let aim = Aim {
            slot,
            sort: spot.sort,
            ..spot.aim
        };
        self.store(aim, value)?;
        self.frame.next = mark;
        Ok(())
    }

    /// A string to an array: nothing is known of its characters.
    fn puts_text(&mut self, spot: Spot) -> Result<(), Fault> {
        let mark = self.frame.next;
        let extent = self.extent(spot.aim.site, spot.sort)?;
        let slot = self.moved(spot.aim.slot, spot.start)?;
        let count = self.number(u64::from(extent.cells))?;
        if spot.aim.way == Way::Cell {
            self.emit(Form::WriteRange(spot.aim.site, slot, count))?;
        } else {
            let unknown = self.unknown()?;
            let (index, start, out) = self.begins_count(spot.aim.site, count)?;
            let cell = self.advance(slot, index, 1)?;
            self.store_scalar(
                Aim {
                    slot: cell,
                    ..spot.aim
                },
                unknown,
            )?;
            self.ends_count(index, start, out)?;
        }
        self.frame.next = mark;
        Ok(())
    }

    /// Of a union in which members have bytes in common nothing is known but the member that gets a value.
    fn forgets_union(&mut self, spot: Spot) -> Result<(), Fault> {
        let Some(record) = self.record_of(spot.sort) else {
            return Ok(());
        };
        if !is_uneven(self.unit, record) || spot.aim.way == Way::Slot {
            return Ok(());
        }
        let mark = self.frame.next;
        let extent = self.extent(spot.aim.site, spot.sort)?;
        let slot = self.moved(spot.aim.slot, spot.start)?;
        let count = self.number(u64::from(extent.cells))?;
        self.forgets_cells(spot.aim.site, slot, count)?;
        self.frame.next = mark;
        Ok(())
    }

    fn is_whole(&self, sort: Sort) -> bool {
        matches!(self.class(sort), Class::Array(_) | Class::Record(_))
    }

    /// The record that a type is, by its number.
    fn record_of(&self, sort: Sort) -> Option<u32> {
        match self.class(sort) {
            Class::Record(record) => Some(record),
            _ => None,
        }
    }

    /// Whether a value is of the same record as what lies there.
    fn is_of_record(&self, sort: Sort, value: &Expr) -> bool {
        match type_of(&self.layouts, self.unit, DEEPEST, value) {
            Some(found) => self.record_of(found) == self.record_of(sort),
            None => false,
        }
    }

    /// Whether a value stands for all of what lies there.
    fn is_for_all(&self, sort: Sort, value: &Initial) -> bool {
        match (value, self.class(sort)) {
            (Initial::List(_, _), _) => true,
            (Initial::Value(Expr::Text(_, _)), Class::Array(_)) => true,
            (Initial::Value(expr), Class::Record(_)) => self.is_of_record(sort, expr),
            (Initial::Value(_), Class::Array(_)) => false,
            _ => true,
        }
    }

    /// The element or member of this number.
    fn part(&self, spot: Spot, number: usize) -> Option<Spot> {
        match self.class(spot.sort) {
            Class::Array(element) => {
                let sort = Sort::of(self.unit, element);
                let (Some(all), Some(one)) = (
                    self.layouts.extent(self.unit, spot.sort),
                    self.layouts.extent(self.unit, sort),
                ) else {
                    return None;
                };
                let number = u32::try_from(number).ok()?;
                let start = one.cells.checked_mul(number)?;
                if start >= all.cells {
                    return None;
                }
                Some(Spot {
                    start: spot.start.checked_add(start)?,
                    sort,
                    aim: spot.aim,
                })
            }
            Class::Record(record) => {
                let place = self.layouts.nth(self.unit, record, number)?;
                Some(Spot {
                    start: spot.start.checked_add(place.start)?,
                    sort: place.sort,
                    aim: spot.aim,
                })
            }
            _ => None,
        }
    }

    /// The number of the element or member that is designated.
    fn designated(&mut self, at: u32, sort: Sort, to: &Designator) -> Result<usize, Fault> {
        let found = match (to, self.class(sort)) {
            (Designator::Element(index), Class::Array(_)) => {
                match self.layouts.constant(self.unit, index) {
                    Some(index) => usize::try_from(index.number).ok(),
                    None => None,
                }
            }
            (Designator::Member(name), Class::Record(record)) => {
                self.layouts.position(self.unit, record, *name)
            }
            _ => None,
        };
        match found {
            Some(found) => Ok(found),
            None => Err(Fault::Refused(at, Why::Initial)),
        }
    }

    #[cycle(value)]
    fn fills_spot(&mut self, depth: u32, spot: Spot, initial: &Initial) -> Result<(), Fault> {
        let at = spot.aim.site;
        let depth = below(depth, at)?;
        match initial {
            Initial::Value(Expr::Text(_, _)) if self.is_whole(spot.sort) => self.puts_text(spot),
            Initial::Value(value) => self.puts(depth, spot, value),
            Initial::List(_, entries) => {
                if self.is_whole(spot.sort) {
                    if let [entry] = entries.as_slice()
                        && let Initial::Value(Expr::Text(_, _)) = &entry.value
                        && !matches!(self.class(spot.sort), Class::Record(_))
                    {
                        return self.puts_text(spot);
                    }
                    self.fills(depth, spot, entries.as_slice(), (0, 0), true)?;
                    return Ok(());
                }
                match entries.first() {
                    Some(entry) => self.fills_spot(depth, spot, &entry.value),
                    None => Ok(()),
                }
            }
        }
    }

    /// Entries from this one on fill the parts of what lies there, in turn: the number of the next entry. The first one's designators are passed up to
    /// that number; a later one that has some is for what lies around, unless this is the outermost.
    #[cycle(value)]
    fn fills(
        &mut self,
        depth: u32,
        spot: Spot,
        entries: &[Entry],
        first: (usize, usize),
        is_top: bool,
    ) -> Result<usize, Fault> {
        let (from, passed) = first;
        let at = spot.aim.site;
        let less = below(depth, at)?;
        let mut next = from;
        let mut number = 0usize;
        self.forgets_union(spot)?;
        for _turn in from..entries.len() {
            let Some(entry) = entries.get(next) else {
                return Ok(next);
            };
            let passed = if next == from { passed } else { 0 };
            let path = path_of(entry, passed);
            if let Some(first) = path.first() {
                if next > from && !is_top {
                    return Ok(next);
                }
                number = self.designated(at, spot.sort, first)?;
            }
            let Some(part) = self.part(spot, number) else {
                return Ok(next);
            };
            next = if path.len() > 1 {
                self.fills(less, part, entries, (next, passed.saturating_add(1)), false)?
            } else {
                self.fills_part(less, part, entries, next)?
            };
            number = number.saturating_add(1);
            if self.is_union(spot.sort) {
                return Ok(next);
            }
        }
        Ok(next)
    }

    fn is_union(&self, sort: Sort) -> bool {
        match self.class(sort) {
            Class::Record(record) => match self.unit.records.get(record as usize) {
                Some(record) => record.is_union,
                None => false,
            },
            _ => false,
        }
    }

    /// One part: by the entry, or where that is for a part of it by this and those behind.
    #[cycle(value)]
    fn fills_part(
        &mut self,
        depth: u32,
        spot: Spot,
        entries: &[Entry],
        next: usize,
    ) -> Result<usize, Fault> {
        let depth = below(depth, spot.aim.site)?;
        let Some(entry) = entries.get(next) else {
            return Ok(next);
        };
        if self.is_for_all(spot.sort, &entry.value) {
            self.fills_spot(depth, spot, &entry.value)?;
            return Ok(next.saturating_add(1));
        }
        self.fills(depth, spot, entries, (next, entry.path.len()), false)
    }
}
