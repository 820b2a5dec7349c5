//! Layouts of a unit's types, and its constants.
use crate::constant::{Constant, operated, signed};
use crate::extent::Extent;
use crate::sort::{Base, Class, Sort, bytes};
use crate::typing::type_of;
use crate::unions::is_even;
use ot_exec_tree::{Designator, Entry, Enumerator, Expr, Initial, Length, Member, Type, Unit};
use std::alloc::{AllocError, Global};

/// How deep types and constants may nest.
pub(crate) const DEEPEST: u32 = 128;

/// How many members a struct may have.
const MOST_MEMBERS: usize = 1024;

/// What is known of a type.
#[derive(Clone, Copy, Debug, PartialEq, Eq)]
enum State {
    Unseen,
    /// It is being measured.
    Busy,
    Known(Extent),
    /// It isn't complete, or its length isn't constant.
    Open,
}

/// Where a member begins, in cells, and its type.
#[derive(Clone, Copy, Debug, PartialEq, Eq)]
pub struct Place {
    pub start: u32,
    pub sort: Sort,
}

/// The layouts of all types of a unit.
#[derive(Drop)]
pub struct Layouts {
    kinds: Vec<State>,
    /// By record: the place of its first member among the starts.
    firsts: Vec<usize>,
    /// By member: at which cell it begins.
    starts: Vec<u32>,
    enumerators: Vec<Option<Constant>>,
}

pub(crate) fn members(unit: &Unit, record: u32) -> &[Member] {
    match unit.records.get(record as usize) {
        Some(record) => match &record.members {
            Some(members) => members.as_slice(),
            None => &[],
        },
        None => &[],
    }
}

impl Layouts {
    /// The sizes and places of all types of a text; its arrays without a length get that of their initializer.
    /// `AllocError` where memory is wanting.
    pub fn of(alloc: Global, unit: &Unit) -> Result<Layouts, AllocError> {
        let mut made = Layouts::empty(alloc, unit)?;
        made.measure(unit);
        made.complete_all(unit);
        made.measure(unit);
        Ok(made)
    }

    /// Measures all types that aren't complete yet.
    fn measure(&mut self, unit: &Unit) {
        for number in 0..unit.enumerators.len() {
            if let Ok(number) = u32::try_from(number) {
                let _ = self.enumerator(unit, DEEPEST, number);
            }
        }
        for kind in 0..unit.types.len() {
            if let Ok(kind) = u32::try_from(kind) {
                if self.kinds.get(kind as usize) == Some(&State::Open) {
                    self.set(kind, State::Unseen);
                }
                let _ = self.kind(unit, DEEPEST, kind);
            }
        }
    }

    /// Arrays of the file, and static ones, of which the length of others may be made.
    fn complete_all(&mut self, unit: &Unit) {
        for (number, variable) in unit.variables.iter().enumerate() {
            if let (Ok(number), Some(initial)) = (u32::try_from(number), &variable.initial) {
                self.complete(unit, number, initial);
            }
        }
    }

    fn empty(alloc: Global, unit: &Unit) -> Result<Layouts, AllocError> {
        let mut firsts = Vec::new(alloc);
        let mut starts = Vec::new(alloc);
        for record in unit.records.iter() {
            firsts.push(starts.len())?;
            if let Some(members) = &record.members {
                for _member in members.iter() {
                    starts.push(0)?;
                }
            }
        }
        Ok(Layouts {
            kinds: vec![in alloc; State::Unseen; unit.types.len()]?,
            firsts,
            starts,
            enumerators: vec![in alloc; None; unit.enumerators.len()]?,
        })
    }

    fn set(&mut self, kind: u32, state: State) {
        if let Some(place) = self.kinds.get_mut(kind as usize) {
            *place = state;
        }
    }

    /// The room that a type takes, where it is complete and its lengths are constant.
    pub fn extent(&self, unit: &Unit, sort: Sort) -> Option<Extent> {
        if sort.stars > 0 {
            return Some(Extent::scalar(8));
        }
        match sort.base {
            Base::Void => Some(Extent::scalar(1)),
            Base::Integer(integer) => Some(Extent::scalar(bytes(integer))),
            Base::Real(bytes) => Some(Extent::scalar(bytes)),
            Base::Of(kind) => match self.kinds.get(kind as usize) {
                Some(State::Known(extent)) => Some(*extent),
                _ => match sort.class(unit) {
                    Class::Pointer => Some(Extent::scalar(8)),
                    _ => None,
                },
            },
        }
    }

    /// The member of this name, also of an unnamed one within.
    pub fn member(&self, unit: &Unit, record: u32, name: u32) -> Option<Place> {
        self.named(unit, DEEPEST, record, name)
    }

    fn named(&self, unit: &Unit, depth: u32, record: u32, name: u32) -> Option<Place> {
        if depth == 0 {
            return None;
        }
        let mut number = 0usize;
        for member in members(unit, record) {
            let sort = Sort::of(unit, member.kind);
            let start = self.start(record, number);
            number = number.saturating_add(1);
            match member.name {
                Some(here) => {
                    if here == name {
                        return Some(Place { start, sort });
                    }
                }
                None => {
                    if let Class::Record(inner) = sort.class(unit)
                        && let Some(found) = self.named(unit, depth - 1, inner, name)
                    {
                        return Some(Place {
                            start: start.saturating_add(found.start),
                            sort: found.sort,
                        });
                    }
                }
            }
        }
        None
    }

    fn start(&self, record: u32, number: usize) -> u32 {
        let Some(first) = self.firsts.get(record as usize) else {
            return 0;
        };
        self.starts
            .get(first.saturating_add(number))
            .copied()
            .unwrap_or(0)
    }

    /// The member of a record at this place among its members.
    pub fn nth(&self, unit: &Unit, record: u32, number: usize) -> Option<Place> {
        let Some(member) = members(unit, record).get(number) else {
            return None;
        };
        Some(Place {
            start: self.start(record, number),
            sort: Sort::of(unit, member.kind),
        })
    }

    /// The place of the member of this name among a record's members.
    pub fn position(&self, unit: &Unit, record: u32, name: u32) -> Option<usize> {
        members(unit, record)
            .iter()
            .position(|member| member.name == Some(name))
    }

    /// The room of the type of this number.
    #[cycle(measure)]
    fn kind(&mut self, unit: &Unit, depth: u32, kind: u32) -> Option<Extent> {
        if depth == 0 {
            return None;
        }
        match self.kinds.get(kind as usize) {
            Some(State::Known(extent)) => return Some(*extent),
            Some(State::Unseen) => {}
            _ => return None,
        }
        self.set(kind, State::Busy);
        let extent = self.measured(unit, depth - 1, kind);
        self.set(
            kind,
            match extent {
                Some(extent) => State::Known(extent),
                None => State::Open,
            },
        );
        extent
    }

    #[cycle(measure)]
    fn measured(&mut self, unit: &Unit, depth: u32, kind: u32) -> Option<Extent> {
        if depth == 0 {
            return None;
        }
        match unit.types.get(kind as usize) {
            Some(Type::Void) | Some(Type::Function(_, _)) => Some(Extent::scalar(1)),
            Some(Type::Integer(integer)) => Some(Extent::scalar(bytes(*integer))),
            Some(Type::Real(bytes)) => Some(Extent::scalar(*bytes)),
            Some(Type::Pointer(_)) | Some(Type::Opaque) => Some(Extent::scalar(8)),
            Some(Type::Array(element, Length::By(length))) => {
                let Some(length) = self.constant_at(unit, depth - 1, length) else {
                    return None;
                };
                let Some(count) = length.count() else {
                    return None;
                };
                let Some(element) = self.kind(unit, depth - 1, *element) else {
                    return None;
                };
                element.times(count)
            }
            Some(Type::Record(record)) => self.record(unit, depth - 1, *record),
            Some(Type::Array(_, Length::Open)) | None => None,
        }
    }

    #[cycle(measure)]
    fn record(&mut self, unit: &Unit, depth: u32, record: u32) -> Option<Extent> {
        if depth == 0 {
            return None;
        }
        let is_union = match unit.records.get(record as usize) {
            Some(record) => {
                if record.members.is_none() {
                    return None;
                }
                record.is_union
            }
            None => return None,
        };
        let is_even = is_union && is_even(unit, record);
        let first = self.firsts.get(record as usize).copied().unwrap_or(0);
        let members = members(unit, record);
        if members.len() > MOST_MEMBERS {
            return None;
        }
        let mut all = Extent::EMPTY;
        let mut at = first;
        for member in members {
            let Some(extent) = self.kind(unit, depth - 1, member.kind) else {
                return None;
            };
            if let Some(start) = self.starts.get_mut(at) {
                *start = if is_even { 0 } else { all.cells };
            }
            at = at.saturating_add(1);
            let more = if is_even {
                Some(all.over(extent))
            } else if is_union {
                all.beside(extent)
            } else {
                all.followed(extent)
            };
            let Some(more) = more else {
                return None;
            };
            all = more;
        }
        let Some(all) = all.closed() else {
            return None;
        };
        if is_union && !is_even {
            all.with_bytes()
        } else {
            Some(all)
        }
    }

    #[cycle(measure)]
    fn enumerator(&mut self, unit: &Unit, depth: u32, number: u32) -> Option<Constant> {
        if depth == 0 {
            return None;
        }
        if let Some(Some(known)) = self.enumerators.get(number as usize) {
            return Some(*known);
        }
        let Some(Enumerator { value, more }) = unit.enumerators.get(number as usize) else {
            return None;
        };
        let value = match value {
            Some(value) => self.constant_at(unit, depth - 1, value),
            None => Some(Constant::int(false)),
        };
        let Some(value) = value else {
            return None;
        };
        let number64 = value.number.wrapping_add(u64::from(*more));
        let known = Constant {
            number: number64,
            integer: value.integer,
        };
        if let Some(place) = self.enumerators.get_mut(number as usize) {
            *place = Some(known);
        }
        Some(known)
    }

    /// What a constant expression is.
    pub fn constant(&mut self, unit: &Unit, expr: &Expr) -> Option<Constant> {
        self.constant_at(unit, DEEPEST, expr)
    }

    #[cycle(measure)]
    fn constant_at(&mut self, unit: &Unit, depth: u32, expr: &Expr) -> Option<Constant> {
        if depth == 0 {
            return None;
        }
        match expr {
            Expr::Number(_, number, integer) => Some(Constant {
                number: *number,
                integer: *integer,
            }),
            Expr::Enumerator(_, number) => self.enumerator(unit, depth - 1, *number),
            Expr::Unary(_, sign, one) => {
                let Some(one) = self.constant_at(unit, depth - 1, one) else {
                    return None;
                };
                signed(*sign, one)
            }
            Expr::Binary(_, sign, one, other) => {
                let Some(one) = self.constant_at(unit, depth - 1, one) else {
                    return None;
                };
                let Some(other) = self.constant_at(unit, depth - 1, other) else {
                    return None;
                };
                operated(*sign, one, other)
            }
            Expr::Choice(_, test, one, other) => {
                let Some(test) = self.constant_at(unit, depth - 1, test) else {
                    return None;
                };
                if test.number != 0 {
                    self.constant_at(unit, depth - 1, one)
                } else {
                    self.constant_at(unit, depth - 1, other)
                }
            }
            Expr::Cast(_, kind, one) => {
                let Some(one) = self.constant_at(unit, depth - 1, one) else {
                    return None;
                };
                match Sort::of(unit, *kind).class(unit) {
                    Class::Integer(integer) => Some(one.to(integer)),
                    _ => None,
                }
            }
            Expr::SizeOfType(_, kind) => {
                let Some(extent) = self.kind(unit, depth - 1, *kind) else {
                    return None;
                };
                Some(Constant::size(extent.bytes))
            }
            Expr::SizeOf(_, one) => self.size_of(unit, one),
            _ => None,
        }
    }

    /// `sizeof` of an expression, which isn't evaluated.
    pub fn size_of(&self, unit: &Unit, one: &Expr) -> Option<Constant> {
        if let Expr::Text(_, bytes) = one {
            return Some(Constant::size(u64::from(*bytes)));
        }
        let Some(sort) = type_of(self, unit, DEEPEST, one) else {
            return None;
        };
        let Some(extent) = self.extent(unit, sort) else {
            return None;
        };
        Some(Constant::size(extent.bytes))
    }

    /// An array of open length has as many elements as its initial value.
    pub fn complete(&mut self, unit: &Unit, variable: u32, initial: &Initial) {
        let Some(variable) = unit.variables.get(variable as usize) else {
            return;
        };
        let kind = variable.kind;
        let Some(Type::Array(element, Length::Open)) = unit.types.get(kind as usize) else {
            return;
        };
        let Some(extent) = self.extent(unit, Sort::of(unit, *element)) else {
            return;
        };
        let count = self.elements(unit, extent.cells, initial);
        if let Some(all) = extent.times(count) {
            self.set(kind, State::Known(all));
        }
    }

    fn elements(&mut self, unit: &Unit, cells: u32, initial: &Initial) -> u64 {
        match initial {
            Initial::Value(Expr::Text(_, bytes)) => u64::from(*bytes),
            Initial::Value(_) => 1,
            Initial::List(_, entries) => self.listed(unit, cells, entries.as_slice()),
        }
    }

    fn listed(&mut self, unit: &Unit, cells: u32, entries: &[Entry]) -> u64 {
        if cells == 1
            && let Some(bytes) = only_text(entries)
        {
            return u64::from(bytes);
        }
        let mut most = 0u64;
        let mut next = 0u64;
        let mut part = 0u32;
        for entry in entries {
            if let Some(index) = self.designated(unit, entry.path.as_slice()) {
                next = index;
                part = 0;
            }
            most = most.max(next.saturating_add(1));
            part = part.saturating_add(1);
            if part >= cells || !is_bare(&entry.value) {
                next = next.saturating_add(1);
                part = 0;
            }
        }
        most
    }

    /// The element to which an entry goes, where it says so.
    fn designated(&mut self, unit: &Unit, path: &[Designator]) -> Option<u64> {
        match path.first() {
            Some(Designator::Element(index)) => {
                let index = self.constant(unit, index);
                index.map(|index| index.number)
            }
            _ => None,
        }
    }
}

fn is_bare(initial: &Initial) -> bool {
    match initial {
        Initial::Value(_) => true,
        Initial::List(_, _) => false,
    }
}

/// How many bytes the string has that is the only entry.
fn only_text(entries: &[Entry]) -> Option<u32> {
    match entries {
        [entry] => text_of(&entry.value),
        _ => None,
    }
}

fn text_of(initial: &Initial) -> Option<u32> {
    match initial {
        Initial::Value(Expr::Text(_, bytes)) => Some(*bytes),
        _ => None,
    }
}
