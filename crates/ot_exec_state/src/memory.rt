//! Objects and their cells.
ghost use Rattle.std.specs.Prelude.{◌≡◌, ◌<◌, slice_get, length, IfOk};
ghost use Rattle.ot_exec_state.specs.declared.fault.Reason.TheVariants.{Broken};
ghost use Rattle.ot_exec_state.specs.Results.{Gives, found_or};
ghost use Rattle.ot_exec_state.specs.View.{memory_of};
ghost use Rattle.ot_exec_state.specs.Memory.{count_of, object_of, alive, inside, span_among, whole_object, span_of, span_at, value_taken, kept_value, cells_filled, object_new, object_finished};

use crate::fault::{Halt, Reason};
use crate::limits::Limits;
use crate::value::Value;

/// An object: where its members begin, how many it has, whether it has ended, and the number that names it.
#[derive(Clone, Copy, Debug, PartialEq, Eq)]
pub struct Object {
    pub start: u32,
    pub length: u32,
    pub ended: bool,
    pub name: u32,
}

/// Cells of one object, whose members begin there: from an index up to another.
#[derive(Clone, Copy, Debug, PartialEq, Eq)]
pub struct Span {
    pub object: u32,
    pub start: u32,
    pub index: u32,
    pub end: u32,
}

impl Span {
    /// How many cells.
    pub fn count(self) -> u32
        ensures { result ≡ count_of self }
    {
        self.end.saturating_sub(self.index)
    }
}

/// All objects, and the members of all, in one list.
#[derive(Drop)]
pub struct Memory {
    pub objects: Vec<Object>,
    pub members: Vec<Value>,
}

impl Value {
    /// The object at which it lies.
    #[tactic(auto, unfolding(crate::specs::Memory::object_of))]
    fn object(self) -> Result<u32, Halt>
        ensures { Gives (λ o. o) result (object_of self) }
    {
        match self {
            Value::Pointer(o, _) => Ok(o),
            Value::Within(o, _, _) => Ok(o),
            Value::Number(n) => Err(Halt::For(if n == 0 {
                Reason::Null
            } else {
                Reason::NoPlace
            })),
            Value::Function(_) | Value::Unknown => Err(Halt::For(Reason::NoPlace)),
        }
    }

    /// What is kept at this place of a value that is written.
    pub fn kept(self, value: Value) -> Value
        ensures { result ≡ kept_value self value }
    {
        match self {
            Value::Pointer(_, _) => value,
            Value::Number(_) | Value::Within(_, _, _) | Value::Function(_) | Value::Unknown =>
                Value::Unknown,
        }
    }
}

impl Memory {
    /// An object that hasn't ended.
    #[tactic(auto, unfolding(crate::specs::Memory::alive))]
    fn alive(&self, object: u32) -> Result<Object, Halt>
        ensures told { Gives (λ x. x) result (alive (memory_of self.now) object) }
        ensures there { IfOk result (λ _. object < length self.now.objects.items) }
    {
        match self.objects.get(object as usize) {
            Some(found) => {
                if found.ended {
                    Err(Halt::For(Reason::Ended))
                } else {
                    Ok(*found)
                }
            }
            None => Err(Halt::For(Reason::Broken)),
        }
    }

    /// All cells of the object at which it lies.
    #[tactic(auto, unfolding(crate::specs::Memory::whole_object))]
    fn whole(&self, place: Value) -> Result<Span, Halt>
        ensures { Gives (λ s. s) result (whole_object (memory_of self.now) place) }
    {
        let object = place.object()?;
        let found = self.alive(object)?;
        Ok(Span {
            object,
            start: found.start,
            index: 0,
            end: found.length,
        })
    }

    /// So many cells from there on. Where the index isn't known they are all cells among which it is.
    #[tactic(auto, unfolding(crate::specs::Memory::span_of))]
    pub fn span(&self, place: Value, count: u64) -> Result<Span, Halt>
        ensures { Gives (λ s. s) result (span_of (memory_of self.now) place count) }
    {
        match place {
            Value::Pointer(object, index) => self.inside(object, index, count),
            Value::Within(object, first, cells) => self.among(object, first, cells),
            Value::Number(_) | Value::Function(_) | Value::Unknown => self.whole(place),
        }
    }

    /// So many cells of an object from one on, where it has them, and else all of its cells.
    #[tactic(auto, unfolding(crate::specs::Memory::span_among))]
    fn among(&self, object: u32, first: u64, cells: u32) -> Result<Span, Halt>
        ensures { Gives (λ s. s) result (span_among (memory_of self.now) object first cells) }
    {
        let found = self.alive(object)?;
        let length = u64::from(found.length);
        let cells = u64::from(cells);
        if cells == 0 || first > length || cells > length - first {
            return Ok(Span {
                object,
                start: found.start,
                index: 0,
                end: found.length,
            });
        }
        Ok(Span {
            object,
            start: found.start,
            index: first as u32,
            end: (first + cells) as u32,
        })
    }

    #[tactic(auto, unfolding(crate::specs::Memory::inside))]
    fn inside(&self, object: u32, index: u64, count: u64) -> Result<Span, Halt>
        ensures { Gives (λ s. s) result (inside (memory_of self.now) object index count) }
    {
        let found = self.alive(object)?;
        let length = u64::from(found.length);
        if index > length || count > length - index {
            return Err(Halt::For(Reason::Outside));
        }
        Ok(Span {
            object,
            start: found.start,
            index: index as u32,
            end: (index + count) as u32,
        })
    }

    /// The same of a place that is known.
    #[tactic(auto, unfolding(crate::specs::Memory::span_at))]
    pub fn span_at(&self, place: Value, count: u64) -> Result<Span, Halt>
        ensures { Gives (λ s. s) result (span_at (memory_of self.now) place count) }
    {
        match place {
            Value::Within(_, _, _) => Err(Halt::For(Reason::NoPlace)),
            Value::Number(_) | Value::Pointer(_, _) | Value::Function(_) | Value::Unknown =>
                self.span(place, count),
        }
    }

    /// The value that is read there.
    #[tactic(auto, unfolding(crate::specs::Memory::value_taken))]
    pub fn taken(&self, place: Value, span: Span) -> Result<Value, Halt>
        ensures { Gives (λ v. v) result (value_taken (memory_of self.now) place span) }
    {
        match place {
            Value::Pointer(_, _) => self.member(span.start as usize + span.index as usize),
            Value::Number(_) | Value::Within(_, _, _) | Value::Function(_) | Value::Unknown => Ok(
                Value::Unknown,
            ),
        }
    }

    fn member(&self, at: usize) -> Result<Value, Halt>
        ensures { Gives (λ v. v) result (found_or Broken (slice_get self.now.members.items at)) }
    {
        match self.members.get(at) {
            Some(value) => Ok(*value),
            None => Err(Halt::For(Reason::Broken)),
        }
    }

    /// Each cell of these gets this value.
    #[tactic(auto, unfolding(crate::specs::Memory::cells_filled))]
    pub fn fill(&mut self, span: Span, value: Value) -> Result<(), Halt>
        ensures { Gives (λ _. memory_of self.new) result (cells_filled (memory_of self.old) span value) }
    {
        let first = span.start as usize + span.index as usize;
        let end = span.start as usize + span.end as usize;
        if span.index > span.end || end > self.members.len() {
            return Err(Halt::For(Reason::Broken));
        }
        self.members[first..end].fill(value);
        Ok(())
    }

    /// The number of a new object of so many cells with this value.
    #[tactic(auto, unfolding(crate::specs::Memory::object_new))]
    pub fn begin(
        &mut self,
        limits: Limits,
        count: u64,
        value: Value,
        name: u32,
    ) -> Result<u32, Halt>
        ensures { Gives (λ o. (o, memory_of self.new)) result (object_new limits count value name (memory_of self.old)) }
    {
        let object = self.objects.len();
        let start = self.members.len();
        let most = limits.members as usize;
        if object >= limits.objects as usize || start > most || count as usize > most - start {
            return Err(Halt::For(Reason::TooMuch));
        }
        self.objects.push(Object {
            start: start as u32,
            length: count as u32,
            ended: false,
            name,
        })?;
        self.members.resize(start + count as usize, value)?;
        Ok(object as u32)
    }

    /// The object ends at which this lies: all its cells.
    #[tactic(auto, unfolding(crate::specs::Memory::object_finished))]
    pub fn finish(&mut self, place: Value) -> Result<Span, Halt>
        ensures { Gives (λ s. (s, memory_of self.new)) result (object_finished (memory_of self.old) place) }
    {
        let object = place.object()?;
        let found = self.alive(object)?;
        self.objects[object as usize] = Object {
            ended: true,
            ..found
        };
        Ok(Span {
            object,
            start: found.start,
            index: 0,
            end: found.length,
        })
    }
}
