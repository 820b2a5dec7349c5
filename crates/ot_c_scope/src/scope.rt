//! What names mean at a place of the text.
ghost use Rattle.std.specs.Prelude.{◌≡◌, ◌==◌, find, is_some, option_map, ◌-◌, length, take, drop, IfOk, [], ◌∷◌, map};
ghost use Rattle.std.specs.List.{list_any};
ghost use Rattle.serde_json.specs.Data.{string};
ghost use Rattle.serde_json.specs.View.{view};
ghost use Rattle.ot_c_scope.specs.Scopes as around;
ghost use Rattle.ot_c_expressions.specs.Tree.{part_of};
ghost use Rattle.ot_c_scope.specs.Scopes.{Around, meaning_of, turn_of, opening_of, portion_of, text_of, extent_of};

use crate::json;
use crate::layers::{self, Frame, Innermost, Layer, innermost_of, layered, opening_in, portion_in};
use indexmap::IndexSet;
use ot_c_expressions::{Operation, Place};
use ot_c_names::own_name;
use ot_c_words::{IntegerType, Name};
use serde_json::Value;
use std::alloc::{AllocError, Global};
use std::marker::Model;

/// A cell that a pointer points to.
#[derive(Clone, Copy, Debug, PartialEq, Eq)]
pub struct Pointee {
    /// Among the names of the text.
    pub array: usize,
    pub place: u64,
}

/// What a name means in the whole file, loops apart.
#[derive(Clone, Copy, Debug, PartialEq, Eq)]
pub enum Meaning {
    Nothing,
    /// A number and its type.
    Constant(u64, IntegerType),
    /// An array of so many cells of a type, or a variable, which is an array of one.
    Cells(IntegerType, Option<usize>),
    /// A pointer to a cell: the number of its array among the names of the text, and its place.
    Pointer(usize, u64),
    /// A function, by its number among those of the file.
    Function(usize),
}

/// A loop around a place.
#[derive(Clone, Copy, Debug, PartialEq, Eq)]
pub struct Turn {
    /// Among the names of the text.
    pub variable: usize,
    pub kind: IntegerType,
    /// Whether the place is in its body, and not in its bounds.
    pub begun: bool,
}

/// Cells over which an open group combines.
#[derive(Clone, Copy, Debug, PartialEq, Eq)]
pub struct Opening {
    /// An array or a pointer, among the names of the text.
    pub array: usize,
    pub operation: Operation,
    /// Whether the task around the place has copies of its own.
    pub own: bool,
    /// The cell, where a pointer names it.
    pub pointee: Option<Pointee>,
}

/// The part of an array over which an open group combines by the array's name.
#[derive(Clone, Copy)]
pub struct Portion<'a> {
    /// Among the names of the text.
    pub array: usize,
    pub place: &'a Place,
    /// How many loops stand around the group.
    pub around: usize,
}

/// What a name means at a place.
#[derive(Clone, Copy, Debug, PartialEq, Eq)]
pub enum Sense {
    Nothing,
    Constant(u64, IntegerType),
    /// A loop's variable, and its type.
    Turn(IntegerType),
    /// The variable of the loop whose bounds these are.
    Begins,
    /// Cells of a type: an array of so many, or a variable.
    Cells(IntegerType, Option<usize>),
    /// Cells over which an open group combines.
    Combined(Opening, IntegerType, Option<usize>),
    /// A pointer to a cell over which no open group combines by it: the number of its array among the names of the
    /// text, and its place.
    Pointer(usize, u64),
    /// A function, by its number among those of the file.
    Function(usize),
}

/// What names mean at a place: in the whole file, in the loops around, the innermost first, and in the open groups,
/// the innermost first.
#[derive(Drop)]
pub struct Scope<'a> {
    names: &'a IndexSet<String>,
    meanings: &'a [Meaning],
    turns: Vec<Turn>,
    /// What open groups combine over.
    layers: Vec<Layer<'a>>,
    /// Whether the place is in a parallel region.
    inside: bool,
}

impl<'a> Model for Scope<'a> {
    ghost use Rattle.std.specs.Coded.{codes};
    ghost use Rattle.ot_c_scope.specs.Codes.{value_code};
    ghost use Rattle.ot_c_scope.specs.Layers.{opened_in, portions_in};
    ghost use Rattle.ot_c_scope.specs.Scopes.{Around};

    ghost Value = { Around };

    ghost coded = { Prim.hlevel (codes, value_code) };

    ghost view = { λ s. record { names = s.names.now.keys; meanings = s.meanings.now; turns = s.turns.items; opened = opened_in s.layers.items; portions = portions_in s.layers.items; inside = s.inside } };
}

impl<'a> Scope<'a> {
    /// Around everything, outside of loops and groups.
    pub fn new(
        alloc: Global,
        names: &'a IndexSet<String>,
        meanings: &'a [Meaning],
        inside: bool,
    ) -> Scope<'a>
        ensures { result ≡ record { names = names.now.keys; meanings = meanings.now; turns = []; opened = []; portions = []; inside = inside } }
    {
        Scope {
            names,
            meanings,
            turns: Vec::new(alloc),
            layers: Vec::new(alloc),
            inside,
        }
    }

    /// Whether the place is in a parallel region.
    pub fn inside(&self) -> bool
        ensures { result ≡ self.now.inside }
    {
        self.inside
    }

    /// Whether the place is in an open group that combines.
    pub fn combines(&self) -> bool
        ensures { result ≡ around.combines self.now.opened }
    {
        layers::combine(&self.layers)
    }

    fn meaning(&self, name: usize) -> Meaning
        ensures { result ≡ meaning_of self.now name }
    {
        match self.meanings.get(name) {
            Some(meaning) => *meaning,
            None => Meaning::Nothing,
        }
    }

    /// The innermost loop of this variable.
    fn turn(&self, name: usize) -> Option<Turn>
        ensures { result ≡ turn_of self.now name }
    {
        turn_among(&self.turns, name)
    }

    /// The innermost group that combines over this array, or by this pointer.
    fn opening(&self, name: usize) -> Option<Opening>
        ensures { result ≡ opening_of self.now name }
    {
        opening_in(&self.layers, name)
    }

    /// The part of this array over which an open group combines.
    pub fn portion(&self, array: Name) -> Option<Portion<'a>>
        ensures { option_map extent_of result ≡ portion_of self.now array }
    {
        match array {
            Name::Known(_) => None,
            Name::Other(number) => portion_in(&self.layers, number),
        }
    }

    /// Whether a loop that stands in the first ones hides one of them: a name may mean another variable then than there.
    pub fn hides(&self, first: usize) -> bool
        ensures { result ≡ around.hides self.now.turns first }
    {
        let turns: &[Turn] = &self.turns;
        let inner = turns.len().saturating_sub(first);
        any_hides(&turns[..inner], &turns[inner..])
    }

    /// What a name among those of the text means.
    fn sense_of(&self, name: usize, meaning: Meaning) -> Sense
        ensures { result ≡ around.sense_by meaning (turn_of self.now name) (opening_of self.now name) }
    {
        let opening = self.opening(name);
        let inner = match meaning {
            Meaning::Constant(number, kind) => return Sense::Constant(number, kind),
            Meaning::Nothing => Sense::Nothing,
            Meaning::Function(index) => Sense::Function(index),
            Meaning::Cells(kind, length) => sense_of_cells(opening, kind, length),
            Meaning::Pointer(array, place) => sense_of_pointer(opening, array, place),
        };
        sense_of_turn(self.turn(name), inner)
    }

    /// What a name means here.
    pub fn sense(&self, name: Name) -> Sense
        ensures { result ≡ around.sense self.now name }
    {
        match name {
            Name::Known(_) => Sense::Nothing,
            Name::Other(number) => self.sense_of(number, self.meaning(number)),
        }
    }

    /// Whether an open group combines, by a pointer, over one of these cells of an array: so many from a place on, or
    /// any.
    pub fn is_pointed(&self, array: Name, cells: Option<(u64, u64)>) -> bool
        ensures { result ≡ around.is_pointed self.now array cells }
    {
        match array {
            Name::Known(_) => false,
            Name::Other(number) => layers::point_into(&self.layers, number, cells),
        }
    }

    /// The text of a name that means nothing by itself.
    pub fn text(&self, number: usize) -> &str
        ensures { result.now ≡ text_of self.now.names number }
    {
        match self.names.get_index(number) {
            Some(text) => text.as_str(),
            None => "",
        }
    }

    /// As JSON, the name that the language has of an array, or of a loop's variable, which no array's name in C hides.
    pub fn named(&self, alloc: Global, name: Name) -> Result<Value, AllocError>
        ensures { IfOk result (λ v. view v ≡ string (around.name_text self.now name)) }
    {
        match name {
            Name::Known(_) => json::text(alloc, ""),
            Name::Other(number) => json::text(alloc, own_name(self.text(number))),
        }
    }

    /// The same place.
    pub fn again(&self, alloc: Global) -> Result<Scope<'a>, AllocError>
        ensures { IfOk result (λ s. s ≡ self.now) }
    {
        Ok(Scope {
            names: self.names,
            meanings: self.meanings,
            turns: copy_of(alloc, &self.turns)?,
            layers: layers::shared(alloc, &self.layers)?,
            inside: self.inside,
        })
    }

    /// The place in a loop, or in its bounds where it isn't begun.
    pub fn with_turn(&self, alloc: Global, turn: Turn) -> Result<Scope<'a>, AllocError>
        ensures { IfOk result (λ s. s ≡ around.with_turn self.now turn) }
    {
        let mut turns = Vec::new(alloc);
        turns.push(turn)?;
        turns.extend_from_slice(&self.turns)?;
        Ok(Scope {
            names: self.names,
            meanings: self.meanings,
            turns,
            layers: layers::shared(alloc, &self.layers)?,
            inside: self.inside,
        })
    }

    /// The place in a group that combines over an array, or in a task that takes part in it.
    pub fn with_opening(self, alloc: Global, opening: Opening) -> Result<Scope<'a>, AllocError>
        ensures { IfOk result (λ s. s ≡ around.with_opening self.entry opening) }
    {
        let Innermost { frame, around } = innermost_of(alloc, self.layers)?;
        let frame = Frame {
            openings: frame.openings.with(opening)?,
            portions: frame.portions,
        };
        Ok(Scope {
            names: self.names,
            meanings: self.meanings,
            turns: self.turns,
            layers: layered(alloc, frame, around)?,
            inside: self.inside,
        })
    }

    /// The place in a group that combines over this part of an array.
    pub fn with_portion(
        self,
        alloc: Global,
        array: usize,
        place: &'a Place,
    ) -> Result<Scope<'a>, AllocError>
        ensures { IfOk result (λ s. s ≡ around.with_portion self.entry array (part_of place.now)) }
    {
        let portion = Portion {
            array,
            place,
            around: self.turns.len(),
        };
        let Innermost { frame, around } = innermost_of(alloc, self.layers)?;
        let frame = Frame {
            openings: frame.openings,
            portions: frame.portions.with(portion)?,
        };
        Ok(Scope {
            names: self.names,
            meanings: self.meanings,
            turns: self.turns,
            layers: layered(alloc, frame, around)?,
            inside: self.inside,
        })
    }

    /// The place in a task, before it takes part in a reduction.
    pub fn within_task(&self, alloc: Global) -> Result<Scope<'a>, AllocError>
        ensures { IfOk result (λ s. s ≡ around.within_task self.now) }
    {
        Ok(Scope {
            names: self.names,
            meanings: self.meanings,
            turns: copy_of(alloc, &self.turns)?,
            layers: layers::within_task(alloc, &self.layers)?,
            inside: self.inside,
        })
    }
}

/// The innermost loop of this variable.
fn turn_among(turns: &[Turn], name: usize) -> Option<Turn>
    ensures { result ≡ find (λ t. t.variable == name) turns.now }
{
    for turn in turns {
        if turn.variable == name {
            return Some(*turn);
        }
    }
    None
}

/// Whether one of these loops hides one of those around.
fn any_hides(inner: &[Turn], outer: &[Turn]) -> bool
    ensures { result ≡ list_any (λ t. is_some (find (λ u. u.variable == t.variable) outer.now)) inner.now }
{
    for turn in inner {
        if turn_among(outer, turn.variable).is_some() {
            return true;
        }
    }
    false
}

fn is_among(cells: Option<(u64, u64)>, place: u64) -> bool
    ensures { result ≡ around.is_among cells place }
{
    match cells {
        Some((first, count)) => first <= place && place - first < count,
        None => true,
    }
}

/// Whether it is one of these cells of an array.
pub fn points_into(array: usize, cells: Option<(u64, u64)>, pointee: Option<Pointee>) -> bool
    ensures { result ≡ around.points_into array cells pointee }
{
    match pointee {
        Some(pointee) => pointee.array == array && is_among(cells, pointee.place),
        None => false,
    }
}

fn copy_of<T: Copy>(alloc: Global, items: &[T]) -> Result<Vec<T>, AllocError>
    ensures { IfOk result (λ v. v.items ≡ items.now) }
{
    let mut copy = Vec::new(alloc);
    copy.extend_from_slice(items)?;
    Ok(copy)
}

pub(crate) fn not_own(opening: Opening) -> Opening
    ensures { result ≡ around.not_own opening }
{
    Opening {
        array: opening.array,
        operation: opening.operation,
        own: false,
        pointee: opening.pointee,
    }
}

fn sense_of_turn(turn: Option<Turn>, otherwise: Sense) -> Sense
    ensures { result ≡ around.turn_or turn otherwise }
{
    match turn {
        Some(turn) => {
            if turn.begun {
                Sense::Turn(turn.kind)
            } else {
                Sense::Begins
            }
        }
        None => otherwise,
    }
}

fn sense_of_cells(opening: Option<Opening>, kind: IntegerType, length: Option<usize>) -> Sense
    ensures { result ≡ around.opened_or opening kind length }
{
    match opening {
        Some(opening) => Sense::Combined(opening, kind, length),
        None => Sense::Cells(kind, length),
    }
}

fn sense_of_pointer(opening: Option<Opening>, array: usize, place: u64) -> Sense
    ensures { result ≡ around.pointed_or opening array place }
{
    match opening {
        Some(opening) => Sense::Combined(opening, IntegerType::UnsignedLong, None),
        None => Sense::Pointer(array, place),
    }
}
