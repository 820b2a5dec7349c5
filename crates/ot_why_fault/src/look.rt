//! A look at the parts of one statement: their faults, and what they count.
ghost use Rattle.std.specs.Prelude.{◌≡◌, ℕ, unwrap_or, is_some, option_map, find, bytes_eq};
ghost use Rattle.serde_json.specs.Data.{string, array};
ghost use Rattle.serde_json.specs.View.{view, items_view};
ghost use Rattle.ot_model.specs.Programs.{arrays_of};
ghost use Rattle.ot_program.specs.Limits.{size_depth};
ghost use Rattle.ot_program.specs.Meanings.{letters, number_bound, size, op_of, length_of, section, value};
ghost use Rattle.ot_why_fault.specs.Whys.{after, long, is_named, name_whys, variable_whys, size_whys, whys_deep, array_whys, indexed_whys, cell_whys, section_of_whys, section_whys, value_whys, expression_whys};
ghost use Rattle.ot_why_fault.specs.Walk.{told_by, shape_by, variables_by, measure_of};

use crate::why::{First, Wanted, Why};
use ot_model::{ArrayShape, Op};
use ot_program::{MAX_DEPTH, is_name, is_word};
use ot_why_place::{Trail, exact, letters, sign_of};
use serde_json::Value;

/// What a value counts.
#[derive(Clone, Copy, Debug)]
pub(crate) struct Measure {
    pub(crate) depth: u64,
    pub(crate) nodes: u64,
    pub(crate) cells: u64,
}

const ONE: Measure = Measure {
    depth: 1,
    nodes: 1,
    cells: 0,
};

/// Where parts of a text stand: over these arrays, in a program that may have so many task statements, in these loops.
#[derive(Clone, Copy)]
pub(crate) struct Look<'s, 't, 'a> {
    pub(crate) arrays: &'s [ArrayShape],
    pub(crate) tasks: u32,
    pub(crate) trail: &'t Trail<'t, 'a>,
}

/// An array that a text names, and its length, which is 0 where there is none.
#[derive(Clone, Copy, Debug)]
struct Named<'a> {
    name: &'a str,
    len: u32,
}

impl<'a> First<'a> {
    /// A name, of an array or a variable.
    pub(crate) fn name(&mut self, part: &'a Value)
        ensures { told_by self.new ≡ after (told_by self.old) (name_whys (view part.now)) }
    {
        self.unless(is_named(part), Why::Form(part, Wanted::Name));
    }

    /// That an expression is of no greater depth than it may be.
    fn deep(&mut self, part: &'a Value, depth: u64)
        ensures { (is : ℕ) → depth ≡ long is → told_by self.new ≡ after (told_by self.old) (whys_deep (view part.now) is) }
    {
        self.unless(depth <= u64::from(MAX_DEPTH), Why::Deep(part, depth));
    }

    /// That a size is of no greater depth than it may be.
    pub(crate) fn shallow(&mut self, part: &'a Value)
        ensures { told_by self.new ≡ after (told_by self.old) (whys_deep (view part.now) (size_depth (view part.now))) }
    {
        self.deep(part, depth_of_size(part));
    }
}

/// Whether a part is a name.
fn is_named(part: &Value) -> bool
    ensures { result ≡ is_named (view part.now) }
{
    match part {
        Value::String(name) => is_name(name.as_str()),
        _ => false,
    }
}

impl<'a> Look<'_, '_, 'a> {
    /// A variable: its number, or 0.
    fn variable(&self, first: &mut First<'a>, part: &'a Value, name: &'a str) -> u64
        requires { view part.now ≡ string name.now }
        ensures number { result ≡ unwrap_or (number_bound (variables_by self.now) name.now) 0 }
        ensures first { told_by first.new ≡ after (told_by first.old) (variable_whys (variables_by self.now) name.now) }
    {
        let number = self.trail.number(name);
        first.unless(is_name(name), Why::Form(part, Wanted::Name));
        first.unless(number.is_some(), Why::Unbound(name));
        number.unwrap_or(0)
    }

    /// A size: what it is, or 0.
    #[cycle(size)]
    pub(crate) fn size(&self, first: &mut First<'a>, part: &'a Value) -> u64
        ensures number { result ≡ size (variables_by self.now) (view part.now) }
        ensures first { told_by first.new ≡ after (told_by first.old) (size_whys (variables_by self.now) (view part.now)) }
    {
        match part {
            Value::Number(number) => {
                let number = number.as_u64();
                first.unless(number.is_some(), Why::Form(part, Wanted::Size));
                let number = number.unwrap_or(0);
                first.unless(number < 1 << 32, Why::TooGreat(number));
                number
            }
            Value::String(name) => self.variable(first, part, name.as_str()),
            Value::Array(items) => self.size_of_items(first, items, part),
            _ => {
                first.note(Why::Form(part, Wanted::Size));
                0
            }
        }
    }

    #[cycle(size)]
    fn size_of_items(&self, first: &mut First<'a>, items: &'a [Value], part: &'a Value) -> u64
        requires { view part.now ≡ array (items_view items.now) }
        ensures number { result ≡ size (variables_by self.now) (array (items_view items.now)) }
        ensures first { told_by first.new ≡ after (told_by first.old) (size_whys (variables_by self.now) (array (items_view items.now))) }
    {
        if items.len() != 3 {
            first.note(Why::Form(part, Wanted::Size));
            return 0;
        }
        match items {
            [tag, one, two] => {
                let sign = sign_of(tag);
                first.unless(sign.is_some(), Why::Form(tag, Wanted::Sign));
                let one = self.size(first, one);
                let two = self.size(first, two);
                let number = exact(sign, one, two);
                first.unless(
                    number.is_some(),
                    Why::NotExact(sign.unwrap_or(Op::Plus), one, two),
                );
                number.unwrap_or(0)
            }
            _ => unreachable!(),
        }
    }

    /// An array.
    fn array(&self, first: &mut First<'a>, part: &'a Value) -> Named<'a>
        ensures name { result.name.now ≡ letters (view part.now) }
        ensures len { result.len ≡ length_of (shape_by self.now) (view part.now) }
        ensures first { told_by first.new ≡ after (told_by first.old) (array_whys (shape_by self.now) (view part.now)) }
    {
        let name = letters(part);
        let len = len_of(self.arrays, name);
        first.name(part);
        first.unless(len.is_some(), Why::Unknown(name));
        Named {
            name,
            len: len.unwrap_or(0),
        }
    }

    /// The cell of an array.
    fn indexed(&self, first: &mut First<'a>, name: &'a Value, index: &'a Value)
        ensures { told_by first.new ≡ after (told_by first.old) (indexed_whys (shape_by self.now) (variables_by self.now) (view name.now) (view index.now)) }
    {
        let array = self.array(first, name);
        let at = self.size(first, index);
        first.unless(
            at < u64::from(array.len),
            Why::NoCell(array.name, at, array.len),
        );
        first.shallow(index);
    }

    /// `["c", name, size]`
    pub(crate) fn cell(&self, first: &mut First<'a>, part: &'a Value)
        ensures { told_by first.new ≡ after (told_by first.old) (cell_whys (shape_by self.now) (variables_by self.now) (view part.now)) }
    {
        match part {
            Value::Array(items) => self.cell_of_items(first, items, part),
            _ => first.note(Why::Form(part, Wanted::Cell)),
        }
    }

    fn cell_of_items(&self, first: &mut First<'a>, items: &'a [Value], part: &'a Value)
        requires { view part.now ≡ array (items_view items.now) }
        ensures { told_by first.new ≡ after (told_by first.old) (cell_whys (shape_by self.now) (variables_by self.now) (array (items_view items.now))) }
    {
        if items.len() != 3 {
            first.note(Why::Form(part, Wanted::Cell));
            return;
        }
        match items {
            [tag, name, index] => {
                first.unless(is_word(tag, "c"), Why::Form(part, Wanted::Cell));
                self.indexed(first, name, index);
            }
            _ => unreachable!(),
        }
    }

    /// `[name, size, size]`: how many cells.
    pub(crate) fn section(&self, first: &mut First<'a>, part: &'a Value) -> u64
        ensures len { result ≡ (section (shape_by self.now) (variables_by self.now) (view part.now)).len }
        ensures first { told_by first.new ≡ after (told_by first.old) (section_whys (shape_by self.now) (variables_by self.now) (view part.now)) }
    {
        match part {
            Value::Array(items) => self.section_of_items(first, items, part),
            _ => {
                first.note(Why::Form(part, Wanted::Section));
                0
            }
        }
    }

    fn section_of_items(&self, first: &mut First<'a>, items: &'a [Value], part: &'a Value) -> u64
        requires { view part.now ≡ array (items_view items.now) }
        ensures len { result ≡ (section (shape_by self.now) (variables_by self.now) (array (items_view items.now))).len }
        ensures first { told_by first.new ≡ after (told_by first.old) (section_whys (shape_by self.now) (variables_by self.now) (array (items_view items.now))) }
    {
        if items.len() != 3 {
            first.note(Why::Form(part, Wanted::Section));
            return 0;
        }
        match items {
            [name, start, len] => self.section_of(first, name, start, len),
            _ => unreachable!(),
        }
    }

    fn section_of(
        &self,
        first: &mut First<'a>,
        name: &'a Value,
        start: &'a Value,
        len: &'a Value,
    ) -> u64
        ensures len { result ≡ size (variables_by self.now) (view len.now) }
        ensures first { told_by first.new ≡ after (told_by first.old)
            (section_of_whys (shape_by self.now) (variables_by self.now) (view name.now) (view start.now) (view len.now)) }
    {
        let array = self.array(first, name);
        let from = self.size(first, start);
        let count = self.size(first, len);
        let why = Why::NoCells(array.name, from, count, array.len);
        first.unless(from.saturating_add(count) <= u64::from(array.len), why);
        first.unless(count != 0, Why::Empty(array.name, from));
        first.shallow(start);
        first.shallow(len);
        count
    }

    /// A value: what it counts.
    #[cycle(value)]
    fn value(&self, first: &mut First<'a>, part: &'a Value) -> Measure
        ensures measure { result ≡ measure_of (value (shape_by self.now) (variables_by self.now) (view part.now)) }
        ensures first { told_by first.new ≡ after (told_by first.old) (value_whys (shape_by self.now) (variables_by self.now) (view part.now)) }
    {
        match part {
            Value::Number(number) => {
                first.unless(number.as_u64().is_some(), Why::Form(part, Wanted::Number));
                ONE
            }
            Value::String(name) => {
                self.variable(first, part, name.as_str());
                ONE
            }
            Value::Array(items) => self.value_of_items(first, items, part),
            _ => {
                first.note(Why::Form(part, Wanted::Value));
                ONE
            }
        }
    }

    #[cycle(value)]
    fn value_of_items(&self, first: &mut First<'a>, items: &'a [Value], part: &'a Value) -> Measure
        requires { view part.now ≡ array (items_view items.now) }
        ensures measure { result ≡ measure_of (value (shape_by self.now) (variables_by self.now) (array (items_view items.now))) }
        ensures first { told_by first.new ≡ after (told_by first.old) (value_whys (shape_by self.now) (variables_by self.now) (array (items_view items.now))) }
    {
        if items.len() != 3 {
            first.note(Why::Form(part, Wanted::Value));
            return ONE;
        }
        match items {
            [tag, one, two] => {
                if is_word(tag, "c") {
                    self.indexed(first, one, two);
                    return ONE;
                }
                if is_word(tag, "pick") {
                    let cells = self.section(first, one);
                    return self.value(first, two).pick(cells);
                }
                first.unless(is_operation(tag), Why::Form(tag, Wanted::Operation));
                let one = self.value(first, one);
                one.and(self.value(first, two))
            }
            _ => unreachable!(),
        }
    }

    /// A value as a part of a statement.
    pub(crate) fn expression(&self, first: &mut First<'a>, part: &'a Value) -> Measure
        ensures measure { result ≡ measure_of (value (shape_by self.now) (variables_by self.now) (view part.now)) }
        ensures first { told_by first.new ≡ after (told_by first.old) (expression_whys (shape_by self.now) (variables_by self.now) (view part.now)) }
    {
        let measure = self.value(first, part);
        first.deep(part, measure.depth);
        measure
    }
}

impl Measure {
    ghost use Rattle.ot_model.specs.Tree.{E, Apply, PickFrom};
    ghost use Rattle.ot_model.specs.declared.expr.Op.{Op as Operation};
    ghost use Rattle.ot_model.specs.declared.expr.Section.{Section};

    /// Of an operation, the measures of whose values these are.
    fn and(self, other: Measure) -> Measure
        ensures { (op : Operation) (a b : E) → self ≡ measure_of a → other ≡ measure_of b → result ≡ measure_of (Apply op a b) }
    {
        Measure {
            depth: self.depth.max(other.depth).saturating_add(1),
            nodes: self.nodes.saturating_add(other.nodes).saturating_add(1),
            cells: self.cells.saturating_add(other.cells),
        }
    }

    /// Of a pick among so many cells, the measure of whose value this is.
    fn pick(self, cells: u64) -> Measure
        ensures { (among : Section) (e : E) → cells ≡ among.len → self ≡ measure_of e → result ≡ measure_of (PickFrom among e) }
    {
        Measure {
            depth: self.depth.saturating_add(1),
            nodes: self.nodes.saturating_add(1),
            cells: self.cells.saturating_add(cells),
        }
    }
}

/// Whether a word names an operation of values.
fn is_operation(tag: &Value) -> bool
    ensures { result ≡ is_some (op_of (view tag.now)) }
{
    match tag {
        Value::String(text) => Op::of_word(text.as_str()).is_some(),
        _ => false,
    }
}

/// The depth of a size.
#[cycle(depth)]
#[tactic(auto, unfolding(ot_program::specs::Limits::size_depth))]
fn depth_of_size(part: &Value) -> u64
    ensures { result ≡ long (size_depth (view part.now)) }
{
    match part {
        Value::Array(items) => depth_of_items(items),
        _ => 1,
    }
}

#[cycle(depth)]
#[tactic(auto, using(crate::proofs::FormLemmas::no_depth_but_three))]
fn depth_of_items(items: &[Value]) -> u64
    ensures { result ≡ long (size_depth (array (items_view items.now))) }
{
    if items.len() != 3 {
        return 1;
    }
    match items {
        [_, one, two] => {
            let one = depth_of_size(one);
            let two = depth_of_size(two);
            one.max(two).saturating_add(1)
        }
        _ => unreachable!(),
    }
}

/// How many cells the array with this name has.
fn len_of(arrays: &[ArrayShape], name: &str) -> Option<u32>
    ensures { result ≡ option_map (λ a. a.1) (find (λ a. bytes_eq a.0 name.now) (arrays_of arrays.now)) }
{
    for array in arrays {
        if array.name.as_str() == name {
            return Some(array.len);
        }
    }
    None
}
