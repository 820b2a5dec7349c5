//! The own parts of a statement: the first fault of them, and what they count.
ghost use Rattle.std.specs.Prelude.{◌≡◌, ℕ, ◌++◌, length, is_some, map, flat_map};
ghost use Rattle.serde_json.specs.Data.{array};
ghost use Rattle.serde_json.specs.View.{view, items_view};
ghost use Rattle.ot_program.specs.Copies.{IfText, ForText, TaskText};
ghost use Rattle.ot_program.specs.Limits.{cells_in, own_tally, with_value, tally};
ghost use Rattle.ot_program.specs.Meanings.{items, each, fold_of, section, value, clause, wait_clause};
ghost use Rattle.ot_why_place.specs.Texts.{text_by};
ghost use Rattle.ot_why_fault.specs.Whys.{after, long, is_depend, is_mode, whys_no_list, name_whys, fold_whys, red_whys, clause_whys, wait_clause_whys, section_whys, list_whys, whys_nested, target_whys, group_whys, text_whys, counts_of};
ghost use Rattle.ot_why_fault.specs.Walk.{told_by, shape_by, variables_by, counts_with, measure_of};

use crate::look::{Look, Measure};
use crate::why::{First, Wanted, Why};
use ot_model::Fold;
use ot_program::{MAX_NESTING, Profile, is_word};
use ot_why_place::{Text, size_of};
use serde_json::Value;

/// What a statement counts by itself.
#[derive(Clone, Copy, Debug)]
pub(crate) struct Tally {
    pub(crate) statements: u64,
    pub(crate) tasks: u64,
    pub(crate) turns: u64,
    pub(crate) nodes: u64,
    pub(crate) cells: u64,
}

impl Tally {
    ghost use Rattle.ot_model.specs.Tree.{E};

    pub(crate) const fn none() -> Tally
        ensures { result ≡ counts_of (tally 0 0 0 0 0) }
    {
        Tally {
            statements: 0,
            tasks: 0,
            turns: 0,
            nodes: 0,
            cells: 0,
        }
    }

    /// A statement with these cells of sections.
    const fn statement(cells: u64) -> Tally
        ensures { (are : ℕ) → cells ≡ long are → result ≡ counts_of (tally 1 0 0 0 are) }
    {
        Tally {
            statements: 1,
            cells,
            ..Tally::none()
        }
    }

    /// A program with these cells of shows.
    const fn shows(cells: u64) -> Tally
        ensures { (are : ℕ) → cells ≡ long are → result ≡ counts_of (tally 0 0 0 0 are) }
    {
        Tally {
            cells,
            ..Tally::none()
        }
    }

    /// A turn of a loop.
    const fn turn() -> Tally
        ensures { result ≡ counts_of (tally 0 0 1 0 0) }
    {
        Tally {
            turns: 1,
            ..Tally::none()
        }
    }

    /// A statement with a value.
    fn with_value(measure: Measure) -> Tally
        ensures { (e : E) → measure ≡ measure_of e → result ≡ counts_of (with_value e) }
    {
        Tally {
            statements: 1,
            nodes: measure.nodes,
            cells: measure.cells,
            ..Tally::none()
        }
    }

    pub(crate) fn plus(self, other: Tally) -> Tally
        ensures { result ≡ counts_with self other }
    {
        Tally {
            statements: self.statements.saturating_add(other.statements),
            tasks: self.tasks.saturating_add(other.tasks),
            turns: self.turns.saturating_add(other.turns),
            nodes: self.nodes.saturating_add(other.nodes),
            cells: self.cells.saturating_add(other.cells),
        }
    }
}

impl<'a> First<'a> {
    /// An operation of a fold, a group or a `red`.
    fn fold(&mut self, op: &'a Value)
        ensures { told_by self.new ≡ after (told_by self.old) (fold_whys (view op.now)) }
    {
        self.unless(is_fold(op), Why::Form(op, Wanted::Fold));
    }

    fn list(&mut self, part: &'a Value)
        ensures { told_by self.new ≡ after (told_by self.old) (whys_no_list (view part.now)) }
    {
        self.unless(
            matches!(part, Value::Array(_)),
            Why::Form(part, Wanted::List),
        );
    }

    /// That a statement in `level` bodies may have one.
    fn nested(&mut self, level: u32)
        ensures { told_by self.new ≡ after (told_by self.old) (whys_nested level) }
    {
        self.unless(level < MAX_NESTING, Why::Nested(level));
    }
}

impl<'a> Look<'_, '_, 'a> {
    /// The own parts of a statement that stands in `level` bodies.
    pub(crate) fn own_parts(
        &self,
        first: &mut First<'a>,
        profile: Profile,
        level: u32,
        text: Text<'a>,
    ) -> Tally
        ensures counts { result ≡ counts_of (own_tally (shape_by self.now) (variables_by self.now) (text_by profile text.entry)) }
        ensures first { told_by first.new ≡ after (told_by first.old) (text_whys (shape_by self.now) level (variables_by self.now) (text_by profile text.entry)) }
    {
        match text {
            Text::Set(cell, value) => self.target(first, cell, value),
            Text::Add(cell, value) => self.target(first, cell, value),
            Text::Fold(op, cell, value) => self.folded(first, op, cell, value),
            Text::If(value, one, two) => self.condition(first, level, value, one, two),
            Text::For(variable, from, behind, body) => {
                self.range(first, level, variable, from, behind, body);
                Tally::none()
            }
            Text::Turn => Tally::turn(),
            Text::Task(clauses, body) => self.task(first, profile, level, clauses, body),
            Text::Wait => Tally::statement(0),
            Text::WaitFor(clauses) => Tally::statement(self.wait_clauses(first, clauses)),
            Text::Group(sections, body) => {
                Tally::statement(self.group(first, level, sections, body))
            }
            Text::GroupBy(op, sections, body) => {
                Tally::statement(self.group_by(first, level, op, sections, body))
            }
            Text::Program(shows, body) => Tally::shows(self.group(first, level, shows, body)),
            Text::None => {
                first.note(Why::NoStatement);
                Tally::none()
            }
        }
    }

    fn target(&self, first: &mut First<'a>, cell: &'a Value, part: &'a Value) -> Tally
        ensures counts { result ≡ counts_of (with_value (value (shape_by self.now) (variables_by self.now) (view part.now))) }
        ensures first { told_by first.new ≡ after (told_by first.old) (target_whys (shape_by self.now) (variables_by self.now) (view cell.now) (view part.now)) }
    {
        self.cell(first, cell);
        Tally::with_value(self.expression(first, part))
    }

    /// Of a fold: its operation, and the cell and the value.
    fn folded(
        &self,
        first: &mut First<'a>,
        op: &'a Value,
        cell: &'a Value,
        part: &'a Value,
    ) -> Tally
        ensures counts { result ≡ counts_of (with_value (value (shape_by self.now) (variables_by self.now) (view part.now))) }
        ensures first { told_by first.new ≡ after (told_by first.old)
            (fold_whys (view op.now) ++ target_whys (shape_by self.now) (variables_by self.now) (view cell.now) (view part.now)) }
    {
        first.fold(op);
        self.target(first, cell, part)
    }

    /// Of a conditional statement: the value, and that its bodies are lists.
    fn condition(
        &self,
        first: &mut First<'a>,
        level: u32,
        part: &'a Value,
        one: &'a Value,
        two: &'a Value,
    ) -> Tally
        ensures counts { result ≡ counts_of (with_value (value (shape_by self.now) (variables_by self.now) (view part.now))) }
        ensures first { told_by first.new ≡ after (told_by first.old)
            (text_whys (shape_by self.now) level (variables_by self.now) (IfText (view part.now) (view one.now) (view two.now))) }
    {
        let measure = self.expression(first, part);
        first.list(one);
        first.list(two);
        first.nested(level);
        Tally::with_value(measure)
    }

    /// Of a loop: the variable, the two sizes, and that its body is a list.
    fn range(
        &self,
        first: &mut First<'a>,
        level: u32,
        variable: &'a Value,
        from: &'a Value,
        behind: &'a Value,
        body: &'a Value,
    )
        ensures { told_by first.new ≡ after (told_by first.old)
            (text_whys (shape_by self.now) level (variables_by self.now) (ForText (view variable.now) (view from.now) (view behind.now) (view body.now))) }
    {
        first.name(variable);
        self.size(first, from);
        self.size(first, behind);
        first.list(body);
        first.nested(level);
        first.shallow(from);
        first.shallow(behind);
    }

    fn task(
        &self,
        first: &mut First<'a>,
        profile: Profile,
        level: u32,
        clauses: &'a Value,
        body: &'a Value,
    ) -> Tally
        ensures counts { result ≡ counts_of (own_tally (shape_by self.now) (variables_by self.now) (TaskText profile (view clauses.now) (view body.now))) }
        ensures first { told_by first.new ≡ after (told_by first.old)
            (text_whys (shape_by self.now) level (variables_by self.now) (TaskText profile (view clauses.now) (view body.now))) }
    {
        let cells = self.clauses(first, profile, clauses);
        first.list(body);
        first.nested(level);
        Tally {
            tasks: 1,
            ..Tally::statement(cells)
        }
    }

    /// Of a group, or a program: how many cells its sections have.
    fn group(&self, first: &mut First<'a>, level: u32, sections: &'a Value, body: &'a Value) -> u64
        ensures cells { result ≡ long (cells_in (map (section (shape_by self.now) (variables_by self.now)) (items (view sections.now)))) }
        ensures first { told_by first.new ≡ after (told_by first.old)
            (group_whys (shape_by self.now) level (variables_by self.now) (view sections.now) (view body.now)) }
    {
        let cells = self.sections(first, sections);
        first.list(body);
        first.nested(level);
        cells
    }

    /// Of a group with an operation: how many cells its sections have.
    fn group_by(
        &self,
        first: &mut First<'a>,
        level: u32,
        op: &'a Value,
        sections: &'a Value,
        body: &'a Value,
    ) -> u64
        ensures cells { result ≡ long (cells_in (map (section (shape_by self.now) (variables_by self.now)) (items (view sections.now)))) }
        ensures first { told_by first.new ≡ after (told_by first.old)
            (fold_whys (view op.now) ++ group_whys (shape_by self.now) level (variables_by self.now) (view sections.now) (view body.now)) }
    {
        first.fold(op);
        self.group(first, level, sections, body)
    }

    fn sections(&self, first: &mut First<'a>, sections: &'a Value) -> u64
        ensures cells { result ≡ long (cells_in (map (section (shape_by self.now) (variables_by self.now)) (items (view sections.now)))) }
        ensures first { told_by first.new ≡ after (told_by first.old) (list_whys (section_whys (shape_by self.now) (variables_by self.now)) (view sections.now)) }
    {
        first.list(sections);
        match sections {
            Value::Array(items) => self.each_section(first, items),
            _ => 0,
        }
    }

    fn each_section(&self, first: &mut First<'a>, items: &'a [Value]) -> u64
        ensures cells { result ≡ long (cells_in (map (section (shape_by self.now) (variables_by self.now)) (each (items_view items.now)))) }
        ensures first { told_by first.new ≡ after (told_by first.old) (flat_map (section_whys (shape_by self.now) (variables_by self.now)) (each (items_view items.now))) }
    {
        let mut cells: u64 = 0;
        for item in items {
            cells = cells.saturating_add(self.section(first, item));
        }
        cells
    }

    fn clauses(&self, first: &mut First<'a>, profile: Profile, clauses: &'a Value) -> u64
        ensures cells { result ≡ long (cells_in (map (λ c. c.section) (map (clause (shape_by self.now) profile (variables_by self.now)) (items (view clauses.now))))) }
        ensures first { told_by first.new ≡ after (told_by first.old) (list_whys (clause_whys (shape_by self.now) profile (variables_by self.now)) (view clauses.now)) }
    {
        first.list(clauses);
        match clauses {
            Value::Array(items) => self.each_clause(first, profile, items),
            _ => 0,
        }
    }

    fn each_clause(&self, first: &mut First<'a>, profile: Profile, items: &'a [Value]) -> u64
        ensures cells { result ≡ long (cells_in (map (λ c. c.section) (map (clause (shape_by self.now) profile (variables_by self.now)) (each (items_view items.now))))) }
        ensures first { told_by first.new ≡ after (told_by first.old) (flat_map (clause_whys (shape_by self.now) profile (variables_by self.now)) (each (items_view items.now))) }
    {
        let mut cells: u64 = 0;
        for item in items {
            cells = cells.saturating_add(self.clause(first, profile, item));
        }
        cells
    }

    /// `[word, section]`, `["red", op, section]`
    fn clause(&self, first: &mut First<'a>, profile: Profile, part: &'a Value) -> u64
        ensures len { result ≡ (clause (shape_by self.now) profile (variables_by self.now) (view part.now)).section.len }
        ensures first { told_by first.new ≡ after (told_by first.old) (clause_whys (shape_by self.now) profile (variables_by self.now) (view part.now)) }
    {
        match part {
            Value::Array(items) => self.clause_of_items(first, profile, items, part),
            _ => {
                first.note(Why::Form(part, Wanted::Clause));
                0
            }
        }
    }

    fn clause_of_items(
        &self,
        first: &mut First<'a>,
        profile: Profile,
        items: &'a [Value],
        part: &'a Value,
    ) -> u64
        requires { view part.now ≡ array (items_view items.now) }
        ensures len { result ≡ (clause (shape_by self.now) profile (variables_by self.now) (array (items_view items.now))).section.len }
        ensures first { told_by first.new ≡ after (told_by first.old) (clause_whys (shape_by self.now) profile (variables_by self.now) (array (items_view items.now))) }
    {
        if items.len() == 2 {
            return self.clause_of_two(first, profile, items, part);
        }
        if items.len() == 3 {
            return self.clause_of_three(first, profile, items, part);
        }
        first.note(Why::Form(part, Wanted::Clause));
        0
    }

    fn clause_of_two(
        &self,
        first: &mut First<'a>,
        profile: Profile,
        items: &'a [Value],
        part: &'a Value,
    ) -> u64
        requires part { view part.now ≡ array (items_view items.now) }
        requires two { length items.now ≡ 2 }
        ensures len { result ≡ (clause (shape_by self.now) profile (variables_by self.now) (array (items_view items.now))).section.len }
        ensures first { told_by first.new ≡ after (told_by first.old) (clause_whys (shape_by self.now) profile (variables_by self.now) (array (items_view items.now))) }
    {
        match items {
            [tag, section] => {
                first.unless(is_mode(profile, tag), Why::Form(part, Wanted::Clause));
                self.section(first, section)
            }
            _ => unreachable!(),
        }
    }

    fn clause_of_three(
        &self,
        first: &mut First<'a>,
        profile: Profile,
        items: &'a [Value],
        part: &'a Value,
    ) -> u64
        requires part { view part.now ≡ array (items_view items.now) }
        requires three { length items.now ≡ 3 }
        ensures len { result ≡ (clause (shape_by self.now) profile (variables_by self.now) (array (items_view items.now))).section.len }
        ensures first { told_by first.new ≡ after (told_by first.old) (clause_whys (shape_by self.now) profile (variables_by self.now) (array (items_view items.now))) }
    {
        match items {
            [tag, op, section] => match profile {
                Profile::One => {
                    first.note(Why::Form(part, Wanted::Clause));
                    size_of(section, self.trail)
                }
                Profile::Two => {
                    first.red(part, tag, op);
                    self.section(first, section)
                }
            },
            _ => unreachable!(),
        }
    }

    fn wait_clauses(&self, first: &mut First<'a>, clauses: &'a Value) -> u64
        ensures cells { result ≡ long (cells_in (map (λ c. c.section) (map (wait_clause (shape_by self.now) (variables_by self.now)) (items (view clauses.now))))) }
        ensures first { told_by first.new ≡ after (told_by first.old) (list_whys (wait_clause_whys (shape_by self.now) (variables_by self.now)) (view clauses.now)) }
    {
        first.list(clauses);
        match clauses {
            Value::Array(items) => self.each_wait_clause(first, items),
            _ => 0,
        }
    }

    fn each_wait_clause(&self, first: &mut First<'a>, items: &'a [Value]) -> u64
        ensures cells { result ≡ long (cells_in (map (λ c. c.section) (map (wait_clause (shape_by self.now) (variables_by self.now)) (each (items_view items.now))))) }
        ensures first { told_by first.new ≡ after (told_by first.old) (flat_map (wait_clause_whys (shape_by self.now) (variables_by self.now)) (each (items_view items.now))) }
    {
        let mut cells: u64 = 0;
        for item in items {
            cells = cells.saturating_add(self.wait_clause(first, item));
        }
        cells
    }

    /// `[word, section]` of a wait
    fn wait_clause(&self, first: &mut First<'a>, part: &'a Value) -> u64
        ensures len { result ≡ (wait_clause (shape_by self.now) (variables_by self.now) (view part.now)).section.len }
        ensures first { told_by first.new ≡ after (told_by first.old) (wait_clause_whys (shape_by self.now) (variables_by self.now) (view part.now)) }
    {
        match part {
            Value::Array(items) => self.wait_clause_of_items(first, items, part),
            _ => {
                first.note(Why::Form(part, Wanted::WaitClause));
                0
            }
        }
    }

    fn wait_clause_of_items(
        &self,
        first: &mut First<'a>,
        items: &'a [Value],
        part: &'a Value,
    ) -> u64
        requires { view part.now ≡ array (items_view items.now) }
        ensures len { result ≡ (wait_clause (shape_by self.now) (variables_by self.now) (array (items_view items.now))).section.len }
        ensures first { told_by first.new ≡ after (told_by first.old) (wait_clause_whys (shape_by self.now) (variables_by self.now) (array (items_view items.now))) }
    {
        if items.len() != 2 {
            first.note(Why::Form(part, Wanted::WaitClause));
            return self.cells_of_items(items);
        }
        match items {
            [tag, section] => {
                first.unless(is_depend(tag), Why::Form(part, Wanted::WaitClause));
                self.section(first, section)
            }
            _ => unreachable!(),
        }
    }

    /// How many cells a section counts that stands where a clause was wanted.
    #[tactic(auto, using(crate::proofs::FormLemmas::no_len_but_three))]
    fn cells_of_items(&self, items: &[Value]) -> u64
        ensures { result ≡ (section (shape_by self.now) (variables_by self.now) (array (items_view items.now))).len }
    {
        if items.len() != 3 {
            return 0;
        }
        match items {
            [_, _, len] => size_of(len, self.trail),
            _ => unreachable!(),
        }
    }
}

impl<'a> First<'a> {
    /// The word and the operation of a clause that has one.
    fn red(&mut self, clause: &'a Value, tag: &'a Value, op: &'a Value)
        ensures { told_by self.new ≡ after (told_by self.old) (red_whys (view clause.now) (view tag.now) (view op.now)) }
    {
        if is_word(tag, "red") {
            self.fold(op);
        } else {
            self.note(Why::Form(clause, Wanted::Clause));
        }
    }
}

/// Whether a word is that of a clause without an operation.
fn is_mode(profile: Profile, tag: &Value) -> bool
    ensures { result ≡ is_mode profile (view tag.now) }
{
    is_depend(tag) || matches!(profile, Profile::One) && is_word(tag, "red")
}

/// Whether a word is that of a clause without an operation in both profiles.
fn is_depend(tag: &Value) -> bool
    ensures { result ≡ is_depend (view tag.now) }
{
    is_word(tag, "in") || is_word(tag, "out") || is_word(tag, "inout")
}

/// Whether a word names an operation of folds.
fn is_fold(op: &Value) -> bool
    ensures { result ≡ is_some (fold_of (view op.now)) }
{
    match op {
        Value::String(text) => Fold::of_identifier(text.as_str()).is_some(),
        _ => false,
    }
}
