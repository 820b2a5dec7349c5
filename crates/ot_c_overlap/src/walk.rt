//! A walk through the entries of a text, which notes the items of their `depend` clauses.
ghost use Rattle.std.specs.Prelude.{◌≡◌, ℕ, ◌+◌, ◌-◌, ◌∷◌, OnOk, ◌++◌, map};
ghost use Rattle.serde_json.specs.View.{view, items_view};
ghost use Rattle.ot_program.specs.Copies.{copies, copies_of, copy, turns as each_turn, at, Done, Turn as OneTurn};
ghost use Rattle.ot_program.specs.Programs.{program_copy};
ghost use Rattle.ot_program.specs.declared.profile.Profile.{Profile as Defined};
ghost use Rattle.ot_why_place.specs.Texts.{text_by, first_copies, second_copies};
ghost use Rattle.ot_why_place.specs.Spots.{trail_bindings};
ghost use Rattle.ot_c_overlap.specs.Items.{met_at, met_one, items_met_in, task_of, region_of, item_of, sections_at, sections_in, sections_among, section_as};
ghost use Rattle.ot_c_overlap.specs.View.{met_by, ground_by};

use crate::clause::{depends, is_iterated, section_of, writes};
use crate::item::{Item, note_items};
use crate::names::Names;
use ot_program::Profile;
use ot_why_place::{Text, Trail, Turn, letters, size_of, text_of};
use serde_json::Value;
use std::alloc::AllocError;

/// What was met so far: so many entries, and these items.
#[derive(Debug, Drop)]
pub(crate) struct Met {
    pub(crate) entries: u32,
    pub(crate) items: Vec<Item>,
}

/// A walk through a program over these arrays, and whether `red` is an item there.
#[derive(Clone, Copy)]
pub(crate) struct Walk<'s, 'n> {
    pub(crate) profile: Profile,
    pub(crate) names: &'s Names<'n>,
    pub(crate) reds: bool,
}

/// The turns of a loop.
#[derive(Clone, Copy)]
struct Turns<'a> {
    variable: &'a str,
    first: u64,
    behind: u64,
}

impl Walk<'_, '_> {
    /// A program with these shows and this body.
    pub(crate) fn program<'a>(
        &self,
        shows: &'a Value,
        body: &'a Value,
        met: &mut Met,
    ) -> Result<(), AllocError>
        ensures { OnOk result (met_by met.new
            ≡ met_one (ground_by self.now) 0 (program_copy self.now.profile (view shows.now) (view body.now)) (met_by met.old)) }
    {
        let root = Trail::Root;
        self.enter(&Text::Program(shows, body), &root, 0, met)?;
        self.body(body, &root, 0, met)
    }

    /// A body, in the task of this entry.
    #[cycle(walk)]
    fn body<'a>(
        &self,
        body: &'a Value,
        trail: &Trail<'_, 'a>,
        parent: u32,
        met: &mut Met,
    ) -> Result<(), AllocError>
        ensures { (level : ℕ) → OnOk result (met_by met.new
            ≡ items_met_in (ground_by self.now) parent (copies self.now.profile level (view body.now) (trail_bindings trail.now)) (met_by met.old)) }
    {
        match body {
            Value::Array(items) => self.items(items, &*trail, parent, met),
            _ => self.enter(&Text::None, trail, parent, met),
        }
    }

    #[cycle(walk)]
    fn items<'a>(
        &self,
        items: &'a [Value],
        trail: &Trail<'_, 'a>,
        parent: u32,
        met: &mut Met,
    ) -> Result<(), AllocError>
        ensures { (level : ℕ) → OnOk result (met_by met.new
            ≡ items_met_in (ground_by self.now) parent (copies_of self.now.profile level (items_view items.now) (trail_bindings trail.now)) (met_by met.old)) }
    {
        for item in items {
            self.statement(item, &*trail, parent, met)?;
        }
        Ok(())
    }

    /// A statement with its bodies.
    #[cycle(walk)]
    fn statement<'a>(
        &self,
        statement: &'a Value,
        trail: &Trail<'_, 'a>,
        parent: u32,
        met: &mut Met,
    ) -> Result<(), AllocError>
        ensures { (level : ℕ) → OnOk result (met_by met.new
            ≡ met_one (ground_by self.now) parent (copy self.now.profile level (view statement.now) (trail_bindings trail.now)) (met_by met.old)) }
    {
        let text = text_of(self.profile, statement);
        let task = task_of(parent, met.entries, &text);
        self.enter(&text, trail, parent, met)?;
        self.bodies(text, &*trail, task, met)
    }

    /// The bodies of a statement, in the task of this entry.
    #[cycle(walk)]
    fn bodies<'a>(
        &self,
        text: Text<'a>,
        trail: &Trail<'_, 'a>,
        task: u32,
        met: &mut Met,
    ) -> Result<(), AllocError>
        ensures { (level : ℕ) → OnOk result (met_by met.new
            ≡ items_met_in (ground_by self.now) task (second_copies self.now.profile level (trail_bindings trail.now) (text_by self.now.profile text.entry))
            (items_met_in (ground_by self.now) task (first_copies self.now.profile level (trail_bindings trail.now) (text_by self.now.profile text.entry)) (met_by met.old))) }
    {
        match text {
            Text::If(_, one, two) => {
                self.body(one, &*trail, task, met)?;
                self.body(two, &*trail, task, met)
            }
            Text::For(variable, first, behind, body) => {
                let turns = Turns {
                    variable: letters(variable),
                    first: size_of(first, trail),
                    behind: size_of(behind, trail),
                };
                self.turns(turns, body, &*trail, task, met)
            }
            Text::Task(_, body) => self.body(body, &*trail, task, met),
            Text::Group(_, body) => self.body(body, &*trail, task, met),
            Text::GroupBy(_, _, body) => self.body(body, &*trail, task, met),
            _ => Ok(()),
        }
    }

    #[cycle(walk)]
    fn turns<'a>(
        &self,
        turns: Turns<'a>,
        body: &'a Value,
        trail: &Trail<'_, 'a>,
        parent: u32,
        met: &mut Met,
    ) -> Result<(), AllocError>
        ensures { (level : ℕ) → OnOk result (met_by met.new
            ≡ items_met_in (ground_by self.now) parent (each_turn level (trail_bindings trail.now)
            (λ n. copies self.now.profile (level + 1) (view body.now) ((turns.entry.variable.now, n) ∷ trail_bindings trail.now))
            turns.entry.first (turns.entry.behind - turns.entry.first)) (met_by met.old)) }
    {
        for number in turns.first..turns.behind {
            let turn = Turn {
                name: turns.variable,
                number,
            };
            self.turn(turn, body, &*trail, parent, met)?;
        }
        Ok(())
    }

    #[cycle(walk)]
    fn turn<'a>(
        &self,
        turn: Turn<'a>,
        body: &'a Value,
        trail: &Trail<'_, 'a>,
        parent: u32,
        met: &mut Met,
    ) -> Result<(), AllocError>
        ensures { (level : ℕ) → OnOk result (met_by met.new
            ≡ met_one (ground_by self.now) parent (at level (trail_bindings trail.now) OneTurn
            (copies self.now.profile (level + 1) (view body.now) ((turn.entry.name.now, turn.entry.number) ∷ trail_bindings trail.now)) Done) (met_by met.old)) }
    {
        self.enter(&Text::Turn, trail, parent, met)?;
        let inner = Trail::Turn(turn, &*trail);
        self.body(body, &inner, parent, met)
    }

    /// What stands at a place, without bodies.
    fn enter(
        &self,
        text: &Text<'_>,
        trail: &Trail<'_, '_>,
        parent: u32,
        met: &mut Met,
    ) -> Result<(), AllocError>
        ensures { (defined : Defined) (level : ℕ) → OnOk result (met_by met.new
            ≡ met_at (ground_by self.now) parent (record { level = level; variables = trail_bindings trail.now; text = text_by defined text.now }) (met_by met.old)) }
    {
        let entry = met.entries;
        let Some(next) = entry.checked_add(1) else {
            return Err(AllocError);
        };
        self.note(text, trail, parent, entry, &mut met.items)?;
        met.entries = next;
        Ok(())
    }
}

/// The entry of the task in whose body the bodies of a statement are; for a region, a group of the program's own body, its own.
fn task_of(parent: u32, entry: u32, text: &Text<'_>) -> u32
    ensures { (defined : Defined) → result ≡ task_of parent entry (text_by defined text.now) }
{
    match text {
        Text::Task(_, _) => entry,
        Text::Group(_, _) | Text::GroupBy(_, _, _) => region_of(parent, entry),
        _ => parent,
    }
}

fn region_of(parent: u32, entry: u32) -> u32
    ensures { result ≡ region_of parent entry }
{
    if parent == 0 { entry } else { parent }
}

ghost use Rattle.ot_program.specs.Meanings.{each};

impl Walk<'_, '_> {
    /// The items of a statement's own clauses.
    fn note(
        &self,
        text: &Text<'_>,
        trail: &Trail<'_, '_>,
        parent: u32,
        entry: u32,
        noted: &mut Vec<Item>,
    ) -> Result<(), AllocError>
        ensures { (defined : Defined) → OnOk result (noted.new.items
            ≡ noted.old.items ++ map (item_of parent entry) (sections_at (ground_by self.now) (trail_bindings trail.now) (text_by defined text.now))) }
    {
        match text {
            Text::Task(clauses, _) => self.note_clauses(clauses, trail, parent, entry, noted),
            Text::WaitFor(clauses) => self.note_clauses(clauses, trail, parent, entry, noted),
            _ => Ok(()),
        }
    }

    fn note_clauses(
        &self,
        clauses: &Value,
        trail: &Trail<'_, '_>,
        parent: u32,
        entry: u32,
        noted: &mut Vec<Item>,
    ) -> Result<(), AllocError>
        ensures { OnOk result (noted.new.items
            ≡ noted.old.items ++ map (item_of parent entry) (sections_in (ground_by self.now) (trail_bindings trail.now) (view clauses.now))) }
    {
        match clauses {
            Value::Array(items) => self.note_each(items, trail, parent, entry, noted),
            _ => Ok(()),
        }
    }

    fn note_each(
        &self,
        clauses: &[Value],
        trail: &Trail<'_, '_>,
        parent: u32,
        entry: u32,
        noted: &mut Vec<Item>,
    ) -> Result<(), AllocError>
        ensures { OnOk result (noted.new.items
            ≡ noted.old.items ++ map (item_of parent entry) (sections_among (ground_by self.now) (trail_bindings trail.now) (each (items_view clauses.now)))) }
    {
        for clause in clauses {
            self.note_clause(clause, trail, parent, entry, noted)?;
        }
        Ok(())
    }

    fn note_clause(
        &self,
        clause: &Value,
        trail: &Trail<'_, '_>,
        parent: u32,
        entry: u32,
        noted: &mut Vec<Item>,
    ) -> Result<(), AllocError>
        ensures { OnOk result (noted.new.items
            ≡ noted.old.items ++ map (item_of parent entry) (section_as (ground_by self.now) (trail_bindings trail.now) (view clause.now))) }
    {
        let Some(named) = depends(clause, self.reds) else {
            return Ok(());
        };
        let section = section_of(self.names, named, trail)?;
        let item = Item {
            parent,
            entry,
            writes: writes(clause),
            section,
        };
        note_items(item, is_iterated(named), noted)
    }
}
