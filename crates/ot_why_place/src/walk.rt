//! A walk through the statements of a text, in the order in which they are read.
ghost use Rattle.std.specs.Prelude.{◌≡◌, ℕ, ◌+◌, ◌-◌, [], ◌∷◌, ◌++◌, IfOk};
ghost use Rattle.serde_json.specs.View.{view, items_view};
ghost use Rattle.ot_program.specs.Copies.{copies, copies_of, copy, turns as each_turn, at, Done, Turn as OneTurn};
ghost use Rattle.ot_program.specs.Programs.{program_copy};
ghost use Rattle.ot_program.specs.declared.profile.Profile.{Profile as Defined};
ghost use Rattle.ot_why_place.specs.Spots.{spot, spots, in_body, in_turns, path_of, trail_bindings};
ghost use Rattle.ot_why_place.specs.Seeking.{bodies_in, seek, step_by, counts_by};
ghost use Rattle.ot_why_place.specs.Texts.{text_by, first_copies, second_copies};

use crate::size::size_of;
use crate::text::{Text, text_of};
use crate::trail::{Place, Trail, Turn};
use ot_program::Profile;
use serde_json::Value;
use std::alloc::{AllocError, Global};

/// Which of what a walk passes it counts.
#[derive(Clone, Copy, Debug, PartialEq, Eq)]
pub(crate) enum Which {
    /// All: statements, loops and each of their turns, and what is of no form.
    All,
    /// The statements of the expanded program.
    Statements,
}

/// How far a walk came.
#[derive(Debug, Drop)]
pub(crate) enum Step<'a> {
    /// So many are still to be skipped.
    Skipped(u32),
    /// It is where it was to go.
    Met(Place<'a>),
}

/// A walk to what stands behind so many that count.
#[derive(Clone, Copy)]
pub(crate) struct Walk {
    pub(crate) alloc: Global,
    pub(crate) profile: Profile,
    pub(crate) which: Which,
}

/// The turns of a loop.
#[derive(Clone, Copy)]
struct Turns<'a> {
    variable: &'a str,
    first: u64,
    behind: u64,
}

impl Walk {
    /// A program with these shows and this body, as the second item of a request.
    pub(crate) fn program<'a>(
        &self,
        shows: &'a Value,
        body: &'a Value,
        left: u32,
    ) -> Result<Step<'a>, AllocError>
        ensures { IfOk result (λ step. step_by step ≡ seek (counts_by self.now.which) left
            (spots (1 ∷ []) (program_copy self.now.profile (view shows.now) (view body.now)))) }
    {
        let root = Trail::Root;
        let trail = Trail::Item(1, &root);
        match self.visit(&Text::Program(shows, body), &trail, left)? {
            Step::Skipped(left) => self.body(body, &Trail::Item(2, &trail), left),
            Step::Met(place) => Ok(Step::Met(place)),
        }
    }

    /// A body.
    #[cycle(walk)]
    pub(crate) fn body<'a>(
        &self,
        body: &'a Value,
        trail: &Trail<'_, 'a>,
        left: u32,
    ) -> Result<Step<'a>, AllocError>
        ensures { (level : ℕ) → IfOk result (λ step. step_by step ≡ seek (counts_by self.now.which) left
            (in_body (path_of trail.now) 0 (copies self.now.profile level (view body.now) (trail_bindings trail.now)))) }
    {
        match body {
            Value::Array(items) => self.items(items, &*trail, left),
            _ => self.visit(&Text::None, &Trail::Item(0, &*trail), left),
        }
    }

    #[cycle(walk)]
    fn items<'a>(
        &self,
        items: &'a [Value],
        trail: &Trail<'_, 'a>,
        left: u32,
    ) -> Result<Step<'a>, AllocError>
        ensures { (level : ℕ) → IfOk result (λ step. step_by step ≡ seek (counts_by self.now.which) left
            (in_body (path_of trail.now) 0 (copies_of self.now.profile level (items_view items.now) (trail_bindings trail.now)))) }
    {
        let mut left = left;
        for (index, item) in items.iter().enumerate() {
            match self.statement(item, &Trail::Item(index, &*trail), left)? {
                Step::Skipped(fewer) => left = fewer,
                Step::Met(place) => return Ok(Step::Met(place)),
            }
        }
        Ok(Step::Skipped(left))
    }

    /// A statement with its bodies.
    #[cycle(walk)]
    fn statement<'a>(
        &self,
        statement: &'a Value,
        trail: &Trail<'_, 'a>,
        left: u32,
    ) -> Result<Step<'a>, AllocError>
        ensures { (level : ℕ) → IfOk result (λ step. step_by step ≡ seek (counts_by self.now.which) left
            (spots (path_of trail.now) (copy self.now.profile level (view statement.now) (trail_bindings trail.now)))) }
    {
        let text = text_of(self.profile, statement);
        match self.visit(&text, trail, left)? {
            Step::Skipped(left) => self.bodies(text, &*trail, left),
            Step::Met(place) => Ok(Step::Met(place)),
        }
    }

    /// What stands at a place, without bodies.
    fn visit<'a>(
        &self,
        text: &Text<'_>,
        trail: &Trail<'_, 'a>,
        left: u32,
    ) -> Result<Step<'a>, AllocError>
        ensures { (level : ℕ) → IfOk result (λ step. step_by step ≡ seek (counts_by self.now.which) left
            (spot (path_of trail.now) (record { level = level; variables = trail_bindings trail.now; text = text_by self.now.profile text.now }) ∷ [])) }
    {
        if !self.counts(text) {
            return Ok(Step::Skipped(left));
        }
        if left > 0 {
            return Ok(Step::Skipped(left - 1));
        }
        Ok(Step::Met(trail.place(self.alloc)?))
    }

    fn counts(&self, text: &Text<'_>) -> bool
        ensures { (defined : Defined) → result ≡ counts_by self.now.which (text_by defined text.now) }
    {
        match self.which {
            Which::All => true,
            Which::Statements => !matches!(
                text,
                Text::For(_, _, _, _) | Text::Turn | Text::Program(_, _) | Text::None
            ),
        }
    }

    /// The bodies of a statement.
    #[cycle(walk)]
    fn bodies<'a>(
        &self,
        text: Text<'a>,
        trail: &Trail<'_, 'a>,
        left: u32,
    ) -> Result<Step<'a>, AllocError>
        ensures { (level : ℕ) → IfOk result (λ step. step_by step ≡ seek (counts_by self.now.which) left
            (bodies_in (path_of trail.now) (text_by self.now.profile text.entry)
            (first_copies self.now.profile level (trail_bindings trail.now) (text_by self.now.profile text.entry))
            (second_copies self.now.profile level (trail_bindings trail.now) (text_by self.now.profile text.entry)))) }
    {
        match text {
            Text::If(_, one, two) => {
                match self.body(one, &Trail::Item(2, &*trail), left)? {
                    Step::Skipped(left) => self.body(two, &Trail::Item(3, &*trail), left),
                    Step::Met(place) => Ok(Step::Met(place)),
                }
            }
            Text::For(variable, first, behind, body) => {
                let turns = Turns {
                    variable: letters(variable),
                    first: size_of(first, trail),
                    behind: size_of(behind, trail),
                };
                self.turns(turns, body, &*trail, left)
            }
            Text::Task(_, body) => self.body(body, &Trail::Item(2, &*trail), left),
            Text::Group(_, body) => self.body(body, &Trail::Item(2, &*trail), left),
            Text::GroupBy(_, _, body) => self.body(body, &Trail::Item(3, &*trail), left),
            _ => Ok(Step::Skipped(left)),
        }
    }

    #[cycle(walk)]
    fn turns<'a>(
        &self,
        turns: Turns<'a>,
        body: &'a Value,
        trail: &Trail<'_, 'a>,
        left: u32,
    ) -> Result<Step<'a>, AllocError>
        ensures { (level : ℕ) → IfOk result (λ step. step_by step ≡ seek (counts_by self.now.which) left
            (in_turns (path_of trail.now) (each_turn level (trail_bindings trail.now)
            (λ n. copies self.now.profile (level + 1) (view body.now) ((turns.entry.variable.now, n) ∷ trail_bindings trail.now))
            turns.entry.first (turns.entry.behind - turns.entry.first)))) }
    {
        let mut left = left;
        for number in turns.first..turns.behind {
            let turn = Turn {
                name: turns.variable,
                number,
            };
            match self.turn(turn, body, &*trail, left)? {
                Step::Skipped(fewer) => left = fewer,
                Step::Met(place) => return Ok(Step::Met(place)),
            }
        }
        Ok(Step::Skipped(left))
    }

    #[cycle(walk)]
    fn turn<'a>(
        &self,
        turn: Turn<'a>,
        body: &'a Value,
        trail: &Trail<'_, 'a>,
        left: u32,
    ) -> Result<Step<'a>, AllocError>
        ensures { (level : ℕ) → IfOk result (λ step. step_by step ≡ seek (counts_by self.now.which) left
            (spots (path_of trail.now) (at level (trail_bindings trail.now) OneTurn
            (copies self.now.profile (level + 1) (view body.now) ((turn.entry.name.now, turn.entry.number) ∷ trail_bindings trail.now)) Done))) }
    {
        match self.visit(&Text::Turn, trail, left)? {
            Step::Skipped(left) => {
                let inner = Trail::Turn(turn, &*trail);
                self.body(body, &Trail::Item(4, &inner), left)
            }
            Step::Met(place) => Ok(Step::Met(place)),
        }
    }
}

ghost use Rattle.ot_program.specs.Meanings.{letters};

/// The letters of a loop's variable.
pub fn letters(variable: &Value) -> &str
    ensures { result.now ≡ letters (view variable.now) }
{
    match variable {
        Value::String(name) => name.as_str(),
        _ => "",
    }
}
