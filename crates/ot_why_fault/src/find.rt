//! The first entry of a program that has a fault.
ghost use Rattle.std.specs.Prelude.{◌≡◌, ℕ, ◌+◌, ◌-◌, [], ◌∷◌, ◌++◌, None, IfOk, option_map};
ghost use Rattle.serde_json.specs.View.{view, items_view};
ghost use Rattle.ot_program.specs.Copies.{copies, copies_of, copy, turns as each_turn, at, Done, Turn as OneTurn, in_order, in_copy};
ghost use Rattle.ot_program.specs.Limits.{total};
ghost use Rattle.ot_program.specs.Programs.{program_copy};
ghost use Rattle.ot_why_place.specs.Spots.{trail_bindings};
ghost use Rattle.ot_why_place.specs.Texts.{text_by};
ghost use Rattle.ot_why_fault.specs.Whys.{short, after, text_whys, why_by, shape_of, counts_of, more_than, whys_past_limits, mixed_whys, first_in_program, first_why, found_by};
ghost use Rattle.ot_why_fault.specs.Walk.{told_by, walk, walk_step, walk_on, in_bodies};

use crate::look::Look;
use crate::own::Tally;
use crate::why::{Count, First, Wanted, Why};
use ot_model::ArrayShape;
use ot_program::{
    MAX_CELLS, MAX_NODES, MAX_STATEMENTS, MAX_TURNS, Profile, program_form, requested_program,
};
use ot_why_mixed::mixed_in;
use ot_why_place::{Text, Trail, Turn, letters, size_of, text_of};
use serde_json::Value;
use std::alloc::{AllocError, Global};

/// What is at fault, and how many stand before what has the fault, in the order of `entry_of`.
#[derive(Clone, Copy, Debug)]
pub struct Found<'a> {
    pub index: u32,
    pub why: Why<'a>,
}

/// The first fault of the program that a request runs, over these arrays and with at most so many task statements, where
/// it has one.
pub fn first_fault<'a>(
    alloc: Global,
    request: &'a Value,
    arrays: &[ArrayShape],
    tasks: u32,
) -> Result<Option<Found<'a>>, AllocError>
    ensures { IfOk result (λ found. option_map found_by found ≡ first_why (shape_of arrays.now tasks) (view request.now)) }
{
    match requested_program(request) {
        Some(program) => in_program(alloc, program, arrays, tasks),
        None => Ok(None),
    }
}

fn in_program<'a>(
    alloc: Global,
    program: &'a Value,
    arrays: &[ArrayShape],
    tasks: u32,
) -> Result<Option<Found<'a>>, AllocError>
    ensures { IfOk result (λ found. option_map found_by found ≡ first_in_program (shape_of arrays.now tasks) (view program.now)) }
{
    let Some(form) = program_form(program) else {
        return Ok(Some(Found {
            index: 0,
            why: Why::Form(program, Wanted::Program),
        }));
    };
    let finder = Finder {
        alloc,
        arrays,
        tasks,
        profile: form.profile,
    };
    match finder.program(form.shows, form.body)? {
        Step::Passed(_) => Ok(None),
        Step::Met(found) => Ok(Some(found)),
    }
}

/// How many were passed without a fault, and what they count.
#[derive(Clone, Copy, Debug)]
pub(crate) struct Passed {
    pub(crate) entries: u32,
    pub(crate) counts: Tally,
}

/// How far a walk came.
#[derive(Clone, Copy, Debug)]
pub(crate) enum Step<'a> {
    /// There was no fault.
    Passed(Passed),
    /// It is at the first fault.
    Met(Found<'a>),
}

/// A walk through a program's statements to the first that has a fault.
#[derive(Clone, Copy)]
pub(crate) struct Finder<'s> {
    pub(crate) alloc: Global,
    pub(crate) arrays: &'s [ArrayShape],
    pub(crate) tasks: u32,
    pub(crate) profile: Profile,
}

/// The turns of a loop.
#[derive(Clone, Copy)]
pub(crate) struct Turns<'a> {
    pub(crate) variable: &'a str,
    pub(crate) from: u64,
    pub(crate) behind: u64,
}

impl Finder<'_> {
    fn program<'a>(&self, shows: &'a Value, body: &'a Value) -> Result<Step<'a>, AllocError>
        ensures { IfOk result (λ step. walk_step step
            ≡ walk (shape_of self.now.arrays.now self.now.tasks) 0 (counts_of (total (shape_of self.now.arrays.now self.now.tasks) []))
            (in_copy (program_copy self.now.profile (view shows.now) (view body.now)))) }
    {
        let root = Trail::Root;
        let passed = Passed {
            entries: 0,
            counts: Tally::none(),
        };
        match self.enter(Text::Program(shows, body), &root, 0, passed)? {
            Step::Passed(passed) => self.body(body, &root, 1, passed),
            Step::Met(found) => Ok(Step::Met(found)),
        }
    }

    /// A body, which stands in so many with itself.
    #[cycle(find)]
    fn body<'a>(
        &self,
        body: &'a Value,
        trail: &Trail<'_, 'a>,
        level: u32,
        passed: Passed,
    ) -> Result<Step<'a>, AllocError>
        ensures { (nested : ℕ) → level ≡ short nested → IfOk result (λ step. walk_step step ≡ walk_on self.now passed
            (in_order (copies self.now.profile nested (view body.now) (trail_bindings trail.now)))) }
    {
        match body {
            Value::Array(items) => self.items(items, &*trail, level, passed),
            _ => self.enter(Text::None, &*trail, level, passed),
        }
    }

    #[cycle(find)]
    fn items<'a>(
        &self,
        items: &'a [Value],
        trail: &Trail<'_, 'a>,
        level: u32,
        passed: Passed,
    ) -> Result<Step<'a>, AllocError>
        ensures { (nested : ℕ) → level ≡ short nested → IfOk result (λ step. walk_step step ≡ walk_on self.now passed
            (in_order (copies_of self.now.profile nested (items_view items.now) (trail_bindings trail.now)))) }
    {
        let mut passed = passed;
        for item in items {
            match self.statement(item, &*trail, level, passed)? {
                Step::Passed(more) => passed = more,
                Step::Met(found) => return Ok(Step::Met(found)),
            }
        }
        Ok(Step::Passed(passed))
    }

    /// A statement, and then those in its bodies.
    #[cycle(find)]
    fn statement<'a>(
        &self,
        statement: &'a Value,
        trail: &Trail<'_, 'a>,
        level: u32,
        passed: Passed,
    ) -> Result<Step<'a>, AllocError>
        ensures { (nested : ℕ) → level ≡ short nested → IfOk result (λ step. walk_step step ≡ walk_on self.now passed
            (in_copy (copy self.now.profile nested (view statement.now) (trail_bindings trail.now)))) }
    {
        let text = text_of(self.profile, statement);
        match self.enter(text, &*trail, level, passed)? {
            Step::Passed(passed) => self.bodies(text, &*trail, level, passed),
            Step::Met(found) => Ok(Step::Met(found)),
        }
    }

    /// The bodies of a statement.
    #[cycle(find)]
    fn bodies<'a>(
        &self,
        text: Text<'a>,
        trail: &Trail<'_, 'a>,
        level: u32,
        passed: Passed,
    ) -> Result<Step<'a>, AllocError>
        ensures { (nested : ℕ) → level ≡ short nested → IfOk result (λ step. walk_step step ≡ walk_on self.now passed
            (in_bodies self.now.profile nested (trail_bindings trail.now) (text_by self.now.profile text.entry))) }
    {
        let inner = level.saturating_add(1);
        match text {
            Text::If(_, one, two) => match self.body(one, &*trail, inner, passed)? {
                Step::Passed(passed) => self.body(two, &*trail, inner, passed),
                Step::Met(found) => Ok(Step::Met(found)),
            },
            Text::For(variable, from, behind, body) => {
                let turns = Turns {
                    variable: letters(variable),
                    from: size_of(from, trail),
                    behind: size_of(behind, trail),
                };
                self.turns(turns, body, &*trail, level, passed)
            }
            Text::Task(_, body) => self.body(body, &*trail, inner, passed),
            Text::Group(_, body) => self.body(body, &*trail, inner, passed),
            Text::GroupBy(_, _, body) => self.body(body, &*trail, inner, passed),
            _ => Ok(Step::Passed(passed)),
        }
    }

    #[cycle(find)]
    fn turns<'a>(
        &self,
        turns: Turns<'a>,
        body: &'a Value,
        trail: &Trail<'_, 'a>,
        level: u32,
        passed: Passed,
    ) -> Result<Step<'a>, AllocError>
        ensures { (nested : ℕ) → level ≡ short nested → IfOk result (λ step. walk_step step ≡ walk_on self.now passed
            (in_order (each_turn nested (trail_bindings trail.now)
            (λ n. copies self.now.profile (nested + 1) (view body.now) ((turns.entry.variable.now, n) ∷ trail_bindings trail.now))
            turns.entry.from (turns.entry.behind - turns.entry.from)))) }
    {
        let mut passed = passed;
        for number in turns.from..turns.behind {
            let turn = Turn {
                name: turns.variable,
                number,
            };
            match self.turn(turn, body, &*trail, level, passed)? {
                Step::Passed(more) => passed = more,
                Step::Met(found) => return Ok(Step::Met(found)),
            }
        }
        Ok(Step::Passed(passed))
    }

    #[cycle(find)]
    fn turn<'a>(
        &self,
        turn: Turn<'a>,
        body: &'a Value,
        trail: &Trail<'_, 'a>,
        level: u32,
        passed: Passed,
    ) -> Result<Step<'a>, AllocError>
        ensures { (nested : ℕ) → level ≡ short nested → IfOk result (λ step. walk_step step ≡ walk_on self.now passed
            (in_copy (at nested (trail_bindings trail.now) OneTurn
            (copies self.now.profile (nested + 1) (view body.now) ((turn.entry.name.now, turn.entry.number) ∷ trail_bindings trail.now)) Done))) }
    {
        match self.enter(Text::Turn, &*trail, level, passed)? {
            Step::Passed(passed) => {
                let inner = Trail::Turn(turn, &*trail);
                self.body(body, &inner, level.saturating_add(1), passed)
            }
            Step::Met(found) => Ok(Step::Met(found)),
        }
    }

    /// The own parts of what stands there, and then its counts.
    fn enter<'a>(
        &self,
        text: Text<'a>,
        trail: &Trail<'_, 'a>,
        level: u32,
        passed: Passed,
    ) -> Result<Step<'a>, AllocError>
        ensures { (nested : ℕ) → level ≡ short nested → IfOk result (λ step. walk_step step ≡ walk_on self.now passed
            (record { level = nested; variables = trail_bindings trail.now; text = text_by self.now.profile text.entry } ∷ [])) }
    {
        let look = Look {
            arrays: self.arrays,
            tasks: self.tasks,
            trail,
        };
        let mut first = First::new();
        let own = look.own_parts(&mut first, self.profile, level, text);
        let counts = passed.counts.plus(own);
        first.past_limits(counts, u64::from(self.tasks));
        match self.with_mixed(first.why, text, trail)? {
            Some(why) => Ok(Step::Met(Found {
                index: passed.entries,
                why,
            })),
            None => Ok(Step::Passed(Passed {
                entries: passed.entries.saturating_add(1),
                counts,
            })),
        }
    }

    /// What is told of an entry of which this is told so far.
    fn with_mixed<'a>(
        &self,
        told: Option<Why<'a>>,
        text: Text<'a>,
        trail: &Trail<'_, 'a>,
    ) -> Result<Option<Why<'a>>, AllocError>
        ensures { (level : ℕ)
            → (option_map why_by told.entry ≡ None → text_whys (shape_of self.now.arrays.now self.now.tasks) level (trail_bindings trail.now) (text_by self.now.profile text.entry) ≡ [])
            → IfOk result (λ why. option_map why_by why ≡ after (option_map why_by told.entry)
            (mixed_whys (shape_of self.now.arrays.now self.now.tasks) (trail_bindings trail.now) (text_by self.now.profile text.entry))) }
    {
        match told {
            Some(why) => Ok(Some(why)),
            None => self.mixed(text, trail),
        }
    }

    /// Of a task without another fault, a cell that it declares under `red` and otherwise.
    fn mixed<'a>(
        &self,
        text: Text<'a>,
        trail: &Trail<'_, 'a>,
    ) -> Result<Option<Why<'a>>, AllocError>
        ensures { (level : ℕ)
            → text_whys (shape_of self.now.arrays.now self.now.tasks) level (trail_bindings trail.now) (text_by self.now.profile text.entry) ≡ []
            → IfOk result (λ why. option_map why_by why
            ≡ after None (mixed_whys (shape_of self.now.arrays.now self.now.tasks) (trail_bindings trail.now) (text_by self.now.profile text.entry))) }
    {
        match text {
            Text::Task(clauses, _) => {
                match mixed_in(self.alloc, self.arrays, clauses, trail)? {
                    Some((name, index)) => Ok(Some(Why::Mixed(name, index))),
                    None => Ok(None),
                }
            }
            _ => Ok(None),
        }
    }
}

impl First<'_> {
    /// Counts that are past their limits.
    fn past_limits(&mut self, counts: Tally, tasks: u64)
        ensures { told_by self.new ≡ after (told_by self.old) (whys_past_limits tasks counts) }
    {
        self.more_than(Count::Statements, counts.statements, MAX_STATEMENTS);
        self.more_than(Count::Turns, counts.turns, u64::from(MAX_TURNS));
        self.more_than(Count::Nodes, counts.nodes, MAX_NODES);
        self.more_than(Count::Cells, counts.cells, MAX_CELLS);
        self.unless(
            counts.tasks <= tasks,
            Why::TooManyTasks(counts.tasks, tasks),
        );
    }

    fn more_than(&mut self, count: Count, has: u64, may: u64)
        ensures { told_by self.new ≡ after (told_by self.old) (more_than count has may) }
    {
        self.unless(has <= may, Why::TooMany(count, has, may));
    }
}
