//! Races of what stands for a C text, where its tasks are ordered as in C.
ghost use Rattle.std.specs.Prelude.{IfOk, ℕ, List, ◌≡◌};
ghost use Rattle.ot_model.specs.View.{stmts_of};
ghost use Rattle.ot_model.specs.Cells.{lengths};
ghost use Rattle.ot_model.specs.Names.{NamedIn};
ghost use Rattle.ot_check.specs.Discipline.{OffendsNowhere};
ghost use Rattle.ot_check.specs.Offences.{Offends, IsFirstOf};
ghost use Rattle.ot_c_judge.specs.Findings.{Finds, TellsRun, IsAccepted, is_clean, events_by, finding_of};

use ot_check::Offence;
use ot_law_raceless::laws::accepted_races_on_no_way_by;
use ot_model::{Cells, Program};
use ot_race::{Race, run_events};
use ot_race_all::Races;
use ot_race_order::{Order, is_alike, races_by};
use ot_race_ways::laws::{runs_are_ways, straight_ways_are_runs};
use ot_race_ways::{Verdict as WaysVerdict, any_way, is_straight};
use std::alloc::{AllocError, Global};

/// How many races of a run are told.
const MOST_RACES: usize = 20;

/// What is found of a program that begins with the C's numbers.
#[derive(Debug, Drop)]
pub(crate) enum Finding {
    /// Its run races.
    InRun(Races),
    /// Its run doesn't race, but another way through its branches does.
    OnWay(Race),
    /// No way races.
    Nowhere,
    /// Its run doesn't race, and there are too many ways to know.
    OnlyRun,
}

/// Looks for a race in a program of which this is the first offence, with its place, if it has one.
pub(crate) fn find(
    alloc: Global,
    order: Order,
    program: &Program,
    cells: Cells,
    first: Option<(u32, Offence)>,
) -> Result<Finding, AllocError>
    requires { NamedIn (lengths cells) (stmts_of program.now.body.items) }
    ensures { IsFirstOf (Offends (stmts_of program.now.body.items)) first → IfOk result (Finds order (stmts_of program.now.body.items) cells) }
{
    match first {
        None => find_in_accepted(alloc, order, program, cells),
        Some(_) => find_in_refused(alloc, order, program, cells),
    }
}

/// Looks for a race in a program that a check accepts. Where this orders its tasks as the language does it races on no way, and none is
/// judged.
fn find_in_accepted(
    alloc: Global,
    order: Order,
    program: &Program,
    cells: Cells,
) -> Result<Finding, AllocError>
    requires { NamedIn (lengths cells) (stmts_of program.now.body.items) }
    ensures { OffendsNowhere (stmts_of program.now.body.items) → IfOk result (Finds order (stmts_of program.now.body.items) cells) }
{
    if is_alike(order, &program.body) {
        accepted_races_on_no_way_by();
        runs_are_ways();
        Ok(Finding::Nowhere)
    } else {
        find_race(alloc, order, program, cells)
    }
}

/// Looks for a race in the run of a program that begins with these cells, and then on all ways, where this orders tasks.
fn find_in_refused(
    alloc: Global,
    order: Order,
    program: &Program,
    cells: Cells,
) -> Result<Finding, AllocError>
    requires { NamedIn (lengths cells) (stmts_of program.now.body.items) }
    ensures { (IsAccepted order (stmts_of program.now.body.items) → ⊥) → IfOk result (Finds order (stmts_of program.now.body.items) cells) }
{
    match races_in_run(alloc, order, program, cells)? {
        Some(races) => Ok(Finding::InRun(races)),
        None => find_on_ways(alloc, order, program),
    }
}

ghost use Rattle.ot_race.specs.Events.{Event};
ghost use Rattle.ot_race.specs.Races.{NothingRaces};
ghost use Rattle.ot_race_all.specs.AllRaces.{TellsAll};

/// Looks on the ways of a program whose run doesn't race. Where it is straight they do what the run does, and none is judged.
fn find_on_ways(alloc: Global, order: Order, program: &Program) -> Result<Finding, AllocError>
    requires { (lens : List ℕ) × NamedIn lens (stmts_of program.now.body.items) }
    ensures { (cells : List (List ℕ)) → NothingRaces (events_by order (stmts_of program.now.body.items) cells) → (IsAccepted order (stmts_of program.now.body.items) → ⊥)
        → IfOk result (Finds order (stmts_of program.now.body.items) cells) }
{
    let straight = is_straight(&program.body);
    if straight {
        straight_ways_are_runs();
        return Ok(Finding::Nowhere);
    }
    let told = any_way(alloc, order, program)?;
    Ok(finding_of(told))
}

/// The same, but that it looks on all ways first, unless the program is straight. The run goes a way itself: where no way races it
/// isn't judged.
fn find_race(
    alloc: Global,
    order: Order,
    program: &Program,
    cells: Cells,
) -> Result<Finding, AllocError>
    requires { NamedIn (lengths cells) (stmts_of program.now.body.items) }
    ensures { (IsAccepted order (stmts_of program.now.body.items) → ⊥) → IfOk result (Finds order (stmts_of program.now.body.items) cells) }
{
    if is_straight(&program.body) {
        return find_in_refused(alloc, order, program, cells);
    }
    runs_are_ways();
    let told = any_way(alloc, order, program)?;
    if is_clean(&told) {
        return Ok(Finding::Nowhere);
    }
    match races_in_run(alloc, order, program, cells)? {
        Some(races) => Ok(Finding::InRun(races)),
        None => Ok(finding_of(told)),
    }
}

/// Whether the ways tell that none of them races.
fn is_clean(told: &WaysVerdict) -> bool
    ensures { result ≡ is_clean told.now }
{
    matches!(told, WaysVerdict::RacesOnNoWay)
}

/// The races of the run that begins with these cells, where this orders tasks.
fn races_in_run(
    alloc: Global,
    order: Order,
    program: &Program,
    cells: Cells,
) -> Result<Option<Races>, AllocError>
    requires { NamedIn (lengths cells) (stmts_of program.now.body.items) }
    ensures { IfOk result (TellsRun (events_by order (stmts_of program.now.body.items) cells)) }
{
    let events = run_events(alloc, program, cells)?;
    let races = races_by(alloc, order, events, MOST_RACES)?;
    Ok(some_of(races))
}

/// Races, where there are some.
fn some_of(races: Races) -> Option<Races>
    ensures { (es : List Event) → TellsAll es 20 races → TellsRun es result }
{
    if races.told.is_empty() {
        None
    } else {
        Some(races)
    }
}

/// What the ways tell of a program whose run doesn't race.
fn finding_of(told: WaysVerdict) -> Finding
    ensures { result ≡ finding_of told }
{
    match told {
        WaysVerdict::RacesOnNoWay => Finding::Nowhere,
        WaysVerdict::RacesOnWay(_, race) => Finding::OnWay(race),
        WaysVerdict::TooManyWays => Finding::OnlyRun,
    }
}
