//! What is told of programs that stand in lines.
ghost use Rattle.std.specs.Prelude.{◌≡◌, ◌∷◌, []};
ghost use Rattle.ot_model.specs.Programs.{array_lengths};

use ot_model::{Cells, Shape};
use ot_race::{Race, run_events, this_run};
use ot_race_all::{More, Races};
use ot_race_locks::{Apart, Locks, judge_apart};
use ot_race_order::{Order, races_by};
use ot_race_ways::{Verdict, any_way};
use std::alloc::{AllocError, Global};
use std::fmt::Write;
use test_reading::{one_array, read};

/// The first race of the run of a `program2` of this body over an array of so many cells, which begin with 1, 2, 3 and
/// so on: the place of the later statement, and that of the earlier one with the cell; or that there is none.
pub(crate) fn told(alloc: Global, cells: u32, body: &str) -> Result<String, AllocError> {
    let shape = one_array(alloc, cells, 20_000)?;
    let text = format!(in alloc; "program2 [],{body}")?;
    told_of(alloc, text.as_str(), cells, &shape)
}

fn told_of(alloc: Global, text: &str, cells: u32, shape: &Shape) -> Result<String, AllocError>
    requires { array_lengths shape.now ≡ cells ∷ [] }
{
    let Ok(program) = read(alloc, text, shape) else {
        return String::from_str(alloc, "unread");
    };
    let mut numbers = Vec::new(alloc);
    for number in 0..cells {
        numbers.push(u64::from(number) + 1)?;
    }
    if numbers.len() != cells as usize {
        return String::from_str(alloc, "miscounted");
    }
    match this_run(alloc, &program, Cells::new(vec![in alloc; numbers]?))? {
        Some(Race { cell, place, later }) => format!(in alloc; "{later} {place}.{}", cell.index),
        None => String::from_str(alloc, "none"),
    }
}

/// The same of all ways, where this orders tasks: behind the race the turns of its way, each `if` by its place, with `+` where the way takes the first
/// body and else `-`; or that there are too many ways.
pub(crate) fn told_of_ways(
    alloc: Global,
    order: Order,
    cells: u32,
    body: &str,
) -> Result<String, AllocError> {
    let shape = one_array(alloc, cells, 20_000)?;
    let text = format!(in alloc; "program2 [],{body}")?;
    let Ok(program) = read(alloc, text.as_str(), &shape) else {
        return String::from_str(alloc, "unread");
    };
    match any_way(alloc, order, &program)? {
        Verdict::RacesOnNoWay => String::from_str(alloc, "none"),
        Verdict::TooManyWays => String::from_str(alloc, "many"),
        Verdict::RacesOnWay(turns, race) => {
            let mut told = format!(in alloc; "{} {}.{}", race.later, race.place, race.cell.index)?;
            for turn in &turns {
                let sign = if turn.first { "+" } else { "-" };
                let step = format!(in alloc; " {}{sign}", turn.place)?;
                told.push_str(step.as_str())?;
            }
            Ok(told)
        }
    }
}

/// The same of all races of the run, where this orders tasks: so many first ones, and how many more there are.
pub(crate) fn told_all(
    alloc: Global,
    order: Order,
    cells: u32,
    most: usize,
    body: &str,
) -> Result<String, AllocError> {
    let shape = one_array(alloc, cells, 20_000)?;
    let text = format!(in alloc; "program2 [],{body}")?;
    all_told_of(alloc, order, text.as_str(), cells, most, &shape)
}

fn all_told_of(
    alloc: Global,
    order: Order,
    text: &str,
    cells: u32,
    most: usize,
    shape: &Shape,
) -> Result<String, AllocError>
    requires { array_lengths shape.now ≡ cells ∷ [] }
{
    let Ok(program) = read(alloc, text, shape) else {
        return String::from_str(alloc, "unread");
    };
    let mut numbers = Vec::new(alloc);
    for number in 0..cells {
        numbers.push(u64::from(number) + 1)?;
    }
    if numbers.len() != cells as usize {
        return String::from_str(alloc, "miscounted");
    }
    let events = run_events(alloc, &program, Cells::new(vec![in alloc; numbers]?))?;
    let races = races_by(alloc, order, events, most)?;
    list(alloc, &races)
}

fn list(alloc: Global, races: &Races) -> Result<String, AllocError> {
    let mut told = String::new(alloc);
    for race in &races.told {
        if !told.is_empty() {
            told.push_str(", ")?;
        }
        let one = format!(in alloc; "{} {}.{}", race.later, race.place, race.cell.index)?;
        told.push_str(one.as_str())?;
    }
    let rest = match races.more {
        More::Exactly(0) if told.is_empty() => String::from_str(alloc, "none")?,
        More::Exactly(0) => String::new(alloc),
        More::Exactly(more) => format!(in alloc; " and {more}")?,
        More::AtLeast(more) => format!(in alloc; " and {more} or more")?,
    };
    told.push_str(rest.as_str())?;
    Ok(told)
}

/// The first race of the run whose events hold locks, or the cell that is touched in too many kinds. The digits say what
/// events hold by place; or else so many tasks, with one event each, hold lock 0 and one of their own.
pub(crate) fn told_apart(
    alloc: Global,
    cells: u32,
    tasks: u32,
    digits: &str,
    body: &str,
) -> Result<String, AllocError> {
    let shape = one_array(alloc, cells, 20_000)?;
    let text = format!(in alloc; "program2 [],{body}")?;
    apart_of(alloc, text.as_str(), cells, tasks, digits, &shape)
}

fn apart_of(
    alloc: Global,
    text: &str,
    cells: u32,
    tasks: u32,
    digits: &str,
    shape: &Shape,
) -> Result<String, AllocError>
    requires { array_lengths shape.now ≡ cells ∷ [] }
{
    let Ok(program) = read(alloc, text, shape) else {
        return String::from_str(alloc, "unread");
    };
    let mut numbers = Vec::new(alloc);
    for number in 0..cells {
        numbers.push(u64::from(number) + 1)?;
    }
    if numbers.len() != cells as usize {
        return String::from_str(alloc, "miscounted");
    }
    let events = run_events(alloc, &program, Cells::new(vec![in alloc; numbers]?))?;
    let mut sets = vec![in alloc;
        Vec::new(alloc),
        vec![in alloc; 0]?,
        vec![in alloc; 1]?,
        vec![in alloc; 0, 1]?,
    ]?;
    let mut held = Vec::new(alloc);
    for event in &events {
        held.push(held_at(digits.as_bytes(), tasks, event.place))?;
    }
    for task in 0..tasks {
        sets.push(vec![in alloc; 0, task.wrapping_add(1)]?)?;
    }
    let locks = Locks {
        sets: &sets,
        held: &held,
    };
    match judge_apart(alloc, &events, &locks)? {
        Apart::RacesNowhere => String::from_str(alloc, "none"),
        Apart::Races(Race { cell, place, later }) => format!(in alloc;
            "{later} {place}.{}",
            cell.index
        ),
        Apart::TooMany(cell) => format!(in alloc; "many.{}", cell.index),
    }
}

/// The number of the set that events of a place hold.
fn held_at(digits: &[u8], tasks: u32, place: u32) -> u32 {
    let before = place.saturating_sub(1);
    if tasks > 0 {
        return 4u32.wrapping_add(before / 2);
    }
    match digits.get(before as usize) {
        Some(digit) => u32::from(digit.saturating_sub(48)),
        None => 0,
    }
}
