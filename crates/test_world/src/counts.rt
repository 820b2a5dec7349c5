//! How many events the chooser of a drain is told.
use super::events::event_of;
use super::tenants::world_of;
use ot_core::{Event, World};
use ot_store::{Limits, Store};
use std::alloc::{AllocError, Global};

/// Two tenants that ask for the same, two tasks that don't depend on each other, and whose jobs have begun.
const BEGUN: &str = r#"admit 0 ["new","a",2]
admit 0 ["run",["program",[["a",0,2]],[["task",[["out",["a",0,1]]],[["set",["c","a",0],4]]],["task",[["out",["a",1,1]]],[["set",["c","a",1],5]]],["wait"]]]]
open 0
open 0
admit 1 ["new","a",2]
admit 1 ["run",["program",[["a",0,2]],[["task",[["out",["a",0,1]]],[["set",["c","a",0],4]]],["task",[["out",["a",1,1]]],[["set",["c","a",1],5]]],["wait"]]]]
open 1
open 1"#;

/// How many events there are after some more: a start counts once for each free worker and claimable task.
const COUNTS: [(&str, u64); 6] = [
    // two roots, sixteen workers
    ("", 32),
    // one root, fifteen workers, and a finish
    ("start 1 0 0", 16),
    // fourteen workers have nothing to do
    ("start 1 0 0\nstart 2 1 0", 2),
    // a root and its first task, and the other root, for sixteen workers
    ("start 1 0 0\nfinish 1", 48),
    // a line that can be opened only once the job is over
    ("start 1 0 0\nfinish 1\nadmit 0 {}", 48),
    // the first job fails at once, and one root is left
    ("abort 0", 17),
];

/// Takes the events of these lines.
fn take(alloc: Global, world: &mut World, lines: &str) -> Result<(), AllocError> {
    for line in lines.lines() {
        if let Some(event) = event_of(line) {
            world.step(alloc, event)?;
        }
    }
    Ok(())
}

/// The first number that a chooser is told which always answers the greatest.
fn first_count(alloc: Global, world: &mut World) -> Result<u64, AllocError> {
    let mut first = 0u64;
    world.drain(
        alloc,
        &mut |count: u64| {
            if first == 0 {
                first = count;
            }
            u64::MAX
        },
    )?;
    Ok(first)
}

/// How many events there are after these.
fn count_after(alloc: Global, lines: &str) -> Result<u64, AllocError> {
    let mut world = world_of(alloc, 2, Limits::usual(), &Store::empty(alloc))?;
    take(alloc, &mut world, BEGUN)?;
    take(alloc, &mut world, lines)?;
    first_count(alloc, &mut world)
}

/// The first row whose count is another, and that count.
fn first_other(alloc: Global) -> Option<(usize, Option<u64>)> {
    for (number, (lines, count)) in COUNTS.iter().enumerate() {
        let told = count_after(alloc, lines).ok();
        if told != Some(*count) {
            return Some((number, told));
        }
    }
    None
}

#[test]
fn the_chooser_is_told_how_many_events_there_are(rt: HostRuntime) {
    assert_eq!(rt; first_other(rt.alloc()), None);
}

/// The first tenant may open a run, the second's job is over, and of the third's one task is out and the root and
/// the other task are claimable.
const MANY: &str = r#"admit 0 ["new","a",2]
admit 1 ["new","a",2]
admit 2 ["new","a",2]
open 0
open 1
open 2
admit 0 ["run",["program",[],[["task",[["out",["a",0,1]]],[["set",["c","a",0],4]]]]]]
admit 1 ["run",["program",[],[]]]
open 1
start 1 1 0
finish 1
admit 2 ["run",["program",[],[["task",[["out",["a",0,1]]],[["set",["c","a",0],4]]],["task",[["out",["a",1,1]]],[["set",["c","a",1],5]]],["wait"]]]]
open 2
start 1 2 0
finish 1
start 1 2 0
finish 1
start 1 2 1"#;

/// That world.
fn world_of_many(alloc: Global) -> Result<World, AllocError> {
    let mut world = world_of(alloc, 3, Limits::usual(), &Store::empty(alloc))?;
    take(alloc, &mut world, MANY)?;
    Ok(world)
}

/// The counts that a chooser is told which answers 0, as one number; but for the first where that is answered otherwise.
fn trail(alloc: Global, world: &mut World, first: Option<u64>) -> Result<u64, AllocError> {
    let (mut first, mut trail) = (first, 0u64);
    world.drain(
        alloc,
        &mut |count: u64| match first.take() {
            Some(place) => place,
            None => {
                trail = trail.wrapping_mul(31).wrapping_add(count);
                0
            }
        },
    )?;
    Ok(trail)
}

/// The trail behind an event.
fn trail_behind(alloc: Global, event: Event<'_>) -> Result<u64, AllocError> {
    let mut world = world_of_many(alloc)?;
    world.step(alloc, event)?;
    trail(alloc, &mut world, None)
}

/// The trails behind each event of that world: one line to open, one reply, one piece out, and two tasks for fifteen
/// workers.
fn trails(alloc: Global) -> Result<Vec<u64>, AllocError> {
    let mut trails = Vec::new(alloc);
    for event in [Event::Open(0), Event::Reply(1), Event::Finish(1)] {
        trails.push(trail_behind(alloc, event)?)?;
    }
    for worker in 2..17 {
        for pick in 0..2 {
            trails.push(trail_behind(alloc, Event::Start(worker, 2, pick))?)?;
        }
    }
    Ok(trails)
}

/// The first place behind which no trail comes that is left of those behind the events.
fn first_other_place(alloc: Global) -> Result<Option<usize>, AllocError> {
    let mut trails = trails(alloc)?;
    for place in 0..trails.len() {
        let mut world = world_of_many(alloc)?;
        let came = trail(alloc, &mut world, Some(place as u64))?;
        match trails.iter().position(|trail| *trail == came) {
            Some(at) => {
                trails.swap_remove(at);
            }
            None => return Ok(Some(place)),
        }
    }
    Ok(None)
}

#[test]
fn each_place_is_an_event_of_its_own(rt: HostRuntime) {
    assert_eq!(rt; first_other_place(rt.alloc()), Ok(None));
}
