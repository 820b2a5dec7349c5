//! Events that aren't enabled, in a world of two tenants whose logs have room for three lines.
use super::events::event_of;
use super::tenants::{told, world_of};
use ot_core::{Event, Stepped, World};
use ot_store::{Limits, Store};
use std::alloc::{AllocError, Global};

/// What each event does, and the event, one after another.
const EVENTS: &str = r#"// Nothing is asked, nobody has a job, and nobody holds a piece.
NotNow open 0
NotNow start 1 0 0
NotNow finish 1
NotNow reply 0
NotNow abort 0
// There is no such tenant.
NotNow admit 2 ["get","a",0,1]
NotNow admit 4294967295 ["get","a",0,1]
NotNow open 2
NotNow start 1 2 0
NotNow reply 2
NotNow abort 2
// One line is answered, and one runs a job.
Asked admit 0 ["new","a",1]
Asked admit 0 ["run",["program",[["a",0,1]],[["task",[["inout",["a",0,1]]],[["add",["c","a",0],1]]],["wait"]]]]
NotNow open 1
Answered open 0
Job open 0
// The log has room for one more line. A request is open.
Asked admit 0 ["get","a",0,1]
Full admit 0 ["get","a",0,1]
Full admit 0 ["get","a",0,1]
NotNow open 0
NotNow reply 0
// There is no such worker, or the tenant has no job.
NotNow start 0 0 0
NotNow start 17 0 0
NotNow start 4294967295 0 0
NotNow start 1 1 0
NotNow finish 0
NotNow finish 17
NotNow finish 4294967295
// The root alone is claimable. Its hand is full then, and nothing is claimable.
Started(0) start 1 0 4294967295
NotNow start 1 0 0
NotNow start 2 0 0
NotNow finish 2
NotNow reply 0
Finished(1) finish 1
NotNow finish 1
// Two tasks are claimable: 2^32-1 modulo 2 is 1.
Started(1) start 16 0 4294967295
Started(0) start 1 0 1
Finished(1) finish 1
// The root waits for its task.
NotNow start 1 0 0
Finished(1) finish 16
Started(0) start 1 0 7
Finished(0) finish 1
// The job is over.
NotNow start 1 0 0
NotNow abort 0
NotNow open 0
Replied reply 0
NotNow reply 0
Answered open 0
// The log is full, and each line is answered.
NotNow open 0
Full admit 0 ["get","a",0,1]
Asked admit 1 ["get","a",0,1]"#;

const TOLD: &str = r#"["ok",1]
["done",2,1,3,[[1]]]
["cells",3,[1]]
"#;

/// All that a world tells of its two tenants.
fn tell(alloc: Global, world: &World) -> Result<String, AllocError> {
    let mut text = String::new(alloc);
    for tenant in 0..2u32 {
        let asked = world.asked(tenant);
        let units = world.units(tenant);
        let said = told(alloc, world, tenant)?;
        let one = format!(in alloc; "{asked:?} {units:?} {said}")?;
        text.push_str(one.as_str())?;
    }
    Ok(text)
}

/// Whether an event does what is said, and where it is refused changes nothing.
fn does(
    alloc: Global,
    world: &mut World,
    event: Event<'_>,
    said: &str,
) -> Result<bool, AllocError> {
    let before = tell(alloc, world)?;
    let stepped = world.step(alloc, event)?;
    let did = format!(in alloc; "{stepped:?}")?;
    let refused = matches!(stepped, Stepped::NotNow | Stepped::Full);
    let same = tell(alloc, world)? == before;
    Ok(did.as_str() == said && (same || !refused))
}

/// Whether a row is a remark, or its event does what it says.
fn holds(alloc: Global, world: &mut World, row: &str) -> Result<bool, AllocError> {
    let (said, line) = row.split_once(' ').unwrap_or(("", row));
    match event_of(line) {
        Some(event) => does(alloc, world, event, said),
        None => Ok(said == "//"),
    }
}

/// The first row that doesn't hold, or else what the first tenant was told.
fn first_other(alloc: Global) -> Result<String, AllocError> {
    let limits = Limits {
        log: 3,
        ..Limits::usual()
    };
    let mut world = world_of(alloc, 2, limits, &Store::empty(alloc))?;
    for row in EVENTS.lines() {
        if !holds(alloc, &mut world, row)? {
            return String::from_str(alloc, row);
        }
    }
    told(alloc, &world, 0)
}

#[test]
fn what_is_not_enabled_changes_nothing(rt: HostRuntime) {
    match first_other(rt.alloc()) {
        Ok(said) => assert_eq!(rt; said.as_str(), TOLD),
        Err(_) => panic!(rt; "no memory"),
    }
}
