//! Scenes of a few clients: what each of them is told, and how much is counted.
use super::door::Door;
use super::play::{Told, play};
use super::players::By;
use super::scene::{READ_AFTER_WRITE, Scene};
use std::test::Fail;

const BESIDE_BY_CLIENTS: &str = "2 5 [7, 8, 3]\n3 7 [4, 5, 9]\n";

pub(crate) const BESIDE_BY_SESSIONS: &str = r#"["ok",1]
["ok",2]
["done",3,2,5,[[7,8,3]]]
Ok(EndOfInput), 3 logged
["ok",1]
["ok",2]
["done",3,3,7,[[4,5,9]]]
Ok(EndOfInput), 3 logged
"#;

/// How many pieces of the root and of the tasks behind it pass the gate: of the first tenant, and of the second.
const BESIDE_BY_TASK: ([u64; 4], [u64; 4]) = ([4, 1, 1, 0], [2, 4, 1, 1]);

#[test]
fn each_piece_passes_the_gate_and_its_units_are_counted(rt: HostRuntime) -> Result<(), Fail> {
    for (by, said) in [
        (By::Client, BESIDE_BY_CLIENTS),
        (By::Session, BESIDE_BY_SESSIONS),
    ] {
        let door = Door::counting();
        let told = play(&rt, rt.alloc(), 2, 2, &door, &Scene::Beside(by))?;
        assert!(rt; told.is(said, [5, 7].as_slice(), 12), "{told:?}");
        assert_eq!(rt; door.by_task(), BESIDE_BY_TASK, "{said}");
    }
    Ok(())
}

#[test]
fn one_worker_passes_the_gate_with_its_number(rt: HostRuntime) -> Result<(), Fail> {
    let door = Door::counting();
    let scene = Scene::Beside(By::Client);
    let told = play(&rt, rt.alloc(), 2, 1, &door, &scene)?;
    assert!(rt;
        told.is(BESIDE_BY_CLIENTS, [5, 7].as_slice(), 12),
        "{told:?}"
    );
    assert_eq!(rt; door.by_worker(), ([0, 6, 0, 0], [0, 8, 0, 0]));
    Ok(())
}

/// Whether one of two workers has passed all pieces of the second tenant, while the other held a piece of the
/// first.
fn is_by_both(door: &Door) -> bool {
    match door.by_worker() {
        ([0, one, other, 0], [0, 8, 0, 0]) => other > 0 && one.wrapping_add(other) == 6,
        ([0, one, other, 0], [0, 0, 8, 0]) => one > 0 && one.wrapping_add(other) == 6,
        _ => false,
    }
}

#[test]
fn a_tenant_is_answered_while_a_piece_of_another_is_held(rt: HostRuntime) -> Result<(), Fail> {
    for (by, said) in [
        (By::Client, BESIDE_BY_CLIENTS),
        (By::Session, BESIDE_BY_SESSIONS),
    ] {
        let door = Door::behind(0);
        let told = play(&rt, rt.alloc(), 2, 2, &door, &Scene::Held(by))?;
        assert!(rt; !door.gave_up(), "{told:?}");
        assert!(rt; told.is(said, [5, 7].as_slice(), 12), "{told:?}");
        assert_eq!(rt; door.by_task(), BESIDE_BY_TASK, "{said}");
        assert!(rt; is_by_both(&door), "{:?}", door.by_worker());
    }
    Ok(())
}

/// The first piece of the job is one unit. The second and the third are out, side by side, when the pool is
/// closed.
const CLOSED_FOR_A_CLIENT: &str = "Closed\ntrue Closed Closed\n";

const CLOSED_FOR_A_SESSION: &str = r#"["ok",1]
["ok",2]
Ok(Closed), 2 logged
true Closed Closed
"#;

#[test]
fn pieces_that_come_back_to_a_closed_pool_are_not_counted(rt: HostRuntime) -> Result<(), Fail> {
    for (by, said) in [
        (By::Client, CLOSED_FOR_A_CLIENT),
        (By::Session, CLOSED_FOR_A_SESSION),
    ] {
        let door = Door::behind(1);
        let told = play(&rt, rt.alloc(), 2, 2, &door, &Scene::Closing(by, 3))?;
        assert!(rt; !door.gave_up(), "{told:?}");
        assert!(rt; told.is(said, [1, 0].as_slice(), 1), "{told:?}");
        assert_eq!(rt; door.by_task(), ([2, 1, 0, 0], [0; 4]), "{said}");
    }
    Ok(())
}

const UNKNOWN_TO_A_SESSION: &str = r#"["ok",1]
["ok",2]
["err",3,412]
Err(Stranger), 3 logged
"#;

#[test]
fn a_pool_takes_no_job_of_a_tenant_that_it_does_not_have(rt: HostRuntime) -> Result<(), Fail> {
    for (scene, said) in [
        (Scene::Unknown, "Stranger\n"),
        (Scene::UnknownSession, UNKNOWN_TO_A_SESSION),
    ] {
        let told = play(&rt, rt.alloc(), 1, 1, &Door::counting(), &scene)?;
        assert!(rt; told.is(said, [0].as_slice(), 0), "{told:?}");
    }
    Ok(())
}

#[test]
fn a_pool_takes_one_job_of_a_tenant_at_a_time(rt: HostRuntime) -> Result<(), Fail> {
    let door = Door::behind(0);
    let told = play(&rt, rt.alloc(), 1, 2, &door, &Scene::Twice)?;
    assert!(rt;
        told.is("2 5 [7, 8, 3]\nStranger\n", [5].as_slice(), 5),
        "{told:?}"
    );
    assert_eq!(rt; door.by_task(), ([4, 1, 1, 0], [0; 4]));
    Ok(())
}

/// Two tasks that may run side by side.
const SIDE_BY_SIDE: &str =
    r#"[["task",[["out",["a",0,1]]],[["set",["c","a",0],4]]],["task",[["out",["a",1,1]]],[["set",["c","a",1],5]]]]"#;

/// Both tasks' pieces stand at the door together, for which two workers have to be awake. One of them slept while
/// the first piece of the root, behind which there is work for two, was held.
#[test]
fn a_worker_that_sleeps_is_told_of_a_piece_beside_that_of_another(
    rt: HostRuntime,
) -> Result<(), Fail> {
    let door = Door::gathering(2);
    let told = play(&rt, rt.alloc(), 1, 2, &door, &Scene::Asleep(SIDE_BY_SIDE))?;
    assert!(rt; !door.gave_up(), "{told:?}");
    assert!(rt;
        told.is("2 4 [4, 5, 3]\ntrue\n", [4].as_slice(), 4),
        "{told:?}"
    );
    assert_eq!(rt; door.by_task(), ([3, 1, 1, 0], [0; 4]));
    Ok(())
}

/// Sixteen tasks that may run side by side.
const SIXTEEN: &str = r#"[["for","i",0,16,[["task",[],[]]]]]"#;

/// The pieces of all tasks stand at the door together, for which each worker has to hold one of them.
#[test]
fn sixteen_workers_hold_sixteen_pieces_together(rt: HostRuntime) -> Result<(), Fail> {
    let door = Door::gathering(16);
    let told = play(&rt, rt.alloc(), 1, 16, &door, &Scene::Asleep(SIXTEEN))?;
    assert!(rt; !door.gave_up(), "{told:?}");
    assert!(rt;
        told.is("16 16 [1, 2, 3]\ntrue\n", [16].as_slice(), 16),
        "{told:?}"
    );
    assert_eq!(rt; door.by_task(), ([17, 1, 1, 14], [0; 4]));
    Ok(())
}

/// Whether this was told to a client whose job may have been refused memory. Where its thread or the other's was, the
/// other may come too late to see it asleep.
fn is_told_asleep(told: &Told) -> bool {
    match told.said.as_str() {
        "2 5 [7, 8, 3]\ntrue\n" | "2 5 [7, 8, 3]\nfalse\n" => told.usage.total == 5,
        "Memory\ntrue\n" | "Memory\nfalse\n" => told.usage.total <= 5,
        _ => false,
    }
}

/// It passes whichever allocation fails, and prints a line where one did: a client that sleeps while its job is
/// refused memory is answered.
#[test]
fn a_client_that_sleeps_is_answered_where_its_job_has_no_memory(rt: HostRuntime) {
    let door = Door::behind(0);
    let scene = Scene::Asleep(READ_AFTER_WRITE);
    let Ok(told) = play(&rt, rt.alloc(), 1, 1, &door, &scene) else {
        let _ = println!(rt; "memory was refused");
        return;
    };
    assert!(rt; is_told_asleep(&told), "{told:?}");
    if told.said.as_str() != "2 5 [7, 8, 3]\ntrue\n" {
        let _ = println!(rt;
            "memory was refused behind {:?} pieces: {told:?}",
            door.by_task()
        );
    }
}

/// Whether this was told, though a tenant may have been refused memory: the other is told what its job
/// means then, and all units that were settled are counted.
fn is_told_without_memory(told: &Told) -> bool {
    let usage = &told.usage;
    let (of_first, of_second) = match usage.by_tenant.as_slice() {
        [first, second] => (*first, *second),
        _ => return false,
    };
    let said = match told.said.as_str() {
        BESIDE_BY_CLIENTS => (of_first, of_second) == (5, 7),
        "Memory\n3 7 [4, 5, 9]\n" => of_first <= 5 && of_second == 7,
        "2 5 [7, 8, 3]\nMemory\n" => of_first == 5 && of_second <= 7,
        _ => false,
    };
    said && of_first.checked_add(of_second) == Some(usage.total)
}

/// It passes whichever allocation fails, and prints a line where one did.
#[test]
fn a_job_without_memory_leaves_the_other_as_it_is(rt: HostRuntime) {
    let door = Door::counting();
    match play(&rt, rt.alloc(), 2, 2, &door, &Scene::Beside(By::Client)) {
        Ok(told) => {
            assert!(rt; is_told_without_memory(&told), "{told:?}");
            if told.said.as_str() != BESIDE_BY_CLIENTS {
                let _ = println!(rt;
                    "memory was refused behind {:?} pieces: {told:?}",
                    door.by_task()
                );
            }
        }
        Err(_) => {
            let _ = println!(rt; "memory was refused");
        }
    }
}
