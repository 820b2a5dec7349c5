//! The weight of a job.
use ot_job::Job;
use ot_program::ProgramFault;
use std::alloc::Global;
use test_reading::job_of;

/// Tasks in a task, of seven statements. They take eight pieces.
const NESTED: &str =
    r#"[["task",[["inout",["a",0,3]]],[["task",[["out",["a",0,1]]],[["set",["c","a",0],4]]],["task",[["out",["a",1,1]]],[["set",["c","a",1],5]]],["wait"],["set",["c","a",2],["+",["c","a",0],["c","a",1]]]]]]"#;

/// The weight of the job of a body at its start.
fn weight_at_start(alloc: Global, body: &str) -> Result<u64, ProgramFault> {
    match Job::start(alloc, job_of(alloc, 1, body)?) {
        Ok(job) => Ok(job.weight()),
        Err(_) => Err(ProgramFault::Memory),
    }
}

#[test]
fn a_weight_is_at_least_the_pieces_and_within_its_bound(rt: HostRuntime) {
    let weight = weight_at_start(rt.alloc(), NESTED);
    assert!(rt; matches!(weight, Ok(8..=25)), "{weight:?}");
}
