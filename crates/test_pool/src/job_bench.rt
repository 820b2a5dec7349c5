//! What a task costs where one thread claims, runs and settles the pieces of a job one after another, by shapes of
//! jobs: scripts/job_bench measures by it.
use super::shapes::{SIZES, Shape, wide};
use ot_check::JobSpec;
use ot_job::{Job, State};
use std::alloc::Global;
use std::env;
use std::test::Fail;
use std::time::{Clock, Duration, Instant};

/// How often each job is run. The least counts.
const RUNS: u32 = 7;

/// What a job takes.
#[derive(Clone, Copy)]
struct Taken {
    /// Its start.
    start: Duration,
    /// All claims, runs and settles.
    run: Duration,
}

/// Runs a job to its end: whether it has ended.
fn run(alloc: Global, job: &mut Job) -> bool {
    for _ in 0..100_000_u32 {
        let Ok(Some(piece)) = job.claim(alloc, 0, 1) else {
            break;
        };
        if let Err((done, _)) = job.settle(alloc, piece.run()) {
            job.fail(done);
        }
    }
    job.state() == State::Ended
}

/// Runs the job of a spec once.
fn once<R: Clock>(rt: &R, alloc: Global, spec: &JobSpec) -> Option<Taken> {
    let copied = spec.copy(alloc).ok()?;
    let begun = Instant::now(rt).ok()?;
    let mut job = Job::start(alloc, copied).ok()?;
    let started = Instant::now(rt).ok()?;
    let has_ended = run(alloc, &mut job);
    let ended = Instant::now(rt).ok()?;
    has_ended.then_some(Taken {
        start: started.duration_since(begun),
        run: ended.duration_since(started),
    })
}

/// The least that the job of a spec takes.
fn least<R: Clock>(rt: &R, alloc: Global, spec: &JobSpec) -> Option<Taken> {
    let mut least = once(rt, alloc, spec)?;
    for _ in 1..RUNS {
        let Taken { start, run } = once(rt, alloc, spec)?;
        least = Taken {
            start: least.start.min(start),
            run: least.run.min(run),
        };
    }
    Some(least)
}

/// The nanoseconds for a task of a shape, at each size.
fn row<R: Clock>(rt: &R, alloc: Global, shape: Shape) -> Result<String, Fail> {
    let mut text = format!(in alloc; "{:36}", shape.name())?;
    for size in SIZES {
        let spec = shape.job(alloc, size)?;
        let taken = least(rt, alloc, &spec).ok_or("not measured")?;
        let for_each = taken.run.as_nanos().checked_div(u128::from(size.tasks));
        let column = format!(in alloc; " {:8}", for_each.unwrap_or(0))?;
        text.push_str(column.as_str())?;
    }
    Ok(text)
}

/// The job of each shape ends where its pieces are settled one after another: a small one of each, or, where JOB_BENCH
/// is set, one of each size, of which a row is printed.
#[test]
fn shapes_of_jobs(rt: HostRuntime) -> Result<(), Fail> {
    let alloc = rt.alloc();
    if env::var(&rt, "JOB_BENCH").is_err() {
        let [small, _, _] = SIZES;
        for shape in Shape::ALL {
            let spec = shape.job(alloc, small)?;
            let _ = once(&rt, alloc, &spec).ok_or("not ended")?;
        }
        return Ok(());
    }
    for shape in Shape::ALL {
        let text = row(&rt, alloc, shape)?;
        println!(rt; "{text}")?;
    }
    let taken = least(&rt, alloc, &wide(alloc)?).ok_or("not measured")?;
    println!(rt;
        "16 tasks of 65,536 cells: {} ms to start, {} ms for all claims, runs and settles",
        taken.start.as_millis(),
        taken.run.as_millis()
    )?;
    Ok(())
}
