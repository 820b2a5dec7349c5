//! What a task costs on the pool, by shapes of jobs: scripts/pool_bench measures by it.
ghost use Rattle.std.specs.Prelude.{◌≡◌, ◌≤◌};

use super::crowd::{Crowd, Known};
use super::play::play_crowd;
use super::shapes::{SIZES, Shape};
use ot_book::NotDone;
use ot_check::JobSpec;
use ot_pool::{Claimed, Hub};
use ot_program::ProgramFault;
use std::alloc::Global;
use std::env;
use std::marker::Brand;
use std::sync::Wait;
use std::sync::ledger::{Blank, Ledger};
use std::test::Fail;
use std::thread::Threads;
use std::time::{Clock, Duration, Instant};

/// What one job takes where one thread takes all turns, with no lock and nobody beside it.
#[derive(Clone, Copy)]
struct Alone {
    pieces: u32,
    /// All turns: the submit, a claim and a settle for each piece, and the collect.
    turns: Duration,
    /// The runs of all pieces.
    runs: Duration,
}

/// What reading the clock takes.
fn clock_cost(rt: &impl Clock) -> Option<Duration> {
    let begun = Instant::now(rt).ok()?;
    for _ in 0..1000_u32 {
        let _ = Instant::now(rt).ok()?;
    }
    begun.elapsed(rt).ok()?.checked_div(1000)
}

fn drive<R: Clock>(rt: &R, alloc: Global, spec: &JobSpec) -> Option<Alone> {
    drive_on::<Brand, R>(rt, alloc, Blank::new(1), spec)
}

fn drive_on<L: Ledger, R: Clock>(
    rt: &R,
    alloc: Global,
    blank: Blank,
    spec: &JobSpec,
) -> Option<Alone>
    requires name { blank.name ≡ L.name }
    requires parts { (blank.parts ≡ L.parts) × (blank.parts ≡ 1) }
{
    let cost = clock_cost(rt)?;
    let (book, mut share) = blank.open::<L>();
    let mut hub = Hub::new(alloc, 1, book).ok()?;
    let copied = spec.copy(alloc).ok()?;
    let (mut pieces, mut measured) = (0u32, Duration::from_nanos(0));
    let begun = Instant::now(rt).ok()?;
    hub.submit(alloc, 0, copied).ok()?;
    for _ in 0..100_000_u32 {
        let (tenant, piece) = match hub.claim(alloc, u64::from(pieces), 1) {
            Claimed::Got(tenant, piece) => (tenant, piece),
            Claimed::Idle | Claimed::Aborted(_) | Claimed::Closed => break,
        };
        let before = Instant::now(rt);
        let done = piece.run();
        let after = Instant::now(rt);
        let _ = hub.settle(alloc, tenant, done, &mut share);
        pieces = pieces.saturating_add(1);
        measured = measured.saturating_add(after.ok()?.duration_since(before.ok()?));
    }
    let is_over = hub.collect(0, spec).is_some_and(|answer| answer.is_ok());
    let all = begun.elapsed(rt).ok()?;
    let reading = cost.saturating_mul(pieces);
    is_over.then_some(Alone {
        pieces,
        turns: all.saturating_sub(measured).saturating_sub(reading),
        runs: measured.saturating_sub(reading),
    })
}

/// What one of so many jobs takes on a pool of so many workers, the least of five times.
fn least<R: Threads + Wait + Sync + Clock>(
    rt: &R,
    alloc: Global,
    workers: u32,
    times: u32,
    crowd: &Crowd,
) -> Option<Duration>
    requires { (1 ≤ workers) × (workers ≤ 16) }
{
    let mut least: Option<Duration> = None;
    for _ in 0..5_u32 {
        let begun = Instant::now(rt).ok()?;
        let told = play_crowd(rt, alloc, 1, workers, crowd).ok()?;
        let taken = begun.elapsed(rt).ok()?.checked_div(times)?;
        if told.said.as_str() != "0 others\n" {
            return None;
        }
        least = match least {
            Some(before) if before <= taken => Some(before),
            _ => Some(taken),
        };
    }
    least
}

fn for_each_task(taken: Duration, tasks: u64) -> u128 {
    taken.as_nanos().checked_div(u128::from(tasks)).unwrap_or(0)
}

fn percent(part: Duration, whole: Duration) -> u128 {
    let hundred = part.as_nanos().saturating_mul(100);
    hundred.checked_div(whole.as_nanos()).unwrap_or(0)
}

/// The row of a shape.
fn row<R: Threads + Wait + Sync + Clock>(
    rt: &R,
    alloc: Global,
    times: u32,
    spec: JobSpec,
) -> Option<String> {
    let alone = drive(rt, alloc, &spec)?;
    let job = Known::new(alloc, spec).ok()?;
    let tasks = job.tasks();
    let crowd = Crowd {
        clients: 1,
        asked: times,
        jobs: vec![in alloc; job].ok()?,
    };
    let mut text = format!(in alloc;
        "{:6} {:6} {:6}",
        alone.pieces,
        for_each_task(alone.runs, tasks),
        for_each_task(alone.turns, tasks)
    )
    .ok()?;
    for workers in [1, 2, 4] {
        let taken = least(rt, alloc, workers, times, &crowd)?;
        let column = format!(in alloc;
            " {:8} {:4}%",
            for_each_task(taken, tasks),
            percent(alone.turns, taken)
        )
        .ok()?;
        text.push_str(column.as_str()).ok()?;
    }
    Some(text)
}

/// The job of each shape ends, and its cells are as they should be, by 1, 2 and 4 workers: a small one of each, or,
/// where POOL_BENCH says how often each job is run, a large one, of which a row is printed.
#[test]
fn shapes_of_jobs(rt: HostRuntime) -> Result<(), Fail> {
    let asked = env::var(&rt, "POOL_BENCH");
    let [small, _, large] = SIZES;
    let (size, times) = match &asked {
        Ok(times) => (large, times.parse::<u32>().unwrap_or(1).max(1)),
        Err(_) => (small, 1),
    };
    let alloc = rt.alloc();
    for shape in Shape::ALL {
        let text = row(&rt, alloc, times, shape.job(alloc, size)?).ok_or("not right")?;
        if asked.is_ok() {
            println!(rt; "{:36} {text}", shape.name())?;
        }
    }
    Ok(())
}
