//! Runs of a job: which piece is claimed next, and which comes back.
use super::choosers::Choose;
use ot_check::{JobSpec, Outcome};
use ot_job::{Job, Piece, Refused, State};
use std::alloc::{AllocError, Global};

/// Which moves there are where some tasks are claimable and some pieces are out.
#[derive(Clone, Copy, Debug)]
pub(crate) enum Width {
    /// One piece is out at a time.
    One,
    /// As many are out as can be claimed.
    All,
    /// Each claim and each settle is a move.
    Any,
}

/// A claim of the task at this place among the claimable ones by one of 16 workers, whose number counts from
/// 0, or a settle of the piece at this place among those that are out.
pub(crate) enum Move {
    Claim(usize, usize),
    Settle(usize),
}

/// The next move, if there is one.
pub(crate) fn next_move<C: Choose>(
    chooser: &mut C,
    width: Width,
    claimable: usize,
    out: usize,
) -> Result<Option<Move>, AllocError> {
    let (claims, settles) = match width {
        Width::One if out > 0 => (0, out),
        Width::All if claimable > 0 => (claimable, 0),
        _ => (claimable, out),
    };
    let moves = claims.saturating_add(settles);
    if moves == 0 {
        return Ok(None);
    }
    let chosen = chooser.choose(moves)?;
    if chosen < claims {
        Ok(Some(Move::Claim(chosen, chooser.taker(out)?)))
    } else {
        Ok(Some(Move::Settle(chosen - claims)))
    }
}

/// Claims a piece, which is out from now on.
fn claim(
    alloc: Global,
    job: &mut Job,
    out: &mut Vec<Piece>,
    pick: usize,
    taker: usize,
) -> Result<(), AllocError> {
    out.reserve(1)?;
    let worker = (taker % 16) as u32 + 1;
    if let Some(piece) = job.claim(alloc, pick, worker)? {
        out.push_reserved(piece);
    }
    Ok(())
}

/// Runs a piece that is out and settles it: its units. A job that refuses it fails.
fn settle(
    alloc: Global,
    job: &mut Job,
    out: &mut Vec<Piece>,
    place: usize,
) -> Result<u32, AllocError> {
    if place >= out.len() {
        return Ok(0);
    }
    let piece = out.remove(place);
    match job.settle(alloc, piece.run()) {
        Ok(units) => Ok(units),
        Err((done, refused)) => {
            job.fail(done);
            match refused {
                Refused::Memory => Err(AllocError),
                _ => Ok(0),
            }
        }
    }
}

/// Makes moves until there are none: the units of all settles.
fn drive<C: Choose>(
    alloc: Global,
    job: &mut Job,
    out: &mut Vec<Piece>,
    chooser: &mut C,
    width: Width,
) -> Result<u32, AllocError> {
    let mut units: u32 = 0;
    for _ in 0..1_000_000_u32 {
        match next_move(chooser, width, job.claimable(), out.len())? {
            None => return Ok(units),
            Some(Move::Claim(pick, taker)) => claim(alloc, job, out, pick, taker)?,
            Some(Move::Settle(place)) => {
                units = units.saturating_add(settle(alloc, job, out, place)?);
            }
        }
    }
    Ok(units)
}

/// Ends the rights of the pieces that are out, where there are any.
pub(crate) fn give_up(job: &mut Job, mut out: Vec<Piece>) {
    while let Some(piece) = out.pop() {
        job.fail(piece.run());
    }
    out.destroy_empty();
}

/// What a job leaves that has ended: the executed tasks, the units and the first six cells.
pub(crate) fn told(alloc: Global, outcome: &Outcome) -> Result<String, AllocError> {
    let (tasks, units) = (outcome.counts.tasks, outcome.counts.units);
    let cells = match outcome.cells.arrays() {
        [array] => array.as_slice(),
        _ => &[],
    };
    format!(in alloc; "{tasks} {units} {:?}", cells.get(..6).unwrap_or(cells))
}

/// What is left of a job that was settled with so many units.
fn left(alloc: Global, job: Job, units: u32) -> Result<String, AllocError> {
    match job.state() {
        State::Ended => {
            let outcome = job.into_outcome();
            if outcome.counts.units == units {
                told(alloc, &outcome)
            } else {
                format!(in alloc; "{units} units settled")
            }
        }
        state => format!(in alloc; "{state:?}"),
    }
}

/// Runs a job to its end that no piece is out of, and that was settled with so many units: what it leaves.
pub(crate) fn finish<C: Choose>(
    alloc: Global,
    mut job: Job,
    settled: u32,
    chooser: &mut C,
    width: Width,
) -> Result<String, AllocError> {
    let mut out = Vec::new(alloc);
    let driven = drive(alloc, &mut job, &mut out, chooser, width);
    give_up(&mut job, out);
    left(alloc, job, settled.saturating_add(driven?))
}

/// Runs a job from its beginning.
pub(crate) fn run<C: Choose>(
    alloc: Global,
    spec: JobSpec,
    chooser: &mut C,
    width: Width,
) -> Result<String, AllocError> {
    match Job::start(alloc, spec) {
        Ok(job) => finish(alloc, job, 0, chooser, width),
        Err((_, error)) => Err(error),
    }
}
