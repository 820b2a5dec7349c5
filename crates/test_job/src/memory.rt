//! Jobs for which memory is refused once.
use super::choosers::Ends;
use super::driving::{Move, Width, give_up, next_move, told};
use super::three::ThreeCells;
use super::unchanged::are_alike;
use ot_job::{Job, Piece, Refused, State};
use ot_program::ProgramFault;
use std::alloc::{AllocError, Global};
use test_reading::job_of;

/// A job, and whether memory was refused for it.
#[derive(Drop)]
struct Watched {
    job: ThreeCells,
    refused: bool,
}

impl Watched {
    /// How many tasks are claimable, the weight, what the cells hold and are worth, and the whole job.
    fn show(&self, alloc: Global) -> Result<String, AllocError> {
        let (claimable, weight) = (self.job.claimable(), self.job.weight());
        let (stored, worth) = (self.job.stored(), self.job.worth());
        format!(in alloc; "{claimable} {weight} {stored:?} {worth:?} {:?}", self.job)
    }

    /// The same, asked for once more where memory is refused.
    fn shown(&mut self, alloc: Global) -> Result<String, AllocError> {
        match self.show(alloc) {
            Ok(text) => Ok(text),
            Err(_) => {
                self.refused = true;
                self.show(alloc)
            }
        }
    }

    /// Whether it shows the same, but for its tables.
    fn is_still(&mut self, alloc: Global, before: &str) -> bool {
        match self.shown(alloc) {
            Ok(now) => are_alike(now.as_str(), before),
            Err(_) => false,
        }
    }

    /// Makes room for one more piece that is out.
    fn make_room(&mut self, out: &mut Vec<Piece>) -> Result<(), AllocError> {
        if out.reserve(1).is_err() {
            self.refused = true;
            out.reserve(1)?;
        }
        Ok(())
    }

    /// Claims a piece: whether one came. A claim for which memory is refused is to change nothing, and
    /// the same call again is to go on.
    fn claim(
        &mut self,
        alloc: Global,
        out: &mut Vec<Piece>,
        pick: usize,
        taker: usize,
    ) -> Result<bool, AllocError> {
        let worker = (taker % 16) as u32 + 1;
        self.make_room(out)?;
        let before = self.shown(alloc)?;
        let piece = match self.job.claim(alloc, pick, worker) {
            Ok(piece) => piece,
            Err(_) => {
                self.refused = true;
                if !self.is_still(alloc, before.as_str()) {
                    return Ok(false);
                }
                self.job.claim(alloc, pick, worker)?
            }
        };
        match piece {
            Some(piece) => {
                if out.len() < out.capacity() {
                    out.push_reserved(piece);
                    return Ok(true);
                }
                self.job.fail(piece.run());
                Ok(false)
            }
            None => Ok(false),
        }
    }

    /// The same of a settle.
    fn settle(
        &mut self,
        alloc: Global,
        out: &mut Vec<Piece>,
        place: usize,
    ) -> Result<bool, AllocError> {
        let before = self.shown(alloc)?;
        if place >= out.len() {
            return Ok(false);
        }
        let piece = out.remove(place);
        let done = match self.job.settle(alloc, piece.run()) {
            Ok(_) => return Ok(true),
            Err((done, Refused::Memory)) => done,
            Err((done, _)) => {
                self.job.fail(done);
                return Ok(false);
            }
        };
        self.refused = true;
        let still = self.is_still(alloc, before.as_str());
        match self.job.settle(alloc, done) {
            Ok(_) => Ok(still),
            Err((done, _)) => {
                self.job.fail(done);
                Ok(false)
            }
        }
    }

    /// Runs the job to its end, with as many pieces out as can be claimed: whether each call went right.
    fn drive(&mut self, alloc: Global, out: &mut Vec<Piece>) -> Result<bool, AllocError> {
        for _ in 0..1000_u32 {
            let (claimable, out_now) = (self.job.claimable(), out.len());
            let right = match next_move(&mut Ends::Last, Width::All, claimable, out_now)? {
                None => return Ok(true),
                Some(Move::Claim(pick, taker)) => self.claim(alloc, out, pick, taker)?,
                Some(Move::Settle(place)) => self.settle(alloc, out, place)?,
            };
            if !right {
                return Ok(false);
            }
        }
        Ok(false)
    }
}

/// A job that begins. Where memory is refused, it begins by the same call again.
fn started(alloc: Global, body: &str) -> Result<Watched, ProgramFault> {
    match ThreeCells::start(alloc, job_of(alloc, 1, body)?) {
        Ok(job) => Ok(Watched {
            job,
            refused: false,
        }),
        Err((spec, _)) => match ThreeCells::start(alloc, spec) {
            Ok(job) => Ok(Watched { job, refused: true }),
            Err(_) => Err(ProgramFault::Memory),
        },
    }
}

/// What a job leaves, where it has ended.
fn left(alloc: Global, job: Job) -> Result<String, AllocError> {
    if job.state() != State::Ended {
        return Err(AllocError);
    }
    let outcome = job.into_outcome();
    match told(alloc, &outcome) {
        Ok(text) => Ok(text),
        Err(_) => told(alloc, &outcome),
    }
}

/// What the job of a body leaves, if each call went right, and whether memory was refused for it.
fn run_watched(alloc: Global, body: &str) -> Result<(Option<String>, bool), ProgramFault> {
    let mut watched = started(alloc, body)?;
    let mut out = Vec::new(alloc);
    let driven = watched.drive(alloc, &mut out);
    let Watched { job, refused } = watched;
    let mut job = job.into_job();
    give_up(&mut job, out);
    match driven {
        Ok(true) => Ok((left(alloc, job).ok(), refused)),
        _ => Ok((None, refused)),
    }
}

/// A reduction, tasks in a task, a task that adds to the cells of two groups, one that folds those of two groups by two
/// operations, and adders in an adder: what they leave.
const BODIES: [(&str, &str); 5] = [
    (
        r#"[["group",[["a",0,1]],[["task",[["red",["a",0,1]]],[["add",["c","a",0],18446744073709551615]]],["task",[["red",["a",0,1]]],[["add",["c","a",0],1]]],["task",[["red",["a",0,1]]],[["add",["c","a",0],5]]]]]]"#,
        "3 7 [6, 2, 3]",
    ),
    (
        r#"[["task",[["inout",["a",0,3]]],[["task",[["out",["a",0,1]]],[["set",["c","a",0],4]]],["task",[["out",["a",1,1]]],[["set",["c","a",1],5]]],["wait"],["set",["c","a",2],["+",["c","a",0],["c","a",1]]]]]]"#,
        "3 7 [4, 5, 9]",
    ),
    (
        r#"[["group",[["a",0,1]],[["group",[["a",1,1]],[["task",[["red",["a",0,2]]],[["add",["c","a",0],4],["add",["c","a",1],5]]]]]]]]"#,
        "1 5 [5, 7, 3]",
    ),
    (
        r#"program2 [["group","max",[["a",0,1]],[["group","*",[["a",1,1]],[["task",[["red","max",["a",0,1]],["red","*",["a",1,1]]],[["fold","max",["c","a",0],4],["fold","*",["c","a",1],5]]]]]]]]"#,
        "1 5 [4, 10, 3]",
    ),
    (
        r#"[["group",[["a",0,1]],[["task",[["red",["a",0,1]]],[["task",[["red",["a",0,1]]],[["add",["c","a",0],4]]],["add",["c","a",0],3],["wait"]]]]]]"#,
        "2 6 [8, 2, 3]",
    ),
];

/// It passes whichever allocation fails, and prints a line where one did.
#[test]
fn a_refused_claim_or_settle_changes_nothing_and_goes_on(rt: HostRuntime) {
    for (body, gives) in BODIES {
        match run_watched(rt.alloc(), body) {
            Ok((said, refused)) => {
                assert!(rt; said.is_some_and(|said| said.as_str() == gives), "{body}");
                if refused {
                    let _ = println!(rt; "memory was refused");
                }
            }
            Err(fault) => {
                assert_eq!(rt; fault, ProgramFault::Memory);
                let _ = println!(rt; "memory was refused");
            }
        }
    }
}
