//! Pieces that are offered to another job, and jobs that fail.
use super::choosers::Ends;
use super::driving::{Width, finish, give_up};
use ot_check::JobSpec;
use ot_job::{Done, Job, Piece, Refused, State};
use ot_program::ProgramFault;
use std::alloc::{AllocError, Global};
use test_reading::job_of;

/// Its second task reads what the first writes.
const TWO_TASKS: &str =
    r#"[["task",[["out",["a",0,1]]],[["set",["c","a",0],7]]],["task",[["in",["a",0,1]],["out",["a",1,1]]],[["set",["c","a",1],["+",["c","a",0],1]]]],["wait"]]"#;

const SET: &str = r#"[["set",["c","a",1],["c","a",0]]]"#;

/// It touches the same cells in another way.
const OTHER_SET: &str = r#"[["set",["c","a",1],["+",["c","a",0],0]]]"#;

const IF: &str = r#"[["if",["c","a",0],[],[]]]"#;

/// It reads the same cell in another way.
const OTHER_IF: &str = r#"[["if",["+",["c","a",0],0],[],[]]]"#;

/// Offers a piece to a job: its units, or why it is refused. The job fails it then.
fn offer(alloc: Global, job: &mut Job, done: Done) -> Result<u32, Refused> {
    match job.settle(alloc, done) {
        Ok(units) => Ok(units),
        Err((done, refused)) => {
            job.fail(done);
            Err(refused)
        }
    }
}

/// A job of a body over this number, 2, 3, of which so many pieces were settled one by one, that of the
/// first claimable task each time.
fn begun(alloc: Global, first: u64, body: &str, pieces: u32) -> Result<Job, ProgramFault> {
    let spec = job_of(alloc, first, body)?;
    let mut job = match Job::start(alloc, spec) {
        Ok(job) => job,
        Err(_) => return Err(ProgramFault::Memory),
    };
    for _ in 0..pieces {
        if let Some(piece) = job.claim(alloc, 0, 1)? {
            let _ = offer(alloc, &mut job, piece.run());
        }
    }
    Ok(job)
}

/// The piece of the first claimable task.
fn first_piece(alloc: Global, job: &mut Job) -> Result<Piece, AllocError> {
    match job.claim(alloc, 0, 1)? {
        Some(piece) => Ok(piece),
        None => Err(AllocError),
    }
}

/// Two jobs that read the same in their second task, though they began with other cells, settle each
/// other's piece of it: the units, and what they leave.
fn exchanged(alloc: Global) -> Result<String, ProgramFault> {
    let mut one = begun(alloc, 1, TWO_TASKS, 4)?;
    let mut other = begun(alloc, 4, TWO_TASKS, 4)?;
    let units = exchange(alloc, &mut one, &mut other)?;
    let one = finish(alloc, one, 5, &mut Ends::First, Width::One)?;
    let other = finish(alloc, other, 5, &mut Ends::First, Width::One)?;
    Ok(format!(in alloc; "{units:?} {one} {other}")?)
}

fn exchange(
    alloc: Global,
    one: &mut Job,
    other: &mut Job,
) -> Result<[Result<u32, Refused>; 2], AllocError> {
    let of_one = first_piece(alloc, one)?;
    let of_other = match first_piece(alloc, other) {
        Ok(piece) => piece,
        Err(error) => {
            one.fail(of_one.run());
            return Err(error);
        }
    };
    let to_other = offer(alloc, other, of_one.run());
    let to_one = offer(alloc, one, of_other.run());
    Ok([to_other, to_one])
}

/// Offers a piece to a job that refuses it: why, whether the job is as before then and when it has
/// failed the piece, and where it stands.
fn refused(alloc: Global, job: &mut Job, done: Done) -> Result<String, AllocError> {
    let before = format!(in alloc; "{job:?}");
    let (done, why) = match job.settle(alloc, done) {
        Ok(units) => return format!(in alloc; "{units} units"),
        Err(refused) => refused,
    };
    let settled = format!(in alloc; "{job:?}");
    job.fail(done);
    let before = before?;
    let same_then = settled?.as_str() == before.as_str();
    let failed = format!(in alloc; "{job:?}")?;
    let same_now = failed.as_str() == before.as_str();
    format!(in alloc; "{why:?} {same_then} {same_now} {:?}", job.state())
}

/// Offers the next piece of one job to another that has its own next piece out, which is settled behind.
fn refused_beside(alloc: Global, one: &mut Job, other: &mut Job) -> Result<String, AllocError> {
    let foreign = first_piece(alloc, one)?;
    let own = match first_piece(alloc, other) {
        Ok(piece) => piece,
        Err(error) => {
            one.fail(foreign.run());
            return Err(error);
        }
    };
    let told = refused(alloc, other, foreign.run());
    let units = offer(alloc, other, own.run());
    format!(in alloc; "{} {units:?}", told?)
}

/// The same of the jobs of two bodies at their beginning, over these numbers, 2, 3.
fn refused_of(alloc: Global, bodies: [&str; 2], firsts: [u64; 2]) -> Result<String, ProgramFault> {
    let [body, other_body] = bodies;
    let [first, other_first] = firsts;
    let mut one = begun(alloc, first, body, 0)?;
    let mut other = begun(alloc, other_first, other_body, 0)?;
    Ok(refused_beside(alloc, &mut one, &mut other)?)
}

/// Offers the next piece of a job of this body to a job of one set that has no piece out.
fn refused_of_none(alloc: Global, body: &str, pieces: [u32; 2]) -> Result<String, ProgramFault> {
    let [of_body, of_set] = pieces;
    let mut one = begun(alloc, 1, body, of_body)?;
    let mut other = begun(alloc, 1, SET, of_set)?;
    let piece = first_piece(alloc, &mut one)?;
    Ok(refused(alloc, &mut other, piece.run())?)
}

fn abort(job: &mut Job) {
    if job.state() == State::Working {
        job.abort();
    }
}

/// Offers a job its own piece, once it was aborted.
fn aborted(alloc: Global) -> Result<String, ProgramFault> {
    let mut job = begun(alloc, 1, SET, 0)?;
    let piece = first_piece(alloc, &mut job)?;
    abort(&mut job);
    Ok(refused(alloc, &mut job, piece.run())?)
}

/// Where a job stands, how many tasks are claimable, and whether it hands its spec back as it was.
fn stands(alloc: Global, job: Job, spec: &JobSpec) -> Result<String, AllocError> {
    let (state, claimable) = (job.state(), job.claimable());
    let same = match state {
        State::Failed => Some(job.into_spec().same_as(spec)),
        _ => None,
    };
    format!(in alloc; "{state:?} {claimable} {same:?}")
}

/// Aborts a job of two tasks that has so many pieces out, and fails them one after the other: how it
/// stands then each time.
fn aborted_with(alloc: Global, pieces: u32) -> Result<String, ProgramFault> {
    let spec = job_of(alloc, 1, TWO_TASKS)?;
    let mut job = begun(alloc, 1, TWO_TASKS, 2)?;
    let mut out = Vec::new(alloc);
    let claimed = claim_all(alloc, &mut job, &mut out, pieces);
    abort(&mut job);
    let state = job.state();
    let piece = out.pop();
    if let Some(piece) = piece {
        job.fail(piece.run());
    }
    let then = job.state();
    give_up(&mut job, out);
    claimed?;
    let told = stands(alloc, job, &spec)?;
    Ok(format!(in alloc; "{state:?} {then:?} {told}")?)
}

/// Claims so many pieces.
fn claim_all(
    alloc: Global,
    job: &mut Job,
    out: &mut Vec<Piece>,
    pieces: u32,
) -> Result<(), AllocError> {
    for _ in 0..pieces {
        out.reserve(1)?;
        let piece = first_piece(alloc, job)?;
        out.push_reserved(piece);
    }
    Ok(())
}

/// Fails a piece of a working job: whether another can be claimed, and how it stands then.
fn failed(alloc: Global) -> Result<String, ProgramFault> {
    let spec = job_of(alloc, 1, TWO_TASKS)?;
    let mut job = begun(alloc, 1, TWO_TASKS, 2)?;
    let piece = first_piece(alloc, &mut job)?;
    job.fail(piece.run());
    Ok(stands(alloc, job, &spec)?)
}

const KINDS: &str = "pieces of jobs that agree gives [Ok(1), Ok(1)] 2 5 [7, 8, 3] 2 5 [7, 8, 3]
other inputs gives Stranger true true Working Ok(1)
the same inputs gives 1 units Err(Stranger)
another set gives Stranger true true Working Ok(1)
another condition gives Stranger true true Working Ok(1)
no piece out gives Stranger true true Working
no such task gives Stranger true true Working
an ended job gives Stranger true true Ended
its own once aborted gives Failing true false Failed
aborted with none out gives Failed Failed Failed 0 Some(true)
aborted with one out gives Failing Failed Failed 0 Some(true)
aborted with two out gives Failing Failing Failed 0 Some(true)
a piece that fails gives Failed 0 Some(true)";

/// What comes of this.
fn told(alloc: Global, kind: &str) -> Result<String, ProgramFault> {
    match kind {
        "pieces of jobs that agree" => exchanged(alloc),
        "other inputs" => refused_of(alloc, [SET, SET], [1, 4]),
        "the same inputs" => refused_of(alloc, [SET, SET], [1, 1]),
        "another set" => refused_of(alloc, [OTHER_SET, SET], [1, 1]),
        "another condition" => refused_of(alloc, [OTHER_IF, IF], [1, 1]),
        "no piece out" => refused_of_none(alloc, SET, [0, 0]),
        "no such task" => refused_of_none(alloc, TWO_TASKS, [4, 0]),
        "an ended job" => refused_of_none(alloc, SET, [0, 1]),
        "its own once aborted" => aborted(alloc),
        "aborted with none out" => aborted_with(alloc, 0),
        "aborted with one out" => aborted_with(alloc, 1),
        "aborted with two out" => aborted_with(alloc, 2),
        _ => failed(alloc),
    }
}

fn is_right(alloc: Global, row: &str) -> bool {
    let Some((kind, gives)) = row.split_once(" gives ") else {
        return false;
    };
    match told(alloc, kind) {
        Ok(said) => said.as_str() == gives,
        Err(_) => false,
    }
}

/// The first row that something else comes of.
fn first_other(alloc: Global) -> Option<&'static str> {
    for row in KINDS.lines() {
        if !is_right(alloc, row) {
            return Some(row);
        }
    }
    None
}

#[test]
fn what_comes_of_foreign_and_failed_pieces(rt: HostRuntime) {
    assert_eq!(rt; first_other(rt.alloc()), None);
}
