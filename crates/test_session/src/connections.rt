//! Connections over memory, each with its greeting and its session over a client of a pool, and where the
//! books are behind them.
ghost use Rattle.std.specs.Prelude.{◌≡◌, ◌≤◌, vec_len, IfOk};
ghost use Rattle.std.specs.List.{All, sum_by};

use crate::books::desk_of;
use crate::door::Door;
use crate::fakes::{Dripping, Narrow};
use crate::sessions::{NO_JSON, blank_lines};
use ot_front::{Desk, serve_connection};
use ot_pool::{Pool, Staffed, Usage, close, staffed, totals};
use ot_session::{Reading, Writing};
use std::alloc::{AllocError, Global};
use std::marker::Brand;
use std::sync::Wait;
use std::sync::ledger::{Blank, Ledger, Share};
use std::test::Fail;
use std::thread;
use std::thread::Threads;

pub(crate) const GREETING: &str = "[\"hello\",\"t1\"]\n";

/// What is written on a connection on which this comes in.
pub(crate) fn connect<L: Ledger, R: Wait>(
    rt: &R,
    alloc: Global,
    pool: &Pool<L>,
    desk: &Desk,
    input: &str,
) -> Vec<u8> {
    let mut source = Reading::new(input.as_bytes());
    let mut sink = Writing::new(Vec::new(alloc));
    let _ = serve_connection(rt, alloc, pool, desk, &mut source, &mut sink);
    sink.into_inner()
}

/// Connections, one after another: what comes in, and what is written. The pool has `t1` alone, and nobody
/// runs jobs on it. A log takes four requests.
const IN_TURN: [(&str, &str); 11] = [
    (
        "[\"hello\",\"t2\"]\n[\"new\",\"a\",1]\n[\"bye\"]\n",
        "[\"hello\",\"t2\",1]\n[\"ok\",1]\n",
    ),
    ("[\"hello\",\"t2\"]\n[\"get\",", "[\"hello\",\"t2\",2]\n"),
    (
        "[\"hello\",\"t2\"]\n[\"run\",[\"program\",[],[[\"nonsense\"]]]]\n[\"run\",[\"program\",[],[]]]\n[\"list\"]\n",
        "[\"hello\",\"t2\",2]\n[\"err\",2,420]\n",
    ),
    (
        "[\"hello\",\"t2\"]\n[\"used\"]\n",
        "[\"hello\",\"t2\",3]\n[\"used\",3,0]\n",
    ),
    ("[\"hello\",\"zz\"]\n[\"list\"]\n", "[\"err\",0,404]\n"),
    ("[\"hello\",\"t1\"", ""),
    (
        "[\"hello\",\"t1\"]\n{}\n{}\n{}\n{}\n{}\n",
        "[\"hello\",\"t1\",1]\n[\"err\",1,411]\n[\"err\",2,411]\n[\"err\",3,411]\n[\"err\",4,411]\n[\"full\"]\n",
    ),
    ("[\"hello\",\"t1\"]\n[\"bye\"]\n", "[\"hello\",\"t1\",5]\n"),
    (
        "[\"hello\",\"t1\"]\n[\"list\"]\n",
        "[\"hello\",\"t1\",5]\n[\"full\"]\n",
    ),
    (
        "[\"hello\",\"t1\"]\n[\"checkpoint\"]\n{}\n[\"bye\"]\n",
        "[\"hello\",\"t1\",5]\n[\"ok\",5]\n[\"err\",6,411]\n",
    ),
    (
        "[\"hello\",\"t1\"]\n{}\n{}\n{}\n",
        "[\"hello\",\"t1\",7]\n[\"err\",7,411]\n[\"err\",8,411]\n[\"full\"]\n",
    ),
];

/// The place of the first connection on which something else is written.
fn first_other<R: Wait>(rt: &R, alloc: Global) -> Result<Option<usize>, Fail> {
    first_other_on::<Brand, R>(rt, alloc, Blank::new(1))
}

fn first_other_on<L: Ledger, R: Wait>(
    rt: &R,
    alloc: Global,
    blank: Blank,
) -> Result<Option<usize>, Fail>
    requires name { blank.name ≡ L.name }
    requires parts { (blank.parts ≡ L.parts) × (blank.parts ≡ 1) }
{
    let desk = desk_of(alloc, 4)?;
    let (pool, _) = Pool::<L>::new(alloc, 1, 1, blank)?;
    for (at, (input, told)) in IN_TURN.iter().enumerate() {
        if connect(rt, alloc, &pool, &desk, input).as_slice() != told.as_bytes() {
            return Ok(Some(at));
        }
    }
    Ok(None)
}

#[test]
fn a_book_comes_back_whatever_ends_its_session(rt: HostRuntime) -> Result<(), Fail> {
    assert_eq!(rt; first_other(&rt, rt.alloc())?, None);
    Ok(())
}

/// What comes in on a connection whose devices fail.
const BROKEN_INPUT: &str = "[\"hello\",\"t1\"]\n[\"new\",\"a\",1]\n[\"list\"]\n";

/// A connection of `t1`: after how many bytes a read of it fails, after how many a write does, what is written on
/// it, and what is told to the next greeting of `t1`.
const BROKEN: [(usize, usize, &str, &str); 8] = [
    (14, 99, "", "[\"hello\",\"t1\",1]\n"),
    (15, 99, "[\"hello\",\"t1\",1]\n", "[\"hello\",\"t1\",1]\n"),
    (20, 99, "[\"hello\",\"t1\",1]\n", "[\"hello\",\"t1\",1]\n"),
    (
        29,
        99,
        "[\"hello\",\"t1\",1]\n[\"ok\",1]\n",
        "[\"hello\",\"t1\",2]\n",
    ),
    (99, 16, "[\"hello\",\"t1\",1]", "[\"hello\",\"t1\",1]\n"),
    (99, 17, "[\"hello\",\"t1\",1]\n", "[\"hello\",\"t1\",2]\n"),
    (
        99,
        20,
        "[\"hello\",\"t1\",1]\n[\"o",
        "[\"hello\",\"t1\",2]\n",
    ),
    (
        99,
        26,
        "[\"hello\",\"t1\",1]\n[\"ok\",1]\n",
        "[\"hello\",\"t1\",3]\n",
    ),
];

/// What is written on a connection whose read fails after so many bytes, and whose write after so many.
fn connect_broken<L: Ledger, R: Wait>(
    rt: &R,
    alloc: Global,
    pool: &Pool<L>,
    desk: &Desk,
    left: usize,
    may_take: usize,
) -> Vec<u8> {
    let mut source = Reading::new(Dripping {
        left,
        fails: true,
        ..Dripping::whole(BROKEN_INPUT.as_bytes(), 99)
    });
    let mut sink = Narrow {
        taken: Vec::new(alloc),
        may_take,
        failures: 0,
    };
    let _ = serve_connection(rt, alloc, pool, desk, &mut source, &mut sink);
    sink.taken
}

/// Whether the book is back behind a connection of `t1` that gives 17 lines of 60,000 spaces byte by byte, of which
/// a million reads hear 16.
fn comes_back_behind_a_million_reads<L: Ledger, R: Wait>(
    rt: &R,
    alloc: Global,
    pool: &Pool<L>,
    desk: &Desk,
) -> Result<bool, Fail> {
    let mut input = Vec::from_slice(alloc, GREETING.as_bytes())?;
    input.extend_from_slice(&blank_lines(alloc, 17)?)?;
    let mut source = Reading::new(Dripping::whole(&input, 1));
    let mut sink = Writing::new(Vec::new(alloc));
    let _ = serve_connection(rt, alloc, pool, desk, &mut source, &mut sink);
    let written = sink.into_inner();
    let behind = connect(rt, alloc, pool, desk, GREETING);
    Ok(
        written.strip_prefix(b"[\"hello\",\"t1\",1]\n".as_slice())
            == Some(&NO_JSON.as_bytes()[..231])
            && behind.as_slice() == b"[\"hello\",\"t1\",17]\n".as_slice(),
    )
}

/// The place of the first broken connection on which, or behind which, something else is written; behind them all
/// one of too many reads stands.
fn first_other_broken<R: Wait>(rt: &R, alloc: Global) -> Result<Option<usize>, Fail> {
    first_other_broken_on::<Brand, R>(rt, alloc, Blank::new(1))
}

fn first_other_broken_on<L: Ledger, R: Wait>(
    rt: &R,
    alloc: Global,
    blank: Blank,
) -> Result<Option<usize>, Fail>
    requires name { blank.name ≡ L.name }
    requires parts { (blank.parts ≡ L.parts) × (blank.parts ≡ 1) }
{
    let (pool, _) = Pool::<L>::new(alloc, 1, 1, blank)?;
    for (at, (left, may_take, written, next)) in BROKEN.iter().enumerate() {
        let desk = desk_of(alloc, 100)?;
        let broken = connect_broken(rt, alloc, &pool, &desk, *left, *may_take);
        let behind = connect(rt, alloc, &pool, &desk, GREETING);
        if broken.as_slice() != written.as_bytes() || behind.as_slice() != next.as_bytes() {
            return Ok(Some(at));
        }
    }
    let desk = desk_of(alloc, 100)?;
    if !comes_back_behind_a_million_reads(rt, alloc, &pool, &desk)? {
        return Ok(Some(BROKEN.len()));
    }
    Ok(None)
}

#[test]
fn a_book_comes_back_from_a_connection_that_breaks(rt: HostRuntime) -> Result<(), Fail> {
    assert_eq!(rt; first_other_broken(&rt, rt.alloc())?, None);
    Ok(())
}

/// Its second task reads what the first writes.
const FIRST: [&str; 1] = [
    "[\"hello\",\"t1\"]\n[\"new\",\"a\",3]\n[\"put\",\"a\",0,[1,2,3]]\n[\"run\",[\"program\",[[\"a\",0,3]],\
[[\"task\",[[\"out\",[\"a\",0,1]]],[[\"set\",[\"c\",\"a\",0],7]]],\
[\"task\",[[\"in\",[\"a\",0,1]],[\"out\",[\"a\",1,1]]],[[\"set\",[\"c\",\"a\",1],[\"+\",[\"c\",\"a\",0],1]]]],[\"wait\"]]]]\n",
];

/// What happens while a piece of `t1` is held, and what is told.
struct Scene {
    /// How many of its pieces go on before.
    free: u64,
    /// The connections that come meanwhile.
    meanwhile: &'static [&'static str],
    /// Whether the pool is closed behind these, while the piece is held, or else once the first connection is over.
    closes: bool,
    /// Connections behind the closing of the pool.
    behind: &'static [&'static str],
    /// What is written on the first connection, on those meanwhile, and on those behind.
    told: [&'static str; 3],
    /// The units that are settled for each tenant, and for both.
    units: ([u64; 2], u64),
}

const SCENES: [Scene; 2] = [
    // The last of those meanwhile has two tasks in a task.
    Scene {
        free: 0,
        meanwhile: &[
            "[\"hello\",\"t1\"]\n[\"list\"]\n",
            "[\"hello\",\"zz\"]\n",
            "[\"hello\",\"t2\"]\n[\"new\",\"a\",3]\n[\"put\",\"a\",0,[1,2,3]]\n[\"run\",[\"program\",[[\"a\",0,3]],\
[[\"task\",[[\"inout\",[\"a\",0,3]]],[[\"task\",[[\"out\",[\"a\",0,1]]],[[\"set\",[\"c\",\"a\",0],4]]],\
[\"task\",[[\"out\",[\"a\",1,1]]],[[\"set\",[\"c\",\"a\",1],5]]],[\"wait\"],\
[\"set\",[\"c\",\"a\",2],[\"+\",[\"c\",\"a\",0],[\"c\",\"a\",1]]]]]]]]\n[\"bye\"]\n",
        ],
        closes: false,
        behind: &[
            "[\"hello\",\"t1\"]\n[\"get\",\"a\",0,3]\n[\"run\",[\"program\",[],[[\"set\",[\"c\",\"a\",0],9]]]]\n[\"list\"]\n",
            "[\"hello\",\"t1\"]\n[\"get\",\"a\",0,1]\n",
        ],
        told: [
            "[\"hello\",\"t1\",1]\n[\"ok\",1]\n[\"ok\",2]\n[\"done\",3,2,5,[[7,8,3]]]\n",
            "[\"err\",0,409]\n[\"err\",0,404]\n[\"hello\",\"t2\",1]\n[\"ok\",1]\n[\"ok\",2]\n[\"done\",3,3,7,[[4,5,9]]]\n",
            "[\"hello\",\"t1\",4]\n[\"cells\",4,[7,8,3]]\n[\"hello\",\"t1\",5]\n[\"cells\",5,[7]]\n",
        ],
        units: ([5, 7], 12),
    },
    // The first piece is one unit. Those that are held then come back to a closed pool.
    Scene {
        free: 1,
        meanwhile: &[],
        closes: true,
        behind: &["[\"hello\",\"t1\"]\n[\"get\",\"a\",0,3]\n"],
        told: [
            "[\"hello\",\"t1\",1]\n[\"ok\",1]\n[\"ok\",2]\n",
            "",
            "[\"hello\",\"t1\",3]\n[\"cells\",3,[1,2,3]]\n",
        ],
        units: ([1, 0], 1),
    },
];

/// What serves connections. A thread borrows a pool as such a service.
trait Service<D> {
    /// What is written on connections, one after another, up to the first for which there is no memory.
    fn written<R: Wait>(&self, rt: &R, alloc: Global, desk: &D, inputs: &[&str]) -> Vec<u8>;

    fn close<R: Wait>(&self, rt: &R);
}

impl<L: Ledger> Service<Desk> for Pool<L> {
    fn written<R: Wait>(&self, rt: &R, alloc: Global, desk: &Desk, inputs: &[&str]) -> Vec<u8> {
        let mut written = Vec::new(alloc);
        for input in inputs {
            if written
                .extend_from_slice(&connect(rt, alloc, self, desk, input))
                .is_err()
            {
                break;
            }
        }
        written
    }

    fn close<R: Wait>(&self, rt: &R) {
        close(rt, self);
    }
}

/// The connection of `t1`, and once a piece of it is held at the door those beside it. When these are over the door
/// is opened.
fn side_by_side<P: Service<D> + Sync, D: Sync, R: Threads + Wait + Sync>(
    rt: &R,
    alloc: Global,
    service: &P,
    desk: &D,
    door: &Door,
    scene: &Scene,
) -> (Vec<u8>, Vec<u8>) {
    thread::join(
        rt,
        || service.written(rt, alloc, desk, &FIRST),
        || connect_behind(rt, alloc, service, desk, door, scene),
    )
}

/// What is written on the connections beside the first. Where none of its pieces has come there are none.
fn connect_behind<P: Service<D>, D, R: Wait>(
    rt: &R,
    alloc: Global,
    service: &P,
    desk: &D,
    door: &Door,
    scene: &Scene,
) -> Vec<u8> {
    if !door.wait() {
        return Vec::new(alloc);
    }
    let written = service.written(rt, alloc, desk, scene.meanwhile);
    if scene.closes {
        service.close(rt);
    }
    door.set_open();
    written
}

/// The same over a pool.
fn over_pool<L: Ledger + Send + Sync, R: Threads + Wait + Sync>(
    rt: &R,
    alloc: Global,
    pool: &Pool<L>,
    desk: &Desk,
    door: &Door,
    scene: &Scene,
) -> (Vec<u8>, Vec<u8>) {
    side_by_side(rt, alloc, pool, desk, door, scene)
}

/// What is written on all connections, and the units that were settled.
#[derive(Debug, Drop)]
struct Played {
    first: Vec<u8>,
    meanwhile: Vec<u8>,
    behind: Vec<u8>,
    usage: Usage,
}

impl Played {
    fn is_told(&self, scene: &Scene) -> bool {
        let [first, meanwhile, behind] = scene.told;
        let (by_tenant, total) = scene.units;
        self.first.as_slice() == first.as_bytes()
            && self.meanwhile.as_slice() == meanwhile.as_bytes()
            && self.behind.as_slice() == behind.as_bytes()
            && self.usage.by_tenant.as_slice() == by_tenant.as_slice()
            && self.usage.total == total
    }
}

fn play<R: Threads + Wait + Sync>(
    rt: &R,
    alloc: Global,
    desk: &Desk,
    door: &Door,
    scene: &Scene,
) -> Result<Played, AllocError> {
    play_on::<Brand, R>(rt, alloc, Blank::new(2), desk, door, scene)
}

fn play_on<L: Ledger + Send + Sync, R: Threads + Wait + Sync>(
    rt: &R,
    alloc: Global,
    blank: Blank,
    desk: &Desk,
    door: &Door,
    scene: &Scene,
) -> Result<Played, AllocError>
    requires name { blank.name ≡ L.name }
    requires parts { (blank.parts ≡ L.parts) × (blank.parts ≡ 2) }
{
    let (pool, shares) = Pool::<L>::new(alloc, 2, 2, blank)?;
    let (written, shares) = play_staffed(rt, alloc, &pool, desk, door, scene, shares);
    let Ok((first, meanwhile)) = written else {
        return Err(AllocError);
    };
    let behind = pool.written(rt, alloc, desk, scene.behind);
    let shares = shares?;
    if shares.len() != 2 {
        return Err(AllocError);
    }
    let usage = totals(rt, &pool, alloc, shares)?;
    Ok(Played {
        first,
        meanwhile,
        behind,
        usage,
    })
}

/// Takes the connections while the pool is staffed. Where a worker couldn't be started nothing is written.
fn play_staffed<L: Ledger + Send + Sync, R: Threads + Wait + Sync>(
    rt: &R,
    alloc: Global,
    pool: &Pool<L>,
    desk: &Desk,
    door: &Door,
    scene: &Scene,
    shares: Vec<Share<L>>,
) -> Staffed<L, (Vec<u8>, Vec<u8>)>
    requires few { vec_len shares ≤ 16 }
    requires one { All (λ s. s.parts ≡ 1) shares.items }
    ensures { IfOk result.1 (λ shares. sum_by (λ s. s.parts) shares.items ≡ vec_len shares) }
{
    let play = || over_pool(rt, alloc, pool, desk, door, scene);
    staffed(rt, alloc, pool, door, shares, play)
}

#[test]
fn what_is_told_while_a_piece_is_held(rt: HostRuntime) -> Result<(), Fail> {
    for scene in &SCENES {
        let desk = desk_of(rt.alloc(), 100)?;
        let door = Door::behind(scene.free);
        let played = play(&rt, rt.alloc(), &desk, &door, scene)?;
        assert!(rt; !door.gave_up() && played.is_told(scene), "{played:?}");
    }
    Ok(())
}
