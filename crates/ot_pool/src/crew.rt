ghost use Rattle.std.specs.Prelude.{◌≡◌, ◌<◌, ◌≤◌, ◌↔◌, vec_len, vec_capacity, Ok, Err, IfOk, OnOk};
ghost use Rattle.std.specs.List.{All, sum_by};
ghost use Rattle.ot_pool.specs.declared.crew.NotStarted.TheVariants.{Memory};

use crate::gate::Gate;
use crate::pool::{Pool, close};
use crate::worker::work;
use std::alloc::{AllocError, Global};
use std::sync::Wait;
use std::sync::ledger::{Ledger, Share};
use std::thread;
use std::thread::{JoinHandle, Scope, Threads};

// What a worker's thread hands back: its share, which is one part of the ledger.
#[derive(Drop)]
struct Spent<L: Ledger> {
    share: Share<L>,
    ghost one_part: { share.parts ≡ 1 },
}

// Where workers work, each with something of type S that it takes along and brings home. A thread borrows a pool
// as such a place: so whether it may is asked of the pool alone, and not of all that it is made of.
trait Workplace<S> {
    fn employ<G: Gate + Drop, R: Wait>(
        &self,
        rt: &R,
        alloc: Global,
        worker: u32,
        gate: G,
        share: S,
    ) -> S
        requires worker { (1 ≤ worker) × (worker ≤ 16) };
}

impl<L: Ledger> Workplace<Spent<L>> for Pool<L> {
    fn employ<G: Gate + Drop, R: Wait>(
        &self,
        rt: &R,
        alloc: Global,
        worker: u32,
        gate: G,
        share: Spent<L>,
    ) -> Spent<L>
        requires worker { (1 ≤ worker) × (worker ≤ 16) }
    {
        let Spent { share } = share;
        let share = work(rt, self, alloc, worker, gate, share);
        Spent { share }
    }
}

/// Why not every worker was started.
#[derive(Clone, Copy, Debug, PartialEq, Eq)]
pub enum NotStarted {
    /// Memory was refused, and no worker was started.
    Memory,
    /// For some worker no thread could be made.
    NoThread,
}

/// What was done while a pool was staffed, and the shares that its workers brought home.
pub type Staffed<L, T> = (Result<T, NotStarted>, Result<Vec<Share<L>>, AllocError>);

/// Starts a worker for each share, of which there are at most 16, and once all are started does what is to be done
/// with the pool. Then it closes the pool and waits until the workers have come home. Where not every worker was
/// started, nothing is done with the pool.
pub fn staffed<G, L, R, T, F>(
    rt: &R,
    alloc: Global,
    pool: &Pool<L>,
    gate: G,
    shares: Vec<Share<L>>,
    then: F,
) -> Staffed<L, T>
where
    G: Gate + Copy + Send,
    L: Ledger + Send + Sync,
    R: Threads + Wait + Sync,
    F: FnOnce() -> T + Drop,
    requires few { vec_len shares ≤ 16 }
    requires one { All (λ s. s.parts ≡ 1) shares.items }
    requires ready { F.pre then }
    ensures done { IfOk result.0 (λ told. F.post then told) }
    ensures each { OnOk result.0 (IfOk result.1 (λ back. vec_len back ≡ vec_len shares)) }
    ensures parts { IfOk result.1 (λ back. sum_by (λ s. s.parts) back.items ≡ vec_len back) }
{
    thread::scope(
        thread::scope_env(),
        rt,
        |scope| -> Staffed<L, T>
            requires { (vec_len shares ≤ 16) × All (λ s. s.parts ≡ 1) shares.items × F.pre then }
            ensures { IfOk result.0 (λ told. F.post then told)
                × OnOk result.0 (IfOk result.1 (λ back. vec_len back ≡ vec_len shares))
                × IfOk result.1 (λ back. sum_by (λ s. s.parts) back.items ≡ vec_len back) }
        {
            let (threads, started) = start(scope, rt, alloc, pool, gate, shares);
            let told = match started {
                Ok(()) => Ok(then()),
                Err(why) => Err(why),
            };
            close(rt, pool);
            (told, join_all(rt, alloc, threads))
        },
    )
}

// Starts a worker in a thread of its own for each share, of which there are at most 16. The share of one that
// couldn't be started is lost. Memory is told where there is no room for a thread of each.
fn start<'s, E, G: Gate + Copy + Send + 's, L: Ledger + Send + Sync, R: Wait + Sync>(
    scope: &Scope<'s, E>,
    rt: &'s R,
    alloc: Global,
    pool: &'s Pool<L>,
    gate: G,
    mut shares: Vec<Share<L>>,
) -> (Vec<JoinHandle<Spent<L>>>, Result<(), NotStarted>)
    requires few { vec_len shares ≤ 16 }
    requires one { All (λ s. s.parts ≡ 1) shares.items }
    ensures few { vec_len result.0 ≤ vec_len shares }
    ensures all { result.1 ≡ Ok tt ↔ vec_len result.0 ≡ vec_len shares }
    ensures memory { result.1 ≡ Err Memory ↔ vec_capacity result.0 < vec_len shares }
{
    let workers = shares.len();
    let mut threads = Vec::new(alloc);
    if threads.reserve(workers).is_err() {
        return (threads, Err(NotStarted::Memory));
    }
    while let Some(share) = shares.pop() {
        let worker = shares.len() as u32 + 1;
        let share = whole_part(share);
        if let Some(thread) = start_one(scope, rt, alloc, pool, worker, gate, share) {
            threads.push_reserved(thread);
        }
    }
    if threads.len() < workers {
        return (threads, Err(NotStarted::NoThread));
    }
    (threads, Ok(()))
}

fn whole_part<L: Ledger>(share: Share<L>) -> Spent<L>
    requires { share.parts ≡ 1 }
{
    Spent { share }
}

// Starts a worker, if a thread can be made for it.
fn start_one<'s, E, P, S, G, R>(
    scope: &Scope<'s, E>,
    rt: &'s R,
    alloc: Global,
    place: &'s P,
    worker: u32,
    gate: G,
    share: S,
) -> Option<JoinHandle<S>>
where
    P: Workplace<S> + Sync + 's,
    S: Send + Drop + 's,
    G: Gate + Copy + Send + 's,
    R: Wait + Sync,
    requires { (1 ≤ worker) × (worker ≤ 16) }
{
    let run = move || -> S
        requires { (1 ≤ worker) × (worker ≤ 16) }
    { place.employ(rt, alloc, worker, gate, share) };
    match scope.spawn(run) {
        Ok(thread) => Some(thread),
        Err(_) => None,
    }
}

// Waits until each worker has come home, and gives their shares. Where memory is refused the shares are lost,
// and each thread is joined all the same.
fn join_all<L: Ledger, R: Threads>(
    rt: &R,
    alloc: Global,
    mut threads: Vec<JoinHandle<Spent<L>>>,
) -> Result<Vec<Share<L>>, AllocError>
    ensures each { IfOk result (λ shares. vec_len shares ≡ vec_len threads) }
    ensures parts { IfOk result (λ shares. sum_by (λ s. s.parts) shares.items ≡ vec_len shares) }
{
    let mut shares = Vec::new(alloc);
    let mut refused = false;
    while let Some(thread) = threads.pop() {
        let Spent { share } = thread.join(rt);
        if shares.push(share).is_err() {
            refused = true;
        }
    }
    if refused {
        return Err(AllocError);
    }
    Ok(shares)
}
