ghost use Rattle.std.specs.Prelude.{◌≡◌, ◌<◌, vec_len, IfOk, sum, ◌≤◌, IfSome};
ghost use Rattle.std.specs.List.{sum_by, All};

use crate::hub::{Claimed, Hub, outcome_of};
use crate::locked::Locked;
use crate::tickets::Ticket;
use crate::usage::Usage;
use ot_book::NotDone;
use ot_check::{JobSpec, Outcome};
use ot_job::{Done, Job, Piece};
use ot_parts::Assigns;
use std::alloc::{AllocError, Global};
use std::hint::spin_loop;
use std::sync::ledger::{Blank, Ledger, Share};
use std::sync::{Condvar, Mutex, MutexGuard, Wait};
use std::thread::yield_now;

/// How often in one call a thread that finds nothing lets the lock and the processor go and looks again, before
/// it waits.
const LOOKS: u32 = 20;

/// How often a worker looks where no other one does: so that for a while behind a job somebody is awake to claim the next
/// one's first task, and nobody has to be woken for it.
const LAST_LOOKS: u32 = 400;

/// How many turns a thread that finds the lock held takes, with the processor let go behind each, before it may sleep at it.
const TURNS: u32 = 20;

/// How often it tries in a turn.
const TRIES: u32 = 100;

/// How often the processor is told to pause behind a try.
const PAUSES: u32 = 10;

/// What workers and clients share. A thread after whose hold of the lock somebody who waits may go on tells all
/// that wait, once it has let the lock go.
#[derive(Drop)]
pub struct Pool<L: Ledger> {
    locked: Mutex<Locked<L>>,
    told: Condvar,
}

impl<L: Ledger> Pool<L> {
    ghost use Rattle.ot_check.specs.Jobs.{IsMeaning};

    /// A pool where nobody has a job, and a share of the ledger for each of 1 to 16 workers. There are at most
    /// 64 tenants; their numbers begin at 0.
    pub fn new(
        alloc: Global,
        tenants: u32,
        workers: u32,
        blank: Blank,
    ) -> Result<(Pool<L>, Vec<Share<L>>), AllocError>
        requires tenants { tenants ≤ 64 }
        requires workers { (1 ≤ workers) × (workers ≤ 16) }
        requires ledger { (blank.name ≡ L.name) × (blank.parts ≡ L.parts) }
        requires parts { blank.parts ≡ workers }
        ensures each { IfOk result (λ made. vec_len made.1 ≡ workers) }
        ensures empty { IfOk result (λ made. All (λ s. (s.parts ≡ 1) × (s.amount ≡ 0)) made.1.items) }
    {
        let (book, mut rest) = blank.open::<L>();
        let mut shares = Vec::new(alloc);
        for _ in 0..workers {
            shares.push(rest.split_off(1, 0))?;
        }
        let hub = Hub::new(alloc, tenants, book)?;
        let pool = Pool {
            locked: Mutex::new(Locked::new(hub)),
            told: Condvar::new(),
        };
        Ok((pool, shares))
    }

    /// Hands back the piece that was run before, where there is one, and waits for a claimable one, which goes to
    /// worker `worker`, 1 to 16: both in one hold of the lock, if a task is claimable then. None comes once the pool
    /// is closed. What comes back is counted in the share. A worker that runs each piece `at_once` is back soon with a short
    /// one, and tells no other worker of what is claimable then.
    pub(crate) fn next<R: Wait>(
        &self,
        rt: &R,
        alloc: Global,
        turn: u64,
        back: Option<(u32, Done)>,
        share: &mut Share<L>,
        worker: u32,
        at_once: bool,
    ) -> Option<(u32, Piece)>
        requires parts { 0 < share.old.parts }
        requires worker { (1 ≤ worker) × (worker ≤ 16) }
        ensures { share.new.parts ≡ share.old.parts }
    {
        // What was run is held once more, so that it is let go with the lock free: that takes as long as it has statements.
        let mut held = match &back {
            Some((_, done)) => done.hold(),
            None => None,
        };
        let mut looks = 0u32;
        let mut locked = self.hold(rt);
        let mut round = locked.round(alloc, turn, back, share, worker, at_once);
        for _ in rt.forever() {
            let (claimed, tells) = round;
            match claimed {
                Claimed::Got(tenant, piece) => {
                    drop(locked);
                    self.tell(tells);
                    return Some((tenant, piece));
                }
                Claimed::Closed => {
                    drop(locked);
                    self.tell(tells);
                    return None;
                }
                Claimed::Aborted(_) | Claimed::Idle => {
                    locked = self.pass(rt, locked, tells, &mut looks, &mut held);
                }
            }
            round = locked.round(alloc, turn, None, share, worker, at_once);
        }
        unreachable!()
    }

    // What a worker does that got nothing: it tells all that wait, or looks once more for a while, or else waits. It has the lock
    // again then.
    fn pass<'a, R: Wait>(
        &'a self,
        rt: &R,
        mut locked: MutexGuard<'a, Locked<L>>,
        tells: bool,
        looks: &mut u32,
        held: &mut Option<Assigns>,
    ) -> MutexGuard<'a, Locked<L>> {
        if tells {
            drop(locked);
            *held = None;
            self.tell(true);
            return self.hold(rt);
        }
        if *looks < LOOKS || (*looks < LAST_LOOKS && locked.lookers == 0) {
            *looks += 1;
            locked.begin_look();
            drop(locked);
            *held = None;
            yield_now();
            let mut locked = self.hold(rt);
            locked.end_look();
            return locked;
        }
        locked.worker_waits = true;
        self.told.wait(rt, locked)
    }

    // Takes the lock. It is held for a microsecond or two, which is less than it takes to sleep and to be woken; and as long
    // as a thread sleeps at it, each hold ends with a call of the system. So whoever finds it held tries again.
    fn hold<R: Wait>(&self, rt: &R) -> MutexGuard<'_, Locked<L>> {
        for _ in 0..TURNS {
            for _ in 0..TRIES {
                if let Some(locked) = self.locked.try_lock() {
                    return locked;
                }
                pause();
            }
            yield_now();
        }
        self.locked.lock(rt)
    }

    /// Starts the tenant's job, which is taken out by the ticket.
    pub(crate) fn submit<R: Wait>(
        &self,
        rt: &R,
        alloc: Global,
        tenant: u32,
        spec: JobSpec,
    ) -> Result<Ticket, NotDone> {
        // The job is made, and let go where it is refused, with the lock free: both take as long as its program is.
        let Ok(job) = Job::start(alloc, spec) else {
            return Err(NotDone::Memory);
        };
        let mut locked = self.hold(rt);
        let entered = locked.enter(tenant, job);
        drop(locked);
        match entered {
            Ok((ticket, tells)) => {
                self.tell(tells);
                Ok(ticket)
            }
            Err((job, refusal)) => {
                drop(job);
                Err(refusal)
            }
        }
    }

    /// Waits until the ticket's job is over, and takes it out. The job is compared with the spec and looked at with the
    /// lock free, since that takes as long as its program is.
    pub(crate) fn collect<R: Wait>(
        &self,
        rt: &R,
        ticket: Ticket,
        spec: &JobSpec,
    ) -> Result<Outcome, NotDone>
        ensures { IfOk result (λ outcome. IsMeaning spec.now outcome) }
    {
        let mut locked = self.hold(rt);
        let mut looks = 0u32;
        for _ in rt.forever() {
            match locked.leave(&ticket) {
                Some(Ok(job)) => {
                    drop(locked);
                    return outcome_of(job, spec);
                }
                Some(Err(refusal)) => return Err(refusal),
                None => {
                    if looks < LOOKS {
                        looks += 1;
                        drop(locked);
                        yield_now();
                        locked = self.hold(rt);
                    } else {
                        locked = self.told.wait(rt, locked);
                    }
                }
            }
        }
        unreachable!()
    }

    // Tells all that wait, if somebody may go on.
    fn tell(&self, may_go_on: bool) {
        if may_go_on {
            self.told.notify_all();
        }
    }
}

// A pause of 50 to 500 ns, by the kind of processor.
fn pause() {
    for _ in 0..PAUSES {
        spin_loop();
    }
}

/// Closes the pool: from now on workers come home and clients are answered `Closed`.
pub fn close<L: Ledger, R: Wait>(rt: &R, pool: &Pool<L>) {
    pool.locked.lock(rt).close();
    pool.told.notify_all();
}

/// The units that were settled, by tenant and in all. These are all shares that were made with the pool, as the
/// workers handed them back, and they are spent.
pub fn totals<L: Ledger, R: Wait>(
    rt: &R,
    pool: &Pool<L>,
    alloc: Global,
    shares: Vec<Share<L>>,
) -> Result<Usage, AllocError>
    requires some { 0 < vec_len shares }
    requires all { sum_by (λ s. s.parts) shares.items ≡ L.parts }
    ensures total { IfOk result (λ usage. usage.total ≡ sum_by (λ s. s.amount) shares.items) }
    ensures adds_up { IfOk result (λ usage. sum usage.by_tenant.items ≡ usage.total) }
{
    pool.locked.lock(rt).totals(alloc, shares)
}
