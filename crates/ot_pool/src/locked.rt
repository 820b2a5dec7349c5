ghost use Rattle.std.specs.Prelude.{◌≡◌, ◌<◌, ◌≤◌, ◌↔◌, ◌&&◌, ◌==◌, ◌+◌, ◌-◌, ◌%◌, ◌^◌, IsTrue, not, true, false, IfOk, IfErr, sum, vec_len};
ghost use Rattle.std.specs.List.{sum_by};
ghost use Rattle.ot_pool.specs.Rounds.{TakesBack, Rounds, IsToTell, CallsWorkers, client_of, is_over, is_aborted, is_short_piece};
ghost use Rattle.ot_pool.specs.Shared.{Enters, RefusesJob, Leaves};

use crate::hub::{Claimed, Hub};
use crate::tickets::Ticket;
use crate::usage::Usage;
use ot_book::NotDone;
use ot_job::{Done, Job};
use std::alloc::{AllocError, Global};
use std::sync::ledger::{Ledger, Share};

/// What lies under the lock: the hub, whether a worker waits, and how many look. A client does no more with the hub than to bring
/// a job and to take it out by its ticket.
#[derive(Drop)]
pub(crate) struct Locked<L: Ledger> {
    hub: Hub<L>,
    /// Whether a worker has begun to wait since all that wait were last told.
    pub(crate) worker_waits: bool,
    /// How many workers have found nothing and will look once more before they wait.
    pub(crate) lookers: u32,
}

impl<L: Ledger> Locked<L> {
    /// Nobody waits, and nobody looks.
    pub(crate) fn new(hub: Hub<L>) -> Locked<L>
        ensures hub { result.hub ≡ hub }
        ensures mark { result.worker_waits ≡ false }
        ensures lookers { result.lookers ≡ 0 }
    {
        Locked {
            hub,
            worker_waits: false,
            lookers: 0,
        }
    }

    /// Takes in a tenant's job. Beside its ticket stands whether a worker that waits may go on, and so all that wait are to be
    /// told.
    pub(crate) fn enter(&mut self, tenant: u32, job: Job) -> Result<(Ticket, bool), (Job, NotDone)>
        ensures entered { IfOk result (λ r. Enters self.old.hub tenant job r.0 self.new.hub) }
        ensures tells { IfOk result (λ r. IsTrue r.1 ↔ CallsWorkers (self.old.worker_waits && self.old.lookers == 0) self.new.hub) }
        ensures mark { IfOk result (λ r. self.new.worker_waits ≡ (self.old.worker_waits && not r.1)) }
        ensures lookers { self.new.lookers ≡ self.old.lookers }
        ensures refused { IfErr result (λ e. RefusesJob self.old.hub tenant e.1) }
        ensures back { IfErr result (λ e. (e.0 ≡ job) × (self.new ≡ self.old)) }
    {
        match self.hub.enter(tenant, job) {
            Ok(ticket) => Ok((ticket, self.calls_workers())),
            Err(refused) => Err(refused),
        }
    }

    /// Takes out the ticket's job, if it is over.
    pub(crate) fn leave(&mut self, ticket: &Ticket) -> Option<Result<Job, NotDone>>
        ensures leaves { Leaves self.old.hub ticket.now result self.new.hub }
        ensures mark { self.new.worker_waits ≡ self.old.worker_waits }
        ensures lookers { self.new.lookers ≡ self.old.lookers }
    {
        self.hub.leave(ticket)
    }

    /// Sets the mark of closing. The caller is to tell all that wait.
    pub(crate) fn close(&mut self)
        ensures hub { self.new.hub ≡ record self.old.hub { closed = true } }
        ensures mark { self.new.worker_waits ≡ self.old.worker_waits }
        ensures lookers { self.new.lookers ≡ self.old.lookers }
    {
        self.hub.close();
    }

    /// The units that were settled for each tenant and for all. The shares are all that there are, and are spent.
    pub(crate) fn totals(
        &mut self,
        alloc: Global,
        shares: Vec<Share<L>>,
    ) -> Result<Usage, AllocError>
        requires some { 0 < vec_len shares }
        requires all { sum_by (λ s. s.parts) shares.items ≡ L.parts }
        ensures by_tenant { IfOk result (λ usage. usage.by_tenant.items ≡ self.old.hub.floor.units) }
        ensures total { IfOk result (λ usage. usage.total ≡ sum_by (λ s. s.amount) shares.items) }
        ensures adds_up { IfOk result (λ usage. sum usage.by_tenant.items ≡ usage.total) }
        ensures same { self.new ≡ self.old }
    {
        self.hub.totals(alloc, shares)
    }

    /// What a worker does in one hold of the lock: it hands back the piece that it ran, where there is one, and
    /// claims the next. Beside what it got stands whether it is to tell all that wait: where the client whose piece
    /// came back may go on, where a job was aborted, or where a worker that waits may go on, and what it got is no short
    /// piece that it runs at once.
    pub(crate) fn round(
        &mut self,
        alloc: Global,
        turn: u64,
        back: Option<(u32, Done)>,
        share: &mut Share<L>,
        worker: u32,
        at_once: bool,
    ) -> (Claimed, bool)
        requires parts { 0 < share.old.parts }
        requires worker { (1 ≤ worker) × (worker ≤ 16) }
        ensures does { Rounds self.old.hub back turn worker result.0 self.new.hub }
        ensures tells { IsTrue result.1 ↔ IsToTell back result.0 ((self.old.worker_waits && self.old.lookers == 0) && not (at_once && is_short_piece result.0)) self.new.hub }
        ensures mark { self.new.worker_waits ≡ (self.old.worker_waits && not result.1) }
        ensures lookers { self.new.lookers ≡ self.old.lookers }
        ensures kept { share.new.parts ≡ share.old.parts }
    {
        let client = self.take_back(alloc, back, share);
        let claimed = self.hub.claim(alloc, turn, worker);
        let is_over = self.is_over(client);
        let is_aborted = claimed.is_aborted();
        let calls = self.calls_others(at_once, &claimed);
        let tells = is_over || is_aborted || calls;
        if tells {
            self.worker_waits = false;
        }
        (claimed, tells)
    }

    /// One worker more will look once more before it waits, which is so until it has looked.
    pub(crate) fn begin_look(&mut self)
        ensures lookers { self.new.lookers ≡ (self.old.lookers + 1) % 2 ^ 32 }
        ensures mark { self.new.worker_waits ≡ self.old.worker_waits }
        ensures hub { self.new.hub ≡ self.old.hub }
    {
        self.lookers = self.lookers.wrapping_add(1);
    }

    /// It has the lock again, and looks.
    pub(crate) fn end_look(&mut self)
        ensures lookers { self.new.lookers ≡ ((2 ^ 32 + self.old.lookers) - 1) % 2 ^ 32 }
        ensures mark { self.new.worker_waits ≡ self.old.worker_waits }
        ensures hub { self.new.hub ≡ self.old.hub }
    {
        self.lookers = self.lookers.wrapping_sub(1);
    }

    // Takes back a piece that was run, where there is one: whose it is.
    fn take_back(
        &mut self,
        alloc: Global,
        back: Option<(u32, Done)>,
        share: &mut Share<L>,
    ) -> Option<u32>
        requires { 0 < share.old.parts }
        ensures takes { TakesBack self.old.hub back self.new.hub }
        ensures client { result ≡ client_of back }
        ensures mark { self.new.worker_waits ≡ self.old.worker_waits }
        ensures lookers { self.new.lookers ≡ self.old.lookers }
        ensures parts { share.new.parts ≡ share.old.parts }
    {
        let Some((tenant, done)) = back else {
            return None;
        };
        let _units = self.hub.settle(alloc, tenant, done, share);
        Some(tenant)
    }

    // Whether this client has no job any more that isn't over, or the pool is closed.
    fn is_over(&self, client: Option<u32>) -> bool
        ensures { result ≡ is_over client self.now.hub }
    {
        let Some(tenant) = client else {
            return false;
        };
        !self.hub.is_pending(tenant)
    }

    // As `calls_workers`, where what a worker got is no short piece that it runs at once: then it is back soon, and finds the task in
    // its next hold, or asks there again.
    fn calls_others(&mut self, at_once: bool, got: &Claimed) -> bool
        ensures calls { IsTrue result ↔ CallsWorkers ((self.old.worker_waits && self.old.lookers == 0) && not (at_once && is_short_piece got.now)) self.old.hub }
        ensures mark { self.new.worker_waits ≡ (self.old.worker_waits && not result) }
        ensures lookers { self.new.lookers ≡ self.old.lookers }
        ensures hub { self.new.hub ≡ self.old.hub }
    {
        if at_once && got.is_short() {
            return false;
        }
        self.calls_workers()
    }

    /// Whether a worker that waits may go on, and none looks, who would find the task. The caller is to tell all that
    /// wait, so nobody waits untold then.
    pub(crate) fn calls_workers(&mut self) -> bool
        ensures calls { IsTrue result ↔ CallsWorkers (self.old.worker_waits && self.old.lookers == 0) self.old.hub }
        ensures mark { self.new.worker_waits ≡ (self.old.worker_waits && not result) }
        ensures lookers { self.new.lookers ≡ self.old.lookers }
        ensures hub { self.new.hub ≡ self.old.hub }
    {
        let calls = self.worker_waits && self.lookers == 0 && self.hub.any_claimable();
        if calls {
            self.worker_waits = false;
        }
        calls
    }
}
