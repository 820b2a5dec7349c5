ghost use Rattle.std.specs.Prelude.{◌≡◌, ◌+◌, ◌<◌, vec_len, ◌≤◌, true, false, IfOk, IfErr, IfSome, IfNone, IsTrue, sum, ℕ, Some, Ok, Err, ◌↔◌};
ghost use Rattle.std.specs.List.{sum_by};

use crate::tickets::{Numbers, Ticket};
use crate::usage::Usage;
use ot_book::NotDone;
use ot_check::{JobSpec, Outcome};
use ot_hall::{Collected, Hall, NoMemory, SubmitFault};
use ot_job::{Done, Job, Piece, State};
use std::alloc::{AllocError, Global};
use std::marker::Model;
use std::sync::ledger::{Book, Ledger, Share};

/// The units of one piece are at most so many.
const UNITS_OF_A_PIECE: u64 = 20_000;

/// The total stays below 2^63.
const END_OF_UNITS: u64 = 0x8000_0000_0000_0000;

/// What all threads share, under one lock: the live jobs of all tenants with their numbers, the ledger's book of the units
/// that were settled, and the mark of closing. Each call is one turn.
#[derive(Drop)]
pub struct Hub<L: Ledger> {
    hall: Hall,
    tenants: u32,
    numbers: Numbers,
    book: Book<L>,
    is_closed: bool,
}

/// What a worker gets by a claim.
#[derive(Debug)]
pub enum Claimed {
    /// A piece of this tenant's job.
    Got(u32, Piece),
    /// Nobody has a claimable task.
    Idle,
    /// Memory was refused at a claim of this tenant's job, which fails.
    Aborted(u32),
    /// The mark of closing is set.
    Closed,
}

impl Claimed {
    // Whether a job was aborted.
    pub(crate) fn is_aborted(&self) -> bool
        ensures { result ≡ is_aborted self.now }
    {
        matches!(self, Claimed::Aborted(_))
    }

    // Whether it is a short piece.
    pub(crate) fn is_short(&self) -> bool
        ensures { result ≡ is_short_piece self.now }
    {
        match self {
            Claimed::Got(_, piece) => piece.is_short(),
            Claimed::Idle | Claimed::Aborted(_) | Claimed::Closed => false,
        }
    }
}

impl<L: Ledger> Model for Hub<L> {
    ghost use Rattle.std.specs.Coded.{codes};
    ghost use Rattle.ot_model.specs.Code.{body_code};
    ghost use Rattle.ot_pool.specs.Shared.{Shared, IsInvariant};

    ghost Value = { Shared };

    ghost coded = { Prim.hlevel (codes, body_code) };

    ghost view = { λ h. record { floor = h.hall; numbers = h.numbers; closed = h.is_closed } };

    ghost invariant = { λ h. IsInvariant (record { floor = h.hall; numbers = h.numbers; closed = h.is_closed }) h.book.total h.tenants };
}

impl<L: Ledger> Hub<L> {
    ghost use Rattle.ot_hall.specs.Floors.{NothingAnywhere};

    /// Nobody has had a job, nothing was settled, and the mark isn't set.
    pub fn new(alloc: Global, tenants: u32, book: Book<L>) -> Result<Hub<L>, AllocError>
        requires { book.total ≡ 0 }
        ensures { IfOk result (λ hub. hub ≡ new_shared tenants) }
    {
        let hall = Hall::new(alloc, tenants)?;
        let numbers = Numbers::new(alloc, tenants)?;
        Ok(Hub {
            hall,
            tenants,
            numbers,
            book,
            is_closed: false,
        })
    }

    /// Starts a job for a tenant that has none. Where it isn't taken, the spec comes back and nothing changes.
    pub fn submit(
        &mut self,
        alloc: Global,
        tenant: u32,
        spec: JobSpec,
    ) -> Result<(), (JobSpec, NotDone)>
        ensures begun { IfOk result (λ _. Submits self.old tenant spec self.new) }
        ensures refused { IfErr result (λ e. RefusesSpec self.old tenant e.1) }
        ensures back { IfErr result (λ e. (e.0 ≡ spec) × (self.new ≡ self.old)) }
    {
        if self.is_closed {
            return Err((spec, NotDone::Closed));
        }
        match self.hall.submit(alloc, tenant, spec) {
            Ok(()) => {
                self.numbers.count(tenant);
                Ok(())
            }
            Err((spec, SubmitFault::Busy)) => Err((spec, NotDone::Stranger)),
            Err((spec, SubmitFault::Memory)) => Err((spec, NotDone::Memory)),
        }
    }

    /// Takes in a job for a tenant that has none: the turn of a submit whose job was made before, with the lock free. By the
    /// ticket whoever brought it takes it out. Where it isn't taken, the job comes back and nothing changes. `Stranger` comes
    /// also where the tenant has had 2^64 - 2 jobs, and no number is left.
    pub(crate) fn enter(&mut self, tenant: u32, job: Job) -> Result<Ticket, (Job, NotDone)>
        ensures entered { IfOk result (λ ticket. Enters self.old tenant job ticket self.new) }
        ensures submitted { IfOk result (λ _. (spec : Spec) → Starts spec job → Submits self.old tenant spec self.new) }
        ensures refused { IfErr result (λ e. RefusesJob self.old tenant e.1) }
        ensures back { IfErr result (λ e. (e.0 ≡ job) × (self.new ≡ self.old)) }
    {
        if self.is_closed {
            return Err((job, NotDone::Closed));
        }
        let Some(ticket) = self.numbers.ticket(tenant) else {
            return Err((job, NotDone::Stranger));
        };
        match self.hall.enter(tenant, job) {
            Ok(()) => {
                self.numbers.count(tenant);
                Ok(ticket)
            }
            Err((job, SubmitFault::Busy)) => Err((job, NotDone::Stranger)),
            Err((job, SubmitFault::Memory)) => Err((job, NotDone::Memory)),
        }
    }

    /// A claimable piece of some tenant, by the turn, to worker `worker`, 1 to 16. A job whose claim is refused for
    /// memory fails at once.
    pub fn claim(&mut self, alloc: Global, turn: u64, worker: u32) -> Claimed
        requires worker { (1 ≤ worker) × (worker ≤ 16) }
        ensures { ClaimsAny self.old turn worker result self.new }
    {
        if self.is_closed {
            return Claimed::Closed;
        }
        match self.hall.claim(alloc, turn, worker) {
            Ok(Some((tenant, piece))) => Claimed::Got(tenant, piece),
            Ok(None) => Claimed::Idle,
            Err(NoMemory { tenant }) => {
                self.hall.abort(tenant);
                Claimed::Aborted(tenant)
            }
        }
    }

    /// Takes a piece back. Its units are added to the book and to the share, and are the answer. A piece that
    /// isn't settled, as each one in a closed pool, fails its job and counts nothing.
    pub fn settle(
        &mut self,
        alloc: Global,
        tenant: u32,
        done: Done,
        share: &mut Share<L>,
    ) -> Option<u32>
        requires { 0 < share.old.parts }
        ensures taken { ReturnsPiece self.old tenant done result self.new }
        ensures counted { IfSome result (λ units. share.new.amount ≡ share.old.amount + units) }
        ensures uncounted { IfNone result (share.new.amount ≡ share.old.amount) }
        ensures parts { share.new.parts ≡ share.old.parts }
    {
        let Hub {
            hall,
            tenants: _,
            numbers: _,
            book,
            is_closed,
        } = self;
        if *is_closed {
            hall.fail(tenant, done);
            return None;
        }
        match hall.settle(alloc, tenant, done) {
            Ok(units) => {
                book.add(share, u64::from(units));
                *is_closed = !has_room(hall);
                return Some(units);
            }
            Err((done, _)) => {
                hall.fail(tenant, done);
                return None;
            }
        }
    }

    /// What became of the tenant's job of this spec, if it is over. It is taken out.
    pub fn collect(&mut self, tenant: u32, spec: &JobSpec) -> Option<Result<Outcome, NotDone>>
        ensures collected { Collects self.old tenant spec.now result self.new }
        ensures meaning { IfSome result (λ answer. IfOk answer (λ outcome. IsMeaning spec.now outcome)) }
    {
        if self.is_closed {
            return Some(Err(NotDone::Closed));
        }
        match self.hall.collect(tenant, spec) {
            Collected::Pending => return None,
            Collected::Ended(outcome) => return Some(Ok(outcome)),
            Collected::Failed => return Some(Err(NotDone::Memory)),
            Collected::Stranger => return Some(Err(NotDone::Stranger)),
        }
    }

    /// Takes the ticket's job out, if it is over: the turn of a collect. What the client of a spec is told of it is
    /// `outcome_of`, with the lock free. None comes where the job isn't over, `Stranger` where the ticket's tenant has none, or
    /// a job of another ticket, which stays.
    pub(crate) fn leave(&mut self, ticket: &Ticket) -> Option<Result<Job, NotDone>>
        ensures { Leaves self.old ticket.now result self.new }
    {
        if self.is_closed {
            return Some(Err(NotDone::Closed));
        }
        if !self.numbers.is_newest(ticket) {
            return Some(Err(NotDone::Stranger));
        }
        let tenant = ticket.tenant();
        match self.hall.state(tenant) {
            None => return Some(Err(NotDone::Stranger)),
            Some(State::Working | State::Failing) => return None,
            Some(State::Ended | State::Failed) => return Some(Ok(self.hall.leave(tenant))),
        }
    }

    // Whether the tenant has a job that isn't over, in an open pool. Who asks takes no turn.
    pub(crate) fn is_pending(&self, tenant: u32) -> bool
        ensures { result ≡ is_job_going self.now tenant }
    {
        if self.is_closed {
            return false;
        }
        match self.hall.state(tenant) {
            Some(State::Working | State::Failing) => true,
            Some(State::Ended | State::Failed) | None => false,
        }
    }

    // Whether some tenant has a claimable task. Who asks takes no turn.
    pub(crate) fn any_claimable(&self) -> bool
        ensures some { IsTrue result → ¬ (NothingAnywhere self.now.floor.jobs) }
        ensures none { result ≡ false → NothingAnywhere self.now.floor.jobs }
    {
        self.hall.any_claimable()
    }

    /// Sets the mark of closing.
    pub fn close(&mut self)
        ensures { self.new ≡ record self.old { closed = true } }
    {
        self.is_closed = true;
    }

    /// The units that were settled for each tenant and for all. The shares are all that there are, and are spent.
    pub fn totals(&mut self, alloc: Global, shares: Vec<Share<L>>) -> Result<Usage, AllocError>
        requires some { 0 < vec_len shares }
        requires all { sum_by (λ s. s.parts) shares.items ≡ L.parts }
        ensures by_tenant { IfOk result (λ usage. usage.by_tenant.items ≡ self.old.floor.units) }
        ensures total { IfOk result (λ usage. usage.total ≡ sum_by (λ s. s.amount) shares.items) }
        ensures adds_up { IfOk result (λ usage. sum usage.by_tenant.items ≡ usage.total) }
        ensures same { self.new ≡ self.old }
    {
        let mut whole = merged(shares);
        self.book.audit(&mut whole);
        let by_tenant = self.by_tenant(alloc)?;
        let (_, total) = self.hall.units(0);
        Ok(Usage { by_tenant, total })
    }

    // The units that were settled for each tenant.
    fn by_tenant(&self, alloc: Global) -> Result<Vec<u64>, AllocError>
        ensures { IfOk result (λ units. units.items ≡ self.now.floor.units) }
    {
        let mut by_tenant = Vec::new(alloc);
        for tenant in 0..self.tenants {
            let (units, _) = self.hall.units(tenant);
            by_tenant.push(units)?;
        }
        Ok(by_tenant)
    }
}

ghost use Rattle.ot_check.specs.Jobs.{IsMeaning, Spec};
ghost use Rattle.ot_job.specs.Dealings.{Starts, IsOf, IsOver, live_state};
ghost use Rattle.ot_book.specs.declared.executor.NotDone.TheVariants.{Stranger};
ghost use Rattle.ot_pool.specs.Rounds.{is_aborted, is_job_going, is_short_piece};
ghost use Rattle.ot_pool.specs.Shared.{new_shared, Submits, Enters, RefusesSpec, RefusesJob, ClaimsAny, ReturnsPiece, Collects, Leaves, Shared, HasRoomForUnits};
ghost use Rattle.ot_pool.specs.declared.tickets.Ticket.{Ticket};

/// What whoever submitted this spec is told of a job that is over and was taken out. It takes no lock: with the turn
/// that took the job out it is a collect. `Stranger` comes where the job is of another spec, which is let go then, and
/// `Memory` where it has failed.
pub(crate) fn outcome_of(job: Job, spec: &JobSpec) -> Result<Outcome, NotDone>
    requires over { IsOver (live_state job) }
    ensures collected { (old new : Shared) (k : Ticket) → Leaves old k (Some (Ok job)) new → IsOf spec.now job → Collects old k.tenant spec.now (Some result) new }
    ensures strange { ¬ (IsOf spec.now job) → result ≡ Err Stranger }
    ensures meaning { IfOk result (λ outcome. IsMeaning spec.now outcome) }
{
    if !job.is_of(spec) {
        return Err(NotDone::Stranger);
    }
    match job.state() {
        State::Ended => return Ok(job.into_outcome()),
        State::Failed => return Err(NotDone::Memory),
        State::Working | State::Failing => unreachable!(),
    }
}

// Whether the total has room for the units of one more piece.
fn has_room(hall: &Hall) -> bool
    ensures { IsTrue result ↔ HasRoomForUnits hall.now }
{
    let (_, total) = hall.units(0);
    total < END_OF_UNITS - UNITS_OF_A_PIECE
}

// All shares as one.
fn merged<L: Ledger>(mut shares: Vec<Share<L>>) -> Share<L>
    requires { 0 < vec_len shares }
    ensures parts { result.parts ≡ sum_by (λ s. s.parts) shares.items }
    ensures amount { result.amount ≡ sum_by (λ s. s.amount) shares.items }
{
    let Some(mut all) = shares.pop() else {
        unreachable!()
    };
    while let Some(share) = shares.pop() {
        all.merge(share);
    }
    all
}
