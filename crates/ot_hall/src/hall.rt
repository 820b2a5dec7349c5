ghost use Rattle.std.specs.Prelude.{◌≡◌, ◌<◌, length, ◌≢◌, ◌↔◌, ◌≤◌, ◌+◌, ◌^◌, [], None, Some, IfOk, IfErr, OnErr, IsTrue, IsSome, false, option_map};

use crate::live::Jobs;
use crate::marks::Marks;
use ot_check::{JobSpec, Outcome};
use ot_job::{Done, Job, Piece, Refused, State};
use std::alloc::{AllocError, Global};
use std::marker::Model;

/// The live jobs, at most one a tenant, and the units that were settled for each.
#[derive(Drop)]
pub struct Hall {
    jobs: Jobs,
    // Set where the tenant has a claimable task.
    marks: Marks,
    units: Vec<u64>,
    total: u64,
}

/// Why a spec isn't taken.
#[derive(Clone, Copy, Debug, PartialEq, Eq)]
pub enum SubmitFault {
    /// The tenant has a job, or there is no such tenant.
    Busy,
    /// Memory was refused.
    Memory,
}

/// Memory was refused at a claim of this tenant's job, which has a claimable task.
#[derive(Clone, Copy, Debug, PartialEq, Eq)]
pub struct NoMemory {
    pub tenant: u32,
}

/// What became of a job.
#[derive(Debug, Drop)]
pub enum Collected {
    /// It isn't over.
    Pending,
    /// It has ended.
    Ended(Outcome),
    /// It has failed.
    Failed,
    /// The tenant has no job, or one of another spec.
    Stranger,
}

impl Model for Hall {
    ghost use Rattle.std.specs.Coded.{codes};
    ghost use Rattle.ot_model.specs.Code.{body_code};
    ghost use Rattle.ot_hall.specs.Floors.{Floor};

    ghost Value = { Floor };

    ghost coded = { Prim.hlevel (codes, body_code) };

    ghost use Rattle.ot_hall.specs.FloorView.{floor_of, IsHall};

    ghost view = { floor_of };

    ghost invariant = { IsHall };
}

impl Hall {
    ghost use Rattle.ot_job.specs.Dealings.{claimable_in, live_state};
    ghost use Rattle.ot_hall.specs.Floors.{job_of, new_floor, tenant_units, total_of, IsFree, SubmitsFor, EntersFor, ClaimsOf, IsWorking, NothingAt, SettlesFor, RefusesIn, FailsIn, AbortsJob, CollectsFor, HasOver, LeavesFor, NothingAnywhere, ClaimsSome, RunsShort};
    ghost use Rattle.ot_hall.specs.Index.{IsNext};
    ghost use Rattle.ot_hall.specs.Lively.{claimable_count, over_of};
    ghost use Rattle.ot_hall.specs.Lively.{LivelyAt};
    ghost use Rattle.ot_hall.specs.declared.hall.SubmitFault.TheVariants.{Busy};

    /// Nobody has a job, and nothing was settled.
    pub fn new(alloc: Global, tenants: u32) -> Result<Hall, AllocError>
        ensures { IfOk result (λ hall. hall ≡ new_floor tenants) }
    {
        let jobs = Jobs::new(alloc, tenants)?;
        let marks = Marks::new(alloc, tenants)?;
        let units = vec![in alloc; 0u64; tenants as usize]?;
        Ok(Hall {
            jobs,
            marks,
            units,
            total: 0,
        })
    }

    /// Starts a job for a tenant that has none.
    pub fn submit(
        &mut self,
        alloc: Global,
        tenant: u32,
        spec: JobSpec,
    ) -> Result<(), (JobSpec, SubmitFault)>
        ensures begun { IfOk result (λ _. SubmitsFor self.old tenant spec self.new) }
        ensures busy { IfErr result (λ e. e.1 ≡ Busy ↔ ¬ (IsFree self.old tenant)) }
        ensures back { IfErr result (λ e. (e.0 ≡ spec) × (self.new ≡ self.old)) }
    {
        if tenant as usize >= self.jobs.tenants() {
            return Err((spec, SubmitFault::Busy));
        }
        if let Some(_) = self.jobs.get(tenant) {
            return Err((spec, SubmitFault::Busy));
        }
        if let Err((spec, _)) = self.jobs.begin(alloc, tenant, spec) {
            return Err((spec, SubmitFault::Memory));
        }
        self.marks.put(tenant, self.jobs.has_claimable(tenant));
        Ok(())
    }

    /// Takes in a job for a tenant that has none. It takes no longer however long the job's program is. `Busy` comes
    /// where the tenant has a job or there is no such tenant, and with each refusal the job comes back.
    pub fn enter(&mut self, tenant: u32, job: Job) -> Result<(), (Job, SubmitFault)>
        ensures entered { IfOk result (λ _. EntersFor self.old tenant job self.new) }
        ensures busy { IfErr result (λ e. e.1 ≡ Busy ↔ ¬ (IsFree self.old tenant)) }
        ensures back { IfErr result (λ e. (e.0 ≡ job) × (self.new ≡ self.old)) }
    {
        if tenant as usize >= self.jobs.tenants() {
            return Err((job, SubmitFault::Busy));
        }
        if let Some(_) = self.jobs.get(tenant) {
            return Err((job, SubmitFault::Busy));
        }
        if let Err(job) = self.jobs.enter(tenant, job) {
            return Err((job, SubmitFault::Memory));
        }
        self.marks.put(tenant, self.jobs.has_claimable(tenant));
        Ok(())
    }

    /// A claimable piece of the tenant's job, to worker `worker`, 1 to 16.
    pub fn claim_of(
        &mut self,
        alloc: Global,
        tenant: u32,
        pick: usize,
        worker: u32,
    ) -> Result<Option<Piece>, AllocError>
        requires worker { (1 ≤ worker) × (worker ≤ 16) }
        ensures claimed { IfOk result (λ piece. ClaimsOf self.old tenant pick worker piece self.new) }
        ensures refused { OnErr result (RunsShort self.old tenant self.new) }
    {
        if self.jobs.get(tenant).is_none() {
            return Ok(None);
        }
        let claimed = self.jobs.get_mut(tenant).claim(alloc, pick, worker);
        self.marks.put(tenant, self.jobs.has_claimable(tenant));
        claimed
    }

    /// A claimable piece of some tenant, by the turn, where a tenant has one, to worker `worker`, 1 to 16.
    pub fn claim(
        &mut self,
        alloc: Global,
        turn: u64,
        worker: u32,
    ) -> Result<Option<(u32, Piece)>, NoMemory>
        requires worker { (1 ≤ worker) × (worker ≤ 16) }
        ensures claimed { IfOk result (λ claimed. ClaimsSome self.old turn worker claimed self.new) }
        ensures refused { IfErr result (λ e. RunsShort self.old e.tenant self.new) }
    {
        let tenants = self.jobs.tenants() as u64;
        if tenants == 0 {
            return Ok(None);
        }
        let Some(tenant) = self.next_from((turn % tenants) as u32) else {
            return Ok(None);
        };
        match self.claim_of(alloc, tenant, turn as usize, worker) {
            Ok(Some(piece)) => Ok(Some((tenant, piece))),
            Ok(None) => unreachable!(),
            Err(_) => Err(NoMemory { tenant }),
        }
    }

    // The first tenant with a claimable task from this one on, and else the first of all.
    fn next_from(&self, first: u32) -> Option<u32>
        ensures { IsNext self.now.jobs first result }
    {
        match self.marks.first_from(first) {
            Some(tenant) => Some(tenant),
            None => self.marks.first_from(0),
        }
    }

    /// Takes a piece of the tenant back. Its units are counted for the tenant and in the total.
    pub fn settle(&mut self, alloc: Global, tenant: u32, done: Done) -> Result<u32, (Done, Refused)>
        requires { total_of self.old + 20000 < 2 ^ 63 }
        ensures settled { IfOk result (λ units. SettlesFor self.old tenant done units self.new) }
        ensures few { IfOk result (λ units. units ≤ 20000) }
        ensures same { IfErr result (λ r. r.0 ≡ done) }
        ensures refuses { IfErr result (λ r. RefusesIn (job_of self.old.jobs tenant) done r.1) }
        ensures refused { OnErr result (self.new ≡ self.old) }
    {
        if self.jobs.get(tenant).is_none() {
            return Err((done, Refused::Stranger));
        }
        let settled = self.jobs.get_mut(tenant).settle(alloc, done);
        self.marks.put(tenant, self.jobs.has_claimable(tenant));
        let units = match settled {
            Ok(units) => units,
            Err(refused) => return Err(refused),
        };
        self.units[tenant as usize] += u64::from(units);
        self.total += u64::from(units);
        Ok(units)
    }

    /// A piece of the tenant comes back and fails its job.
    pub fn fail(&mut self, tenant: u32, done: Done)
        ensures { FailsIn self.old tenant done (job_of self.old.jobs tenant) self.new }
    {
        if self.jobs.get(tenant).is_none() {
            done.discard();
            return;
        }
        self.jobs.get_mut(tenant).fail(done);
        self.marks.put(tenant, self.jobs.has_claimable(tenant));
    }

    /// The tenant's job fails.
    pub fn abort(&mut self, tenant: u32)
        requires { IsWorking self.old tenant }
        ensures { AbortsJob self.old tenant self.new }
    {
        self.jobs.get_mut(tenant).abort();
        self.marks.put(tenant, self.jobs.has_claimable(tenant));
    }

    /// What became of the tenant's job of this spec. One that is over is taken out.
    pub fn collect(&mut self, tenant: u32, spec: &JobSpec) -> Collected
        ensures { CollectsFor self.old tenant spec.now result self.new }
    {
        let Some(job) = self.jobs.get(tenant) else {
            return Collected::Stranger;
        };
        if !job.is_of(spec) {
            return Collected::Stranger;
        }
        match job.state() {
            State::Working | State::Failing => return Collected::Pending,
            State::Ended => {
                let job = self.jobs.take(tenant);
                self.marks.put(tenant, false);
                return Collected::Ended(job.into_outcome());
            }
            State::Failed => {
                let job = self.jobs.take(tenant);
                self.marks.put(tenant, false);
                let _ = job.into_spec();
                return Collected::Failed;
            }
        }
    }

    /// Takes the tenant's job out, which is over. It takes no longer however long the job's program is.
    pub fn leave(&mut self, tenant: u32) -> Job
        requires { HasOver self.old tenant }
        ensures { LeavesFor self.old tenant result self.new }
    {
        let job = self.jobs.take(tenant);
        self.marks.put(tenant, false);
        job
    }

    /// How the tenant's job stands.
    pub fn state(&self, tenant: u32) -> Option<State>
        ensures { result ≡ option_map (λ j. live_state j) (job_of self.now.jobs tenant) }
    {
        let job = self.jobs.get(tenant)?;
        Some(job.state())
    }

    /// Whether some tenant has a claimable task.
    pub fn any_claimable(&self) -> bool
        ensures some { IsTrue result → ¬ (NothingAnywhere self.now.jobs) }
        ensures none { result ≡ false → NothingAnywhere self.now.jobs }
    {
        self.marks.first_from(0).is_some()
    }

    /// How many tasks of the tenant are claimable.
    pub fn claimable(&self, tenant: u32) -> usize
        ensures some { (j : _) → job_of self.now.jobs tenant ≡ Some j → result ≡ length (claimable_in j) }
        ensures none { job_of self.now.jobs tenant ≡ None → result ≡ 0 }
    {
        match self.jobs.get(tenant) {
            Some(job) => job.claimable(),
            None => 0,
        }
    }

    /// How many tasks of the tenant are claimable, at most 20,001, and 1 where its job is over, else 0. A job that works with no
    /// piece out has a claimable task, and one that fails has a piece out.
    pub fn outlook(&self, tenant: u32) -> (u64, u64)
        ensures claimable { result.0 ≡ claimable_count (job_of self.now.jobs tenant) }
        ensures few { result.0 ≤ 20001 }
        ensures over { result.1 ≡ over_of (job_of self.now.jobs tenant) }
        ensures one { result.1 ≤ 1 }
        ensures lively { LivelyAt (job_of self.now.jobs tenant) }
    {
        let Some(job) = self.jobs.get(tenant) else {
            return (0, 0);
        };
        let claimable = job.claimable() as u64;
        match job.state() {
            State::Working | State::Failing => (claimable, 0),
            State::Ended | State::Failed => (claimable, 1),
        }
    }

    /// The units that were settled for the tenant, and for all.
    pub fn units(&self, tenant: u32) -> (u64, u64)
        ensures { result ≡ (tenant_units self.now tenant, total_of self.now) }
    {
        match self.units.get(tenant as usize) {
            Some(units) => (*units, self.total),
            None => (0, self.total),
        }
    }
}
