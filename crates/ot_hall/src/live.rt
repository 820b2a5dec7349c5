ghost use Rattle.std.specs.Prelude.{◌≡◌, ◌<◌, length, None, Some, IfOk, IfErr, IsSome, replicate, slice_set, slice_get, option_copied};

use ot_check::JobSpec;
use ot_job::Job;
use slab::Slab;
use std::alloc::{AllocError, Global};
use std::marker::Model;

/// At most one live job a tenant.
#[derive(Drop)]
pub(crate) struct Jobs {
    slab: Slab<Job>,
    // The key of each tenant's job.
    keys: Vec<Option<usize>>,
}

impl Model for Jobs {
    ghost use Rattle.std.specs.Prelude.{List, Option};
    ghost use Rattle.std.specs.Coded.{codes};
    ghost use Rattle.ot_model.specs.Code.{body_code};
    ghost use Rattle.ot_job.specs.Dealings.{Live};

    ghost Value = { List (Option Live) };

    ghost coded = { Prim.hlevel (codes, body_code) };

    ghost use Rattle.ot_hall.specs.Index.{jobs_of, IsIndexed};

    ghost view = { jobs_of };

    ghost invariant = { IsIndexed };
}

impl Jobs {
    ghost use Rattle.std.specs.Borrow.{sem};
    ghost use Rattle.ot_hall.specs.Lending.{LendsJob};
    ghost use Rattle.ot_hall.specs.Floors.{job_of, has_claimable};
    ghost use Rattle.ot_hall.specs.Index.{Begins};

    /// Nobody has a job.
    pub(crate) fn new(alloc: Global, tenants: u32) -> Result<Jobs, AllocError>
        ensures { IfOk result (λ jobs. jobs ≡ replicate tenants None) }
    {
        let mut keys = Vec::new(alloc);
        for _ in 0..tenants {
            keys.push(None)?;
        }
        Ok(Jobs {
            slab: Slab::new(alloc),
            keys,
        })
    }

    /// How many tenants there are.
    pub(crate) fn tenants(&self) -> usize
        ensures { result ≡ length self.now }
    {
        self.keys.len()
    }

    /// The tenant's job.
    pub(crate) fn get(&self, tenant: u32) -> Option<&Job>
        ensures { option_copied result ≡ job_of self.now tenant }
    {
        let key: Option<usize> = *self.keys.get(tenant as usize)?;
        self.slab.get(key?)
    }

    /// Whether the tenant has a claimable task.
    pub(crate) fn has_claimable(&self, tenant: u32) -> bool
        ensures { result ≡ has_claimable (job_of self.now tenant) }
    {
        match self.get(tenant) {
            Some(job) => job.claimable() > 0,
            None => false,
        }
    }

    /// The tenant's job, for a change.
    pub(crate) fn get_mut(&mut self, tenant: u32) -> &mut Job
        requires { IsSome (job_of self.old tenant) }
        ensures* writes_back { sem 𝓛 (LendsJob self.entry tenant result) }
        ensures value { job_of self.old tenant ≡ Some result.now }
    {
        let Some(key) = self.keys[tenant as usize] else {
            unreachable!()
        };
        &mut self.slab[key]
    }

    /// Starts a job for a tenant that has none.
    pub(crate) fn begin(
        &mut self,
        alloc: Global,
        tenant: u32,
        spec: JobSpec,
    ) -> Result<(), (JobSpec, AllocError)>
        requires { slice_get self.old tenant ≡ Some None }
        ensures begun { IfOk result (λ _. Begins self.old tenant spec self.new) }
        ensures back { IfErr result (λ e. (e.0 ≡ spec) × (self.new ≡ self.old)) }
    {
        if let Err(error) = self.slab.reserve(1) {
            return Err((spec, error));
        }
        let job = Job::start(alloc, spec)?;
        let key = self.slab.insert_reserved(job);
        self.keys[tenant as usize] = Some(key);
        Ok(())
    }

    /// Takes in a job for a tenant that has none. Where memory is refused, the job comes back.
    pub(crate) fn enter(&mut self, tenant: u32, job: Job) -> Result<(), Job>
        requires { slice_get self.old tenant ≡ Some None }
        ensures entered { IfOk result (λ _. self.new ≡ slice_set self.old tenant (Some job)) }
        ensures back { IfErr result (λ e. (e ≡ job) × (self.new ≡ self.old)) }
    {
        if self.slab.reserve(1).is_err() {
            return Err(job);
        }
        let key = self.slab.insert_reserved(job);
        self.keys[tenant as usize] = Some(key);
        Ok(())
    }

    /// Takes the tenant's job out.
    pub(crate) fn take(&mut self, tenant: u32) -> Job
        requires { IsSome (job_of self.old tenant) }
        ensures job { job_of self.old tenant ≡ Some result }
        ensures left { self.new ≡ slice_set self.old tenant None }
    {
        let Some(key) = self.keys[tenant as usize] else {
            unreachable!()
        };
        self.keys[tenant as usize] = None;
        self.slab.remove(key)
    }
}
