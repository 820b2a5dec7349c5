use crate::pool::Pool;
use ot_book::{Executor, NotDone};
use ot_check::{JobSpec, Outcome};
use std::alloc::Global;
use std::sync::Wait;
use std::sync::ledger::Ledger;

/// Runs a tenant's jobs on a pool.
#[derive(Drop)]
pub struct Client<'a, L: Ledger, R: Wait> {
    rt: &'a R,
    pool: &'a Pool<L>,
    tenant: u32,
}

impl<'a, L: Ledger, R: Wait> Client<'a, L, R> {
    /// A client of this tenant.
    pub fn new(rt: &'a R, pool: &'a Pool<L>, tenant: u32) -> Client<'a, L, R> {
        Client { rt, pool, tenant }
    }
}

impl<'a, L: Ledger, R: Wait> Executor for Client<'a, L, R> {
    ghost use Rattle.std.specs.Prelude.{IfOk};
    ghost use Rattle.ot_check.specs.Jobs.{IsMeaning};

    /// Submits a copy of the spec and waits until the job is over. `Closed` comes where the pool is closed, also
    /// when the job has ended, `Memory` where the copy or the job met want of memory, and `Stranger` where the
    /// pool has no such tenant, holds another job of it, or has no number left for one.
    fn perform(&mut self, alloc: Global, spec: &JobSpec) -> Result<Outcome, NotDone>
        ensures { IfOk result (λ outcome. IsMeaning spec.now outcome) }
    {
        let copied = spec.copy(alloc)?;
        let ticket = self.pool.submit(self.rt, alloc, self.tenant, copied)?;
        self.pool.collect(self.rt, ticket, spec)
    }
}
