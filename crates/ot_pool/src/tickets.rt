ghost use Rattle.std.specs.Prelude.{◌≡◌, ◌↔◌, IsTrue, IfOk, MatchOption, replicate};
ghost use Rattle.ot_pool.specs.Tickets.{ticket_number, after, one_ticket_more, HasTicket, next_ticket, IsNewest};

use std::alloc::{AllocError, Global};
use std::marker::Model;

/// The last number, which no ticket has: all jobs of a tenant that come once it is reached have it.
const LAST: u64 = u64::MAX;

/// Which job was taken in: whose it is, and its number among the jobs of that tenant. Whoever brought the job has it, it
/// can't be copied, and no other job gets the same.
#[derive(Debug, Drop)]
pub(crate) struct Ticket {
    tenant: u32,
    number: u64,
}

impl Ticket {
    /// Whose job it is.
    pub(crate) fn tenant(&self) -> u32
        ensures { result ≡ self.now.tenant }
    {
        self.tenant
    }
}

/// The number of each tenant's newest job. A tenant's jobs are numbered from 1.
#[derive(Drop)]
pub(crate) struct Numbers {
    newest: Vec<u64>,
}

impl Model for Numbers {
    ghost use Rattle.std.specs.Prelude.{List, ℕ};

    ghost Value = { List ℕ };

    ghost view = { λ n. n.newest.items };
}

impl Numbers {
    /// Nobody has had a job.
    pub(crate) fn new(alloc: Global, tenants: u32) -> Result<Numbers, AllocError>
        ensures { IfOk result (λ numbers. numbers ≡ replicate tenants 0) }
    {
        let newest = vec![in alloc; 0u64; tenants as usize]?;
        Ok(Numbers { newest })
    }

    /// The number of the tenant's newest job.
    fn newest(&self, tenant: u32) -> u64
        ensures { result ≡ ticket_number self.now tenant }
    {
        match self.newest.get(tenant as usize) {
            Some(number) => *number,
            None => 0,
        }
    }

    /// The ticket for the tenant's next job, as long as there are numbers.
    pub(crate) fn ticket(&self, tenant: u32) -> Option<Ticket>
        ensures { MatchOption result (¬ (HasTicket self.now tenant)) (λ k. HasTicket self.now tenant × (k ≡ next_ticket self.now tenant)) }
    {
        let newest = self.newest(tenant);
        if newest >= LAST - 1 {
            return None;
        }
        Some(Ticket {
            tenant,
            number: newest + 1,
        })
    }

    /// The tenant has one job more.
    pub(crate) fn count(&mut self, tenant: u32)
        ensures { self.new ≡ one_ticket_more self.old tenant }
    {
        if let Some(number) = self.newest.get_mut(tenant as usize) {
            *number = after(*number);
        }
    }

    /// Whether the ticket is that of its tenant's newest job.
    pub(crate) fn is_newest(&self, ticket: &Ticket) -> bool
        ensures { IsTrue result ↔ IsNewest self.now ticket.now }
    {
        self.newest(ticket.tenant) == ticket.number
    }
}

// The number that comes next.
fn after(number: u64) -> u64
    ensures { result ≡ after number }
{
    if number < LAST { number + 1 } else { number }
}
