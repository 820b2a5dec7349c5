//! Many clients, who ask for one job after the other.
ghost use Rattle.std.specs.Prelude.{◌≤◌};

use super::play::play_crowd;
use super::reading::job_of;
use super::scene::{NO_TENANT, in_lines};
use ot_book::{Executor, NotDone, Solo};
use ot_check::{JobSpec, Outcome};
use ot_pool::{Client, Pool};
use std::alloc::{AllocError, Global};
use std::sync::Wait;
use std::sync::ledger::Ledger;
use std::thread;
use std::thread::Threads;

/// A job, and its outcome where one thread runs each of its tasks where it is created.
#[derive(Drop)]
pub(crate) struct Known {
    spec: JobSpec,
    meant: Outcome,
}

impl Known {
    pub(crate) fn new(alloc: Global, spec: JobSpec) -> Result<Known, NotDone> {
        let meant = Solo.perform(alloc, &spec)?;
        Ok(Known { spec, meant })
    }

    pub(crate) fn spec(&self) -> &JobSpec {
        &self.spec
    }

    pub(crate) fn units(&self) -> u64 {
        u64::from(self.meant.counts.units)
    }

    pub(crate) fn tasks(&self) -> u64 {
        u64::from(self.meant.counts.tasks)
    }

    fn is_meant(&self, performed: &Result<Outcome, NotDone>) -> bool {
        match performed {
            Ok(outcome) => {
                outcome.counts == self.meant.counts
                    && outcome.cells.arrays() == self.meant.cells.arrays()
            }
            Err(_) => false,
        }
    }
}

/// So many clients, each of a tenant of its own, who ask for so many jobs each.
#[derive(Drop)]
pub(crate) struct Crowd {
    pub clients: u32,
    pub asked: u32,
    pub jobs: Vec<Known>,
}

impl Crowd {
    /// How many jobs of the client of a tenant have another outcome, or none. Each client begins with
    /// another job, and goes round.
    pub(crate) fn ask<L: Ledger, R: Wait>(
        &self,
        rt: &R,
        alloc: Global,
        pool: &Pool<L>,
        tenant: u32,
    ) -> Result<String, AllocError> {
        let mut client = Client::new(rt, pool, tenant);
        let mut others: u32 = 0;
        for turn in 0..self.asked {
            let place = turn.saturating_add(tenant) as usize;
            let place = place.checked_rem(self.jobs.len()).unwrap_or(0);
            let is_meant = match self.jobs.get(place) {
                Some(job) => job.is_meant(&client.perform(alloc, &job.spec)),
                None => false,
            };
            if !is_meant {
                others = others.saturating_add(1);
            }
        }
        format!(in alloc; "{others} others")
    }

    /// What the clients are told, one after the other, with a line feed behind each.
    pub(crate) fn played<L: Ledger + Send + Sync, R: Threads + Wait + Sync>(
        &self,
        rt: &R,
        alloc: Global,
        pool: &Pool<L>,
    ) -> Result<String, AllocError> {
        let clients = self.clients as usize;
        in_lines(alloc, side_by_side(rt, alloc, pool, self, clients)?)
    }

    /// What all clients are told whose jobs all have their outcomes.
    pub(crate) fn all_meant(&self, alloc: Global) -> Result<String, AllocError> {
        "0 others\n".repeat(alloc, self.clients as usize)
    }
}

/// Where a crowd asks. A client's thread borrows a pool as such a place, and a crowd as what asks there: so whether it
/// may is asked of the two alone, and not of all that they are made of.
trait Asked<C> {
    /// What a client of a crowd is told.
    fn told<R: Wait>(
        &self,
        rt: &R,
        alloc: Global,
        crowd: &C,
        client: u32,
    ) -> Result<String, AllocError>;
}

impl<L: Ledger> Asked<Crowd> for Pool<L> {
    fn told<R: Wait>(
        &self,
        rt: &R,
        alloc: Global,
        crowd: &Crowd,
        client: u32,
    ) -> Result<String, AllocError> {
        crowd.ask(rt, alloc, self, client)
    }
}

/// What each of so many clients of a crowd is told.
fn side_by_side<P: Asked<C> + Sync, C: Sync, R: Threads + Wait + Sync>(
    rt: &R,
    alloc: Global,
    asked: &P,
    crowd: &C,
    clients: usize,
) -> Result<Vec<Result<String, AllocError>>, AllocError> {
    thread::map_indices(
        rt,
        alloc,
        clients,
        &|client: usize| {
            let client = u32::try_from(client).unwrap_or(NO_TENANT);
            asked.told(rt, alloc, crowd, client)
        },
    )
}

/// Bodies over 1 to 8: chains, readers beside writers, tasks in tasks, and reductions with two to eight
/// adders; then folds by each operation, and waits that declare cells.
const BODIES: &str = r#"[["for","i",0,4,[["task",[["inout",["a",0,1]]],[["add",["c","a",0],"i"]]]]]]
[["for","i",1,4,[["task",[["in",["a",["-","i",1],1]],["out",["a","i",1]]],[["set",["c","a","i"],["*",["c","a",["-","i",1]],3]]]]]]]
[["for","i",0,2,[["task",[["inout",["a",0,1]]],[["set",["c","a",0],["*",["c","a",0],2]]]],["task",[["inout",["a",1,1]]],[["set",["c","a",1],["+",["c","a",1],"i"]]]]]],["wait"],["set",["c","a",2],["-",["c","a",0],["c","a",1]]]]
[["task",[["inout",["a",0,4]]],[["for","i",0,4,[["add",["c","a","i"],5]]]]],["task",[["inout",["a",3,4]]],[["for","i",3,7,[["set",["c","a","i"],["*",["c","a",3],"i"]]]]]],["task",[["inout",["a",6,2]]],[["set",["c","a",7],["c","a",6]]]]]
[["task",[["out",["a",0,1]]],[["set",["c","a",0],40]]],["for","i",1,4,[["task",[["in",["a",0,1]],["out",["a","i",1]]],[["set",["c","a","i"],["+",["c","a",0],"i"]]]]]]]
[["for","i",1,3,[["task",[["in",["a",0,1]],["inout",["a","i",1]]],[["add",["c","a","i"],["c","a",0]]]]]],["task",[["out",["a",0,1]]],[["set",["c","a",0],99]]],["task",[["in",["a",0,1]],["inout",["a",1,1]]],[["add",["c","a",1],["c","a",0]]]]]
[["task",[["out",["a",0,4]]],[["for","i",0,4,[["set",["c","a","i"],["*","i","i"]]]]]],["for","i",4,6,[["task",[["in",["a",0,4]],["out",["a","i",1]]],[["set",["c","a","i"],["pick",["a",0,4],"i"]]]]]],["task",[["out",["a",1,2]]],[["set",["c","a",1],7],["set",["c","a",2],8]]]]
[["task",[["in",["a",0,2]],["inout",["a",2,1]]],[["if",["<",["c","a",0],["c","a",1]],[["set",["c","a",2],1]],[["set",["c","a",2],2]]]]],["task",[["inout",["a",0,1]]],[["set",["c","a",0],50]]],["task",[["in",["a",0,2]],["inout",["a",3,1]]],[["if",["<",["c","a",0],["c","a",1]],[["set",["c","a",3],1]],[["set",["c","a",3],2]]]]]]
[["task",[["inout",["a",0,3]]],[["task",[["out",["a",0,1]]],[["set",["c","a",0],4]]],["task",[["out",["a",1,1]]],[["set",["c","a",1],5]]],["wait"],["set",["c","a",2],["+",["c","a",0],["c","a",1]]]]]]
[["task",[["inout",["a",0,3]]],[["task",[["inout",["a",0,2]]],[["task",[["inout",["a",0,1]]],[["add",["c","a",0],10]]],["wait"],["add",["c","a",1],["c","a",0]]]],["wait"],["add",["c","a",2],["c","a",1]]]],["task",[["in",["a",0,3]],["out",["a",3,1]]],[["set",["c","a",3],["+",["c","a",0],["c","a",2]]]]]]
[["if",["=",["c","a",0],1],[["task",[["inout",["a",0,2]]],[["group",[],[["task",[["inout",["a",0,1]]],[["add",["c","a",0],6]]],["task",[["inout",["a",1,1]]],[["add",["c","a",1],7]]]]],["add",["c","a",0],["c","a",1]]]]],[["set",["c","a",0],0]]],["task",[["in",["a",0,1]],["out",["a",2,1]]],[["set",["c","a",2],["c","a",0]]]]]
[["group",[["a",0,1]],[["task",[["red",["a",0,1]]],[["task",[["red",["a",0,1]]],[["add",["c","a",0],4]]],["add",["c","a",0],3],["wait"]]]]],["set",["c","a",1],["c","a",0]]]
[["task",[["inout",["a",0,2]]],[["group",[["a",0,1]],[["for","i",0,2,[["task",[["red",["a",0,1]]],[["add",["c","a",0],"i"]]]]]]],["set",["c","a",1],["c","a",0]]]],["task",[["in",["a",1,1]],["out",["a",2,1]]],[["set",["c","a",2],["*",["c","a",1],2]]]]]
[["group",[["a",0,1]],[["for","i",0,2,[["task",[["red",["a",0,1]]],[["add",["c","a",0],18446744073709551615]]]]]]]]
[["group",[["a",0,1]],[["for","i",0,3,[["task",[["red",["a",0,1]]],[["add",["c","a",0],["+","i",100]]]]]]]],["add",["c","a",1],["c","a",0]]]
[["group",[["a",0,2]],[["for","i",0,4,[["task",[["red",["a",0,2]]],[["add",["c","a",0],"i"],["add",["c","a",1],["*","i","i"]]]]]]]]]
[["group",[["a",0,1]],[["for","i",1,6,[["task",[["red",["a",0,1]],["in",["a","i",1]]],[["add",["c","a",0],["c","a","i"]]]]]]]],["task",[["in",["a",0,1]],["out",["a",7,1]]],[["set",["c","a",7],["c","a",0]]]]]
[["group",[["a",0,1]],[["for","i",1,7,[["task",[["red",["a",0,1]],["inout",["a","i",1]]],[["if",["<",["c","a","i"],5],[["add",["c","a",0],["c","a","i"]]],[["set",["c","a","i"],0]]]]]]]]]]
[["group",[["a",0,1]],[["for","j",0,7,[["task",[["red",["a",0,1]]],[["add",["c","a",0],"j"]]]]]]],["set",["c","a",1],["-",["c","a",1],["c","a",0]]]]
[["group",[["a",0,1]],[["for","i",0,8,[["task",[["red",["a",0,1]]],[["add",["c","a",0],["*","i",1000]]]]]]]],["if",["<",["c","a",0],1000],[["set",["c","a",1],1]],[["task",[["inout",["a",0,1]]],[["add",["c","a",0],1]]]]]]
program2 [["group","max",[["a",0,1]],[["for","i",1,8,[["task",[["red","max",["a",0,1]],["in",["a","i",1]]],[["fold","max",["c","a",0],["*",["c","a","i"],["c","a","i"]]]]]]]]]]
program2 [["group","*",[["a",0,1]],[["group","^",[["a",1,1]],[["for","i",2,8,[["task",[["red","*",["a",0,1]],["red","^",["a",1,1]],["in",["a","i",1]]],[["fold","*",["c","a",0],["c","a","i"]],["fold","^",["c","a",1],["c","a","i"]]]]]]]]]],["set",["c","a",2],["+",["c","a",0],["c","a",1]]]]
program2 [["group","min",[["a",7,1]],[["group","|",[["a",1,2]],[["for","i",3,8,[["task",[["red","min",["a",7,1]],["red","|",["a",1,2]]],[["fold","min",["c","a",7],"i"],["fold","|",["c","a",1],"i"],["fold","|",["c","a",2],["*","i","i"]]]]]]]]]],["task",[["inout",["a",1,2]]],[["fold","&",["c","a",1],["c","a",2]]]]]
program2 [["for","i",0,4,[["task",[["out",["a","i",1]]],[["set",["c","a","i"],["*","i",3]]]]]],["wait",[["in",["a",1,1]]]],["set",["c","a",4],["c","a",1]],["wait",[["inout",["a",2,2]]]],["set",["c","a",2],["+",["c","a",3],["c","a",4]]]]
program2 [["group","+",[["a",0,1]],[["for","i",1,6,[["task",[["red","+",["a",0,1]],["in",["a","i",1]]],[["fold","+",["c","a",0],["c","a","i"]]]]]],["wait",[["out",["a",1,2]]]],["set",["c","a",1],0],["set",["c","a",2],9]]],["set",["c","a",3],["c","a",0]]]
program2 [["task",[["inout",["a",0,3]]],[["task",[["out",["a",0,1]]],[["set",["c","a",0],4]]],["task",[["out",["a",1,1]]],[["set",["c","a",1],5]]],["wait",[["in",["a",0,1]]]],["set",["c","a",2],["c","a",0]],["wait",[["inout",["a",1,1]]]],["add",["c","a",2],["c","a",1]]]]]"#;

/// The jobs of all bodies.
fn known_jobs(alloc: Global) -> Result<Vec<Known>, AllocError> {
    let mut jobs = Vec::new(alloc);
    for body in BODIES.lines() {
        let Ok(spec) = job_of(alloc, 8, body) else {
            return Err(AllocError);
        };
        let Ok(job) = Known::new(alloc, spec) else {
            return Err(AllocError);
        };
        jobs.push(job)?;
    }
    Ok(jobs)
}

/// The units of these jobs, each so many times.
fn units_of(jobs: &[Known], rounds: u32) -> u64 {
    let mut units: u64 = 0;
    for job in jobs {
        units = units.saturating_add(job.units());
    }
    units.saturating_mul(u64::from(rounds))
}

/// Whether each of so many clients is told what its jobs mean, by so many workers, and all units of them are
/// counted. Each client asks for each job so many times.
fn is_told<R: Threads + Wait + Sync>(
    rt: &R,
    alloc: Global,
    clients: u32,
    workers: u32,
    rounds: u32,
) -> Result<bool, AllocError>
    requires { (1 ≤ workers) × (workers ≤ 16) × (clients ≤ 64) }
{
    let jobs = known_jobs(alloc)?;
    let of_each = units_of(&jobs, rounds);
    let crowd = Crowd {
        clients,
        asked: rounds.saturating_mul(u32::try_from(jobs.len()).unwrap_or(0)),
        jobs,
    };
    let said = crowd.all_meant(alloc)?;
    let by_tenant = vec![in alloc; of_each; clients as usize]?;
    let total = of_each.saturating_mul(u64::from(clients));
    let told = play_crowd(rt, alloc, clients, workers, &crowd)?;
    Ok(told.is(said.as_str(), by_tenant.as_slice(), total))
}

#[test]
fn each_of_eight_clients_is_told_what_its_jobs_mean_by_four_workers(rt: HostRuntime) {
    assert_eq!(rt; is_told(&rt, rt.alloc(), 8, 4, 10), Ok(true));
}

#[test]
fn one_client_is_told_what_its_jobs_mean_by_sixteen_workers(rt: HostRuntime) {
    assert_eq!(rt; is_told(&rt, rt.alloc(), 1, 16, 2), Ok(true));
}

#[test]
fn each_of_sixteen_clients_is_told_what_its_jobs_mean_by_one_worker(rt: HostRuntime) {
    assert_eq!(rt; is_told(&rt, rt.alloc(), 16, 1, 1), Ok(true));
}
