//! Workers and sessions side by side.
ghost use Rattle.std.specs.Prelude.{◌≡◌, ◌≤◌, ◌<◌, IfOk, IfErr, vec_len, sum};
ghost use Rattle.std.specs.List.{All, sum_by};
ghost use Rattle.ot_serve.specs.Serving.{IsInRange};
ghost use Rattle.ot_serve.specs.Starting.{IsLate};

use crate::door::Door;
use crate::fault::Fault;
use crate::serve::Serve;
use ot_front::{Desk, listen};
use ot_pool::{OpenGate, Pool, Usage, staffed, totals};
use std::alloc::Global;
use std::fs::Files;
use std::sync::Wait;
use std::sync::ledger::{Blank, Ledger, Share};
use std::thread::Threads;

/// Serves until as many connections came as are to come, and tells the units that were settled.
pub(crate) fn run<L: Ledger + Send + Sync, R: Threads + Wait + Sync + Files>(
    rt: &R,
    alloc: Global,
    blank: Blank,
    asked: &Serve,
    desk: &Desk,
    door: &Door,
) -> Result<Usage, Fault>
    requires range { IsInRange asked.now }
    requires few { vec_len asked.now.names ≤ 64 }
    requires ledger { (blank.name ≡ L.name) × (blank.parts ≡ L.parts) }
    requires parts { blank.parts ≡ asked.now.workers }
    ensures each { IfOk result (λ usage. vec_len usage.by_tenant ≡ vec_len asked.now.names) }
    ensures adds_up { IfOk result (λ usage. sum usage.by_tenant.items ≡ usage.total) }
    ensures late { IfErr result IsLate }
{
    let tenants = asked.names.len() as u32;
    let Ok((pool, shares)) = Pool::<L>::new(alloc, tenants, asked.workers, blank) else {
        return Err(Fault::Memory);
    };
    let shares = serve_all(rt, alloc, &pool, shares, asked, desk, door)?;
    match totals(rt, &pool, alloc, shares) {
        Ok(usage) if usage.by_tenant.len() == asked.names.len() => Ok(usage),
        // It has as many tenants as it was made with; but what lies under a lock tells no number.
        Ok(_) => Err(Fault::Stranger),
        Err(_) => Err(Fault::Memory),
    }
}

/// Starts a worker for each share, serves, closes the pool, and gives the shares of the workers, who
/// have all come home then.
fn serve_all<L: Ledger + Send + Sync, R: Threads + Wait + Sync + Files>(
    rt: &R,
    alloc: Global,
    pool: &Pool<L>,
    shares: Vec<Share<L>>,
    asked: &Serve,
    desk: &Desk,
    door: &Door,
) -> Result<Vec<Share<L>>, Fault>
    requires range { IsInRange asked.now }
    requires few { vec_len shares ≤ 16 }
    requires one { All (λ s. s.parts ≡ 1) shares.items }
    ensures each { IfOk result (λ back. vec_len back ≡ vec_len shares) }
    ensures parts { IfOk result (λ back. sum_by (λ s. s.parts) back.items ≡ vec_len back) }
    ensures late { IfErr result IsLate }
{
    let serve = || -> Result<(), Fault>
        requires { IsInRange asked.now }
        ensures { IfErr result IsLate }
    { serve_connections(rt, alloc, pool, asked, desk, door) };
    let (served, back) = staffed(rt, alloc, pool, OpenGate, shares, serve);
    match served {
        Ok(Ok(())) => match back {
            Ok(shares) => Ok(shares),
            Err(_) => Err(Fault::Memory),
        },
        Ok(Err(fault)) => Err(fault),
        Err(why) => Err(Fault::from(why)),
    }
}

/// Opens the door and serves whoever comes.
fn serve_connections<L: Ledger + Send + Sync, R: Threads + Wait + Sync + Files>(
    rt: &R,
    alloc: Global,
    pool: &Pool<L>,
    asked: &Serve,
    desk: &Desk,
    door: &Door,
) -> Result<(), Fault>
    requires { IsInRange asked.now }
    ensures { IfErr result IsLate }
{
    door.open(rt)?;
    match listen(
        rt,
        alloc,
        pool,
        desk,
        door.listener(),
        asked.sessions,
        asked.count,
    ) {
        Ok(()) => Ok(()),
        Err(_) => Err(Fault::SocketFailed),
    }
}
