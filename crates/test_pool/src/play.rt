//! A pool with its workers, and a scene that is played on it, or a crowd that asks.
ghost use Rattle.std.specs.Prelude.{◌≡◌, ◌≤◌, vec_len, IfOk};
ghost use Rattle.std.specs.List.{All, sum_by};

use super::crowd::Crowd;
use super::door::Door;
use super::scene::Scene;
use ot_pool::{Pool, Staffed, Usage, staffed, totals};
use std::alloc::{AllocError, Global};
use std::marker::Brand;
use std::sync::Wait;
use std::sync::ledger::{Blank, Ledger, Share};
use std::thread::Threads;

/// What was told in a scene, and the units that were settled in it.
#[derive(Debug, Drop)]
pub(crate) struct Told {
    pub said: String,
    pub usage: Usage,
}

impl Told {
    pub(crate) fn is(&self, said: &str, by_tenant: &[u64], total: u64) -> bool {
        self.said.as_str() == said
            && self.usage.by_tenant.as_slice() == by_tenant
            && self.usage.total == total
    }
}

/// Whose clients ask.
#[derive(Clone, Copy)]
enum Cast<'a> {
    Scene(&'a Scene),
    Crowd(&'a Crowd),
}

impl Cast<'_> {
    /// What the clients are told, one after the other, with a line feed behind each.
    fn played<L: Ledger + Send + Sync, R: Threads + Wait + Sync>(
        self,
        rt: &R,
        alloc: Global,
        pool: &Pool<L>,
        door: &Door,
    ) -> Result<String, AllocError> {
        match self {
            Cast::Scene(scene) => scene.played(rt, alloc, pool, door),
            Cast::Crowd(crowd) => crowd.played(rt, alloc, pool),
        }
    }
}

/// Plays a scene on a pool of so many tenants and workers.
pub(crate) fn play<R: Threads + Wait + Sync>(
    rt: &R,
    alloc: Global,
    tenants: u32,
    workers: u32,
    door: &Door,
    scene: &Scene,
) -> Result<Told, AllocError>
    requires { (1 ≤ workers) × (workers ≤ 16) × (tenants ≤ 64) }
{
    let blank = Blank::new(u64::from(workers));
    on_pool::<Brand, R>(rt, alloc, blank, tenants, workers, door, Cast::Scene(scene))
}

/// Has a crowd ask a pool of so many tenants and workers.
pub(crate) fn play_crowd<R: Threads + Wait + Sync>(
    rt: &R,
    alloc: Global,
    tenants: u32,
    workers: u32,
    crowd: &Crowd,
) -> Result<Told, AllocError>
    requires { (1 ≤ workers) × (workers ≤ 16) × (tenants ≤ 64) }
{
    let blank = Blank::new(u64::from(workers));
    let door = Door::none();
    on_pool::<Brand, R>(
        rt,
        alloc,
        blank,
        tenants,
        workers,
        &door,
        Cast::Crowd(crowd),
    )
}

fn on_pool<L: Ledger + Send + Sync, R: Threads + Wait + Sync>(
    rt: &R,
    alloc: Global,
    blank: Blank,
    tenants: u32,
    workers: u32,
    door: &Door,
    cast: Cast<'_>,
) -> Result<Told, AllocError>
    requires name { blank.name ≡ L.name }
    requires parts { (blank.parts ≡ L.parts) × (blank.parts ≡ workers) }
    requires few { (1 ≤ workers) × (workers ≤ 16) × (tenants ≤ 64) }
{
    let (pool, shares) = Pool::<L>::new(alloc, tenants, workers, blank)?;
    let (said, shares) = played_by(rt, alloc, &pool, door, cast, shares);
    let Ok(said) = said else {
        return Err(AllocError);
    };
    let said = said?;
    let shares = shares?;
    if shares.len() != workers as usize {
        return Err(AllocError);
    }
    let usage = totals(rt, &pool, alloc, shares)?;
    Ok(Told { said, usage })
}

/// Has the clients ask while the pool is staffed. Where a worker couldn't be started nobody asks.
fn played_by<L: Ledger + Send + Sync, R: Threads + Wait + Sync>(
    rt: &R,
    alloc: Global,
    pool: &Pool<L>,
    door: &Door,
    cast: Cast<'_>,
    shares: Vec<Share<L>>,
) -> Staffed<L, Result<String, AllocError>>
    requires few { vec_len shares ≤ 16 }
    requires one { All (λ s. s.parts ≡ 1) shares.items }
    ensures { IfOk result.1 (λ shares. sum_by (λ s. s.parts) shares.items ≡ vec_len shares) }
{
    let play = || cast.played(rt, alloc, pool, door);
    staffed(rt, alloc, pool, door, shares, play)
}
