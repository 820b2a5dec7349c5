ghost use Rattle.std.specs.Prelude.{◌≡◌, ◌<◌, ◌≤◌};

use crate::gate::Gate;
use crate::pool::Pool;
use std::alloc::Global;
use std::sync::Wait;
use std::sync::ledger::{Ledger, Share};

/// Claims pieces, passes the gate with each, runs it and hands it back, until the pool is closed. A worker's
/// number is 1 to 16. The share that comes back has the units that this worker settled.
pub fn work<G: Gate + Drop, L: Ledger, R: Wait>(
    rt: &R,
    pool: &Pool<L>,
    alloc: Global,
    worker: u32,
    mut gate: G,
    mut share: Share<L>,
) -> Share<L>
    requires worker { (1 ≤ worker) × (worker ≤ 16) }
    requires part { 0 < share.parts }
    ensures { result.parts ≡ share.parts }
{
    // Workers begin with different tenants, and go on to the next one at each claim.
    let mut turn = u64::from(worker);
    let at_once = !gate.may_hold();
    let mut back = None;
    for _ in rt.forever() {
        let next = pool.next(rt, alloc, turn, back, &mut share, worker, at_once);
        let Some((tenant, piece)) = next else {
            return share;
        };
        turn = turn.wrapping_add(1);
        gate.pass(worker, tenant, piece.task());
        back = Some((tenant, piece.run()));
    }
    unreachable!()
}
