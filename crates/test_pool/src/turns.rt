//! Turns of a hub that one thread takes.
ghost use Rattle.std.specs.Prelude.{◌≡◌, ◌<◌};

use super::players::performed_text;
use super::reading::job_of;
use super::scene::{NESTED, READ_AFTER_WRITE};
use ot_check::JobSpec;
use ot_pool::{Claimed, Hub};
use std::alloc::Global;
use std::marker::Brand;
use std::sync::ledger::{Blank, Ledger, Share};
use std::test::Fail;

/// Which of three tenants have a job whose root alone is claimable, the turn of a claim, and whose piece it gives.
const CLAIMS: [(&[u32], u64, u32); 11] = [
    (&[0, 1, 2], 0, 0),
    (&[0, 1, 2], 1, 1),
    (&[0, 1, 2], 2, 2),
    (&[0, 1, 2], 3, 0),
    (&[0, 1, 2], 7, 1),
    (&[0, 1, 2], u64::MAX, 0),
    (&[0, 2], 1, 2),
    (&[0, 1], 2, 0),
    (&[1], 0, 1),
    (&[1], 2, 1),
    (&[0], 1, 0),
];

/// Whose piece a claim gives.
fn claimed<L: Ledger>(
    alloc: Global,
    hub: &mut Hub<L>,
    turn: u64,
    share: &mut Share<L>,
) -> Option<u32>
    requires { 0 < share.old.parts }
    ensures { share.new.parts ≡ share.old.parts }
{
    match hub.claim(alloc, turn, 1) {
        Claimed::Got(tenant, piece) => {
            let _ = hub.settle(alloc, tenant, piece.run(), share);
            Some(tenant)
        }
        Claimed::Idle | Claimed::Aborted(_) | Claimed::Closed => None,
    }
}

/// Whose piece a claim gives where these tenants have a job.
fn claimed_of<L: Ledger>(
    alloc: Global,
    blank: Blank,
    tenants: &[u32],
    turn: u64,
) -> Result<Option<u32>, Fail>
    requires name { blank.name ≡ L.name }
    requires parts { (blank.parts ≡ L.parts) × (blank.parts ≡ 1) }
{
    let (book, mut share) = blank.open::<L>();
    let mut hub = Hub::new(alloc, 3, book)?;
    for tenant in tenants {
        let spec = job_of(alloc, 3, NESTED)?;
        if let Err((_, why)) = hub.submit(alloc, *tenant, spec) {
            return Err(why)?;
        }
    }
    Ok(claimed(alloc, &mut hub, turn, &mut share))
}

fn claimed_by(alloc: Global, tenants: &[u32], turn: u64) -> Result<Option<u32>, Fail> {
    claimed_of::<Brand>(alloc, Blank::new(1), tenants, turn)
}

#[test]
fn a_claim_begins_with_the_tenant_of_its_turn_and_goes_round(rt: HostRuntime) -> Result<(), Fail> {
    for (tenants, turn, tenant) in CLAIMS {
        let found = claimed_by(rt.alloc(), tenants, turn)?;
        assert_eq!(rt; found, Some(tenant), "{tenants:?} at turn {turn}");
    }
    Ok(())
}

/// What the clients of two tenants are told whose jobs one thread runs.
#[derive(Debug, Drop)]
struct Told {
    first: String,
    second: String,
    /// The tenant whose claim was refused memory.
    aborted: Option<u32>,
}

/// Claims, runs and settles until nothing is claimable: the tenant whose claim was refused memory.
fn run_all<L: Ledger>(alloc: Global, hub: &mut Hub<L>, mut share: Share<L>) -> Option<u32>
    requires { 0 < share.parts }
{
    let mut aborted = None;
    for turn in 0..100_u64 {
        match hub.claim(alloc, turn, 1) {
            Claimed::Got(tenant, piece) => {
                let _ = hub.settle(alloc, tenant, piece.run(), &mut share);
            }
            Claimed::Aborted(tenant) => aborted = Some(tenant),
            Claimed::Idle | Claimed::Closed => break,
        }
    }
    aborted
}

/// What the client of a tenant is told that submitted this spec.
fn collected<L: Ledger>(
    alloc: Global,
    hub: &mut Hub<L>,
    tenant: u32,
    spec: &JobSpec,
) -> Option<String> {
    match hub.collect(tenant, spec) {
        Some(answer) => performed_text(alloc, answer).ok(),
        None => String::from_str(alloc, "pending").ok(),
    }
}

/// What is told, or None where memory was refused elsewhere.
fn told_of<L: Ledger>(alloc: Global, blank: Blank) -> Option<Told>
    requires name { blank.name ≡ L.name }
    requires parts { (blank.parts ≡ L.parts) × (blank.parts ≡ 1) }
{
    let one = job_of(alloc, 3, READ_AFTER_WRITE).ok()?;
    let other = job_of(alloc, 3, NESTED).ok()?;
    let (book, share) = blank.open::<L>();
    let mut hub = Hub::new(alloc, 2, book).ok()?;
    hub.submit(alloc, 0, one.copy(alloc).ok()?).ok()?;
    hub.submit(alloc, 1, other.copy(alloc).ok()?).ok()?;
    let aborted = run_all(alloc, &mut hub, share);
    Some(Told {
        first: collected(alloc, &mut hub, 0, &one)?,
        second: collected(alloc, &mut hub, 1, &other)?,
        aborted,
    })
}

fn ended(alloc: Global) -> Option<Told> {
    told_of::<Brand>(alloc, Blank::new(1))
}

const FIRST: &str = "2 5 [7, 8, 3]";

const SECOND: &str = "3 7 [4, 5, 9]";

/// It passes whichever allocation fails, and prints a line where one did: a claim that is refused memory aborts the
/// job of its tenant, and the other is told what its job means.
#[test]
fn a_claim_without_memory_aborts_the_job_of_its_tenant(rt: HostRuntime) {
    let Some(told) = ended(rt.alloc()) else {
        let _ = println!(rt; "memory was refused");
        return;
    };
    let is_right = match (told.aborted, told.first.as_str(), told.second.as_str()) {
        (None, FIRST, SECOND) => return,
        (None | Some(0), "Memory", SECOND) => true,
        (None | Some(1), FIRST, "Memory") => true,
        _ => false,
    };
    assert!(rt; is_right, "{told:?}");
    let _ = println!(rt; "memory was refused: {told:?}");
}
