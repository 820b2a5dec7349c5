ghost use Rattle.std.specs.Prelude.{◌≡◌, ◌<◌, ℕ, length, ◌≤◌, vec_len, map, IfOk, OnOk, OnErr, Some, option_map, option_copied, slice_get, All, replicate, None};
ghost use Rattle.ot_core.specs.Headline.{AgreeOn, NoneLostIn, LostAlike, ToldAlike, TellsAsAlone, TellsAll};
ghost use Rattle.ot_core.specs.Scenes.{seat_of, IsScene, RunsTo, RunsPart, AdmitsFor, OpensFor, StartsFor, Finishes, RepliesTo, AbortsFor, Steps, HasTenant, CanOpen, MayTake, RunsOut, LeavesOthers};

use crate::event::{Event, Stepped};
use crate::held::Held;
use crate::replies::Replies;
use crate::tenant::Tenant;
use ot_book::Book;
use ot_hall::{Collected, Hall};
use ot_job::{Done, State};
use ot_store::{Limits, Store};
use std::alloc::{AllocError, Global};
use std::marker::Model;

/// Tenants with their books and jobs, and workers with pieces in their hands.
#[derive(Drop)]
pub struct World {
    hall: Hall,
    tenants: Vec<Tenant>,
    // Of the workers from 1 to 16.
    hands: Vec<Option<Held>>,
}

impl Model for World {
    ghost use Rattle.std.specs.Coded.{codes};
    ghost use Rattle.ot_model.specs.Code.{value_code, body_code};
    ghost use Rattle.ot_check.specs.contracts.checked.Checked as c;
    ghost use Rattle.ot_core.specs.Scenes.{Scene};

    ghost Value = { Scene };

    ghost coded = { Prim.hlevel (codes, value_code, body_code, c.the_row.coded) };

    ghost use Rattle.ot_core.specs.SceneView.{scene_of, IsWorld};

    ghost view = { scene_of };

    ghost invariant = { IsWorld };
}

impl World {
    ghost use Rattle.ot_hall.specs.Floors.{tenant_units, total_of, job_of};
    ghost use Rattle.std.specs.List.{sum_by};
    ghost use Rattle.ot_hall.specs.Lively.{LivelyAt};
    ghost use Rattle.ot_core.specs.Toil.{free_hand, moves_left, moves_at, opens_of, full_hand};
    ghost use Rattle.ot_core.specs.Draining.{Drains, DrainsPart, AllAnswered, IsMove, IsFreeWorker, MayFinishHand};

    /// Tenants with these names, limits and arrays, who asked nothing yet.
    pub fn new(alloc: Global, openings: Vec<(String, Limits, Store)>) -> Result<World, AllocError>
        requires few { vec_len openings ≤ 64 }
        ensures { IfOk result (λ world. world ≡ new_scene openings.items) }
    {
        let hall = Hall::new(alloc, openings.len() as u32)?;
        Ok(World {
            hall,
            tenants: open_books(alloc, openings)?,
            hands: empty_hands(alloc)?,
        })
    }

    /// Gives up the pieces that are out. It takes no memory.
    pub fn end(self) {
        let World {
            hall: _,
            tenants: _,
            hands: _,
        } = self;
    }

    /// One event after another, up to the first want of memory.
    pub fn run(&mut self, alloc: Global, events: &[Event<'_>]) -> Result<(), AllocError>
        ensures ran { OnOk result (RunsTo self.old events.now self.new) }
        ensures part { OnErr result (RunsPart self.old events.now self.new) }
        ensures headline { TellsAsAlone self.new }
    {
        let ran = self.take_all(alloc, events);
        self.tells();
        ran
    }

    fn take_all(&mut self, alloc: Global, events: &[Event<'_>]) -> Result<(), AllocError>
        ensures ran { OnOk result (RunsTo self.old events.now self.new) }
        ensures part { OnErr result (RunsPart self.old events.now self.new) }
    {
        for event in events {
            self.take(alloc, *event)?;
        }
        Ok(())
    }

    /// Takes enabled events, other than `Admit` and `Abort`, until none is left or memory runs out. The
    /// chooser is told how many there are, and says which is next: its answer is taken modulo their count.
    /// A start counts once for each free worker and each claimable task. Then every line that was asked has its
    /// reply, and they are all that each tenant's own requests give.
    pub fn drain<F: FnMut(u64) -> u64>(
        &mut self,
        alloc: Global,
        chooser: &mut F,
    ) -> Result<(), AllocError>
        requires { F.IsAlwaysCallable chooser.old }
        ensures drained { OnOk result (Drains self.old self.new) }
        ensures part { OnErr result (DrainsPart self.old self.new) }
        ensures answered { OnOk result (AllAnswered self.new) }
        ensures headline { TellsAsAlone self.new }
        ensures all { OnOk result (TellsAll self.new) }
    {
        let drained = self.take_moves(alloc, chooser);
        self.tells();
        drained
    }

    fn take_moves<F: FnMut(u64) -> u64>(
        &mut self,
        alloc: Global,
        chooser: &mut F,
    ) -> Result<(), AllocError>
        requires { F.IsAlwaysCallable chooser.old }
        ensures drained { OnOk result (Drains self.old self.new) }
        ensures part { OnErr result (DrainsPart self.old self.new) }
        ensures answered { OnOk result (AllAnswered self.new) }
    {
        loop {
            let count = self.count();
            if count == 0 {
                return Ok(());
            }
            let event = self.event_at(chooser(count) % count);
            self.take(alloc, event)?;
        }
    }

    // How many moves there are.
    fn count(&self) -> u64
        ensures is { result ≡ moves_left self.now }
        ensures answered { result ≡ 0 → AllAnswered self.now }
    {
        let free = self.free_hands();
        let mut count = 0u64;
        for tenant in 0..self.tenants.len() as u32 {
            count += self.moves_of(tenant, free);
        }
        count + (16 - free)
    }

    // One of the moves.
    fn event_at(&self, k: u64) -> Event<'static>
        requires { k < moves_left self.now }
        ensures scene { IsScene self.now }
        ensures enabled { IsMove self.now result }
    {
        let free = self.free_hands();
        let mut left = k;
        for tenant in 0..self.tenants.len() as u32 {
            let here = self.moves_of(tenant, free);
            if left < here {
                return self.move_of(tenant, left);
            }
            left -= here;
        }
        Event::Finish(self.nth_full(left))
    }

    // How many moves there are of a tenant.
    fn moves_of(&self, tenant: u32, free: u64) -> u64
        requires { free ≡ sum_by free_hand self.now.hands }
        ensures is { result ≡ moves_at self.now tenant }
        ensures few { result ≤ 400000 }
        ensures lively { LivelyAt (job_of self.now.floor.jobs tenant) }
    {
        let (claimable, over) = self.hall.outlook(tenant);
        self.opens_of(tenant) + over + free * claimable
    }

    // One of a tenant's moves.
    fn move_of(&self, tenant: u32, k: u64) -> Event<'static>
        requires { k < moves_at self.now tenant }
        ensures { IsMove self.now result }
    {
        let opens = self.opens_of(tenant);
        let (claimable, over) = self.hall.outlook(tenant);
        if k < opens {
            return Event::Open(tenant);
        }
        if k < opens + over {
            return Event::Reply(tenant);
        }
        let start = k - opens - over;
        let worker = self.nth_free(start / claimable);
        Event::Start(worker, tenant, (start % claimable) as u32)
    }

    // One where the tenant's next line may be opened.
    fn opens_of(&self, tenant: u32) -> u64
        ensures is { result ≡ opens_of (slice_get self.now.accounts tenant) }
        ensures one { result ≤ 1 }
    {
        let Some(account) = self.tenants.get(tenant as usize) else {
            return 0;
        };
        if account.is_unopened() {
            return 1;
        }
        0
    }

    // How many hands are free.
    fn free_hands(&self) -> u64
        ensures is { result ≡ sum_by free_hand self.now.hands }
        ensures few { result ≤ 16 }
    {
        let mut free = 0u64;
        for hand in 0..self.hands.len() {
            if self.hands[hand].is_none() {
                free += 1;
            }
        }
        free
    }

    // The worker whose hand is free and before which so many are.
    fn nth_free(&self, n: u64) -> u32
        requires { n < sum_by free_hand self.now.hands }
        ensures { IsFreeWorker self.now.hands (seat_of result) }
    {
        let mut left = n;
        for hand in 0..self.hands.len() {
            if self.hands[hand].is_none() {
                if left == 0 {
                    return hand as u32 + 1;
                }
                left -= 1;
            }
        }
        unreachable!()
    }

    // The worker whose hand is full and before which so many are.
    fn nth_full(&self, n: u64) -> u32
        requires { n < sum_by full_hand self.now.hands }
        ensures { MayFinishHand self.now (seat_of result) }
    {
        let mut left = n;
        for hand in 0..self.hands.len() {
            if self.hands[hand].is_some() {
                if left == 0 {
                    return hand as u32 + 1;
                }
                left -= 1;
            }
        }
        unreachable!()
    }

    /// The lines that a tenant asked.
    pub fn asked(&self, tenant: u32) -> Option<&Vec<Vec<u8>>>
        ensures { option_map (λ l. map (λ x. x.items) l.now.items) result ≡ option_map (λ a. a.asked) (slice_get self.now.accounts tenant) }
    {
        let account = self.tenants.get(tenant as usize)?;
        Some(account.asked())
    }

    /// The replies that were given to a tenant, in order.
    pub fn replies(&self, tenant: u32) -> Option<Replies<'_>>
        ensures { result ≡ option_map replies_of (slice_get self.now.accounts tenant) }
    {
        let account = self.tenants.get(tenant as usize)?;
        Some(Replies::new(account))
    }

    /// The arrays that a tenant began with.
    pub fn base(&self, tenant: u32) -> Option<&Store>
        ensures { option_copied result ≡ option_map (λ a. a.base) (slice_get self.now.accounts tenant) }
    {
        let account = self.tenants.get(tenant as usize)?;
        Some(account.base())
    }

    /// A tenant's limits.
    pub fn limits(&self, tenant: u32) -> Option<Limits>
        ensures { result ≡ option_map (λ a. a.book.limits) (slice_get self.now.accounts tenant) }
    {
        let account = self.tenants.get(tenant as usize)?;
        Some(account.book().limits())
    }

    /// The units that were settled for a tenant, and for all.
    pub fn units(&self, tenant: u32) -> (u64, u64)
        ensures { result ≡ (tenant_units self.now.floor tenant, total_of self.now.floor) }
    {
        self.hall.units(tenant)
    }

    /// Takes an event. One that isn't enabled answers `NotNow` and changes nothing. An event of one
    /// tenant leaves all others as they were. Where memory is refused nothing changes; that is told
    /// only of an `Admit` where a number is left for the line, an `Open` that may be opened, and a `Start`
    /// of a free worker on a job that works and has a claimable task.
    pub fn step(&mut self, alloc: Global, event: Event<'_>) -> Result<Stepped, AllocError>
        ensures stepped { IfOk result (λ stepped. Steps self.old event.entry stepped self.new) }
        ensures others { OnOk result (LeavesOthers event.entry self.old self.new) }
        ensures memory { OnErr result (RunsOut self.old event.entry self.new) }
        ensures headline { TellsAsAlone self.new }
    {
        let stepped = self.take(alloc, event);
        self.tells();
        stepped
    }

    fn take(&mut self, alloc: Global, event: Event<'_>) -> Result<Stepped, AllocError>
        ensures stepped { IfOk result (λ stepped. Steps self.old event.entry stepped self.new) }
        ensures others { OnOk result (LeavesOthers event.entry self.old self.new) }
        ensures memory { OnErr result (RunsOut self.old event.entry self.new) }
    {
        match event {
            Event::Admit(tenant, line) => self.admit(alloc, tenant, line),
            Event::Open(tenant) => self.open(alloc, tenant),
            Event::Start(worker, tenant, pick) => match seat_of(worker) {
                Some(hand) => self.start(alloc, hand, tenant, pick),
                None => Ok(Stepped::NotNow),
            },
            Event::Finish(worker) => match seat_of(worker) {
                Some(hand) => Ok(self.finish(alloc, hand)),
                None => Ok(Stepped::NotNow),
            },
            Event::Reply(tenant) => Ok(self.reply(tenant)),
            Event::Abort(tenant) => Ok(self.abort(tenant)),
        }
    }

    // A tenant asks a line.
    fn admit(&mut self, alloc: Global, tenant: u32, line: &[u8]) -> Result<Stepped, AllocError>
        ensures stepped { IfOk result (λ stepped. AdmitsFor self.old tenant line.now stepped self.new) }
        ensures memory { OnErr result (HasTenant MayAsk self.old tenant × (self.new ≡ self.old)) }
    {
        let Some(account) = self.tenants.get_mut(tenant as usize) else {
            return Ok(Stepped::NotNow);
        };
        if account.admit(alloc, line)? {
            return Ok(Stepped::Asked);
        }
        Ok(Stepped::Full)
    }

    // A tenant's next line is opened.
    fn open(&mut self, alloc: Global, tenant: u32) -> Result<Stepped, AllocError>
        ensures stepped { IfOk result (λ stepped. OpensFor self.old tenant stepped self.new) }
        ensures memory { OnErr result (CanOpen self.old tenant × (self.new ≡ self.old)) }
    {
        let Some(account) = self.tenants.get_mut(tenant as usize) else {
            return Ok(Stepped::NotNow);
        };
        if !account.is_unopened() {
            return Ok(Stepped::NotNow);
        }
        let Some(spec) = account.open(alloc)? else {
            return Ok(Stepped::Answered);
        };
        let Ok(()) = self.hall.submit(alloc, tenant, spec) else {
            account.close_refused();
            return Ok(Stepped::Answered);
        };
        Ok(Stepped::Job)
    }

    // A worker takes a piece of a tenant's job.
    fn start(
        &mut self,
        alloc: Global,
        hand: usize,
        tenant: u32,
        pick: u32,
    ) -> Result<Stepped, AllocError>
        requires { hand < 16 }
        ensures stepped { IfOk result (λ stepped. StartsFor self.old (Some hand) tenant pick stepped self.new) }
        ensures memory { OnErr result (MayTake self.old (Some hand) tenant × (self.new ≡ self.old)) }
    {
        if self.hands[hand].is_some() {
            return Ok(Stepped::NotNow);
        }
        let worker = hand as u32 + 1;
        let Some(piece) = self.hall.claim_of(alloc, tenant, pick as usize, worker)? else {
            return Ok(Stepped::NotNow);
        };
        let task = piece.task();
        if let Some(_) = self.hands[hand].replace(Held { tenant, piece }) {
            unreachable!()
        }
        Ok(Stepped::Started(task))
    }

    // A worker has run its piece.
    fn finish(&mut self, alloc: Global, hand: usize) -> Stepped
        requires { hand < 16 }
        ensures { Finishes self.old (Some hand) result self.new }
    {
        let Some(held) = self.hands[hand].take() else {
            return Stepped::NotNow;
        };
        let tenant = held.tenant;
        let piece = held.into_piece();
        match self.hall.settle(alloc, tenant, piece.run()) {
            Ok(units) => return Stepped::Finished(units),
            Err((done, _)) => self.hall.fail(tenant, done),
        }
        Stepped::FinishedFailed
    }

    // A tenant is told what its job came to.
    fn reply(&mut self, tenant: u32) -> Stepped
        ensures { RepliesTo self.old tenant result self.new }
    {
        let Some(account) = self.tenants.get_mut(tenant as usize) else {
            return Stepped::NotNow;
        };
        let Some(spec) = account.spec() else {
            return Stepped::NotNow;
        };
        match self.hall.collect(tenant, spec) {
            Collected::Pending => return Stepped::NotNow,
            Collected::Stranger => unreachable!(),
            Collected::Ended(outcome) => {
                account.close(outcome);
                return Stepped::Replied;
            }
            Collected::Failed => {
                account.close_refused();
                return Stepped::Replied;
            }
        }
    }

    // A tenant's job fails, for want of memory at a claim.
    fn abort(&mut self, tenant: u32) -> Stepped
        ensures { AbortsFor self.old tenant result self.new }
    {
        let Some(State::Working) = self.hall.state(tenant) else {
            return Stepped::NotNow;
        };
        self.hall.abort(tenant);
        Stepped::Aborted
    }

    /// The replies given to each tenant are the first ones of those that its own requests give.
    pub fn tells(&self)
        ensures { TellsAsAlone self.now }
    {
        let _ = &self.tenants;
    }
}

ghost use Rattle.ot_core.specs.Accounts.{replies_of, MayAsk, IsSoundAccount};
ghost use Rattle.ot_core.specs.Openings.{new_scene, opening_of};

// Tenants who asked nothing yet.
fn open_books(
    alloc: Global,
    openings: Vec<(String, Limits, Store)>,
) -> Result<Vec<Tenant>, AllocError>
    ensures are { IfOk result (λ tenants. tenants.items ≡ map opening_of openings.items) }
    ensures sound { IfOk result (λ tenants. All IsSoundAccount tenants.items) }
{
    let mut tenants = Vec::new(alloc);
    for (name, limits, store) in openings {
        let base = store.copy(alloc)?;
        let book = Book::new(alloc, name.as_str(), limits, store)?;
        tenants.push(Tenant::new(alloc, book, base))?;
    }
    Ok(tenants)
}

// Workers who hold nothing.
fn empty_hands(alloc: Global) -> Result<Vec<Option<Held>>, AllocError>
    ensures { IfOk result (λ hands. hands.items ≡ replicate 16 None) }
{
    let mut hands = Vec::new(alloc);
    for _ in 0..16u32 {
        hands.push(None)?;
    }
    Ok(hands)
}

// The hand of a worker.
fn seat_of(worker: u32) -> Option<usize>
    ensures { result ≡ seat_of worker }
{
    if worker == 0 || worker > 16 {
        return None;
    }
    Some(worker as usize - 1)
}

/// Two worlds that agree on a tenant's requests, limits and opening arrays never tell it different
/// things at one place, as far as memory ran out for it at the same places, and at no place where it
/// never ran out.
pub fn worlds_agree(one: &World, other: &World, tenant: u32)
    requires { AgreeOn one.now other.now tenant }
    ensures same_losses { (i : ℕ) → LostAlike one.now other.now tenant i → ToldAlike one.now other.now tenant i }
    ensures whole { NoneLostIn one.now tenant → NoneLostIn other.now tenant → (i : ℕ) → ToldAlike one.now other.now tenant i }
{
    one.tells();
    other.tells();
}
