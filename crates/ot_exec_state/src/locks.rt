//! Locks that tasks hold.
ghost use Rattle.std.specs.Prelude.{◌≡◌, map, Ok, IfOk};
ghost use Rattle.ot_exec_state.specs.Results.{Gives};
ghost use Rattle.ot_exec_state.specs.Locks.{lock_named, same_lock, lock_place, with_lock, lock_numbered, holds_number, without, same_set, set_place, own, adding, holding, taking, giving_back, no_locks};
ghost use Rattle.ot_exec_state.specs.View.{locks_of};

use crate::fault::{Halt, Reason};
use crate::limits::Limits;
use crate::value::Value;
use std::alloc::{AllocError, Global};

/// What names a lock.
#[derive(Clone, Copy, Debug, PartialEq, Eq)]
pub enum Lock {
    /// A number that isn't 0.
    ByNumber(u64),
    /// The place of a lock variable.
    ByPlace(u32, u64),
    /// An item of children of this task: an object and an index.
    ByItem(u32, u32, u32),
}

/// The locks that there have been, the sets of them, the number of the set that the task holds which runs, and all that are held.
#[derive(Drop)]
pub struct Locks {
    pub known: Vec<Lock>,
    pub sets: Vec<Vec<u32>>,
    pub held: u32,
    pub taken: Vec<u32>,
}

/// The lock that a value names.
#[tactic(auto, unfolding(crate::specs::Locks::lock_named))]
fn named(value: Value) -> Result<Lock, Halt>
    ensures { Gives (λ x. x) result (lock_named value) }
{
    match value {
        Value::Number(n) => {
            if n == 0 {
                Err(Halt::For(Reason::Null))
            } else {
                Ok(Lock::ByNumber(n))
            }
        }
        Value::Pointer(object, index) => Ok(Lock::ByPlace(object, index)),
        Value::Within(_, _, _) | Value::Function(_) | Value::Unknown => Err(Halt::For(
            Reason::NoPlace,
        )),
    }
}

fn same_lock(one: Lock, other: Lock) -> bool
    ensures { result ≡ same_lock one other }
{
    match (one, other) {
        (Lock::ByNumber(a), Lock::ByNumber(b)) => a == b,
        (Lock::ByPlace(o, k), Lock::ByPlace(p, l)) => o == p && k == l,
        (Lock::ByItem(a, o, k), Lock::ByItem(b, p, l)) => a == b && o == p && k == l,
        (_, _) => false,
    }
}

/// How many locks stand before it.
fn lock_place(known: &[Lock], lock: Lock) -> usize
    ensures { result ≡ lock_place lock known.now }
{
    let mut place = 0;
    for one in known {
        if same_lock(*one, lock) {
            return place;
        }
        place += 1;
    }
    place
}

fn has(numbers: &[u32], number: u32) -> bool
    ensures { result ≡ holds_number number numbers.now }
{
    numbers.iter().any(|one| *one == number)
}

fn leave_out(numbers: &mut Vec<u32>, number: u32)
    ensures { numbers.new.items ≡ without number numbers.old.items }
{
    numbers.retain(|one| *one != number);
}

fn same_set(one: &[u32], other: &[u32]) -> bool
    ensures { result ≡ same_set one.now other.now }
{
    one == other
}

/// How many sets stand before it.
fn set_place(sets: &[Vec<u32>], set: &[u32]) -> usize
    ensures { result ≡ set_place set.now (map (λ s. s.items) sets.now) }
{
    let mut place = 0;
    for one in sets {
        if same_set(one, set) {
            return place;
        }
        place += 1;
    }
    place
}

impl Locks {
    /// In the beginning there is the empty set.
    pub fn new(alloc: Global) -> Result<Locks, Halt>
        ensures { Gives locks_of result (Ok no_locks) }
    {
        let mut sets = Vec::new(alloc);
        sets.push(Vec::new(alloc))?;
        Ok(Locks {
            known: Vec::new(alloc),
            sets,
            held: 0,
            taken: Vec::new(alloc),
        })
    }

    /// The number of a lock: one that wasn't there gets the next one.
    #[tactic(auto, unfolding(crate::specs::Locks::lock_numbered))]
    fn number(&mut self, limits: Limits, lock: Lock) -> Result<u32, Halt>
        ensures { Gives (λ n. (n, locks_of self.new)) result (lock_numbered limits lock (locks_of self.old)) }
    {
        let place = lock_place(&self.known, lock);
        if place >= limits.locks as usize {
            return Err(Halt::For(Reason::TooManyLocks));
        }
        if place >= self.known.len() {
            self.known.push(lock)?;
        }
        Ok(place as u32)
    }

    /// The locks that the task holds which runs.
    fn own(&self, alloc: Global) -> Result<Vec<u32>, AllocError>
        ensures { IfOk result (λ set. set.items ≡ own (locks_of self.now)) }
    {
        match self.sets.get(self.held as usize) {
            Some(set) => set.as_slice().to_vec(alloc),
            None => Ok(Vec::new(alloc)),
        }
    }

    /// A lock more in a set that no task holds yet.
    #[tactic(auto, unfolding(crate::specs::Locks::adding))]
    pub fn add(&mut self, limits: Limits, lock: Lock, set: &mut Vec<u32>) -> Result<(), Halt>
        ensures { Gives (λ _. (set.new.items, locks_of self.new)) result (adding limits lock set.old.items (locks_of self.old)) }
    {
        let number = self.number(limits, lock)?;
        if !has(set, number) {
            set.push(number)?;
        }
        Ok(())
    }

    /// It holds these.
    #[tactic(auto, unfolding(crate::specs::Locks::holding))]
    pub fn hold(&mut self, limits: Limits, set: Vec<u32>) -> Result<(), Halt>
        ensures { Gives (λ _. locks_of self.new) result (holding limits set.items (locks_of self.old)) }
    {
        if set.len() > limits.held as usize {
            return Err(Halt::For(Reason::TooManyLocks));
        }
        let place = set_place(&self.sets, &set);
        if place >= limits.locks as usize {
            return Err(Halt::For(Reason::TooManyLocks));
        }
        if place >= self.sets.len() {
            self.sets.push(set)?;
        }
        self.held = place as u32;
        Ok(())
    }

    /// The task takes a lock that no task holds.
    #[tactic(auto, unfolding(crate::specs::Locks::taking))]
    pub fn take(&mut self, alloc: Global, limits: Limits, name: Value) -> Result<(), Halt>
        ensures { Gives (λ _. locks_of self.new) result (taking limits name (locks_of self.old)) }
    {
        let lock = named(name)?;
        let number = self.number(limits, lock)?;
        if has(&self.taken, number) {
            return Err(Halt::For(Reason::Taken));
        }
        let mut set = self.own(alloc)?;
        set.push(number)?;
        self.taken.push(number)?;
        self.hold(limits, set)
    }

    /// It gives back one that it holds.
    #[tactic(auto, unfolding(crate::specs::Locks::giving_back))]
    pub fn give_back(&mut self, alloc: Global, limits: Limits, name: Value) -> Result<(), Halt>
        ensures { Gives (λ _. locks_of self.new) result (giving_back limits name (locks_of self.old)) }
    {
        let lock = named(name)?;
        let number = self.number(limits, lock)?;
        let mut set = self.own(alloc)?;
        if !has(&set, number) {
            return Err(Halt::For(Reason::NotHeld));
        }
        leave_out(&mut set, number);
        leave_out(&mut self.taken, number);
        self.hold(limits, set)
    }
}
