//! Locks that events hold.
ghost use Rattle.std.specs.Prelude.{◌≡◌, ◌==◌};
ghost use Rattle.std.specs.List.{list_any};
ghost use Rattle.ot_race_locks.specs.OpenRaces.{set_at, locks_in, share};

/// Sets of locks, and for each event the number of the set that it holds: where it has none the first set, and where that is
/// the number of no set no lock.
#[derive(Clone, Copy, Debug)]
pub struct Locks<'a> {
    pub sets: &'a [Vec<u32>],
    pub held: &'a [u32],
}

impl Locks<'_> {
    /// The number of the set that an event holds.
    pub(crate) fn set_at(&self, number: u32) -> u32
        ensures { result ≡ set_at self.now number }
    {
        match self.held.get(number as usize) {
            Some(set) => *set,
            None => 0,
        }
    }

    /// The locks of a set.
    fn locks_in(&self, set: u32) -> &[u32]
        ensures { result.now ≡ locks_in self.now set }
    {
        match self.sets.get(set as usize) {
            Some(locks) => locks.as_slice(),
            None => &[],
        }
    }

    /// Whether two sets have a lock in common.
    pub(crate) fn share(&self, one: u32, two: u32) -> bool
        ensures { result ≡ share (locks_in self.now one) (locks_in self.now two) }
    {
        share(self.locks_in(one), self.locks_in(two))
    }
}

fn share(one: &[u32], two: &[u32]) -> bool
    ensures { result ≡ share one.now two.now }
{
    one.iter().any(|lock| is_among(two, *lock))
}

fn is_among(locks: &[u32], lock: u32) -> bool
    ensures { result ≡ list_any (λ b. b == lock) locks.now }
{
    locks.iter().any(|other| *other == lock)
}
