//! The races that are found so far.
ghost use Rattle.std.specs.Prelude.{◌≡◌, ◌⊎◌, ◌++◌, ◌∷◌, [], OnOk, IfOk};
ghost use Rattle.ot_race_all.specs.AllRaces.{IsTold};
ghost use Rattle.ot_race_all.specs.Found.{HasPairs};

use ot_race::Race;
use std::alloc::{AllocError, Global};
use std::collections::BTreeSet;

/// Each pair of places once.
#[derive(Drop)]
pub(crate) struct Found {
    pub(crate) all: Vec<Race>,
    /// The places of both statements of each.
    pairs: BTreeSet<(u32, u32)>,
}

impl Found {
    /// One race.
    pub(crate) fn new(alloc: Global, race: Race) -> Result<Found, AllocError>
        ensures all { IfOk result (λ found. found.all.items ≡ race ∷ []) }
        ensures pairs { IfOk result (λ found. HasPairs found.pairs found.all.items) }
    {
        let mut found = Found {
            all: Vec::new(alloc),
            pairs: BTreeSet::new(alloc),
        };
        found.add(race)?;
        Ok(found)
    }

    /// One race more, where its places aren't there.
    pub(crate) fn add(&mut self, race: Race) -> Result<(), AllocError>
        requires { HasPairs self.old.pairs self.old.all.items }
        ensures all { OnOk result (((self.new.all.items ≡ self.old.all.items) × IsTold self.old.all.items race.place race.later)
            ⊎ ((self.new.all.items ≡ self.old.all.items ++ race ∷ []) × (IsTold self.old.all.items race.place race.later → ⊥))) }
        ensures pairs { OnOk result (HasPairs self.new.pairs self.new.all.items) }
    {
        if self.pairs.insert((race.place, race.later))? {
            self.all.push(race)?;
        }
        Ok(())
    }
}
