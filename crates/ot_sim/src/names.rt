//! The tenants by name, in the order made.
ghost use Rattle.std.specs.Prelude.{◌≡◌, ◌≤◌, map, length, string_bytes, [], IfOk, OnErr, vec_len};
ghost use Rattle.ot_sim.specs.Playing.{tenant_place, AddsTenant, opening_scene};

use ot_store::{Limits, Store};
use std::alloc::{AllocError, Global};
use std::marker::Model;

/// How many tenants there may be.
const MAX_TENANTS: usize = 64;

/// Different names, at most 64.
#[derive(Drop)]
pub(crate) struct Names {
    names: Vec<String>,
}

impl Model for Names {
    ghost use Rattle.std.specs.Prelude.{◌≤◌, ℕ, List, map, length, string_bytes};

    ghost Value = { List (List ℕ) };

    ghost view = { λ n. map string_bytes n.names.items };

    ghost invariant = { λ n. length n.names.items ≤ 64 };
}

impl Names {
    ghost use Rattle.ot_core.specs.Openings.{new_scene};

    pub(crate) fn new(alloc: Global) -> Names
        ensures { result ≡ [] }
    {
        Names {
            names: Vec::new(alloc),
        }
    }

    /// The number of a tenant, from 0.
    pub(crate) fn place(&self, name: &str) -> Option<u32>
        ensures { result ≡ tenant_place self.now name.now }
    {
        place_in(self.names.as_slice(), name)
    }

    /// Adds a tenant, where there is room and it isn't there.
    pub(crate) fn add(&mut self, alloc: Global, name: &str) -> Result<bool, AllocError>
        ensures added { IfOk result (λ added. AddsTenant self.old name.now added self.new) }
        ensures memory { OnErr result (self.new ≡ self.old) }
    {
        if self.names.len() >= MAX_TENANTS || self.place(name).is_some() {
            return Ok(false);
        }
        let name = String::from_str(alloc, name)?;
        self.names.push(name)?;
        Ok(true)
    }

    /// How many there are.
    pub(crate) fn count(&self) -> u32
        ensures is { result ≡ length self.now }
        ensures few { result ≤ 64 }
    {
        self.names.len() as u32
    }

    pub(crate) fn as_slice(&self) -> &[String]
        ensures is { map string_bytes result.now ≡ self.now }
        ensures few { length result.now ≤ 64 }
    {
        self.names.as_slice()
    }

    /// Each tenant with the usual limits and no array.
    pub(crate) fn openings(&self, alloc: Global) -> Result<Vec<(String, Limits, Store)>, AllocError>
        ensures few { IfOk result (λ openings. vec_len openings ≤ 64) }
        ensures are { IfOk result (λ openings. new_scene openings.items ≡ opening_scene self.now) }
    {
        let mut openings = Vec::new(alloc);
        for name in &self.names {
            let name = String::from_str(alloc, name.as_str())?;
            openings.push((name, Limits::usual(), Store::empty(alloc)))?;
        }
        Ok(openings)
    }
}

fn place_in(names: &[String], name: &str) -> Option<u32>
    requires { length names.now ≤ 64 }
    ensures { result ≡ tenant_place (map string_bytes names.now) name.now }
{
    let mut place = 0;
    let mut rest = names;
    while let [first, after @ ..] = rest {
        if first.as_str() == name {
            return Some(place);
        }
        place += 1;
        rest = after;
    }
    None
}
