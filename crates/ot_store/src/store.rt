ghost use Rattle.std.specs.Prelude.{◌≡◌, ◌+◌, ◌≤◌, length, vec_len, ◌<◌, [], IfOk, IfErr, OnOk, OnErr, Ok, Err};
ghost use Rattle.ot_store.specs.Arrays.{overwritten, array_created, array_freed, numbers_put, got, arrays_listed, shape_in, cells_in, with_cells, AreSound};

use crate::fault::{StoreFault, StoreRefusal};
use crate::limits::Limits;
use indexmap::IndexMap;
use ot_model::{ArrayShape, Cells, Shape};
use std::alloc::{AllocError, Global};
use std::marker::Model;

/// The named arrays of one tenant, in order of creation. Names differ, each array has a cell, and
/// all together have fewer than 2^32.
#[derive(Debug, Drop)]
pub struct Store {
    // The hasher's seed is fixed: names that collide on purpose cost a look-up one step for each array.
    arrays: IndexMap<String, Vec<u64>>,
    // How many cells all arrays have.
    count: u32,
}

impl Model for Store {
    ghost use Rattle.std.specs.Prelude.{ℕ, List};

    ghost Value = { List (List ℕ × List ℕ) };

    ghost use Rattle.ot_store.specs.Arrays.{named_of, AreCounted};

    ghost view = { λ s. named_of s.arrays.entries };

    ghost invariant = { λ s. AreCounted (named_of s.arrays.entries) s.count };
}

impl Store {
    ghost use Rattle.ot_model.specs.Cells.{lengths};
    ghost use Rattle.ot_model.specs.Programs.{arrays_of};
    ghost use Rattle.ot_store.specs.Refusals.{Fails};

    /// No arrays. It takes no memory.
    pub fn empty(alloc: Global) -> Store
        ensures { result ≡ [] }
    {
        Store {
            arrays: IndexMap::new(alloc),
            count: 0,
        }
    }

    /// Makes an array of `len` cells, at least one, which are 0. Refusals in this order: the name is
    /// taken, too many arrays, too many cells.
    pub fn create(
        &mut self,
        alloc: Global,
        name: &str,
        len: u32,
        limits: &Limits,
    ) -> Result<(), StoreFault>
        requires { 0 < len }
        ensures ok { OnOk result (array_created name.now len limits.now self.old ≡ Ok self.new) }
        ensures refused { IfErr result (λ fault. Fails fault (array_created name.now len limits.now self.old)) }
        ensures kept { OnErr result (self.new ≡ self.old) }
    {
        if self.arrays.contains_key(name) {
            return Err(StoreFault::Refused(StoreRefusal::NameTaken));
        }
        if self.arrays.len() >= limits.arrays as usize {
            return Err(StoreFault::Refused(StoreRefusal::TooManyArrays));
        }
        if u64::from(self.count) + u64::from(len) > u64::from(limits.cells) {
            return Err(StoreFault::Refused(StoreRefusal::TooManyCells));
        }
        let name = String::from_str(alloc, name)?;
        let cells = vec![in alloc; 0u64; len as usize]?;
        self.arrays.insert(name, cells)?;
        self.count += len;
        Ok(())
    }

    /// Takes the array away. The others keep their order. It takes no memory, and one step for each
    /// later array. Refusal: unknown array.
    pub fn free(&mut self, name: &str) -> Result<(), StoreRefusal>
        ensures ok { OnOk result (array_freed name.now self.old ≡ Ok self.new) }
        ensures refused { IfErr result (λ refusal. array_freed name.now self.old ≡ Err refusal) }
        ensures kept { OnErr result (self.new ≡ self.old) }
    {
        let Some(cells) = self.arrays.shift_remove(name) else {
            return Err(StoreRefusal::UnknownArray);
        };
        self.count -= cells.len() as u32;
        Ok(())
    }

    /// Writes the numbers to the array's cells from `start` on, which counts from 0. It takes no
    /// memory. Refusals in this order: unknown array, out of range.
    pub fn put(&mut self, name: &str, start: u32, numbers: &[u64]) -> Result<(), StoreRefusal>
        ensures ok { OnOk result (numbers_put name.now start numbers.now self.old ≡ Ok self.new) }
        ensures refused { IfErr result (λ refusal. numbers_put name.now start numbers.now self.old ≡ Err refusal) }
        ensures kept { OnErr result (self.new ≡ self.old) }
    {
        let Some(cells) = self.arrays.get_mut(name) else {
            return Err(StoreRefusal::UnknownArray);
        };
        let start = start as usize;
        let end = start + numbers.len();
        if end > cells.len() {
            return Err(StoreRefusal::OutOfRange);
        }
        overwrite(cells, start, numbers);
        Ok(())
    }

    /// The numbers of `len` of the array's cells from `start` on, which counts from 0. Refusals in
    /// this order: unknown array, out of range.
    pub fn get(
        &self,
        alloc: Global,
        name: &str,
        start: u32,
        len: u32,
    ) -> Result<Vec<u64>, StoreFault>
        ensures ok { IfOk result (λ numbers. got name.now start len self.now ≡ Ok numbers.items) }
        ensures refused { IfErr result (λ fault. Fails fault (got name.now start len self.now)) }
    {
        let Some(cells) = self.arrays.get(name) else {
            return Err(StoreFault::Refused(StoreRefusal::UnknownArray));
        };
        let start = start as usize;
        let end = start + len as usize;
        if end > cells.len() {
            return Err(StoreFault::Refused(StoreRefusal::OutOfRange));
        }
        Ok(Vec::from_slice(alloc, &cells[start..end])?)
    }

    /// Names and lengths in order of creation.
    pub fn list(&self, alloc: Global) -> Result<Vec<ArrayShape>, AllocError>
        ensures listed { IfOk result (λ arrays. arrays_of arrays.items ≡ arrays_listed self.now) }
        ensures sound { AreSound self.now }
    {
        let mut arrays = Vec::with_capacity(alloc, self.arrays.len())?;
        for (name, cells) in &self.arrays {
            let name = String::from_str(alloc, name.as_str())?;
            let len = cells.len() as u32;
            arrays.push(ArrayShape { name, len })?;
        }
        Ok(arrays)
    }

    /// What programs may name.
    pub fn shape(&self, alloc: Global, limits: &Limits) -> Result<Shape, AllocError>
        ensures shape { IfOk result (λ shape. shape ≡ shape_in limits.now self.now) }
        ensures sound { AreSound self.now }
    {
        let arrays = self.list(alloc)?;
        Ok(Shape::new(arrays, limits.tasks))
    }

    /// The cells of all arrays, in order of creation.
    pub fn cells(&self, alloc: Global) -> Result<Cells, AllocError>
        ensures { IfOk result (λ cells. cells ≡ cells_in self.now) }
    {
        let mut lists = Vec::with_capacity(alloc, self.arrays.len())?;
        for cells in self.arrays.values() {
            lists.push(Vec::from_slice(alloc, cells.as_slice())?)?;
        }
        Ok(Cells::new(lists))
    }

    /// Gives the arrays these cells in order of creation, as many in each as there were. It takes no
    /// memory.
    pub fn set_cells(&mut self, cells: Cells)
        requires { lengths cells ≡ lengths (cells_in self.old) }
        ensures { self.new ≡ with_cells self.old cells }
    {
        for (place, list) in cells.into_arrays().into_iter().enumerate() {
            self.arrays[place] = list;
        }
    }

    /// The same arrays once more.
    pub fn copy(&self, _alloc: Global) -> Result<Store, AllocError>
        ensures { IfOk result (λ copy. copy ≡ self.now) }
    {
        let arrays = self.arrays.clone()?;
        Ok(Store {
            arrays,
            count: self.count,
        })
    }
}

// Writes the numbers over those from `start` on.
fn overwrite(cells: &mut Vec<u64>, start: usize, numbers: &[u64])
    requires { start + length numbers.now ≤ vec_len cells.old }
    ensures written { cells.new.items ≡ overwritten cells.old.items start numbers.now }
    ensures len { vec_len cells.new ≡ vec_len cells.old }
{
    let end = start + numbers.len();
    let room = cells.as_mut_slice();
    room[start..end].copy_from_slice(numbers);
}
