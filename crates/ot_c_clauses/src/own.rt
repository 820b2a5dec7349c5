//! How a task takes part in reductions, and the cells that it folds into by pointers.
ghost use Rattle.std.specs.Prelude.{◌≡◌, ◌≤◌, ◌-◌, ◌<◌, ◌^◌, IfOk, IfSome, Some, length, map};
ghost use Rattle.std.specs.List.{count_by, list_all};
ghost use Rattle.ot_c_clauses.specs.Cells.{is_at, times_at, under_in, HasArrays, HasTimes, HasRun};
ghost use Rattle.ot_c_clauses.specs.Owns as meant;

use ot_c_scope::{Pointee, points_into};
use ot_c_words::Name;
use std::alloc::{AllocError, Global};
use std::collections::{BTreeMap, BTreeSet};
use std::marker::Model;

/// How a task takes part in a reduction.
#[derive(Clone, Copy, Debug, PartialEq, Eq)]
pub enum Taking {
    /// By an array or a variable, as in `in_reduction(+: x)`: that makes no dependence.
    ByName,
    /// By a pointer to a cell, which stands under `depend(in: ..)` too.
    ByPointer,
}

/// How a task takes part, by the cell that a pointer names, if one does.
pub(crate) fn taking_of(pointee: Option<Pointee>) -> Taking
    ensures { result ≡ meant.taking_of pointee }
{
    match pointee {
        None => Taking::ByName,
        Some(_) => Taking::ByPointer,
    }
}

/// A cell that a task folds into by a pointer.
#[derive(Clone, Copy, Debug, PartialEq, Eq)]
pub(crate) struct Own {
    pub(crate) cell: Pointee,
    /// Whether it stands under `in` too.
    pub(crate) named: bool,
}

/// Cells that a task folds into by pointers, each of which is found at once.
#[derive(Drop)]
pub(crate) struct Owns {
    /// In the order in which the task takes part.
    cells: Vec<Own>,
    /// The arrays of which there are some.
    arrays: BTreeSet<usize>,
    /// How often each is there, by its array and its place.
    times: BTreeMap<(usize, u64), usize>,
    /// Those that stand under `in` too, beside those that say so themselves.
    named: BTreeSet<(usize, u64)>,
}

impl Model for Owns {
    ghost use Rattle.std.specs.Prelude.{List, map};
    ghost use Rattle.ot_c_clauses.specs.declared.own.Own.{Own};
    ghost use Rattle.ot_c_clauses.specs.Cells.{under_in, AreKept};

    ghost Value = { List Own };

    ghost view = { λ s. map (under_in s.named) s.cells.items };

    ghost invariant = { λ s. AreKept s.arrays s.times s.cells.items };
}

impl Owns {
    /// It costs some look-ups for each cell.
    pub(crate) fn new(alloc: Global, cells: Vec<Own>) -> Result<Owns, AllocError>
        ensures { IfOk result (λ owns. owns ≡ cells.items) }
    {
        let arrays = arrays_of(alloc, &cells)?;
        let times = times_of(alloc, &cells)?;
        Ok(Owns {
            cells,
            arrays,
            times,
            named: BTreeSet::new(alloc),
        })
    }

    /// How many of these cells of an array there are.
    pub(crate) fn count(&self, array: Name, cells: Option<(u64, u64)>) -> usize
        ensures { result ≡ meant.own_count array cells self.now }
    {
        match array {
            Name::Known(_) => 0,
            Name::Other(number) => self.count_of(number, cells),
        }
    }

    /// It looks each of the cells up, or goes through all where those are more, or aren't known.
    fn count_of(&self, array: usize, cells: Option<(u64, u64)>) -> usize
        ensures { result ≡ count_by (meant.is_of array cells) self.now }
    {
        if !self.arrays.contains(&array) {
            return 0;
        }
        match few(cells, self.cells.len()) {
            Some((first, end)) => self.count_between(array, first, end),
            None => count_among(array, cells, &self.cells),
        }
    }

    /// How many there are of an array from a place up to another.
    fn count_between(&self, array: usize, first: u64, end: u64) -> usize
        requires order { first ≤ end }
        requires short { length self.now < 2 ^ 64 }
        ensures { result ≡ count_by (meant.is_of array (Some (first, end - first))) self.now }
    {
        let mut count = 0;
        for place in first..end {
            count += self.count_at(array, place);
        }
        count
    }

    /// How many are the one at this place.
    fn count_at(&self, array: usize, place: u64) -> usize
        ensures { result ≡ count_by (is_at array place) self.now }
    {
        match self.times.get(&(array, place)) {
            Some(count) => *count,
            None => 0,
        }
    }

    /// The same, of which these stand under `in` too.
    pub(crate) fn name(
        self,
        alloc: Global,
        array: Name,
        cells: Option<(u64, u64)>,
    ) -> Result<Owns, AllocError>
        ensures { IfOk result (λ named. named ≡ meant.name_all array cells self) }
    {
        match array {
            Name::Known(_) => Ok(self),
            Name::Other(number) => self.name_of(alloc, number, cells),
        }
    }

    fn name_of(
        self,
        alloc: Global,
        array: usize,
        cells: Option<(u64, u64)>,
    ) -> Result<Owns, AllocError>
        ensures { IfOk result (λ named. named ≡ map (meant.name_if array cells) self) }
    {
        match few(cells, self.cells.len()) {
            Some((first, end)) => Ok(Owns {
                cells: self.cells,
                arrays: self.arrays,
                times: self.times,
                named: with_run(self.named, array, first, end)?,
            }),
            None => Ok(Owns {
                cells: all_named_by(alloc, array, cells, &self.cells)?,
                arrays: self.arrays,
                times: self.times,
                named: self.named,
            }),
        }
    }

    /// Whether each of them stands under `in` too.
    pub(crate) fn are_named(&self) -> bool
        ensures { result ≡ list_all (λ o. o.named) self.now }
    {
        are_named(&self.cells, &self.named)
    }
}

/// The arrays of some cells.
fn arrays_of(alloc: Global, cells: &[Own]) -> Result<BTreeSet<usize>, AllocError>
    ensures { IfOk result (λ arrays. HasArrays arrays cells.now) }
{
    let mut arrays = BTreeSet::new(alloc);
    for own in cells {
        arrays.insert(own.cell.array)?;
    }
    Ok(arrays)
}

/// How often each cell is there.
fn times_of(alloc: Global, cells: &[Own]) -> Result<BTreeMap<(usize, u64), usize>, AllocError>
    ensures { IfOk result (λ times. HasTimes times cells.now) }
{
    let mut times = BTreeMap::new(alloc);
    for own in cells {
        let key = (own.cell.array, own.cell.place);
        let before = times_in(&times, key);
        times.insert(key, before + 1)?;
    }
    Ok(times)
}

fn times_in(times: &BTreeMap<(usize, u64), usize>, key: (usize, u64)) -> usize
    ensures { result ≡ times_at times.now key }
{
    match times.get(&key) {
        Some(count) => *count,
        None => 0,
    }
}

/// From where up to where cells stand, where they are known, and no more than so many.
fn few(cells: Option<(u64, u64)>, most: usize) -> Option<(u64, u64)>
    ensures { IfSome result (λ run. (cells ≡ Some (run.0, run.1 - run.0)) × (run.0 ≤ run.1)) }
{
    let (first, count) = cells?;
    let end = first.checked_add(count)?;
    if count > most as u64 {
        return None;
    }
    Some((first, end))
}

/// The cells of an array from a place up to another, beside others.
fn with_run(
    named: BTreeSet<(usize, u64)>,
    array: usize,
    first: u64,
    end: u64,
) -> Result<BTreeSet<(usize, u64)>, AllocError>
    requires { first ≤ end }
    ensures { IfOk result (λ more. HasRun array first end named more) }
{
    let mut more = named;
    for place in first..end {
        more.insert((array, place))?;
    }
    Ok(more)
}

/// Whether it is one of these cells of an array.
fn is_of(array: usize, cells: Option<(u64, u64)>, own: Own) -> bool
    ensures { result ≡ meant.is_of array cells own }
{
    points_into(array, cells, Some(own.cell))
}

/// How many of these cells of an array are among some.
fn count_among(array: usize, cells: Option<(u64, u64)>, own: &[Own]) -> usize
    ensures { result ≡ count_by (meant.is_of array cells) own.now }
{
    own.iter().filter(|one| is_of(array, cells, **one)).count()
}

/// Whether there are so many of these cells.
pub(crate) fn is_run(cells: Option<(u64, u64)>, count: usize) -> bool
    ensures { result ≡ meant.is_run cells count }
{
    match cells {
        Some((_, wanted)) => wanted == count as u64,
        None => false,
    }
}

fn name_if(array: usize, cells: Option<(u64, u64)>, own: Own) -> Own
    ensures { result ≡ meant.name_if array cells own }
{
    Own {
        cell: own.cell,
        named: own.named || is_of(array, cells, own),
    }
}

fn all_named_by(
    alloc: Global,
    array: usize,
    cells: Option<(u64, u64)>,
    own: &[Own],
) -> Result<Vec<Own>, AllocError>
    ensures { IfOk result (λ v. v.items ≡ map (meant.name_if array cells) own.now) }
{
    let mut named = Vec::new(alloc);
    for one in own {
        named.push(name_if(array, cells, *one))?;
    }
    Ok(named)
}

/// Whether each of some cells says that it stands under `in` too, or is among those that do.
fn are_named(own: &[Own], named: &BTreeSet<(usize, u64)>) -> bool
    ensures { result ≡ list_all (λ o. (under_in named.now o).named) own.now }
{
    for one in own {
        if !is_named(*one, named) {
            return false;
        }
    }
    true
}

fn is_named(own: Own, named: &BTreeSet<(usize, u64)>) -> bool
    ensures { result ≡ (under_in named.now own).named }
{
    own.named || named.contains(&(own.cell.array, own.cell.place))
}
