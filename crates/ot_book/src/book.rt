ghost use Rattle.std.specs.Prelude.{◌≡◌, ◌+◌, ◌≤◌, map, length, vec_len, slice_range, All, ◌↔◌, ◌<◌, ◌^◌, true, false, IfOk, OnOk, OnErr, IsTrue, IsSome, option_map, Some, IfSome};
ghost use Rattle.ot_model.specs.Cells.{lengths};
ghost use Rattle.ot_model.specs.Names.{FitsShape};
ghost use Rattle.ot_book.specs.Answers.{numbers_shown, value_of, is_checkpoint};
ghost use Rattle.ot_book.specs.Readings.{IsReading};

use crate::kept::Kept;
use crate::reading::read_line;
use crate::reply::Reply;
use crate::shelf::Shelf;
use crate::step::{Considered, consider, job_over, wants_checkpoint};
use crate::told::Told;
use ot_check::{Checked, JobSpec, Outcome};
use ot_model::{Cells, Section};
use ot_store::{Limits, Store};
use serde_json::Value;
use std::alloc::{AllocError, Global};
use std::marker::Model;
use std::sync::Arc;

/// A line with what was told.
#[derive(Debug, Drop)]
pub struct Entry {
    pub line: Vec<u8>,
    pub told: Told,
}

/// A request whose program is to be run: its line, and the lists of its reply at their full length.
#[derive(Debug, Drop)]
pub struct Pending {
    line: Vec<u8>,
    shows: Vec<Vec<u64>>,
}

/// The requests of one tenant in order with what was told of each, and its arrays after them.
#[derive(Debug, Drop)]
pub struct Book {
    name: String,
    limits: Limits,
    base: Store,
    store: Store,
    log: Vec<Entry>,
    pending: Option<Pending>,
    used: u64,
    // The number of the log's first line, and the units of the done replies before it.
    first: u64,
    base_used: u64,
    // Lines that ran a program, as they were read.
    kept: Shelf,
}

/// The greatest number of a request.
const MAX_NUMBER: u64 = 4_294_967_295;

impl Model for Book {
    ghost use Rattle.ot_book.specs.Books.{Register};

    ghost Value = { Register };

    ghost use Rattle.ot_book.specs.BookView.{register_of, IsBook};

    ghost view = { register_of };

    ghost invariant = { IsBook };
}

/// What became of a line.
#[derive(Debug, Drop)]
pub enum Opened {
    /// A request is open, the line's number would be too great, or the log is at its limit and the line
    /// is no checkpoint. Nothing has changed.
    Full,
    /// The reply is logged.
    Answered,
    /// The request is open until `close`, `close_refused` or `forget`.
    ToRun(JobSpec),
}

impl Book {
    ghost use Rattle.ot_check.specs.Jobs.{IsMeaning};
    ghost use Rattle.ot_book.specs.Books.{IsRight, IsOpenFor, new_register, number_at, next_number, reply_at, line_logged, request_closed, request_refused, given_up, OpensLine, IsFull};
    ghost use Rattle.ot_book.specs.ReplyView.{reply_of};
    ghost use Rattle.ot_book.specs.BookView.{entries_of};
    ghost use Rattle.serde_json.specs.View.{view};
    ghost use Rattle.std.specs.Arc.{arc_value};
    ghost use Rattle.ot_store.specs.Arrays.{shape_in};

    /// A book that begins with these arrays.
    pub fn new(alloc: Global, name: &str, limits: Limits, store: Store) -> Result<Book, AllocError>
        ensures { IfOk result (λ book. book ≡ new_register name.now limits store) }
    {
        let name = String::from_str(alloc, name)?;
        let base = store.copy(alloc)?;
        Ok(Book {
            name,
            limits,
            base,
            store,
            log: Vec::new(alloc),
            pending: None,
            used: 0,
            first: 1,
            base_used: 0,
            kept: Shelf::new(alloc),
        })
    }

    /// The tenant's name.
    pub fn name(&self) -> &str
        ensures { result.now ≡ self.now.name }
    {
        self.name.as_str()
    }

    /// The tenant's limits.
    pub fn limits(&self) -> Limits
        ensures { result ≡ self.now.limits }
    {
        self.limits
    }

    /// The arrays before the log: those at the last checkpoint, or at the beginning.
    pub fn base(&self) -> &Store
        ensures { result.now ≡ self.now.base }
    {
        &self.base
    }

    /// The arrays as they are now.
    pub fn store(&self) -> &Store
        ensures { result.now ≡ self.now.store }
    {
        &self.store
    }

    /// The lines since the last checkpoint, that one among them, with what was told, in order. They are
    /// right: what was told, the arrays and the used units are those that the lines give, one after
    /// another, from the arrays and units before the log.
    pub fn log(&self) -> &[Entry]
        ensures entries { entries_of result.now ≡ self.now.log }
        ensures right { IsRight self.now }
    {
        self.log.as_slice()
    }

    /// The number of the next request.
    pub fn next_number(&self) -> u64
        ensures { result ≡ next_number self.now }
    {
        self.number_at(self.log.len())
    }

    /// The number of the log's first line.
    pub fn first(&self) -> u64
        ensures { result ≡ self.now.first }
    {
        self.first
    }

    /// The units of all done replies before the log.
    pub fn base_used(&self) -> u64
        ensures { result ≡ self.now.base_used }
    {
        self.base_used
    }

    /// The reply at a place of the log, counted from 0, where the log has it.
    pub fn reply_at(&self, place: usize) -> Option<Reply<'_>>
        ensures { option_map reply_of result ≡ reply_at self.now place }
    {
        let entry = self.log.get(place)?;
        Some(Reply {
            number: self.number_at(place),
            told: &entry.told,
        })
    }

    // The number of the request at a place of the log. Nothing else numbers requests.
    fn number_at(&self, place: usize) -> u64
        requires { place < 2 ^ 63 }
        ensures { result ≡ number_at self.now place }
    {
        self.first + place as u64
    }

    /// The units of all done replies.
    pub fn used(&self) -> u64
        ensures { result ≡ self.now.used }
    {
        self.used
    }

    /// Whether a request is open.
    pub fn is_open(&self) -> bool
        ensures { IsTrue result ↔ IsSome self.now.pending }
    {
        self.pending.is_some()
    }

    // Whether a line can't be taken that is a checkpoint, or is none.
    fn is_full(&self, checkpoint: bool) -> bool
        ensures { IsTrue result ↔ IsFull self.now checkpoint }
    {
        self.is_open()
            || self.next_number() > MAX_NUMBER
            || (self.log.len() >= self.limits.log as usize && !checkpoint)
    }

    /// Takes a line as the next request. Memory is told only while the line's JSON is read and before
    /// the reply's place is reserved, and nothing has changed then. Afterwards want of memory is what
    /// the tenant is told, but never at a checkpoint: there memory is told in any case.
    pub fn open(&mut self, alloc: Global, line: &[u8]) -> Result<Opened, AllocError>
        ensures opened { IfOk result (λ opened. OpensLine self.old line.now self.new opened) }
        ensures memory { OnErr result (self.new ≡ self.old) }
    {
        if let Some(checked) = self.read_before(alloc, line) {
            return self.run_again(alloc, line, checked);
        }
        let value = read_line(alloc, line)?;
        let opened = self.take(alloc, line, &value)?;
        if let Opened::ToRun(spec) = &opened {
            self.keep(alloc, line, spec);
        }
        Ok(opened)
    }

    // The line's program, where it is kept and the line would be read as that program again.
    fn read_before(&mut self, alloc: Global, line: &[u8]) -> Option<Arc<Checked>>
        ensures reading { IfSome result (λ checked. IsReading (record {
          line = line.now;
          shape = shape_in self.old.limits self.old.store;
          checked = arc_value checked;
        })) }
        ensures same { self.new ≡ self.old }
    {
        if !self.kept.has_line(line) {
            return None;
        }
        let shape = self.store.shape(alloc, &self.limits).ok()?;
        self.kept.find(line, &shape)
    }

    // Takes a line that runs this program.
    fn run_again(
        &mut self,
        alloc: Global,
        line: &[u8],
        checked: Arc<Checked>,
    ) -> Result<Opened, AllocError>
        requires { IsReading (record { line = line.now; shape = shape_in self.old.limits self.old.store; checked = arc_value checked }) }
        ensures opened { IfOk result (λ opened. OpensLine self.old line.now self.new opened) }
        ensures memory { OnErr result (self.new ≡ self.old) }
    {
        if self.is_full(false) {
            return Ok(Opened::Full);
        }
        self.log.reserve(1)?;
        let line = Vec::from_slice(alloc, line)?;
        let Ok((spec, shows)) = job_over(alloc, &self.store, checked) else {
            self.log.push_reserved(Entry {
                line,
                told: Told::Lost,
            });
            return Ok(Opened::Answered);
        };
        self.pending = Some(Pending { line, shows });
        Ok(Opened::ToRun(spec))
    }

    // Keeps how the line of the open request was read. It isn't kept where memory is refused, or its program names too many
    // cells.
    fn keep(&mut self, alloc: Global, line: &[u8], spec: &JobSpec)
        requires open { IsOpenFor self.old spec.now }
        requires line { self.old.pending ≡ Some line.now }
        ensures { self.new ≡ self.old }
    {
        let Ok(line) = Vec::from_slice(alloc, line) else {
            return;
        };
        let Ok(shape) = self.store.shape(alloc, &self.limits) else {
            return;
        };
        // Its clause `named` is what is needed.
        let _ = spec.checked();
        let Ok(checked) = spec.share() else {
            return;
        };
        if let Some(kept) = Kept::new(line, shape, checked) {
            let _ = self.kept.keep(kept);
        }
    }

    // Takes a line, of which this is the value.
    fn take(
        &mut self,
        alloc: Global,
        line: &[u8],
        value: &Option<Value>,
    ) -> Result<Opened, AllocError>
        requires { option_map view value.now ≡ value_of line.now }
        ensures opened { IfOk result (λ opened. OpensLine self.old line.now self.new opened) }
        ensures memory { OnErr result (self.new ≡ self.old) }
    {
        let checkpoint = wants_checkpoint(value);
        if self.is_full(checkpoint) {
            return Ok(Opened::Full);
        }
        if checkpoint {
            self.begin_anew(alloc, line)?;
            return Ok(Opened::Answered);
        }
        self.log.reserve(1)?;
        let kept = Vec::from_slice(alloc, line)?;
        match consider(alloc, &self.limits, &mut self.store, self.used, value) {
            Considered::Now(told) => {
                self.log.push_reserved(Entry { line: kept, told });
                Ok(Opened::Answered)
            }
            Considered::Runs(spec, shows) => {
                self.pending = Some(Pending { line: kept, shows });
                Ok(Opened::ToRun(spec))
            }
        }
    }

    // Takes a checkpoint: the log begins with this line, at the arrays and units as they are now.
    fn begin_anew(&mut self, alloc: Global, line: &[u8]) -> Result<(), AllocError>
        requires free { ¬ (IsFull self.old true) }
        requires checkpoint { is_checkpoint line.now ≡ true }
        ensures anew { OnOk result (self.new ≡ line_logged self.old line.now false) }
        ensures memory { OnErr result (self.new ≡ self.old) }
    {
        let line = Vec::from_slice(alloc, line)?;
        let base = self.store.copy(alloc)?;
        let mut log = Vec::with_capacity(alloc, 1)?;
        let told = Told::Accepted;
        log.push_reserved(Entry { line, told });
        self.first = self.next_number();
        self.base = base;
        self.base_used = self.used;
        self.log = log;
        Ok(())
    }

    /// Ends the open request with its outcome: the reply is logged, the arrays have the new cells,
    /// and the units are counted. It takes no memory.
    pub fn close(&mut self, spec: JobSpec, outcome: Outcome)
        requires open { IsOpenFor self.old spec }
        requires meaning { IsMeaning spec outcome }
        ensures { self.new ≡ request_closed self.old }
    {
        let Some(pending) = self.pending.take() else {
            unreachable!()
        };
        let Pending { line, mut shows } = pending;
        show_all(&mut shows, &spec.checked().program.shows, &outcome.cells);
        let told = Told::Done(outcome.counts.tasks, outcome.counts.units, shows);
        self.store.set_cells(outcome.cells);
        self.used += u64::from(outcome.counts.units);
        self.log.push_reserved(Entry { line, told });
    }

    /// Ends the open request for want of memory: that is logged, and the arrays and units stay. It
    /// takes no memory.
    pub fn close_refused(&mut self, spec: JobSpec)
        requires { IsOpenFor self.old spec }
        ensures { self.new ≡ request_refused self.old }
    {
        let Some(pending) = self.pending.take() else {
            unreachable!()
        };
        let Pending { line, shows: _ } = pending;
        let told = Told::Lost;
        self.log.push_reserved(Entry { line, told });
    }

    /// Gives the open request up: the book is as before it was opened. It takes no memory.
    pub fn forget(&mut self, spec: JobSpec)
        requires { IsOpenFor self.old spec }
        ensures { self.new ≡ given_up self.old }
    {
        self.pending = None;
    }
}

/// Writes to each list the numbers of the section at its place.
fn show_all(lists: &mut Vec<Vec<u64>>, sections: &Vec<Section>, cells: &Cells)
    requires long { map (λ l. length l.items) lists.old.items ≡ map (λ s. s.len) sections.now.items }
    requires there { All (FitsShape (lengths cells.now)) sections.now.items }
    ensures { map (λ l. l.items) lists.new.items ≡ numbers_shown sections.now.items cells.now }
{
    for i in 0..sections.len() {
        let section = sections[i];
        let array = &cells.arrays()[section.array as usize];
        let list = &mut lists[i];
        show(list, array, section.start as usize);
    }
}

/// Writes to the list as many numbers of the array as it is long, from `start` on.
fn show(list: &mut Vec<u64>, array: &Vec<u64>, start: usize)
    requires { start + vec_len list.old ≤ vec_len array.now }
    ensures shown { list.new.items ≡ slice_range array.now.items start (start + vec_len list.old) }
    ensures len { vec_len list.new ≡ vec_len list.old }
{
    let end = start + list.len();
    let part = array.as_slice();
    list.as_mut_slice().copy_from_slice(&part[start..end]);
}
