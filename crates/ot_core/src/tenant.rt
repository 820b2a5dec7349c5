ghost use Rattle.std.specs.Prelude.{◌≡◌, ◌<◌, length, ◌↔◌, ◌^◌, None, Some, [], map, IsTrue, false, true, IfOk, OnOk, OnErr, IsSome, option_copied, option_map, slice_get, ◌+◌, unwrap_or, nat_le, if◌then◌else◌, ◌-◌, ◌≤◌, ◌++◌, vec_len, vec_capacity};

use ot_book::{Book, Entry, Opened, Reply, Told, is_checkpoint};
use ot_check::{JobSpec, Outcome};
use ot_store::Store;
use std::alloc::{AllocError, Global};
use std::marker::Model;

/// One tenant: its book, the arrays that it began with, the lines that it asked, what it was told before
/// the book's log, and the spec of its open request.
#[derive(Drop)]
pub(crate) struct Tenant {
    book: Book,
    // The arrays that it began with.
    base: Store,
    asked: Vec<Vec<u8>>,
    // What it was told before the book's log.
    kept: Vec<Told>,
    // The lines asked since the last checkpoint asked, that one counted.
    since: u32,
    spec: Option<JobSpec>,
}

/// How many lines may be asked in all.
const MAX_LINES: usize = 4_294_967_295;

impl Model for Tenant {
    ghost use Rattle.std.specs.Coded.{codes};
    ghost use Rattle.ot_check.specs.contracts.checked.Checked as c;
    ghost use Rattle.ot_core.specs.Accounts.{Account};

    ghost Value = { Account };

    ghost coded = { Prim.hlevel (codes, c.the_row.coded) };

    ghost use Rattle.ot_core.specs.AccountView.{account_of, IsTenant};

    ghost view = { account_of };

    ghost invariant = { IsTenant };
}

impl Tenant {
    ghost use Rattle.ot_check.specs.Jobs.{IsMeaning};
    ghost use Rattle.ot_book.specs.Answers.{is_checkpoint};
    ghost use Rattle.ot_book.specs.Books.{new_register};
    ghost use Rattle.ot_core.specs.Accounts.{Account, IsSoundAccount, answered_count, AdmitsLine, OpensNext, with_reply, new_account, next_line, MayAsk, IsUnopened, reply_in};
    ghost use Rattle.ot_core.specs.Headline.{IsTold};

    /// A tenant that asked nothing yet.
    pub(crate) fn new(alloc: Global, book: Book, base: Store) -> Tenant
        requires { book ≡ new_register book.name book.limits base }
        ensures is { result ≡ new_account book }
        ensures sound { IsSoundAccount result }
    {
        let _ = book.log();
        let _ = book.limits();
        Tenant {
            book,
            base,
            asked: Vec::new(alloc),
            kept: Vec::new(alloc),
            since: 0,
            spec: None,
        }
    }

    /// Asks a line, where there is room for it.
    pub(crate) fn admit(&mut self, alloc: Global, line: &[u8]) -> Result<bool, AllocError>
        ensures admitted { IfOk result (λ took. AdmitsLine self.old line.now took self.new) }
        ensures memory { OnErr result (MayAsk self.old × (self.new ≡ self.old)) }
        ensures sound { IsSoundAccount self.new }
    {
        if self.asked.len() >= MAX_LINES {
            return Ok(false);
        }
        let checkpoint = is_checkpoint(alloc, line)?;
        if !has_room(self.book.limits().log, self.since, checkpoint) {
            return Ok(false);
        }
        let line = Vec::from_slice(alloc, line)?;
        self.asked.push(line)?;
        self.since = next_since(self.since, checkpoint);
        Ok(true)
    }

    /// Opens the next line: it is answered, or this job is to be run.
    pub(crate) fn open(&mut self, alloc: Global) -> Result<Option<JobSpec>, AllocError>
        requires { IsUnopened self.old }
        ensures opened { IfOk result (λ job. OpensNext self.old job self.new) }
        ensures memory { OnErr result (self.new ≡ self.old) }
        ensures sound { IsSoundAccount self.new }
    {
        let next = self.answered();
        let line = line_at(&self.asked, next);
        if is_checkpoint(alloc, line)? {
            self.open_checkpoint(alloc)?;
            return Ok(None);
        }
        let spec = match self.book.open(alloc, line)? {
            Opened::Full => unreachable!(),
            Opened::Answered => return Ok(None),
            Opened::ToRun(spec) => spec,
        };
        let Ok(copy) = spec.copy(alloc) else {
            self.book.close_refused(spec);
            return Ok(None);
        };
        self.spec = Some(spec);
        Ok(Some(copy))
    }

    // Opens the next line, which is a checkpoint: what was told is kept.
    fn open_checkpoint(&mut self, alloc: Global) -> Result<(), AllocError>
        requires unopened { IsUnopened self.old }
        requires checkpoint { is_checkpoint (next_line self.old) ≡ true }
        ensures replied { OnOk result (self.new ≡ with_reply self.old false) }
        ensures memory { OnErr result (self.new ≡ self.old) }
        ensures sound { IsSoundAccount self.new }
    {
        let next = self.answered();
        let copies = copy_told(alloc, self.book.log())?;
        self.kept.reserve(copies.len())?;
        let Opened::Answered = self.book.open(alloc, line_at(&self.asked, next))? else {
            unreachable!()
        };
        put_behind(&mut self.kept, copies);
        Ok(())
    }

    /// The job of the open request is done.
    pub(crate) fn close(&mut self, outcome: Outcome)
        requires { (s : _) × (self.old.spec ≡ Some s) × IsMeaning s outcome }
        ensures is { self.new ≡ with_reply self.old false }
        ensures sound { IsSoundAccount self.new }
    {
        let Some(spec) = self.spec.take() else {
            unreachable!()
        };
        self.book.close(spec, outcome);
    }

    /// The job of the open request failed for want of memory.
    pub(crate) fn close_refused(&mut self)
        requires { IsSome self.old.spec }
        ensures is { self.new ≡ with_reply self.old true }
        ensures sound { IsSoundAccount self.new }
    {
        let Some(spec) = self.spec.take() else {
            unreachable!()
        };
        self.book.close_refused(spec);
    }

    /// The spec of the open request, where its job runs.
    pub(crate) fn spec(&self) -> Option<&JobSpec>
        ensures { option_copied result ≡ self.now.spec }
    {
        self.spec.as_ref()
    }

    /// Its book.
    pub(crate) fn book(&self) -> &Book
        ensures { result.now ≡ self.now.book }
    {
        &self.book
    }

    /// The lines that it asked.
    pub(crate) fn asked(&self) -> &Vec<Vec<u8>>
        ensures { map (λ l. l.items) result.now.items ≡ self.now.asked }
    {
        &self.asked
    }

    /// What it was told before the book's log. All that it was told is the first of what its own lines
    /// give.
    pub(crate) fn kept(&self) -> &[Told]
        ensures kept { map told_of result.now ≡ self.now.kept }
        ensures told { IsTold self.now }
    {
        self.kept.as_slice()
    }

    /// The arrays that it began with.
    pub(crate) fn base(&self) -> &Store
        ensures { result.now ≡ self.now.base }
    {
        &self.base
    }

    /// Whether a line is to be opened next.
    pub(crate) fn is_unopened(&self) -> bool
        ensures { IsTrue result ↔ IsUnopened self.now }
    {
        self.spec.is_none() && self.answered() < self.asked.len()
    }

    /// The reply at a place of all that it was given, counted from 0.
    pub(crate) fn reply_at(&self, place: usize) -> Option<Reply<'_>>
        ensures { option_map reply_of result ≡ reply_in self.now place }
    {
        let kept = self.kept.len();
        if place >= kept {
            return self.book.reply_at(place - kept);
        }
        Some(Reply {
            number: place as u64 + 1,
            told: &self.kept[place],
        })
    }

    /// How many of its lines were answered.
    pub(crate) fn answered(&self) -> usize
        ensures { result ≡ answered_count self.now }
    {
        self.kept.len() + self.book.log().len()
    }
}

ghost use Rattle.ot_book.specs.ReplyView.{told_of, reply_of};
ghost use Rattle.ot_book.specs.BookView.{entries_of};

// What the entries tell, once more.
fn copy_told(alloc: Global, entries: &[Entry]) -> Result<Vec<Told>, AllocError>
    ensures { IfOk result (λ copies. map told_of copies.items ≡ map (λ e. e.1) (entries_of entries.now)) }
{
    let mut copies = Vec::with_capacity(alloc, entries.len())?;
    for entry in entries {
        copies.push(entry.told.copy(alloc)?)?;
    }
    Ok(copies)
}

// Whether a line may be asked after so many.
fn has_room(limit: u32, since: u32, checkpoint: bool) -> bool
    ensures { result ≡ (if nat_le limit since then checkpoint else true) }
{
    if limit <= since {
        return checkpoint;
    }
    true
}

// The lines since the last checkpoint, after one more.
fn next_since(since: u32, checkpoint: bool) -> u32
    requires { since < 2 ^ 32 - 1 }
    ensures { result ≡ (if checkpoint then 1 else since + 1) }
{
    if checkpoint {
        return 1;
    }
    since + 1
}

// Puts what is told behind what is kept, which has room for it.
fn put_behind(kept: &mut Vec<Told>, more: Vec<Told>)
    requires { vec_len kept.old + vec_len more ≤ vec_capacity kept.old }
    ensures { kept.new.items ≡ kept.old.items ++ more.items }
{
    for told in more {
        kept.push_reserved(told);
    }
}

// The line at a place that is there.
fn line_at(asked: &Vec<Vec<u8>>, place: usize) -> &[u8]
    requires { place < vec_len asked.now }
    ensures { result.now ≡ unwrap_or (slice_get (map (λ l. l.items) asked.now.items) place) [] }
{
    &asked[place]
}
