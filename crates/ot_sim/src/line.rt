//! What a line asks.
ghost use Rattle.std.specs.Prelude.{◌≡◌, Some};
ghost use Rattle.ot_sim.specs.Lines.{said_of, said_in, by_word, lone_word, tenant_line, admit_line, tenant_said, start_line, finish_line};
ghost use Rattle.ot_sim.specs.Lines as of;

use crate::word::{name, number, split, worker};

/// A line, read.
#[derive(Clone, Copy, Debug, PartialEq, Eq)]
pub enum Line<'a> {
    /// This tenant is to be made.
    Tenant(&'a str),
    /// The first word is `tenant`, and what stands behind it isn't one name.
    NoTenant,
    /// The tenant asks this request.
    Admit(&'a str, &'a [u8]),
    /// The tenant's next request is opened.
    Open(&'a str),
    /// The worker takes a piece of the tenant's job, of the claimable task at this place.
    Start(u32, &'a str, u32),
    /// The worker has run its piece.
    Finish(u32),
    /// The tenant is told what its job came to.
    Reply(&'a str),
    /// The tenant's job fails.
    Abort(&'a str),
    /// All that can happen happens.
    Drain,
    /// What the tenant's jobs have used.
    Usage(&'a str),
    /// None of these.
    Bad,
}

/// Reads a line, without its LF.
pub fn read_line(line: &[u8]) -> Line<'_>
    ensures { said_of result ≡ said_in line.now }
{
    match split(line) {
        (word, Some(rest)) => first_word(word, rest),
        (word, None) => lone_word(word),
    }
}

fn lone_word<'a>(word: &[u8]) -> Line<'a>
    ensures { said_of result ≡ lone_word word.now }
{
    if word == b"drain".as_slice() {
        Line::Drain
    } else if word == b"tenant".as_slice() {
        Line::NoTenant
    } else {
        Line::Bad
    }
}

fn first_word<'a>(word: &[u8], rest: &'a [u8]) -> Line<'a>
    ensures { said_of result ≡ by_word word.now rest.now }
{
    if word == b"tenant".as_slice() {
        tenant_line(rest)
    } else if word == b"admit".as_slice() {
        admit_line(rest)
    } else if word == b"open".as_slice() {
        open_line(rest)
    } else if word == b"start".as_slice() {
        start_line(rest)
    } else if word == b"finish".as_slice() {
        finish_line(rest)
    } else if word == b"reply".as_slice() {
        reply_line(rest)
    } else if word == b"abort".as_slice() {
        abort_line(rest)
    } else if word == b"usage".as_slice() {
        usage_line(rest)
    } else {
        Line::Bad
    }
}

fn tenant_line(rest: &[u8]) -> Line<'_>
    ensures { said_of result ≡ tenant_line rest.now }
{
    match name(rest) {
        Some(tenant) => Line::Tenant(tenant),
        None => Line::NoTenant,
    }
}

fn admit_line(rest: &[u8]) -> Line<'_>
    ensures { said_of result ≡ admit_line rest.now }
{
    let (word, Some(request)) = split(rest) else {
        return Line::Bad;
    };
    match name(word) {
        Some(tenant) => Line::Admit(tenant, request),
        None => Line::Bad,
    }
}

fn open_line(rest: &[u8]) -> Line<'_>
    ensures { said_of result ≡ tenant_said of.Open rest.now }
{
    match name(rest) {
        Some(tenant) => Line::Open(tenant),
        None => Line::Bad,
    }
}

fn start_line(rest: &[u8]) -> Line<'_>
    ensures { said_of result ≡ start_line rest.now }
{
    let (first, Some(rest)) = split(rest) else {
        return Line::Bad;
    };
    let (second, Some(third)) = split(rest) else {
        return Line::Bad;
    };
    match (worker(first), name(second), number(third)) {
        (Some(worker), Some(tenant), Some(pick)) => Line::Start(worker, tenant, pick),
        _ => Line::Bad,
    }
}

fn finish_line<'a>(rest: &[u8]) -> Line<'a>
    ensures { said_of result ≡ finish_line rest.now }
{
    match worker(rest) {
        Some(worker) => Line::Finish(worker),
        None => Line::Bad,
    }
}

fn reply_line(rest: &[u8]) -> Line<'_>
    ensures { said_of result ≡ tenant_said of.Reply rest.now }
{
    match name(rest) {
        Some(tenant) => Line::Reply(tenant),
        None => Line::Bad,
    }
}

fn abort_line(rest: &[u8]) -> Line<'_>
    ensures { said_of result ≡ tenant_said of.Abort rest.now }
{
    match name(rest) {
        Some(tenant) => Line::Abort(tenant),
        None => Line::Bad,
    }
}

fn usage_line(rest: &[u8]) -> Line<'_>
    ensures { said_of result ≡ tenant_said of.Usage rest.now }
{
    match name(rest) {
        Some(tenant) => Line::Usage(tenant),
        None => Line::Bad,
    }
}
