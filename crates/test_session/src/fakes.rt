//! Devices, and an executor, that go wrong where a test asks them to.
ghost use Rattle.std.specs.Prelude.{Some};
ghost use Rattle.ot_session.specs.Serving.{draft};

use ot_book::{Executor, NotDone, Solo};
use ot_check::{JobSpec, Outcome};
use ot_session::{Failed, Sink};
use std::alloc::Global;
use std::io;
use std::io::{Read, Write};

/// A sink that takes one byte a write and fails once it took all that it may.
#[derive(Drop)]
pub struct Narrow {
    pub taken: Vec<u8>,
    pub may_take: usize,
    pub failures: u64,
}

impl Sink for Narrow {
    ghost draft = { λ s. draft (Some s.taken.items) s.failures };

    fn write(&mut self, bytes: &[u8]) -> Result<usize, Failed> {
        if self.taken.len() < self.may_take && self.taken.push(bytes[0]).is_ok() {
            return Ok(1);
        }
        self.failures = self.failures.wrapping_add(1);
        Err(Failed)
    }
}

/// A reader that gives so many bytes a read, until it gave so many in all, and then fails or ends.
#[derive(Drop)]
pub struct Dripping<'a> {
    pub bytes: &'a [u8],
    pub a_read: usize,
    pub left: usize,
    pub fails: bool,
    /// The least room that a read was offered.
    pub least: usize,
}

impl<'a> Dripping<'a> {
    /// One that gives all of the bytes, and ends.
    pub fn whole(bytes: &'a [u8], a_read: usize) -> Dripping<'a> {
        Dripping {
            bytes,
            a_read,
            left: bytes.len(),
            fails: false,
            least: usize::MAX,
        }
    }
}

impl Read for Dripping<'_> {
    fn read(&mut self, buf: &mut [u8]) -> io::Result<usize> {
        self.least = self.least.min(buf.len());
        if self.left == 0 && self.fails {
            return Err(io::Error::from(io::ErrorKind::Interrupted));
        }
        let count = buf
            .len()
            .min(self.a_read)
            .min(self.left)
            .min(self.bytes.len());
        let (now, later) = self.bytes.split_at(count);
        buf[..count].copy_from_slice(now);
        self.bytes = later;
        self.left -= count;
        Ok(count)
    }
}

/// A device of std whose second call goes wrong: a read fails, and a write takes no byte.
#[derive(Drop)]
pub struct Faltering {
    pub calls: u8,
}

impl Read for Faltering {
    fn read(&mut self, buf: &mut [u8]) -> io::Result<usize> {
        self.calls = self.calls.saturating_add(1);
        if self.calls == 2 {
            return Err(io::Error::from(io::ErrorKind::Interrupted));
        }
        if buf.is_empty() {
            return Ok(0);
        }
        buf[0] = self.calls;
        Ok(1)
    }
}

impl Write for Faltering {
    fn write(&mut self, buf: &[u8]) -> io::Result<usize> {
        self.calls = self.calls.saturating_add(1);
        Ok(if self.calls == 2 { 0 } else { buf.len() })
    }

    fn flush(&mut self) -> io::Result<()> {
        Ok(())
    }
}

/// An executor that performs no job.
#[derive(Drop)]
pub struct Refusing {
    pub why: NotDone,
}

impl Executor for Refusing {
    fn perform(&mut self, _alloc: Global, _spec: &JobSpec) -> Result<Outcome, NotDone> {
        Err(self.why)
    }
}

/// An executor that runs each job, and keeps how many statements each had.
#[derive(Drop)]
pub struct Counting {
    pub performed: Vec<u32>,
}

impl Executor for Counting {
    fn perform(&mut self, alloc: Global, spec: &JobSpec) -> Result<Outcome, NotDone> {
        let statements = spec.checked().program.statements;
        if self.performed.push(statements).is_err() {
            return Err(NotDone::Memory);
        }
        Solo.perform(alloc, spec)
    }
}
