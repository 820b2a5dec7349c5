//! A source over a reader of std. It tells of the bytes what the reader tells: over a slice of bytes
//! each of them, over a file or a socket none.
ghost use Rattle.std.specs.Prelude.{◌≡◌};
ghost use Rattle.ot_lines.specs.Lines.{flow};

use crate::source::{Failed, Source};
use std::io::Read;

/// A source over a reader. Each error of the reader is a failure.
#[derive(Drop)]
pub struct Reading<R: Read> {
    reader: R,
    latest: usize,
    reads: u64,
    failures: u64,
    ends: u64,
}

impl<R: Read> Reading<R> {
    ghost use Rattle.ot_lines.specs.Reading.{reader_of};

    /// A reader of std as a source, of which nothing was read.
    pub fn new(reader: R) -> Reading<R>
        ensures reader { reader_of result ≡ reader }
        ensures flow { ⟦<Reading<R> as Source>⟧.flow result ≡ flow (R.remaining reader) 0 0 0 0 }
    {
        Reading {
            reader,
            latest: 0,
            reads: 0,
            failures: 0,
            ends: 0,
        }
    }

    /// The reader again.
    pub fn into_inner(self) -> R
        ensures { result ≡ reader_of self }
    {
        self.reader
    }
}

impl<R: Read> Source for Reading<R> {
    ghost flow = { λ s. flow (R.remaining s.reader) s.latest s.reads s.failures s.ends };

    fn read(&mut self, buffer: &mut [u8]) -> Result<usize, Failed> {
        self.reads = self.reads.wrapping_add(1);
        self.latest = 0;
        let Ok(count) = self.reader.read(buffer) else {
            self.failures = self.failures.wrapping_add(1);
            return Err(Failed);
        };
        self.latest = count;
        if count == 0 {
            self.ends = self.ends.wrapping_add(1);
        }
        Ok(count)
    }
}
