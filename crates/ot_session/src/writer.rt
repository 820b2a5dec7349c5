//! A sink over a writer of std. It tells of the bytes what the writer tells: over a `Vec` each of
//! them, over a file or a socket none.
ghost use Rattle.std.specs.Prelude.{◌≡◌};
ghost use Rattle.ot_session.specs.Serving.{draft};

use crate::device::Sink;
use ot_lines::Failed;
use std::io::Write;

/// A sink over a writer. Each error of the writer is a failure, and so is a write of no byte.
#[derive(Drop)]
pub struct Writing<W: Write> {
    writer: W,
    failures: u64,
}

impl<W: Write> Writing<W> {
    ghost use Rattle.ot_session.specs.Writing.{writer_of};

    /// A writer of std as a sink, to which nothing was written.
    pub fn new(writer: W) -> Writing<W>
        ensures writer { writer_of result ≡ writer }
        ensures draft { ⟦<Writing<W> as Sink>⟧.draft result ≡ draft (W.contents writer) 0 }
    {
        Writing {
            writer,
            failures: 0,
        }
    }

    /// The writer again.
    pub fn into_inner(self) -> W
        ensures { result ≡ writer_of self }
    {
        self.writer
    }
}

impl<W: Write> Sink for Writing<W> {
    ghost draft = { λ s. draft (W.contents s.writer) s.failures };

    fn write(&mut self, bytes: &[u8]) -> Result<usize, Failed> {
        match self.writer.write(bytes) {
            Ok(count) if count > 0 => Ok(count),
            _ => {
                self.failures = self.failures.wrapping_add(1);
                Err(Failed)
            }
        }
    }
}
