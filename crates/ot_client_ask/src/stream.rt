//! Where lines come from.
//!
//! A stream tells, for proofs alone, which bytes it has ahead, or nothing of them, and how often it told its end
//! and failed. It counts in 64 bits, so a count begins again at 0 after 2^64.
ghost use Rattle.std.specs.Prelude.{◌≡◌, ◌+◌, ◌++◌, ◌≤◌, [], vec_len, vec_capacity, IfOk};
ghost use Rattle.ot_lines.specs.Lines.{heard_by, Hears};
ghost use Rattle.ot_client_ask.specs.Streams.{Incoming, IsStreamOver, ReadsLine, incoming};

use ot_lines::{Bounds, Heard, LineFault, Lines, Source};
use std::alloc::{AllocError, Global};

/// How many bytes of a line are heard at a time.
const PIECE: u32 = 4_096;

/// How many bytes are read at a time.
const READ: u32 = 65_536;

/// Where a line that was read ended.
#[derive(Clone, Copy, Debug, PartialEq, Eq)]
pub enum LineEnd {
    /// At its LF, which is kept.
    Whole,
    /// At the end of the input, without an LF: maybe no byte came.
    Cut,
}

/// Why a line could not be read.
#[derive(Clone, Copy, Debug, PartialEq, Eq)]
pub enum ReadFault {
    /// A read failed.
    Failed,
    /// There was no memory for the line.
    Memory,
}

/// Lines that come in.
pub trait LineSource {
    // What is still to come, and what happened.
    ghost coming: { Self → Incoming };

    /// Reads up to the next LF, which is kept, or to the end of the input.
    fn read_line(&mut self, line: &mut Vec<u8>) -> Result<LineEnd, ReadFault>
        requires { line.old.items ≡ [] }
        ensures { ReadsLine (coming self.old) (coming self.new) line.new.items result };

    /// Waits until the input is over: it ends, or fails. What still comes is passed over.
    fn wait_for_end(&mut self)
        ensures { IsStreamOver (coming self.old) (coming self.new) };
}

/// Lines of a source, however long. A failed read is a failure, and so is the one read too many after 2^32 - 1 of them.
#[derive(Drop)]
pub struct LinesOf<R: Source> {
    lines: Lines,
    source: R,
    ends: u64,
    failures: u64,
    ghost piece: { lines.longest ≡ 4096 },
}

impl<R: Source + Drop> LinesOf<R> {
    /// Nothing is read yet.
    pub fn new(alloc: Global, source: R) -> Result<LinesOf<R>, AllocError>
        ensures { IfOk result (λ lines. ⟦<LinesOf<R> as LineSource>⟧.coming lines ≡ incoming (R.flow source).ahead 0 0) }
    {
        let bounds = Bounds {
            line: PIECE,
            read: READ,
            reads: u32::MAX,
        };
        let lines = Lines::new(alloc, bounds)?;
        Ok(LinesOf {
            lines,
            source,
            ends: 0,
            failures: 0,
        })
    }
}

impl<R: Source> LineSource for LinesOf<R> {
    ghost use Rattle.std.specs.Io.KnownBytes.{prepend_known};

    ghost coming = { λ s. incoming (prepend_known s.lines.ahead (R.flow s.source).ahead) s.ends s.failures };

    fn read_line(&mut self, line: &mut Vec<u8>) -> Result<LineEnd, ReadFault> {
        for _ in 0..u64::MAX {
            if line.reserve(PIECE as usize + 2).is_err() {
                return Err(ReadFault::Memory);
            }
            match hear_piece(&mut self.lines, &mut self.source, line) {
                Ok(Heard::Line) => return Ok(LineEnd::Whole),
                Ok(Heard::Long) => {}
                Ok(Heard::End) => {
                    self.ends = self.ends.wrapping_add(1);
                    return Ok(LineEnd::Cut);
                }
                Err(_) => {
                    self.failures = self.failures.wrapping_add(1);
                    return Err(ReadFault::Failed);
                }
            }
        }
        self.failures = self.failures.wrapping_add(1);
        Err(ReadFault::Failed)
    }

    fn wait_for_end(&mut self) {
        for _ in 0..u64::MAX {
            match self.lines.next(&mut self.source) {
                Ok(Heard::Line | Heard::Long) => {}
                Ok(Heard::End) => {
                    self.ends = self.ends.wrapping_add(1);
                    return;
                }
                Err(_) => break,
            }
        }
        self.failures = self.failures.wrapping_add(1);
    }
}

/// Hears a line, or a piece of one, and puts it behind what stands there. There is room for it and its LF.
fn hear_piece<R: Source>(
    lines: &mut Lines,
    source: &mut R,
    line: &mut Vec<u8>,
) -> Result<Heard, LineFault>
    requires piece { lines.old.longest ≡ 4096 }
    requires room { vec_len line.old + 4098 ≤ vec_capacity line.old }
    ensures hears { Hears lines.old (R.flow source.old)
        lines.new (R.flow source.new) result }
    ensures put { line.new.items ≡ line.old.items ++ heard_by result lines.new.line }
{
    let heard = lines.next(source);
    if line.extend_from_slice(lines.line()).is_err() {
        unreachable!()
    }
    if let Ok(Heard::Line) = heard {
        if line.push(b'\n').is_err() {
            unreachable!()
        }
    }
    heard
}
