//! Lines, one by one.
ghost use Rattle.std.specs.Prelude.{◌≡◌, ◌<◌, ◌≤◌, ◌++◌, ◌+◌, suc, length, take, drop, vec_len, IfOk, OnErr, OnOk, []};
ghost use Rattle.ot_lines.specs.Lines.{hearing_opened, Hears};
ghost use Rattle.ot_lines.specs.Cutting.{Cuts, Fills, bytes_taken, byte_passed};

use crate::source::Source;
use memchr::memchr;
use std::alloc::{AllocError, Global};
use std::marker::Model;

/// How lines are read.
#[derive(Clone, Copy, Debug, PartialEq, Eq)]
pub struct Bounds {
    /// How many bytes a line may have, without its LF.
    pub line: u32,
    /// How many bytes a read takes at most; at least 1.
    pub read: u32,
    /// How often is read at most.
    pub reads: u32,
}

/// What was heard behind the line before.
#[derive(Clone, Copy, Debug, PartialEq, Eq)]
pub enum Heard {
    /// A line, and its LF.
    Line,
    /// The end of input, behind what stands in the line.
    End,
    /// One byte more than a line may have, and no LF.
    Long,
}

/// Why nothing more is heard.
#[derive(Clone, Copy, Debug, PartialEq, Eq)]
pub enum LineFault {
    /// A read failed.
    ReadFailed,
    /// As often as may be was read, and all that was read was heard.
    TooManyReads,
}

/// The line that was heard last, and what was read behind it. Its room is made at the start, so that no line wants
/// memory.
#[derive(Debug, Drop)]
pub struct Lines {
    line: Vec<u8>,
    room: Vec<u8>,
    /// What was read and isn't heard yet stands in `room` from here
    from: usize,
    /// to here.
    to: usize,
    longest: u32,
    left: u32,
}

impl Model for Lines {
    ghost use Rattle.std.specs.Prelude.{◌≤◌, ◌<◌, vec_len, vec_capacity};
    ghost use Rattle.ot_lines.specs.Lines.{Hearing};
    ghost use Rattle.ot_lines.specs.LinesView.{hearing_of};

    ghost Value = { Hearing };

    ghost view = { hearing_of };

    ghost invariant = { λ l. (l.from ≤ l.to) × (l.to ≤ vec_len l.room) × (0 < vec_len l.room) × (l.longest < vec_capacity l.line) };
}

impl Lines {
    /// Nothing is heard yet.
    pub fn new(alloc: Global, bounds: Bounds) -> Result<Lines, AllocError>
        requires { 0 < bounds.read }
        ensures { IfOk result (λ lines. lines ≡ hearing_opened bounds) }
    {
        let line = Vec::with_capacity(alloc, bounds.line as usize + 1)?;
        let room = vec![in alloc; 0u8; bounds.read as usize]?;
        Ok(Lines {
            line,
            room,
            from: 0,
            to: 0,
            longest: bounds.line,
            left: bounds.reads,
        })
    }

    /// Begins anew, with these bounds. What was read and isn't heard is forgotten.
    pub fn begin(&mut self, bounds: Bounds) -> Result<(), AllocError>
        requires { 0 < bounds.read }
        ensures { OnOk result (self.new ≡ hearing_opened bounds) }
    {
        self.from = 0;
        self.to = 0;
        self.line.clear();
        self.line.reserve(bounds.line as usize + 1)?;
        self.room.resize(bounds.read as usize, 0)?;
        self.longest = bounds.line;
        self.left = bounds.reads;
        Ok(())
    }

    /// The line.
    pub fn line(&self) -> &[u8]
        ensures { result.now ≡ self.now.line }
    {
        self.line.as_slice()
    }

    /// Hears the next line.
    pub fn next<R: Source>(&mut self, source: &mut R) -> Result<Heard, LineFault>
        ensures { Hears self.old (R.flow source.old)
            self.new (R.flow source.new) result }
    {
        self.line.clear();
        loop {
            if let Some(heard) = self.cut() {
                return Ok(heard);
            }
            match self.fill(source) {
                Ok(true) => {}
                Ok(false) => return Ok(Heard::End),
                Err(fault) => return Err(fault),
            }
        }
    }

    /// Puts behind the line what was read of it, and tells where it is a whole one, or too long.
    fn cut(&mut self) -> Option<Heard>
        requires { length self.old.line ≤ self.old.longest }
        ensures { Cuts self.old self.new result }
    {
        let spare = self.longest as usize - self.line.len();
        let rest = self.unheard();
        let count = rest.len();
        match memchr(b'\n', rest) {
            Some(at) => {
                if at > spare {
                    self.take(spare + 1);
                    return Some(Heard::Long);
                }
                self.take(at);
                self.pass();
                Some(Heard::Line)
            }
            None => {
                if count > spare {
                    self.take(spare + 1);
                    return Some(Heard::Long);
                }
                self.take(count);
                None
            }
        }
    }

    /// What was read and isn't heard yet.
    fn unheard(&self) -> &[u8]
        ensures { result.now ≡ self.now.ahead }
    {
        &self.room.as_slice()[self.from..self.to]
    }

    /// Puts so many bytes behind the line.
    fn take(&mut self, count: usize)
        requires there { count ≤ length self.old.ahead }
        requires room { length self.old.line + count ≤ suc self.old.longest }
        ensures { self.new ≡ bytes_taken count self.old }
    {
        let piece = &self.room.as_slice()[self.from..self.from + count];
        if self.line.extend_from_slice(piece).is_err() {
            unreachable!()
        }
        self.from += count;
    }

    /// Hears the next byte, which doesn't go into the line.
    fn pass(&mut self)
        requires { 0 < length self.old.ahead }
        ensures { self.new ≡ byte_passed self.old }
    {
        self.from += 1;
    }

    /// Reads more, where all was heard and may be read still. Whether something came.
    fn fill<R: Source>(&mut self, source: &mut R) -> Result<bool, LineFault>
        requires { self.old.ahead ≡ [] }
        ensures { Fills self.old (R.flow source.old)
            self.new (R.flow source.new) result }
    {
        if self.left == 0 {
            return Err(LineFault::TooManyReads);
        }
        self.left -= 1;
        self.from = 0;
        self.to = 0;
        let Ok(count) = source.read(self.room.as_mut_slice()) else {
            return Err(LineFault::ReadFailed);
        };
        if count == 0 {
            return Ok(false);
        }
        self.to = count;
        Ok(true)
    }
}
