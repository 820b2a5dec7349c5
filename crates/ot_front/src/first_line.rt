//! The first line of a connection, read byte by byte, so that nothing behind it is taken.
ghost use Rattle.std.specs.Prelude.{◌≡◌, ◌≢◌, ◌≤◌, ℕ, Ok, length, OnOk, OnErr};
ghost use Rattle.std.specs.Io.KnownBytes.{Consumes, IsAtEnd};
ghost use Rattle.ot_lines.specs.Lines.{HasNoEnd, hearing_opened};
ghost use Rattle.ot_lines.specs.declared.lines.Heard.TheVariants.{Long, End};
ghost use Rattle.ot_session.specs.Serving.{next_count, count_after};
ghost use Rattle.ot_front.specs.FirstLines.{first_bounds, read_with};

use ot_lines::{Bounds, Failed, Heard, LineFault, Lines, Source};

/// How a first line is read: a byte a read, and one byte more than the longest has.
pub(crate) fn first_bounds() -> Bounds
    ensures { result ≡ first_bounds }
{
    Bounds {
        line: 64,
        read: 1,
        reads: 65,
    }
}

/// Hears a first line, and reads nothing behind its LF.
pub(crate) fn hear_first<R: Source>(lines: &mut Lines, source: &mut R) -> Result<Heard, Failed>
    requires { lines.old ≡ hearing_opened first_bounds }
    ensures bytes { Consumes (R.flow source.old).ahead (R.flow source.new).ahead (read_with result lines.new.line) }
    ensures one { HasNoEnd lines.new.line }
    ensures long { result ≡ Ok Long → length lines.new.line ≡ 65 }
    ensures short { result ≢ Ok Long → length lines.new.line ≤ 64 }
    ensures at_end { result ≡ Ok End → IsAtEnd (R.flow source.new).ahead }
    ensures end_told { result ≡ Ok End → (R.flow source.new).ends ≡ next_count (R.flow source.old).ends }
    ensures end_untold { result ≢ Ok End → (R.flow source.new).ends ≡ (R.flow source.old).ends }
    ensures reads { (k : ℕ) × (k ≤ 65) × ((R.flow source.new).reads ≡ count_after k (R.flow source.old).reads) }
    ensures worked { OnOk result ((R.flow source.new).failures ≡ (R.flow source.old).failures) }
    ensures failed { OnErr result ((R.flow source.new).failures ≡ next_count (R.flow source.old).failures) }
{
    match lines.next(source) {
        Ok(heard) => Ok(heard),
        Err(LineFault::ReadFailed) => Err(Failed),
        Err(LineFault::TooManyReads) => unreachable!(),
    }
}
