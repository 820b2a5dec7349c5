//! The remarks behind a reply.
ghost use Rattle.std.specs.Prelude.{◌≡◌, ◌⊎◌, ℕ, List, [], ◌++◌, OnOk, OnErr, IfOk, IfErr, is_some};
ghost use Rattle.std.specs.Io.KnownBytes.{Appends};
ghost use Rattle.ot_session.specs.Session.{HasNoEnd};
ghost use Rattle.ot_session.specs.declared.fault.FrontFault.TheVariants as fault;
ghost use Rattle.ot_why_explain.specs.Explaining.{without_remarks, remark_line, with_code, last_code, OpensWith, AreOn};

use crate::remarks::remarks_on_last;
use memchr::memchr;
use ot_book::Book;
use ot_session::{FrontFault, Sink, write_whole};
use std::alloc::{AllocError, Global};

/// Writes what is said of the last request of a book, where it was refused, and answers whether it was. A part may be
/// written where it fails.
pub(crate) fn tell_last<W: Sink>(
    alloc: Global,
    book: &Book,
    sink: &mut W,
) -> Result<bool, FrontFault>
    ensures told { OnOk result ((text : List ℕ) × AreOn (last_code book.now) text × Appends (W.draft sink.old).held (W.draft sink.new).held text) }
    ensures refused { IfOk result (λ refused. refused ≡ is_some (last_code book.now)) }
    ensures cut { OnErr result ((text : List ℕ) × (without_remarks text ≡ []) × Appends (W.draft sink.old).held (W.draft sink.new).held text) }
    ensures fails { IfErr result (λ why. (why ≡ fault.Memory) ⊎ (why ≡ fault.WriteFailed)) }
{
    let Ok(remarks) = remarks_on_last(alloc, book) else {
        return Err(FrontFault::Memory);
    };
    let Some(remarks) = remarks else {
        return Ok(false);
    };
    let Ok(text) = remarked(alloc, remarks.as_bytes()) else {
        return Err(FrontFault::Memory);
    };
    match write_whole(sink, text.as_slice()) {
        Ok(()) => Ok(true),
        Err(_) => Err(FrontFault::WriteFailed),
    }
}

/// Each line of a text behind `# `.
pub(crate) fn remarked(alloc: Global, text: &[u8]) -> Result<Vec<u8>, AllocError>
    ensures { IfOk result (λ out. (code : ℕ) (first : List ℕ) → text.now ≡ with_code code first → OpensWith code out.items) }
{
    let mut out = Vec::new(alloc);
    let mut rest = text;
    while let Some(at) = memchr(b'\n', rest) {
        let (line, behind) = rest.split_at(at);
        let (_, after) = behind.split_at(1);
        put_remark(&mut out, line)?;
        rest = after;
    }
    put_remark(&mut out, rest)?;
    Ok(out)
}

/// Puts a line behind remarks.
fn put_remark(out: &mut Vec<u8>, line: &[u8]) -> Result<(), AllocError>
    requires { HasNoEnd line.now }
    ensures { OnOk result (out.new.items ≡ out.old.items ++ remark_line line.now) }
{
    out.extend_from_slice(b"# ".as_slice())?;
    out.extend_from_slice(line)?;
    out.push(b'\n')?;
    Ok(())
}
