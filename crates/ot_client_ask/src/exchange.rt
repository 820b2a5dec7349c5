//! One line and its reply, and a goodbye behind a refusal.
ghost use Rattle.std.specs.Prelude.{◌≡◌, OnOk, IfErr};
ghost use Rattle.ot_client_ask.specs.declared.asked.AskFault.TheVariants.{Memory};
ghost use Rattle.ot_client_ask.specs.Asking.{IsPrintedReply, LeavesServer, ways};
ghost use Rattle.ot_client_ask.specs.Exchanges.{TakesOneLine};
ghost use Rattle.ot_client_ask.specs.Streams.{link};

use crate::asked::{AskFault, Asked};
use crate::hearing::{hear, read_line};
use crate::line::{is_last, is_refusal, says_bye};
use crate::remarker::Remarker;
use crate::stream::LineSource;
use ot_session::{Sink, write_whole};
use std::alloc::Global;

/// What one line came to.
#[derive(Clone, Copy, Debug)]
pub(crate) enum Step {
    /// Its reply was printed: whether it refuses the line.
    Answered(bool),
    /// It was the goodbye.
    Bye,
    /// The server took no further line.
    CutShort,
}

/// Reads a line, sends it, and prints its reply, and behind that what is said of the two. A server that has no use for the
/// line may end the stream before it has read all of it, so its reply is looked for also where not all was sent.
pub(crate) fn exchange<M: Remarker, T: LineSource, H: LineSource, W: Sink, P: Sink>(
    alloc: Global,
    remarker: &mut M,
    typed: &mut T,
    heard: &mut H,
    wire: &mut W,
    printed: &mut P,
) -> Result<Step, AskFault>
    ensures { TakesOneLine M.says
        (ways (T.coming typed.old) (H.coming heard.old) (W.draft wire.old) (P.draft printed.old))
        (ways (T.coming typed.new) (H.coming heard.new) (W.draft wire.new) (P.draft printed.new)) result }
{
    let mut line = Vec::new(alloc);
    if let Err(fault) = read_line(typed, &mut line) {
        return Err(fault);
    }
    let is_sent = write_whole(wire, &line).is_ok();
    if is_sent && says_bye(&line) {
        heard.wait_for_end();
        return Ok(Step::Bye);
    }
    let mut reply = Vec::new(alloc);
    if let Err(fault) = hear(heard, &mut reply) {
        return Err(fault);
    }
    if is_last(&reply) {
        if write_whole(printed, &reply).is_err() {
            return Err(AskFault::WriteFailed);
        }
        heard.wait_for_end();
        return Ok(Step::CutShort);
    }
    if !is_sent {
        return Err(AskFault::Closed);
    }
    let is_refused = is_refusal(&reply);
    if let Err(fault) = put_remarks(alloc, remarker, &line, &mut reply) {
        return Err(fault);
    }
    if write_whole(printed, &reply).is_err() {
        return Err(AskFault::WriteFailed);
    }
    Ok(Step::Answered(is_refused))
}

/// Puts behind the reply to a line what is said of the two.
fn put_remarks<M: Remarker>(
    alloc: Global,
    remarker: &mut M,
    line: &[u8],
    reply: &mut Vec<u8>,
) -> Result<(), AskFault>
    ensures shown { OnOk result (IsPrintedReply M.says reply.old.items reply.new.items) }
    ensures fails { IfErr result (λ fault. fault ≡ Memory) }
{
    let Ok(remarks) = remarker.remark(alloc, without_end(line), reply) else {
        return Err(AskFault::Memory);
    };
    match reply.extend_from_slice(&remarks) {
        Ok(()) => Ok(()),
        Err(_) => Err(AskFault::Memory),
    }
}

/// A line without its LF.
fn without_end(line: &[u8]) -> &[u8] {
    match line {
        [before @ .., last] if *last == b'\n' => before,
        _ => line,
    }
}

/// Says goodbye behind a line that was refused, and waits until the server has ended the session.
pub(crate) fn leave<H: LineSource, W: Sink>(heard: &mut H, wire: &mut W) -> Result<Asked, AskFault>
    ensures { LeavesServer (link (H.coming heard.old) (W.draft wire.old)) (link (H.coming heard.new) (W.draft wire.new)) result }
{
    if write_whole(wire, b"[\"bye\"]\n".as_slice()).is_err() {
        return Err(AskFault::Closed);
    }
    heard.wait_for_end();
    Ok(Asked::SomeRefused)
}
