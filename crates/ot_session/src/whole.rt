//! Writing all of a text, however little the sink takes at a time.
ghost use Rattle.std.specs.Prelude.{OnOk, OnErr};
ghost use Rattle.ot_session.specs.Serving.{Writes, BreaksOffIn};

use crate::device::Sink;
use ot_lines::Failed;

/// Writes `bytes` from the first to the last, each once. It goes on behind a short write, and stops
/// at the first failure.
#[tactic(auto, using(crate::proofs::Appending::appends_more))]
pub fn write_whole<W: Sink>(sink: &mut W, bytes: &[u8]) -> Result<(), Failed>
    ensures ok { OnOk result (Writes (W.draft sink.old) (W.draft sink.new) bytes.now) }
    ensures err { OnErr result (BreaksOffIn (W.draft sink.old) (W.draft sink.new) bytes.now) }
{
    let mut at = 0;
    while at < bytes.len() {
        at += sink.write(&bytes[at..])?;
    }
    Ok(())
}
