//! A tenant is restored.
ghost use Rattle.ot_client_ask.specs.Streams.{link};
ghost use Rattle.ot_client_keep.specs.Files.{AreLines};
ghost use Rattle.ot_client_keep.specs.Saving.{Compares, Restores, TakesSession};

use crate::body::session_text;
use crate::clearing::clear;
use crate::fault::KeepFault;
use crate::file::read_file;
use crate::question::ask_line;
use crate::tenant::{read_arrays, say_bye};
use memchr::memchr;
use ot_client_ask::{AskFault, LineSource, greet};
use ot_session::Sink;
use std::alloc::Global;

/// What a file said beside the arrays. The tenant's own numbers have begun anew.
#[derive(Clone, Copy, Debug, PartialEq, Eq)]
pub struct Restored {
    /// The number that the next request had.
    pub next: u64,
    /// The units that were used.
    pub used: u64,
}

/// Restores a tenant of a file, in a session, at a server where it has no array, or where those that it has are to be replaced:
/// they are freed then. It asks for the arrays behind the file's last line, and compares what is told with the file. A file that
/// was cut or changed is refused before anything is sent. Where it fails later the tenant is left with what was made by then, and
/// to replace that makes it whole.
pub fn restore<H: LineSource, W: Sink>(
    alloc: Global,
    name: &str,
    file: &[u8],
    replace: bool,
    heard: &mut H,
    wire: &mut W,
) -> Result<Restored, KeepFault>
    ensures { Restores name.now file.now replace
        (link (H.coming heard.old) (W.draft wire.old)) (link (H.coming heard.new) (W.draft wire.new)) result }
{
    let kept = match read_file(alloc, file) {
        Ok(Some(kept)) => kept,
        Ok(None) => return Err(KeepFault::NotWhole),
        Err(_) => return Err(KeepFault::Ask(AskFault::Memory)),
    };
    if let Err(fault) = greet(alloc, name, heard, wire) {
        return Err(KeepFault::Ask(fault));
    }
    if let Err(fault) = clear(alloc, replace, heard, wire) {
        return Err(fault);
    }
    if let Err(fault) = send_lines(alloc, kept.session, heard, wire) {
        return Err(fault);
    }
    if let Err(fault) = compare(alloc, kept.session, heard, wire) {
        return Err(fault);
    }
    say_bye(heard, wire);
    Ok(Restored {
        next: kept.next,
        used: kept.used,
    })
}

/// Sends the lines of a file, each once the one before it was taken.
fn send_lines<H: LineSource, W: Sink>(
    alloc: Global,
    session: &[u8],
    heard: &mut H,
    wire: &mut W,
) -> Result<(), KeepFault>
    requires { AreLines session.now }
    ensures { TakesSession session.now
        (link (H.coming heard.old) (W.draft wire.old)) (link (H.coming heard.new) (W.draft wire.new)) result }
{
    let mut rest = session;
    let mut taken = 0u64;
    while let Some(at) = memchr(b'\n', rest) {
        let (line, after) = rest.split_at(at + 1);
        match ask_line(alloc, line, heard, wire) {
            Ok(_) => {}
            Err(KeepFault::StrangeReply) => return Err(KeepFault::Refused(taken + 1)),
            Err(fault) => return Err(fault),
        }
        rest = after;
        taken += 1;
    }
    Ok(())
}

/// Asks for the arrays, and compares the session that makes them with the file's.
fn compare<H: LineSource, W: Sink>(
    alloc: Global,
    session: &[u8],
    heard: &mut H,
    wire: &mut W,
) -> Result<(), KeepFault>
    ensures { Compares session.now
        (link (H.coming heard.old) (W.draft wire.old)) (link (H.coming heard.new) (W.draft wire.new)) result }
{
    let arrays = match read_arrays(alloc, heard, wire) {
        Ok(arrays) => arrays,
        Err(fault) => return Err(fault),
    };
    match session_text(alloc, &arrays) {
        Ok(told) if told.as_slice() == session => Ok(()),
        Ok(_) => Err(KeepFault::Differs),
        Err(_) => Err(KeepFault::Ask(AskFault::Memory)),
    }
}
