//! A tenant is saved.
ghost use Rattle.std.specs.Prelude.{MatchResult, map};
ghost use Rattle.ot_client_ask.specs.Streams.{link};
ghost use Rattle.ot_client_keep.specs.Arrays.{named_by};
ghost use Rattle.ot_client_keep.specs.Questions.{StopsAsking};
ghost use Rattle.ot_client_keep.specs.Saving.{HasTold, Saves};

use crate::array::Array;
use crate::body::session_text;
use crate::fault::KeepFault;
use crate::file::file_text;
use crate::question::{ask_checkpoint, ask_units};
use crate::tenant::{read_arrays, say_bye};
use ot_client_ask::{AskFault, LineSource, greet};
use ot_session::{Sink, write_whole};
use std::alloc::Global;

/// What was saved of a tenant beside its arrays.
#[derive(Clone, Copy, Debug, PartialEq, Eq)]
pub struct Saved {
    /// The number of the next request.
    pub next: u64,
    /// The used units.
    pub used: u64,
}

/// Saves a tenant: asks a server for its arrays, in a session, and writes them to `out` as a file. The file is written
/// while the session stands, so nobody else has changed the tenant by then. Its log begins anew, before and after, so that
/// a full one is no hindrance; the file's number is that of the request behind the last of these. Where the server goes
/// before the goodbye, the file counts all the same.
pub fn save<H: LineSource, W: Sink, O: Sink>(
    alloc: Global,
    name: &str,
    heard: &mut H,
    wire: &mut W,
    out: &mut O,
) -> Result<Saved, KeepFault>
    ensures { Saves name.now (link (H.coming heard.old) (W.draft wire.old)) (link (H.coming heard.new) (W.draft wire.new))
        (O.draft out.old) (O.draft out.new) result }
{
    if let Err(fault) = greet(alloc, name, heard, wire) {
        return Err(KeepFault::Ask(fault));
    }
    let tenant = match read_tenant(alloc, heard, wire) {
        Ok(tenant) => tenant,
        Err(fault) => return Err(fault),
    };
    let Ok(session) = session_text(alloc, tenant.arrays.as_slice()) else {
        return Err(KeepFault::Ask(AskFault::Memory));
    };
    let Ok(text) = file_text(alloc, session.as_slice(), tenant.next, tenant.used) else {
        return Err(KeepFault::Ask(AskFault::Memory));
    };
    match write_whole(out, text.as_slice()) {
        Ok(()) => {}
        Err(_) => return Err(KeepFault::WriteFailed),
    }
    say_bye(heard, wire);
    Ok(Saved {
        next: tenant.next,
        used: tenant.used,
    })
}

/// What a server told of a tenant.
#[derive(Debug, Drop)]
struct Tenant {
    arrays: Vec<Array>,
    next: u64,
    used: u64,
}

/// Asks for all that is saved.
fn read_tenant<H: LineSource, W: Sink>(
    alloc: Global,
    heard: &mut H,
    wire: &mut W,
) -> Result<Tenant, KeepFault>
    ensures { MatchResult result
        (λ tenant. HasTold (link (H.coming heard.old) (W.draft wire.old)) (link (H.coming heard.new) (W.draft wire.new))
        (map named_by tenant.arrays.items) tenant.next tenant.used)
        (λ fault. StopsAsking (link (H.coming heard.old) (W.draft wire.old)) (link (H.coming heard.new) (W.draft wire.new)) fault) }
{
    if let Err(fault) = ask_checkpoint(alloc, heard, wire) {
        return Err(fault);
    }
    let used = match ask_units(alloc, heard, wire) {
        Ok(used) => used,
        Err(fault) => return Err(fault),
    };
    let arrays = match read_arrays(alloc, heard, wire) {
        Ok(arrays) => arrays,
        Err(fault) => return Err(fault),
    };
    match ask_checkpoint(alloc, heard, wire) {
        Ok(last) => Ok(Tenant {
            arrays,
            next: u64::from(last) + 1,
            used,
        }),
        Err(fault) => Err(fault),
    }
}
