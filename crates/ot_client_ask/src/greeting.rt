//! The greeting.
ghost use Rattle.ot_client_ask.specs.Asking.{GreetsServer};
ghost use Rattle.ot_client_ask.specs.Streams.{link};

use crate::asked::AskFault;
use crate::hearing::hear;
use crate::line::{hello_line, is_welcome};
use crate::stream::LineSource;
use ot_program::is_name;
use ot_session::{Sink, write_whole};
use std::alloc::Global;

/// Says whose session is wanted, and hears whether there is one. The welcome isn't printed.
pub fn greet<H: LineSource, W: Sink>(
    alloc: Global,
    name: &str,
    heard: &mut H,
    wire: &mut W,
) -> Result<(), AskFault>
    ensures { GreetsServer name.now
        (link (H.coming heard.old) (W.draft wire.old)) (link (H.coming heard.new) (W.draft wire.new)) result }
{
    if !is_name(name) {
        return Err(AskFault::UnknownTenant);
    }
    let Ok(line) = hello_line(alloc, name) else {
        return Err(AskFault::Memory);
    };
    if write_whole(wire, line.as_bytes()).is_err() {
        return Err(AskFault::Closed);
    }
    let mut reply = Vec::new(alloc);
    if let Err(fault) = hear(heard, &mut reply) {
        return Err(fault);
    }
    if is_welcome(&reply) {
        return Ok(());
    }
    if reply.as_slice() == b"[\"err\",0,409]\n".as_slice() {
        return Err(AskFault::Busy);
    }
    if reply.as_slice() == b"[\"err\",0,404]\n".as_slice() {
        return Err(AskFault::UnknownTenant);
    }
    Err(AskFault::StrangeGreeting)
}
