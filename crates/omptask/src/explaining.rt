//! A session with a server, with what is wrong in words behind each refusal.
use crate::fault::Fault;
use ot_client_ask::{Asked, LineSource, Remarker, Tally, converse, greet, hear};
use ot_client_mirror::Mirror;
use ot_session::{Sink, write_whole};
use std::alloc::{AllocError, Global};

/// Says what is wrong where the server refuses a line, over the arrays that its replies tell.
#[derive(Drop)]
struct Explainer {
    mirror: Mirror,
}

impl Remarker for Explainer {
    ghost use Rattle.std.specs.Prelude.{option_and_then};
    ghost use Rattle.ot_why_explain.specs.Explaining.{AreOn};
    ghost use Rattle.ot_book.specs.Answers.{code_in};
    ghost use Rattle.ot_client_mirror.specs.Mirrors.{told_in};

    ghost says = { λ reply text. AreOn (option_and_then code_in (told_in reply)) text };

    fn remark(&mut self, alloc: Global, line: &[u8], reply: &[u8]) -> Result<Vec<u8>, AllocError> {
        self.mirror.take(alloc, line, reply)
    }
}

/// Greets a server for a tenant, asks for its arrays, and holds a session as `ask` does, with remarks behind refusals.
pub(crate) fn ask_explained<T: LineSource, H: LineSource, W: Sink, P: Sink>(
    alloc: Global,
    name: &str,
    stop: bool,
    typed: &mut T,
    heard: &mut H,
    wire: &mut W,
    printed: &mut P,
) -> (Result<Asked, Fault>, Tally) {
    let mirror = match mirror_of(alloc, name, heard, wire) {
        Ok(mirror) => mirror,
        Err(fault) => return (Err(fault), Tally::new()),
    };
    let mut explainer = Explainer { mirror };
    let (ended, tally) = converse(alloc, stop, &mut explainer, typed, heard, wire, printed);
    match ended {
        Ok(asked) => (Ok(asked), tally),
        Err(fault) => (Err(Fault::from(fault)), tally),
    }
}

/// The tenant's arrays, as the reply to `["list"]` behind the greeting tells them.
fn mirror_of<H: LineSource, W: Sink>(
    alloc: Global,
    name: &str,
    heard: &mut H,
    wire: &mut W,
) -> Result<Mirror, Fault> {
    if let Err(fault) = greet(alloc, name, heard, wire) {
        return Err(Fault::from(fault));
    }
    if write_whole(wire, b"[\"list\"]\n".as_slice()).is_err() {
        return Err(Fault::Closed);
    }
    let mut reply = Vec::new(alloc);
    if let Err(fault) = hear(heard, &mut reply) {
        return Err(Fault::from(fault));
    }
    match Mirror::of_list(alloc, reply.as_slice()) {
        Ok(Some(mirror)) => Ok(mirror),
        Ok(None) => Err(Fault::StrangeReply),
        Err(_) => Err(Fault::Memory),
    }
}
