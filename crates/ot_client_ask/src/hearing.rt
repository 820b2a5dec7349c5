//! One line that is read, and one that is heard.
ghost use Rattle.std.specs.Prelude.{◌≡◌, [], Ok, Err, Option, List, ℕ};
ghost use Rattle.ot_client_ask.specs.Asking.{HearsReply};
ghost use Rattle.ot_client_ask.specs.Exchanges.{ReadsToSend};

use crate::asked::AskFault;
use crate::line::complete;
use crate::stream::{LineEnd, LineSource, ReadFault};

/// Reads a line, as it is to be sent.
pub(crate) fn read_line<T: LineSource>(typed: &mut T, line: &mut Vec<u8>) -> Result<(), AskFault>
    requires { line.old.items ≡ [] }
    ensures { ReadsToSend (T.coming typed.old) (T.coming typed.new) line.new.items result }
{
    match typed.read_line(line) {
        Ok(_) => match complete(line) {
            Ok(()) => Ok(()),
            Err(_) => Err(AskFault::Memory),
        },
        Err(ReadFault::Failed) => Err(AskFault::ReadFailed),
        Err(ReadFault::Memory) => Err(AskFault::Memory),
    }
}

/// Hears a whole line of the server.
pub fn hear<H: LineSource>(heard: &mut H, reply: &mut Vec<u8>) -> Result<(), AskFault>
    requires { reply.old.items ≡ [] }
    ensures { HearsReply (H.coming heard.old) (H.coming heard.new) reply.new.items result }
{
    match heard.read_line(reply) {
        Ok(LineEnd::Whole) => Ok(()),
        Ok(LineEnd::Cut) | Err(ReadFault::Failed) => Err(AskFault::Closed),
        Err(ReadFault::Memory) => Err(AskFault::Memory),
    }
}
