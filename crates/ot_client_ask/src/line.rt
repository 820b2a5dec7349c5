//! Lines that are sent, and lines that are heard.
ghost use Rattle.std.specs.Prelude.{◌≡◌, OnOk, string_bytes, IfOk};
ghost use Rattle.ot_client_ask.specs.Streams.{begins_with, hello_line, is_ended, is_last, is_refusal, is_welcome, says_bye, sent_for};

use ot_lines::is_bye;
use std::alloc::{AllocError, Global};

/// Makes what was read the line that is sent: one without an LF gets one, and the end of the input is a
/// goodbye.
pub(crate) fn complete(line: &mut Vec<u8>) -> Result<(), AllocError>
    ensures { OnOk result (line.new.items ≡ sent_for line.old.items) }
{
    if line.is_empty() {
        return line.extend_from_slice(b"[\"bye\"]\n");
    }
    if !is_ended(line) {
        line.push(b'\n')?;
    }
    Ok(())
}

/// Whether the last byte is an LF.
pub(crate) fn is_ended(bytes: &[u8]) -> bool
    ensures { result ≡ is_ended bytes.now }
{
    match bytes {
        [.., last] => *last == b'\n',
        _ => false,
    }
}

/// The line of a greeting.
pub(crate) fn hello_line(alloc: Global, name: &str) -> Result<String, AllocError>
    ensures { IfOk result (λ line. string_bytes line ≡ hello_line name.now) }
{
    format!(in alloc; "[\"hello\",\"{name}\"]\n")
}

/// Whether a line, its LF at the end left away, is the goodbye: `["bye"]` among JSON's white space.
pub(crate) fn says_bye(line: &[u8]) -> bool
    ensures { result ≡ says_bye line.now }
{
    match line {
        [before @ .., _] => is_bye(before),
        _ => false,
    }
}

/// Whether a reply refuses its line.
pub(crate) fn is_refusal(reply: &[u8]) -> bool
    ensures { result ≡ is_refusal reply.now }
{
    begins_with(reply, b"[\"err\",".as_slice())
}

/// Whether a reply is a server's greeting.
pub(crate) fn is_welcome(reply: &[u8]) -> bool
    ensures { result ≡ is_welcome reply.now }
{
    begins_with(reply, b"[\"hello\",".as_slice())
}

/// Whether a reply is the last of its session.
pub(crate) fn is_last(reply: &[u8]) -> bool
    ensures { result ≡ is_last reply.now }
{
    reply == b"[\"full\"]\n".as_slice() || reply == b"[\"long\"]\n".as_slice()
}

fn begins_with(bytes: &[u8], front: &[u8]) -> bool
    ensures { result ≡ begins_with front.now bytes.now }
{
    bytes.len() >= front.len() && &bytes[..front.len()] == front
}
