//! Bytes that a format takes for more than themselves, written as `%` and two digits.
ghost use Rattle.std.specs.Prelude.{◌≡◌, ◌++◌, ◌<◌, true, flat_map, OnOk, IfOk, string_bytes};
ghost use Rattle.ot_file_diagnosis.specs.Escapes as meant;

use percent_encoding::percent_encode_byte;
use std::alloc::{AllocError, Global};

/// The path of a file as a URI.
pub(crate) fn uri_of(alloc: Global, path: &str) -> Result<String, AllocError>
    ensures { IfOk result (λ uri. string_bytes uri ≡ meant.uri_text path.now) }
{
    let mut uri = String::new(alloc);
    for byte in path.as_bytes() {
        put_of_uri(*byte, &mut uri)?;
    }
    Ok(uri)
}

fn put_of_uri(byte: u8, uri: &mut String) -> Result<(), AllocError>
    ensures { OnOk result (string_bytes uri.new ≡ string_bytes uri.old ++ meant.of_uri byte) }
{
    if is_of_path(byte) {
        uri.push(byte as char)
    } else {
        uri.push_str(percent_encode_byte(byte))
    }
}

/// Whether a byte of a path stands for itself in a URI: letters, digits, `/`, `.`, `_`, `-` and `~`.
fn is_of_path(byte: u8) -> bool
    ensures is { result ≡ meant.is_of_path byte }
    ensures ascii { result ≡ true → byte < 128 }
{
    byte.is_ascii_alphanumeric()
        || byte == b'/'
        || byte == b'.'
        || byte == b'_'
        || byte == b'-'
        || byte == b'~'
}

/// Writes the message of an annotation.
pub(crate) fn put_message(message: &[u8], out: &mut Vec<u8>) -> Result<(), AllocError>
    ensures { OnOk result (out.new.items ≡ out.old.items ++ meant.message_text message.now) }
{
    for byte in message {
        put_of_message(*byte, out)?;
    }
    Ok(())
}

fn put_of_message(byte: u8, out: &mut Vec<u8>) -> Result<(), AllocError>
    ensures { OnOk result (out.new.items ≡ out.old.items ++ meant.of_message byte) }
{
    if byte == b'%' || byte == b'\r' || byte == b'\n' {
        out.extend_from_slice(percent_encode_byte(byte).as_bytes())?;
    } else {
        out.push(byte)?;
    }
    Ok(())
}

/// Writes a property of an annotation.
pub(crate) fn put_property(property: &[u8], out: &mut Vec<u8>) -> Result<(), AllocError>
    ensures { OnOk result (out.new.items ≡ out.old.items ++ meant.property_text property.now) }
{
    for byte in property {
        put_of_property(*byte, out)?;
    }
    Ok(())
}

fn put_of_property(byte: u8, out: &mut Vec<u8>) -> Result<(), AllocError>
    ensures { OnOk result (out.new.items ≡ out.old.items ++ meant.of_property byte) }
{
    if byte == b':' || byte == b',' {
        out.extend_from_slice(percent_encode_byte(byte).as_bytes())?;
        return Ok(());
    }
    put_of_message(byte, out)
}
