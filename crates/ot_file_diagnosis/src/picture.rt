//! The line of a text in which a byte stands, with a caret under the byte.
ghost use Rattle.std.specs.Prelude.{◌≡◌, ◌≤◌, ◌<◌, ◌+◌, ◌-◌, ◌^◌, ◌++◌, flat_map, length, replicate, not, OnOk};
ghost use Rattle.std.specs.List.{after_last, before_first, position_or_len, suffix_len};
ghost use Rattle.ot_file_text.specs.Positions.{begins_character, is_end};
ghost use Rattle.ot_file_diagnosis.specs.Pictures as meant;

use crate::diagnosis::Place;
use crate::paint::Paint;
use std::alloc::{AllocError, Global};

/// How many bytes a line has at most that is shown whole.
const WHOLE: usize = 120;

/// How many bytes of a longer line are shown before the place, and from it on.
const HALF: usize = 60;

/// How many columns a line's number has at least.
const WIDTH: usize = 5;

/// Writes the line of a text in which a byte stands, and under it a caret.
pub(crate) fn put_picture(
    alloc: Global,
    paint: Paint,
    text: &[u8],
    place: Place,
    out: &mut Vec<u8>,
) -> Result<(), AllocError>
    ensures { OnOk result (out.new.items ≡ out.old.items ++ meant.picture_text paint text.now place) }
{
    let number = format!(in alloc; "{}", place.position.line)?;
    let (before, behind) = shown_at(text, place.byte);
    put_source(number.as_str(), before, behind, out)?;
    put_caret(paint, number.len(), before, out)
}

/// Writes a line with its number: what stands before the place, and from it on.
fn put_source(
    number: &str,
    before: &[u8],
    behind: &[u8],
    out: &mut Vec<u8>,
) -> Result<(), AllocError>
    ensures { OnOk result (out.new.items ≡ out.old.items ++ meant.source_line number.now before.now behind.now) }
{
    put_blanks(WIDTH.saturating_sub(number.len()), out)?;
    out.extend_from_slice(number.as_bytes())?;
    out.extend_from_slice(b" | ".as_slice())?;
    put_shown(before, out)?;
    put_shown(behind, out)?;
    out.push(b'\n')?;
    Ok(())
}

/// Writes the caret under what stands behind these bytes of a line, whose number has so many digits.
fn put_caret(
    paint: Paint,
    digits: usize,
    before: &[u8],
    out: &mut Vec<u8>,
) -> Result<(), AllocError>
    ensures { OnOk result (out.new.items ≡ out.old.items ++ meant.caret_line paint digits before.now) }
{
    put_blanks(digits.max(WIDTH), out)?;
    out.extend_from_slice(b" | ".as_slice())?;
    put_lead(before, out)?;
    out.extend_from_slice(caret(paint).as_bytes())?;
    Ok(())
}

fn caret(paint: Paint) -> &'static str
    ensures { result.now ≡ meant.caret paint }
{
    match paint {
        Paint::Plain => "^\n",
        Paint::Coloured => "\x1b[1;32m^\x1b[0m\n",
    }
}

/// Writes bytes as they are shown.
fn put_shown(bytes: &[u8], out: &mut Vec<u8>) -> Result<(), AllocError>
    ensures { OnOk result (out.new.items ≡ out.old.items ++ flat_map meant.shown_of bytes.now) }
{
    for byte in bytes {
        put_byte(*byte, out)?;
    }
    Ok(())
}

/// Writes a byte where it is printable or a tab, and `?` for another character.
fn put_byte(byte: u8, out: &mut Vec<u8>) -> Result<(), AllocError>
    ensures { OnOk result (out.new.items ≡ out.old.items ++ meant.shown_of byte) }
{
    if byte == b'\t' || b' ' <= byte && byte <= b'~' {
        out.push(byte)?;
    } else if begins_character(byte) {
        out.push(b'?')?;
    }
    Ok(())
}

/// Writes as many columns as bytes have, with their tabs.
fn put_lead(bytes: &[u8], out: &mut Vec<u8>) -> Result<(), AllocError>
    ensures { OnOk result (out.new.items ≡ out.old.items ++ flat_map meant.lead_of bytes.now) }
{
    for byte in bytes {
        put_column(*byte, out)?;
    }
    Ok(())
}

fn put_column(byte: u8, out: &mut Vec<u8>) -> Result<(), AllocError>
    ensures { OnOk result (out.new.items ≡ out.old.items ++ meant.lead_of byte) }
{
    if byte == b'\t' {
        out.push(byte)?;
    } else if begins_character(byte) {
        out.push(b' ')?;
    }
    Ok(())
}

fn put_blanks(count: usize, out: &mut Vec<u8>) -> Result<(), AllocError>
    ensures { OnOk result (out.new.items ≡ out.old.items ++ replicate count 32) }
{
    for _column in 0..count {
        out.push(b' ')?;
    }
    Ok(())
}

/// What is shown of the line in which a byte stands: before the byte, and from it on.
fn shown_at(text: &[u8], byte: usize) -> (&[u8], &[u8])
    ensures before { result.0.now ≡ meant.shown_before text.now byte }
    ensures behind { result.1.now ≡ meant.shown_behind text.now byte }
{
    let before = line_before(text, byte);
    let behind = line_behind(text, byte);
    let front = shown_count(before.len(), behind.len());
    let back = shown_count(behind.len(), before.len());
    (last_of(front, before), &behind[..back])
}

/// The last ones of bytes.
fn last_of(count: usize, bytes: &[u8]) -> &[u8]
    requires { count ≤ length bytes.now }
    ensures { result.now ≡ meant.last_of count bytes.now }
{
    &bytes[bytes.len() - count..]
}

/// What stands on the line of a byte before it.
fn line_before(text: &[u8], byte: usize) -> &[u8]
    ensures is { result.now ≡ meant.line_before text.now byte }
    ensures within { length result.now ≤ byte }
    ensures of_text { length result.now ≤ length text.now }
{
    let front = &text[..byte.min(text.len())];
    &front[line_start(front)..]
}

/// What stands on the line of a byte from it on.
fn line_behind(text: &[u8], byte: usize) -> &[u8]
    ensures is { result.now ≡ meant.line_behind text.now byte }
    ensures within { length result.now ≤ length text.now - byte }
{
    let rest = &text[byte.min(text.len())..];
    &rest[..line_end(rest)]
}

/// How many bytes are shown of so many, where so many stand on the other side of the place.
fn shown_count(count: usize, other: usize) -> usize
    requires { count + other < 2 ^ 64 }
    ensures is { result ≡ meant.shown_count count other }
    ensures within { result ≤ count }
{
    if count + other > WHOLE {
        count.min(HALF)
    } else {
        count
    }
}

/// How many bytes stand before the last line of a text. It costs that line.
fn line_start(text: &[u8]) -> usize
    ensures is { result ≡ length text.now - suffix_len (λ b. not (is_end b)) text.now }
    ensures within { result ≤ length text.now }
{
    let mut start = text.len();
    while start > 0 && text[start - 1] != b'\n' {
        start -= 1;
    }
    start
}

/// How many bytes stand before the end of a text's first line.
fn line_end(text: &[u8]) -> usize
    ensures is { result ≡ position_or_len meant.ends_line text.now }
    ensures within { result ≤ length text.now }
{
    for (index, byte) in text.iter().enumerate() {
        if *byte == b'\n' || *byte == b'\r' {
            return index;
        }
    }
    text.len()
}

/// Whether a character begins with this byte: one that goes on has 10 as its first bits.
fn begins_character(byte: u8) -> bool
    ensures { result ≡ begins_character byte }
{
    byte / 64 != 2
}
