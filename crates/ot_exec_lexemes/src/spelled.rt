//! How tokens are spelled.
use crate::mark::text_of;
use crate::names::Names;
use crate::raw::{Raw, RawKind};
use std::alloc::{AllocError, Global};

/// The bytes of a token.
pub fn spelling<'a>(raw: &Raw, names: &'a Names, spelled: &'a [u8]) -> &'a [u8] {
    match raw.kind {
        RawKind::Name(number) => names.text(number).as_bytes(),
        RawKind::Mark(mark) => text_of(mark).as_bytes(),
        _ => part(spelled, raw.from, raw.len),
    }
}

/// So many bytes from there on, as far as there are any.
pub fn part(bytes: &[u8], from: usize, len: usize) -> &[u8] {
    let rest = &bytes[from.min(bytes.len())..];
    &rest[..len.min(rest.len())]
}

/// The text of a string that has these tokens (ISO C11, section 6.10.3.2), with its quotes.
pub fn quoted(
    alloc: Global,
    raws: &[Raw],
    names: &Names,
    spelled: &[u8],
) -> Result<Vec<u8>, AllocError> {
    let mut text = Vec::new(alloc);
    text.push(b'"')?;
    for (number, raw) in raws.iter().enumerate() {
        if number > 0 && raw.is_apart {
            text.push(b' ')?;
        }
        let is_text = matches!(raw.kind, RawKind::Text | RawKind::Letter);
        for byte in spelling(raw, names, spelled) {
            if is_text && (*byte == b'"' || *byte == b'\\') {
                text.push(b'\\')?;
            }
            text.push(*byte)?;
        }
    }
    text.push(b'"')?;
    Ok(text)
}

/// The bytes of a string, without its quotes and with each pair that begins with a backslash as the one that it stands for, where that
/// is a quote or a backslash (section 6.10.9).
pub fn unquoted(alloc: Global, text: &[u8]) -> Result<Vec<u8>, AllocError> {
    let mut bytes = Vec::new(alloc);
    let mut is_taken = false;
    for (number, byte) in text.iter().enumerate() {
        let is_edge = number == 0 || number.saturating_add(1) == text.len();
        if is_edge {
            continue;
        }
        if *byte == b'\\' && !is_taken {
            is_taken = true;
        } else {
            bytes.push(*byte)?;
            is_taken = false;
        }
    }
    Ok(bytes)
}

/// How many bytes a string has, without its quotes: a pair that begins with a backslash is one.
pub fn text_len(text: &[u8]) -> u32 {
    let mut len: u32 = 0;
    let mut is_taken = false;
    for byte in text {
        if *byte == b'\\' && !is_taken {
            is_taken = true;
        } else {
            len = len.saturating_add(1);
            is_taken = false;
        }
    }
    len.saturating_sub(2)
}
