//! Tokens before they are preprocessed (ISO C11, section 6.4).
use crate::fault::ReadError;
use crate::letter::Letter;
use crate::mark::{Mark, mark_of};
use crate::names::Names;
use crate::spelled::part;
use crate::token::Origin;
use std::alloc::{AllocError, Global};

#[derive(Clone, Copy, Debug, PartialEq, Eq)]
pub enum RawKind {
    Name(u32),
    Number,
    Text,
    Letter,
    Mark(Mark),
    /// A byte that begins no token.
    Other,
}

/// A token, and how it was written.
#[derive(Clone, Copy, Debug, PartialEq, Eq)]
pub struct Raw {
    pub kind: RawKind,
    /// Where it stands in the text, or where the macro is used from which it comes.
    pub at: usize,
    /// Its bytes among those that are spelled, where it is no name and no mark.
    pub from: usize,
    pub len: usize,
    /// Whether white space stands before it.
    pub is_apart: bool,
    /// Whether it is the first one of its line.
    pub is_first: bool,
    /// The macros that aren't taken in its place: a number among the sets of them, or 0.
    pub hidden: usize,
    /// From where it comes, where a macro became it.
    pub origin: Option<Origin>,
}

/// Whether a name may begin with this byte.
pub fn is_name_start(byte: u8) -> bool {
    byte.is_ascii_alphabetic() || byte == b'_'
}

fn is_name_byte(byte: u8) -> bool {
    byte.is_ascii_alphanumeric() || byte == b'_'
}

/// How many letters the name has that begins here.
fn name_len(letters: &[Letter]) -> usize {
    letters.iter().take_while(|l| is_name_byte(l.byte)).count()
}

/// How many letters the number has that begins here: digits, letters and points, and a sign behind an exponent's letter.
fn number_len(letters: &[Letter]) -> usize {
    let mut before = b'0';
    for (len, letter) in letters.iter().enumerate() {
        let byte = letter.byte;
        let is_sign = (byte == b'+' || byte == b'-') && b"eEpP".contains(&before);
        if !is_sign && byte != b'.' && !is_name_byte(byte) {
            return len;
        }
        before = byte;
    }
    letters.len()
}

/// How many letters a string or a character has that begins here, with both quotes; none where it doesn't end on its line.
fn quoted_len(letters: &[Letter], quote: u8) -> Option<usize> {
    let mut is_taken = true;
    for (len, letter) in letters.iter().enumerate() {
        if letter.byte == b'\n' {
            return None;
        }
        if is_taken {
            is_taken = false;
        } else if letter.byte == b'\\' {
            is_taken = true;
        } else if letter.byte == quote {
            return Some(len.saturating_add(1));
        }
    }
    None
}

/// How many letters stand before the quote of a string of another kind: `L`, `u`, `U` and `u8`.
fn prefix_len(letters: &[Letter]) -> usize {
    match letters {
        [one, two, three, ..] if one.byte == b'u' && two.byte == b'8' && three.byte == b'"' => 2,
        [one, two, ..] if b"LuU".contains(&one.byte) && b"'\"".contains(&two.byte) => 1,
        _ => 0,
    }
}

/// What begins with these letters, and how many they are: a blank has no kind.
fn front(letters: &[Letter]) -> (Option<Begin>, usize) {
    let Some(first) = letters.first() else {
        return (None, 1);
    };
    let second = match letters.get(1) {
        Some(letter) => letter.byte,
        None => 0,
    };
    let byte = first.byte;
    if byte.is_ascii_whitespace() || byte == 11 {
        return (None, 1);
    }
    let before = prefix_len(letters);
    if before > 0 {
        return (None, before);
    }
    if is_name_start(byte) {
        (Some(Begin::Name), name_len(letters))
    } else if byte.is_ascii_digit() || (byte == b'.' && second.is_ascii_digit()) {
        (Some(Begin::Number), number_len(letters))
    } else if byte == b'"' || byte == b'\'' {
        quote(letters, byte)
    } else {
        mark(letters)
    }
}

fn quote(letters: &[Letter], byte: u8) -> (Option<Begin>, usize) {
    match quoted_len(letters, byte) {
        Some(len) if byte == b'"' => (Some(Begin::Text), len),
        Some(len) => (Some(Begin::Letter), len),
        None => (Some(Begin::Other), 1),
    }
}

fn mark(letters: &[Letter]) -> (Option<Begin>, usize) {
    let mut bytes = [0; 3];
    for (byte, letter) in bytes.iter_mut().zip(letters) {
        *byte = letter.byte;
    }
    match mark_of(bytes.as_slice()) {
        Some((mark, len)) => (Some(Begin::Mark(mark)), len),
        None => (Some(Begin::Other), 1),
    }
}

#[derive(Clone, Copy)]
enum Begin {
    Name,
    Number,
    Text,
    Letter,
    Mark(Mark),
    Other,
}

/// The tokens of letters. What is spelled goes behind the rest.
pub fn raws_of(
    alloc: Global,
    letters: &[Letter],
    names: &mut Names,
    spelled: &mut Vec<u8>,
) -> Result<Vec<Raw>, ReadError> {
    let mut raws = Vec::new(alloc);
    let mut next = 0;
    let mut is_apart = false;
    let mut is_first = true;
    for number in 0..letters.len() {
        if number < next {
            continue;
        }
        let rest = &letters[number..];
        let (found, len) = front(rest);
        next = number.saturating_add(len);
        let taken = &rest[..len.min(rest.len())];
        match found {
            None => {
                is_apart = true;
                is_first = is_first || taken.iter().any(|l| l.byte == b'\n');
            }
            Some(found) => {
                let mut raw = raw_of(alloc, taken, found, names, spelled)?;
                raw.is_apart = is_apart;
                raw.is_first = is_first;
                raws.push(raw)?;
                is_apart = false;
                is_first = false;
            }
        }
    }
    Ok(raws)
}

/// The token of these letters.
fn raw_of(
    alloc: Global,
    letters: &[Letter],
    found: Begin,
    names: &mut Names,
    spelled: &mut Vec<u8>,
) -> Result<Raw, ReadError> {
    let from = spelled.len();
    for letter in letters {
        spelled.push(letter.byte)?;
    }
    let kind = match found {
        Begin::Name => RawKind::Name(name_of(alloc, part(spelled, from, letters.len()), names)?),
        Begin::Number => RawKind::Number,
        Begin::Text => RawKind::Text,
        Begin::Letter => RawKind::Letter,
        Begin::Mark(mark) => RawKind::Mark(mark),
        Begin::Other => RawKind::Other,
    };
    let at = match letters.first() {
        Some(letter) => letter.at,
        None => 0,
    };
    Ok(Raw {
        kind,
        at,
        from,
        len: letters.len(),
        is_apart: false,
        is_first: false,
        hidden: 0,
        origin: None,
    })
}

/// The number of a name that is spelled so.
pub fn name_of(alloc: Global, bytes: &[u8], names: &mut Names) -> Result<u32, AllocError> {
    match str::from_utf8(bytes) {
        Ok(text) => names.number_of(alloc, text),
        Err(_) => Ok(0),
    }
}
