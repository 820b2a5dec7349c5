//! The letters of a text: bytes as C reads them behind the phases of translation 1 to 3 (ISO C11, section 5.1.1.2).
use crate::fault::{ReadError, Why};
use std::alloc::{AllocError, Global};

/// A byte, and where it stands in the text.
#[derive(Clone, Copy)]
pub struct Letter {
    pub byte: u8,
    pub at: usize,
}

/// The letters of a text: lines that end in a backslash go on, and a comment is a space.
pub fn letters_of(alloc: Global, text: &[u8]) -> Result<Vec<Letter>, ReadError> {
    if let Some(at) = trigraph_in(text) {
        return Err(ReadError::new(at, Why::Trigraph));
    }
    let joined = joined_of(alloc, text)?;
    without_comments(alloc, &joined)
}

/// Where the first trigraph stands (section 5.2.1.1).
fn trigraph_in(text: &[u8]) -> Option<usize> {
    for at in 0..text.len() {
        if let [b'?', b'?', last, ..] = &text[at..] {
            if b"=/'()!<>-".contains(last) {
                return Some(at);
            }
        }
    }
    None
}

/// How many bytes the end of a line has here that is no end.
fn splice_len(text: &[u8]) -> usize {
    match text {
        [b'\\', b'\n', ..] => 2,
        [b'\\', b'\r', b'\n', ..] => 3,
        _ => 0,
    }
}

/// The bytes but for those by which lines go on.
fn joined_of(alloc: Global, text: &[u8]) -> Result<Vec<Letter>, AllocError> {
    let mut letters = Vec::new(alloc);
    let mut next = 0;
    for at in 0..text.len() {
        if at < next {
            continue;
        }
        let len = splice_len(&text[at..]);
        if len == 0 {
            letters.push(Letter { byte: text[at], at })?;
        } else {
            next = at.saturating_add(len);
        }
    }
    Ok(letters)
}

/// In what a letter stands.
#[derive(Clone, Copy)]
enum Inside {
    Code,
    /// A comment of one line.
    Line,
    /// One that began here.
    Comment(usize),
    /// A string or a character that this mark ends.
    Quote(u8),
}

/// The letters with a space for each comment.
fn without_comments(alloc: Global, letters: &[Letter]) -> Result<Vec<Letter>, ReadError> {
    let mut kept = Vec::new(alloc);
    let mut inside = Inside::Code;
    let mut next = 0;
    for number in 0..letters.len() {
        if number < next {
            continue;
        }
        let (after, taken) = step(&letters[number..], inside, &mut kept)?;
        inside = after;
        next = number.saturating_add(taken);
    }
    match inside {
        Inside::Comment(at) => Err(ReadError::new(at, Why::OpenComment)),
        _ => Ok(kept),
    }
}

/// Keeps what is kept of the first letters, and tells what stands behind them, and how many they are.
fn step(
    letters: &[Letter],
    inside: Inside,
    kept: &mut Vec<Letter>,
) -> Result<(Inside, usize), AllocError> {
    let Some(first) = letters.first() else {
        return Ok((inside, 1));
    };
    let second = match letters.get(1) {
        Some(letter) => letter.byte,
        None => 0,
    };
    match inside {
        Inside::Code => code(*first, second, kept),
        Inside::Line => {
            if first.byte == b'\n' {
                kept.push(*first)?;
                Ok((Inside::Code, 1))
            } else {
                Ok((Inside::Line, 1))
            }
        }
        Inside::Comment(at) => {
            if first.byte == b'*' && second == b'/' {
                Ok((Inside::Code, 2))
            } else {
                Ok((Inside::Comment(at), 1))
            }
        }
        Inside::Quote(end) => quoted(letters, end, kept),
    }
}

fn code(first: Letter, second: u8, kept: &mut Vec<Letter>) -> Result<(Inside, usize), AllocError> {
    let space = Letter {
        byte: b' ',
        at: first.at,
    };
    match (first.byte, second) {
        (b'/', b'/') => {
            kept.push(space)?;
            Ok((Inside::Line, 2))
        }
        (b'/', b'*') => {
            kept.push(space)?;
            Ok((Inside::Comment(first.at), 2))
        }
        (byte, _) => {
            kept.push(first)?;
            if byte == b'"' || byte == b'\'' {
                Ok((Inside::Quote(byte), 1))
            } else {
                Ok((Inside::Code, 1))
            }
        }
    }
}

/// In a string, which ends at its line's end at the latest.
fn quoted(
    letters: &[Letter],
    end: u8,
    kept: &mut Vec<Letter>,
) -> Result<(Inside, usize), AllocError> {
    match letters {
        [first, second, ..] if first.byte == b'\\' && second.byte != b'\n' => {
            kept.push(*first)?;
            kept.push(*second)?;
            Ok((Inside::Quote(end), 2))
        }
        [first, ..] => {
            kept.push(*first)?;
            if first.byte == end || first.byte == b'\n' {
                Ok((Inside::Code, 1))
            } else {
                Ok((Inside::Quote(end), 1))
            }
        }
        [] => Ok((Inside::Code, 1)),
    }
}
