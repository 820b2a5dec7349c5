//! A piece of a file as one line.
ghost use Rattle.std.specs.Prelude.{◌≡◌, ◌++◌, IfOk, OnOk};
ghost use Rattle.ot_file_text.specs.OneLine.{is_of_word, begins_word, word_after, of_blank, in_string, on_line, one_line};

use crate::place::{Place, is_blank, is_closing, is_opening};
use std::alloc::{AllocError, Global};

/// The piece without the white space outside of strings: only between two words, as numbers and `true` are, a space stays,
/// since they would be one without it. An LF in a string, which JSON doesn't allow, is a tab there, which it doesn't allow
/// either: so it is one line.
pub fn one_line(alloc: Global, piece: &[u8]) -> Result<Vec<u8>, AllocError>
    ensures { IfOk result (λ line. line.items ≡ one_line piece.now) }
{
    let mut line = Vec::new(alloc);
    let mut place = Place::Outside;
    let mut word = false;
    let mut rest = piece;
    while let [byte, behind @ ..] = rest {
        put_byte(&mut line, place, word, *byte, behind)?;
        word = word_after(place, word, *byte);
        place = place.after(*byte);
        rest = behind;
    }
    Ok(line)
}

/// What stands on the line of a byte, by its place, whether a word is before it, and the bytes behind it.
fn put_byte(
    line: &mut Vec<u8>,
    place: Place,
    word: bool,
    byte: u8,
    behind: &[u8],
) -> Result<(), AllocError>
    ensures { OnOk result (line.new.items ≡ line.old.items ++ on_line place word byte behind.now) }
{
    match place {
        Place::Outside if is_blank(byte) => return put_blank(line, word, behind),
        Place::Outside => line.push(byte)?,
        Place::Quoted | Place::Escaped => line.push(in_string(byte))?,
    }
    Ok(())
}

/// A space where the white space before these bytes ends between two words.
fn put_blank(line: &mut Vec<u8>, word: bool, behind: &[u8]) -> Result<(), AllocError>
    ensures { OnOk result (line.new.items ≡ line.old.items ++ of_blank word behind.now) }
{
    if word && begins_word(behind) {
        line.push(b' ')?;
    }
    Ok(())
}

/// Whether the last byte that is no white space belongs to a word, by the same before this byte.
fn word_after(place: Place, word: bool, byte: u8) -> bool
    ensures { result ≡ word_after place word byte }
{
    match place {
        Place::Outside if is_blank(byte) => word,
        Place::Outside => is_of_word(byte),
        Place::Quoted | Place::Escaped => false,
    }
}

/// What stands for a byte in a string.
fn in_string(byte: u8) -> u8
    ensures { result ≡ in_string byte }
{
    if byte == b'\n' { b'\t' } else { byte }
}

/// Whether a word begins here.
fn begins_word(text: &[u8]) -> bool
    ensures { result ≡ begins_word text.now }
{
    match text {
        [first, ..] => is_of_word(*first),
        [] => false,
    }
}

/// Whether a byte outside of strings belongs to a word: it is no white space, bracket, comma, colon or quote.
fn is_of_word(byte: u8) -> bool
    ensures { result ≡ is_of_word byte }
{
    let is_mark = byte == b',' || byte == b':' || byte == b'"';
    !(is_blank(byte) || is_opening(byte) || is_closing(byte) || is_mark)
}
