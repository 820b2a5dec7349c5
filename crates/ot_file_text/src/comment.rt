//! Comments of a file: from `//` outside of strings to the line's end.
ghost use Rattle.std.specs.Prelude.{◌≡◌, IfOk};
ghost use Rattle.ot_file_text.specs.Comments.{begins_comment, comments_blanked, part_after, shown_in};

use crate::place::Place;
use std::alloc::{AllocError, Global};

/// The part of a file in which a byte stands.
#[derive(Clone, Copy, Debug)]
enum Part {
    /// JSON, with where the byte leaves the next one.
    Json(Place),
    /// A comment.
    Comment,
}

/// The text with each byte of a comment made a space, so that every other byte stays where it is. A comment goes from
/// `//` outside of strings up to the line's end, which stays.
pub fn blanked(alloc: Global, text: &[u8]) -> Result<Vec<u8>, AllocError>
    ensures { IfOk result (λ blank. blank.items ≡ comments_blanked text.now) }
{
    let mut blank = Vec::with_capacity(alloc, text.len())?;
    let mut part = Part::Json(Place::Outside);
    let mut rest = text;
    while let [byte, behind @ ..] = rest {
        part = part.after(*byte, behind);
        blank.push(part.shows(*byte))?;
        rest = behind;
    }
    Ok(blank)
}

impl Part {
    /// The part in which this byte stands, by the byte before it and those behind it.
    fn after(self, byte: u8, behind: &[u8]) -> Part
        ensures { result ≡ part_after self byte behind.now }
    {
        match self {
            Part::Comment if byte == b'\n' => Part::Json(Place::Outside),
            Part::Comment => Part::Comment,
            Part::Json(place) if begins_comment(place, byte, behind) => Part::Comment,
            Part::Json(place) => Part::Json(place.after(byte)),
        }
    }

    /// What is shown of a byte in this part.
    fn shows(self, byte: u8) -> u8
        ensures { result ≡ shown_in self byte }
    {
        match self {
            Part::Json(_) => byte,
            Part::Comment => b' ',
        }
    }
}

/// Whether a comment begins with this byte, which stands at this place.
fn begins_comment(place: Place, byte: u8, behind: &[u8]) -> bool
    ensures { result ≡ begins_comment place byte behind.now }
{
    match (place, behind) {
        (Place::Outside, [next, ..]) => byte == b'/' && *next == b'/',
        _ => false,
    }
}
