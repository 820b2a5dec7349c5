//! A file cut into its requests.
ghost use Rattle.std.specs.Prelude.{◌≡◌, ◌+◌, ◌≤◌, ◌<◌, ◌^◌, length, IfSome};
ghost use Rattle.ot_file_text.specs.Places.{outside};
ghost use Rattle.ot_file_text.specs.Cuts.{blanks_in, closed_in, stray_in, bracketed_piece, piece_at, piece_from};
ghost use Rattle.ot_file_text.specs.declared.place.Place.TheVariants.{Outside};

use crate::nesting::Nesting;
use crate::place::{Place, is_blank, is_opening};

/// What a piece of a file is.
#[derive(Clone, Copy, Debug, PartialEq, Eq)]
pub enum Kind {
    /// It goes from a bracket to the one that closes it.
    Closed,
    /// It goes from a bracket that nothing closes to the file's end.
    Open,
    /// It begins with no bracket, and goes to the next one that opens outside of strings, or to the file's end.
    Stray,
}

/// A piece of a file, from one byte up to another.
#[derive(Clone, Copy, Debug)]
pub struct Piece {
    pub kind: Kind,
    pub start: usize,
    pub end: usize,
}

/// The first piece from this byte on of a file without comments: what stands before it is white space. There is none
/// where all the rest is. It costs the bytes up to the piece's end.
pub fn next_piece(text: &[u8], from: usize) -> Option<Piece>
    requires { from ≤ length text.now }
    ensures piece { result ≡ piece_from text.now from }
    ensures within { IfSome result (λ piece. (from ≤ piece.start) × (piece.start < piece.end) × (piece.end ≤ length text.now)) }
{
    let start = from + blanks_in(&text[from..]);
    piece_at(&text[start..], start)
}

/// The piece that begins with these bytes of a file, which aren't white space. So many stand before them.
fn piece_at(text: &[u8], start: usize) -> Option<Piece>
    requires { start + length text.now < 2 ^ 64 }
    ensures piece { result ≡ piece_at text.now start }
    ensures within { IfSome result (λ piece. (piece.start ≡ start) × (start < piece.end) × (piece.end ≤ start + length text.now)) }
{
    match text {
        [] => None,
        [first, ..] => {
            if is_opening(*first) {
                Some(bracketed(text, start))
            } else {
                Some(Piece {
                    kind: Kind::Stray,
                    start,
                    end: start + stray_in(text),
                })
            }
        }
    }
}

/// The piece that begins with this bracket.
fn bracketed(text: &[u8], start: usize) -> Piece
    requires fits { start + length text.now < 2 ^ 64 }
    requires some { 0 < length text.now }
    ensures piece { result ≡ bracketed_piece (closed_in outside text.now) start (length text.now) }
    ensures start { result.start ≡ start }
    ensures within { (start < result.end) × (result.end ≤ start + length text.now) }
{
    match closed_in(text) {
        Some(len) => Piece {
            kind: Kind::Closed,
            start,
            end: start + len,
        },
        None => Piece {
            kind: Kind::Open,
            start,
            end: start + text.len(),
        },
    }
}

/// How many bytes of white space stand in front.
pub(crate) fn blanks_in(text: &[u8]) -> usize
    ensures count { result ≡ blanks_in text.now }
    ensures within { result ≤ length text.now }
{
    for (index, byte) in text.iter().enumerate() {
        if !is_blank(*byte) {
            return index;
        }
    }
    text.len()
}

/// How many bytes there are up to and with the one behind which no bracket is open.
fn closed_in(text: &[u8]) -> Option<usize>
    ensures count { result ≡ closed_in outside text.now }
    ensures within { IfSome result (λ len. (0 < len) × (len ≤ length text.now)) }
{
    let mut nesting = Nesting::outside();
    for (index, byte) in text.iter().enumerate() {
        nesting = nesting.after(*byte);
        if nesting.depth == 0 {
            return Some(index + 1);
        }
    }
    None
}

/// How many bytes there are before the first bracket that opens outside of strings.
fn stray_in(text: &[u8]) -> usize
    ensures count { result ≡ stray_in Outside text.now }
    ensures within { result ≤ length text.now }
{
    let mut place = Place::Outside;
    for (index, byte) in text.iter().enumerate() {
        if place.opens(*byte) {
            return index;
        }
        place = place.after(*byte);
    }
    text.len()
}
