//! Lines and columns of a file.
ghost use Rattle.std.specs.Prelude.{◌≡◌, ◌+◌, ◌++◌, ◌≤◌, ◌<◌, ◌^◌, ℕ, List, length};
ghost use Rattle.ot_file_text.specs.Positions.{first_position, position_after, position_behind, position_of, is_end, begins_character};
ghost use Rattle.ot_file_text.specs.Spots.{IsIn};

use std::marker::Model;

/// A line and a column of a file, from 1. A column counts characters: the bytes that begin one in UTF-8.
#[derive(Clone, Copy, Debug, PartialEq, Eq)]
pub struct Position {
    pub line: usize,
    pub column: usize,
}

/// Where the byte stands that has so many before it. It costs those bytes.
pub fn position_of(text: &[u8], offset: usize) -> Position
    requires { offset ≤ length text.now }
    ensures { result ≡ position_of text.now offset }
{
    Position::first().behind(&text[..offset])
}

impl Position {
    /// That of the first byte.
    fn first() -> Position
        ensures { result ≡ first_position }
    {
        Position { line: 1, column: 1 }
    }

    /// That of the byte behind these bytes, of which the first stands here.
    #[tactic(auto, using(crate::proofs::PositionLemmas::behind_more))]
    fn behind(self, bytes: &[u8]) -> Position
        requires line { self.line + length bytes.now < 2 ^ 64 }
        requires column { self.column + length bytes.now < 2 ^ 64 }
        ensures behind { (before : List ℕ) → self ≡ position_behind before → result ≡ position_behind (before ++ bytes.now) }
    {
        let mut position = self;
        for byte in bytes {
            position = position.after(*byte);
        }
        position
    }

    /// That of the byte behind this one.
    fn after(self, byte: u8) -> Position
        requires line { self.line + 1 < 2 ^ 64 }
        requires column { self.column + 1 < 2 ^ 64 }
        ensures { result ≡ position_after self byte }
    {
        if is_end(byte) {
            return Position {
                line: self.line + 1,
                column: 1,
            };
        }
        if begins_character(byte) {
            return Position {
                line: self.line,
                column: self.column + 1,
            };
        }
        self
    }
}

/// The positions in a text. They cost no more than the text where they are asked for in the order in which they stand, and
/// what lies between where they aren't, but stand behind the byte that is marked.
#[derive(Debug, Drop)]
pub struct Positions<'a> {
    text: &'a [u8],
    /// The last byte whose position was asked for.
    last: Spot,
    /// The byte that was marked last.
    marked: Spot,
}

/// A byte, by how many stand before it, and its position.
#[derive(Clone, Copy, Debug)]
struct Spot {
    offset: usize,
    position: Position,
}

impl<'a> Model for Positions<'a> {
    ghost use Rattle.std.specs.Prelude.{◌≡◌, ◌≤◌, ℕ, List, length};
    ghost use Rattle.ot_file_text.specs.Spots.{IsIn};

    ghost Value = { List ℕ };

    ghost view = { λ p. p.text.now };

    ghost invariant = { λ p. IsIn p.text.now p.last × IsIn p.text.now p.marked };
}

impl<'a> Positions<'a> {
    /// Those of this text.
    pub fn new(text: &'a [u8]) -> Positions<'a>
        ensures { result ≡ text.now }
    {
        Positions {
            text,
            last: Spot::first(),
            marked: Spot::first(),
        }
    }

    /// Where the byte stands that has so many before it.
    pub fn position_of(&mut self, offset: usize) -> Position
        requires { offset ≤ length self.old }
        ensures position { result ≡ position_of self.old offset }
        ensures text { self.new ≡ self.old }
    {
        let spot = spot_of(self.text, self.last, self.marked, offset);
        self.last = spot;
        spot.position
    }

    /// Marks the byte that has so many before it: what stands behind it is told from there on.
    pub fn mark(&mut self, offset: usize)
        requires { offset ≤ length self.old }
        ensures { self.new ≡ self.old }
    {
        self.marked = spot_of(self.text, self.last, self.marked, offset);
    }
}

impl Spot {
    /// The first byte.
    fn first() -> Spot
        ensures { (result.offset ≡ 0) × (result.position ≡ first_position) }
    {
        Spot {
            offset: 0,
            position: Position::first(),
        }
    }
}

/// The byte of a text that has so many before it, told from one of two others on, or from the first.
fn spot_of(text: &[u8], last: Spot, marked: Spot, offset: usize) -> Spot
    requires last { IsIn text.now last }
    requires marked { IsIn text.now marked }
    requires within { offset ≤ length text.now }
    ensures { (result.offset ≡ offset) × (result.position ≡ position_of text.now offset) }
{
    if last.offset <= offset {
        return spot_behind(text, last, offset);
    }
    if marked.offset <= offset {
        return spot_behind(text, marked, offset);
    }
    spot_behind(text, Spot::first(), offset)
}

/// The byte of a text that has so many before it, told from another before it on.
fn spot_behind(text: &[u8], from: Spot, offset: usize) -> Spot
    requires from { IsIn text.now from }
    requires before { from.offset ≤ offset }
    requires within { offset ≤ length text.now }
    ensures { (result.offset ≡ offset) × (result.position ≡ position_of text.now offset) }
{
    Spot {
        offset,
        position: from.position.behind(&text[from.offset..offset]),
    }
}

/// Whether the byte ends a line.
fn is_end(byte: u8) -> bool
    ensures { result ≡ is_end byte }
{
    byte == b'\n'
}

/// Whether a character begins with this byte: one that goes on has 10 as its first bits.
fn begins_character(byte: u8) -> bool
    ensures { result ≡ begins_character byte }
{
    byte / 64 != 2
}
