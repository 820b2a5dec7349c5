//! Where a byte stands: its line, and its column in it, from 1.
ghost use Rattle.std.specs.Prelude.{◌≡◌, ◌≤◌, ◌+◌, ◌<◌, ◌^◌, length, take};
ghost use Rattle.ot_c_words.specs.Positions.{place_behind};

/// A place in a text, as compilers tell it.
#[derive(Clone, Copy, Debug, PartialEq, Eq)]
pub struct Position {
    pub line: usize,
    pub column: usize,
}

/// Where the byte stands that comes behind so many, or the end of the text.
pub fn position_of(text: &[u8], start: usize) -> Position
    requires { start ≤ length text.now }
    ensures { result ≡ place_behind (record { line = 1; column = 1 }) (take start text.now) }
{
    let mut place = Position { line: 1, column: 1 };
    for byte in &text[..start] {
        if *byte == b'\n' {
            place = Position {
                line: place.line + 1,
                column: 1,
            };
        } else {
            place.column += 1;
        }
    }
    place
}
