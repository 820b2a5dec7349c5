//! How deep between brackets a byte of JSON stands.
ghost use Rattle.std.specs.Prelude.{◌≡◌, ◌+◌, ◌<◌, ◌^◌};
ghost use Rattle.ot_file_text.specs.Places.{nesting_after, outside, inside, is_between};

use crate::place::{Place, is_closing, is_opening};

/// Where the bytes so far leave the next one, and how many brackets are open there.
#[derive(Clone, Copy, Debug)]
pub(crate) struct Nesting {
    pub(crate) place: Place,
    pub(crate) depth: usize,
}

impl Nesting {
    /// Before the first byte.
    pub(crate) fn outside() -> Nesting
        ensures { result ≡ outside }
    {
        Nesting {
            place: Place::Outside,
            depth: 0,
        }
    }

    /// Behind the bracket that opens the first array.
    pub(crate) fn inside() -> Nesting
        ensures { result ≡ inside }
    {
        Nesting {
            place: Place::Outside,
            depth: 1,
        }
    }

    /// Where this byte leaves the next one.
    pub(crate) fn after(self, byte: u8) -> Nesting
        requires { self.depth + 1 < 2 ^ 64 }
        ensures { result ≡ nesting_after self byte }
    {
        let depth = match self.place {
            Place::Outside if is_opening(byte) => self.depth + 1,
            Place::Outside if is_closing(byte) => self.depth.saturating_sub(1),
            _ => self.depth,
        };
        let place = self.place.after(byte);
        Nesting { place, depth }
    }

    /// Whether this byte is a comma between items of the one array or object that is open.
    pub(crate) fn is_between(self, byte: u8) -> bool
        ensures { result ≡ is_between self byte }
    {
        match self.place {
            Place::Outside => self.depth == 1 && byte == b',',
            _ => false,
        }
    }
}
