//! Where a byte of JSON stands: in a string or outside of one.
ghost use Rattle.std.specs.Prelude.{◌≡◌};
ghost use Rattle.ot_file_text.specs.Places.{place_after, opens, is_blank, is_opening, is_closing};

/// Where the bytes so far leave the next one.
#[derive(Clone, Copy, Debug)]
pub(crate) enum Place {
    /// Outside of strings.
    Outside,
    /// In a string.
    Quoted,
    /// In a string, behind a backslash that escapes it.
    Escaped,
}

impl Place {
    /// Where this byte leaves the next one.
    pub(crate) fn after(self, byte: u8) -> Place
        ensures { result ≡ place_after self byte }
    {
        match self {
            Place::Outside if byte == b'"' => Place::Quoted,
            Place::Outside => Place::Outside,
            Place::Quoted if byte == b'"' => Place::Outside,
            Place::Quoted if byte == b'\\' => Place::Escaped,
            Place::Quoted => Place::Quoted,
            Place::Escaped => Place::Quoted,
        }
    }

    /// Whether this byte opens an array or an object.
    pub(crate) fn opens(self, byte: u8) -> bool
        ensures { result ≡ opens self byte }
    {
        match self {
            Place::Outside => is_opening(byte),
            Place::Quoted | Place::Escaped => false,
        }
    }
}

/// Whether the byte is JSON's white space: space, tab, LF or CR.
pub(crate) fn is_blank(byte: u8) -> bool
    ensures { result ≡ is_blank byte }
{
    byte == b' ' || byte == b'\t' || byte == b'\n' || byte == b'\r'
}

/// Whether the byte opens an array or an object, outside of strings.
pub(crate) fn is_opening(byte: u8) -> bool
    ensures { result ≡ is_opening byte }
{
    byte == b'[' || byte == b'{'
}

/// Whether the byte closes an array or an object, outside of strings.
pub(crate) fn is_closing(byte: u8) -> bool
    ensures { result ≡ is_closing byte }
{
    byte == b']' || byte == b'}'
}
