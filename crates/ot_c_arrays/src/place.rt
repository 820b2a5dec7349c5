//! Where words stand in the text.
ghost use Rattle.std.specs.Prelude.{◌≡◌};
ghost use Rattle.ot_c_arrays.specs.Places as meant;

/// The byte at which begins what so many words are left from.
pub fn byte_of(starts: &[usize], left: usize) -> usize
    ensures { result ≡ meant.byte_of starts.now left }
{
    match starts.get(starts.len().saturating_sub(left)) {
        Some(byte) => *byte,
        None => 0,
    }
}
