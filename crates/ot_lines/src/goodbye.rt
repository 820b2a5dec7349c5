//! The line that ends a session.
ghost use Rattle.std.specs.Prelude.{◌≡◌, reverse};
ghost use Rattle.ot_lines.specs.Goodbyes.{is_blank, is_bye, without_front_blanks};

/// Whether a line, without its LF and JSON's white space at both ends, is `["bye"]`, byte by byte.
pub fn is_bye(line: &[u8]) -> bool
    ensures { result ≡ is_bye line.now }
{
    without_back_blanks(without_front_blanks(line)) == b"[\"bye\"]".as_slice()
}

fn without_front_blanks(line: &[u8]) -> &[u8]
    ensures { result.now ≡ without_front_blanks line.now }
{
    let mut rest = line;
    while let [first, after @ ..] = rest {
        if !is_blank(*first) {
            return rest;
        }
        rest = after;
    }
    rest
}

fn without_back_blanks(line: &[u8]) -> &[u8]
    ensures { result.now ≡ reverse (without_front_blanks (reverse line.now)) }
{
    let mut rest = line;
    while let [before @ .., last] = rest {
        if !is_blank(*last) {
            return rest;
        }
        rest = before;
    }
    rest
}

/// Whether the byte is white space that JSON allows on a line: space, tab or CR.
fn is_blank(byte: u8) -> bool
    ensures { result ≡ is_blank byte }
{
    byte == b' ' || byte == b'\t' || byte == b'\r'
}
