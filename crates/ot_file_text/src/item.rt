//! Where an item of nested arrays stands.
ghost use Rattle.std.specs.Prelude.{◌≡◌, ◌≤◌, ◌<◌, length, IfSome};
ghost use Rattle.ot_file_text.specs.Places.{inside};
ghost use Rattle.ot_file_text.specs.Items.{offset_of, item_at, begun_at, commas_after, behind_commas};

use crate::nesting::Nesting;
use crate::place::is_closing;
use crate::request::blanks_in;

/// How many bytes stand before the item that the path names: for each array that the item is in, the index in it, the
/// outermost first. The piece begins with its first bracket, and has no comments. It costs the bytes up to the item, or up to
/// the end of the last array that is there.
pub fn offset_of(piece: &[u8], path: &[usize]) -> Option<usize>
    ensures offset { result ≡ offset_of piece.now path.now }
    ensures within { IfSome result (λ offset. offset ≤ length piece.now) }
{
    let mut offset = 0;
    for index in path {
        offset += item_at(&piece[offset..], *index)?;
    }
    Some(offset)
}

/// How many bytes stand before an item of the array that begins here.
fn item_at(text: &[u8], index: usize) -> Option<usize>
    ensures offset { result ≡ item_at text.now index }
    ensures within { IfSome result (λ offset. offset < length text.now) }
{
    let [b'[', items @ ..] = text else {
        return None;
    };
    let from = behind_commas(items, index)?;
    Some(1 + from + begun_at(&items[from..])?)
}

/// How much white space stands before the item that begins here, where one does.
fn begun_at(text: &[u8]) -> Option<usize>
    ensures blanks { result ≡ begun_at text.now }
    ensures within { IfSome result (λ blanks. blanks < length text.now) }
{
    let blanks = blanks_in(text);
    match &text[blanks..] {
        [first, ..] if *first != b',' && !is_closing(*first) => Some(blanks),
        _ => None,
    }
}

/// How many bytes there are behind an array's bracket up to and with so many commas between its items.
fn behind_commas(items: &[u8], commas: usize) -> Option<usize>
    ensures count { result ≡ behind_commas commas inside items.now }
    ensures within { IfSome result (λ count. count ≤ length items.now) }
{
    let mut left = commas;
    let mut nesting = Nesting::inside();
    for (index, byte) in items.iter().enumerate() {
        if left == 0 {
            return Some(index);
        }
        if nesting.is_between(*byte) {
            left -= 1;
        }
        nesting = nesting.after(*byte);
        if nesting.depth == 0 {
            return None;
        }
    }
    if left == 0 { Some(items.len()) } else { None }
}
