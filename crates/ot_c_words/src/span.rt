//! How far goes what begins here.
ghost use Rattle.std.specs.Prelude.{◌≡◌, ◌≤◌, false, length, IfSome};
ghost use Rattle.ot_c_words.specs.Names as names;
ghost use Rattle.ot_c_words.specs.Spans as spans;

use crate::known::{Known, known_word};

pub(crate) fn is_digit(byte: u8) -> bool
    ensures { result ≡ names.is_digit byte }
{
    byte >= b'0' && byte <= b'9'
}

pub(crate) fn is_letter(byte: u8) -> bool
    ensures { result ≡ names.is_letter byte }
{
    (byte >= b'a' && byte <= b'z') || (byte >= b'A' && byte <= b'Z') || byte == b'_'
}

fn in_name(byte: u8) -> bool
    ensures { result ≡ names.in_name byte }
{
    is_letter(byte) || is_digit(byte)
}

fn is_blank(byte: u8) -> bool
    ensures { result ≡ spans.is_blank byte }
{
    byte == b' ' || byte == b'\t'
}

/// White space that ends no line.
pub(crate) fn is_white(byte: u8) -> bool
    ensures { result ≡ spans.is_white byte }
{
    is_blank(byte) || byte == 11 || byte == 12 || byte == b'\r'
}

/// A name, or a number with its end.
pub(crate) fn name_len(bytes: &[u8]) -> usize
    ensures value { result ≡ spans.name_len bytes.now }
    ensures within { result ≤ length bytes.now }
{
    for i in 0..bytes.len() {
        if !in_name(bytes[i]) {
            return i;
        }
    }
    bytes.len()
}

pub(crate) fn blank_len(bytes: &[u8]) -> usize
    ensures value { result ≡ spans.blank_len bytes.now }
    ensures within { result ≤ length bytes.now }
{
    for i in 0..bytes.len() {
        if !is_blank(bytes[i]) {
            return i;
        }
    }
    bytes.len()
}

/// What is left of the line.
pub(crate) fn line_len(bytes: &[u8]) -> usize
    ensures value { result ≡ spans.line_len bytes.now }
    ensures within { result ≤ length bytes.now }
{
    for i in 0..bytes.len() {
        if bytes[i] == b'\n' {
            return i;
        }
    }
    bytes.len()
}

/// Behind `/*`: up to the end of the comment and with it, if it ends.
pub(crate) fn comment_len(bytes: &[u8]) -> Option<usize>
    ensures value { result ≡ spans.comment_len bytes.now }
    ensures within { IfSome result (λ len. len ≤ length bytes.now) }
{
    for i in 0..bytes.len() {
        if bytes[i..].starts_with(b"*/") {
            return Some(i + 2);
        }
    }
    None
}

/// Behind a quote: up to the next one and with it, if it comes on this line. A byte behind a backslash ends nothing.
pub(crate) fn quoted_len(bytes: &[u8]) -> Option<usize>
    ensures value { result ≡ spans.quoted_len false bytes.now }
    ensures within { IfSome result (λ len. len ≤ length bytes.now) }
{
    let mut taken = false;
    for i in 0..bytes.len() {
        if bytes[i] == b'\n' {
            return None;
        }
        if bytes[i] == b'"' && !taken {
            return Some(i + 1);
        }
        taken = bytes[i] == b'\\' && !taken;
    }
    None
}

/// Up to this mark and with it, if it comes on this line.
pub(crate) fn closed_len(mark: u8, bytes: &[u8]) -> Option<usize>
    ensures value { result ≡ spans.closed_len mark bytes.now }
    ensures within { IfSome result (λ len. len ≤ length bytes.now) }
{
    for i in 0..bytes.len() {
        if bytes[i] == mark {
            return Some(i + 1);
        }
        if bytes[i] == b'\n' {
            return None;
        }
    }
    None
}

/// Whether only white space stands behind the last backslash of a line.
pub(crate) fn is_spliced(line: &[u8]) -> bool
    ensures { result ≡ spans.spliced_behind false line.now }
{
    let mut spliced = false;
    for byte in line {
        spliced = *byte == b'\\' || (spliced && is_white(*byte));
    }
    spliced
}

/// The last mark of a trigraph.
fn is_third(byte: u8) -> bool
    ensures { result ≡ spans.is_third byte }
{
    byte == b'='
        || byte == b'/'
        || byte == b'\''
        || byte == b'('
        || byte == b')'
        || byte == b'!'
        || byte == b'<'
        || byte == b'>'
        || byte == b'-'
}

fn begins_third(bytes: &[u8]) -> bool
    ensures { result ≡ spans.begins_third bytes.now }
{
    match bytes {
        [byte, ..] => is_third(*byte),
        [] => false,
    }
}

fn begins_second(bytes: &[u8]) -> bool
    ensures { result ≡ spans.begins_second bytes.now }
{
    match bytes {
        [byte, rest @ ..] => *byte == b'?' && begins_third(rest),
        [] => false,
    }
}

/// Whether a trigraph is at the front: two question marks and another mark.
pub(crate) fn begins_trigraph(bytes: &[u8]) -> bool
    ensures { result ≡ spans.begins_trigraph bytes.now }
{
    match bytes {
        [byte, rest @ ..] => *byte == b'?' && begins_second(rest),
        [] => false,
    }
}

pub(crate) fn has_trigraph(bytes: &[u8]) -> bool
    ensures { result ≡ spans.has_trigraph bytes.now }
{
    for i in 0..bytes.len() {
        if begins_trigraph(&bytes[i..]) {
            return true;
        }
    }
    false
}

/// The next word of a directive, behind blanks, and how many bytes both have.
#[tactic(auto, unfolding(crate::specs::Spans::next_word))]
pub(crate) fn next_word(bytes: &[u8]) -> (Option<Known>, usize)
    ensures value { result ≡ spans.next_word bytes.now }
    ensures within { result.1 ≤ length bytes.now }
{
    let blanks = blank_len(bytes);
    let rest = &bytes[blanks..];
    let len = name_len(rest);
    (known_word(&rest[..len]), blanks + len)
}
