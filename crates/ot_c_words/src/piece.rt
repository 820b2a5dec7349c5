//! What stands at the front of a text: white space, the end of a line, or a word.
ghost use Rattle.std.specs.Prelude.{◌≡◌, ◌≤◌, ◌<◌, ◌+◌, ◌^◌, false, IfOk, IfSome, length, take};
ghost use Rattle.ot_c_words.specs.Marks.{mark_at as longest};
ghost use Rattle.ot_c_words.specs.Spans.{next_word as following};
ghost use Rattle.ot_c_words.specs.Pieces as pieces;

use crate::fault::Wrong;
use crate::known::Known;
use crate::mark::{Mark, mark_at};
use crate::number::number;
use crate::span::{
    begins_trigraph, blank_len, closed_len, comment_len, has_trigraph, is_digit, is_letter,
    is_spliced, is_white, line_len, name_len, next_word, quoted_len,
};
use crate::word::IntegerType;

/// What stands before a byte on its line: white space alone, also words, or words of a directive.
#[derive(Clone, Copy)]
pub enum Line {
    Fresh,
    Inside,
    Directive,
}

#[derive(Clone, Copy)]
pub enum Piece {
    /// White space, or a comment.
    Nothing,
    /// The end of a line.
    Feed,
    Number(u64, IntegerType),
    Name,
    Text,
    Letter(u8),
    Mark(Mark),
    Include,
    Define,
    Pragma,
}

/// A piece, and how many bytes it has.
type Found = Result<(Piece, usize), Wrong>;

/// White space with a backslash and the end of the line behind it goes on there.
#[tactic(auto, unfolding(crate::specs::Pieces::white_len))]
fn white_len(bytes: &[u8]) -> usize
    ensures value { result ≡ pieces.white_len bytes.now }
    ensures some { 0 < result }
    ensures within { result ≤ 1 + length bytes.now }
{
    if bytes.starts_with(b"\\\n") { 3 } else { 1 }
}

/// Behind a backslash: the line goes on, if that splits no word.
#[tactic(auto, unfolding(crate::specs::Pieces::splice_at))]
fn splice(bytes: &[u8]) -> Found
    ensures value { result ≡ pieces.splice_at bytes.now }
    ensures within { pieces.Advances (1 + length bytes.now) result }
{
    match bytes {
        [b'\n'] => Ok((Piece::Nothing, 2)),
        [b'\n', next, ..] => {
            if is_white(*next) || *next == b'\n' {
                Ok((Piece::Nothing, 2))
            } else {
                Err(Wrong::NoWord)
            }
        }
        _ => Err(Wrong::NoWord),
    }
}

fn marked(bytes: &[u8]) -> Found
    ensures value { result ≡ pieces.mark_found (longest bytes.now) }
    ensures within { pieces.Advances (length bytes.now) result }
{
    match mark_at(bytes) {
        Some((mark, len)) => Ok((Piece::Mark(mark), len)),
        None => Err(Wrong::NoWord),
    }
}

#[tactic(auto, unfolding(crate::specs::Pieces::numeral_at))]
fn numeral(bytes: &[u8]) -> Found
    ensures value { result ≡ pieces.numeral_at bytes.now }
    ensures within { pieces.Advances (length bytes.now) result }
{
    let len = name_len(bytes);
    let (value, kind) = number(&bytes[..len])?;
    Ok((Piece::Number(value, kind), len))
}

/// Behind two strokes.
#[tactic(auto, unfolding(crate::specs::Pieces::line_at))]
fn line_comment(bytes: &[u8]) -> Found
    ensures value { result ≡ pieces.line_at bytes.now }
    ensures within { pieces.Advances (2 + length bytes.now) result }
{
    let len = line_len(bytes);
    if is_spliced(&bytes[..len]) {
        return Err(Wrong::SplicedComment);
    }
    if has_trigraph(&bytes[..len]) {
        return Err(Wrong::Trigraph);
    }
    Ok((Piece::Nothing, 2 + len))
}

/// A piece that ends among these bytes, with so many before it, or else is open.
fn ended(piece: Piece, len: usize, otherwise: Wrong, bytes: &[u8], rest: Option<usize>) -> Found
    requires room { IfSome rest (λ n. len + n < 2 ^ 64) }
    requires within { IfSome rest (λ n. n ≤ length bytes.now) }
    requires other { pieces.IsOther piece }
    requires some { 0 < len }
    ensures value { result ≡ pieces.piece_ended piece len otherwise bytes.now rest }
    ensures other { IfOk result (λ x. (0 < x.1) × pieces.IsOther x.0) }
{
    match rest {
        Some(more) => {
            if has_trigraph(&bytes[..more]) {
                Err(Wrong::Trigraph)
            } else {
                Ok((piece, len + more))
            }
        }
        None => Err(otherwise),
    }
}

/// Behind a stroke: a comment, or a mark. Both slices end alike.
#[tactic(auto, unfolding(crate::specs::Pieces::stroke_at))]
fn stroke(bytes: &[u8], rest: &[u8]) -> Found
    requires { 1 + length rest.now ≤ length bytes.now }
    ensures value { result ≡ pieces.stroke_at bytes.now rest.now }
    ensures within { pieces.Advances (length bytes.now) result }
{
    match rest {
        [b'/', rest @ ..] => line_comment(rest),
        [b'*', rest @ ..] => ended(
            Piece::Nothing,
            2,
            Wrong::OpenComment,
            rest,
            comment_len(rest),
        ),
        _ => marked(bytes),
    }
}

/// Behind a single quote: a byte that means itself, and another quote.
#[tactic(auto, unfolding(crate::specs::Pieces::letter_at))]
fn letter(bytes: &[u8]) -> Found
    ensures value { result ≡ pieces.letter_at bytes.now }
    ensures within { pieces.Advances (1 + length bytes.now) result }
{
    match bytes {
        [letter, quote, ..] => {
            if *quote == b'\''
                && *letter != b'\''
                && *letter != b'\\'
                && *letter != b'\n'
                && *letter < 128
            {
                Ok((Piece::Letter(*letter), 3))
            } else {
                Err(Wrong::NoWord)
            }
        }
        _ => Err(Wrong::NoWord),
    }
}

/// Behind `#include` and blanks, with so many bytes before it: a header.
#[tactic(auto, unfolding(crate::specs::Pieces::header_at))]
fn header(len: usize, bytes: &[u8]) -> Found
    requires { len + length bytes.now < 2 ^ 64 }
    ensures value { result ≡ pieces.header_at len bytes.now }
    ensures within { pieces.Advances (len + length bytes.now) result }
{
    match bytes {
        [b'<', rest @ ..] => ended(
            Piece::Include,
            len + 1,
            Wrong::OtherDirective,
            rest,
            closed_len(b'>', rest),
        ),
        [b'"', rest @ ..] => ended(
            Piece::Include,
            len + 1,
            Wrong::OtherDirective,
            rest,
            closed_len(b'"', rest),
        ),
        _ => Err(Wrong::OtherDirective),
    }
}

/// Behind `#pragma`, with so many bytes before it: OpenMP's.
#[tactic(auto, unfolding(crate::specs::Pieces::omp_at))]
fn omp(len: usize, bytes: &[u8]) -> Found
    requires some { 0 < len }
    requires room { len + length bytes.now < 2 ^ 64 }
    ensures value { result ≡ pieces.omp_at len (following bytes.now) }
    ensures within { pieces.Advances (len + length bytes.now) result }
{
    let (word, more) = next_word(bytes);
    match word {
        Some(Known::Omp) => Ok((Piece::Pragma, len + more)),
        _ => Err(Wrong::OtherDirective),
    }
}

/// A directive by its word, with so many bytes up to these.
#[tactic(auto, unfolding(crate::specs::Pieces::directive_by))]
fn directive_by(word: Option<Known>, len: usize, bytes: &[u8]) -> Found
    requires some { 0 < len }
    requires room { len + length bytes.now < 2 ^ 64 }
    ensures value { result ≡ pieces.directive_by word len bytes.now }
    ensures within { pieces.Advances (len + length bytes.now) result }
{
    match word {
        Some(Known::Define) => Ok((Piece::Define, len)),
        Some(Known::Include) => {
            let blanks = blank_len(bytes);
            header(len + blanks, &bytes[blanks..])
        }
        Some(Known::Pragma) => omp(len, bytes),
        _ => Err(Wrong::OtherDirective),
    }
}

/// Behind `#`, where only white space stands before it on its line.
#[tactic(auto, unfolding(crate::specs::Pieces::directive_at))]
fn directive(on: Line, bytes: &[u8]) -> Found
    requires { 1 + length bytes.now < 2 ^ 64 }
    ensures value { result ≡ pieces.directive_at on bytes.now }
    ensures within { pieces.Advances (1 + length bytes.now) result }
{
    match on {
        Line::Fresh => {
            let (word, len) = next_word(bytes);
            directive_by(word, 1 + len, &bytes[len..])
        }
        _ => Err(Wrong::NoWord),
    }
}

/// The piece at the front of a text.
#[tactic(auto, using(crate::proofs::SpanLemmas::name_ascii), unfolding(crate::specs::Pieces::front))]
pub(crate) fn front(on: Line, bytes: &[u8]) -> Found
    requires { 0 < length bytes.now }
    ensures value { result ≡ pieces.front on bytes.now }
    ensures within { IfOk result (λ x. (0 < x.1) × (x.1 ≤ length bytes.now) × pieces.AsciiIfName x.0 (take x.1 bytes.now)) }
{
    let first = bytes[0];
    let rest = &bytes[1..];
    if first == b'\n' {
        Ok((Piece::Feed, 1))
    } else if is_white(first) {
        Ok((Piece::Nothing, white_len(rest)))
    } else if first == b'\\' {
        splice(rest)
    } else if first == b'/' {
        stroke(bytes, rest)
    } else if first == b'#' {
        directive(on, rest)
    } else if first == b'"' {
        ended(Piece::Text, 1, Wrong::OpenText, rest, quoted_len(rest))
    } else if first == b'\'' {
        letter(rest)
    } else if is_letter(first) {
        Ok((Piece::Name, name_len(bytes)))
    } else if is_digit(first) {
        numeral(bytes)
    } else if begins_trigraph(bytes) {
        Err(Wrong::Trigraph)
    } else {
        marked(bytes)
    }
}
