//! Functions that are known by their bodies: what `min` and `max` give, and what `show` prints. They read so but for
//! their parameters' names.
ghost use Rattle.std.specs.Prelude.{◌≡◌};
ghost use Rattle.ot_c_words.specs.Reading.{Gives};
ghost use Rattle.ot_c_expressions.specs.Signs.{view_of_found as seen};
ghost use Rattle.ot_c_files.specs.Known as read;

use crate::declaration::static_end;
use crate::fixed::{
    const_word, for_word, letter, own_name, printf_word, return_word, this_name, zero,
};
use ot_c_statements::marks::{behind_mark, text};
use ot_c_statements::{Fault, ReadError, integer_type};
use ot_c_words::{IntegerType, Known, Mark, Name, Word};

/// A function that is known.
#[derive(Clone, Copy)]
pub(crate) enum Function {
    Min,
    Max,
    Show,
}

/// `uint64_t x`, or another name for the type.
#[tactic(auto, unfolding(crate::specs::Known::word_at))]
fn word(words: &[Word]) -> Result<(usize, &[Word]), ReadError>
    ensures { Gives (λ x. (x.0, x.1.now)) result (read.word_at words.now) }
{
    let (kind, rest) = integer_type(words)?;
    match kind {
        IntegerType::UnsignedLong => own_name(rest),
        IntegerType::Int | IntegerType::Unsigned | IntegerType::Long => {
            Err(ReadError::Fault(Fault::NoType(words.len())))
        }
    }
}

/// `(uint64_t x, uint64_t y) {`
#[tactic(auto, unfolding(crate::specs::Known::sides_at))]
fn sides(words: &[Word]) -> Result<(usize, usize, &[Word]), ReadError>
    ensures { Gives (λ x. (x.0, x.1, x.2.now)) result (read.sides_at words.now) }
{
    let rest = behind_mark(Mark::Open, words)?;
    let (one, rest) = word(rest)?;
    let rest = behind_mark(Mark::Comma, rest)?;
    let (two, rest) = word(rest)?;
    let rest = behind_mark(Mark::Close, rest)?;
    let rest = behind_mark(Mark::OpenBlock, rest)?;
    if one == two {
        Err(ReadError::Fault(Fault::NoName(rest.len())))
    } else {
        Ok((one, two, rest))
    }
}

/// `return x < y ? x : y; }`, or the other way about.
#[tactic(auto, unfolding(crate::specs::Known::chosen_at))]
fn chosen(
    one: usize,
    two: usize,
    first: usize,
    second: usize,
    words: &[Word],
) -> Result<&[Word], ReadError>
    ensures { Gives (λ x. x.now) result (read.chosen_at one two first second words.now) }
{
    let rest = return_word(words)?;
    let rest = this_name(one, rest)?;
    let rest = behind_mark(Mark::Less, rest)?;
    let rest = this_name(two, rest)?;
    let rest = behind_mark(Mark::Question, rest)?;
    let rest = this_name(first, rest)?;
    let rest = behind_mark(Mark::Colon, rest)?;
    let rest = this_name(second, rest)?;
    let rest = behind_mark(Mark::Semicolon, rest)?;
    behind_mark(Mark::CloseBlock, rest)
}

/// Behind `min`.
#[tactic(auto, unfolding(crate::specs::Known::min_at))]
fn min(words: &[Word]) -> Result<&[Word], ReadError>
    ensures { Gives (λ x. x.now) result (read.min_at words.now) }
{
    let (one, two, rest) = sides(words)?;
    chosen(one, two, one, two, rest)
}

/// Behind `max`.
#[tactic(auto, unfolding(crate::specs::Known::max_at))]
fn max(words: &[Word]) -> Result<&[Word], ReadError>
    ensures { Gives (λ x. x.now) result (read.max_at words.now) }
{
    let (one, two, rest) = sides(words)?;
    chosen(one, two, two, one, rest)
}

/// `(const uint64_t *cells, size_t count) {`
#[tactic(auto, unfolding(crate::specs::Known::shown_at))]
fn shown(words: &[Word]) -> Result<(usize, usize, &[Word]), ReadError>
    ensures { Gives (λ x. (x.0, x.1, x.2.now)) result (read.shown_at words.now) }
{
    let rest = behind_mark(Mark::Open, words)?;
    let rest = const_word(rest)?;
    let (_, rest) = integer_type(rest)?;
    let rest = behind_mark(Mark::Times, rest)?;
    let (cells, rest) = own_name(rest)?;
    let rest = behind_mark(Mark::Comma, rest)?;
    let (count, rest) = word(rest)?;
    let rest = behind_mark(Mark::Close, rest)?;
    let rest = behind_mark(Mark::OpenBlock, rest)?;
    Ok((cells, count, rest))
}

/// `for (size_t i = 0; i < count; i++)`
#[tactic(auto, unfolding(crate::specs::Known::each_at))]
fn each(count: usize, words: &[Word]) -> Result<(usize, &[Word]), ReadError>
    ensures { Gives (λ x. (x.0, x.1.now)) result (read.each_at count words.now) }
{
    let rest = for_word(words)?;
    let rest = behind_mark(Mark::Open, rest)?;
    let (place, rest) = word(rest)?;
    let rest = behind_mark(Mark::Assign, rest)?;
    let rest = zero(rest)?;
    let rest = behind_mark(Mark::Semicolon, rest)?;
    let rest = this_name(place, rest)?;
    let rest = behind_mark(Mark::Less, rest)?;
    let rest = this_name(count, rest)?;
    let rest = behind_mark(Mark::Semicolon, rest)?;
    let rest = this_name(place, rest)?;
    let rest = behind_mark(Mark::Increment, rest)?;
    let rest = behind_mark(Mark::Close, rest)?;
    Ok((place, rest))
}

/// `i == 0 ? '[' : ',', `
#[tactic(auto, unfolding(crate::specs::Known::mark_at))]
fn mark(place: usize, words: &[Word]) -> Result<&[Word], ReadError>
    ensures { Gives (λ x. x.now) result (read.mark_at place words.now) }
{
    let rest = this_name(place, words)?;
    let rest = behind_mark(Mark::Equal, rest)?;
    let rest = zero(rest)?;
    let rest = behind_mark(Mark::Question, rest)?;
    let rest = letter(b'[', rest)?;
    let rest = behind_mark(Mark::Colon, rest)?;
    let rest = letter(b',', rest)?;
    behind_mark(Mark::Comma, rest)
}

/// `printf("%c%" PRIu64, i == 0 ? '[' : ',', cells[i]);`
#[tactic(auto, unfolding(crate::specs::Known::cell_at))]
fn cell(cells: usize, place: usize, words: &[Word]) -> Result<&[Word], ReadError>
    ensures { Gives (λ x. x.now) result (read.cell_at cells place words.now) }
{
    let rest = printf_word(words)?;
    let rest = behind_mark(Mark::Open, rest)?;
    let rest = text(rest)?;
    let (_, rest) = own_name(rest)?;
    let rest = behind_mark(Mark::Comma, rest)?;
    let rest = mark(place, rest)?;
    let rest = this_name(cells, rest)?;
    let rest = behind_mark(Mark::OpenIndex, rest)?;
    let rest = this_name(place, rest)?;
    let rest = behind_mark(Mark::CloseIndex, rest)?;
    let rest = behind_mark(Mark::Close, rest)?;
    behind_mark(Mark::Semicolon, rest)
}

/// `printf("]"); }`
#[tactic(auto, unfolding(crate::specs::Known::ended_at))]
fn ended(words: &[Word]) -> Result<&[Word], ReadError>
    ensures { Gives (λ x. x.now) result (read.ended_at words.now) }
{
    let rest = printf_word(words)?;
    let rest = behind_mark(Mark::Open, rest)?;
    let rest = text(rest)?;
    let rest = behind_mark(Mark::Close, rest)?;
    let rest = behind_mark(Mark::Semicolon, rest)?;
    behind_mark(Mark::CloseBlock, rest)
}

/// Behind `show`.
#[tactic(auto, unfolding(crate::specs::Known::show_at))]
fn show(words: &[Word]) -> Result<&[Word], ReadError>
    ensures { Gives (λ x. x.now) result (read.show_at words.now) }
{
    let (cells, count, rest) = shown(words)?;
    let (place, rest) = each(count, rest)?;
    let rest = cell(cells, place, rest)?;
    ended(rest)
}

/// Which function it is, by its type and its name.
#[tactic(auto, unfolding(crate::specs::Known::which))]
fn which(kind: Name, name: Name) -> Option<Function>
    ensures { result ≡ read.which kind name }
{
    match (kind, name) {
        (Name::Known(Known::Word64), Name::Known(Known::Min)) => Some(Function::Min),
        (Name::Known(Known::Word64), Name::Known(Known::Max)) => Some(Function::Max),
        (Name::Known(Known::Void), Name::Known(Known::Show)) => Some(Function::Show),
        _ => None,
    }
}

/// Which function begins behind `static`, if that stands there, and what is behind its name.
#[tactic(auto, unfolding(crate::specs::Known::begun_at))]
fn begun(words: &[Word]) -> Option<(Function, &[Word])>
    ensures { seen (λ x. (x.0, x.1.now)) result ≡ read.begun_at words.now }
{
    match words {
        [Word::Name(kind), Word::Name(name), rest @ ..] => match which(*kind, *name) {
            Some(function) => Some((function, rest)),
            None => None,
        },
        _ => None,
    }
}

/// Which known function begins here, and what is behind its name.
pub(crate) fn known_begin(words: &[Word]) -> Option<(Function, &[Word])>
    ensures { seen (λ x. (x.0, x.1.now)) result ≡ read.known_begin words.now }
{
    match static_end(words) {
        Some(rest) => begun(rest),
        None => begun(words),
    }
}

/// Behind the name of a known function: its parameters and its body.
pub(crate) fn known_end(function: Function, words: &[Word]) -> Result<&[Word], ReadError>
    ensures { Gives (λ x. x.now) result (read.known_end function words.now) }
{
    match function {
        Function::Min => min(words),
        Function::Max => max(words),
        Function::Show => show(words),
    }
}
