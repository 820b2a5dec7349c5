//! Marks that have to stand at the front, and other words.
ghost use Rattle.std.specs.Prelude.{◌≡◌};
ghost use Rattle.ot_c_words.specs.Reading.{Gives};
ghost use Rattle.ot_c_words.specs.Reading as front;
ghost use Rattle.ot_c_statements.specs.declared.fault.Fault.TheVariants.{NoMark, NoName};
ghost use Rattle.ot_c_statements.specs.Reading as read;

use crate::fault::{Fault, ReadError};
use ot_c_words::{Mark, Name, Word};

/// What stands behind this mark, which comes next.
#[tactic(auto, unfolding(ot_c_words::specs::Reading::behind_mark))]
pub fn behind_mark(wanted: Mark, words: &[Word]) -> Result<&[Word], ReadError>
    ensures { Gives (λ x. x.now) result (front.behind_mark NoMark wanted words.now) }
{
    match words {
        [Word::Mark(mark), rest @ ..] if *mark == wanted => Ok(rest),
        _ => Err(ReadError::Fault(Fault::NoMark(words.len()))),
    }
}

/// What stands behind the end of a directive's line, which comes next.
#[tactic(auto, unfolding(crate::specs::Reading::end_at))]
pub fn directive_end(words: &[Word]) -> Result<&[Word], ReadError>
    ensures { Gives (λ x. x.now) result (read.end_at words.now) }
{
    match words {
        [Word::End, rest @ ..] => Ok(rest),
        _ => Err(ReadError::Fault(Fault::NoDirective(words.len()))),
    }
}

/// What stands behind a string that comes next.
#[tactic(auto, unfolding(crate::specs::Reading::text_at))]
pub fn text(words: &[Word]) -> Result<&[Word], ReadError>
    ensures { Gives (λ x. x.now) result (read.text_at words.now) }
{
    match words {
        [Word::Text, rest @ ..] => Ok(rest),
        _ => Err(ReadError::Fault(Fault::NoText(words.len()))),
    }
}

/// A name that comes next, and what stands behind it.
#[tactic(auto, unfolding(ot_c_words::specs::Reading::name_at))]
pub fn name(words: &[Word]) -> Result<(Name, &[Word]), ReadError>
    ensures { Gives (λ x. (x.0, x.1.now)) result (front.name_at NoName words.now) }
{
    match words {
        [Word::Name(name), rest @ ..] => Ok((*name, rest)),
        _ => Err(ReadError::Fault(Fault::NoName(words.len()))),
    }
}

/// Whether a comma stands here, and what is behind it.
#[tactic(auto, unfolding(crate::specs::Reading::another))]
pub fn another(words: &[Word]) -> (bool, &[Word])
    ensures { (result.0, result.1.now) ≡ read.another words.now }
{
    match words {
        [Word::Mark(Mark::Comma), rest @ ..] => (true, rest),
        _ => (false, words),
    }
}
