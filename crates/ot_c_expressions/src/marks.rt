//! A mark that has to stand at the front, and a name.
ghost use Rattle.ot_c_words.specs.Reading.{Gives};
ghost use Rattle.ot_c_words.specs.Reading as front;
ghost use Rattle.ot_c_expressions.specs.declared.fault.Fault.TheVariants.{NoMark, NoName};

use crate::fault::{Fault, ReadError};
use ot_c_words::{Mark, Name, Word};

/// What stands behind this mark, which comes next.
#[tactic(auto, unfolding(ot_c_words::specs::Reading::behind_mark))]
pub(crate) fn behind_mark(wanted: Mark, words: &[Word]) -> Result<&[Word], ReadError>
    ensures { Gives (λ x. x.now) result (front.behind_mark NoMark wanted words.now) }
{
    match words {
        [Word::Mark(mark), rest @ ..] if *mark == wanted => Ok(rest),
        _ => Err(ReadError::Fault(Fault::NoMark(words.len()))),
    }
}

/// A name that comes next, and what stands behind it.
#[tactic(auto, unfolding(ot_c_words::specs::Reading::name_at))]
pub(crate) fn name(words: &[Word]) -> Result<(Name, &[Word]), ReadError>
    ensures { Gives (λ x. (x.0, x.1.now)) result (front.name_at NoName words.now) }
{
    match words {
        [Word::Name(name), rest @ ..] => Ok((*name, rest)),
        _ => Err(ReadError::Fault(Fault::NoName(words.len()))),
    }
}
