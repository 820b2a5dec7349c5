//! Words that have to stand at the front of what is read of a known function.
ghost use Rattle.std.specs.Prelude.{◌≡◌};
ghost use Rattle.ot_c_words.specs.Reading.{Gives};
ghost use Rattle.ot_c_files.specs.Fixed as read;

use ot_c_statements::{Fault, ReadError};
use ot_c_words::{Known, Name, Word};

#[tactic(auto, unfolding(crate::specs::Fixed::return_at))]
pub(crate) fn return_word(words: &[Word]) -> Result<&[Word], ReadError>
    ensures { Gives (λ x. x.now) result (read.return_at words.now) }
{
    match words {
        [Word::Name(Name::Known(Known::Return)), rest @ ..] => Ok(rest),
        _ => Err(ReadError::Fault(Fault::NoMark(words.len()))),
    }
}

#[tactic(auto, unfolding(crate::specs::Fixed::const_at))]
pub(crate) fn const_word(words: &[Word]) -> Result<&[Word], ReadError>
    ensures { Gives (λ x. x.now) result (read.const_at words.now) }
{
    match words {
        [Word::Name(Name::Known(Known::Const)), rest @ ..] => Ok(rest),
        _ => Err(ReadError::Fault(Fault::NoMark(words.len()))),
    }
}

#[tactic(auto, unfolding(crate::specs::Fixed::for_at))]
pub(crate) fn for_word(words: &[Word]) -> Result<&[Word], ReadError>
    ensures { Gives (λ x. x.now) result (read.for_at words.now) }
{
    match words {
        [Word::Name(Name::Known(Known::For)), rest @ ..] => Ok(rest),
        _ => Err(ReadError::Fault(Fault::NoMark(words.len()))),
    }
}

#[tactic(auto, unfolding(crate::specs::Fixed::printf_at))]
pub(crate) fn printf_word(words: &[Word]) -> Result<&[Word], ReadError>
    ensures { Gives (λ x. x.now) result (read.printf_at words.now) }
{
    match words {
        [Word::Name(Name::Known(Known::Printf)), rest @ ..] => Ok(rest),
        _ => Err(ReadError::Fault(Fault::NoMark(words.len()))),
    }
}

#[tactic(auto, unfolding(crate::specs::Fixed::zero_at))]
pub(crate) fn zero(words: &[Word]) -> Result<&[Word], ReadError>
    ensures { Gives (λ x. x.now) result (read.zero_at words.now) }
{
    match words {
        [Word::Number(number, _), rest @ ..] => {
            if *number == 0 {
                Ok(rest)
            } else {
                Err(ReadError::Fault(Fault::NoMark(words.len())))
            }
        }
        _ => Err(ReadError::Fault(Fault::NoMark(words.len()))),
    }
}

/// A character between single quotes.
#[tactic(auto, unfolding(crate::specs::Fixed::letter_at))]
pub(crate) fn letter(wanted: u8, words: &[Word]) -> Result<&[Word], ReadError>
    ensures { Gives (λ x. x.now) result (read.letter_at wanted words.now) }
{
    match words {
        [Word::Letter(byte), rest @ ..] => {
            if *byte == wanted {
                Ok(rest)
            } else {
                Err(ReadError::Fault(Fault::NoMark(words.len())))
            }
        }
        _ => Err(ReadError::Fault(Fault::NoMark(words.len()))),
    }
}

/// A name that means nothing by itself.
#[tactic(auto, unfolding(crate::specs::Fixed::own_name_at))]
pub(crate) fn own_name(words: &[Word]) -> Result<(usize, &[Word]), ReadError>
    ensures { Gives (λ x. (x.0, x.1.now)) result (read.own_name_at words.now) }
{
    match words {
        [Word::Name(Name::Other(number)), rest @ ..] => Ok((*number, rest)),
        _ => Err(ReadError::Fault(Fault::NoName(words.len()))),
    }
}

/// This name.
#[tactic(auto, unfolding(crate::specs::Fixed::this_name_at))]
pub(crate) fn this_name(wanted: usize, words: &[Word]) -> Result<&[Word], ReadError>
    ensures { Gives (λ x. x.now) result (read.this_name_at wanted words.now) }
{
    match words {
        [Word::Name(Name::Other(number)), rest @ ..] => {
            if *number == wanted {
                Ok(rest)
            } else {
                Err(ReadError::Fault(Fault::NoName(words.len())))
            }
        }
        _ => Err(ReadError::Fault(Fault::NoName(words.len()))),
    }
}
