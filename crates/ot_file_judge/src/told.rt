//! What a book told last.
ghost use Rattle.std.specs.Prelude.{◌≡◌, option_map};
ghost use Rattle.ot_book.specs.ReplyView.{told_of};
ghost use Rattle.ot_book.specs.Books.{last_told};
ghost use Rattle.ot_book.specs.Answers.{code_in};

use ot_book::{Book, Told};

/// What was told last.
pub(crate) fn told_last(book: &Book) -> Option<&Told>
    ensures { option_map (λ told. told_of told.now) result ≡ last_told book.now }
{
    match book.reply_at(book.log().len().saturating_sub(1)) {
        Some(reply) => Some(reply.told),
        None => None,
    }
}

/// The code of a refusal.
pub(crate) fn code_of(told: &Told) -> Option<u32>
    ensures { result ≡ code_in (told_of told.now) }
{
    match told {
        Told::Refused(code) => Some(code.number()),
        Told::Offends(offence, _) => Some(offence.code()),
        Told::Lost => Some(508),
        _ => None,
    }
}
