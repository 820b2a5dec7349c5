//! What is said of a refusal.
ghost use Rattle.std.specs.Prelude.{◌≡◌, IfOk, IsTrue, Some};
ghost use Rattle.ot_book.specs.ReplyView.{told_of};
ghost use Rattle.ot_why_explain.specs.Explaining.{OpensWith, last_code};
ghost use Rattle.ot_client_mirror.specs.HeardView.{told_as_refusal};

use crate::heard::Refusal;
use crate::sizes::{book_behind, told_last};
use ot_book::{Book, Told};
use ot_store::Store;
use ot_why_explain::{heading, remarks_on};
use std::alloc::{AllocError, Global};

/// Whether a book tells this refusal.
fn is_told(refusal: Refusal, told: &Told) -> bool
    ensures { IsTrue result → told_of told.now ≡ told_as_refusal refusal }
{
    match told {
        Told::Refused(code) => refusal.place.is_none() && code.number() == refusal.code,
        Told::Offends(offence, place) => {
            refusal.place == Some(*place) && offence.code() == refusal.code
        }
        _ => false,
    }
}

/// Whether it is the last that a book told.
fn is_last(refusal: Refusal, book: &Book) -> bool
    ensures { IsTrue result → last_code book.now ≡ Some refusal.code }
{
    match told_last(book) {
        Some(told) => is_told(refusal, told),
        None => false,
    }
}

/// The remarks on a refusal of a line that a tenant with such arrays sent: those on the same refusal by a book, where it
/// gives that, and else the code and its meaning.
pub(crate) fn remarks_on_refusal(
    alloc: Global,
    store: &Store,
    line: &[u8],
    refusal: Refusal,
) -> Result<Vec<u8>, AllocError>
    ensures { IfOk result (λ text. OpensWith refusal.code text.items) }
{
    let book = book_behind(alloc, store, line)?;
    if is_last(refusal, &book) {
        return remarks_on(alloc, &book);
    }
    heading(alloc, refusal.code)
}
