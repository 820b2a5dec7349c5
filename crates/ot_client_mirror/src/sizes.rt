//! Arrays of the sizes that replies tell, and what lines make of them.
ghost use Rattle.std.specs.Prelude.{◌≡◌, IfOk, MatchOption, option_map};
ghost use Rattle.ot_model.specs.Programs.{arrays_of};
ghost use Rattle.ot_store.specs.Arrays.{arrays_listed};
ghost use Rattle.ot_book.specs.ReplyView.{told_of};
ghost use Rattle.ot_client_mirror.specs.Given.{Given, ran_out};
ghost use Rattle.ot_book.specs.Books.{last_told};
ghost use Rattle.ot_client_mirror.specs.Mirrors.{MayHave, sizes_sent};

use ot_book::{Book, Opened, Told};
use ot_model::ArrayShape;
use ot_store::{Limits, Store, StoreFault};
use std::alloc::{AllocError, Global};

/// Arrays of these names and lengths, where a tenant may have such.
pub(crate) fn store_of(alloc: Global, arrays: &[ArrayShape]) -> Result<Option<Store>, AllocError>
    ensures { IfOk result (λ store. MatchOption store (¬ (MayHave (arrays_of arrays.now)))
        (λ s. (arrays_listed s ≡ arrays_of arrays.now) × MayHave (arrays_of arrays.now))) }
{
    let limits = Limits::usual();
    let mut store = Store::empty(alloc);
    for array in arrays {
        if array.len == 0 {
            return Ok(None);
        }
        match store.create(alloc, array.name.as_str(), array.len, &limits) {
            Ok(()) => {}
            Err(StoreFault::Memory) => return Err(AllocError),
            Err(StoreFault::Refused(_)) => return Ok(None),
        }
    }
    Ok(Some(store))
}

/// A book that begins with these arrays, with the line as its one request. A program that it would run is given up.
pub(crate) fn book_behind(alloc: Global, store: &Store, line: &[u8]) -> Result<Book, AllocError>
    ensures { IfOk result (Given store.now line.now) }
{
    let mut book = Book::new(alloc, "", Limits::usual(), store.copy(alloc)?)?;
    match book.open(alloc, line)? {
        Opened::ToRun(spec) => {
            book.forget(spec);
            Ok(book)
        }
        Opened::Answered => Ok(book),
        Opened::Full => unreachable!(),
    }
}

/// What the book told last.
pub(crate) fn told_last(book: &Book) -> Option<&Told>
    ensures { option_map (λ told. told_of told.now) result ≡ last_told book.now }
{
    let reply = book.reply_at(book.log().len().saturating_sub(1))?;
    Some(reply.told)
}

/// Whether it told that memory ran out.
fn ran_out(book: &Book) -> bool
    ensures { result ≡ ran_out book.now }
{
    matches!(told_last(book), Some(Told::Lost))
}

/// The arrays behind a line that a tenant with such arrays sends, where no program is run.
pub(crate) fn store_behind(alloc: Global, store: &Store, line: &[u8]) -> Result<Store, AllocError>
    ensures { IfOk result (λ new. arrays_listed new ≡ sizes_sent (arrays_listed store.now) line.now) }
{
    let book = book_behind(alloc, store, line)?;
    if ran_out(&book) {
        return Err(AllocError);
    }
    book.store().copy(alloc)
}
