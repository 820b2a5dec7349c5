//! Books of new tenants, and a desk on which two of them lie.
ghost use Rattle.std.specs.Prelude.{◌≡◌, IfOk, None};

use ot_book::Book;
use ot_front::Desk;
use ot_store::{Limits, Store};
use std::alloc::{AllocError, Global};

/// How many requests a log takes.
pub(crate) const USUAL: u32 = 4_096;

/// A new tenant's book with usual limits, but that its log takes so many requests.
pub(crate) fn book_of(alloc: Global, name: &str, log: u32) -> Result<Book, AllocError>
    ensures name { IfOk result (λ book. book.name ≡ name.now) }
    ensures closed { IfOk result (λ book. book.pending ≡ None) }
{
    let limits = Limits {
        log,
        ..Limits::usual()
    };
    Book::new(alloc, name, limits, Store::empty(alloc))
}

/// A desk with the books of `t1` and `t2`, whose logs take so many requests each.
pub(crate) fn desk_of(alloc: Global, log: u32) -> Result<Desk, AllocError> {
    let mut books = Vec::new(alloc);
    books.push(book_of(alloc, "t1", log)?)?;
    books.push(book_of(alloc, "t2", log)?)?;
    Desk::new(alloc, books)
}
