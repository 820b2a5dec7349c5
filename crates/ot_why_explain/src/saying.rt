//! Remarks for whoever writes them himself.
ghost use Rattle.std.specs.Prelude.{◌≡◌, IfOk};
ghost use Rattle.ot_why_explain.specs.Explaining.{last_code, AreOn, OpensWith};

use crate::remarks::{remarks_on_last, sentence};
use crate::telling::remarked;
use ot_book::Book;
use std::alloc::{AllocError, Global};

/// What `explain` writes behind the reply to the last request of a book: lines that begin with `# `, the first of them
/// with the code, where it was refused, and else nothing.
pub fn remarks_on(alloc: Global, book: &Book) -> Result<Vec<u8>, AllocError>
    ensures { IfOk result (λ text. AreOn (last_code book.now) text.items) }
{
    match remarks_on_last(alloc, book)? {
        Some(remarks) => remarked(alloc, remarks.as_bytes()),
        None => Ok(Vec::new(alloc)),
    }
}

/// The first of these lines alone: the code, and what it means.
pub fn heading(alloc: Global, code: u32) -> Result<Vec<u8>, AllocError>
    ensures { IfOk result (λ text. OpensWith code text.items) }
{
    let sentence = sentence(alloc, code)?;
    remarked(alloc, sentence.as_bytes())
}
