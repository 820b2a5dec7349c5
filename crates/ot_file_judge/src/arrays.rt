//! The arrays that are there before a file.
ghost use Rattle.std.specs.Prelude.{◌≡◌, List, [], Ok, IfOk};
ghost use Rattle.ot_store.specs.Arrays.{Named};
ghost use Rattle.ot_store.specs.Refusals.{usual_limits};
ghost use Rattle.ot_model.specs.Programs.{arrays_of};
ghost use Rattle.ot_file_judge.specs.Judging.{finds, arrays_made};

use crate::fault::JudgeFault;
use ot_book::Book;
use ot_model::ArrayShape;
use ot_program::is_name;
use ot_store::{Limits, Store, StoreFault};
use std::alloc::Global;

/// The book that a file finds where these arrays are there, each cell 0.
pub(crate) fn book_with(alloc: Global, arrays: &[ArrayShape]) -> Result<Book, JudgeFault>
    ensures { IfOk result (λ book. (now : List Named) × (arrays_made [] (arrays_of arrays.now) ≡ Ok now) × (book ≡ finds now)) }
{
    let limits = Limits::usual();
    let store = store_with(alloc, arrays, &limits)?;
    Ok(Book::new(alloc, "t1", limits, store)?)
}

/// The arrays, made in order.
fn store_with(alloc: Global, arrays: &[ArrayShape], limits: &Limits) -> Result<Store, JudgeFault>
    requires { limits.now ≡ usual_limits }
    ensures { IfOk result (λ store. arrays_made [] (arrays_of arrays.now) ≡ Ok store) }
{
    let mut store = Store::empty(alloc);
    for (place, array) in arrays.iter().enumerate() {
        if array.len == 0 || !is_name(array.name.as_str()) {
            return Err(JudgeFault::Array(place));
        }
        match store.create(alloc, array.name.as_str(), array.len, limits) {
            Ok(()) => {}
            Err(StoreFault::Memory) => return Err(JudgeFault::Memory),
            Err(StoreFault::Refused(_)) => return Err(JudgeFault::Array(place)),
        }
    }
    Ok(store)
}
