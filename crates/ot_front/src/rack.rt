//! Where the books of tenants come from and go back to, as one connection sees it.
ghost use Rattle.std.specs.Prelude.{◌≡◌, ◌≢◌, ℕ, List, Option, None, Err, IfOk, OnErr};
ghost use Rattle.ot_front.specs.Desks.{IsKnown, IsDeskOf};
ghost use Rattle.ot_front.specs.Racks.{Moves, with_taken, with_laid};
ghost use Rattle.ot_front.specs.declared.desk.DeskFault.TheVariants.{Unknown};

use crate::desk::{Desk, DeskFault};
use ot_book::Book;
use std::sync::Wait;

/// The books of tenants, each taken for a session and laid back after it.
///
/// It tells, for proofs alone, which books went and came back, or nothing of them. A connection is proved for
/// every rack, and so for one that tells: what it does with books it does at the desk too, which tells none.
pub(crate) trait Rack {
    // The tenants' names, in order.
    ghost names: { Self → List (List ℕ) };

    // The books that were taken and those that were laid back, where they are told.
    ghost moves: { Self → Option Moves };

    /// The tenant's number, as `Desk::position`.
    fn position(&self, name: &str) -> Option<u32>
        ensures { IsDeskOf (names self.now) name.now result };

    /// Takes the tenant's book, as `Desk::take`.
    fn take(&mut self, name: &str) -> Result<Book, DeskFault>
        ensures unknown { result ≡ Err Unknown → ¬ (IsKnown (names self.old) name.now) }
        ensures known { result ≢ Err Unknown → IsKnown (names self.old) name.now }
        ensures named { IfOk result (λ book. book.name ≡ name.now) }
        ensures closed { IfOk result (λ book. book.pending ≡ None) }
        ensures names { names self.new ≡ names self.old }
        ensures taken { IfOk result (λ book. moves self.new ≡ with_taken book (moves self.old)) }
        ensures untaken { OnErr result (moves self.new ≡ moves self.old) };

    /// Lays a book back of which no request is open.
    fn lay_back(&mut self, book: Book)
        requires { book.pending ≡ None }
        ensures names { names self.new ≡ names self.old }
        ensures laid { moves self.new ≡ with_laid book (moves self.old) };
}

/// The desk as a rack. A book whose place isn't free any more is let go; none is, while each is laid back once.
#[derive(Drop)]
pub(crate) struct OnDesk<'a, T: Wait> {
    pub rt: &'a T,
    pub desk: &'a Desk,
}

impl<'a, T: Wait> Rack for OnDesk<'a, T> {
    ghost names = { λ s. s.desk.now };

    ghost moves = { λ s. None };

    fn position(&self, name: &str) -> Option<u32> {
        self.desk.position(name)
    }

    fn take(&mut self, name: &str) -> Result<Book, DeskFault> {
        self.desk.take(self.rt, name)
    }

    fn lay_back(&mut self, book: Book) {
        let _ = self.desk.give_back(self.rt, book);
    }
}
