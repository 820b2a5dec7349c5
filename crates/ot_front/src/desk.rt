//! The desk on which the tenants' books lie while no session has them.
ghost use Rattle.std.specs.Prelude.{◌≡◌, ◌≢◌, ◌<◌, ◌^◌, List, ℕ, None, Some, Err, map, vec_len, string_bytes, All, IfOk, IfErr, IfSome, OnOk, option_map};
ghost use Rattle.ot_front.specs.Desks.{AreDistinct, IsKnown, IsDeskOf};

use ot_book::Book;
use std::alloc::{AllocError, Global};
use std::marker::Model;
use std::sync::{Mutex, Wait};
use thiserror::Error;

/// A book that lies on the desk. No request of it is open.
#[derive(Drop)]
struct Resting {
    book: Book,
    ghost closed: { book.pending ≡ None },
}

/// The books of all tenants, each at a place of its own. A book is taken for a session and given back
/// after it. The names and their order never change.
#[derive(Drop)]
pub struct Desk {
    names: Vec<String>,
    places: Mutex<Vec<Option<Resting>>>,
}

impl Model for Desk {
    ghost Value = { List (List ℕ) };

    ghost view = { λ d. map string_bytes d.names.items };

    ghost invariant = { λ d. (vec_len d.names < 2 ^ 32) × AreDistinct (map string_bytes d.names.items) };
}

/// Why no book is given.
#[derive(Clone, Copy, Debug, PartialEq, Eq, Error)]
pub enum DeskFault {
    /// There is no tenant of that name.
    #[error("404: unknown tenant")]
    Unknown,
    /// Another session has the tenant's book.
    #[error("409: busy tenant")]
    Busy,
}

impl Desk {
    /// A desk on which these books lie.
    pub fn new(alloc: Global, books: Vec<Book>) -> Result<Desk, AllocError>
        requires few { vec_len books < 2 ^ 32 }
        requires distinct { AreDistinct (map (λ book. book.name) books.items) }
        requires closed { All (λ book. book.pending ≡ None) books.items }
        ensures { IfOk result (λ desk. desk ≡ map (λ book. book.name) books.items) }
    {
        let names = names_of(alloc, &books)?;
        let places = lay_out(alloc, books)?;
        Ok(Desk {
            names,
            places: Mutex::new(places),
        })
    }

    /// The tenant's number: its place, counted from 0, among the books handed to `new`. It waits for
    /// nobody.
    pub fn position(&self, name: &str) -> Option<u32>
        ensures { IsDeskOf self.now name.now result }
    {
        for (at, known) in self.names.iter().enumerate() {
            if known.as_str() == name {
                return Some(at as u32);
            }
        }
        None
    }

    /// Takes the book of a tenant. It is unknown exactly where the desk has no such name, and otherwise
    /// busy where its book is out.
    pub fn take<R: Wait>(&self, rt: &R, name: &str) -> Result<Book, DeskFault>
        ensures unknown { result ≡ Err DeskFault.Unknown → ¬ (IsKnown self.now name.now) }
        ensures known { result ≢ Err DeskFault.Unknown → IsKnown self.now name.now }
        ensures named { IfOk result (λ book. book.name ≡ name.now) }
        ensures closed { IfOk result (λ book. book.pending ≡ None) }
    {
        let Some(at) = self.position(name) else {
            return Err(DeskFault::Unknown);
        };
        let mut places = self.places.lock(rt);
        let Some(place) = places.get_mut(at as usize) else {
            return Err(DeskFault::Busy);
        };
        match take_from(place, name) {
            Some(book) => Ok(book),
            None => Err(DeskFault::Busy),
        }
    }

    /// Lays the book of a tenant back to its place. Where it isn't out, or the desk has no such name, the
    /// book handed in is the answer.
    pub fn give_back<R: Wait>(&self, rt: &R, book: Book) -> Result<(), Book>
        requires { book.pending ≡ None }
        ensures known { OnOk result (IsKnown self.now book.name) }
        ensures refused { IfErr result (λ back. back ≡ book) }
    {
        let Some(at) = self.position(book.name()) else {
            return Err(book);
        };
        let mut places = self.places.lock(rt);
        let Some(place) = places.get_mut(at as usize) else {
            return Err(book);
        };
        lay_on(place, book)
    }
}

/// The names of the books, in order.
fn names_of(alloc: Global, books: &[Book]) -> Result<Vec<String>, AllocError>
    ensures { IfOk result (λ names. map string_bytes names.items ≡ map (λ book. book.name) books.now) }
{
    let mut names = Vec::with_capacity(alloc, books.len())?;
    for book in books {
        names.push(String::from_str(alloc, book.name())?)?;
    }
    Ok(names)
}

/// The books, each at a place.
fn lay_out(alloc: Global, books: Vec<Book>) -> Result<Vec<Option<Resting>>, AllocError>
    requires { All (λ book. book.pending ≡ None) books.items }
{
    let mut places = Vec::with_capacity(alloc, books.len())?;
    for book in books {
        places.push(Some(at_rest(book)))?;
    }
    Ok(places)
}

fn at_rest(book: Book) -> Resting
    requires { book.pending ≡ None }
    ensures { result.book ≡ book }
{
    Resting { book }
}

/// Takes the book from a place where one of that name lies.
fn take_from(place: &mut Option<Resting>, name: &str) -> Option<Book>
    ensures taken { IfSome result (λ book. (option_map (λ r. r.book) place.old ≡ Some book) × (place.new ≡ None)) }
    ensures named { IfSome result (λ book. book.name ≡ name.now) }
    ensures closed { IfSome result (λ book. book.pending ≡ None) }
    ensures left { result ≡ None → (place.new ≡ place.old) × IfSome place.old (λ r. ¬ (r.book.name ≡ name.now)) }
{
    match place {
        Some(resting) if resting.book.name() == name => {}
        _ => return None,
    }
    let Some(Resting { book }) = place.take() else {
        unreachable!()
    };
    Some(book)
}

/// Lays a book on a place where none lies.
fn lay_on(place: &mut Option<Resting>, book: Book) -> Result<(), Book>
    requires { book.pending ≡ None }
    ensures laid { OnOk result ((place.old ≡ None) × (option_map (λ r. r.book) place.new ≡ Some book)) }
    ensures refused { IfErr result (λ back. (back ≡ book) × (place.old ≢ None) × (place.new ≡ place.old)) }
{
    if place.is_some() {
        return Err(book);
    }
    *place = Some(at_rest(book));
    Ok(())
}
