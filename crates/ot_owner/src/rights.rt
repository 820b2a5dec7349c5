//! The rights that are out.
ghost use Rattle.std.specs.Prelude.{◌≡◌, ◌↔◌, Contains, IsTrue, Some, ◌≤◌, ◌+◌, ◌∷◌, [], OnOk, None, IsPermutation};
ghost use Rattle.slab.specs.Slab.{get, values};
ghost use Rattle.ot_owner.specs.Owning.{loan_of, IsFreeFor};

use crate::lent::{Keyed, LentCell};
use crate::right::Right;
use ot_model::Decl;
use slab::Slab;
use std::alloc::{AllocError, Global};
use std::marker::Model;

/// A right with the worker to whom it is out.
#[derive(Debug, Drop)]
pub(crate) struct Loan {
    pub(crate) worker: u32,
    pub(crate) right: Right,
}

impl Model for Loan {
    ghost use Rattle.ot_owner.specs.Owning.{Loan};

    ghost Value = { Loan };

    ghost view = { λ l. record { worker = l.worker; lease = l.right } };
}

impl Loan {
    ghost use Rattle.ot_model.specs.Cells.{Conflict};

    /// Whether what may be done by it conflicts with the declaration.
    fn conflicts(&self, decl: &Decl) -> bool
        ensures { IsTrue result ↔ Conflict self.now.lease.uses decl.now }
    {
        self.right.conflicts(decl)
    }
}

/// The rights that are out, each under a key. What is lent with a right knows its key: so no right
/// passes over the others where it comes or ends.
#[derive(Debug, Drop)]
pub(crate) struct Rights {
    loans: Slab<Loan>,
}

impl Rights {
    ghost use Rattle.ot_owner.specs.Kept.{loans_in, loan_at, spare_in};
    ghost use Rattle.ot_owner.specs.Lending.{lease_of};

    /// No right is out. It takes no memory.
    pub(crate) fn new(alloc: Global) -> Rights
        ensures { loans_in result ≡ [] }
    {
        Rights {
            loans: Slab::new(alloc),
        }
    }

    /// Whether no right conflicts with the declaration. It looks at each right.
    pub(crate) fn is_free_for(&self, decl: &Decl) -> bool
        ensures { IsTrue result ↔ IsFreeFor (loans_in self.now) decl.now }
    {
        for (_key, loan) in self.loans.iter() {
            if loan.conflicts(decl) {
                return false;
            }
        }
        true
    }

    /// Makes a place for one right more.
    pub(crate) fn make(&mut self) -> Result<(), AllocError>
        ensures same { loans_in self.new ≡ loans_in self.old }
        ensures made { OnOk result (1 ≤ spare_in self.new) }
    {
        self.loans.reserve(1)
    }

    /// One right more, and its key. It takes no memory.
    pub(crate) fn put(&mut self, loan: Loan) -> usize
        requires { 1 ≤ spare_in self.old }
        ensures put { IsPermutation (loan ∷ loans_in self.old) (loans_in self.new) }
        ensures key { loan_at self.new result ≡ Some loan }
    {
        self.loans.insert_reserved(loan)
    }

    /// Takes one right to these cells that is out to the worker from those that are out: their own one, where
    /// it is out. It takes no memory.
    pub(crate) fn end(&mut self, lent: &Keyed, worker: u32) -> Right
        requires { Contains (loans_in self.old) (loan_of worker lent.now.cells.items) }
        ensures right { result ≡ lease_of lent.now.cells.items }
        ensures ended { IsPermutation (loans_in self.old) (loan_of worker lent.now.cells.items ∷ loans_in self.new) }
        ensures own { loan_at self.old lent.now.key ≡ Some (loan_of worker lent.now.cells.items) → loan_at self.new lent.now.key ≡ None }
        ensures spare { spare_in self.new ≡ spare_in self.old + 1 }
    {
        let key = key_of(&self.loans, lent, worker);
        self.loans.remove(key).right
    }
}

/// The key of a right to these cells that is out to the worker: their own one, and where another right
/// lies there, as it may where other owners lent them, the first that is found.
fn key_of(loans: &Slab<Loan>, lent: &Keyed, worker: u32) -> usize
    requires { Contains (values loans.now) (loan_of worker lent.now.cells.items) }
    ensures there { get loans.now result ≡ Some (loan_of worker lent.now.cells.items) }
    ensures own { get loans.now lent.now.key ≡ Some (loan_of worker lent.now.cells.items) → result ≡ lent.now.key }
{
    if is_at(loans, lent.key, lent.cells.as_slice(), worker) {
        return lent.key;
    }
    find(loans, lent.cells.as_slice(), worker)
}

/// Whether a right to these cells that is out to the worker lies under the key.
fn is_at(loans: &Slab<Loan>, key: usize, lent: &[LentCell], worker: u32) -> bool
    ensures { IsTrue result ↔ get loans.now key ≡ Some (loan_of worker lent.now) }
{
    match loans.get(key) {
        Some(loan) => is_behind(loan, lent, worker),
        None => false,
    }
}

/// Whether it is the loan of these lent cells to the worker.
fn is_behind(loan: &Loan, lent: &[LentCell], worker: u32) -> bool
    ensures { IsTrue result ↔ loan.now ≡ loan_of worker lent.now }
{
    loan.worker == worker && loan.right.is_behind(lent)
}

/// The first key under which a right to these cells lies that is out to the worker.
fn find(loans: &Slab<Loan>, lent: &[LentCell], worker: u32) -> usize
    requires { Contains (values loans.now) (loan_of worker lent.now) }
    ensures { get loans.now result ≡ Some (loan_of worker lent.now) }
{
    for (key, loan) in loans.iter() {
        if is_behind(loan, lent, worker) {
            return key;
        }
    }
    unreachable!()
}
