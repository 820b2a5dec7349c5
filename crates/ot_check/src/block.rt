ghost use Rattle.std.specs.Prelude.{◌≡◌, ◌/◌, ◌==◌, ◌&&◌, ◌||◌, Bool, true, not, ℕ};
ghost use Rattle.std.specs.Int.{bit_at};
ghost use Rattle.std.specs.List.{list_any};
ghost use Rattle.ot_model.specs.Cells.{conflicts};
ghost use Rattle.ot_check.specs.declared.users.User.{User};
ghost use Rattle.ot_sets.specs.Sets.{has};
ghost use Rattle.ot_check.specs.walk.Rows.{awaited_as, is_against, is_awaited_by, is_by, users_of_block};

use crate::modes::is_by;
use crate::users::User;
use ot_model::{Fold, Mode};
use ot_sets::Numbers;

/// Those of 64 tasks that declare a cell, by their modes: the task `64 * place + j` is the bit `j`.
/// Those that fold do so by one operation.
#[derive(Clone, Copy, Debug, PartialEq, Eq)]
pub(crate) struct Block {
    pub(crate) place: u32,
    reads: u64,
    writes: u64,
    folds: u64,
    operation: Fold,
}

impl Block {
    /// One task alone.
    pub(crate) fn of(user: User) -> Block
        ensures { (test : User → Bool) → list_any test (users_of_block result) ≡ test user }
    {
        let mut block = Block {
            place: user.task / 64,
            reads: 0,
            writes: 0,
            folds: 0,
            operation: operation_for(user.mode),
        };
        block.insert(user);
        block
    }

    /// Whether a task that declares the cell in this mode can stand among them: it doesn't fold, or
    /// does so by the block's operation.
    pub(crate) fn takes(&self, mode: Mode) -> bool
        ensures { result ≡ is_by self.now.operation mode }
    {
        is_by(self.operation, mode)
    }

    /// Puts one of the 64 tasks among them.
    pub(crate) fn insert(&mut self, user: User)
        requires place { self.old.place ≡ user.task / 64 }
        requires by { is_by self.old.operation user.mode ≡ true }
        ensures { (test : User → Bool) → list_any test (users_of_block self.new) ≡ (list_any test (users_of_block self.old) || test user) }
    {
        let bit = 1u64 << (user.task % 64);
        match user.mode {
            Mode::Reads => self.reads |= bit,
            Mode::Writes => self.writes |= bit,
            Mode::Folds(_) => self.folds |= bit,
        }
    }

    /// Those that declare the cell in conflict with this mode, as bits.
    fn against(&self, mode: Mode) -> u64
        ensures { (j : ℕ) → (bit_at result j == 1) ≡ is_against self.now mode j }
    {
        match mode {
            Mode::Reads => self.writes | self.folds,
            Mode::Writes => self.reads | self.writes | self.folds,
            Mode::Folds(_) => {
                if self.takes(mode) {
                    self.reads | self.writes
                } else {
                    self.reads | self.writes | self.folds
                }
            }
        }
    }

    /// Whether one of them is among these tasks and declares the cell in conflict with this mode.
    pub(crate) fn clashes(&self, tasks: &Numbers, mode: Mode) -> bool
        ensures { result ≡ list_any (λ v. has tasks.now v.task && conflicts v.mode mode) (users_of_block self.now) }
    {
        tasks.word(self.place as usize) & self.against(mode) != 0
    }

    /// Those that a wait awaits that declares the cell in this mode, as bits.
    fn awaited(&self, mode: Mode) -> u64
        ensures { (j : ℕ) → (bit_at result j == 1) ≡ is_awaited_by self.now mode j }
    {
        match mode {
            Mode::Writes => self.reads | self.writes | self.folds,
            Mode::Reads | Mode::Folds(_) => self.writes,
        }
    }

    /// Takes out of these tasks those that a wait awaits that declares the cell in this mode. It takes
    /// no memory.
    pub(crate) fn take_awaited(&self, tasks: &mut Numbers, mode: Mode)
        ensures { (k : ℕ) → has tasks.new k ≡ (has tasks.old k && not (list_any (awaited_as mode k) (users_of_block self.now))) }
    {
        tasks.take_bits(self.place as usize, self.awaited(mode));
    }
}

/// The operation of a mode that folds; for another any will do.
fn operation_for(mode: Mode) -> Fold
    ensures { is_by result mode ≡ true }
{
    match mode {
        Mode::Folds(op) => op,
        Mode::Reads | Mode::Writes => Fold::Plus,
    }
}
