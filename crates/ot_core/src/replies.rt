ghost use Rattle.std.specs.Prelude.{◌≡◌, drop, length};
ghost use Rattle.std.specs.Iterator.{YieldsFirstBy, item_count};
ghost use Rattle.ot_book.specs.ReplyView.{reply_of};

use crate::tenant::Tenant;
use ot_book::Reply;
use std::marker::Model;

/// The replies that were given to a tenant, in order, seen as the list of those that are left.
#[derive(Drop)]
pub struct Replies<'a> {
    tenant: &'a Tenant,
    place: usize,
}

impl<'a> Model for Replies<'a> {
    ghost use Rattle.std.specs.Prelude.{◌≤◌, ℕ, List, length};
    ghost use Rattle.ot_book.specs.Answers.{Told};

    ghost Value = { List (ℕ × Told) };

    ghost use Rattle.ot_core.specs.Accounts.{replies_from, answered_count};

    ghost view = { λ r. replies_from r.tenant.now r.place };

    ghost invariant = { λ r. r.place ≤ answered_count r.tenant.now };
}

impl<'a> Replies<'a> {
    ghost use Rattle.ot_core.specs.Accounts.{replies_of};

    /// All that this tenant was given.
    pub(crate) fn new(tenant: &'a Tenant) -> Replies<'a>
        ensures { result ≡ replies_of tenant.now }
    {
        Replies { tenant, place: 0 }
    }

    /// How many are left. It doesn't go over them.
    pub fn count_left(&self) -> usize
        ensures { result ≡ length self.now }
    {
        self.tenant.answered() - self.place
    }

    /// Leaves out so many of them, or all that are left. It doesn't go over them.
    pub fn pass_over(&mut self, count: usize)
        ensures { self.new ≡ drop count self.old }
    {
        let left = self.tenant.answered() - self.place;
        self.place += count.min(left);
    }
}

impl<'a> Iterator for Replies<'a> {
    type Item = Reply<'a>;

    ghost next_gives = { YieldsFirstBy reply_of (λ rest. rest) };

    ghost remaining = { item_count (λ rest. rest) };

    fn next(&mut self) -> Option<Reply<'a>> {
        let Some(reply) = self.tenant.reply_at(self.place) else {
            return None;
        };
        self.place += 1;
        Some(reply)
    }

    fn size_hint(&self) -> (usize, Option<usize>) {
        let left = self.count_left();
        (left, Some(left))
    }
}
