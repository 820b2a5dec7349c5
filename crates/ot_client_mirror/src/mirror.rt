//! A tenant's arrays as far as a server's replies tell.
ghost use Rattle.ot_client_mirror.specs.Mirrors.{MirrorFollows, MayHave, Sizes, sizes_behind};

use crate::heard::{Heard, hear};
use crate::remarks::remarks_on_refusal;
use crate::sizes::{store_behind, store_of};
use ot_store::Store;
use std::alloc::{AllocError, Global};
use std::marker::Model;

/// The arrays of a tenant as far as a server's replies tell: their names and lengths. What is in their cells isn't known.
#[derive(Debug, Drop)]
pub struct Mirror {
    store: Store,
}

impl Model for Mirror {
    ghost use Rattle.std.specs.Prelude.{ℕ, List};
    ghost use Rattle.ot_store.specs.Arrays.{arrays_listed};

    ghost Value = { List (List ℕ × ℕ) };

    ghost view = { λ m. arrays_listed m.store };
}

impl Mirror {
    ghost use Rattle.std.specs.Prelude.{◌≡◌, IfOk, OnOk, OnErr, MatchOption, Some, option_and_then};
    ghost use Rattle.ot_why_explain.specs.Explaining.{AreOn};
    ghost use Rattle.ot_book.specs.Answers.{code_in, Arrays};
    ghost use Rattle.ot_client_mirror.specs.Mirrors.{told_in};

    /// The arrays that the reply to `["list"]` tells, where it is such a reply, and a tenant with the usual limits may have
    /// such arrays.
    pub fn of_list(alloc: Global, reply: &[u8]) -> Result<Option<Mirror>, AllocError>
        ensures { IfOk result (λ mirror. MatchOption mirror ((sizes : Sizes) → told_in reply.now ≡ Some (Arrays sizes) → ¬ (MayHave sizes))
            (λ m. (told_in reply.now ≡ Some (Arrays m)) × MayHave m)) }
    {
        let Some(Heard::Listed(arrays)) = hear(alloc, reply)? else {
            return Ok(None);
        };
        match store_of(alloc, arrays.as_slice())? {
            Some(store) => Ok(Some(Mirror { store })),
            None => Ok(None),
        }
    }

    /// Takes notice of a line that was sent and of the reply to it, and gives what is to be said behind the reply: lines
    /// that begin with `# `, the first of them with the code, where it is a refusal, and else nothing.
    #[tactic(auto, using(crate::proofs::RemarksLemmas::on_refusal))]
    pub fn take(&mut self, alloc: Global, line: &[u8], reply: &[u8]) -> Result<Vec<u8>, AllocError>
        ensures remarks { IfOk result (λ text. AreOn (option_and_then code_in (told_in reply.now)) text.items) }
        ensures arrays { OnOk result (self.new ≡ sizes_behind self.old line.now (told_in reply.now)) }
        ensures kept { OnErr result (self.new ≡ self.old) }
    {
        let Some(heard) = hear(alloc, reply)? else {
            return Ok(Vec::new(alloc));
        };
        match heard {
            Heard::Taken => {
                self.store = store_behind(alloc, &self.store, line)?;
                Ok(Vec::new(alloc))
            }
            Heard::Refused(refusal) => remarks_on_refusal(alloc, &self.store, line, refusal),
            Heard::Listed(_) => Ok(Vec::new(alloc)),
        }
    }
}

/// A mirror has the names and lengths of a tenant's arrays behind each line, where it had them before.
pub fn mirrors_follow()
    ensures { MirrorFollows }
{}
