//! What is said behind replies.
ghost use Rattle.std.specs.Prelude.{◌≡◌, [], ℕ, List, IfOk};

use std::alloc::{AllocError, Global};

/// Who may say something behind a reply.
pub trait Remarker {
    // What may be said behind a reply.
    ghost says: { List ℕ → List ℕ → Type 0 };

    /// Hears a line, without its LF, and the reply to it, and gives what is to be printed behind the reply.
    fn remark(&mut self, alloc: Global, line: &[u8], reply: &[u8]) -> Result<Vec<u8>, AllocError>
        ensures { IfOk result (λ text. says reply.now text.items) };
}

/// Nothing is said.
#[derive(Clone, Copy, Debug, PartialEq, Eq)]
pub struct Silence;

impl Remarker for Silence {
    ghost use Rattle.ot_client_ask.specs.Asking.{is_silent};

    ghost says = { is_silent };

    fn remark(
        &mut self,
        alloc: Global,
        _line: &[u8],
        _reply: &[u8],
    ) -> Result<Vec<u8>, AllocError> {
        Ok(Vec::new(alloc))
    }
}
