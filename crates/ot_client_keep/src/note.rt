//! The line behind a session.
ghost use Rattle.std.specs.Prelude.{◌≡◌, ◌++◌, ◌∷◌, ◌<◌, ◌^◌, ℕ, List, IfOk, string_bytes};
ghost use Rattle.ot_client_keep.specs.Files.{bye_line, note_line, note_text, text_summed};
ghost use Rattle.hex.specs.Hex.{encode_lower};
ghost use Rattle.sha2.specs.Sha256.{sha256};

use sha2::{Digest, Sha256};
use std::alloc::{AllocError, Global};

/// The line with the numbers of a session, and the sum.
pub(crate) fn note_line(
    alloc: Global,
    session: &[u8],
    next: u64,
    used: u64,
) -> Result<String, AllocError>
    ensures { IfOk result (λ line. string_bytes line ≡ note_line session.now next used) }
{
    let sum = sum_of(alloc, session, next, used)?;
    note_text(alloc, sum.as_str(), next, used)
}

fn note_text(alloc: Global, sum: &str, next: u64, used: u64) -> Result<String, AllocError>
    ensures { IfOk result (λ line. string_bytes line ≡ note_text sum.now next used) }
{
    format!(in alloc; "{{\"next\": {next}, \"used\": {used}, \"sha256\": \"{sum}\"}}\n")
}

/// The sum, in hex.
fn sum_of(alloc: Global, session: &[u8], next: u64, used: u64) -> Result<String, AllocError>
    ensures { IfOk result (λ sum. string_bytes sum ≡ encode_lower (sha256 (text_summed session.now next used))) }
{
    let numbers = format!(in alloc; "{next} {used}")?;
    let mut hasher = Sha256::new();
    hasher.update(session);
    hasher.update(b"[\"bye\"]\n".as_slice());
    hasher.update(numbers.as_bytes());
    hex::encode(alloc, hasher.finalize().as_slice())
}
