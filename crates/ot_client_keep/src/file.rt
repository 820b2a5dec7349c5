//! A file, written and read.
ghost use Rattle.std.specs.Prelude.{◌≡◌, ◌≢◌, ◌++◌, ◌∷◌, [], ◌<◌, ◌^◌, ◌↔◌, ℕ, List, All, IfOk, IfSome, IsTrue, MatchOption, decimal};
ghost use Rattle.ot_client_keep.specs.Files.{AreLines, IsNoFile, bye_line, file_text, note_text};

use crate::note::note_line;
use memchr::{memchr, memrchr};
use std::alloc::{AllocError, Global};
use std::str;

/// What a file says.
#[derive(Clone, Copy, Debug)]
pub(crate) struct KeptFile<'a> {
    /// The lines before the goodbye.
    pub(crate) session: &'a [u8],
    /// The number of the next request.
    pub(crate) next: u64,
    /// The used units.
    pub(crate) used: u64,
}

/// The text of a file.
pub(crate) fn file_text(
    alloc: Global,
    session: &[u8],
    next: u64,
    used: u64,
) -> Result<Vec<u8>, AllocError>
    ensures { IfOk result (λ text. text.items ≡ file_text session.now next used) }
{
    let note = note_line(alloc, session, next, used)?;
    let mut text = Vec::from_slice(alloc, session)?;
    text.extend_from_slice(b"[\"bye\"]\n")?;
    text.extend_from_slice(note.as_bytes())?;
    Ok(text)
}

/// Reads a file, which is one exactly where it is the text of lines and two numbers.
pub(crate) fn read_file(alloc: Global, file: &[u8]) -> Result<Option<KeptFile<'_>>, AllocError>
    ensures { IfOk result (λ kept. MatchOption kept (IsNoFile file.now)
        (λ f. AreLines f.session.now × (file.now ≡ file_text f.session.now f.next f.used))) }
{
    let Some((session, note)) = split_file(file) else {
        return Ok(None);
    };
    let Some((next, used)) = read_numbers(note) else {
        return Ok(None);
    };
    let wanted = note_line(alloc, session, next, used)?;
    if same_bytes(note, wanted.as_bytes()) {
        return Ok(Some(KeptFile {
            session,
            next,
            used,
        }));
    }
    Ok(None)
}

fn same_bytes(one: &[u8], other: &[u8]) -> bool
    ensures { IsTrue result ↔ (one.now ≡ other.now) }
{
    one == other
}

/// The lines before the goodbye, and the line behind it.
fn split_file(file: &[u8]) -> Option<(&[u8], &[u8])>
    ensures parts { IfSome result (λ p. AreLines p.0.now × (file.now ≡ p.0.now ++ (bye_line ++ p.1.now))) }
    ensures found { (session front : List ℕ) → AreLines session → All (λ b. b ≢ 10) front → file.now ≡ session ++ (bye_line ++ (front ++ 10 ∷ [])) →
        MatchOption result ⊥ (λ p. (p.0.now ≡ session) × (p.1.now ≡ front ++ 10 ∷ [])) }
{
    let front = without_end(file, b"\n".as_slice())?;
    let at = memrchr(b'\n', front)?;
    let (body, note) = file.split_at(at + 1);
    let session = without_end(body, b"[\"bye\"]\n".as_slice())?;
    if are_lines(session) {
        Some((session, note))
    } else {
        None
    }
}

/// The text before its end, where it ends so.
fn without_end<'a>(text: &'a [u8], end: &[u8]) -> Option<&'a [u8]>
    ensures { MatchOption result ((front : List ℕ) → text.now ≢ front ++ end.now) (λ front. text.now ≡ front.now ++ end.now) }
{
    text.strip_suffix(end)
}

/// Whether there is no byte, or the last is an LF.
fn are_lines(text: &[u8]) -> bool
    ensures { IsTrue result ↔ AreLines text.now }
{
    match text {
        [.., last] => *last == b'\n',
        _ => true,
    }
}

/// Both numbers of the line behind a session.
fn read_numbers(note: &[u8]) -> Option<(u64, u64)>
    ensures { (sum : List ℕ) (next used : ℕ) → next < 2 ^ 64 → used < 2 ^ 64 → note.now ≡ note_text sum next used → result ≡ Some (next, used) }
{
    let rest = without_front(note, b"{\"next\": ".as_slice())?;
    let (next, rest) = number_before_comma(rest)?;
    let rest = without_front(rest, b", \"used\": ".as_slice())?;
    let (used, _) = number_before_comma(rest)?;
    Some((next, used))
}

/// The text behind its front, where it begins so.
fn without_front<'a>(text: &'a [u8], front: &[u8]) -> Option<&'a [u8]>
    ensures { MatchOption result ((rest : List ℕ) → text.now ≢ front.now ++ rest) (λ rest. text.now ≡ front.now ++ rest.now) }
{
    text.strip_prefix(front)
}

/// A number, and what stands behind it, where that begins with a comma.
fn number_before_comma(text: &[u8]) -> Option<(u64, &[u8])>
    ensures { (n : ℕ) (rest : List ℕ) → n < 2 ^ 64 → text.now ≡ decimal n ++ 44 ∷ rest → MatchOption result ⊥ (λ p. (p.0 ≡ n) × (p.1.now ≡ 44 ∷ rest)) }
{
    let at = memchr(b',', text)?;
    let (digits, rest) = text.split_at(at);
    match str::from_utf8(digits) {
        Ok(digits) => match digits.parse::<u64>() {
            Ok(number) => Some((number, rest)),
            Err(_) => None,
        },
        Err(_) => None,
    }
}
