//! The session that runs a text.
ghost use Rattle.std.specs.Prelude.{◌≡◌, ◌++◌, ℕ, List, map, IfOk, OnOk};
ghost use Rattle.serde_json.specs.View.{view};
ghost use Rattle.ot_c_text.specs.Session.{AreLines, IsLine, IsSession, with_end};

use crate::reading::{Meaning, meaning_of};
use crate::requests::requests_of;
use ot_c_judge::outside;
use ot_file_diagnosis::{Diagnosis, Place};
use serde_json::Value;
use std::alloc::{AllocError, Global};

/// The session that runs a text.
#[derive(Drop)]
pub enum Session {
    /// Its requests, one a line.
    Lines(Vec<u8>),
    /// Why a text has none.
    Outside(Diagnosis),
}

/// The session that makes the arrays of a text and runs its program.
pub fn session_of(alloc: Global, text: &[u8]) -> Result<Session, AllocError>
    ensures { IfOk result (IsSession text.now) }
{
    match meaning_of(alloc, text)? {
        Meaning::Program(lowered) => {
            let requests = requests_of(alloc, lowered)?;
            Ok(Session::Lines(lines_of(alloc, requests.as_slice())?))
        }
        Meaning::Outside(byte, reason) => {
            Ok(Session::Outside(outside(alloc, Place::at(text, byte), reason)?))
        }
    }
}

/// Requests, one a line.
fn lines_of(alloc: Global, requests: &[Value]) -> Result<Vec<u8>, AllocError>
    ensures { IfOk result (λ lines. AreLines (map (λ r. view r) requests.now) lines.items) }
{
    let mut lines = Vec::new(alloc);
    for request in requests {
        lines = with_line(alloc, lines, request)?;
    }
    Ok(lines)
}

/// The line of a request, behind others.
fn with_line(alloc: Global, lines: Vec<u8>, request: &Value) -> Result<Vec<u8>, AllocError>
    ensures { IfOk result (λ more. (one : List ℕ) × IsLine (view request.now) one × (more.items ≡ lines.items ++ one)) }
{
    let text = request.to_string(alloc)?;
    let mut more = lines;
    put_line(&mut more, text.as_str())?;
    Ok(more)
}

/// A text and its LF behind others.
fn put_line(out: &mut Vec<u8>, text: &str) -> Result<(), AllocError>
    ensures { OnOk result (out.new.items ≡ out.old.items ++ with_end text.now) }
{
    out.extend_from_slice(text.as_bytes())?;
    out.push(b'\n')?;
    Ok(())
}
