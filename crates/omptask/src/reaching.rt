//! A server is reached at its socket, or it is told why nobody is.
ghost use Rattle.std.specs.Prelude.{◌≡◌};
ghost use Rattle.omptask.specs.Faults.{cause_for, cause_text};

use std::fs;
use std::io::ErrorKind;
use std::net::Net;
use std::os::unix::fs::FileTypeExt;
use std::os::unix::net::UnixStream;
use std::rt::Files;

/// Why nobody is reached at a path.
#[derive(Clone, Copy, Debug, PartialEq, Eq)]
pub enum Cause {
    /// Nothing is there.
    NoFile,
    /// It stands behind a file that is no folder.
    NoFolder,
    /// Who asks may not reach it.
    NotPermitted,
    /// What is there is no socket.
    NoSocket,
    /// There is a socket, and nobody listens at it.
    NobodyAnswers,
    /// No socket has such a path.
    NoPath,
    /// Something else went wrong.
    Other,
}

/// Connects to the socket at a path.
pub(crate) fn reach<R: Files + Net>(rt: &R, path: &str) -> Result<UnixStream, Cause> {
    match UnixStream::connect(rt, path) {
        Ok(stream) => Ok(stream),
        Err(error) => Err(cause_for(error.kind(), is_other_file(rt, path))),
    }
}

/// Whether something is there that is no socket.
fn is_other_file<R: Files>(rt: &R, path: &str) -> bool {
    match fs::metadata(rt, path) {
        Ok(found) => !found.file_type().is_socket(),
        Err(_) => false,
    }
}

/// The cause of a connection's error, where something that is no socket is there, or isn't.
fn cause_for(kind: ErrorKind, is_other_file: bool) -> Cause
    ensures { result ≡ cause_for kind is_other_file }
{
    match kind {
        ErrorKind::NotFound => Cause::NoFile,
        ErrorKind::NotADirectory => Cause::NoFolder,
        ErrorKind::PermissionDenied => Cause::NotPermitted,
        ErrorKind::ConnectionRefused if is_other_file => Cause::NoSocket,
        ErrorKind::ConnectionRefused => Cause::NobodyAnswers,
        ErrorKind::InvalidInput => Cause::NoPath,
        _ => Cause::Other,
    }
}

/// What is told of it, behind the path.
pub fn cause_text(cause: Cause) -> &'static str
    ensures { result.now ≡ cause_text cause }
{
    match cause {
        Cause::NoFile => "no such file",
        Cause::NoFolder => "no such folder",
        Cause::NotPermitted => "permission denied",
        Cause::NoSocket => "not a socket",
        Cause::NobodyAnswers => "nobody answers",
        Cause::NoPath => "no path of a socket",
        Cause::Other => "socket failed",
    }
}
