//! What the program tells of a fault.
ghost use Rattle.std.specs.Prelude.{◌≡◌};
ghost use Rattle.omptask.specs.Faults.{session_fault, fault_of_keep, fault_of_last, fault_of_session, line_of_fault, want_for, want_text};

use crate::reaching::Cause;
use ot_client_ask::AskFault;
use ot_client_keep::KeepFault;
use ot_session::FrontFault;
use ot_show_last::{LastFault, Untaken};
use std::io::ErrorKind;

/// What went wrong, one variant for each line that the program may print.
#[derive(Clone, Copy, Debug, PartialEq, Eq)]
pub enum Fault {
    /// The tenant has another session.
    Busy,
    /// The server has no tenant of that name.
    UnknownTenant,
    /// What answers at the socket is no server for tenants.
    StrangeGreeting,
    /// The server ended the session before a reply.
    Closed,
    /// There is no such code.
    UnknownCode,
    /// A line of the session isn't taken: the first one, counted from 1, and what it is answered.
    BadLine(u64, Untaken),
    /// The session runs no program.
    NoRun,
    /// The server answered a request as none does that can perform it.
    StrangeReply,
    /// The file was cut or changed.
    NotWhole,
    /// The tenant has arrays.
    HasArrays,
    /// The server didn't take a line of the file: the first such, counted from 1.
    RefusedLine(u64),
    /// What the server tells of the arrays isn't what the file says.
    Differs,
    /// Nobody is reached at the socket.
    Unreached(Cause),
    /// Standard input could not be read.
    ReadFailed,
    /// Standard output could not be written.
    WriteFailed,
    /// There was no memory.
    Memory,
    /// Standard input was read too often.
    TooManyReads,
    /// A session that has no server was told of one.
    Stranger,
    /// A word of `--define` is no array that can be made: its place among them, from 0.
    BadDefinition(usize),
    /// The word of `--format` is no format.
    BadFormat,
    /// A file can't be read: its place among those that are named, from 0.
    Unread(usize, Want),
}

/// Why a file isn't read.
#[derive(Clone, Copy, Debug, PartialEq, Eq)]
pub enum Want {
    /// Nothing is there.
    NoFile,
    /// It stands behind a file that is no folder.
    NoFolder,
    /// It is a folder.
    IsFolder,
    /// Who asks may not read it.
    NotPermitted,
    /// No file has such a path.
    NoPath,
    /// Something else went wrong.
    Other,
}

/// Why a file isn't read, by the error.
pub(crate) fn want_for(kind: ErrorKind) -> Want
    ensures { result ≡ want_for kind }
{
    match kind {
        ErrorKind::NotFound => Want::NoFile,
        ErrorKind::NotADirectory => Want::NoFolder,
        ErrorKind::IsADirectory => Want::IsFolder,
        ErrorKind::PermissionDenied => Want::NotPermitted,
        ErrorKind::InvalidInput => Want::NoPath,
        _ => Want::Other,
    }
}

/// What is told of it, behind the path.
pub fn want_text(want: Want) -> &'static str
    ensures { result.now ≡ want_text want }
{
    match want {
        Want::NoFile => "no such file",
        Want::NoFolder => "no such folder",
        Want::IsFolder => "a folder",
        Want::NotPermitted => "permission denied",
        Want::NoPath => "no path of a file",
        Want::Other => "read failed",
    }
}

impl From<AskFault> for Fault {
    ghost from_gives = { λ fault f. f ≡ session_fault fault };

    fn from(fault: AskFault) -> Fault {
        match fault {
            AskFault::Busy => Fault::Busy,
            AskFault::UnknownTenant => Fault::UnknownTenant,
            AskFault::StrangeGreeting => Fault::StrangeGreeting,
            AskFault::Closed => Fault::Closed,
            AskFault::ReadFailed => Fault::ReadFailed,
            AskFault::WriteFailed => Fault::WriteFailed,
            AskFault::Memory => Fault::Memory,
            AskFault::TooManyLines => Fault::TooManyReads,
        }
    }
}

impl From<FrontFault> for Fault {
    ghost from_gives = { λ fault f. f ≡ fault_of_session fault };

    fn from(fault: FrontFault) -> Fault {
        match fault {
            FrontFault::ReadFailed => Fault::ReadFailed,
            FrontFault::WriteFailed => Fault::WriteFailed,
            FrontFault::Memory => Fault::Memory,
            FrontFault::Stranger => Fault::Stranger,
            FrontFault::TooManyTurns => Fault::TooManyReads,
            FrontFault::SocketFailed => Fault::Unreached(Cause::Other),
        }
    }
}

impl From<LastFault> for Fault {
    ghost from_gives = { λ fault f. f ≡ fault_of_last fault };

    fn from(fault: LastFault) -> Fault {
        match fault {
            LastFault::NoRun => Fault::NoRun,
            LastFault::BadLine(number, answer) => Fault::BadLine(number, answer),
            LastFault::ReadFailed => Fault::ReadFailed,
            LastFault::TooManyReads => Fault::TooManyReads,
            LastFault::Memory => Fault::Memory,
        }
    }
}

impl From<KeepFault> for Fault {
    ghost from_gives = { λ fault f. f ≡ fault_of_keep fault };

    fn from(fault: KeepFault) -> Fault {
        match fault {
            KeepFault::Ask(fault) => Fault::from(fault),
            KeepFault::StrangeReply => Fault::StrangeReply,
            KeepFault::WriteFailed => Fault::WriteFailed,
            KeepFault::NotWhole => Fault::NotWhole,
            KeepFault::HasArrays => Fault::HasArrays,
            KeepFault::Refused(number) => Fault::RefusedLine(number),
            KeepFault::Differs => Fault::Differs,
        }
    }
}

/// The line that the program prints, without the line feed; behind that of a bad or a refused line stands its
/// number, and behind that of a server that isn't reached the path and the cause.
pub fn fault_line(fault: &Fault) -> &'static str
    ensures { result.now ≡ line_of_fault fault.now }
{
    match fault {
        Fault::Busy => "omptask: busy",
        Fault::UnknownTenant => "omptask: unknown tenant",
        Fault::StrangeGreeting => "omptask: strange greeting",
        Fault::Closed => "omptask: closed",
        Fault::UnknownCode => "omptask: unknown code",
        Fault::BadLine(_, _) => "omptask: bad line",
        Fault::NoRun => "omptask: no run",
        Fault::StrangeReply => "omptask: strange reply",
        Fault::NotWhole => "omptask: not whole",
        Fault::HasArrays => "omptask: has arrays",
        Fault::RefusedLine(_) => "omptask: refused line",
        Fault::Differs => "omptask: differs",
        Fault::Unreached(_) => "omptask:",
        Fault::ReadFailed => "omptask: read failed",
        Fault::WriteFailed => "omptask: write failed",
        Fault::Memory => "omptask: no memory",
        Fault::TooManyReads => "omptask: too many reads",
        Fault::Stranger => "omptask: stranger",
        Fault::BadDefinition(_) => "omptask: bad definition",
        Fault::BadFormat => "omptask: bad format",
        Fault::Unread(_, _) => "omptask:",
    }
}
