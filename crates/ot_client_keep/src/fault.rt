//! What can go wrong.

use ot_client_ask::AskFault;

/// Why a tenant isn't saved, or isn't restored.
#[derive(Clone, Copy, Debug, PartialEq, Eq)]
pub enum KeepFault {
    /// There is no session, or it broke off: `Busy`, `UnknownTenant`, `StrangeGreeting`, `Closed` or `Memory`.
    Ask(AskFault),
    /// A request was answered otherwise than by what it asks for, as by a refusal.
    StrangeReply,
    /// The file could not be written.
    WriteFailed,
    /// The file was cut or changed.
    NotWhole,
    /// The tenant has arrays.
    HasArrays,
    /// The server didn't take a line of the file: the first such, counted from 1.
    Refused(u64),
    /// What the server tells of the arrays behind the last line isn't what the file says.
    Differs,
}
