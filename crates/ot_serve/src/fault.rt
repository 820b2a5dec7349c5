//! What the program tells of a fault, and the status that it ends with.
ghost use Rattle.std.specs.Prelude.{◌≡◌};
ghost use Rattle.ot_serve.specs.Serving.{stderr_line, status_of};
ghost use Rattle.ot_serve.specs.Starting.{front_fault, fault_of_start};

use ot_pool::NotStarted;
use ot_session::FrontFault;

/// What went wrong, one variant for each line that the program may print.
#[derive(Clone, Copy, Debug, PartialEq, Eq)]
pub enum Fault {
    ReadFailed,
    WriteFailed,
    Memory,
    Stranger,
    TooManyReads,
    LineTooLong,
    BadTenantName,
    TooManyTenants,
    SocketFailed,
    NoThread,
}

impl From<FrontFault> for Fault {
    ghost from_gives = { λ fault f. f ≡ front_fault fault };

    fn from(fault: FrontFault) -> Fault {
        match fault {
            FrontFault::ReadFailed => Fault::ReadFailed,
            FrontFault::WriteFailed => Fault::WriteFailed,
            FrontFault::Memory => Fault::Memory,
            FrontFault::Stranger => Fault::Stranger,
            FrontFault::TooManyTurns => Fault::TooManyReads,
            FrontFault::SocketFailed => Fault::SocketFailed,
        }
    }
}

impl From<NotStarted> for Fault {
    ghost from_gives = { λ why f. f ≡ fault_of_start why };

    fn from(why: NotStarted) -> Fault {
        match why {
            NotStarted::Memory => Fault::Memory,
            NotStarted::NoThread => Fault::NoThread,
        }
    }
}

/// The line that the program prints, without the line feed, and its exit status.
pub fn fault_line(fault: &Fault) -> (&'static str, u8)
    ensures line { result.0.now ≡ stderr_line fault.now }
    ensures status { result.1 ≡ status_of fault.now }
{
    let line = match fault {
        Fault::ReadFailed => "omptaskd: read failed",
        Fault::WriteFailed => "omptaskd: write failed",
        Fault::Memory => "omptaskd: no memory",
        Fault::Stranger => "omptaskd: stranger",
        Fault::TooManyReads => "omptaskd: too many reads",
        Fault::LineTooLong => "omptaskd: line too long",
        Fault::BadTenantName => "omptaskd: bad tenant name",
        Fault::TooManyTenants => "omptaskd: too many tenants",
        Fault::SocketFailed => "omptaskd: socket failed",
        Fault::NoThread => "omptaskd: no thread",
    };
    (line, 1)
}
