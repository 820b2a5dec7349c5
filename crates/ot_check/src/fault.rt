ghost use Rattle.std.specs.Prelude.{◌≡◌};

use std::alloc::AllocError;

/// What a program does that it may not do: with it, the answer could depend on the order in which
/// tasks are executed.
#[derive(Clone, Copy, Debug, PartialEq, Eq)]
pub enum Offence {
    /// A statement reads, writes or folds into a cell in a way that its body doesn't declare.
    NotDeclared,
    /// A task declares more of a cell than the body that creates it.
    ChildBeyond,
    /// A statement touches a cell of an open group; a task declares such a cell without folding into it
    /// by the group's operation, or folds into a cell of no reduction by its operation; or a group names
    /// a cell that it may not.
    ReductionMisuse,
    /// A statement uses a cell in conflict with a child that may be unawaited.
    ConflictsWithChild,
    /// The body of a task can end with a child unawaited.
    EndsWithChildren,
}

impl Offence {
    ghost use Rattle.ot_check.specs.Offences.{code_of};

    /// The number that a client is told.
    pub fn code(self) -> u32
        ensures { result ≡ code_of self }
    {
        match self {
            Offence::NotDeclared => 425,
            Offence::ChildBeyond => 426,
            Offence::ConflictsWithChild => 427,
            Offence::EndsWithChildren => 428,
            Offence::ReductionMisuse => 429,
        }
    }
}

/// Why a program isn't checked.
#[derive(Clone, Copy, Debug, PartialEq, Eq)]
pub enum CheckFault {
    /// The first offence, and the number of its statement, from 1.
    Offence(Offence, u32),
    /// Memory ran out.
    Memory,
}

impl From<AllocError> for CheckFault {
    ghost use Rattle.ot_check.specs.declared.fault.CheckFault.TheVariants.{Memory};

    ghost from_gives = { λ _ fault. fault ≡ Memory };

    fn from(_error: AllocError) -> CheckFault {
        CheckFault::Memory
    }
}
