//! Laws of the reading. Each is the contract of a function that does nothing: a caller that needs
//! the law calls it.
ghost use Rattle.ot_program.specs.Printed.{PrintedReadsAsItself, PrintedIsAccepted};
ghost use Rattle.ot_program.specs.Accepted.{AcceptedIsSmall};

/// What is printed of a tree denotes the tree.
pub fn printed_reads_as_itself()
    ensures { PrintedReadsAsItself }
{}

/// What is printed of a tree whose cells are there, and that is within the limits, is accepted. A print has
/// no loops, no variables and no reckoned sizes: of refusals of these it says nothing.
pub fn printed_is_accepted()
    ensures { PrintedIsAccepted }
{}

/// The tree of a program that is accepted, measured by itself, is within the limits.
pub fn accepted_is_small()
    ensures { AcceptedIsSmall }
{}
