//! Laws of faults: each is the contract of a function that does nothing.
ghost use Rattle.ot_why_fault.specs.Laws.{WhysAreFaults, FirstIsRefused};

/// The faults that are named are those for which a program is refused.
pub fn whys_are_faults()
    ensures { WhysAreFaults }
{}

/// What a program is refused for is what is told of its first fault.
pub fn first_is_refused()
    ensures { FirstIsRefused }
{}
