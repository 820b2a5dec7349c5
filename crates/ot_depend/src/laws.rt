//! Laws of children, for a caller who reads the counts of a table. Each is the contract of a function
//! that does nothing: a caller that needs the law calls it.
ghost use Rattle.ot_depend.specs.Laws.{NoneUnfinished, NoneUnfinishedIn};

/// No child is unfinished exactly where each has finished: of all children, and of those of a group.
pub fn none_unfinished()
    ensures all { NoneUnfinished }
    ensures group { NoneUnfinishedIn }
{}
