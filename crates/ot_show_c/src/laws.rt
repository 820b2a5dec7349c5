//! Laws of what is written. Each is the contract of a function that does nothing.
ghost use Rattle.ot_show_c.specs.Laws.{NamesStayApart, CValueIsDetermined, DeclarationIsDetermined, BodyIsDetermined, CalledFoldIsWrittenAsSet, ProgramIsDetermined};

/// Arrays whose names differ have names in C that are free for them and differ.
pub fn names_stay_apart()
    ensures { NamesStayApart }
{}

/// A value's C determines the value, over names that differ.
pub fn value_is_determined()
    ensures { CValueIsDetermined }
{}

/// The clauses of a task or a wait determine what it declares, over names that differ.
pub fn declaration_is_determined()
    ensures { DeclarationIsDetermined }
{}

/// The C of a body in a block determines the body as far as it tells it, where names differ. It doesn't tell a fold by min
/// or max from the set that does the same, but in a task that only folds into the cell; nor the operation of a group over no
/// cell, nor the order of a group's cells; nor a wait that declares no cell from nothing.
pub fn body_is_determined()
    ensures { BodyIsDetermined }
{}

/// Such a fold by min or max is written as that set: no C tells the two apart.
pub fn called_fold_is_written_as_set()
    ensures { CalledFoldIsWrittenAsSet }
{}

/// The C of a program over arrays of the same names determines what it shows, its body as far as it tells it, and the arrays
/// that it names, with their lengths and the numbers that they begin with, but for zeros at the end.
pub fn program_is_determined()
    ensures { ProgramIsDetermined }
{}
