//! Laws of what is written. Each is the contract of a function that does nothing.
ghost use Rattle.ot_show_print.specs.Laws.{ValueIsDetermined, CellsComeBack, SectionsAreDetermined, CellsAreDetermined, TaskIsDetermined, WaitIsDetermined, GroupIsDetermined, WriteIsDetermined, CalledFoldIsShownAsSet, StatementIsShownSo, StatementIsDetermined};

/// A value's text determines the value, where names differ.
pub fn value_is_determined()
    ensures { ValueIsDetermined }
{}

/// The cells of sections, in order, are the cells that they were made of.
pub fn cells_come_back()
    ensures { CellsComeBack }
{}

/// Sections' text determines the sections, where names differ.
pub fn sections_are_determined()
    ensures { SectionsAreDetermined }
{}

/// The text of cells as sections determines the cells, where names differ.
pub fn cells_are_determined()
    ensures { CellsAreDetermined }
{}

/// A task's text determines what it declares, where names differ.
pub fn task_is_determined()
    ensures { TaskIsDetermined }
{}

/// A wait's text determines whether it declares cells, and which, where names differ.
pub fn wait_is_determined()
    ensures { WaitIsDetermined }
{}

/// A group's text determines its operation and its cells, where it has any and names differ.
pub fn group_is_determined()
    ensures { GroupIsDetermined }
{}

/// The text of a set, or of a fold with a sign, determines which it is, its cell and its value, where names differ.
pub fn write_is_determined()
    ensures { WriteIsDetermined }
{}

/// A fold by min or max is shown as the set that does the same.
pub fn called_fold_is_shown_as_set()
    ensures { CalledFoldIsShownAsSet }
{}

/// A statement is shown as what is told of it.
pub fn statement_is_shown_so()
    ensures { StatementIsShownSo }
{}

/// The text of a statement, of whatever kind, determines what is told of it, where names differ: its kind, cells, value
/// and declaration. Only a fold by min or max shares its text with a statement of another kind, the set that does the
/// same, and only groups over no cell share one whatever their operations.
pub fn statement_is_determined()
    ensures { StatementIsDetermined }
{}
