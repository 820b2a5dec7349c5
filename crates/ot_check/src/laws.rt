//! Laws of bodies and of checked programs. Each is the contract of a function that does nothing: a
//! caller that needs the law calls it.
ghost use Rattle.ot_check.specs.Laws.{FirstOffenceIsFirst, Apart, Inside};
ghost use Rattle.ot_check.specs.Discipline.{DisciplinedIsFine};

/// The first offence of a body is the first of its offences on paths, and no other value is.
pub fn first_offence_is_first()
    ensures { FirstOffenceIsFirst }
{}

/// Two bodies give the same cells and counts in either order where no touch of the one, its tasks
/// included, conflicts with a touch of the other.
pub fn apart()
    ensures { Apart }
{}

/// Where nothing in a program is an offence, a task's own declaration lets it make each touch of its
/// body, those in the tasks within it included.
pub fn inside()
    ensures { Inside }
{}

/// A body that offends nowhere is fine, statement by statement, from no children and no open group.
pub fn disciplined_is_fine()
    ensures { DisciplinedIsFine }
{}
