//! Laws of programs of the first profile. Each is the contract of a function that does nothing: a
//! caller that needs the law calls it.
ghost use Rattle.ot_law_profile1.specs.Upward.{FirstOffenceIsKept, OffencesAreKept, FirstIsNotSecond, ReadingIsKept, CountsAreKept, SerialIsKept};

use ot_check::laws::first_offence_is_first;

/// A body of the first profile, whose reductions are all sums, leaves the cells and counts that the
/// first profile defined.
pub fn serial_is_kept()
    ensures { SerialIsKept }
{}

/// A body of the first profile has as many statements and task statements as the first profile
/// counted.
pub fn counts_are_kept()
    ensures { CountsAreKept }
{}

/// A body of the first profile, whose reductions are all sums, offends where the first profile
/// said, and in the same way.
pub fn offences_are_kept()
    ensures { OffencesAreKept }
{}

/// What a check tells of a body of the first profile is the first of the offences that the first
/// profile defined, and no other value is.
pub fn first_offence_is_kept()
    ensures { FirstOffenceIsKept }
{
    first_offence_is_first();
}

/// A text that doesn't begin with `program2` is read as the first profile defined: the same program,
/// each of its folds by `+`, or the same fault. None that begins with `program` does.
pub fn reading_is_kept()
    ensures kept { ReadingIsKept }
    ensures first { FirstIsNotSecond }
{}
