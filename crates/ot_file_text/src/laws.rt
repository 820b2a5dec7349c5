//! Laws of files. Each is the contract of a function that does nothing.
ghost use Rattle.ot_file_text.specs.Laws.{BlankedKeepsItsLength, BlankedShowsSpaces, BlankedWithoutSlashes, LineHasNoEnd, LineIsNoLonger, LineWithoutBlanks};

/// Without its comments a file is as long as with them.
pub fn blanked_keeps_its_length()
    ensures { BlankedKeepsItsLength }
{}

/// What it shows in place of another byte is a space.
pub fn blanked_shows_spaces()
    ensures { BlankedShowsSpaces }
{}

/// A file without a slash stays as it is.
pub fn blanked_without_slashes()
    ensures { BlankedWithoutSlashes }
{}

/// A piece on one line is one line.
pub fn line_has_no_end()
    ensures { LineHasNoEnd }
{}

/// It is no longer than in the file.
pub fn line_is_no_longer()
    ensures { LineIsNoLonger }
{}

/// A piece without white space stays as it is.
pub fn line_without_blanks()
    ensures { LineWithoutBlanks }
{}
