//! Laws of the reading. Each is the contract of a function that does nothing.
ghost use Rattle.ot_c_expressions.specs.Laws.{SpelledReadsAsItself};

/// A value that is spelled with as few brackets as C's grammar wants is read as itself: signs bind as they do in C.
pub fn spelled_reads_as_itself()
    ensures { SpelledReadsAsItself }
{}
