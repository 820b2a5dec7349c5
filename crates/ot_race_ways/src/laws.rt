//! Laws of ways. Each is the contract of a function that does nothing: a caller that needs the law
//! calls it.
ghost use Rattle.ot_race_ways.specs.Laws.{RunsAreWays, StraightWaysAreRuns};

/// What races in a run races on a way.
pub fn runs_are_ways()
    ensures { RunsAreWays }
{}

/// Of a straight body whose run doesn't race no way races.
pub fn straight_ways_are_runs()
    ensures { StraightWaysAreRuns }
{}
