//! Laws of programs that a check accepts. Each is the contract of a function that does nothing: a
//! caller that needs the law calls it.
ghost use Rattle.ot_model.specs.View.{stmts_of};
ghost use Rattle.ot_race.specs.Events.{events_of, this_way};
ghost use Rattle.ot_race.specs.Races.{NothingRaces};
ghost use Rattle.ot_race_order.specs.declared.order.Order.TheVariants.{OfLanguage};
ghost use Rattle.ot_race_ways.specs.Verdicts.{NoWayRaces};
ghost use Rattle.ot_law_raceless.specs.Laws.{AcceptedRacesInNoRun, AcceptedRacesOnNoWay, AcceptedRacesOnNoWayBy};

use ot_check::laws::disciplined_is_fine;
use ot_check::{Checked, JobSpec};
use ot_race_order::laws::alike_races_in_language;
use ot_race_ways::laws::runs_are_ways;

/// What a check accepts races on no way, from any cells.
pub fn accepted_races_on_no_way()
    ensures { AcceptedRacesOnNoWay }
{
    disciplined_is_fine();
}

/// What a check accepts races on no way where its tasks are ordered as in the language.
pub fn accepted_races_on_no_way_by()
    ensures { AcceptedRacesOnNoWayBy }
{
    accepted_races_on_no_way();
    alike_races_in_language();
}

/// What a check accepts races in no run from cells among which are all that it names.
pub fn accepted_races_in_no_run()
    ensures { AcceptedRacesInNoRun }
{
    accepted_races_on_no_way();
    runs_are_ways();
}

/// A program that was checked races on no way.
pub fn checked_races_on_no_way(checked: &Checked)
    ensures { NoWayRaces OfLanguage (stmts_of checked.now.program.body.items) }
{
    accepted_races_on_no_way();
}

/// Nothing races in the run of a job.
pub fn nothing_races_in(job: &JobSpec)
    ensures { NothingRaces (events_of this_way (stmts_of job.now.checked.program.body.items) job.now.before) }
{
    let _named = job.checked();
    accepted_races_in_no_run();
}
