//! Laws of races. Each is the contract of a function that does nothing: a caller that needs the law
//! calls it.
ghost use Rattle.ot_race.specs.Laws.{ThisWayIsSerial, BeforeIsEarlier};

/// The way of the run is that of the serial meaning.
pub fn this_way_is_serial()
    ensures { ThisWayIsSerial }
{}

/// What is before an event in every schedule is before it in the serial run.
pub fn before_is_earlier()
    ensures { BeforeIsEarlier }
{}
