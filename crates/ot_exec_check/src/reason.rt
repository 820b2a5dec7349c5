//! Why a run ended, in words.
use ot_exec_machine::Reason;

/// Why a run ended.
pub(crate) fn of_run(reason: Reason) -> &'static str {
    match reason {
        Reason::Broken => "this can't be executed",
        Reason::Null => "a null pointer is used here",
        Reason::NoPlace => "a pointer is used here of which nothing is known",
        Reason::Outside => "an index is outside of its array here",
        Reason::Ended => "what is used here has ended",
        Reason::NoFunction => "the function that is called here isn't known",
        Reason::Taken => "the lock that is taken here is held by the task, or by one around it",
        Reason::NotHeld => "the task doesn't hold the lock that is given back here",
        Reason::Changes(_) => "too many variables are written under locks",
        Reason::TooManyLocks => "there are too many locks",
        Reason::NoGroup => "no reduction that is open has this item",
        Reason::DivideByZero => "a division by 0",
        Reason::UnknownCondition => "nothing is known of the condition of this loop",
        Reason::UnknownLength => "nothing is known of this length",
        Reason::TooDeep => "calls and tasks nest too deep here",
        Reason::TooManyItems => "a clause has too many items",
        Reason::TooManySteps => "the run takes too many steps",
        Reason::TooManyEvents => "the run touches too many cells",
        Reason::TooManyTasks => "the run creates too many tasks",
        Reason::TooManyTurns => "the run has too many calls and turns of loops",
        Reason::TooMuch => "the run needs too much memory",
    }
}
