//! The laws of orders. Each is the contract of a function that does nothing: a caller that needs the law
//! calls it.
ghost use Rattle.ot_race_order.specs.Laws.{AlikeRacesInLanguage, NoFoldIsSame};

/// Where no task declares a fold events are those of the language.
pub fn no_fold_is_same()
    ensures { NoFoldIsSame }
{}

/// Where tasks are ordered as in the language, what races does so in the language too.
pub fn alike_races_in_language()
    ensures { AlikeRacesInLanguage }
{}
