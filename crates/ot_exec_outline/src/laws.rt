//! Laws of outlines. Each is the contract of a function that does nothing.
ghost use Rattle.ot_exec_outline.specs.Apart.{AwaitsIt, AwaitsNoOther, OrdersNoOther};
ghost use Rattle.ot_exec_outline.specs.Laws.{AnswersAreAWay, OutlineHappens, OutlineIsPlain, OutlineIsSame};

/// On each way the events of a program's outline are those of the program.
pub fn outline_happens()
    ensures { OutlineHappens }
{}

/// The outline of a program has a form in the language for each step.
pub fn outline_is_plain()
    ensures { OutlineIsPlain }
{}

/// Its program is that program.
pub fn outline_is_same()
    ensures { OutlineIsSame }
{}

/// What happens on the way of some answers is told without the cells that it begins with.
pub fn answers_are_a_way()
    ensures { AnswersAreAWay }
{}

/// The wait behind an undeferred task awaits it.
pub fn awaits_it()
    ensures { AwaitsIt }
{}

/// And no other task.
pub fn awaits_no_other()
    ensures { AwaitsNoOther }
{}

/// What it declares orders it with no more tasks than its clauses do.
pub fn orders_no_other()
    ensures { OrdersNoOther }
{}
