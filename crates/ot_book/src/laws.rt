//! Laws of requests and what is told of them. Each is the contract of a function that does nothing: a
//! caller that needs the law calls it.
ghost use Rattle.ot_book.specs.Answers.{AnswersGoOn, RepliesGoOn};
ghost use Rattle.ot_book.specs.Room.{RoomGoesOn, TakesWhereFree};

/// The replies to lines followed by others are those to the first ones, and then those to the others
/// from the state after the first.
pub fn replies_go_on()
    ensures answers { AnswersGoOn }
    ensures replies { RepliesGoOn }
{}

/// The room of a book after a line is that of the book with the line counted.
pub fn room_goes_on()
    ensures { RoomGoesOn }
{}

/// A book without an open request takes a line exactly where it isn't full for it.
pub fn takes_where_free()
    ensures { TakesWhereFree }
{}
