use ot_model::Cell;
use ot_race::Race;

/// What a judge tells of events that hold locks.
#[derive(Clone, Copy, Debug, PartialEq, Eq)]
pub enum Apart {
    RacesNowhere,
    /// The first race of two events that hold no lock in common.
    Races(Race),
    /// This cell is touched in more than 64 kinds, each a set of locks with a mode.
    TooMany(Cell),
}
