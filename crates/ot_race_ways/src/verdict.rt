use ot_race::Race;

/// Whether the `if` of this place takes its first body.
#[derive(Clone, Copy, Debug, PartialEq, Eq)]
pub struct Turn {
    pub place: u32,
    pub first: bool,
}

/// What is told of all ways through a program.
#[derive(Debug, Drop)]
pub enum Verdict {
    RacesOnNoWay,
    /// The first race on the way that takes these turns.
    RacesOnWay(Vec<Turn>, Race),
    /// It has more than 1,024 ways, or more than 2,000,000 statements on all of them together, or these name more than 20,000,000
    /// cells, and none was judged.
    TooManyWays,
}
