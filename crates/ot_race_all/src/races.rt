use ot_race::Race;

/// The first races of a list of events, and how many more there are.
#[derive(Debug, Drop)]
pub struct Races {
    /// Each pair of places once, in the order of the first event by which they race. The first one is the race that
    /// `ot_race::judge` tells.
    pub told: Vec<Race>,
    pub more: More,
}

/// How many races there are that aren't told.
#[derive(Clone, Copy, Debug, PartialEq, Eq)]
pub enum More {
    Exactly(u64),
    /// So many were found before it was given up to compare.
    AtLeast(u64),
}
