//! Who chooses among moves.
use std::alloc::AllocError;

/// Chooses one of so many moves, which stand in order from 0, and who takes a piece that is claimed.
pub(crate) trait Choose {
    fn choose(&mut self, count: usize) -> Result<usize, AllocError>;

    /// Which of 16 workers takes a piece beside so many that are out: the number, counted from 0, modulo 16.
    fn taker(&mut self, out: usize) -> Result<usize, AllocError>;
}

/// The first, the last, or the two in turn.
#[derive(Clone, Copy, Debug)]
pub(crate) enum Ends {
    First,
    Last,
    /// The first, and the last next time.
    FirstInTurn,
    /// The last, and the first next time.
    LastInTurn,
}

impl Choose for Ends {
    fn choose(&mut self, count: usize) -> Result<usize, AllocError> {
        let last = count.saturating_sub(1);
        match *self {
            Ends::First => Ok(0),
            Ends::Last => Ok(last),
            Ends::FirstInTurn => {
                *self = Ends::LastInTurn;
                Ok(0)
            }
            Ends::LastInTurn => {
                *self = Ends::FirstInTurn;
                Ok(last)
            }
        }
    }

    fn taker(&mut self, out: usize) -> Result<usize, AllocError> {
        Ok(out)
    }
}

/// Who takes the pieces that are claimed.
#[derive(Clone, Copy, Debug)]
pub(crate) enum Takers {
    /// One worker takes all.
    One,
    /// Two take them in turn, this one the next.
    InTurn(usize),
    /// As many workers as pieces are out at a time: the next one beside those that are out.
    Beside,
    /// Any of three, where those that have taken none yet are alike.
    AnyOfThree,
}

/// The choices of one run, of moves and of workers: what was chosen, and among how many. Run after run it goes each way
/// once.
#[derive(Drop)]
pub(crate) struct Script {
    choices: Vec<(usize, usize)>,
    made: usize,
    takers: Takers,
    /// How many workers have taken a piece in this run, where it is any of three.
    known: usize,
}

impl Script {
    /// The first way: always the first move.
    pub(crate) fn new(none: Vec<(usize, usize)>, takers: Takers) -> Script {
        Script {
            choices: none,
            made: 0,
            takers,
            known: 0,
        }
    }

    /// Goes over to the next way, if there is one.
    pub(crate) fn turn(&mut self) -> Result<bool, AllocError> {
        self.made = 0;
        self.known = 0;
        for _ in 0..self.choices.len() {
            let Some((chosen, count)) = self.choices.pop() else {
                break;
            };
            let next = chosen.saturating_add(1);
            if next < count {
                self.choices.push((next, count))?;
                return Ok(true);
            }
        }
        Ok(false)
    }
}

impl Choose for Script {
    fn choose(&mut self, count: usize) -> Result<usize, AllocError> {
        let place = self.made;
        self.made = place.saturating_add(1);
        if let Some((chosen, _)) = self.choices.get(place) {
            return Ok(*chosen);
        }
        self.choices.push((0, count))?;
        Ok(0)
    }

    fn taker(&mut self, out: usize) -> Result<usize, AllocError> {
        match self.takers {
            Takers::One => Ok(0),
            Takers::InTurn(next) => {
                self.takers = Takers::InTurn(usize::from(next == 0));
                Ok(next)
            }
            Takers::Beside => Ok(out),
            Takers::AnyOfThree => {
                let taker = self.choose(self.known.saturating_add(1).min(3))?;
                self.known = self.known.max(taker.saturating_add(1));
                Ok(taker)
            }
        }
    }
}

/// Choices that come of a number, by xorshift.
#[derive(Clone, Copy, Debug)]
pub(crate) struct Random {
    pub number: u64,
}

impl Choose for Random {
    fn choose(&mut self, count: usize) -> Result<usize, AllocError> {
        self.number ^= self.number << 13;
        self.number ^= self.number >> 7;
        self.number ^= self.number << 17;
        let high = (self.number >> 33) as usize;
        Ok(high.checked_rem(count).unwrap_or(0))
    }

    fn taker(&mut self, _out: usize) -> Result<usize, AllocError> {
        self.choose(16)
    }
}
