//! What is at fault in a program.
ghost use Rattle.std.specs.Prelude.{◌≡◌, None};
ghost use Rattle.ot_why_fault.specs.Whys.{refusal_of, why_noted, after, why_by, whys_unless};
ghost use Rattle.ot_why_fault.specs.Walk.{told_by};

use ot_model::Op;
use ot_program::Refusal;
use serde_json::Value;

/// What is wanted in the place of a part that is of no form.
#[derive(Clone, Copy, Debug, PartialEq, Eq)]
pub enum Wanted {
    Program,
    List,
    Name,
    Number,
    Sign,
    Size,
    Cell,
    Section,
    Operation,
    Value,
    Clause,
    WaitClause,
    Fold,
}

/// What a program has too much of.
#[derive(Clone, Copy, Debug, PartialEq, Eq)]
pub enum Count {
    Statements,
    Turns,
    Nodes,
    Cells,
}

/// A fault, with what is compared.
#[derive(Clone, Copy, Debug)]
pub enum Why<'a> {
    /// The part is of no form.
    Form(&'a Value, Wanted),
    /// The statement is of no form.
    NoStatement,
    /// No loop around binds the variable.
    Unbound(&'a str),
    /// The number is no size.
    TooGreat(u64),
    /// The operation of two sizes is none.
    NotExact(Op, u64, u64),
    /// No array has this name.
    Unknown(&'a str),
    /// The array has no cell at this index, but so many.
    NoCell(&'a str, u64, u32),
    /// The array has no cells from this start on so many, but so many in all.
    NoCells(&'a str, u64, u64, u32),
    /// The section of this array, from this start on, is of no cell.
    Empty(&'a str, u64),
    /// A body stands in so many others.
    Nested(u32),
    /// The expression is so deep.
    Deep(&'a Value, u64),
    /// There are so many, and may be so many.
    TooMany(Count, u64, u64),
    /// There are so many task statements, and may be so many.
    TooManyTasks(u64, u64),
    /// The cell of this array at this index is declared under `red` and otherwise.
    Mixed(&'a str, u32),
}

impl Why<'_> {
    /// What a client is told of it.
    pub fn refusal(self) -> Refusal
        ensures { result ≡ refusal_of (why_by self.entry) }
    {
        match self {
            Why::Form(_, _) | Why::NoStatement => Refusal::Form,
            Why::Unbound(_) | Why::TooGreat(_) | Why::NotExact(_, _, _) => Refusal::Size,
            Why::Unknown(_) => Refusal::UnknownArray,
            Why::NoCell(_, _, _) | Why::NoCells(_, _, _, _) => Refusal::OutOfRange,
            Why::Empty(_, _) => Refusal::EmptySection,
            Why::Nested(_) | Why::Deep(_, _) | Why::TooMany(_, _, _) => Refusal::TooLarge,
            Why::TooManyTasks(_, _) => Refusal::TooManyTasks,
            Why::Mixed(_, _) => Refusal::MixedReduction,
        }
    }
}

/// The first fault of some, in the order in which those of one statement are told.
#[derive(Clone, Copy, Debug)]
pub(crate) struct First<'a> {
    pub(crate) why: Option<Why<'a>>,
}

impl<'a> First<'a> {
    /// Of none.
    pub(crate) fn new() -> First<'a>
        ensures { told_by result ≡ None }
    {
        First { why: None }
    }

    /// One fault more.
    pub(crate) fn note(&mut self, why: Why<'a>)
        ensures { told_by self.new ≡ why_noted (told_by self.old) (why_by why.entry) }
    {
        self.why = Some(match self.why {
            Some(earlier) if rank(earlier.refusal()) <= rank(why.refusal()) => earlier,
            _ => why,
        });
    }

    /// One fault more, unless a test holds.
    pub(crate) fn unless(&mut self, test: bool, why: Why<'a>)
        ensures { told_by self.new ≡ after (told_by self.old) (whys_unless test (why_by why.entry)) }
    {
        if !test {
            self.note(why);
        }
    }
}

ghost use Rattle.ot_program.specs.Faults.{rank};

/// The place of a fault in that order.
fn rank(refusal: Refusal) -> u8
    ensures { result ≡ rank refusal }
{
    match refusal {
        Refusal::Form => 0,
        Refusal::Size => 1,
        Refusal::UnknownArray => 2,
        Refusal::OutOfRange => 3,
        Refusal::EmptySection => 4,
        Refusal::TooLarge => 5,
        Refusal::TooManyTasks => 6,
        Refusal::MixedReduction => 7,
    }
}
