use crate::kind::Kind;
use crate::operation::Operation;
use ot_model::Fold;

/// How a task depends by an item (OpenMP API 5.2, section 15.9.5): `InOut` is for `out` too.
#[derive(Clone, Copy, Debug, PartialEq, Eq)]
pub enum Depends {
    In,
    InOut,
    /// Siblings that say so one after the other are in no order, and exclude each other.
    MutexInOutSet,
    /// Such siblings are in no order.
    InOutSet,
}

/// An item of a `depend` clause: how the task depends, and the slot that has the place where the item begins.
#[derive(Clone, Copy, Debug, PartialEq, Eq)]
pub struct Item {
    pub mode: Depends,
    pub slot: u32,
}

/// An item of a `task_reduction` clause: its operation, the slot that has the place of its first cell, and the one that has how many cells it has.
#[derive(Clone, Copy, Debug, PartialEq, Eq)]
pub struct Folded {
    pub fold: Fold,
    pub slot: u32,
    pub count: u32,
}

/// A form of the machine's code. Slots are those of the function or task that runs, from 0; the first slot of those named is
/// what the form gives. A site is a number by which whoever made the code finds the place in the text.
#[derive(Debug, Drop)]
pub enum Form {
    /// A number.
    Number(u32, u64),
    /// A value of which nothing is known.
    Unknown(u32),
    /// The value of another slot.
    Copy(u32, u32),
    /// The place of this object at this index.
    Address(u32, u32, u32),
    /// The function of this number.
    Function(u32, u32),
    /// An operation on two values, of this type.
    Operate(u32, Operation, Kind, u32, u32),
    /// A value, converted to this type.
    Convert(u32, Kind, u32),
    /// A place, moved on by a number of elements, each of so many cells. The last number is how many cells the array has that begins at
    /// the place, where that is known, and else 0: where the number of elements isn't known, it leads somewhere there.
    Advance(u32, u32, u32, u32, u32),
    /// How many elements of so many cells lie from the second place to the first one.
    Distance(u32, u32, u32, u32),
    /// A new object of so many cells, with a number by which it is named; its cells are 0, or unknown where the last is false. It gives
    /// the place where it begins.
    Begin(u32, u32, u32, bool),
    /// As `Begin`, with the number by which it is named first, of as many elements as the slot behind that has, each of so many cells.
    Allocate(u32, u32, u32, u32, bool),
    /// The object ends at which the slot's place lies: its cells may not be touched any more. The first number is the site.
    End(u32, u32),
    /// At this site: to the slot the value of the cell at the second slot's place.
    Load(u32, u32, u32),
    /// At this site: to the cell at the slot's place the value of the second slot.
    Store(u32, u32, u32),
    /// As `Load` and `Store`, but they touch no cell that others see: a private copy, or the start of a global.
    LoadOwn(u32, u32, u32),
    StoreOwn(u32, u32, u32),
    /// The cells from the slot's place on, as many as the second slot has, are read, or written with what isn't known.
    ReadRange(u32, u32, u32),
    WriteRange(u32, u32, u32),
    /// Goes on there.
    Jump(u32),
    /// At this site: goes on there where the slot's value is 0. One that isn't known is a question.
    Branch(u32, u32, u32),
    /// As `Branch`, of a loop: a value that isn't known is a fault.
    Repeat(u32, u32, u32),
    /// At this site: calls the function of this number, whose first slots are those from this one on; it gives its own first slot.
    Call(u32, u32, u32),
    /// As `Call`, of the function that the first slot has.
    CallBy(u32, u32, u32),
    Return,
    /// At this site: creates a task and executes it here. Its slots are those from `first` on; `behind` is where its parent goes on. Where
    /// `when` is a slot whose value is 0, the task is undeferred (OpenMP API 5.2, section 12.5); one that isn't known is a question.
    Task {
        site: u32,
        first: u32,
        slots: u32,
        behind: u32,
        items: Vec<Item>,
        when: Option<u32>,
    },
    /// The task ends.
    Finish,
    /// At this site: waits for all children.
    Wait(u32),
    /// Or for those on which a task with these items would depend.
    WaitFor(u32, Vec<Item>),
    /// At this site: a region begins, whose end waits for all tasks that are created in it.
    Group(u32, Vec<Folded>),
    /// At this site: it ends, and writes the items of its reductions.
    Leave(u32),
    /// At this site: the task takes the lock that the slot's value names: a number that isn't 0, or a place. So `critical` has a number
    /// for each name, `atomic` has one, and a lock variable has its place.
    Lock(u32, u32),
    /// At this site: the task leaves that lock.
    Unlock(u32, u32),
    /// At this site: the cell at the slot's place has to be an item, by this operation, of a region that is open.
    Joins(u32, Fold, u32),
    /// A turn of the loop of this site begins: the second slot has its number, or its variable's.
    Turn(u32, u32),
    /// To the slot the context in which this runs: calls and turns of loops.
    Context(u32),
    /// Goes back to the context of the slot.
    Within(u32),
    /// The run ends.
    Stop,
}

/// A function: where its code begins, and how many slots it has.
#[derive(Clone, Copy, Debug, PartialEq, Eq)]
pub struct Function {
    pub start: u32,
    pub slots: u32,
}

/// Code: its forms, of which the first begins the run, the slots of the run itself, and its functions by their numbers.
#[derive(Debug, Drop)]
pub struct Code {
    pub forms: Vec<Form>,
    pub slots: u32,
    pub functions: Vec<Function>,
    /// The names of objects that tasks write under locks: their order isn't known, so what is there isn't either.
    pub changing: Vec<u32>,
}

ghost use Rattle.std.specs.Prelude.{◌≡◌, ◌<◌, ◌+◌, length, take};
ghost use Rattle.std.specs.Option.{option_or};
ghost use Rattle.ot_exec_code.specs.Sites.{site_of, last_site};

impl Form {
    /// Its site, if it has one.
    pub fn site(&self) -> Option<u32>
        ensures { result ≡ site_of self.now }
    {
        match self {
            Form::End(site, _)
            | Form::Load(site, _, _)
            | Form::Store(site, _, _)
            | Form::LoadOwn(site, _, _)
            | Form::StoreOwn(site, _, _)
            | Form::ReadRange(site, _, _)
            | Form::WriteRange(site, _, _)
            | Form::Branch(site, _, _)
            | Form::Repeat(site, _, _)
            | Form::Call(site, _, _)
            | Form::CallBy(site, _, _)
            | Form::Task { site, .. }
            | Form::Wait(site)
            | Form::WaitFor(site, _)
            | Form::Group(site, _)
            | Form::Leave(site)
            | Form::Lock(site, _)
            | Form::Unlock(site, _)
            | Form::Joins(site, _, _)
            | Form::Turn(site, _) => Some(*site),
            _ => None,
        }
    }
}

impl Code {
    /// The site of a form, or that of the last one before it that has one.
    pub fn site(&self, at: usize) -> Option<u32>
        requires { at < length self.now.forms.items }
        ensures { result ≡ last_site (take (at + 1) self.now.forms.items) }
    {
        let mut found = None;
        for form in &self.forms[..at + 1] {
            found = later_of(form.site(), found);
        }
        found
    }
}

/// The later site, where there is one.
fn later_of(later: Option<u32>, earlier: Option<u32>) -> Option<u32>
    ensures { result ≡ option_or later earlier }
{
    match later {
        Some(site) => Some(site),
        None => earlier,
    }
}
