//! Why a unit isn't translated.
use ot_exec_sharing as sharing;
use ot_exec_tree::Directive;
use std::alloc::{AllocError, AllocFailed};
use std::fmt;

/// What isn't translated.
#[derive(Clone, Copy, Debug, PartialEq, Eq)]
pub enum Why {
    /// A `goto` into a block, or past what begins a variable; or there are too many.
    Goto,
    /// It nests too deep.
    Nesting,
    /// It is too long.
    Length,
    Directive(Directive),
    /// The threads of a team come to different barriers.
    Apart,
    /// What all threads of a team come to stands where they don't come together.
    Orphan,
    /// A loop with `nowait` and with what may say which thread has which turn.
    Schedule,
    /// Work that threads share, with a thread's variable that it shares with tasks.
    Lent,
    /// `default(none)`, and no clause names this variable.
    Unsaid(u32),
    /// A clause of a form that isn't translated.
    Clause,
    Iterator,
    /// A loop that isn't of the form that its construct wants.
    Loop,
    /// A jump out of a construct, or out of nothing.
    Jump,
    /// A label that isn't in the block of its `switch`.
    Label,
    /// No such label is in the same construct.
    NoLabel,
    NotConstant,
    NotDeclared,
    NoPlace,
    NoPointer,
    NoRecord,
    NoMember,
    /// An operation on such values, or a conversion of them.
    Operation,
    /// A type that isn't complete, or whose length isn't known.
    Incomplete,
    Section,
    /// A pointer to a member of a union that has bytes in common with others, or an item that is one.
    Union,
    /// Too few arguments.
    Arguments,
    /// A function of the library that isn't modelled.
    Library,
    Atomic,
    /// A form of `atomic` that isn't translated.
    AtomicForm,
    Threadprivate,
    Initial,
    /// No function begins the run.
    NoEntry,
}

#[derive(Clone, Copy, Debug, PartialEq, Eq)]
pub enum Fault {
    Memory,
    /// At this token.
    Refused(u32, Why),
}

impl From<AllocError> for Fault {
    fn from(_e: AllocError) -> Fault {
        Fault::Memory
    }
}

impl<T: Drop> From<AllocFailed<T>> for Fault {
    fn from(_e: AllocFailed<T>) -> Fault {
        Fault::Memory
    }
}

impl From<sharing::Fault> for Fault {
    fn from(e: sharing::Fault) -> Fault {
        match e {
            sharing::Fault::Memory => Fault::Memory,
            sharing::Fault::Unsaid(at, variable) => Fault::Refused(at, Why::Unsaid(variable)),
            sharing::Fault::Limit(at) => Fault::Refused(at, Why::Nesting),
        }
    }
}

fn directive_name(directive: Directive) -> &'static str {
    match directive {
        Directive::Parallel => "parallel",
        Directive::For => "for",
        Directive::Sections => "sections",
        Directive::Section => "section",
        Directive::Single => "single",
        Directive::Masked => "masked",
        Directive::Task => "task",
        Directive::Taskloop => "taskloop",
        Directive::Taskgroup => "taskgroup",
        Directive::Taskwait => "taskwait",
        Directive::Taskyield => "taskyield",
        Directive::Critical => "critical",
        Directive::Atomic => "atomic",
        Directive::Barrier => "barrier",
        Directive::Simd => "simd",
        Directive::Flush => "flush",
        Directive::Scope => "scope",
    }
}

fn words(why: Why) -> &'static str {
    match why {
        Why::Goto =>
            "a `goto` into a block, or past the begin of a variable, or one of more than 256, isn't executed yet",
        Why::NoLabel => "this label isn't there, or a construct stands between",
        Why::Nesting => "this nests too deep",
        Why::Length => "this is too long",
        Why::Directive(_) => "this construct isn't executed yet",
        Why::Apart => "the threads of this team don't all come to the same barriers",
        Why::Orphan =>
            "what a team does together isn't executed yet in a function, a task or a construct within its region",
        Why::Schedule => "`schedule` and its kin beside `nowait` aren't executed yet",
        Why::Lent =>
            "what threads do together isn't executed yet with a thread's variable that tasks share",
        Why::Unsaid(_) => "`default(none)`, and a variable is in no clause",
        Why::Clause => "this form of a clause isn't executed yet",
        Why::Iterator =>
            "several iterators of a clause, one with more than 128 numbers, or with a step that is no constant above 0, aren't executed yet",
        Why::Loop => "this loop isn't of the form that its construct wants",
        Why::Jump => "a jump that leaves a construct",
        Why::Label => "a label that isn't in the block of its `switch` isn't executed yet",
        Why::NotConstant => "here a constant is expected",
        Why::NotDeclared => "this name isn't declared",
        Why::NoPlace => "here a place is expected",
        Why::NoPointer => "here a pointer is expected",
        Why::NoRecord => "here a struct is expected",
        Why::NoMember => "there is no such member",
        Why::Operation => "an operation on such values isn't executed",
        Why::Incomplete => "a type whose size isn't known",
        Why::Section => "an array section has no value",
        Why::Union =>
            "a member of a `union` whose members aren't all of one size isn't executed yet where it is pointed to, or named by a clause",
        Why::Arguments => "too few arguments",
        Why::Library => "this function of the library isn't executed yet",
        Why::Atomic => "`_Atomic` isn't executed yet",
        Why::AtomicForm => "this form of `atomic` isn't executed yet",
        Why::Threadprivate => "`threadprivate` isn't executed yet",
        Why::Initial => "this initial value isn't executed yet",
        Why::NoEntry => "no function begins the run",
    }
}

impl fmt::Display for Why {
    fn fmt<W: fmt::Write>(&self, f: &mut fmt::Formatter<W>) -> fmt::Result {
        match self {
            Why::Directive(directive) => {
                let name = directive_name(*directive);
                write!(f, "`{name}` isn't executed yet")
            }
            other => {
                let words = words(*other);
                write!(f, "{words}")
            }
        }
    }
}
