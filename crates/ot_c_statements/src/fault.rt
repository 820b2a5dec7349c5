//! Why words aren't read.
ghost use Rattle.std.specs.Prelude.{◌≡◌};
ghost use Rattle.ot_c_statements.specs.Faults as read;

/// What is wrong, with how many words are left where it is.
#[derive(Clone, Copy, Debug, PartialEq, Eq)]
pub enum Fault {
    /// No value that is read, or no clause.
    Part(ot_c_expressions::Fault),
    /// Another mark has to stand here.
    NoMark(usize),
    /// A name has to stand here.
    NoName(usize),
    /// A string has to stand here.
    NoText(usize),
    /// A type has to stand here: a loop declares its variable.
    NoType(usize),
    /// A loop's variable has to stand here: a name that means nothing by itself.
    NoVariable(usize),
    /// A loop tests and steps the variable that it declares, and no other.
    OtherVariable(usize),
    /// A loop goes on by one.
    OtherStep(usize),
    /// No statement that is read.
    NoStatement(usize),
    /// A variable that is declared in a block: tasks would have copies of it.
    Declared(usize),
    /// No directive that is read here.
    NoDirective(usize),
    /// A directive with a clause that isn't its own.
    OtherClause(usize),
    /// No `single`, `master` or `masked`: what one thread does has to stand here.
    NoSingle(usize),
    /// No constant that is read: a number, a name, or a value in brackets, under a name that means nothing by itself.
    NoConstant(usize),
    /// No parallel region stands in `main`, which ends here.
    NoRegion(usize),
    /// Words behind `main`.
    More(usize),
    /// Statements nest too deep.
    TooDeep(usize),
    /// More words than there are: it doesn't come.
    TooLong(usize),
}

/// How many words are left where a value or a clause isn't read.
fn part_left(fault: ot_c_expressions::Fault) -> usize
    ensures { result ≡ read.part_left fault }
{
    match fault {
        ot_c_expressions::Fault::NoValue(left)
        | ot_c_expressions::Fault::NoMark(left)
        | ot_c_expressions::Fault::NoName(left)
        | ot_c_expressions::Fault::NoClause(left)
        | ot_c_expressions::Fault::TooDeep(left)
        | ot_c_expressions::Fault::TooLong(left) => left,
    }
}

/// How many words are left where a fault is.
pub fn words_left(fault: Fault) -> usize
    ensures { result ≡ read.words_left fault }
{
    match fault {
        Fault::Part(part) => part_left(part),
        Fault::NoMark(left)
        | Fault::NoName(left)
        | Fault::NoText(left)
        | Fault::NoType(left)
        | Fault::NoVariable(left)
        | Fault::OtherVariable(left)
        | Fault::OtherStep(left)
        | Fault::NoStatement(left)
        | Fault::Declared(left)
        | Fault::NoDirective(left)
        | Fault::OtherClause(left)
        | Fault::NoSingle(left)
        | Fault::NoConstant(left)
        | Fault::NoRegion(left)
        | Fault::More(left)
        | Fault::TooDeep(left)
        | Fault::TooLong(left) => left,
    }
}

/// Why nothing was read: want of memory, or such a fault.
pub type ReadError = ot_c_words::ReadError<Fault>;
