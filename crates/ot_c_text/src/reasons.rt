//! Why a text means no program, in words.
ghost use Rattle.std.specs.Prelude.{◌≡◌};
ghost use Rattle.ot_c_text.specs.Reasons as meant;

use ot_c_program::Reason;
use ot_c_words::Wrong;

/// Why a text has no words.
pub(crate) fn word_reason(wrong: Wrong) -> &'static str
    ensures { result.now ≡ meant.word_reason wrong }
{
    match wrong {
        Wrong::NoWord => "here begins nothing that is read",
        Wrong::NoNumber =>
            "a number is decimal or hexadecimal, with an end that says its type or none",
        Wrong::TooLarge => "no type has this number",
        Wrong::OpenComment => "this comment doesn't end",
        Wrong::SplicedComment => "this comment goes on behind a backslash",
        Wrong::OpenText => "this string doesn't end on its line",
        Wrong::Trigraph => "this has a trigraph: ?? and a mark, which C reads as another mark",
        Wrong::OtherDirective => "of directives #include, #define and #pragma omp are read",
    }
}

/// Why words say no value, or no clause.
fn part_reason(fault: ot_c_expressions::Fault) -> &'static str
    ensures { result.now ≡ meant.part_reason fault }
{
    match fault {
        ot_c_expressions::Fault::NoValue(_) => "a value that is read has to begin here",
        ot_c_expressions::Fault::NoMark(_) =>
            "what stands here has no form in the server's programs",
        ot_c_expressions::Fault::NoName(_) => "a name has to stand here",
        ot_c_expressions::Fault::NoClause(_) =>
            "this clause, or this item of one, has no form in the server's programs",
        ot_c_expressions::Fault::TooDeep(_) =>
            "brackets nest too deep, or too many signs stand in a row",
        ot_c_expressions::Fault::TooLong(_) => "the text ends before it is whole",
    }
}

/// Why words say no file.
pub(crate) fn file_reason(fault: ot_c_statements::Fault) -> &'static str
    ensures { result.now ≡ meant.file_reason fault }
{
    match fault {
        ot_c_statements::Fault::Part(part) => part_reason(part),
        ot_c_statements::Fault::NoMark(_) =>
            "what stands here has no form in the server's programs",
        ot_c_statements::Fault::NoName(_) => "a name has to stand here",
        ot_c_statements::Fault::NoText(_) => "a string has to stand here",
        ot_c_statements::Fault::NoType(_) =>
            "a type has to stand here, as int, unsigned, long, uint64_t or size_t",
        ot_c_statements::Fault::NoVariable(_) => "the name of a loop's variable has to stand here",
        ot_c_statements::Fault::OtherVariable(_) =>
            "a loop tests and steps the variable that it declares",
        ot_c_statements::Fault::OtherStep(_) => "a loop goes on by one",
        _ => statement_reason(fault),
    }
}

fn statement_reason(fault: ot_c_statements::Fault) -> &'static str
    ensures { result.now ≡ meant.statement_reason fault }
{
    match fault {
        ot_c_statements::Fault::NoStatement(_) =>
            "this statement has no form in the server's programs",
        ot_c_statements::Fault::Declared(_) =>
            "a block's variable has no form in the server's programs: tasks would copy it",
        ot_c_statements::Fault::NoDirective(_) =>
            "this directive has no form in the server's programs here",
        ot_c_statements::Fault::OtherClause(_) =>
            "this directive isn't read with all of these clauses",
        ot_c_statements::Fault::NoSingle(_) =>
            "single, master or masked has to stand here, without clauses",
        ot_c_statements::Fault::NoConstant(_) =>
            "a constant is a number, a name, or a value in brackets",
        ot_c_statements::Fault::NoRegion(_) => "main has no parallel region",
        ot_c_statements::Fault::More(_) => "nothing stands behind main",
        ot_c_statements::Fault::TooDeep(_) => "statements nest too deep",
        _ => "the text ends before it is whole",
    }
}

/// Why a file has no program.
pub(crate) fn program_reason(reason: Reason) -> &'static str
    ensures { result.now ≡ meant.program_reason reason }
{
    match reason {
        Reason::Unknown => "this names what isn't declared",
        Reason::NoName => "a name here has 1 to 16 of a to z, 0 to 9 and _, a letter first",
        Reason::Reserved =>
            "this word means something in C or in a directive, and names nothing else here",
        Reason::Twice => "this declares a name that means something already",
        Reason::OtherType => "a pointer points to a cell of type uint64_t",
        Reason::Conversion => "the type of what is assigned to may not hold this number",
        Reason::NoConstant => "this wants a constant number that its type holds",
        Reason::NoLength => "an array has 1 to 65536 cells, and no more values than cells",
        Reason::NoSize => "a place and a bound are made of numbers and loop variables by + - *",
        Reason::OwnBound => "this loop's bounds name its own variable",
        Reason::Narrow => "an int begins with a number of type int",
        _ => use_reason(reason),
    }
}

fn use_reason(reason: Reason) -> &'static str
    ensures { result.now ≡ meant.use_reason reason }
{
    match reason {
        Reason::WholeArray => "this names an array whole where a number is wanted",
        Reason::NoArray => "this names a cell of what is no array",
        Reason::LoopVariable => "a loop's variable is read only, and each task has a copy",
        Reason::Constant => "a constant is read only, and no cell",
        Reason::Wraps => "numbers of type unsigned may wrap here",
        Reason::Signed => "a number that may be negative is compared or divided as an unsigned one",
        Reason::Rest => "% is by a power of two, or in an array's index",
        Reason::Shift => "<< is of a uint64_t, by a known number below 64, or of known numbers",
        Reason::Quotient => "/ and >> are of numbers that are known",
        Reason::LeftOut => "what && || ?: may leave out here reads no cell and has no ?:",
        _ => directive_reason(reason),
    }
}

fn directive_reason(reason: Reason) -> &'static str
    ensures { result.now ≡ meant.directive_reason reason }
{
    match reason {
        Reason::Combined =>
            "an open group combines over this: a task may only fold into its own copy of it",
        Reason::OwnCopy => "a task's copy is only folded into, by its operation",
        Reason::NoGroup => "no open group combines over this by the operation",
        Reason::Operations => "a group combines by one operation",
        Reason::Private => "only a loop's variable is firstprivate",
        Reason::Iterator => "an iterator counts single cells, as in a[i]",
        Reason::NoRegion => "tasks, waits and groups stand in a parallel region",
        _ => name_reason(reason),
    }
}

fn name_reason(reason: Reason) -> &'static str
    ensures { result.now ≡ meant.name_reason reason }
{
    match reason {
        Reason::Pointer => "a pointer only stands for a cell that a reduction names by it",
        Reason::Pointee => "a pointer points to one cell, at a number, wherever it is declared",
        Reason::NoDependence => "in_reduction by a pointer wants its cell under depend(in: ..)",
        Reason::CallInGroup => "a function is called here while a group combines",
        Reason::Unlisted => "default(none) stands here, and no clause lists this",
        Reason::TooMany => "a program has at most 20000 statements",
        _ => "a call of this function has no form in the server's programs",
    }
}
