//! Statements without a body: assignments, calls, and what shows cells.
ghost use Rattle.std.specs.Prelude.{◌≡◌, ◌≤◌, length};
ghost use Rattle.ot_c_words.specs.Reading.{Gives};
ghost use Rattle.ot_c_expressions.specs.Tree.{expr_of};
ghost use Rattle.ot_c_statements.specs.Tree.{aim_of, exprs_of, site_of, stmt_of};
ghost use Rattle.ot_c_statements.specs.Simple as read;

use crate::fault::{Fault, ReadError};
use crate::marks::{behind_mark, name, text};
use crate::part::{read_index, value, values};
use crate::tree::{Spot, Stmt, Target};
use ot_c_expressions::{Expr, Sign};
use ot_c_words::{IntegerType, Mark, Name, Word};
use std::alloc::Global;

/// What an assignment does, by its mark.
#[derive(Clone, Copy)]
pub(crate) enum Change {
    /// `=`
    Sets,
    /// A sign and `=`.
    By(Sign),
    /// `++` or `--`
    ByOne(Sign),
}

#[tactic(auto, unfolding(crate::specs::Simple::change_of))]
fn change_of(mark: Mark) -> Option<Change>
    ensures { result ≡ read.change_of mark }
{
    match mark {
        Mark::Assign => Some(Change::Sets),
        Mark::AddAssign => Some(Change::By(Sign::Plus)),
        Mark::SubtractAssign => Some(Change::By(Sign::Minus)),
        Mark::MultiplyAssign => Some(Change::By(Sign::Times)),
        Mark::AndAssign => Some(Change::By(Sign::And)),
        Mark::OrAssign => Some(Change::By(Sign::Or)),
        Mark::XorAssign => Some(Change::By(Sign::Xor)),
        Mark::Increment => Some(Change::ByOne(Sign::Plus)),
        Mark::Decrement => Some(Change::ByOne(Sign::Minus)),
        _ => None,
    }
}

/// Behind the mark of an assignment: its sign, if it has one, and its value.
fn changed(
    alloc: Global,
    change: Change,
    words: &[Word],
) -> Result<(Option<Sign>, Expr, &[Word]), ReadError>
    ensures { Gives (λ x. (x.0, expr_of x.1, x.2.now)) result (read.changed_by change words.now) }
{
    match change {
        Change::Sets => {
            let (value, rest) = value(alloc, words)?;
            Ok((None, value, rest))
        }
        Change::By(sign) => {
            let (value, rest) = value(alloc, words)?;
            Ok((Some(sign), value, rest))
        }
        Change::ByOne(sign) => {
            let one = Expr::Number(words.len() + 1, 1, IntegerType::Int);
            Ok((Some(sign), one, words))
        }
    }
}

/// Behind what is assigned to.
#[tactic(auto, unfolding(crate::specs::Simple::change_at))]
fn changing(alloc: Global, words: &[Word]) -> Result<(Option<Sign>, Expr, &[Word]), ReadError>
    ensures { Gives (λ x. (x.0, expr_of x.1, x.2.now)) result (read.change_at words.now) }
{
    match words {
        [Word::Mark(mark), rest @ ..] => match change_of(*mark) {
            Some(change) => changed(alloc, change, rest),
            None => Err(ReadError::Fault(Fault::NoMark(words.len()))),
        },
        _ => Err(ReadError::Fault(Fault::NoMark(words.len()))),
    }
}

/// Behind a name that stands where so many words are left: a cell's place, or nothing.
#[tactic(auto, unfolding(crate::specs::Simple::target_at))]
fn target(
    alloc: Global,
    left: usize,
    array: Name,
    words: &[Word],
) -> Result<(Target, &[Word]), ReadError>
    ensures { Gives (λ x. (aim_of x.0, x.1.now)) result (read.target_at left array words.now) }
{
    let (index, rest) = read_index(alloc, words)?;
    Ok((Target { left, array, index }, rest))
}

/// Behind the name that an assignment begins with.
#[tactic(auto, unfolding(crate::specs::Simple::assignment_at))]
fn assignment(
    alloc: Global,
    left: usize,
    array: Name,
    words: &[Word],
) -> Result<(Stmt, &[Word]), ReadError>
    ensures { Gives (λ x. (stmt_of x.0, x.1.now)) result (read.assignment_at left array words.now) }
{
    let (target, rest) = target(alloc, left, array, words)?;
    let (sign, value, rest) = changing(alloc, rest)?;
    let rest = behind_mark(Mark::Semicolon, rest)?;
    Ok((Stmt::Assign(left, target, sign, value), rest))
}

/// Behind the bracket of a call.
#[tactic(auto, unfolding(crate::specs::Simple::arguments_at))]
fn arguments(alloc: Global, words: &[Word]) -> Result<(Vec<Expr>, &[Word]), ReadError>
    ensures { Gives (λ x. (exprs_of x.0.items, x.1.now)) result (read.arguments_at words.now) }
{
    match words {
        [Word::Mark(Mark::Close), rest @ ..] => Ok((Vec::new(alloc), rest)),
        _ => {
            let (values, rest) = values(alloc, words)?;
            let rest = behind_mark(Mark::Close, rest)?;
            Ok((values, rest))
        }
    }
}

/// Behind the bracket of a call that stands alone.
#[tactic(auto, unfolding(crate::specs::Simple::call_at))]
fn call(
    alloc: Global,
    left: usize,
    function: Name,
    words: &[Word],
) -> Result<(Stmt, &[Word]), ReadError>
    ensures { Gives (λ x. (stmt_of x.0, x.1.now)) result (read.call_at left function words.now) }
{
    let (values, rest) = arguments(alloc, words)?;
    let rest = behind_mark(Mark::Semicolon, rest)?;
    Ok((Stmt::Call(left, function, values), rest))
}

/// Behind a name: a call or an assignment.
#[tactic(auto, unfolding(crate::specs::Simple::named_at))]
pub(crate) fn named(
    alloc: Global,
    left: usize,
    name: Name,
    words: &[Word],
) -> Result<(Stmt, &[Word]), ReadError>
    ensures { Gives (λ x. (stmt_of x.0, x.1.now)) result (read.named_at left name words.now) }
{
    match words {
        [Word::Mark(Mark::Open), rest @ ..] => call(alloc, left, name, rest),
        _ => assignment(alloc, left, name, words),
    }
}

/// Whether a word goes on with a text: a string, or a name that stands for one, as `PRIu64` does.
#[tactic(auto, unfolding(crate::specs::Simple::is_text))]
fn is_text(word: Word) -> bool
    ensures { result ≡ read.is_text word }
{
    matches!(word, Word::Text | Word::Name(_))
}

/// How many words go on with a text.
fn text_len(words: &[Word]) -> usize
    ensures value { result ≡ read.text_len words.now }
    ensures within { result ≤ length words.now }
{
    for i in 0..words.len() {
        if !is_text(words[i]) {
            return i;
        }
    }
    words.len()
}

/// Behind the text of `printf`.
#[tactic(auto, unfolding(crate::specs::Simple::printed_at))]
fn printed(alloc: Global, words: &[Word]) -> Result<(Vec<Expr>, &[Word]), ReadError>
    ensures { Gives (λ x. (exprs_of x.0.items, x.1.now)) result (read.printed_at words.now) }
{
    match words {
        [Word::Mark(Mark::Comma), rest @ ..] => {
            let (values, rest) = values(alloc, rest)?;
            let rest = behind_mark(Mark::Close, rest)?;
            Ok((values, rest))
        }
        _ => {
            let rest = behind_mark(Mark::Close, words)?;
            Ok((Vec::new(alloc), rest))
        }
    }
}

/// Behind `printf`.
#[tactic(auto, unfolding(crate::specs::Simple::print_at))]
pub(crate) fn print(
    alloc: Global,
    left: usize,
    words: &[Word],
) -> Result<(Stmt, &[Word]), ReadError>
    ensures { Gives (λ x. (stmt_of x.0, x.1.now)) result (read.print_at left words.now) }
{
    let rest = behind_mark(Mark::Open, words)?;
    let rest = text(rest)?;
    let (values, rest) = printed(alloc, &rest[text_len(rest)..])?;
    let rest = behind_mark(Mark::Semicolon, rest)?;
    Ok((Stmt::Print(left, values), rest))
}

/// `&a[0]`
#[tactic(auto, unfolding(crate::specs::Simple::cell_at))]
fn cell(alloc: Global, words: &[Word]) -> Result<(Spot, &[Word]), ReadError>
    ensures { Gives (λ x. (site_of x.0, x.1.now)) result (read.cell_at words.now) }
{
    let rest = behind_mark(Mark::And, words)?;
    let left = rest.len();
    let (array, rest) = name(rest)?;
    let rest = behind_mark(Mark::OpenIndex, rest)?;
    let (index, rest) = value(alloc, rest)?;
    let rest = behind_mark(Mark::CloseIndex, rest)?;
    let cell = Spot { left, array, index };
    Ok((cell, rest))
}

/// Behind `show`.
#[tactic(auto, unfolding(crate::specs::Simple::show_at))]
pub(crate) fn show(alloc: Global, left: usize, words: &[Word]) -> Result<(Stmt, &[Word]), ReadError>
    ensures { Gives (λ x. (stmt_of x.0, x.1.now)) result (read.show_at left words.now) }
{
    let rest = behind_mark(Mark::Open, words)?;
    let (cell, rest) = cell(alloc, rest)?;
    let rest = behind_mark(Mark::Comma, rest)?;
    let (count, rest) = value(alloc, rest)?;
    let rest = behind_mark(Mark::Close, rest)?;
    let rest = behind_mark(Mark::Semicolon, rest)?;
    Ok((Stmt::Show(left, cell, count), rest))
}

/// Behind `uint64_t *`.
#[tactic(auto, unfolding(crate::specs::Simple::pointer_at))]
fn pointer(alloc: Global, words: &[Word]) -> Result<(Stmt, &[Word]), ReadError>
    ensures { Gives (λ x. (stmt_of x.0, x.1.now)) result (read.pointer_at words.now) }
{
    let left = words.len();
    let (pointer, rest) = name(words)?;
    let rest = behind_mark(Mark::Assign, rest)?;
    let (cell, rest) = cell(alloc, rest)?;
    let rest = behind_mark(Mark::Semicolon, rest)?;
    Ok((Stmt::Point(left, pointer, cell), rest))
}

/// Behind `uint64_t` or `size_t` in a block: a pointer to a cell, and nothing else.
#[tactic(auto, unfolding(crate::specs::Simple::local_at))]
pub(crate) fn local(
    alloc: Global,
    left: usize,
    words: &[Word],
) -> Result<(Stmt, &[Word]), ReadError>
    ensures { Gives (λ x. (stmt_of x.0, x.1.now)) result (read.local_at left words.now) }
{
    match words {
        [Word::Mark(Mark::Times), rest @ ..] => pointer(alloc, rest),
        _ => Err(ReadError::Fault(Fault::Declared(left))),
    }
}
