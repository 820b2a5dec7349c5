//! A file whole.
ghost use Rattle.std.specs.Prelude.{◌≡◌, ◌<◌, ◌^◌, false, find, length, map, IfOk, Ok};
ghost use Rattle.serde_json.specs.View.{view, items_view};
ghost use Rattle.ot_c_expressions.specs.Tree.{expr_of};
ghost use Rattle.ot_c_statements.specs.Tree.{list_of, body_of, stmt_of};
ghost use Rattle.ot_c_files.specs.Program.{top_of, tops_of, step_of, main_of, file_of};
ghost use Rattle.ot_c_scope.specs.Results.{GivesAs};
ghost use Rattle.ot_c_scope.specs.Constants as constants;
ghost use Rattle.ot_c_arrays.specs.Arrays.{declared_view, c_array, outside};
ghost use Rattle.ot_c_arrays.specs.Places as sites;
ghost use Rattle.ot_c_lines.specs.Lines.{lines_of};
ghost use Rattle.ot_c_program.specs.Statements.{became_of, called_of, source_of};
ghost use Rattle.ot_c_program.specs.Files.{before_of, progress_of, lowered_of};
ghost use Rattle.ot_c_program.specs.Files as meant;

use crate::region::{ended, region};
use crate::statements::{Became, Called, Loops, Source};
use crate::turns::{written, written_body};
use ot_c_arrays::{CArray, Declared, byte_of, cell_count, declaration, named, number_of, pointers};
use ot_c_clauses::Taking;
use ot_c_expressions::{Expr, left_of};
use ot_c_files::{File, Step, Top};
use ot_c_lines::{Lines, both_lines, no_lines};
use ot_c_scope::{CFault, Meaning, Reason, Scope, constant, json};
use ot_c_statements::Stmt;
use ot_c_words::{IntegerType, Name, Words};
use serde_json::Value;
use std::alloc::{AllocError, Global};

/// How many statements the functions of a file have together at most.
const MAX_TOGETHER: usize = 20_000;

/// How the tasks of a file take part in reductions.
#[derive(Clone, Copy, Debug, PartialEq, Eq)]
pub enum Reductions {
    /// All by names, or none does: so their `red` stands for what makes no dependence in C.
    ByNames,
    /// All by pointers: so their `red` stands for `depend(in: ..)` too.
    ByPointers,
    /// Some by names and some by pointers. It has the byte at which the first task begins that takes part otherwise than the first.
    Mixed(usize),
}

/// A program of the language.
#[derive(Drop)]
pub struct Lowered {
    /// In order of declaration.
    pub arrays: Vec<CArray>,
    /// `["program2", shows, body]`, which shows all arrays.
    pub program: Value,
    /// For each statement of the body, a statement before those in its bodies, the byte at which that of the file begins.
    pub places: Vec<usize>,
    pub reductions: Reductions,
}

/// What stands before `main`, so far: also how many statements functions have together, and how loops are written.
#[derive(Drop)]
struct Before {
    declared: Declared,
    functions: Vec<Called>,
    count: usize,
    loops: Loops,
}

/// What a file declared and does so far.
#[derive(Drop)]
struct Progress {
    declared: Declared,
    lines: Lines,
}

/// The number that a value is outside of regions.
fn fixed(
    alloc: Global,
    words: &Words,
    meanings: &[Meaning],
    expr: &Expr,
) -> Option<(u64, IntegerType)>
    ensures { result ≡ constants.constant (outside words.now.names.keys meanings.now false) (expr_of expr.now) }
{
    let scope = Scope::new(alloc, &words.names, meanings, false);
    constant(&scope, expr)
}

/// `#define`
fn define(
    alloc: Global,
    words: &Words,
    left: usize,
    declared: Declared,
    name: usize,
    expr: &Expr,
) -> Result<Declared, CFault>
    ensures { GivesAs declared_view result (meant.define words.now.names.keys left (declared_view declared) name (expr_of expr.now)) }
{
    let Some((number, kind)) = fixed(alloc, words, &declared.meanings, expr) else {
        return Err(CFault::Outside(left_of(expr), Reason::NoConstant));
    };
    named(left, declared, name, Meaning::Constant(number, kind))
}

/// What becomes of a function's body where names mean this, in regions or outside of them.
fn function_body(
    alloc: Global,
    words: &Words,
    before: &Before,
    inside: bool,
    stmts: &[Stmt],
) -> Result<Became, CFault>
    ensures { GivesAs (λ b. became_of b) result (Ok (meant.function_body words.now.names.keys (length words.now.starts.items) (before_of before.now) inside (body_of (list_of stmts.now)))) }
{
    let source = Source {
        words: words.starts.len(),
        functions: &before.functions,
        loops: before.loops,
    };
    let scope = Scope::new(alloc, &words.names, &before.declared.meanings, inside);
    match written_body(alloc, &source, &scope, stmts) {
        Ok(lines) => Ok(Became::Lines(lines)),
        Err(CFault::Outside(left, reason)) => Ok(Became::Outside(left, reason)),
        Err(CFault::Memory) => Err(CFault::Memory),
    }
}

/// How many statements a function has.
fn count_of(became: &Became) -> usize
    ensures counts { result ≡ meant.lines_length (became_of became.now) }
    ensures bounded { result < 2 ^ 63 }
{
    match became {
        Became::Lines(lines) => lines.places.len(),
        Became::Outside(_, _) => 0,
    }
}

/// How many statements functions have with one more, both in regions and outside of them.
fn counted(left: usize, count: usize, called: &Called) -> Result<usize, CFault>
    ensures { GivesAs (λ n. n) result (meant.statement_count left count (called_of called.now)) }
{
    let more = count_of(&called.inside) + count_of(&called.outside);
    if count > MAX_TOGETHER || more > MAX_TOGETHER || count + more > MAX_TOGETHER {
        Err(CFault::Outside(left, Reason::TooMany))
    } else {
        Ok(count + more)
    }
}

/// A function, behind others.
fn with_function(left: usize, before: Before, name: usize, called: Called) -> Result<Before, CFault>
    ensures { GivesAs before_of result (meant.with_function left (before_of before) name (called_of called)) }
{
    let count = counted(left, before.count, &called)?;
    let meaning = Meaning::Function(before.functions.len());
    let declared = named(left, before.declared, name, meaning)?;
    let mut functions = before.functions;
    functions.push(called)?;
    Ok(Before {
        declared,
        functions,
        count,
        loops: before.loops,
    })
}

/// `void f(void)`, which calls none but those before it.
fn function(
    alloc: Global,
    words: &Words,
    left: usize,
    before: Before,
    name: Name,
    stmts: &[Stmt],
) -> Result<Before, CFault>
    ensures { GivesAs before_of result (meant.function words.now.names.keys (length words.now.starts.items) left (before_of before) name (body_of (list_of stmts.now))) }
{
    let number = number_of(left, name)?;
    let before = Before {
        declared: pointers(alloc, &words.names, before.declared, stmts)?,
        functions: before.functions,
        count: before.count,
        loops: before.loops,
    };
    let inside = function_body(alloc, words, &before, true, stmts)?;
    let outside = function_body(alloc, words, &before, false, stmts)?;
    with_function(left, before, number, Called { inside, outside })
}

/// What stands before `main`, behind others.
fn top_step(alloc: Global, words: &Words, before: Before, top: &Top) -> Result<Before, CFault>
    ensures { GivesAs before_of result (meant.top_step words.now.names.keys (length words.now.starts.items) (before_of before) (top_of top.now)) }
{
    match top {
        Top::Constant(left, name, expr) => {
            let declared = define(alloc, words, *left, before.declared, *name, expr)?;
            Ok(Before {
                declared,
                functions: before.functions,
                count: before.count,
                loops: before.loops,
            })
        }
        Top::Declares(given) => {
            let declared = declaration(alloc, &words.names, before.declared, given)?;
            Ok(Before {
                declared,
                functions: before.functions,
                count: before.count,
                loops: before.loops,
            })
        }
        Top::Function(left, name, stmts) => { function(alloc, words, *left, before, *name, stmts) }
    }
}

fn tops(alloc: Global, words: &Words, loops: Loops, tops: &[Top]) -> Result<Before, CFault>
    ensures { GivesAs before_of result (meant.tops loops words.now.names.keys (length words.now.starts.items) (tops_of tops.now)) }
{
    let mut before = Before {
        declared: Declared {
            meanings: vec![in alloc; Meaning::Nothing; words.names.len()]?,
            arrays: Vec::new(alloc),
        },
        functions: Vec::new(alloc),
        count: 0,
        loops,
    };
    for top in tops {
        before = top_step(alloc, words, before, top)?;
    }
    Ok(before)
}

/// A statement of `main` outside of regions.
fn alone(
    alloc: Global,
    words: &Words,
    source: &Source<'_>,
    meanings: &[Meaning],
    stmt: &Stmt,
) -> Result<Lines, CFault>
    ensures { GivesAs lines_of result (meant.outside_regions words.now.names.keys (source_of source.now) meanings.now (stmt_of stmt.now)) }
{
    let scope = Scope::new(alloc, &words.names, meanings, false);
    written(alloc, source, &scope, stmt)
}

/// Statements behind others.
fn behind(declared: Declared, lines: Lines, more: Lines) -> Result<Progress, CFault>
    ensures { GivesAs progress_of result (meant.put_lines (declared_view declared) (lines_of lines) (lines_of more)) }
{
    Ok(Progress {
        declared,
        lines: both_lines(lines, more)?,
    })
}

/// Whether nothing of the program stands for a statement outside of regions.
#[tactic(auto, unfolding(crate::specs::Files::is_silent))]
fn is_silent(stmt: &Stmt) -> bool
    ensures { result ≡ meant.is_silent (stmt_of stmt.now) }
{
    match stmt {
        Stmt::Print(_, values) => values.is_empty(),
        Stmt::Yield(_) | Stmt::Show(_, _, _) | Stmt::Point(_, _, _) => true,
        _ => false,
    }
}

fn adds_nothing(step: &Step) -> bool
    ensures { result ≡ meant.adds_nothing (step_of step.now) }
{
    match step {
        Step::Declares(_) => true,
        Step::Region(_, _, _) => false,
        Step::Does(stmt) => is_silent(stmt),
    }
}

/// Whether nothing of the program stands for what `main` does so.
fn add_nothing(steps: &[Step]) -> bool
    ensures { result ≡ meant.add_nothing (main_of steps.now) }
{
    for step in steps {
        if !adds_nothing(step) {
            return false;
        }
    }
    true
}

/// What `main` does next, with what stands behind it.
fn main_step(
    alloc: Global,
    words: &Words,
    source: &Source<'_>,
    progress: Progress,
    step: &Step,
    rest: &[Step],
) -> Result<Progress, CFault>
    ensures { GivesAs progress_of result (meant.main_act words.now.names.keys (source_of source.now) (progress_of progress) (step_of step.now) (main_of rest.now)) }
{
    match step {
        Step::Declares(given) => {
            let declared = declaration(alloc, &words.names, progress.declared, given)?;
            Ok(Progress {
                declared,
                lines: progress.lines,
            })
        }
        Step::Region(left, clauses, stmts) => {
            let declared = pointers(alloc, &words.names, progress.declared, stmts)?;
            let inner = region(
                alloc,
                words,
                source,
                &declared.meanings,
                *left,
                clauses,
                stmts,
            )?;
            let lines = ended(alloc, *left, add_nothing(rest), stmts, inner)?;
            behind(declared, progress.lines, lines)
        }
        Step::Does(stmt) => {
            let lines = alone(alloc, words, source, &progress.declared.meanings, stmt)?;
            behind(progress.declared, progress.lines, lines)
        }
    }
}

fn main_body(
    alloc: Global,
    words: &Words,
    source: &Source<'_>,
    declared: Declared,
    steps: &[Step],
) -> Result<Progress, CFault>
    ensures { GivesAs progress_of result (meant.main_body words.now.names.keys (source_of source.now) (declared_view declared) (main_of steps.now)) }
{
    let mut progress = Progress {
        declared,
        lines: no_lines(alloc),
    };
    for number in 0..steps.len() {
        let rest = &steps[number + 1..];
        progress = main_step(alloc, words, source, progress, &steps[number], rest)?;
    }
    Ok(progress)
}

/// An array is shown whole.
fn shown(alloc: Global, array: &CArray) -> Result<Value, CFault>
    ensures { GivesAs (λ v. view v) result (Ok (meant.array_shown (c_array array.now))) }
{
    let name = json::text(alloc, array.name.as_str())?;
    let count = Value::from(cell_count(array));
    Ok(json::three(alloc, name, Value::from(0u64), count)?)
}

fn shows(alloc: Global, arrays: &[CArray]) -> Result<Vec<Value>, CFault>
    ensures { GivesAs (λ v. items_view v.items) result (meant.shows (map c_array arrays.now)) }
{
    let mut shows = Vec::new(alloc);
    for array in arrays {
        shows.push(shown(alloc, array)?)?;
    }
    Ok(shows)
}

fn differs(one: Taking, two: Taking) -> bool
    ensures { result ≡ meant.differs one two }
{
    match one {
        Taking::ByName => matches!(two, Taking::ByPointer),
        Taking::ByPointer => matches!(two, Taking::ByName),
    }
}

/// The first task that takes part otherwise.
fn other(way: Taking, taking: &[(usize, Taking)]) -> Option<(usize, Taking)>
    ensures { result ≡ find (λ other. meant.differs way other.1) taking.now }
{
    for one in taking {
        if differs(way, one.1) {
            return Some(*one);
        }
    }
    None
}

fn all_by(way: Taking) -> Reductions
    ensures { result ≡ meant.all_by way }
{
    match way {
        Taking::ByName => Reductions::ByNames,
        Taking::ByPointer => Reductions::ByPointers,
    }
}

/// How tasks take part in reductions, each with how many words are left where it begins, in a file whose words begin at these
/// bytes.
fn reductions_of(starts: &[usize], taking: &[(usize, Taking)]) -> Reductions
    ensures { result ≡ meant.reductions_of starts.now taking.now }
{
    match taking {
        [] => Reductions::ByNames,
        [(_, way), rest @ ..] => match other(*way, rest) {
            None => all_by(*way),
            Some((left, _)) => Reductions::Mixed(byte_of(starts, left)),
        },
    }
}

/// The bytes at which begins what so many words are left from.
fn bytes_of(alloc: Global, starts: &[usize], places: &[usize]) -> Result<Vec<usize>, AllocError>
    ensures { IfOk result (λ v. v.items ≡ map (sites.byte_of starts.now) places.now) }
{
    let mut bytes = Vec::new(alloc);
    for left in places {
        bytes.push(byte_of(starts, *left))?;
    }
    Ok(bytes)
}

/// The program of a file that these words say.
pub fn lower(alloc: Global, words: &Words, file: &File) -> Result<Lowered, CFault>
    ensures { GivesAs lowered_of result (meant.file_lowered words.now.names.keys words.now.starts.items (file_of file.now)) }
{
    lower_with(alloc, words, Loops::AsTheyStand, file)
}

/// The same, with its loops written out turn by turn where an `if` stands in them. In each turn an `if` whose condition names no cell
/// has only the body that it takes.
pub fn lower_by_turns(alloc: Global, words: &Words, file: &File) -> Result<Lowered, CFault>
    ensures { GivesAs lowered_of result (meant.lowered_by_turns words.now.names.keys words.now.starts.items (file_of file.now)) }
{
    lower_with(alloc, words, Loops::ByTurns, file)
}

/// The program of a file whose loops are written so.
fn lower_with(alloc: Global, words: &Words, loops: Loops, file: &File) -> Result<Lowered, CFault>
    ensures { GivesAs lowered_of result (meant.lowered_with loops words.now.names.keys words.now.starts.items (file_of file.now)) }
{
    let Before {
        declared,
        functions,
        ..
    } = tops(alloc, words, loops, &file.tops)?;
    let source = Source {
        words: words.starts.len(),
        functions: &functions,
        loops,
    };
    let Progress { declared, lines } = main_body(alloc, words, &source, declared, &file.main)?;
    let reductions = reductions_of(&words.starts, &lines.taking);
    let places = bytes_of(alloc, &words.starts, &lines.places)?;
    let shows = json::list(shows(alloc, &declared.arrays)?);
    let list = json::list(lines.statements);
    let program = json::form2(alloc, "program2", shows, list)?;
    Ok(Lowered {
        arrays: declared.arrays,
        program,
        places,
        reductions,
    })
}
