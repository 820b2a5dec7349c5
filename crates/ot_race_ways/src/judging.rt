//! The judge of all ways.
ghost use Rattle.std.specs.Prelude.{ℕ, List, IfOk, ◌≡◌, ◌<◌, ◌*◌, ◌^◌, ◌&&◌, nat_lt, nat_le, MatchOption, None, length};
ghost use Rattle.ot_model.specs.View.{stmts_of};
ghost use Rattle.ot_model.specs.Names.{NamedIn};
ghost use Rattle.ot_race_ways.specs.Verdicts.{Tells, AreFew};

use crate::extent::{MANY, extent_all};
use crate::follow::{Owner, Trail, follow_all};
use crate::naming::named_in;
use crate::verdict::Verdict;
use ot_model::{Program, Stmt};
use ot_race_order::{Order, judge_by};
use std::alloc::{AllocError, Global};

/// So many statements on all ways together are judged.
const MOST_STATEMENTS: u64 = 2_000_000;

/// And these may name so many cells.
const MOST_CELLS: u64 = 20_000_000;

/// The first race on one of the ways through a program where this orders tasks, or that no way races. More than 1,024 ways are not
/// judged, nor those that have more than 2,000,000 statements together, or whose statements name more than 20,000,000 cells.
pub fn any_way(alloc: Global, order: Order, program: &Program) -> Result<Verdict, AllocError>
    requires { (lens : List ℕ) × NamedIn lens (stmts_of program.now.body.items) }
    ensures { IfOk result (Tells order (stmts_of program.now.body.items)) }
{
    match few_ways(&program.body) {
        Some(ways) => judge_ways(alloc, order, program, ways),
        None => Ok(Verdict::TooManyWays),
    }
}

ghost use Rattle.ot_model.specs.Tree.{size};
ghost use Rattle.ot_race_ways.specs.Ways.{ways};

/// The number of ways through a body, where they are judged.
fn few_ways(body: &Vec<Stmt>) -> Option<u32>
    requires { size (stmts_of body.now.items) < 2 ^ 32 }
    ensures { MatchOption result (AreFew (stmts_of body.now.items) → ⊥) (λ few. AreFew (stmts_of body.now.items) × (few ≡ ways (stmts_of body.now.items))) }
{
    let extent = extent_all(body);
    let named = named_in(body);
    if are_few(extent.ways, extent.statements, named) {
        Some(extent.ways)
    } else {
        None
    }
}

/// Whether so many ways through so many statements that name so many cells are judged.
fn are_few(ways: u32, statements: u32, named: u32) -> bool
    ensures { result ≡ (nat_lt ways 1025 && (nat_le (ways * statements) 2000000 && nat_le (ways * named) 20000000)) }
{
    ways < MANY && at_most(ways, statements, MOST_STATEMENTS) && at_most(ways, named, MOST_CELLS)
}

/// Whether so many on each way are at most this on all ways.
fn at_most(ways: u32, each: u32, most: u64) -> bool
    ensures { result ≡ nat_le (ways * each) most }
{
    match u64::from(ways).checked_mul(u64::from(each)) {
        Some(together) => together <= most,
        None => false,
    }
}

/// The first race on one of so many ways.
fn judge_ways(
    alloc: Global,
    order: Order,
    program: &Program,
    count: u32,
) -> Result<Verdict, AllocError>
    requires named { (lens : List ℕ) × NamedIn lens (stmts_of program.now.body.items) }
    requires few { AreFew (stmts_of program.now.body.items) }
    requires all { count ≡ ways (stmts_of program.now.body.items) }
    ensures { IfOk result (Tells order (stmts_of program.now.body.items)) }
{
    for way in 0..count {
        let Trail {
            tasks: _,
            turns,
            events,
        } = follow(alloc, program, way)?;
        if let Some(race) = judge_by(alloc, order, events)? {
            return Ok(Verdict::RacesOnWay(turns, race));
        }
    }
    Ok(Verdict::RacesOnNoWay)
}

ghost use Rattle.ot_race.specs.View.{events_in};
ghost use Rattle.ot_race_ways.specs.Numbered.{events_on, turns_on};

/// What happens on the way of this number.
fn follow(alloc: Global, program: &Program, way: u32) -> Result<Trail<'_>, AllocError>
    requires named { (lens : List ℕ) × NamedIn lens (stmts_of program.now.body.items) }
    requires few_ways { ways (stmts_of program.now.body.items) < 1025 }
    ensures events { IfOk result (λ trail. events_in trail.events.items ≡ events_on way None 0 1 (stmts_of program.now.body.items) 0) }
    ensures turns { IfOk result (λ trail. trail.turns.items ≡ turns_on way 1 (stmts_of program.now.body.items)) }
    ensures few { IfOk result (λ trail. length trail.events.items < 2 ^ 32) }
{
    let mut trail = Trail {
        tasks: 0,
        turns: Vec::new(alloc),
        events: Vec::new(alloc),
    };
    let owner = Owner { task: 0, own: None };
    follow_all(alloc, &program.body, &mut trail, owner, 1, way)?;
    Ok(trail)
}
