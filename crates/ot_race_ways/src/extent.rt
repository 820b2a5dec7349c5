//! How many statements there are, and how many ways through them.
ghost use Rattle.std.specs.Prelude.{◌≡◌, ◌<◌, ◌^◌, min};
ghost use Rattle.ot_model.specs.View.{stmt_of, stmts_of};
ghost use Rattle.ot_model.specs.Tree.{size, size_one};
ghost use Rattle.ot_race_ways.specs.Ways.{ways, ways_one};

use crate::known::{known_number, ways_of_if};
use ot_model::Stmt;

/// One more than the ways that are judged. Ways are counted up to here.
pub(crate) const MANY: u32 = 1025;

/// The number of statements, those in bodies among them, and of the ways through them, where there are few.
#[derive(Clone, Copy)]
pub(crate) struct Extent {
    pub(crate) statements: u32,
    pub(crate) ways: u32,
}

#[cycle(extent)]
pub(crate) fn extent_one(stmt: &Stmt) -> Extent
    requires { size_one (stmt_of stmt.now) < 2 ^ 32 }
    ensures statements { result.statements ≡ size_one (stmt_of stmt.now) }
    ensures ways { result.ways ≡ min (ways_one (stmt_of stmt.now)) 1025 }
{
    match stmt {
        Stmt::Set(_, _) | Stmt::Fold(_, _, _) | Stmt::Wait(_) => Extent {
            statements: 1,
            ways: 1,
        },
        Stmt::If(expr, one, two) => {
            let one = extent_all(one);
            let two = extent_all(two);
            Extent {
                statements: 1 + one.statements + two.statements,
                ways: few(ways_of_if(known_number(expr), one.ways, two.ways)),
            }
        }
        Stmt::Task(_, body) | Stmt::Group(_, _, body) => {
            let inside = extent_all(body);
            Extent {
                statements: 1 + inside.statements,
                ways: inside.ways,
            }
        }
    }
}

#[cycle(extent)]
pub(crate) fn extent_all(body: &Vec<Stmt>) -> Extent
    requires { size (stmts_of body.now.items) < 2 ^ 32 }
    ensures statements { result.statements ≡ size (stmts_of body.now.items) }
    ensures ways { result.ways ≡ min (ways (stmts_of body.now.items)) 1025 }
{
    let mut statements = 0;
    let mut ways = 1;
    for stmt in body {
        let one = extent_one(stmt);
        statements += one.statements;
        ways = few(ways * one.ways);
    }
    Extent { statements, ways }
}

fn few(ways: u32) -> u32
    ensures { result ≡ min ways 1025 }
{
    if ways < MANY { ways } else { MANY }
}
