ghost use Rattle.std.specs.Prelude.{◌≡◌, ◌↔◌, IsTrue, ℕ, ◌<◌, Option, Some, IsSome, IfOk};
ghost use Rattle.ot_model.specs.View.{expr_of};
ghost use Rattle.ot_model.specs.Tree.{val, HasAll, applied};

use std::alloc::{AllocError, Global};

/// One cell: the position of its array in the shape, and its place in the array, from 0.
#[derive(Clone, Copy, Debug, PartialEq, Eq)]
pub struct Cell {
    pub array: u32,
    pub index: u32,
}

impl Cell {
    ghost use Rattle.ot_model.specs.Cells.{is_before};

    /// Whether it comes before another: by its array, then by its index.
    pub fn is_before(self, other: Cell) -> bool
        ensures { result ≡ is_before self other }
    {
        self.array < other.array || (self.array == other.array && self.index < other.index)
    }
}

/// `len` cells of one array from `start` on (an array section, OpenMP API 5.2, section 3.2.5).
#[derive(Clone, Copy, Debug, PartialEq, Eq)]
pub struct Section {
    pub array: u32,
    pub start: u32,
    pub len: u32,
}

/// An operation on two unsigned 64-bit values.
#[derive(Clone, Copy, Debug, PartialEq, Eq)]
pub enum Op {
    /// The sum modulo 2^64.
    Plus,
    /// The difference modulo 2^64.
    Minus,
    /// The product modulo 2^64.
    Times,
    /// Bit by bit.
    And,
    /// Bit by bit.
    Or,
    /// Bit by bit.
    Xor,
    /// 1 where the first is less, else 0.
    Less,
    /// 1 where the two are equal, else 0.
    Equal,
    /// The lesser of the two.
    Min,
    /// The greater of the two.
    Max,
}

/// A value, as an expression over cells.
#[derive(Debug, Drop)]
pub enum Expr {
    Number(u64),
    Cell(Cell),
    Op(Op, Box<Expr>, Box<Expr>),
    /// The cell of the section at the value modulo its length.
    Pick(Section, Box<Expr>),
}

impl Expr {
    /// The same expression once more.
    pub fn copy(&self, alloc: Global) -> Result<Expr, AllocError>
        ensures { IfOk result (λ copied. expr_of copied ≡ expr_of self.now) }
    {
        match self {
            Expr::Number(n) => Ok(Expr::Number(*n)),
            Expr::Cell(cell) => Ok(Expr::Cell(*cell)),
            Expr::Op(op, one, two) => {
                let one = Box::new(alloc, one.copy(alloc)?)?;
                let two = Box::new(alloc, two.copy(alloc)?)?;
                Ok(Expr::Op(*op, one, two))
            }
            Expr::Pick(section, chosen) => {
                Ok(Expr::Pick(*section, Box::new(alloc, chosen.copy(alloc)?)?))
            }
        }
    }

    /// Whether the two are the same expression. It takes no memory.
    pub fn same_as(&self, other: &Expr) -> bool
        ensures { IsTrue result ↔ expr_of self.now ≡ expr_of other.now }
    {
        match (self, other) {
            (Expr::Number(n), Expr::Number(m)) => n == m,
            (Expr::Cell(c), Expr::Cell(d)) => c == d,
            (Expr::Op(o, a, b), Expr::Op(p, x, y)) => o == p && a.same_as(x) && b.same_as(y),
            (Expr::Pick(s, a), Expr::Pick(t, x)) => s == t && a.same_as(x),
            (_, _) => false,
        }
    }
}

/// What a value is read from.
pub trait Look {
    ghost use Rattle.ot_model.specs.declared.expr.Cell.{Cell};

    /// The cell's number, where the cell is there.
    ghost found: { Self → Cell → Option ℕ };

    /// The cell's number. The cell is to be there.
    fn at(&self, cell: Cell) -> u64
        requires { IsSome (found self.now cell) }
        ensures { found self.now cell ≡ Some result };
}

/// The value of an expression over the cells in `look`, each of which is to be there. It takes no
/// memory.
pub fn value<L: Look>(expr: &Expr, look: &L) -> u64
    requires { HasAll (L.found look.now) (expr_of expr.now) }
    ensures { result ≡ val (L.found look.now) (expr_of expr.now) }
{
    match expr {
        Expr::Number(n) => *n,
        Expr::Cell(cell) => look.at(*cell),
        Expr::Op(op, one, two) => {
            let one = value(one, look);
            let two = value(two, look);
            apply(*op, one, two)
        }
        Expr::Pick(section, chosen) => {
            let place = value(chosen, look) % u64::from(section.len);
            look.at(Cell {
                array: section.array,
                index: section.start + place as u32,
            })
        }
    }
}

fn apply(op: Op, one: u64, two: u64) -> u64
    ensures { result ≡ applied op one two }
{
    match op {
        Op::Plus => one.wrapping_add(two),
        Op::Minus => one.wrapping_sub(two),
        Op::Times => one.wrapping_mul(two),
        Op::And => one & two,
        Op::Or => one | two,
        Op::Xor => one ^ two,
        Op::Less => u64::from(one < two),
        Op::Equal => u64::from(one == two),
        Op::Min => one.min(two),
        Op::Max => one.max(two),
    }
}
