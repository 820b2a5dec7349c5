use ot_model::{ArrayShape, Cell, Decl, Expr, Fold, Mode, Section, Stmt, Use};
use std::alloc::{AllocError, Global};

/// How a statement uses a cell, as bits: a fold has that of its operation.
const READS: u16 = 1;

const WRITES: u16 = 2;

const FOLDS: u16 = 508;

fn folds_by(op: Fold) -> u16 {
    match op {
        Fold::Plus => 4,
        Fold::Times => 8,
        Fold::And => 16,
        Fold::Or => 32,
        Fold::Xor => 64,
        Fold::Min => 128,
        Fold::Max => 256,
    }
}

/// How a statement itself uses each cell of a shape.
#[derive(Drop)]
pub(crate) struct Touched {
    rows: Vec<Vec<u16>>,
}

impl Touched {
    /// What the statement uses, a cell at a time.
    pub(crate) fn by(
        alloc: Global,
        arrays: &[ArrayShape],
        stmt: &Stmt,
    ) -> Result<Touched, AllocError> {
        let mut rows = Vec::with_capacity(alloc, arrays.len())?;
        for array in arrays {
            rows.push(vec![in alloc; 0u16; array.len as usize]?)?;
        }
        let mut touched = Touched { rows };
        touched.statement(stmt);
        Ok(touched)
    }

    fn statement(&mut self, stmt: &Stmt) {
        match stmt {
            Stmt::Set(cell, expr) => {
                self.value(expr);
                self.mark(*cell, WRITES);
            }
            Stmt::Fold(op, cell, expr) => {
                self.value(expr);
                self.mark(*cell, folds_by(*op));
            }
            Stmt::If(expr, _, _) => self.value(expr),
            Stmt::Group(_, cells, _) => {
                for cell in cells {
                    self.mark(*cell, WRITES);
                }
            }
            Stmt::Task(_, _) | Stmt::Wait(_) => {}
        }
    }

    fn value(&mut self, expr: &Expr) {
        match expr {
            Expr::Number(_) => {}
            Expr::Cell(cell) => self.mark(*cell, READS),
            Expr::Op(_, one, two) => {
                self.value(one);
                self.value(two);
            }
            Expr::Pick(section, chosen) => {
                self.section(*section);
                self.value(chosen);
            }
        }
    }

    fn section(&mut self, section: Section) {
        for place in 0..section.len {
            let cell = Cell {
                array: section.array,
                index: section.start.saturating_add(place),
            };
            self.mark(cell, READS);
        }
    }

    fn mark(&mut self, cell: Cell, bit: u16) {
        if let Some(row) = self.rows.get_mut(cell.array as usize) {
            if let Some(marks) = row.get_mut(cell.index as usize) {
                *marks |= bit;
            }
        }
    }

    /// Whether a use conflicts with one of the statement.
    fn meets(&self, used: Use) -> bool {
        let Some(row) = self.rows.get(used.cell.array as usize) else {
            return false;
        };
        let Some(marks) = row.get(used.cell.index as usize) else {
            return false;
        };
        let against = match used.mode {
            Mode::Reads => WRITES | FOLDS,
            Mode::Writes => READS | WRITES | FOLDS,
            Mode::Folds(op) => (READS | WRITES | FOLDS) ^ folds_by(op),
        };
        *marks & against != 0
    }
}

/// The children that are looked for. Whether one is wanted says nothing yet: what it declares is looked at again.
#[derive(Drop)]
pub(crate) enum Wanted {
    /// Each child.
    Each,
    /// Those that declare a cell in conflict with a statement.
    Touching(Touched),
}

impl Wanted {
    /// Whether a child is one of them.
    pub(crate) fn takes(&self, decl: &Decl) -> bool {
        for used in decl.uses() {
            if self.meets(*used) {
                return true;
            }
        }
        matches!(self, Wanted::Each)
    }

    /// Whether a use makes a child one of them.
    fn meets(&self, used: Use) -> bool {
        match self {
            Wanted::Each => true,
            Wanted::Touching(touched) => touched.meets(used),
        }
    }
}
