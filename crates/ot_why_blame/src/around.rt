//! The task around a statement, and the groups that are open there.
use crate::child::Child;
use ot_check::Offence;
use ot_model::{Cell, Decl, Expr, Fold, Mode, Section, Stmt, Use};
use std::alloc::{AllocError, Global};
use std::collections::BTreeMap;

/// A group that is open: the place of its statement, its operation, and its cells.
#[derive(Clone, Copy, Debug)]
pub(crate) struct Open<'a> {
    pub(crate) place: u32,
    pub(crate) op: Fold,
    pub(crate) cells: &'a Vec<Cell>,
}

/// What is around a statement.
#[derive(Drop)]
pub(crate) struct Around<'a> {
    /// The task in whose body it stands, where that isn't the program's.
    pub(crate) task: Option<Child<'a>>,
    /// The groups that are open in this body, the outermost first.
    groups: Vec<Open<'a>>,
    /// Which of them names a cell, by array and index.
    named: BTreeMap<(u32, u32), usize>,
}

/// What is around the statement at a place of a program.
pub(crate) fn seek_around<'a>(
    alloc: Global,
    body: &'a Vec<Stmt>,
    place: u32,
) -> Result<Around<'a>, AllocError> {
    let mut seek = Seek {
        alloc,
        goal: place,
        next: 1,
        task: None,
        groups: Vec::new(alloc),
    };
    seek.body(body)?;
    let mut named = BTreeMap::new(alloc);
    for (number, open) in seek.groups.iter().enumerate() {
        for cell in open.cells {
            named.insert((cell.array, cell.index), number)?;
        }
    }
    Ok(Around {
        task: seek.task,
        groups: seek.groups,
        named,
    })
}

/// A walk in the order of statements to the one at a place.
#[derive(Drop)]
struct Seek<'a> {
    alloc: Global,
    goal: u32,
    /// The place of the next statement.
    next: u32,
    task: Option<Child<'a>>,
    groups: Vec<Open<'a>>,
}

impl<'a> Seek<'a> {
    /// Walks a body: whether it came to its statement.
    #[cycle(around)]
    fn body(&mut self, body: &'a Vec<Stmt>) -> Result<bool, AllocError> {
        for stmt in body {
            if self.one(stmt)? {
                return Ok(true);
            }
        }
        Ok(false)
    }

    #[cycle(around)]
    fn one(&mut self, stmt: &'a Stmt) -> Result<bool, AllocError> {
        let place = self.next;
        if place == self.goal {
            return Ok(true);
        }
        self.next = place.saturating_add(1);
        match stmt {
            Stmt::Set(_, _) | Stmt::Fold(_, _, _) | Stmt::Wait(_) => Ok(false),
            Stmt::If(_, one, two) => {
                if self.body(one)? {
                    return Ok(true);
                }
                self.body(two)
            }
            Stmt::Task(decl, body) => self.task(Child { place, decl }, body),
            Stmt::Group(op, cells, body) => {
                let op = *op;
                self.groups.push(Open { place, op, cells })?;
                if self.body(body)? {
                    return Ok(true);
                }
                self.groups.pop();
                Ok(false)
            }
        }
    }

    /// A task, in whose body no group is open.
    #[cycle(around)]
    fn task(&mut self, task: Child<'a>, body: &'a Vec<Stmt>) -> Result<bool, AllocError> {
        let mut inside = Seek {
            alloc: self.alloc,
            goal: self.goal,
            next: self.next,
            task: Some(task),
            groups: Vec::new(self.alloc),
        };
        let found = inside.body(body)?;
        self.next = inside.next;
        if found {
            self.task = inside.task;
            self.groups = inside.groups;
        }
        Ok(found)
    }
}

impl<'a> Around<'a> {
    /// The open group that names a cell.
    pub(crate) fn group_of(&self, cell: Cell) -> Option<Open<'a>> {
        let number = self.named.get(&(cell.array, cell.index))?;
        self.groups.get(*number).copied()
    }

    /// A use of a cell by the statement that makes the offence, where there is one.
    pub(crate) fn misfit(&self, offence: Offence, stmt: &Stmt) -> Option<Use> {
        match stmt {
            Stmt::Set(cell, expr) => self.touch(offence, *cell, Mode::Writes, expr),
            Stmt::Fold(op, cell, expr) => self.touch(offence, *cell, Mode::Folds(*op), expr),
            Stmt::If(expr, _, _) => self.value(offence, expr),
            Stmt::Task(decl, _) => self.declared(offence, decl),
            Stmt::Group(_, cells, _) => self.named_cells(cells),
            Stmt::Wait(_) => None,
        }
    }

    fn touch(&self, offence: Offence, cell: Cell, mode: Mode, expr: &Expr) -> Option<Use> {
        if let Some(used) = self.value(offence, expr) {
            return Some(used);
        }
        self.only(offence, Use { cell, mode })
    }

    /// The use, where the offence is one of it.
    fn only(&self, offence: Offence, used: Use) -> Option<Use> {
        let is = match offence {
            Offence::NotDeclared => !self.lets(used),
            _ => self.group_of(used.cell).is_some(),
        };
        if is { Some(used) } else { None }
    }

    /// Whether the task around declares a cell so that it may be used in this way.
    fn lets(&self, used: Use) -> bool {
        let Some(task) = self.task else {
            return true;
        };
        match (task.decl.mode(used.cell), used.mode) {
            (Some(Mode::Writes), _) | (Some(Mode::Reads), Mode::Reads) => true,
            (Some(Mode::Folds(one)), Mode::Folds(two)) => one == two,
            _ => false,
        }
    }

    fn value(&self, offence: Offence, expr: &Expr) -> Option<Use> {
        match expr {
            Expr::Number(_) => None,
            Expr::Cell(cell) => self.read(offence, *cell),
            Expr::Op(_, one, two) => {
                if let Some(used) = self.value(offence, one) {
                    return Some(used);
                }
                self.value(offence, two)
            }
            Expr::Pick(section, chosen) => {
                if let Some(used) = self.section(offence, *section) {
                    return Some(used);
                }
                self.value(offence, chosen)
            }
        }
    }

    fn section(&self, offence: Offence, section: Section) -> Option<Use> {
        for step in 0..section.len {
            let cell = Cell {
                array: section.array,
                index: section.start.saturating_add(step),
            };
            if let Some(used) = self.read(offence, cell) {
                return Some(used);
            }
        }
        None
    }

    fn read(&self, offence: Offence, cell: Cell) -> Option<Use> {
        let mode = Mode::Reads;
        self.only(offence, Use { cell, mode })
    }

    /// A use that a task declares.
    fn declared(&self, offence: Offence, decl: &Decl) -> Option<Use> {
        for used in decl.uses() {
            let is = match offence {
                Offence::ChildBeyond => {
                    !matches!(used.mode, Mode::Folds(_)) && !self.lets(*used)
                }
                _ => !self.takes(*used),
            };
            if is {
                return Some(*used);
            }
        }
        None
    }

    /// Whether a declared use fits the open groups, and under `red` one of them or the task around.
    fn takes(&self, used: Use) -> bool {
        let open = self.group_of(used.cell);
        match (used.mode, open) {
            (Mode::Folds(op), Some(open)) => open.op == op,
            (Mode::Folds(op), None) => self.folds(used.cell, op),
            (_, open) => open.is_none(),
        }
    }

    /// Whether the task around has a cell under `red` by this operation.
    fn folds(&self, cell: Cell, op: Fold) -> bool {
        let Some(task) = self.task else {
            return false;
        };
        match task.decl.mode(cell) {
            Some(Mode::Folds(one)) => one == op,
            _ => false,
        }
    }

    /// A cell of a group.
    fn named_cells(&self, cells: &[Cell]) -> Option<Use> {
        for cell in cells {
            let used = Use {
                cell: *cell,
                mode: Mode::Writes,
            };
            if self.group_of(*cell).is_some() || !self.lets(used) {
                return Some(used);
            }
        }
        None
    }
}
