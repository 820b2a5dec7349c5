//! The wanted children that may be unawaited at a statement, all of them by one walk. It tells only for whom to look
//! first: of each that is told a walk of its own says whether it may be, and so of those that aren't.
use crate::places::Places;
use crate::wanted::Wanted;
use ot_model::{Cell, Decl, Mode, Stmt};
use ot_sets::Numbers;
use std::alloc::{AllocError, Global};

/// Those of the wanted tasks that use a cell.
#[derive(Drop)]
struct Users {
    all: Numbers,
    writers: Numbers,
}

/// A walk in the order of statements to the one at a place. The wanted tasks have numbers in the order in which it comes to
/// them.
#[derive(Drop)]
struct Look<'a> {
    alloc: Global,
    wanted: &'a Wanted,
    /// The place of the statement to which it goes.
    goal: u32,
    /// The place of the next statement.
    next: u32,
    /// The places of the wanted tasks to which it came.
    tasks: Vec<u32>,
    /// Where in `users` a cell stands.
    places: Places,
    users: Vec<Users>,
}

/// The places of the wanted tasks in a body that may be unawaited children at the statement at a place, or, where no
/// statement has it, at the body's end, in their order. The body's first statement has the place `first`.
pub(crate) fn tasks_pending(
    alloc: Global,
    body: &Vec<Stmt>,
    wanted: &Wanted,
    first: u32,
    goal: u32,
) -> Result<Vec<u32>, AllocError> {
    let mut look = Look {
        alloc,
        wanted,
        goal,
        next: first,
        tasks: Vec::new(alloc),
        places: Places::new(alloc),
        users: Vec::new(alloc),
    };
    let mut pending = Numbers::new(alloc);
    look.body(body, &mut pending)?;
    let mut places = Vec::new(alloc);
    for (number, place) in look.tasks.as_slice().iter().enumerate() {
        if pending.has(number) {
            places.push(*place)?;
        }
    }
    Ok(places)
}

impl<'a> Look<'a> {
    /// Walks a body: whether it came to its statement.
    #[cycle(look)]
    fn body(&mut self, body: &Vec<Stmt>, pending: &mut Numbers) -> Result<bool, AllocError> {
        for stmt in body {
            if self.one(stmt, pending)? {
                return Ok(true);
            }
        }
        Ok(false)
    }

    #[cycle(look)]
    fn one(&mut self, stmt: &Stmt, pending: &mut Numbers) -> Result<bool, AllocError> {
        if self.next == self.goal {
            return Ok(true);
        }
        self.next = self.next.saturating_add(1);
        match stmt {
            Stmt::Set(_, _) | Stmt::Fold(_, _, _) => Ok(false),
            Stmt::If(_, one, two) => {
                // A child behind either body may be unawaited behind both.
                let mut second = pending.copy(self.alloc)?;
                if self.body(one, pending)? {
                    return Ok(true);
                }
                if self.body(two, &mut second)? {
                    *pending = second;
                    return Ok(true);
                }
                pending.join(&second)?;
                Ok(false)
            }
            Stmt::Task(decl, body) => self.task(decl, body, pending),
            Stmt::Wait(None) => {
                pending.clear();
                Ok(false)
            }
            Stmt::Wait(Some(decl)) => {
                self.wait_for(decl, pending);
                Ok(false)
            }
            Stmt::Group(_, _, body) => self.group(body, pending),
        }
    }

    /// A group, whose end awaits those that were made in it.
    #[cycle(look)]
    fn group(&mut self, body: &Vec<Stmt>, pending: &mut Numbers) -> Result<bool, AllocError> {
        let before = self.tasks.len();
        if self.body(body, pending)? {
            return Ok(true);
        }
        pending.truncate(before);
        Ok(false)
    }

    /// A task, whose body begins without children.
    #[cycle(look)]
    fn task(
        &mut self,
        decl: &Decl,
        body: &Vec<Stmt>,
        pending: &mut Numbers,
    ) -> Result<bool, AllocError> {
        let number = self.tasks.len();
        let is_wanted = self.wanted.takes(decl);
        if is_wanted {
            // (the statement before the next is this task)
            self.tasks.push(self.next.saturating_sub(1))?;
            self.put_users(number, decl)?;
        }
        let mut inside = Numbers::new(self.alloc);
        if self.body(body, &mut inside)? {
            *pending = inside;
            return Ok(true);
        }
        if is_wanted {
            pending.insert(number)?;
        }
        Ok(false)
    }

    /// Notes a task at each cell that it declares.
    fn put_users(&mut self, number: usize, decl: &Decl) -> Result<(), AllocError> {
        for used in decl.uses() {
            let place = self.place_of(used.cell)?;
            if let Some(users) = self.users.get_mut(place) {
                users.all.insert(number)?;
                if used.mode == Mode::Writes {
                    users.writers.insert(number)?;
                }
            }
        }
        Ok(())
    }

    /// Where a cell stands, from now on.
    fn place_of(&mut self, cell: Cell) -> Result<usize, AllocError> {
        if let Some(place) = self.places.of(cell) {
            return Ok(place);
        }
        let place = self.users.len();
        self.places.set(self.alloc, cell, place)?;
        self.users.push(Users {
            all: Numbers::new(self.alloc),
            writers: Numbers::new(self.alloc),
        })?;
        Ok(place)
    }

    /// A wait awaits those with which it shares a cell that one of the two writes.
    fn wait_for(&self, decl: &Decl, pending: &mut Numbers) {
        for used in decl.uses() {
            let Some(place) = self.places.of(used.cell) else {
                continue;
            };
            if let Some(users) = self.users.get(place) {
                if used.mode == Mode::Writes {
                    pending.take_out(&users.all);
                } else {
                    pending.take_out(&users.writers);
                }
            }
        }
    }
}
