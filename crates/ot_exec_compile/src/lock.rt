//! Locks: `critical`, `atomic` and lock variables. What is atomic holds a lock of its own, as long as it touches its place.
use crate::fault::{Fault, Why};
use crate::maker::{Aim, Maker, Val, Way, below};
use crate::value::DEEPEST;
use ot_exec_code::Form;
use ot_exec_layout::{Class, Sort};
use ot_exec_tree::{Action, Binary, Clause, Expr, Role, Sign, Stmt};

/// The number of the lock that atomic touches hold, and that of a `critical` without a name. Those with names have their names' numbers behind
/// these.
const ATOMIC: u64 = 1;

const CRITICAL: u64 = 2;

/// How deep the place of an atomic construct nests at most.
const DEEP: u32 = 64;

/// What an atomic construct does to a place.
#[derive(Clone, Copy)]
enum Deed<'b> {
    /// One more or one less, and whether it gives what was there before.
    Steps(&'b Expr, bool, bool),
    /// `x += value` and its kin, and `x = x + value`.
    Changes(&'b Expr, Binary, &'b Expr),
    /// `x = value + x`
    Turned(&'b Expr, Binary, &'b Expr),
    Sets(&'b Expr, &'b Expr),
}

impl<'b> Deed<'b> {
    fn place(&self) -> &'b Expr {
        match self {
            Deed::Steps(place, _, _)
            | Deed::Changes(place, _, _)
            | Deed::Turned(place, _, _)
            | Deed::Sets(place, _) => *place,
        }
    }

    fn gives_old(&self) -> bool {
        matches!(self, Deed::Steps(_, _, true))
    }
}

/// What was at a place, and what is there now.
#[derive(Clone, Copy)]
struct Done {
    old: Val,
    new: Val,
}

/// Whether two expressions name one place in the same words.
fn is_same(depth: u32, one: &Expr, other: &Expr) -> bool {
    if depth == 0 {
        return false;
    }
    match (one, other) {
        (Expr::Variable(_, a), Expr::Variable(_, b)) => *a == *b,
        (Expr::Enumerator(_, a), Expr::Enumerator(_, b)) => *a == *b,
        (Expr::Number(_, a, _), Expr::Number(_, b, _)) => *a == *b,
        (Expr::Index(_, a, i), Expr::Index(_, b, j)) => {
            is_same(depth - 1, a, b) && is_same(depth - 1, i, j)
        }
        (Expr::Member(_, a, m), Expr::Member(_, b, n)) => *m == *n && is_same(depth - 1, a, b),
        (Expr::Arrow(_, a, m), Expr::Arrow(_, b, n)) => *m == *n && is_same(depth - 1, a, b),
        (Expr::Unary(_, Sign::Follow, a), Expr::Unary(_, Sign::Follow, b)) => {
            is_same(depth - 1, a, b)
        }
        (Expr::Binary(_, s, a, i), Expr::Binary(_, t, b, j)) => {
            *s == *t && is_same(depth - 1, a, b) && is_same(depth - 1, i, j)
        }
        _ => false,
    }
}

/// What an assignment does, or a step.
fn deed_of(expr: &Expr) -> Option<Deed<'_>> {
    match expr {
        Expr::StepBefore(_, adds, place) => Some(Deed::Steps(place, *adds, false)),
        Expr::StepBehind(_, adds, place) => Some(Deed::Steps(place, *adds, true)),
        Expr::Assign(_, Some(sign), place, value) => Some(Deed::Changes(place, *sign, value)),
        Expr::Assign(_, None, place, value) => Some(joined_of(place, value)),
        _ => None,
    }
}

/// What is assigned to a place: joined with what is there, or not.
fn joined_of<'b>(place: &'b Expr, value: &'b Expr) -> Deed<'b> {
    match value {
        Expr::Binary(_, sign, one, other) => {
            if is_same(DEEP, place, one) {
                Deed::Changes(place, *sign, other)
            } else if is_same(DEEP, place, other) {
                Deed::Turned(place, *sign, one)
            } else {
                Deed::Sets(place, value)
            }
        }
        _ => Deed::Sets(place, value),
    }
}

/// What the construct does, as its clause says.
fn action_of(clauses: &[Clause]) -> Action {
    for clause in clauses {
        if let Role::Atomic(action) = clause.role {
            return action;
        }
    }
    Action::Update
}

/// The expressions of a statement, or of the block that it is.
fn single(body: &Stmt) -> Option<&Expr> {
    match body {
        Stmt::Does(expr) => Some(expr),
        Stmt::Block(_, list, _) => match list.as_slice() {
            [Stmt::Does(expr)] => Some(expr),
            _ => None,
        },
        _ => None,
    }
}

fn pair(body: &Stmt) -> Option<(&Expr, &Expr)> {
    match body {
        Stmt::Block(_, list, _) => match list.as_slice() {
            [Stmt::Does(one), Stmt::Does(other)] => Some((one, other)),
            _ => None,
        },
        _ => None,
    }
}

/// What an atomic construct captures: where it is kept, what is done, and whether what was there before is kept.
#[derive(Clone, Copy)]
struct Captured<'b> {
    to: &'b Expr,
    deed: Deed<'b>,
    old: bool,
}

/// `v = x++`, `v = x += value` and the like.
fn captured_in_one(expr: &Expr) -> Option<Captured<'_>> {
    let Expr::Assign(_, None, to, value) = expr else {
        return None;
    };
    let deed = deed_of(value)?;
    Some(Captured {
        to,
        deed,
        old: deed.gives_old(),
    })
}

/// `{ v = x; x += value; }`, or the other way round.
fn captured_in_two<'b>(one: &'b Expr, other: &'b Expr) -> Option<Captured<'b>> {
    if let Some(found) = captured_beside(one, other, true) {
        return Some(found);
    }
    captured_beside(other, one, false)
}

fn captured_beside<'b>(kept: &'b Expr, done: &'b Expr, old: bool) -> Option<Captured<'b>> {
    let Expr::Assign(_, None, to, value) = kept else {
        return None;
    };
    let deed = deed_of(done)?;
    if is_same(DEEP, value, deed.place()) {
        Some(Captured { to, deed, old })
    } else {
        None
    }
}

/// What tasks exclude each other by.
impl<'a> Maker<'a> {
    /// The lock of this number is taken: the slot with it.
    fn takes_lock(&mut self, at: u32, number: u64) -> Result<u32, Fault> {
        let slot = self.number(number)?;
        self.emit(Form::Lock(at, slot))?;
        Ok(slot)
    }

    #[cycle(statement)]
    pub(crate) fn critical(
        &mut self,
        depth: u32,
        at: u32,
        name: Option<u32>,
        body: &Stmt,
    ) -> Result<(), Fault> {
        let depth = below(depth, at)?;
        let mark = self.frame.next;
        let number = match name {
            Some(name) => u64::from(name).saturating_add(CRITICAL).saturating_add(1),
            None => CRITICAL,
        };
        let lock = self.takes_lock(at, number)?;
        let region = self.begins_region();
        self.within(depth, at, body)?;
        self.ends_region(at, region)?;
        self.emit(Form::Unlock(at, lock))?;
        self.frame.next = mark;
        Ok(())
    }

    /// What a lock variable's place is taken by, once it was read that it is one.
    pub(crate) fn sets_lock(&mut self, at: u32, pointer: Val) -> Result<Val, Fault> {
        let slot = self.fresh()?;
        self.emit(Form::Load(at, slot, pointer.slot))?;
        self.emit(Form::Lock(at, pointer.slot))?;
        self.unknown_of(Sort::VOID)
    }

    /// `omp_test_lock`: 1 where the lock is taken, else 0. Both are ways of the run; in the test of a loop the lock is taken at once.
    pub(crate) fn tests_lock(&mut self, at: u32, pointer: Val) -> Result<Val, Fault> {
        let taken = self.number(1)?;
        if self.repeats {
            self.sets_lock(at, pointer)?;
            return Ok(self.value(taken, Sort::INT));
        }
        let test = self.unknown()?;
        let other = self.emit(Form::Branch(at, test, 0))?;
        self.sets_lock(at, pointer)?;
        let out = self.jump()?;
        self.lands(other)?;
        self.emit(Form::Number(taken, 0))?;
        self.lands(out)?;
        Ok(self.value(taken, Sort::INT))
    }

    pub(crate) fn unsets_lock(&mut self, at: u32, pointer: Val) -> Result<Val, Fault> {
        self.emit(Form::Unlock(at, pointer.slot))?;
        self.unknown_of(Sort::VOID)
    }

    /// A lock variable begins, or ends: its cell is written.
    pub(crate) fn writes_lock(&mut self, at: u32, pointer: Val) -> Result<Val, Fault> {
        let slot = self.number(0)?;
        self.emit(Form::Store(at, pointer.slot, slot))?;
        self.unknown_of(Sort::VOID)
    }
}

/// `atomic` (OpenMP API 5.2, section 15.8.4).
impl<'a> Maker<'a> {
    pub(crate) fn atomic(&mut self, at: u32, clauses: &[Clause], body: &Stmt) -> Result<(), Fault> {
        let mark = self.frame.next;
        match action_of(clauses) {
            Action::Read => self.atomic_read(at, body)?,
            Action::Write => self.atomic_write(at, body)?,
            Action::Update => self.atomic_update(at, body)?,
            Action::Capture => self.atomic_capture(at, body)?,
        }
        self.frame.next = mark;
        Ok(())
    }

    /// A place of a scalar that is touched atomically: its lock's slot, unless nothing but what runs sees it.
    fn takes_atomic(&mut self, at: u32, aim: Aim) -> Result<Option<u32>, Fault> {
        match (aim.way, self.class(aim.sort)) {
            (Way::Slot, _) => Ok(None),
            (_, Class::Integer(_) | Class::Real(_) | Class::Pointer) => {
                Ok(Some(self.takes_lock(at, ATOMIC)?))
            }
            _ => Err(Fault::Refused(at, Why::Operation)),
        }
    }

    fn gives_lock(&mut self, at: u32, lock: Option<u32>) -> Result<(), Fault> {
        if let Some(lock) = lock {
            self.emit(Form::Unlock(at, lock))?;
        }
        Ok(())
    }

    fn atomic_read(&mut self, at: u32, body: &Stmt) -> Result<(), Fault> {
        let Some(Expr::Assign(_, None, to, from)) = single(body) else {
            return Err(Fault::Refused(at, Why::AtomicForm));
        };
        let target = self.aim(DEEPEST, to)?;
        let aim = self.aim(DEEPEST, from)?;
        let lock = self.takes_atomic(at, aim)?;
        let value = self.load(aim)?;
        self.gives_lock(at, lock)?;
        let value = self.convert(at, value, target.sort)?;
        self.store(target, value)
    }

    fn atomic_write(&mut self, at: u32, body: &Stmt) -> Result<(), Fault> {
        let Some(Expr::Assign(_, None, to, value)) = single(body) else {
            return Err(Fault::Refused(at, Why::AtomicForm));
        };
        let aim = self.aim(DEEPEST, to)?;
        let value = self.converted(DEEPEST, value, aim.sort)?;
        let lock = self.takes_atomic(at, aim)?;
        self.store(aim, value)?;
        self.gives_lock(at, lock)
    }

    fn atomic_update(&mut self, at: u32, body: &Stmt) -> Result<(), Fault> {
        let Some(expr) = single(body) else {
            return Err(Fault::Refused(at, Why::AtomicForm));
        };
        match deed_of(expr) {
            None | Some(Deed::Sets(_, _)) => Err(Fault::Refused(at, Why::AtomicForm)),
            Some(deed) => {
                self.does_atomic(at, deed)?;
                Ok(())
            }
        }
    }

    fn atomic_capture(&mut self, at: u32, body: &Stmt) -> Result<(), Fault> {
        let found = match (single(body), pair(body)) {
            (Some(expr), _) => captured_in_one(expr),
            (None, Some((one, other))) => captured_in_two(one, other),
            (None, None) => None,
        };
        let Some(found) = found else {
            return Err(Fault::Refused(at, Why::AtomicForm));
        };
        let target = self.aim(DEEPEST, found.to)?;
        let done = self.does_atomic(at, found.deed)?;
        let value = if found.old { done.old } else { done.new };
        let value = self.convert(at, value, target.sort)?;
        self.store(target, value)
    }

    /// The value that a place is joined with, or gets.
    fn value_for(&mut self, deed: Deed<'_>, sort: Sort) -> Result<Val, Fault> {
        match deed {
            Deed::Steps(_, _, _) => {
                let slot = self.number(1)?;
                Ok(self.value(slot, Sort::INT))
            }
            Deed::Changes(_, _, value) | Deed::Turned(_, _, value) => {
                self.expression(DEEPEST, value)
            }
            Deed::Sets(_, value) => self.converted(DEEPEST, value, sort),
        }
    }

    /// Only the place is touched atomically.
    fn does_atomic(&mut self, at: u32, deed: Deed<'_>) -> Result<Done, Fault> {
        let aim = self.aim(DEEPEST, deed.place())?;
        let value = self.value_for(deed, aim.sort)?;
        let lock = self.takes_atomic(at, aim)?;
        let there = self.load(aim)?;
        let slot = self.copy(there.slot)?;
        let old = Val { slot, ..there };
        let new = match deed {
            Deed::Steps(_, true, _) => self.operated(at, Binary::Add, old, value)?,
            Deed::Steps(_, false, _) => self.operated(at, Binary::Subtract, old, value)?,
            Deed::Changes(_, sign, _) => self.operated(at, sign, old, value)?,
            Deed::Turned(_, sign, _) => self.operated(at, sign, value, old)?,
            Deed::Sets(_, _) => value,
        };
        let new = self.convert(at, new, aim.sort)?;
        self.store(aim, new)?;
        self.gives_lock(at, lock)?;
        Ok(Done { old, new })
    }
}
