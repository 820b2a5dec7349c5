//! The number of the thread that runs, as an index. Which thread executes a task isn't known. But of two tasks either the same thread executes both, one
//! after the other, or their threads have different numbers: so what they touch by such an index excludes each other (OpenMP API 5.2, sections 12.9 and 18.2.4).
use crate::fault::Fault;
use crate::maker::{Aim, Maker, NUMBER, Way};
use crate::names::{Known, library_of};
use crate::task::Bases;
use crate::team::Whose;
use ot_exec_code::Form;
use ot_exec_layout::{Class, type_of};
use ot_exec_sharing::How;
use ot_exec_tree::{Expr, Initial};

/// How many casts are looked through, and how deep a place nests.
const CASTS: u32 = 8;

const DEPTH: u32 = 8;

/// The number of the lock that is held while a cell is touched which the thread's number names.
const THREAD: u64 = u64::MAX;

impl<'a> Maker<'a> {
    /// Whether a value is the number of the thread that executes this task: it is asked for there, or in a variable of the task that has nothing else.
    fn is_thread_number(&self, depth: u32, value: &Expr) -> bool {
        if depth == 0 {
            return false;
        }
        match value {
            Expr::Cast(_, _, one) => self.is_thread_number(depth - 1, one),
            Expr::Call(_, function, _) => matches!(
                library_of(self.unit, self.known, function),
                Some(Known::ThreadNumber)
            ),
            Expr::Variable(_, variable) => self.is_numbered(*variable),
            _ => false,
        }
    }

    fn is_numbered(&self, variable: u32) -> bool {
        self.numbered.get(variable as usize) == Some(&self.level)
    }

    fn notes_variable(&mut self, variable: u32) {
        if let Some(level) = self.numbered.get_mut(variable as usize) {
            *level = self.level;
        }
    }

    /// A variable is declared: it is noted where it has the thread's number.
    pub(crate) fn notes_number(&mut self, variable: u32, initial: &Option<Initial>) {
        if let Some(Initial::Value(value)) = initial {
            self.notes_value(variable, value);
        }
    }

    /// A variable gets a value: the only one that it ever has, if it is the thread's number.
    fn notes_value(&mut self, variable: u32, value: &Expr) {
        if self.is_thread_number(CASTS, value) && !self.owned.is_changed(variable) {
            self.notes_variable(variable);
        }
    }

    /// What a statement assigns.
    pub(crate) fn notes_assigned(&mut self, done: &Expr) {
        if let Expr::Assign(_, None, to, value) = done
            && let Expr::Variable(_, variable) = &**to
        {
            self.notes_value(*variable, value);
        }
    }

    /// In shared work a variable of the thread has its number still.
    pub(crate) fn keeps_numbers(&mut self, bases: Bases, from: u32, to: u32) {
        for place in bases.taken..self.taken.len() {
            if let Some(taken) = self.taken.get(place).copied()
                && taken.how == How::Own
                && let Some(level) = self.numbered.get_mut(taken.variable as usize)
                && *level == from
            {
                *level = to;
            }
        }
    }

    /// Whether a place is an element that the thread's number names, or lies within such a one.
    fn is_by_number(&self, depth: u32, place: &Expr) -> bool {
        if depth == 0 {
            return false;
        }
        match place {
            Expr::Index(_, one, index) => {
                self.is_thread_number(CASTS, index)
                    || self.is_array(one) && self.is_by_number(depth - 1, one)
            }
            Expr::Member(_, one, _) => self.is_by_number(depth - 1, one),
            _ => false,
        }
    }

    fn is_array(&self, place: &Expr) -> bool {
        match type_of(&self.layouts, self.unit, DEPTH, place) {
            Some(sort) => matches!(self.class(sort), Class::Array(_)),
            None => false,
        }
    }

    /// How a place is touched: by the number of the thread, where that names it and isn't known.
    pub(crate) fn by_number(&self, aim: Aim, place: &Expr) -> Aim {
        let is_known = matches!(self.whose, Whose::Thread(_));
        if self.asks_number
            && aim.way == Way::Cell
            && !is_known
            && self.is_by_number(DEPTH, place)
        {
            Aim {
                way: Way::Thread,
                ..aim
            }
        } else {
            aim
        }
    }

    /// A cell is touched that the thread's number names.
    pub(crate) fn touches_by_number(&mut self, at: u32, touch: Form) -> Result<u32, Fault> {
        let lock = self.number(THREAD)?;
        self.emit(Form::Lock(at, lock))?;
        self.emit(touch)?;
        self.emit(Form::Unlock(at, lock))
    }

    /// What a task takes along, so that its parent's thread has its number again behind it: the functions that it calls don't know it.
    pub(crate) fn leaves_number(&mut self, at: u32, base: usize) -> Result<Option<u32>, Fault> {
        if !self.has_numbers {
            return Ok(None);
        }
        let number = self.flag(at, NUMBER)?;
        Ok(Some(self.passes(number, base)?))
    }

    /// The task begins.
    pub(crate) fn hides_number(&mut self, at: u32, number: Option<u32>) -> Result<(), Fault> {
        if number.is_some() {
            let unknown = self.unknown()?;
            self.set_flag(at, NUMBER, unknown)?;
        }
        Ok(())
    }
}
