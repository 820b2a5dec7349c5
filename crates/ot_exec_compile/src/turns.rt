//! Loops whose turns are divided among tasks (OpenMP API 5.2, sections 4.4.1 and 12.6).
use crate::fault::{Fault, Why};
use crate::maker::{Aim, Held, LONG, Maker, Way};
use crate::task::{Bases, Opened};
use crate::team::Thread;
use crate::value::DEEPEST;
use ot_exec_code::{Form, Operation};
use ot_exec_layout::{Class, Sort};
use ot_exec_sharing::{How, value_of};
use ot_exec_tree::{Binary, Clause, Directive, Expr, Integer, Role, Stmt};

/// A loop of the form that a construct wants.
#[derive(Clone, Copy)]
struct Counted<'b> {
    variable: u32,
    start: &'b Expr,
    test: Binary,
    end: &'b Expr,
    /// None where it is 1.
    step: Option<&'b Expr>,
    /// Whether it counts down.
    down: bool,
    body: &'b Stmt,
}

/// One of the loops whose turns are divided: its variable, and the slots of its first value, its step and how many turns it has.
#[derive(Clone, Copy)]
pub(crate) struct Nested {
    variable: u32,
    start: u32,
    step: u32,
    count: u32,
}

/// The slots of loops that are divided.
#[derive(Clone, Copy)]
pub(crate) struct Divided {
    /// Where they stand among those of all, the outermost first.
    loops: usize,
    /// How many turns they have together.
    count: u32,
    size: Option<u32>,
    /// By how many turns it goes on, where that isn't what a task has.
    by: Option<u32>,
    /// Of `num_tasks`: how many turns each task has at least, and how many have one more.
    each: Option<(u32, u32)>,
    when: Option<u32>,
    is_final: Option<u32>,
    context: u32,
    done: u32,
    tasks: u32,
    head: u32,
    out: u32,
}

/// The slots of a task that executes some turns.
#[derive(Clone, Copy)]
pub(crate) struct Turns {
    index: u32,
    head: u32,
    out: u32,
    /// Its parent's: how many turns it executes.
    size: u32,
    /// The slot that says whether its turns are the last.
    last: u32,
    /// Where its `lastprivate` variables stand among those of all.
    lasts: usize,
}

/// How many loops may be collapsed.
const MOST_LOOPS: u64 = 8;

/// A loop that is all of a block.
fn alone(statement: &Stmt) -> &Stmt {
    match statement {
        Stmt::Block(_, list, _) => match list.as_slice() {
            [one] => one,
            _ => statement,
        },
        _ => statement,
    }
}

fn variable_in(expr: &Expr) -> Option<u32> {
    match expr {
        Expr::Variable(_, variable) => Some(*variable),
        _ => None,
    }
}

/// The variable and its first value.
fn start_of(first: &[Stmt]) -> Option<(u32, &Expr)> {
    match first {
        [Stmt::Declares(_, variable, Some(ot_exec_tree::Initial::Value(start)))] => {
            Some((*variable, start))
        }
        [Stmt::Does(Expr::Assign(_, None, to, start))] => {
            let variable = variable_in(to)?;
            Some((variable, &**start))
        }
        _ => None,
    }
}

fn turned(sign: Binary) -> Binary {
    match sign {
        Binary::Less => Binary::Greater,
        Binary::LessOrEqual => Binary::GreaterOrEqual,
        Binary::Greater => Binary::Less,
        Binary::GreaterOrEqual => Binary::LessOrEqual,
        other => other,
    }
}

fn test_of(variable: u32, test: &Expr) -> Option<(Binary, &Expr)> {
    let Expr::Binary(_, sign, one, other) = test else {
        return None;
    };
    if variable_in(one) == Some(variable) {
        return Some((*sign, &**other));
    }
    if variable_in(other) == Some(variable) {
        return Some((turned(*sign), &**one));
    }
    None
}

/// By how much it counts, and whether down.
fn step_of(variable: u32, step: &Expr) -> Option<(Option<&Expr>, bool)> {
    match step {
        Expr::StepBefore(_, adds, one) | Expr::StepBehind(_, adds, one) => {
            if variable_in(one) == Some(variable) {
                Some((None, !*adds))
            } else {
                None
            }
        }
        Expr::Assign(_, Some(sign), one, by) if variable_in(one) == Some(variable) => match sign {
            Binary::Add => Some((Some(&**by), false)),
            Binary::Subtract => Some((Some(&**by), true)),
            _ => None,
        },
        Expr::Assign(_, None, one, by) if variable_in(one) == Some(variable) => {
            sum_of(variable, by)
        }
        _ => None,
    }
}

fn sum_of(variable: u32, by: &Expr) -> Option<(Option<&Expr>, bool)> {
    match by {
        Expr::Binary(_, Binary::Add, one, other) => {
            if variable_in(one) == Some(variable) {
                Some((Some(&**other), false))
            } else if variable_in(other) == Some(variable) {
                Some((Some(&**one), false))
            } else {
                None
            }
        }
        Expr::Binary(_, Binary::Subtract, one, other) => {
            if variable_in(one) == Some(variable) {
                Some((Some(&**other), true))
            } else {
                None
            }
        }
        _ => None,
    }
}

/// What a loop of the form that a construct wants says.
fn counted_loop(body: &Stmt) -> Option<Counted<'_>> {
    let Stmt::For(_, first, Some(test), Some(step), body) = body else {
        return None;
    };
    let (variable, start) = start_of(first.as_slice())?;
    let (test, end) = test_of(variable, test)?;
    let (step, down) = step_of(variable, step)?;
    Some(Counted {
        variable,
        start,
        test,
        end,
        step,
        down,
        body: &**body,
    })
}

impl<'a> Maker<'a> {
    fn long_of(&mut self, expr: &Expr) -> Result<u32, Fault> {
        let value = self.converted(DEEPEST, expr, Sort::integer(Integer::Long))?;
        self.copy(value.slot)
    }

    /// How many turns the loop has: none where the first value is beyond the end.
    fn count_of(
        &mut self,
        at: u32,
        counted: Counted<'_>,
        start: u32,
        end: u32,
        by: u32,
    ) -> Result<u32, Fault> {
        let (from, to) = if counted.down {
            (end, start)
        } else {
            (start, end)
        };
        let count = self.number(0)?;
        let way = self.operate(Operation::Subtract, LONG, to, from)?;
        let way = match counted.test {
            Binary::LessOrEqual | Binary::GreaterOrEqual => {
                let one = self.number(1)?;
                self.operate(Operation::Add, LONG, way, one)?
            }
            Binary::Less | Binary::Greater | Binary::NotEqual => way,
            _ => return Err(Fault::Refused(at, Why::Loop)),
        };
        let zero = self.number(0)?;
        let some = self.operate(Operation::Less, LONG, zero, way)?;
        let out = self.repeat(at, some)?;
        let one = self.number(1)?;
        let more = self.operate(Operation::Subtract, LONG, by, one)?;
        let sum = self.operate(Operation::Add, LONG, way, more)?;
        self.emit(Form::Operate(count, Operation::Divide, LONG, sum, by))?;
        self.lands(out)?;
        Ok(count)
    }

    /// A number that is at least 1.
    fn at_least_one(&mut self, at: u32, number: u32) -> Result<u32, Fault> {
        let slot = self.copy(number)?;
        let one = self.number(1)?;
        let less = self.operate(Operation::Less, LONG, slot, one)?;
        let out = self.repeat(at, less)?;
        self.emit(Form::Number(slot, 1))?;
        self.lands(out)?;
        Ok(slot)
    }

    /// The lesser of two numbers.
    fn lesser(&mut self, at: u32, one: u32, other: u32) -> Result<u32, Fault> {
        let slot = self.copy(one)?;
        let less = self.operate(Operation::Less, LONG, other, one)?;
        let out = self.repeat(at, less)?;
        self.emit(Form::Copy(slot, other))?;
        self.lands(out)?;
        Ok(slot)
    }

    /// How many loops are divided together.
    fn collapsed(&mut self, at: u32, clauses: &[Clause]) -> Result<u64, Fault> {
        let Some(count) = value_of(clauses, Role::Collapse) else {
            return Ok(1);
        };
        match self.layouts.constant(self.unit, count) {
            Some(count) => {
                if count.number >= 1 && count.number <= MOST_LOOPS {
                    Ok(count.number)
                } else {
                    Err(Fault::Refused(at, Why::Clause))
                }
            }
            None => Err(Fault::Refused(at, Why::NotConstant)),
        }
    }

    /// The bounds of a loop are evaluated: the slot of how many turns it has.
    fn bounds(&mut self, at: u32, counted: Counted<'_>) -> Result<u32, Fault> {
        if !matches!(
            self.class(self.sort_of(counted.variable)),
            Class::Integer(_)
        ) {
            return Err(Fault::Refused(at, Why::Loop));
        }
        let start = self.long_of(counted.start)?;
        let end = self.long_of(counted.end)?;
        let by = match counted.step {
            Some(step) => self.long_of(step)?,
            None => self.number(1)?,
        };
        let count = self.count_of(at, counted, start, end, by)?;
        let step = if counted.down {
            let zero = self.number(0)?;
            self.operate(Operation::Subtract, LONG, zero, by)?
        } else {
            by
        };
        self.nested.push(Nested {
            variable: counted.variable,
            start,
            step,
            count,
        })?;
        Ok(count)
    }

    /// The loops' bounds are evaluated: how many turns they have together, and the body of the innermost.
    fn all_bounds<'b>(
        &mut self,
        at: u32,
        clauses: &[Clause],
        body: &'b Stmt,
    ) -> Result<(u32, &'b Stmt), Fault> {
        let mut count = self.number(1)?;
        let mut turn = body;
        for _level in 0..self.collapsed(at, clauses)? {
            let Some(counted) = counted_loop(alone(turn)) else {
                return Err(Fault::Refused(at, Why::Loop));
            };
            let more = self.bounds(at, counted)?;
            count = self.operate(Operation::Multiply, LONG, count, more)?;
            turn = counted.body;
        }
        Ok((count, turn))
    }

    /// The loops' bounds are evaluated, and the loop over tasks begins. Also the body of the innermost loop.
    pub(crate) fn divides<'b>(
        &mut self,
        at: u32,
        clauses: &[Clause],
        body: &'b Stmt,
    ) -> Result<(Divided, &'b Stmt), Fault> {
        let when = self.deferral(at, clauses, Directive::Taskloop)?;
        let is_final = self.finality(at, clauses)?;
        self.evaluates(clauses)?;
        let loops = self.nested.len();
        let (count, turn) = self.all_bounds(at, clauses, body)?;
        let size = match value_of(clauses, Role::Grainsize) {
            Some(size) => {
                let size = self.long_of(size)?;
                Some(self.at_least_one(at, size)?)
            }
            None => None,
        };
        let each = self.each_of(at, clauses, count)?;
        let context = self.fresh()?;
        self.emit(Form::Context(context))?;
        let done = self.number(0)?;
        let made = Divided {
            loops,
            count,
            size,
            by: None,
            each,
            when,
            is_final,
            context,
            done,
            tasks: 0,
            head: 0,
            out: 0,
        };
        Ok((self.goes_over(at, made)?, turn))
    }

    /// The loop over tasks begins.
    fn goes_over(&mut self, at: u32, made: Divided) -> Result<Divided, Fault> {
        let tasks = self.number(0)?;
        let head = self.here()?;
        let test = self.operate(Operation::Less, LONG, made.done, made.count)?;
        let out = self.repeat(at, test)?;
        Ok(Divided {
            tasks,
            head,
            out,
            ..made
        })
    }

    /// The same of a loop each turn of which is a task: those that this thread creates, of all or of as many as it is one of.
    pub(crate) fn shares_out<'b>(
        &mut self,
        at: u32,
        clauses: &[Clause],
        body: &'b Stmt,
        by: Option<Thread>,
    ) -> Result<(Divided, &'b Stmt), Fault> {
        let when = Some(self.may_defer(at)?);
        let loops = self.nested.len();
        let (count, turn) = self.all_bounds(at, clauses, body)?;
        let context = self.fresh()?;
        self.emit(Form::Context(context))?;
        let done = match by {
            Some(thread) => self.copy(thread.number)?,
            None => self.number(0)?,
        };
        let made = Divided {
            loops,
            count,
            size: None,
            by: by.map(|thread| thread.count),
            each: None,
            when,
            is_final: None,
            context,
            done,
            tasks: 0,
            head: 0,
            out: 0,
        };
        Ok((self.goes_over(at, made)?, turn))
    }

    /// Of `num_tasks`: how many turns each has at least, and how many tasks have one more.
    fn each_of(
        &mut self,
        at: u32,
        clauses: &[Clause],
        count: u32,
    ) -> Result<Option<(u32, u32)>, Fault> {
        let Some(tasks) = value_of(clauses, Role::NumTasks) else {
            return Ok(None);
        };
        let tasks = self.long_of(tasks)?;
        let tasks = self.lesser(at, tasks, count)?;
        let tasks = self.at_least_one(at, tasks)?;
        let each = self.operate(Operation::Divide, LONG, count, tasks)?;
        let more = self.operate(Operation::Remainder, LONG, count, tasks)?;
        Ok(Some((each, more)))
    }

    /// How many turns the next task executes.
    fn size_of_next(&mut self, at: u32, made: Divided) -> Result<u32, Fault> {
        if let Some((each, more)) = made.each {
            let longer = self.operate(Operation::Less, LONG, made.tasks, more)?;
            return self.operate(Operation::Add, LONG, each, longer);
        }
        let Some(size) = made.size else {
            return self.number(1);
        };
        let left = self.operate(Operation::Subtract, LONG, made.count, made.done)?;
        let twice = self.operate(Operation::Add, LONG, size, size)?;
        let slot = self.copy(size)?;
        let is_end = self.operate(Operation::Less, LONG, left, twice)?;
        let out = self.repeat(at, is_end)?;
        self.emit(Form::Copy(slot, left))?;
        self.lands(out)?;
        Ok(slot)
    }

    /// The turn of the first one that a task executes: the value of the only loop's variable, or its number.
    fn turn_number(&mut self, made: Divided) -> Result<u32, Fault> {
        if self.nested.len() > made.loops.saturating_add(1) {
            return Ok(made.done);
        }
        let Some(only) = self.nested.get(made.loops).copied() else {
            return Ok(made.done);
        };
        let way = self.operate(Operation::Multiply, LONG, made.done, only.step)?;
        self.operate(Operation::Add, LONG, only.start, way)
    }

    /// The slots of the loops go along.
    fn passes_loops(&mut self, loops: usize, base: usize) -> Result<usize, Fault> {
        let behind = self.nested.len();
        for place in loops..behind {
            if let Some(outer) = self.nested.get(place).copied() {
                let inner = Nested {
                    variable: outer.variable,
                    start: self.passes(outer.start, base)?,
                    step: self.passes(outer.step, base)?,
                    count: self.passes(outer.count, base)?,
                };
                self.nested.push(inner)?;
            }
        }
        Ok(behind)
    }

    /// The loops' variables that no clause names are private, and declared by the loops.
    fn begins_variables(&mut self, at: u32, loops: usize, bases: Bases) -> Result<(), Fault> {
        for place in loops..self.nested.len() {
            if let Some(one) = self.nested.get(place).copied()
                && !self.has_taken(bases, one.variable)
            {
                let held = self.begins_private(at, one.variable)?;
                self.hold_for_now(one.variable, held)?;
            }
        }
        Ok(())
    }

    /// The loops' variables get their values in the turn of this number, the innermost first. That of the outermost rests on no number of turns.
    fn set_variables(&mut self, at: u32, loops: usize, turn: u32) -> Result<(), Fault> {
        let mut rest = turn;
        for place in (loops..self.nested.len()).rev() {
            if let Some(one) = self.nested.get(place).copied() {
                let mut index = rest;
                if place > loops {
                    index = self.operate(Operation::Remainder, LONG, rest, one.count)?;
                    rest = self.operate(Operation::Divide, LONG, rest, one.count)?;
                }
                let way = self.operate(Operation::Multiply, LONG, index, one.step)?;
                let slot = self.operate(Operation::Add, LONG, one.start, way)?;
                self.set_variable(at, one.variable, slot)?;
            }
        }
        Ok(())
    }

    fn set_variable(&mut self, at: u32, variable: u32, slot: u32) -> Result<(), Fault> {
        let value = self.value(slot, Sort::integer(Integer::Long));
        let aim = self.aim_variable(at, variable)?;
        let way = match aim.way {
            Way::Slot => Way::Slot,
            Way::Cell | Way::Own | Way::Thread => Way::Own,
        };
        let value = self.convert(at, value, aim.sort)?;
        self.store_scalar(Aim { way, ..aim }, value.slot)
    }

    /// A task begins that executes turns, and the first of them.
    pub(crate) fn begins_turns(
        &mut self,
        at: u32,
        clauses: &[Clause],
        made: Divided,
    ) -> Result<(Opened, Turns), Fault> {
        let size = self.size_of_next(at, made)?;
        let number = self.turn_number(made)?;
        self.emit(Form::Within(made.context))?;
        self.emit(Form::Turn(at, number))?;
        let behind = self.operate(Operation::Add, LONG, made.done, size)?;
        let is_last = self.operate(Operation::Equal, LONG, behind, made.count)?;
        let bases = self.takes(at, clauses)?;
        let lasts = self.lasts.len();
        self.takes_lasts(at, bases.passed)?;
        let first = self.passes(made.done, bases.passed)?;
        let count = self.passes(size, bases.passed)?;
        let last = self.passes(is_last, bases.passed)?;
        let loops = self.passes_loops(made.loops, bases.passed)?;
        let opened = self.enters(at, made.when, made.is_final, bases)?;
        self.begins_variables(at, loops, bases)?;
        let (index, head, out) = self.begins_count(at, count)?;
        let turn = self.operate(Operation::Add, LONG, first, index)?;
        self.set_variables(at, loops, turn)?;
        let turns = Turns {
            index,
            head,
            out,
            size,
            last,
            lasts,
        };
        Ok((opened, turns))
    }

    /// Whether the variable is among those that come from outside.
    fn has_taken(&self, bases: Bases, variable: u32) -> bool {
        for place in bases.taken..self.taken.len() {
            if let Some(taken) = self.taken.get(place)
                && taken.variable == variable
            {
                return true;
            }
        }
        false
    }

    /// The places of `lastprivate` variables outside go along.
    pub(crate) fn takes_lasts(&mut self, at: u32, base: usize) -> Result<(), Fault> {
        let sharing = self.sharing;
        for capture in sharing.captures(at) {
            if matches!(capture.how, How::Lastprivate | How::Both) {
                let aim = self.aim_variable(at, capture.variable)?;
                if aim.way == Way::Slot {
                    return Err(Fault::Refused(at, Why::NoPlace));
                }
                let slot = self.passes(aim.slot, base)?;
                self.lasts.push(crate::maker::Was {
                    variable: capture.variable,
                    held: if aim.way == Way::Own {
                        Held::Own(slot)
                    } else {
                        Held::Place(slot)
                    },
                })?;
            }
        }
        Ok(())
    }

    /// The last task writes them.
    fn writes_lasts(&mut self, at: u32, turns: Turns) -> Result<(), Fault> {
        if self.lasts.len() == turns.lasts {
            return Ok(());
        }
        let out = self.emit(Form::Branch(at, turns.last, 0))?;
        for place in turns.lasts..self.lasts.len() {
            if let Some(to) = self.lasts.get(place).copied() {
                self.writes_last(at, to.variable, to.held)?;
            }
        }
        self.lands(out)
    }

    pub(crate) fn writes_last(&mut self, at: u32, variable: u32, to: Held) -> Result<(), Fault> {
        let mark = self.frame.next;
        let aim = self.aim_variable(at, variable)?;
        let (slot, way) = match to {
            Held::Own(slot) => (slot, Way::Own),
            Held::Place(slot) => (slot, Way::Cell),
            _ => return Ok(()),
        };
        let value = self.load(Aim { site: at, ..aim })?;
        let target = Aim {
            slot,
            sort: aim.sort,
            way,
            site: at,
            lends: false,
            within: None,
        };
        self.store(target, value)?;
        self.frame.next = mark;
        Ok(())
    }

    /// The turn ends, and behind the last the task; behind the last task the loop.
    pub(crate) fn ends_turns(
        &mut self,
        at: u32,
        made: Divided,
        opened: Opened,
        turns: Turns,
    ) -> Result<(), Fault> {
        self.ends_count(turns.index, turns.head, turns.out)?;
        self.writes_lasts(at, turns)?;
        self.lasts.truncate(turns.lasts);
        self.nested.truncate(made.loops);
        self.leaves(at, opened)?;
        let by = made.by.unwrap_or(turns.size);
        self.emit(Form::Operate(made.done, Operation::Add, LONG, made.done, by))?;
        let one = self.number(1)?;
        self.emit(Form::Operate(made.tasks, Operation::Add, LONG, made.tasks, one))?;
        self.emit(Form::Jump(made.head))?;
        self.lands(made.out)?;
        self.emit(Form::Within(made.context))?;
        Ok(())
    }
}
