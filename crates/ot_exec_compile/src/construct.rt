//! Constructs.
use crate::fault::{Fault, Why};
use crate::maker::{ACTIVE, ALONE, Around, Maker, Returns, WORD, below};
use crate::team::{Team, Thread, Whose};
use crate::value::DEEPEST;
use ot_exec_code::{Form, Operation};
use ot_exec_sharing::{condition_of, has, is_by_one, is_of_one, value_of};
use ot_exec_tree::{Clause, Directive, Expr, Role, Stmt};
use std::mem;

/// Where a region that is executed here began.
#[derive(Clone, Copy)]
pub(crate) struct Region {
    live: usize,
    was: usize,
    around: Around,
    returns: Returns,
    next: u32,
    team: Team,
    whose: Whose,
    text: u32,
}

impl<'a> Maker<'a> {
    pub(crate) fn begins_region(&mut self) -> Region {
        let region = Region {
            live: self.live.len(),
            was: self.was.len(),
            around: self.around,
            returns: self.frame.returns,
            next: self.frame.next,
            team: self.team,
            whose: self.whose,
            text: self.labels.begins(),
        };
        self.around = Around::NOTHING;
        self.team = Team::Nothing;
        self.frame.returns = Returns::Nowhere;
        region
    }

    pub(crate) fn ends_region(&mut self, at: u32, region: Region) -> Result<(), Fault> {
        self.end_since(at, region.live)?;
        self.restore(region.was);
        self.around = region.around;
        self.frame.returns = region.returns;
        self.frame.next = region.next;
        self.team = region.team;
        self.whose = region.whose;
        self.labels.goes_on(region.text);
        Ok(())
    }

    /// The region begins whose items were named.
    pub(crate) fn groups(&mut self, at: u32) -> Result<(), Fault> {
        let folded = mem::replace(&mut self.folded, Vec::new(self.alloc));
        self.emit(Form::Group(at, folded))?;
        Ok(())
    }

    fn waits(&mut self, at: u32, clauses: &[Clause]) -> Result<(), Fault> {
        let mark = self.frame.next;
        self.dependences(clauses)?;
        if self.items.is_empty() {
            self.emit(Form::Wait(at))?;
        } else if has(clauses, Role::Nowait) {
            let bases = self.bases();
            let opened = self.enters(at, None, None, bases)?;
            self.leaves(at, opened)?;
        } else {
            let items = mem::replace(&mut self.items, Vec::new(self.alloc));
            self.emit(Form::WaitFor(at, items))?;
        }
        self.frame.next = mark;
        Ok(())
    }

    /// Whether the team has one thread: where a condition says it that isn't known, that is asked once.
    fn decided(&mut self, at: u32, clauses: &[Clause], alone: u32) -> Result<u32, Fault> {
        if condition_of(clauses, Directive::Parallel).is_none() {
            return Ok(alone);
        }
        let known = self.number(1)?;
        let other = self.emit(Form::Branch(at, alone, 0))?;
        let out = self.jump()?;
        self.lands(other)?;
        self.emit(Form::Number(known, 0))?;
        self.lands(out)?;
        Ok(known)
    }

    /// What clauses of a parallel region say is evaluated: the slot that says whether its team has one thread.
    fn evaluates_team(
        &mut self,
        at: u32,
        clauses: &[Clause],
        is_alone: bool,
    ) -> Result<u32, Fault> {
        if let Some(count) = value_of(clauses, Role::NumThreads) {
            self.expression(DEEPEST, count)?;
        }
        match condition_of(clauses, Directive::Parallel) {
            Some(test) if !is_alone => {
                let value = self.expression(DEEPEST, test)?;
                let slot = self.test(at, value)?;
                self.is_zero(slot)
            }
            _ => self.number(u64::from(is_alone)),
        }
    }
}

/// How a parallel region is executed.
#[derive(Clone, Copy, Debug, PartialEq, Eq)]
enum Manner {
    /// One thread of the team does all.
    ByOne,
    /// The team has one thread.
    OfOne,
    /// The threads share turns or sections, and do nothing else.
    Work,
    Threads,
}

fn manner_of(rest: &[Directive], body: &Stmt, is_of_one: bool) -> Manner {
    match rest.first() {
        Some(Directive::For) | Some(Directive::Sections) => Manner::Work,
        Some(_) => Manner::ByOne,
        None if is_by_one(body) => Manner::ByOne,
        None if is_of_one => Manner::OfOne,
        None => Manner::Threads,
    }
}

/// The body of a construct that must have one.
fn body_of(at: u32, directive: Directive, body: &Option<Box<Stmt>>) -> Result<&Stmt, Fault> {
    match body {
        Some(body) => Ok(&**body),
        None => Err(Fault::Refused(at, Why::Directive(directive))),
    }
}

impl<'a> Maker<'a> {
    #[cycle(statement)]
    pub(crate) fn construct(
        &mut self,
        depth: u32,
        at: u32,
        directives: &[Directive],
        name: Option<u32>,
        clauses: &[Clause],
        body: &Option<Box<Stmt>>,
    ) -> Result<(), Fault> {
        let depth = below(depth, at)?;
        let Some((first, rest)) = directives.split_first() else {
            return Ok(());
        };
        match first {
            Directive::Taskwait => self.waits(at, clauses),
            Directive::Taskyield | Directive::Flush => Ok(()),
            Directive::Task => {
                let body = body_of(at, *first, body)?;
                self.task(depth, at, clauses, body)
            }
            Directive::Taskloop => {
                let body = body_of(at, *first, body)?;
                self.taskloop(depth, at, clauses, body)
            }
            Directive::Taskgroup => {
                let body = body_of(at, *first, body)?;
                self.folds(clauses, true)?;
                self.region(depth, at, true, rest, clauses, body)
            }
            Directive::Single => {
                let body = body_of(at, *first, body)?;
                if let Team::Pieces(pieces) = self.team {
                    return self.single(depth, at, clauses, body, pieces);
                }
                self.is_by_caller(at)?;
                let waits = !has(clauses, Role::Nowait);
                self.region(depth, at, waits, rest, clauses, body)
            }
            Directive::Masked => {
                let body = body_of(at, *first, body)?;
                self.masked(depth, at, rest, clauses, body)
            }
            Directive::For | Directive::Sections => {
                let body = body_of(at, *first, body)?;
                self.work(depth, at, *first, clauses, body)
            }
            Directive::Barrier => self.barrier(at),
            Directive::Simd => {
                let body = body_of(at, *first, body)?;
                self.region(depth, at, false, rest, clauses, body)
            }
            Directive::Parallel => {
                let body = body_of(at, *first, body)?;
                self.parallel(depth, at, rest, clauses, body)
            }
            Directive::Critical => {
                let body = body_of(at, *first, body)?;
                self.critical(depth, at, name, body)
            }
            Directive::Atomic => {
                let body = body_of(at, *first, body)?;
                self.atomic(at, clauses, body)
            }
            // what several threads do, and the rest have their place here
            other => Err(Fault::Refused(at, Why::Directive(*other))),
        }
    }

    /// A region that is executed here: of the rest of a combined directive, or the body.
    #[cycle(statement)]
    fn region(
        &mut self,
        depth: u32,
        at: u32,
        waits: bool,
        rest: &[Directive],
        clauses: &[Clause],
        body: &Stmt,
    ) -> Result<(), Fault> {
        let depth = below(depth, at)?;
        let region = self.begins_region();
        if waits {
            self.groups(at)?;
        }
        match rest {
            [] => {
                self.copies_here(at)?;
                self.within(depth, at, body)?;
            }
            [Directive::Taskloop] | [Directive::Taskloop, Directive::Simd] => {
                self.taskloop(depth, at, clauses, body)?;
            }
            [work @ (Directive::For | Directive::Sections)]
            | [work @ Directive::For, Directive::Simd] => {
                self.parts_of_work(depth, at, *work, clauses, body, None)?;
            }
            [Directive::Masked, Directive::Taskloop]
            | [Directive::Masked, Directive::Taskloop, Directive::Simd] => {
                self.taskloop(depth, at, clauses, body)?;
            }
            [Directive::Masked] => {
                self.copies_here(at)?;
                self.within(depth, at, body)?;
            }
            [other, ..] => return Err(Fault::Refused(at, Why::Directive(*other))),
        }
        self.ends_region(at, region)?;
        if waits {
            self.emit(Form::Leave(at))?;
        }
        Ok(())
    }

    /// What the first thread of a team does alone.
    #[cycle(statement)]
    fn masked(
        &mut self,
        depth: u32,
        at: u32,
        rest: &[Directive],
        clauses: &[Clause],
        body: &Stmt,
    ) -> Result<(), Fault> {
        let depth = below(depth, at)?;
        let Team::Pieces(pieces) = self.team else {
            self.is_by_caller(at)?;
            return self.region(depth, at, false, rest, clauses, body);
        };
        let out = self.repeat(at, pieces.is_first)?;
        self.region(depth, at, false, rest, clauses, body)?;
        self.lands(out)
    }

    /// A parallel region; its tasks end at the barrier.
    #[cycle(statement)]
    fn parallel(
        &mut self,
        depth: u32,
        at: u32,
        rest: &[Directive],
        clauses: &[Clause],
        body: &Stmt,
    ) -> Result<(), Fault> {
        let depth = below(depth, at)?;
        let mark = self.frame.next;
        let is_of_one = is_of_one(&mut self.layouts, self.unit, clauses);
        let alone = self.evaluates_team(at, clauses, is_of_one)?;
        let (was_alone, was_active) = (self.flag(at, ALONE)?, self.flag(at, ACTIVE)?);
        let manner = manner_of(rest, body, is_of_one);
        let alone = match manner {
            Manner::ByOne | Manner::OfOne => alone,
            Manner::Work => self.operate(Operation::Or, WORD, alone, was_active)?,
            Manner::Threads => {
                let alone = self.operate(Operation::Or, WORD, alone, was_active)?;
                self.decided(at, clauses, alone)?
            }
        };
        let several = self.is_zero(alone)?;
        let active = self.operate(Operation::Or, WORD, several, was_active)?;
        self.set_flag(at, ALONE, alone)?;
        self.set_flag(at, ACTIVE, active)?;
        match manner {
            Manner::Threads => self.threads(depth, at, clauses, body, alone)?,
            Manner::OfOne => self.one_thread(depth, at, clauses, body)?,
            Manner::ByOne | Manner::Work => {
                if rest.is_empty() || manner == Manner::Work {
                    self.folds(clauses, false)?;
                }
                let whose = mem::replace(&mut self.whose, Whose::Nobody);
                self.region(depth, at, true, rest, clauses, body)?;
                self.whose = whose;
            }
        }
        self.set_flag(at, ALONE, was_alone)?;
        self.set_flag(at, ACTIVE, was_active)?;
        self.frame.next = mark;
        Ok(())
    }

    /// A parallel region of one thread, who comes to it.
    #[cycle(statement)]
    fn one_thread(
        &mut self,
        depth: u32,
        at: u32,
        clauses: &[Clause],
        body: &Stmt,
    ) -> Result<(), Fault> {
        let depth = below(depth, at)?;
        self.folds(clauses, false)?;
        let region = self.begins_region();
        self.groups(at)?;
        self.copies_here(at)?;
        let number = self.number(0)?;
        let count = self.number(1)?;
        self.team = Team::One;
        self.whose = Whose::Thread(Thread { number, count });
        self.within(depth, at, body)?;
        self.ends_region(at, region)?;
        self.emit(Form::Leave(at))?;
        Ok(())
    }

    #[cycle(statement)]
    fn task(&mut self, depth: u32, at: u32, clauses: &[Clause], body: &Stmt) -> Result<(), Fault> {
        let depth = below(depth, at)?;
        let mark = self.frame.next;
        let when = self.deferral(at, clauses, Directive::Task)?;
        let is_final = self.finality(at, clauses)?;
        self.evaluates(clauses)?;
        self.dependences(clauses)?;
        let bases = self.takes(at, clauses)?;
        let opened = self.enters(at, when, is_final, bases)?;
        self.within(depth, at, body)?;
        self.leaves(at, opened)?;
        self.frame.next = mark;
        Ok(())
    }

    /// A loop whose turns are those of tasks.
    #[cycle(statement)]
    fn taskloop(
        &mut self,
        depth: u32,
        at: u32,
        clauses: &[Clause],
        body: &Stmt,
    ) -> Result<(), Fault> {
        let depth = below(depth, at)?;
        let mark = self.frame.next;
        let waits = !has(clauses, Role::Nogroup);
        if waits {
            self.folds(clauses, false)?;
            self.groups(at)?;
        }
        let (made, turn) = self.divides(at, clauses, body)?;
        self.turns(depth, at, clauses, made, turn)?;
        if waits {
            self.emit(Form::Leave(at))?;
        }
        self.frame.next = mark;
        Ok(())
    }
}
