//! Work that the threads of a team share: `for`, `sections`, `single`, `master` (OpenMP API 5.2, chapter 11). Each turn, each section and each body
//! of `single` is a task, which any thread may do.
use crate::clauses::Joined;
use crate::fault::{Fault, Why};
use crate::maker::{Around, LONG, Maker, below};
use crate::task::Bases;
use crate::team::{Pieces, Team, Thread};
use ot_exec_code::{Form, Operation};
use ot_exec_sharing::{How, has};
use ot_exec_tree::{Clause, Directive, Role, Stmt};

/// Whether a clause names items of a reduction.
fn reduces(clauses: &[Clause]) -> bool {
    clauses
        .iter()
        .any(|clause| matches!(clause.role, Role::Reduction(_)))
}

/// How many statements stand before the first section.
fn before_sections(list: &[Stmt]) -> usize {
    let mut count = 0usize;
    for statement in list {
        if is_section(statement) {
            return count;
        }
        count = count.saturating_add(1);
    }
    count
}

fn is_section(statement: &Stmt) -> bool {
    match statement {
        Stmt::Construct(_, directives, _, _, _) => {
            directives.first() == Some(&Directive::Section)
        }
        _ => false,
    }
}

/// What a section does.
fn inner_of(at: u32, statement: &Stmt) -> Result<&Stmt, Fault> {
    match statement {
        Stmt::Construct(_, _, _, _, Some(inner)) if is_section(statement) => Ok(&**inner),
        _ => Err(Fault::Refused(at, Why::Directive(Directive::Section))),
    }
}

/// A section: its number, and whether it is the last one.
#[derive(Clone, Copy)]
struct Section {
    number: u64,
    is_last: bool,
}

impl<'a> Maker<'a> {
    /// The threads share a loop's turns, or sections.
    #[cycle(statement)]
    pub(crate) fn work(
        &mut self,
        depth: u32,
        at: u32,
        directive: Directive,
        clauses: &[Clause],
        body: &Stmt,
    ) -> Result<(), Fault> {
        let depth = below(depth, at)?;
        let waits = !has(clauses, Role::Nowait);
        if !waits && directive == Directive::For && has(clauses, Role::Other) {
            return Err(Fault::Refused(at, Why::Schedule));
        }
        let mark = self.frame.next;
        if let Team::Pieces(_) = self.team {
            self.lends_nothing(at)?;
        }
        match self.team {
            Team::Nothing => return Err(Fault::Refused(at, Why::Orphan)),
            Team::Called => {
                self.is_by_caller(at)?;
                self.reduced_work(depth, at, directive, clauses, body)?;
            }
            Team::One => self.reduced_work(depth, at, directive, clauses, body)?,
            Team::Pieces(pieces) if reduces(clauses) => {
                let out = self.repeat(at, pieces.is_last)?;
                self.reduced_work(depth, at, directive, clauses, body)?;
                if !waits {
                    self.combines(at, clauses)?;
                }
                self.lands(out)?;
            }
            Team::Pieces(pieces) => {
                let by = Some(pieces.thread);
                self.parts_of_work(depth, at, directive, clauses, body, by)?;
            }
        }
        self.frame.next = mark;
        if waits { self.barrier(at) } else { Ok(()) }
    }

    /// Parts of the work that one thread does are in its order, which isn't known here: so none may touch what it shares with tasks.
    fn lends_nothing(&mut self, at: u32) -> Result<(), Fault> {
        let sharing = self.sharing;
        for capture in sharing.captures(at) {
            if capture.how == How::Own && self.owned.is_lent(capture.variable) {
                return Err(Fault::Refused(at, Why::Lent));
            }
        }
        Ok(())
    }

    /// One thread creates all tasks, in a group that ends with what they reduce.
    #[cycle(statement)]
    fn reduced_work(
        &mut self,
        depth: u32,
        at: u32,
        directive: Directive,
        clauses: &[Clause],
        body: &Stmt,
    ) -> Result<(), Fault> {
        let depth = below(depth, at)?;
        self.folds(clauses, false)?;
        self.groups(at)?;
        self.parts_of_work(depth, at, directive, clauses, body, None)?;
        self.emit(Form::Leave(at))?;
        Ok(())
    }

    /// Behind `nowait` what threads have reduced is combined at any time up to the next barrier (OpenMP API 5.2, section 5.5.8): a task that nothing
    /// awaits until then writes the items.
    fn combines(&mut self, at: u32, clauses: &[Clause]) -> Result<(), Fault> {
        let when = Some(self.may_defer(at)?);
        let bases = self.bases();
        self.joins(at, clauses, bases.passed)?;
        let behind = Bases {
            joined: self.joined.len(),
            ..bases
        };
        let opened = self.enters(at, when, None, behind)?;
        for place in bases.joined..self.joined.len() {
            if let Some(joined) = self.joined.get(place).copied() {
                self.writes_again(at, joined)?;
            }
        }
        self.leaves(at, opened)?;
        self.joined.truncate(bases.joined);
        Ok(())
    }

    /// The cells of an item are written with what they have.
    fn writes_again(&mut self, at: u32, joined: Joined) -> Result<(), Fault> {
        let count = self.counted(joined.cells)?;
        let (index, start, out) = self.begins_count(at, count)?;
        let place = self.advance(joined.slot, index, 1)?;
        let value = self.fresh()?;
        self.emit(Form::LoadOwn(at, value, place))?;
        self.emit(Form::Store(at, place, value))?;
        self.ends_count(index, start, out)
    }

    #[cycle(statement)]
    pub(crate) fn parts_of_work(
        &mut self,
        depth: u32,
        at: u32,
        directive: Directive,
        clauses: &[Clause],
        body: &Stmt,
        by: Option<Thread>,
    ) -> Result<(), Fault> {
        let depth = below(depth, at)?;
        match directive {
            Directive::For => {
                let (made, turn) = self.shares_out(at, clauses, body, by)?;
                self.turns(depth, at, clauses, made, turn)
            }
            Directive::Sections => self.sections(depth, at, clauses, body, by),
            other => Err(Fault::Refused(at, Why::Directive(other))),
        }
    }

    #[cycle(statement)]
    fn sections(
        &mut self,
        depth: u32,
        at: u32,
        clauses: &[Clause],
        body: &Stmt,
        by: Option<Thread>,
    ) -> Result<(), Fault> {
        let depth = below(depth, at)?;
        let Stmt::Block(_, list, _) = body else {
            return Err(Fault::Refused(at, Why::Directive(Directive::Sections)));
        };
        let before = before_sections(list.as_slice());
        let (Some(first), Some(rest)) = (list.get(..before), list.get(before..)) else {
            return Err(Fault::Refused(at, Why::Directive(Directive::Sections)));
        };
        let mut number = 0u64;
        if !first.is_empty() {
            let section = Section {
                number,
                is_last: rest.is_empty(),
            };
            self.section(depth, at, clauses, first, section, by)?;
            number = 1;
        }
        let mut left = rest.len();
        for statement in rest {
            left = left.saturating_sub(1);
            let inner = inner_of(at, statement)?;
            let section = Section {
                number,
                is_last: left == 0,
            };
            self.section(depth, at, clauses, std::slice::from_ref(inner), section, by)?;
            number = number.saturating_add(1);
        }
        Ok(())
    }

    /// The jump of a thread over a section that another one creates.
    fn passes_over(
        &mut self,
        at: u32,
        number: u64,
        by: Option<Thread>,
    ) -> Result<Option<u32>, Fault> {
        let Some(thread) = by else {
            return Ok(None);
        };
        let number = self.number(number)?;
        let whose = self.operate(Operation::Remainder, LONG, number, thread.count)?;
        let is_own = self.operate(Operation::Equal, LONG, whose, thread.number)?;
        Ok(Some(self.repeat(at, is_own)?))
    }

    #[cycle(statement)]
    fn section(
        &mut self,
        depth: u32,
        at: u32,
        clauses: &[Clause],
        list: &[Stmt],
        section: Section,
        by: Option<Thread>,
    ) -> Result<(), Fault> {
        let depth = below(depth, at)?;
        let mark = self.frame.next;
        let out = self.passes_over(at, section.number, by)?;
        let when = Some(self.may_defer(at)?);
        let bases = self.takes(at, clauses)?;
        let lasts = self.lasts.len();
        if section.is_last {
            self.takes_lasts(at, bases.passed)?;
        }
        let opened = self.enters(at, when, None, bases)?;
        self.block(depth, at, list)?;
        self.writes_all(at, lasts)?;
        self.leaves(at, opened)?;
        if let Some(out) = out {
            self.lands(out)?;
        }
        self.frame.next = mark;
        Ok(())
    }

    /// The last section writes its `lastprivate` variables.
    fn writes_all(&mut self, at: u32, first: usize) -> Result<(), Fault> {
        for place in first..self.lasts.len() {
            if let Some(to) = self.lasts.get(place).copied() {
                self.writes_last(at, to.variable, to.held)?;
            }
        }
        self.lasts.truncate(first);
        Ok(())
    }

    /// The turns of a loop that is divided among tasks.
    #[cycle(statement)]
    pub(crate) fn turns(
        &mut self,
        depth: u32,
        at: u32,
        clauses: &[Clause],
        made: crate::turns::Divided,
        turn: &Stmt,
    ) -> Result<(), Fault> {
        let depth = below(depth, at)?;
        let (opened, inner) = self.begins_turns(at, clauses, made)?;
        let outside = self.around;
        let base = self.continues.len();
        self.around = Around {
            breaks: None,
            continues: Some(self.live.len()),
        };
        self.within(depth, at, turn)?;
        self.around = outside;
        self.continues_land(base)?;
        self.ends_turns(at, made, opened, inner)
    }

    /// The body of `single`, which any thread may do; the last one creates its task.
    #[cycle(statement)]
    pub(crate) fn single(
        &mut self,
        depth: u32,
        at: u32,
        clauses: &[Clause],
        body: &Stmt,
        pieces: Pieces,
    ) -> Result<(), Fault> {
        let depth = below(depth, at)?;
        let mark = self.frame.next;
        if has(clauses, Role::Nowait) {
            self.lends_nothing(at)?;
        }
        let out = self.repeat(at, pieces.is_last)?;
        let when = Some(self.may_defer(at)?);
        let bases = self.takes(at, clauses)?;
        let opened = self.enters(at, when, None, bases)?;
        self.within(depth, at, body)?;
        self.leaves(at, opened)?;
        self.lands(out)?;
        self.frame.next = mark;
        if has(clauses, Role::Nowait) {
            Ok(())
        } else {
            self.barrier(at)
        }
    }
}
