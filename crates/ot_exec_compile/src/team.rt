//! Teams of threads (OpenMP API 5.2, section 10.1). A thread's text is executed piece by piece, from barrier to barrier, each piece as a task;
//! a barrier is the end of a group. Who comes to the region leads: it keeps what the threads' slots have from one piece to the next.
use crate::fault::{Fault, Why};
use crate::maker::{COUNT, LONG, MOST_SLOTS, Maker, NUMBER, WORD, below};
use crate::task::{Bases, Opened};
use ot_exec_code::{Form, Operation};
use ot_exec_tree::{Clause, Stmt};

/// A thread of a team: the slots of its number, and of how many threads there are.
#[derive(Clone, Copy)]
pub(crate) struct Thread {
    pub(crate) number: u32,
    pub(crate) count: u32,
}

/// Whose text it is that is made, where the number of a thread is asked for.
#[derive(Clone, Copy)]
pub(crate) enum Whose {
    /// Of who calls the function.
    Caller,
    Thread(Thread),
    /// Any thread may execute it.
    Nobody,
}

/// What the pieces of a thread's text need: slots, and the jump over what is behind the last barrier.
#[derive(Clone, Copy)]
pub(crate) struct Pieces {
    pub(crate) thread: Thread,
    /// Whether the thread is the first one, or the last.
    pub(crate) is_first: u32,
    pub(crate) is_last: u32,
    /// Where it goes on: 0 at its end, 1 at its begin, and above these behind a barrier.
    state: u32,
    context: u32,
    number: u32,
    test: u32,
    next: u32,
    /// The last state that there is.
    states: u64,
    /// How many slots are the same in all pieces, and how many more are kept at barriers.
    fixed: u32,
    rooms: u32,
    /// Where the jumps to a piece's end and the forms that keep slots begin among all.
    ends: usize,
    kept: usize,
}

/// What threads do together in the text that is made.
#[derive(Clone, Copy)]
pub(crate) enum Team {
    /// They don't meet here.
    Nothing,
    /// It is the text of a function: who calls it meets nobody, or the text is made once more where it is called.
    Called,
    /// A team of one thread.
    One,
    Pieces(Pieces),
}

/// A form that copies a slot to or from where it is kept until the next piece.
#[derive(Clone, Copy)]
pub(crate) struct Kept {
    form: u32,
    is_target: bool,
    /// Which of the slots that are kept it is.
    number: u32,
}

/// How many threads a team has of which the text doesn't say that it has one.
pub(crate) const THREADS: u64 = 2;

/// The slots of who leads.
#[derive(Clone, Copy)]
pub(crate) struct Lead {
    /// Whether the team has one thread.
    alone: u32,
    /// The number of the thread whose piece is executed, and how many there are.
    thread: Thread,
    test: u32,
    /// Where a place is had for a moment.
    place: u32,
    /// What each thread begins with: two times so many slots.
    first: u32,
    second: u32,
    count: u32,
    /// The jump to the begin, and where a piece is executed.
    jump: u32,
    start: u32,
    task: u32,
}

impl<'a> Maker<'a> {
    /// What a thread of this number begins with: the lists of what it takes along, the first slot, and how many.
    fn begins_with_all(
        &mut self,
        at: u32,
        clauses: &[Clause],
        number: u64,
        count: u32,
    ) -> Result<(Bases, u32, u32), Fault> {
        let bases = self.takes(at, clauses)?;
        let first = self.frame.next;
        for place in bases.passed..self.passed.len() {
            if let Some(slot) = self.passed.get(place).copied() {
                self.copy(slot)?;
            }
        }
        self.number(number)?;
        self.copy(count)?;
        self.number(1)?;
        Ok((bases, first, self.frame.next.saturating_sub(first)))
    }

    /// The region begins: what its threads begin with is there, and a piece of one begins.
    fn begins_team(
        &mut self,
        at: u32,
        clauses: &[Clause],
        alone: u32,
    ) -> Result<(Lead, Opened), Fault> {
        self.has_team = true;
        let threads = self.number(THREADS)?;
        let threads = self.operate(Operation::Subtract, LONG, threads, alone)?;
        let number = self.number(0)?;
        let test = self.fresh()?;
        let place = self.fresh()?;
        let (bases, first, count) = self.begins_with_all(at, clauses, 0, threads)?;
        self.forgets(bases);
        let (bases, second, _) = self.begins_with_all(at, clauses, 1, threads)?;
        let jump = self.jump()?;
        let start = self.here()?;
        let task = self.emit(Form::Task {
            site: at,
            first: 0,
            slots: 0,
            behind: 0,
            items: Vec::new(self.alloc),
            when: None,
        })?;
        let opened = self.opens(task, 0, count, bases, None);
        let lead = Lead {
            alone,
            thread: Thread {
                number,
                count: threads,
            },
            test,
            place,
            first,
            second,
            count,
            jump,
            start,
            task,
        };
        self.begins_pieces(at, count, bases)?;
        Ok((lead, opened))
    }

    /// A thread's text begins, in a piece whose last slots are its number, how many threads there are, and its state.
    fn begins_pieces(&mut self, at: u32, count: u32, bases: Bases) -> Result<(), Fault> {
        let thread = Thread {
            number: count.saturating_sub(3),
            count: count.saturating_sub(2),
        };
        let state = count.saturating_sub(1);
        let context = self.fresh()?;
        let number = self.fresh()?;
        let test = self.fresh()?;
        let next = self.begins_state(at, state, number, test, 1)?;
        self.binds(at, bases)?;
        let is_first = self.is_zero(thread.number)?;
        let one = self.number(1)?;
        let behind = self.operate(Operation::Add, LONG, thread.number, one)?;
        let is_last = self.operate(Operation::Equal, LONG, behind, thread.count)?;
        self.whose = Whose::Thread(thread);
        self.team = Team::Pieces(Pieces {
            thread,
            is_first,
            is_last,
            state,
            context,
            number,
            test,
            next,
            states: 1,
            fixed: self.frame.next,
            rooms: 0,
            ends: self.ends.len(),
            kept: self.kept.len(),
        });
        Ok(())
    }

    /// Functions that are called know the thread that runs, where the text asks for its number.
    fn numbers(&mut self, at: u32, place: u32, thread: Thread) -> Result<(), Fault> {
        if self.has_numbers {
            self.emit(Form::Address(place, self.flags, NUMBER))?;
            self.emit(Form::StoreOwn(at, place, thread.number))?;
            self.emit(Form::Address(place, self.flags, COUNT))?;
            self.emit(Form::StoreOwn(at, place, thread.count))?;
        }
        Ok(())
    }

    /// Here goes on what is in a state: the jump for others.
    fn begins_state(
        &mut self,
        at: u32,
        state: u32,
        number: u32,
        test: u32,
        this: u64,
    ) -> Result<u32, Fault> {
        self.emit(Form::Number(number, this))?;
        self.emit(Form::Operate(test, Operation::Equal, WORD, state, number))?;
        self.repeat(at, test)
    }

    /// A barrier.
    pub(crate) fn barrier(&mut self, at: u32) -> Result<(), Fault> {
        match self.team {
            Team::Nothing => Err(Fault::Refused(at, Why::Orphan)),
            Team::Called => self.is_by_caller(at),
            Team::One => Ok(()),
            Team::Pieces(pieces) => self.parts(at, pieces),
        }
    }

    /// A piece ends at a barrier, and the next one begins.
    fn parts(&mut self, at: u32, pieces: Pieces) -> Result<(), Fault> {
        let states = pieces.states.saturating_add(1);
        let first = self.kept.len();
        let mut rooms = pieces.rooms;
        for slot in pieces.fixed..self.frame.next {
            let form = self.emit(Form::Copy(0, slot))?;
            self.kept.push(Kept {
                form,
                is_target: true,
                number: rooms,
            })?;
            rooms = rooms.saturating_add(1);
        }
        self.emit(Form::Number(pieces.state, states))?;
        self.emit(Form::Context(pieces.context))?;
        let end = self.jump()?;
        self.ends.push(end)?;
        self.lands(pieces.next)?;
        let next = self.begins_state(at, pieces.state, pieces.number, pieces.test, states)?;
        self.takes_back(pieces, first)?;
        self.emit(Form::Within(pieces.context))?;
        self.team = Team::Pieces(Pieces {
            next,
            states,
            rooms,
            ..pieces
        });
        Ok(())
    }

    /// The slots get back what was kept since.
    fn takes_back(&mut self, pieces: Pieces, first: usize) -> Result<(), Fault> {
        let mut slot = pieces.fixed;
        for place in first..self.kept.len() {
            if let Some(kept) = self.kept.get(place).copied() {
                let form = self.emit(Form::Copy(slot, 0))?;
                self.kept.push(Kept {
                    form,
                    is_target: false,
                    ..kept
                })?;
                slot = slot.saturating_add(1);
            }
        }
        Ok(())
    }

    /// The last piece of a thread's text ends, and all others: how many slots they have.
    fn ends_pieces(&mut self, at: u32, pieces: Pieces) -> Result<u32, Fault> {
        self.adds_copies(at)?;
        self.end_since(at, self.frame.floor)?;
        self.emit(Form::Number(pieces.state, 0))?;
        self.lands(pieces.next)?;
        for place in pieces.ends..self.ends.len() {
            if let Some(end) = self.ends.get(place).copied() {
                self.lands(end)?;
            }
        }
        self.ends.truncate(pieces.ends);
        self.emit(Form::Finish)?;
        let slots = self.frame.most.max(1);
        for place in pieces.kept..self.kept.len() {
            if let Some(kept) = self.kept.get(place).copied() {
                let slot = slots.saturating_add(kept.number);
                self.copies_by(kept.form, slot, kept.is_target);
            }
        }
        self.kept.truncate(pieces.kept);
        Ok(slots)
    }
}

/// Where the slots of a team lie among those of who leads: each thread's that are kept, and those in which a piece is executed.
#[derive(Clone, Copy)]
struct Rows {
    first: u32,
    second: u32,
    piece: u32,
    /// How many of them are the first slots of a piece, how many stand behind its others, and how many it has in all.
    fixed: u32,
    kept: u32,
    slots: u32,
}

/// Who leads.
impl<'a> Maker<'a> {
    #[cycle(statement)]
    pub(crate) fn threads(
        &mut self,
        depth: u32,
        at: u32,
        clauses: &[Clause],
        body: &Stmt,
        alone: u32,
    ) -> Result<(), Fault> {
        let depth = below(depth, at)?;
        self.folds(clauses, false)?;
        self.groups(at)?;
        let was = Thread {
            number: self.flag(at, NUMBER)?,
            count: self.flag(at, COUNT)?,
        };
        let (lead, opened) = self.begins_team(at, clauses, alone)?;
        self.within(depth, at, body)?;
        self.ends_team(at, lead, opened)?;
        let place = self.fresh()?;
        self.numbers(at, place, was)?;
        self.emit(Form::Leave(at))?;
        Ok(())
    }

    fn ends_team(&mut self, at: u32, lead: Lead, opened: Opened) -> Result<(), Fault> {
        let Team::Pieces(pieces) = self.team else {
            return Err(Fault::Refused(at, Why::Orphan));
        };
        let slots = self.ends_pieces(at, pieces)?;
        let kept = pieces.rooms;
        let base = opened.unused();
        let rows = if pieces.states > 1 {
            let width = pieces.fixed.saturating_add(kept);
            Rows {
                first: base,
                second: base.saturating_add(width),
                piece: base.saturating_add(width).saturating_add(width),
                fixed: pieces.fixed,
                kept,
                slots: slots.saturating_add(kept),
            }
        } else {
            Rows {
                first: lead.first,
                second: lead.second,
                piece: base,
                fixed: lead.count,
                kept: 0,
                slots,
            }
        };
        if rows.piece.saturating_add(rows.slots) >= MOST_SLOTS {
            return Err(Fault::Refused(at, Why::Length));
        }
        self.closes(opened, rows.piece, rows.slots)?;
        if pieces.states > 1 {
            self.goes_in_rounds(at, lead, rows, pieces.state)
        } else {
            self.goes_once(at, lead, rows)
        }
    }

    /// Copies as many slots one by one.
    fn copies_slots(&mut self, to: u32, from: u32, count: u32) -> Result<(), Fault> {
        for slot in 0..count {
            self.emit(Form::Copy(to.saturating_add(slot), from.saturating_add(slot)))?;
        }
        Ok(())
    }

    /// A thread goes on with what it had, which lies there.
    fn goes_on_from(
        &mut self,
        at: u32,
        lead: Lead,
        rows: Rows,
        row: u32,
        number: u64,
    ) -> Result<(), Fault> {
        self.copies_slots(rows.piece, row, rows.fixed)?;
        let behind = rows
            .piece
            .saturating_add(rows.slots)
            .saturating_sub(rows.kept);
        self.copies_slots(behind, row.saturating_add(rows.fixed), rows.kept)?;
        self.emit(Form::Number(lead.thread.number, number))?;
        self.numbers(at, lead.place, lead.thread)?;
        self.emit(Form::Jump(lead.start))?;
        Ok(())
    }

    /// What a thread has is kept there.
    fn keeps_row(&mut self, rows: Rows, row: u32) -> Result<(), Fault> {
        self.copies_slots(row, rows.piece, rows.fixed)?;
        let behind = rows
            .piece
            .saturating_add(rows.slots)
            .saturating_sub(rows.kept);
        self.copies_slots(row.saturating_add(rows.fixed), behind, rows.kept)
    }

    /// Behind a piece of the first thread that of the second follows, if there is one: jumps to where all have come.
    fn follows(
        &mut self,
        at: u32,
        lead: Lead,
        rows: Rows,
        keeps: bool,
    ) -> Result<(u32, u32), Fault> {
        let first = self.repeat(at, lead.thread.number)?;
        if keeps {
            self.keeps_row(rows, rows.second)?;
        }
        let one = self.jump()?;
        self.lands(first)?;
        if keeps {
            self.keeps_row(rows, rows.first)?;
        }
        let two = self.repeat(at, lead.alone)?;
        let other = self.jump()?;
        self.lands(two)?;
        self.goes_on_from(at, lead, rows, rows.second, 1)?;
        Ok((one, other))
    }

    /// Each thread has one piece.
    fn goes_once(&mut self, at: u32, lead: Lead, rows: Rows) -> Result<(), Fault> {
        let (one, other) = self.follows(at, lead, rows, false)?;
        self.lands(one)?;
        self.lands(other)?;
        self.emit(Form::Leave(at))?;
        let out = self.jump()?;
        self.lands(lead.jump)?;
        self.emit(Form::Group(at, Vec::new(self.alloc)))?;
        self.goes_on_from(at, lead, rows, rows.first, 0)?;
        self.lands(out)
    }

    /// The threads go on from barrier to barrier, until all are at the end.
    fn goes_in_rounds(&mut self, at: u32, lead: Lead, rows: Rows, state: u32) -> Result<(), Fault> {
        let (one, other) = self.follows(at, lead, rows, true)?;
        self.lands(one)?;
        self.lands(other)?;
        self.emit(Form::Leave(at))?;
        let first = rows.first.saturating_add(state);
        let second = rows.second.saturating_add(state);
        let is_alone = self.repeat(at, lead.thread.number)?;
        self.emit(Form::Operate(lead.test, Operation::Equal, WORD, first, second))?;
        let apart = self.repeat(at, lead.test)?;
        self.lands(is_alone)?;
        let out = self.repeat(at, first)?;
        let round = self.jump()?;
        self.lands(apart)?;
        self.stops_apart(at, lead)?;
        self.lands(lead.jump)?;
        self.copies_slots(rows.first, lead.first, lead.count)?;
        self.copies_slots(rows.second, lead.second, lead.count)?;
        self.lands(round)?;
        self.emit(Form::Group(at, Vec::new(self.alloc)))?;
        self.goes_on_from(at, lead, rows, rows.first, 0)?;
        self.lands(out)
    }

    /// The threads came to different barriers: there is no such function, so the run ends.
    fn stops_apart(&mut self, at: u32, lead: Lead) -> Result<(), Fault> {
        self.site = at;
        let form = self.emit(Form::Call(at, u32::MAX, lead.test))?;
        self.apart.push(form)?;
        Ok(())
    }
}
