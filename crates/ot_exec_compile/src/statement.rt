//! Statements.
use crate::fault::{Fault, Why};
use crate::maker::{Aim, Around, Held, Maker, Returns, Way, below};
use crate::value::DEEPEST;
use ot_exec_code::{Form, Operation};
use ot_exec_layout::{Class, Sort, promoted};
use ot_exec_tree::{Expr, Initial, Integer, Stmt, Storage, Variable};

/// What needs no other statement.
impl<'a> Maker<'a> {
    /// The slot of a test's value.
    fn tested(&mut self, at: u32, test: &Expr) -> Result<u32, Fault> {
        let value = self.expression(DEEPEST, test)?;
        self.test(at, value)
    }

    /// The same of a loop.
    fn tested_again(&mut self, at: u32, test: &Expr) -> Result<u32, Fault> {
        self.repeats = true;
        let slot = self.tested(at, test);
        self.repeats = false;
        slot
    }

    fn discards(&mut self, expr: &Expr) -> Result<(), Fault> {
        let mark = self.frame.next;
        self.expression(DEEPEST, expr)?;
        self.frame.next = mark;
        Ok(())
    }

    fn declares(&mut self, at: u32, variable: u32, initial: &Option<Initial>) -> Result<(), Fault> {
        let unit = self.unit;
        let Some(declared) = unit.variables.get(variable as usize) else {
            return Err(Fault::Refused(at, Why::NotDeclared));
        };
        if declared.is_atomic {
            return Err(Fault::Refused(at, Why::Atomic));
        }
        if !is_automatic(declared) {
            return Ok(());
        }
        self.notes_number(variable, initial);
        let sort = self.sort_of(variable);
        self.measure(16, at, sort)?;
        if self.sharing.is_object(variable) {
            self.declares_object(at, variable, sort, initial)
        } else {
            self.declares_slot(variable, sort, initial)
        }
    }

    fn declares_slot(
        &mut self,
        variable: u32,
        sort: Sort,
        initial: &Option<Initial>,
    ) -> Result<(), Fault> {
        let slot = self.fresh()?;
        self.hold(variable, Held::Slot(slot));
        match initial {
            Some(initial) => {
                let aim = Aim {
                    slot,
                    sort,
                    way: Way::Slot,
                    site: 0,
                    lends: false,
                    within: None,
                };
                self.initial(DEEPEST, aim, initial)?;
            }
            None => {
                self.emit(Form::Unknown(slot))?;
            }
        }
        self.frame.next = slot.saturating_add(1);
        Ok(())
    }

    fn declares_object(
        &mut self,
        at: u32,
        variable: u32,
        sort: Sort,
        initial: &Option<Initial>,
    ) -> Result<(), Fault> {
        let slot = match self.size_slot(sort) {
            Some(cells) => {
                let slot = self.fresh()?;
                self.emit(Form::Allocate(slot, variable, cells, 1, false))?;
                self.live.push(slot)?;
                slot
            }
            None => self.begin(at, variable, is_list(initial))?,
        };
        self.hold(variable, Held::Place(slot));
        if let Some(initial) = initial {
            let aim = Aim {
                slot,
                sort,
                way: Way::Cell,
                site: at,
                lends: false,
                within: None,
            };
            self.initial(DEEPEST, aim, initial)?;
        }
        self.frame.next = slot.saturating_add(1);
        Ok(())
    }

    fn breaks_off(&mut self, at: u32) -> Result<(), Fault> {
        let Some(base) = self.around.breaks else {
            return Err(Fault::Refused(at, Why::Jump));
        };
        self.leave(at, base)?;
        let jump = self.jump()?;
        self.breaks.push(jump)?;
        Ok(())
    }

    fn goes_on(&mut self, at: u32) -> Result<(), Fault> {
        let Some(base) = self.around.continues else {
            return Err(Fault::Refused(at, Why::Jump));
        };
        self.leave(at, base)?;
        let jump = self.jump()?;
        self.continues.push(jump)?;
        Ok(())
    }

    /// The jumps land here that were made since.
    fn breaks_land(&mut self, base: usize) -> Result<(), Fault> {
        for place in base..self.breaks.len() {
            if let Some(jump) = self.breaks.get(place).copied() {
                self.lands(jump)?;
            }
        }
        self.breaks.truncate(base);
        Ok(())
    }

    pub(crate) fn continues_land(&mut self, base: usize) -> Result<(), Fault> {
        for place in base..self.continues.len() {
            if let Some(jump) = self.continues.get(place).copied() {
                self.lands(jump)?;
            }
        }
        self.continues.truncate(base);
        Ok(())
    }

    fn returns(&mut self, at: u32, value: &Option<Expr>) -> Result<(), Fault> {
        if self.frame.returns == Returns::Nowhere {
            return Err(Fault::Refused(at, Why::Jump));
        }
        let mark = self.frame.next;
        let gives = self.gives;
        let slot = match value {
            Some(value) => {
                let value = self.converted(DEEPEST, value, gives)?;
                Some(self.kept(at, value)?)
            }
            None => None,
        };
        self.leave(at, self.frame.floor)?;
        self.goes_back(slot)?;
        self.frame.next = mark;
        Ok(())
    }

    /// To who called, with the value of a slot; or behind the text, where nothing takes the value.
    fn goes_back(&mut self, slot: Option<u32>) -> Result<(), Fault> {
        if self.frame.returns == Returns::Behind {
            let jump = self.jump()?;
            self.behind.push(jump)?;
            return Ok(());
        }
        if let Some(slot) = slot {
            self.emit(Form::Copy(0, slot))?;
        }
        self.emit(Form::Return)?;
        Ok(())
    }

    /// The slot of a value that outlives the call: a struct is copied to an object of its own.
    fn kept(&mut self, at: u32, value: crate::maker::Val) -> Result<u32, Fault> {
        if !matches!(self.class(value.sort), Class::Record(_)) {
            return Ok(value.slot);
        }
        let extent = self.extent(at, value.sort)?;
        let slot = self.fresh()?;
        let name = self.name_at(at);
        self.emit(Form::Begin(slot, extent.cells, name, false))?;
        let aim = Aim {
            slot,
            sort: value.sort,
            way: Way::Own,
            site: at,
            lends: false,
            within: None,
        };
        self.copy_cells(aim, value, extent.cells)?;
        Ok(slot)
    }

    /// The slot with the number of a loop's turn: its variable's value, where it counts with an integer.
    fn turn_of(&mut self, at: u32, variable: Option<u32>) -> Result<(), Fault> {
        let Some(variable) = variable else {
            return Ok(());
        };
        if !matches!(self.class(self.sort_of(variable)), Class::Integer(_)) {
            return Ok(());
        }
        let mark = self.frame.next;
        let aim = self.aim_variable(at, variable)?;
        let quiet = match aim.way {
            Way::Slot => Way::Slot,
            _ => Way::Own,
        };
        let value = self.load(Aim { way: quiet, ..aim })?;
        self.emit(Form::Turn(at, value.slot))?;
        self.frame.next = mark;
        Ok(())
    }

    /// The value of a `switch`, promoted, and its type (ISO C11, section 6.8.4.2).
    fn chosen_by(&mut self, at: u32, value: &Expr) -> Result<(u32, Integer), Fault> {
        let value = self.expression(DEEPEST, value)?;
        match self.class(value.sort) {
            Class::Integer(integer) => {
                let to = promoted(integer);
                let value = self.convert(at, value, Sort::integer(to))?;
                Ok((value.slot, to))
            }
            _ => Err(Fault::Refused(at, Why::Operation)),
        }
    }

    /// The labels of a `switch`, converted to the type of its value: for each a test and a jump, and one where none fits.
    fn chooses(
        &mut self,
        at: u32,
        slot: u32,
        integer: Integer,
        list: &[Stmt],
    ) -> Result<(), Fault> {
        let mark = self.frame.next;
        for statement in list {
            if let Stmt::Case(label, Some(value)) = statement {
                let Some(constant) = self.layouts.constant(self.unit, value) else {
                    return Err(Fault::Refused(*label, Why::NotConstant));
                };
                let number = self.number(constant.to(integer).number)?;
                let fits = self.operate(Operation::Equal, crate::maker::WORD, slot, number)?;
                let other = self.emit(Form::Branch(at, fits, 0))?;
                let jump = self.jump()?;
                self.cases.push(Some(jump))?;
                self.lands(other)?;
                self.frame.next = mark;
            } else if let Stmt::Case(_, None) = statement {
                self.cases.push(None)?;
            }
        }
        Ok(())
    }
}

/// The token at which a statement begins, but for an expression's.
fn place_of(statement: &Stmt) -> Option<u32> {
    match statement {
        Stmt::Does(_) => None,
        Stmt::Empty(at) => Some(*at),
        Stmt::Declares(at, _, _) | Stmt::Block(at, _, _) | Stmt::While(at, _, _) => Some(*at),
        Stmt::If(at, _, _, _) => Some(*at),
        Stmt::Do(at, _, _) | Stmt::Switch(at, _, _) => Some(*at),
        Stmt::For(at, _, _, _, _) | Stmt::Construct(at, _, _, _, _) => Some(*at),
        Stmt::Case(at, _) | Stmt::Return(at, _) => Some(*at),
        Stmt::Break(at) | Stmt::Continue(at) => Some(*at),
        Stmt::Goto(at, _) | Stmt::Label(at, _) => Some(*at),
    }
}

fn is_list(initial: &Option<Initial>) -> bool {
    match initial {
        Some(Initial::List(_, _)) => true,
        _ => false,
    }
}

pub(crate) fn is_automatic(variable: &Variable) -> bool {
    matches!(variable.storage, Storage::Automatic | Storage::Parameter)
}

/// The variable that a loop counts.
fn counted(first: &[Stmt], step: &Option<Expr>) -> Option<u32> {
    match first.last() {
        Some(Stmt::Declares(_, variable, _)) => return Some(*variable),
        Some(Stmt::Does(Expr::Assign(_, _, to, _))) => {
            if let Expr::Variable(_, variable) = &**to {
                return Some(*variable);
            }
        }
        _ => {}
    }
    match step {
        Some(Expr::StepBefore(_, _, one))
        | Some(Expr::StepBehind(_, _, one))
        | Some(Expr::Assign(_, _, one, _)) => match &**one {
            Expr::Variable(_, variable) => Some(*variable),
            _ => None,
        },
        _ => None,
    }
}

/// Statements and blocks.
impl<'a> Maker<'a> {
    #[cycle(statement)]
    pub(crate) fn statement(&mut self, depth: u32, statement: &Stmt) -> Result<(), Fault> {
        if let Some(at) = place_of(statement) {
            self.site = at;
        }
        match statement {
            Stmt::Empty(_) => Ok(()),
            Stmt::Does(value) => match self.bound_call(value) {
                Some(call) => {
                    let depth = below(depth, call.at)?;
                    self.made_here(depth, call)
                }
                None => {
                    self.discards(value)?;
                    self.notes_assigned(value);
                    Ok(())
                }
            },
            Stmt::Declares(at, variable, initial) => self.declares(*at, *variable, initial),
            Stmt::Block(at, list, end) => {
                let depth = below(depth, *at)?;
                self.block(depth, *end, list.as_slice())
            }
            Stmt::If(at, test, one, other) => {
                let depth = below(depth, *at)?;
                self.decides(depth, *at, test, one, other)
            }
            Stmt::While(at, test, body) => {
                let depth = below(depth, *at)?;
                self.loops(depth, *at, test, body, true)
            }
            Stmt::Do(at, body, test) => {
                let depth = below(depth, *at)?;
                self.loops(depth, *at, test, body, false)
            }
            Stmt::For(at, first, test, step, body) => {
                let depth = below(depth, *at)?;
                self.counts(depth, *at, first.as_slice(), test, step, body)
            }
            Stmt::Switch(at, value, body) => {
                let depth = below(depth, *at)?;
                self.switches(depth, *at, value, body)
            }
            Stmt::Case(at, _) => Err(Fault::Refused(*at, Why::Label)),
            Stmt::Break(at) => self.breaks_off(*at),
            Stmt::Continue(at) => self.goes_on(*at),
            Stmt::Return(at, value) => self.returns(*at, value),
            Stmt::Goto(at, label) => self.goes_to(*at, *label),
            Stmt::Label(at, label) => self.labels_here(*at, *label),
            Stmt::Construct(at, directives, name, clauses, body) => {
                let depth = below(depth, *at)?;
                let directives = directives.as_slice();
                self.construct(depth, *at, directives, *name, clauses.as_slice(), body)
            }
        }
    }

    /// The statements of a block, which ends at this token.
    #[cycle(statement)]
    pub(crate) fn block(&mut self, depth: u32, end: u32, list: &[Stmt]) -> Result<(), Fault> {
        let less = below(depth, end)?;
        let mark = self.frame.next;
        let base = self.live.len();
        self.labels.opens_block();
        for statement in list {
            self.statement(less, statement)?;
        }
        self.labels.closes_block();
        self.end_since(end, base)?;
        self.frame.next = mark;
        Ok(())
    }

    #[cycle(statement)]
    fn decides(
        &mut self,
        depth: u32,
        at: u32,
        test: &Expr,
        one: &Stmt,
        other: &Option<Box<Stmt>>,
    ) -> Result<(), Fault> {
        let depth = below(depth, at)?;
        let mark = self.frame.next;
        let slot = self.tested(at, test)?;
        let otherwise = self.emit(Form::Branch(at, slot, 0))?;
        self.frame.next = mark;
        self.within(depth, at, one)?;
        match other {
            None => self.lands(otherwise),
            Some(other) => {
                let out = self.jump()?;
                self.lands(otherwise)?;
                self.within(depth, at, other)?;
                self.lands(out)
            }
        }
    }

    /// A statement that is a block of its own.
    #[cycle(statement)]
    pub(crate) fn within(&mut self, depth: u32, at: u32, body: &Stmt) -> Result<(), Fault> {
        let depth = below(depth, at)?;
        let mark = self.frame.next;
        let base = self.live.len();
        self.statement(depth, body)?;
        self.end_since(at, base)?;
        self.frame.next = mark;
        Ok(())
    }

    /// The body of a loop: its jumps to the next turn land behind it.
    #[cycle(statement)]
    fn turn(&mut self, depth: u32, at: u32, body: &Stmt) -> Result<(), Fault> {
        let depth = below(depth, at)?;
        let outside = self.around;
        let living = Some(self.live.len());
        let base = self.continues.len();
        self.around = Around {
            breaks: living,
            continues: living,
        };
        self.within(depth, at, body)?;
        self.around = outside;
        self.continues_land(base)
    }

    /// `while` and, where the test doesn't stand first, `do`.
    #[cycle(statement)]
    fn loops(
        &mut self,
        depth: u32,
        at: u32,
        test: &Expr,
        body: &Stmt,
        first: bool,
    ) -> Result<(), Fault> {
        let depth = below(depth, at)?;
        let mark = self.frame.next;
        let base = self.breaks.len();
        let start = self.here()?;
        if !first {
            self.turn(depth, at, body)?;
        }
        let slot = self.tested_again(at, test)?;
        let out = self.repeat(at, slot)?;
        self.frame.next = mark;
        if first {
            self.turn(depth, at, body)?;
        }
        self.emit(Form::Jump(start))?;
        self.lands(out)?;
        self.breaks_land(base)
    }

    #[cycle(statement)]
    fn counts(
        &mut self,
        depth: u32,
        at: u32,
        first: &[Stmt],
        test: &Option<Expr>,
        step: &Option<Expr>,
        body: &Stmt,
    ) -> Result<(), Fault> {
        let less = below(depth, at)?;
        let mark = self.frame.next;
        let living = self.live.len();
        let base = self.breaks.len();
        for statement in first {
            self.statement(less, statement)?;
        }
        let variable = counted(first, step);
        let context = self.fresh()?;
        self.emit(Form::Context(context))?;
        self.labels.contexts.push(context)?;
        let inner = self.frame.next;
        let start = self.here()?;
        let out = match test {
            Some(test) => {
                let slot = self.tested_again(at, test)?;
                Some(self.repeat(at, slot)?)
            }
            None => None,
        };
        self.frame.next = inner;
        self.emit(Form::Within(context))?;
        self.turn_of(at, variable)?;
        self.turn(less, at, body)?;
        if let Some(step) = step {
            self.discards(step)?;
        }
        self.emit(Form::Jump(start))?;
        if let Some(out) = out {
            self.lands(out)?;
        }
        self.breaks_land(base)?;
        let _ = self.labels.contexts.pop();
        self.emit(Form::Within(context))?;
        self.end_since(at, living)?;
        self.frame.next = mark;
        Ok(())
    }

    #[cycle(statement)]
    fn switches(&mut self, depth: u32, at: u32, value: &Expr, body: &Stmt) -> Result<(), Fault> {
        let depth = below(depth, at)?;
        let Stmt::Block(_, list, end) = body else {
            return Err(Fault::Refused(at, Why::Label));
        };
        let mark = self.frame.next;
        let outside = self.around;
        let base = self.breaks.len();
        let cases = self.cases.len();
        let (slot, integer) = self.chosen_by(at, value)?;
        self.chooses(at, slot, integer, list.as_slice())?;
        self.frame.next = mark;
        let otherwise = self.jump()?;
        self.around = Around {
            breaks: Some(self.live.len()),
            continues: outside.continues,
        };
        let has_default = self.labelled(depth, *end, list.as_slice(), cases, otherwise)?;
        self.around = outside;
        if !has_default {
            self.lands(otherwise)?;
        }
        self.cases.truncate(cases);
        self.breaks_land(base)
    }

    /// The statements of a `switch`: each label is where its jump lands. Whether `default` is among them.
    #[cycle(statement)]
    fn labelled(
        &mut self,
        depth: u32,
        end: u32,
        list: &[Stmt],
        cases: usize,
        otherwise: u32,
    ) -> Result<bool, Fault> {
        let less = below(depth, end)?;
        let mark = self.frame.next;
        let living = self.live.len();
        let mut next = cases;
        let mut has_default = false;
        self.labels.opens_block();
        for statement in list {
            if let Stmt::Case(_, _) = statement {
                match self.cases.get(next).copied() {
                    Some(Some(jump)) => self.lands(jump)?,
                    _ => {
                        self.lands(otherwise)?;
                        has_default = true;
                    }
                }
                next = next.saturating_add(1);
            } else {
                self.statement(less, statement)?;
            }
        }
        self.labels.closes_block();
        self.end_since(end, living)?;
        self.frame.next = mark;
        Ok(has_default)
    }
}
