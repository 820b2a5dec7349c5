//! A walk through a function's tree, which knows the constructs around.
ghost use Rattle.std.specs.Prelude.{◌<◌, IfOk};

use crate::attribute::{Around, How, Region, attribute_of, within};
use crate::fault::Fault;
use crate::sharing::{Capture, Captured, Sharing};
use crate::team::{is_by_one, is_of_one, value_of};
use ot_exec_layout::{Class, Layouts};
use ot_exec_tree::{
    Clause, Default, Directive, Entry, Expr, Initial, Role, Sign, Stmt, Storage, Unit,
};
use std::alloc::Global;
use std::mem;

/// How deep statements and expressions may nest.
const DEEPEST: u32 = 2_000;

/// How many constructs may stand within one another.
const MOST_OPEN: usize = 64;

/// How many loops a directive collapses at most.
const MOST_LOOPS: u64 = 8;

/// How many variables the clauses of a directive may name.
const MOST_NAMED: usize = 256;

/// A variable that a clause names.
#[derive(Clone, Copy)]
struct Named {
    variable: u32,
    how: How,
}

/// A construct that is open.
#[derive(Drop)]
struct Open {
    region: Region,
    /// Whether several threads execute it.
    has_threads: bool,
    /// How many choices are open where it begins.
    choices: u32,
    default: Option<Default>,
    named: Vec<Named>,
    captures: Vec<Capture>,
    /// Whether a thread's variable has behind it what it gets there: a function's own `single`, which a thread that is alone may execute.
    keeps: bool,
    /// The place among those that are done, if its captures are kept.
    place: Option<usize>,
    /// Its number in the order in which they begin.
    serial: u32,
}

#[derive(Drop)]
pub(crate) struct Walk<'a> {
    alloc: Global,
    unit: &'a Unit,
    layouts: &'a mut Layouts,
    objects: Vec<bool>,
    /// By variable: how many constructs are open where it is declared.
    homes: Vec<usize>,
    /// By variable: the construct that was innermost when it was last met.
    seen: Vec<u32>,
    open: Vec<Open>,
    serial: u32,
    done: Vec<Captured>,
    /// The function that is walked through.
    function: u32,
    /// By function: whether another one names it, and whether constructs stand in it.
    named: Vec<bool>,
    constructs: Vec<bool>,
    has_final: bool,
    any_threads: bool,
    /// How many choices are open: what stands there may be left out.
    choices: u32,
}

fn below(depth: u32, at: u32) -> Result<u32, Fault>
    ensures { IfOk result (λ less. less < depth) }
{
    if depth == 0 {
        Err(Fault::Limit(at))
    } else {
        Ok(depth - 1)
    }
}

/// What it says of a variable that it names.
fn how_of(role: Role) -> Option<How> {
    match role {
        Role::Private => Some(How::Private),
        Role::Firstprivate => Some(How::Firstprivate),
        Role::Lastprivate => Some(How::Lastprivate),
        Role::Shared => Some(How::Shared),
        Role::Reduction(_) | Role::InReduction(_) => Some(How::Reduced),
        _ => None,
    }
}

/// Whether a clause names the place of a variable that is its item.
fn names_place(role: Role) -> bool {
    matches!(
        role,
        Role::Depend(_)
            | Role::Reduction(_)
            | Role::InReduction(_)
            | Role::TaskReduction(_)
            | Role::Lastprivate
    )
}

/// What it does with the variables around it; in a team of several threads the body of `single` is for any of them, and so may it be in a
/// function that the team calls.
fn region_of(directive: Directive, has_threads: bool) -> Region {
    match directive {
        Directive::Parallel => Region::Team,
        Directive::Task | Directive::Taskloop => Region::Task,
        Directive::For | Directive::Sections => Region::Unit,
        Directive::Single if has_threads => Region::Unit,
        _ => Region::Other,
    }
}

/// Without a `simd` that others stand before.
fn sharing_ones(directives: &[Directive]) -> &[Directive] {
    match directives {
        [_, Directive::Simd] => &directives[..1],
        [_, _, Directive::Simd] => &directives[..2],
        [_, _, _, Directive::Simd] => &directives[..3],
        _ => directives,
    }
}

/// The variable whose cells an item names.
fn variable_of(depth: u32, item: &Expr) -> Option<u32> {
    if depth == 0 {
        return None;
    }
    match item {
        Expr::Variable(_, variable) => Some(*variable),
        Expr::Index(_, one, _) | Expr::Section(_, one, _, _) => variable_of(depth - 1, one),
        _ => None,
    }
}

/// A loop that is all of a block.
fn alone(statement: &Stmt) -> &Stmt {
    match statement {
        Stmt::Block(_, list, _) => match list.as_slice() {
            [one] => one,
            _ => statement,
        },
        _ => statement,
    }
}

/// The variable that a loop counts, and its body.
fn counted(statement: &Stmt) -> Option<(u32, &Stmt)> {
    let Stmt::For(_, first, _, _, body) = alone(statement) else {
        return None;
    };
    match first.as_slice() {
        [Stmt::Declares(_, variable, _)] => Some((*variable, &**body)),
        [Stmt::Does(Expr::Assign(_, None, to, _))] => match &**to {
            Expr::Variable(_, variable) => Some((*variable, &**body)),
            _ => None,
        },
        _ => None,
    }
}

impl<'a> Walk<'a> {
    pub(crate) fn over(
        alloc: Global,
        unit: &'a Unit,
        layouts: &'a mut Layouts,
    ) -> Result<Walk<'a>, Fault> {
        let mut objects = Vec::new(alloc);
        for variable in unit.variables.iter() {
            let is_whole = match ot_exec_layout::sort_of(unit, variable).class(unit) {
                Class::Array(_) | Class::Record(_) => true,
                _ => false,
            };
            let is_automatic = matches!(variable.storage, Storage::Automatic | Storage::Parameter);
            objects.push(is_whole || !is_automatic)?;
        }
        let homes = vec![in alloc; 0usize; unit.variables.len()]?;
        let seen = vec![in alloc; 0u32; unit.variables.len()]?;
        Ok(Walk {
            alloc,
            unit,
            layouts,
            objects,
            homes,
            seen,
            open: Vec::new(alloc),
            serial: 0,
            done: Vec::new(alloc),
            function: 0,
            named: vec![in alloc; false; unit.functions.len()]?,
            constructs: vec![in alloc; false; unit.functions.len()]?,
            has_final: false,
            any_threads: false,
            choices: 0,
        })
    }

    pub(crate) fn end(self) -> Sharing {
        Sharing {
            objects: self.objects,
            constructs: self.done,
            named: self.named,
            has_constructs: self.constructs,
            has_final: self.has_final,
            has_threads: self.any_threads,
        }
    }

    pub(crate) fn function(&mut self, number: u32, body: &Stmt) -> Result<(), Fault> {
        self.function = number;
        self.statement(DEEPEST, body)
    }

    /// A function's name stands in the one that is walked through.
    fn names_function(&mut self, function: u32) {
        if function == self.function {
            return;
        }
        if let Some(place) = self.named.get_mut(function as usize) {
            *place = true;
        }
    }

    fn has_construct(&mut self) {
        if let Some(place) = self.constructs.get_mut(self.function as usize) {
            *place = true;
        }
    }

    fn is_static(&self, variable: u32) -> bool {
        match self.unit.variables.get(variable as usize) {
            Some(variable) => {
                !matches!(variable.storage, Storage::Automatic | Storage::Parameter)
            }
            None => true,
        }
    }

    fn needs_object(&mut self, variable: u32) {
        if let Some(place) = self.objects.get_mut(variable as usize) {
            *place = true;
        }
    }

    /// A variable begins within the constructs that are open.
    fn begins(&mut self, variable: u32) {
        let here = self.open.len();
        if let Some(home) = self.homes.get_mut(variable as usize) {
            *home = here;
        }
    }

    /// At this token a variable is named.
    fn met(&mut self, at: u32, variable: u32) -> Result<(), Fault> {
        let Some(open) = self.open.last() else {
            return Ok(());
        };
        let serial = open.serial;
        let Some(seen) = self.seen.get_mut(variable as usize) else {
            return Ok(());
        };
        if *seen == serial {
            return Ok(());
        }
        *seen = serial;
        let is_static = self.is_static(variable);
        let home = self.homes.get(variable as usize).copied().unwrap_or(0);
        let mut around = Around {
            is_static,
            is_shared: false,
        };
        let mut needs_object = false;
        for open in self.open.iter_mut().skip(home) {
            let named = named_in(open.named.as_slice(), variable);
            let Some(how) = attribute_of(open.region, named, open.default, around) else {
                return Err(Fault::Unsaid(at, variable));
            };
            needs_object = needs_object || shares(open.region, open.has_threads, how);
            around = within(open.region, how, around);
            open.captures.push(Capture { variable, how })?;
        }
        if needs_object {
            self.needs_object(variable);
        }
        Ok(())
    }

    /// A part of the work assigns to what it didn't read: a variable that is its thread's own is its own then.
    fn sets(&mut self, place: &Expr) -> Result<(), Fault> {
        let Expr::Variable(_, variable) = place else {
            return Ok(());
        };
        let is_own = self.is_threads(*variable);
        let choices = self.choices;
        let Some(open) = self.open.last_mut() else {
            return Ok(());
        };
        if is_own
            && open.region == Region::Unit
            && !open.keeps
            && open.choices >= choices
            && open.named.len() < MOST_NAMED
            && named_in(open.named.as_slice(), *variable).is_none()
            && !open
                .captures
                .iter()
                .any(|capture| capture.variable == *variable)
        {
            open.named.push(Named {
                variable: *variable,
                how: How::Private,
            })?;
        }
        Ok(())
    }

    /// Whether it is a thread's own in the innermost construct, if that is a part of the work and doesn't name it.
    fn is_threads(&self, variable: u32) -> bool {
        let home = self.homes.get(variable as usize).copied().unwrap_or(0);
        let mut around = Around {
            is_static: self.is_static(variable),
            is_shared: false,
        };
        let mut is_own = false;
        for open in self.open.iter().skip(home) {
            let named = named_in(open.named.as_slice(), variable);
            let Some(how) = attribute_of(open.region, named, open.default, around) else {
                return false;
            };
            is_own = how == How::Own;
            around = within(open.region, how, around);
        }
        is_own
    }

    /// What is assigned to is changed: a thread's variable by a part of the work, which needs its place.
    fn changes(&mut self, place: &Expr) {
        if let Expr::Variable(_, variable) = place
            && self.open.iter().any(|open| is_own(open, *variable))
        {
            self.needs_object(*variable);
        }
    }
}

/// Whether it is the thread's own in a part of the work.
fn is_own(open: &Open, variable: u32) -> bool {
    open.captures.iter().any(|capture| capture.variable == variable && capture.how == How::Own)
}

fn named_in(named: &[Named], variable: u32) -> Option<How> {
    for one in named {
        if one.variable == variable {
            return Some(one.how);
        }
    }
    None
}

/// Whether other tasks see the variable's cells by it.
fn shares(region: Region, has_threads: bool, how: How) -> bool {
    match how {
        How::Shared => match region {
            Region::Task | Region::Unit => true,
            Region::Team => has_threads,
            Region::Other => false,
        },
        How::Reduced | How::Lastprivate | How::Both => true,
        How::Private | How::Firstprivate | How::Own => false,
    }
}

/// Expressions.
impl<'a> Walk<'a> {
    #[cycle(expression)]
    fn expression(&mut self, depth: u32, expr: &Expr) -> Result<(), Fault> {
        match expr {
            Expr::Number(_, _, _)
            | Expr::Real(_, _)
            | Expr::Text(_, _)
            | Expr::Enumerator(_, _)
            | Expr::Undeclared(_, _)
            | Expr::SizeOfType(_, _)
            | Expr::SizeOf(_, _)
            | Expr::Kind(_, _) => Ok(()),
            Expr::Variable(at, variable) => self.met(*at, *variable),
            Expr::Function(_, function) => {
                self.names_function(*function);
                Ok(())
            }
            Expr::Unary(at, sign, one) => {
                if let (Sign::Address, Expr::Variable(_, variable)) = (*sign, &**one) {
                    self.needs_object(*variable);
                }
                let depth = below(depth, *at)?;
                self.expression(depth, one)
            }
            Expr::StepBefore(at, _, one) | Expr::StepBehind(at, _, one) => {
                let depth = below(depth, *at)?;
                self.expression(depth, one)?;
                self.changes(one);
                Ok(())
            }
            Expr::Cast(at, _, one) | Expr::Member(at, one, _) | Expr::Arrow(at, one, _) => {
                let depth = below(depth, *at)?;
                self.expression(depth, one)
            }
            Expr::Assign(at, sign, one, other) => {
                let depth = below(depth, *at)?;
                self.expression(depth, other)?;
                if sign.is_none() {
                    self.sets(one)?;
                }
                self.expression(depth, one)?;
                self.changes(one);
                Ok(())
            }
            Expr::Binary(at, _, one, other)
            | Expr::Comma(at, one, other)
            | Expr::Index(at, one, other) => {
                let depth = below(depth, *at)?;
                self.expression(depth, one)?;
                self.expression(depth, other)
            }
            Expr::Choice(at, test, one, other) => {
                let depth = below(depth, *at)?;
                self.expression(depth, test)?;
                self.expression(depth, one)?;
                self.expression(depth, other)
            }
            Expr::Section(at, one, start, length) => {
                let depth = below(depth, *at)?;
                self.expression(depth, one)?;
                if let Some(start) = start {
                    self.expression(depth, start)?;
                }
                if let Some(length) = length {
                    self.expression(depth, length)?;
                }
                Ok(())
            }
            Expr::Literal(at, variable, initial) => {
                self.begins(*variable);
                self.needs_object(*variable);
                let depth = below(depth, *at)?;
                self.initial(depth, initial)
            }
            Expr::Call(at, function, arguments) => {
                let depth = below(depth, *at)?;
                self.expression(depth, function)?;
                self.expressions(depth, *at, arguments.as_slice())
            }
        }
    }

    #[cycle(expression)]
    fn expressions(&mut self, depth: u32, at: u32, list: &[Expr]) -> Result<(), Fault> {
        let less = below(depth, at)?;
        for one in list {
            self.expression(less, one)?;
        }
        Ok(())
    }

    #[cycle(expression)]
    fn initial(&mut self, depth: u32, initial: &Initial) -> Result<(), Fault> {
        match initial {
            Initial::Value(value) => {
                let depth = below(depth, 0)?;
                self.expression(depth, value)
            }
            Initial::List(at, entries) => {
                let depth = below(depth, *at)?;
                self.entries(depth, *at, entries.as_slice())
            }
        }
    }

    #[cycle(expression)]
    fn entries(&mut self, depth: u32, at: u32, entries: &[Entry]) -> Result<(), Fault> {
        let less = below(depth, at)?;
        for entry in entries {
            self.initial(less, &entry.value)?;
        }
        Ok(())
    }
}

/// Statements.
impl<'a> Walk<'a> {
    #[cycle(statement)]
    fn statement(&mut self, depth: u32, statement: &Stmt) -> Result<(), Fault> {
        match statement {
            Stmt::Empty(_)
            | Stmt::Case(_, _)
            | Stmt::Break(_)
            | Stmt::Continue(_)
            | Stmt::Goto(_, _)
            | Stmt::Label(_, _)
            | Stmt::Return(_, None) => Ok(()),
            Stmt::Does(value) | Stmt::Return(_, Some(value)) => self.expression(DEEPEST, value),
            Stmt::Declares(_, variable, initial) => self.declares(*variable, initial),
            Stmt::Block(at, list, _) => {
                let depth = below(depth, *at)?;
                self.statements(depth, *at, list.as_slice())
            }
            Stmt::If(at, test, one, other) => {
                self.expression(DEEPEST, test)?;
                let depth = below(depth, *at)?;
                let outside = self.choices;
                self.choices = outside.saturating_add(1);
                self.statement(depth, one)?;
                if let Some(other) = other {
                    self.statement(depth, other)?;
                }
                self.choices = outside;
                Ok(())
            }
            Stmt::While(at, test, body) | Stmt::Do(at, body, test) => {
                self.expression(DEEPEST, test)?;
                let depth = below(depth, *at)?;
                self.statement(depth, body)
            }
            Stmt::Switch(at, test, body) => {
                self.expression(DEEPEST, test)?;
                let depth = below(depth, *at)?;
                let outside = self.choices;
                self.choices = outside.saturating_add(1);
                self.statement(depth, body)?;
                self.choices = outside;
                Ok(())
            }
            Stmt::For(at, first, test, step, body) => {
                let depth = below(depth, *at)?;
                let choices = mem::replace(&mut self.choices, 0);
                self.statements(depth, *at, first.as_slice())?;
                self.choices = choices;
                if let Some(test) = test {
                    self.expression(DEEPEST, test)?;
                }
                if let Some(step) = step {
                    self.expression(DEEPEST, step)?;
                }
                self.statement(depth, body)
            }
            Stmt::Construct(at, directives, _, clauses, body) => {
                let depth = below(depth, *at)?;
                self.construct(depth, *at, directives.as_slice(), clauses.as_slice(), body)
            }
        }
    }

    fn declares(&mut self, variable: u32, initial: &Option<Initial>) -> Result<(), Fault> {
        self.begins(variable);
        if let Some(initial) = initial {
            self.layouts.complete(self.unit, variable, initial);
            self.initial(DEEPEST, initial)?;
        }
        Ok(())
    }

    #[cycle(statement)]
    fn statements(&mut self, depth: u32, at: u32, list: &[Stmt]) -> Result<(), Fault> {
        let less = below(depth, at)?;
        for one in list {
            self.statement(less, one)?;
        }
        Ok(())
    }

    #[cycle(statement)]
    fn construct(
        &mut self,
        depth: u32,
        at: u32,
        directives: &[Directive],
        clauses: &[Clause],
        body: &Option<Box<Stmt>>,
    ) -> Result<(), Fault> {
        let depth = below(depth, at)?;
        self.has_construct();
        self.clauses(clauses)?;
        let Some((last, others)) = sharing_ones(directives).split_last() else {
            return Ok(());
        };
        let outside = self.open.len();
        let is_called = outside == 0 && *last == Directive::Single;
        let is_in_team = is_called || self.open.last().is_some_and(|open| open.has_threads);
        for directive in others {
            self.opens(at, region_of(*directive, false), false, None)?;
        }
        let place = self.done.len();
        self.done.push(Captured {
            at,
            captures: Vec::new(self.alloc),
        })?;
        let has_threads = self.has_threads(directives, clauses, body);
        self.any_threads = self.any_threads || has_threads;
        self.opens(at, region_of(*last, is_in_team), has_threads, Some(place))?;
        self.keeps(is_called);
        self.names(at, clauses)?;
        if matches!(last, Directive::Taskloop | Directive::For) {
            self.names_counted(at, clauses, body)?;
        }
        if let Some(body) = body {
            self.statement(depth, body)?;
        }
        self.closes(outside);
        Ok(())
    }

    /// Whether it is a parallel region that several threads execute.
    fn has_threads(
        &mut self,
        directives: &[Directive],
        clauses: &[Clause],
        body: &Option<Box<Stmt>>,
    ) -> bool {
        match (directives, body) {
            ([Directive::Parallel], Some(body)) => {
                !is_by_one(body) && !is_of_one(self.layouts, self.unit, clauses)
            }
            _ => false,
        }
    }

    /// What clauses say is evaluated, and named, outside.
    fn clauses(&mut self, clauses: &[Clause]) -> Result<(), Fault> {
        for clause in clauses {
            for iterator in clause.iterators.iter() {
                self.begins(iterator.variable);
                self.expression(DEEPEST, &iterator.start)?;
                self.expression(DEEPEST, &iterator.end)?;
            }
            if clause.role == Role::Final {
                self.has_final = true;
            }
            if clause.role != Role::Private {
                self.items(clause)?;
            }
        }
        Ok(())
    }

    fn items(&mut self, clause: &Clause) -> Result<(), Fault> {
        for item in clause.items.iter() {
            self.expression(DEEPEST, item)?;
            if names_place(clause.role)
                && let Expr::Variable(_, variable) = item
            {
                self.needs_object(*variable);
            }
        }
        Ok(())
    }

    fn opens(
        &mut self,
        at: u32,
        region: Region,
        has_threads: bool,
        place: Option<usize>,
    ) -> Result<(), Fault> {
        if self.open.len() >= MOST_OPEN {
            return Err(Fault::Limit(at));
        }
        let Some(serial) = self.serial.checked_add(1) else {
            return Err(Fault::Limit(at));
        };
        self.serial = serial;
        self.open.push(Open {
            region,
            has_threads,
            choices: self.choices,
            default: None,
            named: Vec::new(self.alloc),
            captures: Vec::new(self.alloc),
            keeps: false,
            place,
            serial,
        })?;
        Ok(())
    }

    fn keeps(&mut self, keeps: bool) {
        if let Some(open) = self.open.last_mut() {
            open.keeps = keeps;
        }
    }

    /// To the innermost construct what its clauses say.
    fn names(&mut self, at: u32, clauses: &[Clause]) -> Result<(), Fault> {
        for clause in clauses {
            if let Role::Default(default) = clause.role {
                self.defaults(default);
            }
            if let Some(how) = how_of(clause.role) {
                for item in clause.items.iter() {
                    if let Some(variable) = variable_of(64, item) {
                        self.name(at, variable, how)?;
                    }
                }
            }
        }
        Ok(())
    }

    /// The variables that its loops count, of which it has private copies.
    fn names_counted(
        &mut self,
        at: u32,
        clauses: &[Clause],
        body: &Option<Box<Stmt>>,
    ) -> Result<(), Fault> {
        let Some(body) = body else {
            return Ok(());
        };
        let mut turn: &Stmt = &**body;
        for _level in 0..self.collapsed(clauses) {
            let Some((variable, inner)) = counted(turn) else {
                return Ok(());
            };
            self.name(at, variable, How::Private)?;
            turn = inner;
        }
        Ok(())
    }

    /// How many loops it collapses.
    fn collapsed(&mut self, clauses: &[Clause]) -> u64 {
        let Some(count) = value_of(clauses, Role::Collapse) else {
            return 1;
        };
        match self.layouts.constant(self.unit, count) {
            Some(count) => count.number.min(MOST_LOOPS),
            None => 1,
        }
    }

    fn defaults(&mut self, default: Default) {
        if let Some(open) = self.open.last_mut() {
            open.default = Some(default);
        }
    }

    fn name(&mut self, at: u32, variable: u32, how: How) -> Result<(), Fault> {
        let Some(open) = self.open.last_mut() else {
            return Ok(());
        };
        if open.named.len() >= MOST_NAMED {
            return Err(Fault::Limit(at));
        }
        for one in open.named.iter_mut() {
            if one.variable == variable {
                one.how = both(one.how, how);
                return Ok(());
            }
        }
        open.named.push(Named { variable, how })?;
        Ok(())
    }

    /// Ends the constructs that began since.
    fn closes(&mut self, outside: usize) {
        for _open in outside..self.open.len() {
            if let Some(open) = self.open.pop()
                && let Some(place) = open.place
                && let Some(done) = self.done.get_mut(place)
            {
                let _ = mem::replace(&mut done.captures, open.captures);
            }
        }
    }
}

/// What a variable is that two clauses name.
fn both(one: How, other: How) -> How {
    match (one, other) {
        (How::Firstprivate, How::Lastprivate) | (How::Lastprivate, How::Firstprivate) => How::Both,
        (How::Lastprivate, How::Private) => How::Lastprivate,
        _ => other,
    }
}
