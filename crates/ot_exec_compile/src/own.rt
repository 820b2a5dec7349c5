//! What a thread of a team has for itself: variables by which nobody else reaches what the thread has allocated, and variables that it shares with tasks.
ghost use Rattle.std.specs.Prelude.{◌<◌, IfOk};

use crate::fault::Fault;
use crate::maker::below;
use crate::names::{Known, library_of};
use crate::reduced::{ITEM_DEPTH, variable_of};
use crate::value::DEEPEST;
use ot_exec_layout::{Class, Layouts, sort_of, type_of};
use ot_exec_sharing::{Capture, How, Sharing};
use ot_exec_tree::{
    Binary, Clause, Directive, Entry, Expr, Function, Initial, Sign, Stmt, Storage, Unit,
};
use std::alloc::Global;
use std::collections::BTreeSet;

/// What is found of each variable.
#[derive(Drop)]
pub(crate) struct Owned {
    memory: Vec<bool>,
    lent: Vec<bool>,
    changed: Vec<bool>,
    /// By a construct's token: the items of its reductions to which more leads than the construct's own text.
    passed_on: BTreeSet<(u32, u32)>,
}

impl Owned {
    /// Whether something else may lead to what the construct at this token reduces by a variable than that: a function that it is given to, or a pointer.
    pub(crate) fn is_passed_on(&self, at: u32, variable: u32) -> bool {
        self.passed_on.contains(&(at, variable))
    }

    /// Whether it has nothing but what is allocated for it, and nothing else leads there.
    pub(crate) fn has_memory(&self, variable: u32) -> bool {
        self.memory.get(variable as usize).copied().unwrap_or(false)
    }

    /// Whether it may get another value than the one with which it begins.
    pub(crate) fn is_changed(&self, variable: u32) -> bool {
        self.changed.get(variable as usize).copied().unwrap_or(true)
    }

    /// Whether tasks share it.
    pub(crate) fn is_lent(&self, variable: u32) -> bool {
        self.lent.get(variable as usize).copied().unwrap_or(true)
    }
}

/// A search through all functions.
#[derive(Drop)]
struct Search<'a> {
    unit: &'a Unit,
    known: &'a [Option<Known>],
    sharing: &'a Sharing,
    layouts: &'a Layouts,
    /// By variable: how often its name stands where its value may go on to another place.
    named: Vec<u32>,
    /// How many of these are touches of what it leads to, tests, or what frees it.
    harmless: Vec<u32>,
    /// Whether it may lead elsewhere, or others may lead where it does.
    given: Vec<bool>,
    lent: Vec<bool>,
    /// Whether its name stands where it gets another value, or its address goes on.
    changed: Vec<bool>,
    /// By variable: how many times clauses name it, of those in `named`; and the construct around by which it is reduced.
    in_clauses: Vec<u32>,
    reducing: Vec<Option<u32>>,
    /// How variables were reduced around a construct, and how often more than harmlessly they were named before its text.
    around: Vec<Reduced>,
    passed_on: BTreeSet<(u32, u32)>,
}

/// How a variable was reduced around a construct.
#[derive(Clone, Copy)]
struct Reduced {
    variable: u32,
    by: Option<u32>,
    count: u32,
}

/// What is found in a unit.
pub(crate) fn owned_of(
    alloc: Global,
    unit: &Unit,
    known: &[Option<Known>],
    sharing: &Sharing,
    layouts: &Layouts,
) -> Result<Owned, Fault> {
    let count = unit.variables.len();
    let mut search = Search {
        unit,
        known,
        sharing,
        layouts,
        named: vec![in alloc; 0u32; count]?,
        harmless: vec![in alloc; 0u32; count]?,
        given: vec![in alloc; false; count]?,
        lent: vec![in alloc; false; count]?,
        changed: vec![in alloc; false; count]?,
        in_clauses: vec![in alloc; 0u32; count]?,
        reducing: vec![in alloc; None; count]?,
        around: Vec::new(alloc),
        passed_on: BTreeSet::new(alloc),
    };
    for function in unit.functions.iter() {
        search.function(function)?;
    }
    search.end(alloc)
}

fn variable_in(expr: &Expr) -> Option<u32> {
    match expr {
        Expr::Variable(_, variable) => Some(*variable),
        Expr::Cast(_, _, one) => match &**one {
            Expr::Variable(_, variable) => Some(*variable),
            _ => None,
        },
        _ => None,
    }
}

/// The variable that a pointer is, or from which it is counted.
fn counted_from(pointer: &Expr) -> Option<u32> {
    match pointer {
        Expr::Variable(_, variable) => Some(*variable),
        Expr::Binary(_, Binary::Add | Binary::Subtract, one, _) => match &**one {
            Expr::Variable(_, variable) => Some(*variable),
            _ => None,
        },
        _ => None,
    }
}

fn add_one(counts: &mut [u32], variable: u32) {
    if let Some(count) = counts.get_mut(variable as usize) {
        *count = count.saturating_add(1);
    }
}

fn set(marks: &mut [bool], variable: u32) {
    if let Some(mark) = marks.get_mut(variable as usize) {
        *mark = true;
    }
}

/// Whether a construct may have a pointer's value from outside and leave what it leads to to the thread alone.
fn leaves_it(directives: &[Directive], how: How) -> bool {
    if how == How::Private {
        return true;
    }
    match directives.first() {
        Some(Directive::Parallel | Directive::Task | Directive::Taskloop) => false,
        Some(Directive::For | Directive::Sections | Directive::Single) => how == How::Own,
        _ => how == How::Shared,
    }
}

fn makes_tasks(directives: &[Directive]) -> bool {
    directives.iter().any(|directive| matches!(directive, Directive::Task | Directive::Taskloop))
}

impl<'a> Search<'a> {
    fn end(self, alloc: Global) -> Result<Owned, Fault> {
        let mut memory = Vec::new(alloc);
        for (number, variable) in self.unit.variables.iter().enumerate() {
            let is_pointer = matches!(
                sort_of(self.unit, variable).class(self.unit),
                Class::Pointer
            );
            let is_own = is_pointer
                && variable.storage == Storage::Automatic
                && self.given.get(number) == Some(&false)
                && self.named.get(number) == self.harmless.get(number);
            memory.push(is_own)?;
        }
        Ok(Owned {
            memory,
            lent: self.lent,
            changed: self.changed,
            passed_on: self.passed_on,
        })
    }

    fn function(&mut self, function: &Function) -> Result<(), Fault> {
        match &function.body {
            Some(body) => self.statement(DEEPEST, body),
            None => Ok(()),
        }
    }

    fn is_harmless(&mut self, expr: &Expr) {
        if let Some(variable) = variable_in(expr) {
            add_one(&mut self.harmless, variable);
        }
    }

    /// What is called, where it is a function of the library.
    fn known_of(&self, function: &Expr) -> Option<Known> {
        library_of(self.unit, self.known, function)
    }

    /// Whether a value is the number of the thread that asks for it.
    fn is_thread_number(&self, depth: u32, value: &Expr) -> bool {
        if depth == 0 {
            return false;
        }
        match value {
            Expr::Cast(_, _, one) => self.is_thread_number(depth - 1, one),
            Expr::Call(_, function, _) => matches!(
                self.known_of(function),
                Some(Known::ThreadNumber)
            ),
            _ => false,
        }
    }

    /// Whether a value is what is allocated there, or null.
    fn is_new(&self, depth: u32, value: &Expr) -> bool {
        if depth == 0 {
            return false;
        }
        match value {
            Expr::Cast(_, _, one) => self.is_new(depth - 1, one),
            Expr::Number(_, number, _) => *number == 0,
            Expr::Call(_, function, _) => matches!(
                self.known_of(function),
                Some(Known::Allocates | Known::AllocatesZeros | Known::AllocatesAligned)
            ),
            _ => false,
        }
    }

    fn is_scalar(&self, place: &Expr) -> bool {
        match type_of(self.layouts, self.unit, DEEPEST, place) {
            Some(sort) => matches!(
                sort.class(self.unit),
                Class::Integer(_) | Class::Real(_) | Class::Pointer
            ),
            None => false,
        }
    }

    fn is_array(&self, place: &Expr) -> bool {
        match type_of(self.layouts, self.unit, DEEPEST, place) {
            Some(sort) => matches!(sort.class(self.unit), Class::Array(_)),
            None => false,
        }
    }

    /// The variable that leads to a place.
    fn leads_to(&self, depth: u32, place: &Expr) -> Option<u32> {
        if depth == 0 {
            return None;
        }
        match place {
            Expr::Index(_, pointer, _)
            | Expr::Unary(_, Sign::Follow, pointer)
            | Expr::Arrow(_, pointer, _) => {
                if let Some(variable) = counted_from(pointer) {
                    return Some(variable);
                }
                if self.is_array(pointer) {
                    self.leads_to(depth - 1, pointer)
                } else {
                    None
                }
            }
            Expr::Member(_, one, _) => self.leads_to(depth - 1, one),
            _ => None,
        }
    }

    /// A scalar to which a variable leads is touched.
    fn touches(&mut self, place: &Expr) {
        if let Some(variable) = self.leads_to(DEEPEST, place)
            && self.is_scalar(place)
        {
            add_one(&mut self.harmless, variable);
        }
    }

    /// What an address leads to is reached by others.
    fn gives(&mut self, place: &Expr) -> Result<(), Fault> {
        if let Some(variable) = variable_in(place) {
            set(&mut self.given, variable);
            self.passes_on(variable)?;
        }
        if let Some(variable) = self.leads_to(DEEPEST, place) {
            set(&mut self.given, variable);
            self.passes_on(variable)?;
        }
        Ok(())
    }

    /// A place gets another value.
    fn changes(&mut self, place: &Expr) {
        if let Expr::Variable(_, variable) = place {
            set(&mut self.changed, *variable);
        }
    }

    /// A variable gets a value.
    fn gets(&mut self, variable: u32, value: &Expr) {
        if !self.is_new(DEEPEST, value) {
            set(&mut self.given, variable);
        }
    }

    fn test(&mut self, test: &Expr) -> Result<(), Fault> {
        self.is_harmless(test);
        self.expression(DEEPEST, test)
    }

    /// A statement that is an expression, the value of which nothing gets.
    fn does(&mut self, expr: &Expr) -> Result<(), Fault> {
        match expr {
            Expr::Assign(_, None, to, value) => {
                if let Expr::Variable(_, variable) = &**to {
                    self.gets(*variable, value);
                    add_one(&mut self.harmless, *variable);
                }
            }
            Expr::Call(_, function, arguments) => {
                if let Some(Known::Frees | Known::Fills | Known::Copies) = self.known_of(function) {
                    for argument in arguments.iter() {
                        self.is_harmless(argument);
                    }
                }
            }
            _ => {}
        }
        self.expression(DEEPEST, expr)
    }

    /// What a construct has from outside.
    fn takes(&mut self, directives: &[Directive], captures: &[Capture]) {
        let makes_tasks = makes_tasks(directives);
        for capture in captures {
            if !leaves_it(directives, capture.how) {
                set(&mut self.given, capture.variable);
            }
            if makes_tasks && capture.how == How::Shared {
                set(&mut self.lent, capture.variable);
            }
        }
    }
}

/// Expressions.
impl<'a> Search<'a> {
    #[cycle(owned)]
    fn expression(&mut self, depth: u32, expr: &Expr) -> Result<(), Fault> {
        let depth = below(depth, 0)?;
        match expr {
            Expr::Variable(_, variable) => {
                add_one(&mut self.named, *variable);
                Ok(())
            }
            Expr::Unary(_, sign, one) => {
                match sign {
                    Sign::Address => {
                        self.changes(one);
                        self.gives(one)?;
                    }
                    Sign::Not => self.is_harmless(one),
                    Sign::Follow => self.touches(expr),
                    _ => {}
                }
                self.expression(depth, one)
            }
            Expr::Member(_, one, _) | Expr::Arrow(_, one, _) => {
                self.touches(expr);
                self.expression(depth, one)
            }
            Expr::StepBefore(_, _, one) | Expr::StepBehind(_, _, one) => {
                self.changes(one);
                self.expression(depth, one)
            }
            Expr::Cast(_, _, one) => self.expression(depth, one),
            Expr::Index(_, one, other) => {
                self.touches(expr);
                self.expression(depth, one)?;
                self.expression(depth, other)
            }
            Expr::Binary(_, sign, one, other) => {
                if matches!(sign, Binary::Equal | Binary::NotEqual) {
                    self.is_harmless(one);
                    self.is_harmless(other);
                }
                self.expression(depth, one)?;
                self.expression(depth, other)
            }
            Expr::Assign(_, sign, one, other) => {
                if sign.is_some() || !self.is_thread_number(DEEPEST, other) {
                    self.changes(one);
                }
                self.expression(depth, one)?;
                self.expression(depth, other)
            }
            Expr::Comma(_, one, other) => {
                self.expression(depth, one)?;
                self.expression(depth, other)
            }
            Expr::Choice(_, test, one, other) => {
                self.expression(depth, test)?;
                self.expression(depth, one)?;
                self.expression(depth, other)
            }
            Expr::Section(_, one, start, length) => {
                self.expression(depth, one)?;
                if let Some(start) = start {
                    self.expression(depth, start)?;
                }
                if let Some(length) = length {
                    self.expression(depth, length)?;
                }
                Ok(())
            }
            Expr::Literal(_, _, initial) => self.initial(depth, initial),
            Expr::Call(_, function, arguments) => {
                self.expression(depth, function)?;
                self.expressions(depth, arguments.as_slice())
            }
            _ => Ok(()),
        }
    }

    #[cycle(owned)]
    fn expressions(&mut self, depth: u32, list: &[Expr]) -> Result<(), Fault> {
        let less = below(depth, 0)?;
        for one in list {
            self.expression(less, one)?;
        }
        Ok(())
    }

    #[cycle(owned)]
    fn initial(&mut self, depth: u32, initial: &Initial) -> Result<(), Fault> {
        let depth = below(depth, 0)?;
        match initial {
            Initial::Value(value) => self.expression(depth, value),
            Initial::List(_, entries) => self.entries(depth, entries.as_slice()),
        }
    }

    #[cycle(owned)]
    fn entries(&mut self, depth: u32, entries: &[Entry]) -> Result<(), Fault> {
        let less = below(depth, 0)?;
        for entry in entries {
            self.initial(less, &entry.value)?;
        }
        Ok(())
    }
}

/// Statements.
impl<'a> Search<'a> {
    #[cycle(owner)]
    fn statement(&mut self, depth: u32, statement: &Stmt) -> Result<(), Fault> {
        let depth = below(depth, 0)?;
        match statement {
            Stmt::Does(value) => self.does(value),
            Stmt::Return(_, Some(value)) => self.expression(DEEPEST, value),
            Stmt::Declares(_, variable, Some(initial)) => self.declares(*variable, initial),
            Stmt::Block(_, list, _) => self.statements(depth, list.as_slice()),
            Stmt::If(_, test, one, other) => {
                self.test(test)?;
                self.statement(depth, one)?;
                match other {
                    Some(other) => self.statement(depth, other),
                    None => Ok(()),
                }
            }
            Stmt::While(_, test, body) | Stmt::Do(_, body, test) => {
                self.test(test)?;
                self.statement(depth, body)
            }
            Stmt::Switch(_, value, body) => {
                self.expression(DEEPEST, value)?;
                self.statement(depth, body)
            }
            Stmt::For(_, first, test, step, body) => {
                self.statements(depth, first.as_slice())?;
                if let Some(test) = test {
                    self.test(test)?;
                }
                if let Some(step) = step {
                    self.expression(DEEPEST, step)?;
                }
                self.statement(depth, body)
            }
            Stmt::Construct(at, directives, _, clauses, body) => {
                let sharing = self.sharing;
                self.takes(directives.as_slice(), sharing.captures(*at));
                self.clauses(clauses.as_slice())?;
                if let Some(body) = body {
                    let first = self.around.len();
                    self.begins_reducing(*at, sharing.captures(*at))?;
                    self.statement(depth, body)?;
                    self.ends_reducing(*at, first)?;
                }
                Ok(())
            }
            _ => Ok(()),
        }
    }

    #[cycle(owner)]
    fn statements(&mut self, depth: u32, list: &[Stmt]) -> Result<(), Fault> {
        let less = below(depth, 0)?;
        for one in list {
            self.statement(less, one)?;
        }
        Ok(())
    }

    fn declares(&mut self, variable: u32, initial: &Initial) -> Result<(), Fault> {
        match initial {
            Initial::Value(value) => self.gets(variable, value),
            Initial::List(_, _) => set(&mut self.given, variable),
        }
        self.initial(DEEPEST, initial)
    }

    /// What clauses evaluate. Of a name alone they say what it is.
    fn clauses(&mut self, clauses: &[Clause]) -> Result<(), Fault> {
        for clause in clauses {
            for item in clause.items.iter() {
                if !matches!(item, Expr::Variable(_, _)) {
                    self.item(item)?;
                }
            }
        }
        Ok(())
    }

    /// An item of a clause, whose variable is named there and no more.
    fn item(&mut self, item: &Expr) -> Result<(), Fault> {
        let Some(variable) = variable_of(ITEM_DEPTH, item) else {
            return self.expression(DEEPEST, item);
        };
        let before = self.count_of(variable);
        self.expression(DEEPEST, item)?;
        let more = self.count_of(variable).wrapping_sub(before);
        if let Some(count) = self.in_clauses.get_mut(variable as usize) {
            *count = count.wrapping_add(more);
        }
        Ok(())
    }
}

/// Reductions.
impl<'a> Search<'a> {
    /// How often an array or a pointer is named so far where its value may go on to another place: more often behind a text, where it does there.
    fn count_of(&self, variable: u32) -> u32 {
        let at = variable as usize;
        let named = self.named.get(at).copied().unwrap_or(0);
        let harmless = self.harmless.get(at).copied().unwrap_or(0);
        let in_clauses = self.in_clauses.get(at).copied().unwrap_or(0);
        named.wrapping_sub(harmless).wrapping_sub(in_clauses)
    }

    /// Whether a variable's name is where it lies, or leads there.
    fn is_place(&self, variable: u32) -> bool {
        match self.unit.variables.get(variable as usize) {
            Some(variable) => matches!(
                sort_of(self.unit, variable).class(self.unit),
                Class::Pointer | Class::Array(_)
            ),
            None => false,
        }
    }

    /// The address of what a variable is, or leads to, goes on.
    fn passes_on(&mut self, variable: u32) -> Result<(), Fault> {
        if let Some(Some(at)) = self.reducing.get(variable as usize).copied() {
            self.passed_on.insert((at, variable))?;
        }
        Ok(())
    }

    /// The text of a construct begins, with what it has from outside.
    fn begins_reducing(&mut self, at: u32, captures: &[Capture]) -> Result<(), Fault> {
        for capture in captures {
            let variable = capture.variable;
            match capture.how {
                How::Reduced => self.reduces(variable, Some(at))?,
                How::Shared | How::Own => {}
                _ => self.reduces(variable, None)?,
            }
        }
        Ok(())
    }

    /// In the text of a construct a variable is reduced by this one, or by none.
    fn reduces(&mut self, variable: u32, by: Option<u32>) -> Result<(), Fault> {
        let count = self.count_of(variable);
        let was = self
            .reducing
            .get(variable as usize)
            .copied()
            .unwrap_or(None);
        self.around.push(Reduced {
            variable,
            by: was,
            count,
        })?;
        if let Some(place) = self.reducing.get_mut(variable as usize) {
            *place = by;
        }
        Ok(())
    }

    /// It ends.
    fn ends_reducing(&mut self, at: u32, first: usize) -> Result<(), Fault> {
        for _one in first..self.around.len() {
            let Some(one) = self.around.pop() else {
                return Ok(());
            };
            let variable = one.variable;
            let by = self
                .reducing
                .get(variable as usize)
                .copied()
                .unwrap_or(None);
            if by == Some(at) && self.is_place(variable) && self.count_of(variable) != one.count {
                self.passed_on.insert((at, variable))?;
            }
            if let Some(place) = self.reducing.get_mut(variable as usize) {
                *place = one.by;
            }
        }
        Ok(())
    }
}
