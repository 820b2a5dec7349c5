//! Calls.
use crate::at::at_of;
use crate::fault::{Fault, Why};
use crate::maker::{Maker, Val, below};
use crate::unions::stands_apart;
use crate::value::DEEPEST;
use ot_exec_code::Form;
use ot_exec_layout::Sort;
use ot_exec_tree::{Expr, Type};

/// What is called.
#[derive(Clone, Copy)]
enum Callee {
    /// The function of this number.
    Own(u32),
    /// A function without a body: its name's number, and what it gives where that is declared.
    Outside(u32, Option<Sort>),
    /// The function that this slot has, of this type.
    By(Val),
}

impl<'a> Maker<'a> {
    #[cycle(value)]
    pub(crate) fn call(
        &mut self,
        depth: u32,
        at: u32,
        wanted: Option<Sort>,
        function: &Expr,
        arguments: &[Expr],
    ) -> Result<Val, Fault> {
        let depth = below(depth, at)?;
        let base = self.arguments.len();
        let callee = match self.callee(at, function)? {
            Some(callee) => callee,
            None => {
                let value = self.expression(depth, function)?;
                Callee::By(value)
            }
        };
        self.pass(depth, callee, arguments)?;
        let given = self.calls(at, callee, wanted, base, arguments);
        self.arguments.truncate(base);
        given
    }

    /// Evaluates arguments, each converted to its parameter's type.
    #[cycle(value)]
    fn pass(&mut self, depth: u32, callee: Callee, arguments: &[Expr]) -> Result<(), Fault> {
        let less = below(depth, 0)?;
        let mut number = 0usize;
        for argument in arguments {
            let value = match (self.parameter(callee, number), callee, argument) {
                (Some(sort), _, _) => self.converted(less, argument, sort)?,
                (None, Callee::Outside(_, _), Expr::Text(_, _)) => {
                    self.unknown_of(Sort::ANY_POINTER)?
                }
                _ => self.expression(less, argument)?,
            };
            stands_apart(at_of(argument), value.within)?;
            self.arguments.push(value)?;
            number = number.saturating_add(1);
        }
        Ok(())
    }

    /// Arguments of a function of the text in slots one after another, behind all others: the first one.
    pub(crate) fn argument_slots(
        &mut self,
        at: u32,
        function: u32,
        arguments: &[Expr],
    ) -> Result<u32, Fault> {
        let base = self.arguments.len();
        self.pass(DEEPEST, Callee::Own(function), arguments)?;
        let first = self.frame.next;
        for place in base..self.arguments.len() {
            if let Some(value) = self.arguments.get(place).copied() {
                self.copy(value.slot)?;
            }
        }
        self.arguments.truncate(base);
        let wanted = match self.unit.functions.get(function as usize) {
            Some(function) => function.parameters.len(),
            None => 0,
        };
        if arguments.len() < wanted {
            return Err(Fault::Refused(at, Why::Arguments));
        }
        Ok(first)
    }

    /// What a name that is called says. None for another expression.
    fn callee(&self, at: u32, function: &Expr) -> Result<Option<Callee>, Fault> {
        match function {
            Expr::Undeclared(_, name) => Ok(Some(Callee::Outside(*name, None))),
            Expr::Function(_, number) => {
                let Some(function) = self.unit.functions.get(*number as usize) else {
                    return Err(Fault::Refused(at, Why::NotDeclared));
                };
                if function.body.is_some() {
                    return Ok(Some(Callee::Own(*number)));
                }
                let gives = Sort::of(self.unit, function.kind).given(self.unit);
                Ok(Some(Callee::Outside(function.name, gives)))
            }
            _ => Ok(None),
        }
    }

    /// The type of a parameter of what is called, where it is known. What the library gets isn't converted.
    fn parameter(&self, callee: Callee, number: usize) -> Option<Sort> {
        let kind = match callee {
            Callee::Own(function) => match self.unit.functions.get(function as usize) {
                Some(function) => function.kind,
                None => return None,
            },
            Callee::Outside(_, _) => return None,
            Callee::By(value) => return self.parameter_of(value.sort, number),
        };
        self.parameter_of(Sort::of(self.unit, kind), number)
    }

    fn parameter_of(&self, sort: Sort, number: usize) -> Option<Sort> {
        let kind = match sort.kind(self.unit) {
            Some(kind) => kind,
            None => return None,
        };
        match self.unit.types.get(kind as usize) {
            Some(Type::Function(_, parameters)) => match parameters.get(number) {
                Some(parameter) => Some(Sort::of(self.unit, *parameter).decayed(self.unit)),
                None => None,
            },
            _ => None,
        }
    }

    fn calls(
        &mut self,
        at: u32,
        callee: Callee,
        wanted: Option<Sort>,
        base: usize,
        arguments: &[Expr],
    ) -> Result<Val, Fault> {
        match callee {
            Callee::Outside(name, gives) => match self.known.get(name as usize) {
                Some(Some(known)) => self.of_library(at, *known, wanted, base, arguments),
                _ => {
                    self.leaves_untouched(name)?;
                    self.unknown_of(gives.unwrap_or(Sort::INT))
                }
            },
            Callee::Own(function) => self.calls_own(at, function, base),
            Callee::By(value) => {
                let gives = value.sort.given(self.unit).unwrap_or(Sort::INT);
                let first = self.placed(base)?;
                self.emit(Form::CallBy(at, value.slot, first))?;
                Ok(self.value(first, gives))
            }
        }
    }

    fn calls_own(&mut self, at: u32, function: u32, base: usize) -> Result<Val, Fault> {
        let Some(called) = self.unit.functions.get(function as usize) else {
            return Err(Fault::Refused(at, Why::NotDeclared));
        };
        let count = self.arguments.len().saturating_sub(base);
        if count < called.parameters.len() {
            return Err(Fault::Refused(at, Why::Arguments));
        }
        let gives = Sort::of(self.unit, called.kind)
            .given(self.unit)
            .unwrap_or(Sort::INT);
        let first = self.placed(base)?;
        self.emit(Form::Call(at, function, first))?;
        Ok(self.value(first, gives))
    }

    /// Arguments in slots one after another, behind all others.
    fn placed(&mut self, base: usize) -> Result<u32, Fault> {
        let first = self.frame.next;
        for place in base..self.arguments.len() {
            if let Some(value) = self.arguments.get(place).copied() {
                self.copy(value.slot)?;
            }
        }
        if self.frame.next == first {
            self.fresh()?;
        }
        self.frame.next = first.saturating_add(1);
        Ok(first)
    }
}
