//! Initial values (ISO C11, section 6.7.9).
use crate::fault::{ParseError, Why};
use crate::parser::{Parser, number};
use ot_exec_tokens::{Kind, Mark};
use ot_exec_tree::{Designator, Entry, Expr, Initial, Storage, Variable};
use std::alloc::AllocError;

impl Parser {
    /// A value, or a list of them.
    #[cycle(value)]
    pub(crate) fn initial(&mut self, depth: u32) -> Result<Initial, ParseError> {
        if depth == 0 {
            return Err(self.fault(Why::Nesting));
        }
        let at = self.here();
        if !self.take(Mark::OpenBlock) {
            let value = self.assign(depth - 1)?;
            return Ok(Initial::Value(value));
        }
        let entries = self.entries(depth - 1)?;
        Ok(Initial::List(at, entries))
    }

    /// The entries of a list up to its end.
    #[cycle(value)]
    fn entries(&mut self, depth: u32) -> Result<Vec<Entry>, ParseError> {
        if depth == 0 {
            return Err(self.fault(Why::Nesting));
        }
        let mut entries = Vec::new(self.alloc);
        for _ in 0..self.tokens.len() {
            if self.take(Mark::CloseBlock) {
                return Ok(entries);
            }
            let links = self.links;
            let path = self.path(depth - 1)?;
            let value = self.initial(depth - 1)?;
            self.links = links;
            entries.push(Entry { path, value })?;
            if !self.take(Mark::Comma) && !self.is_mark(Mark::CloseBlock) {
                break;
            }
        }
        Err(self.fault(Why::Expected(Mark::CloseBlock)))
    }

    /// Where an initial value goes, up to the `=`.
    #[cycle(value)]
    fn path(&mut self, depth: u32) -> Result<Vec<Designator>, ParseError> {
        if depth == 0 {
            return Err(self.fault(Why::Nesting));
        }
        let mut path = Vec::new(self.alloc);
        for _ in 0..self.tokens.len() {
            if self.take(Mark::OpenIndex) {
                let index = self.choice(depth - 1)?;
                self.want(Mark::CloseIndex)?;
                path.push(Designator::Element(index))?;
            } else if self.is_mark(Mark::Dot) && matches!(self.ahead(1), Kind::Name(_)) {
                self.step();
                path.push(Designator::Member(self.name()?))?;
            } else {
                break;
            }
        }
        if !path.is_empty() {
            self.want(Mark::Assign)?;
        }
        Ok(path)
    }

    /// A compound literal: a variable without a name.
    pub(crate) fn literal(
        &mut self,
        at: u32,
        kind: u32,
        initial: Initial,
    ) -> Result<Expr, ParseError> {
        let made = number(self.unit.variables.len());
        let storage = if self.is_inside {
            Storage::Automatic
        } else {
            Storage::Static
        };
        self.unit.variables.push(Variable {
            name: 0,
            kind,
            storage,
            is_atomic: false,
            at,
            initial: None,
        })?;
        Ok(self.literal_of(at, made, initial)?)
    }

    fn literal_of(&self, at: u32, made: u32, initial: Initial) -> Result<Expr, AllocError> {
        Ok(Expr::Literal(at, made, Box::new(self.alloc, initial)?))
    }
}
