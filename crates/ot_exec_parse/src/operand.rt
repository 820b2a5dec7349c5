//! Operands (ISO C11, sections 6.5.1 and 6.5.2).
use crate::fault::{ParseError, Why};
use crate::parser::Parser;
use crate::scope::Meaning;
use ot_exec_tokens::{Kind, Mark, word};
use ot_exec_tree::Expr;
use std::alloc::AllocError;

impl Parser {
    /// An operand, with what stands behind it.
    #[cycle(value)]
    pub(crate) fn postfix(&mut self, depth: u32) -> Result<Expr, ParseError> {
        if depth == 0 {
            return Err(self.fault(Why::Nesting));
        }
        let mut value = self.primary(depth - 1)?;
        for part in 0..self.tokens.len() {
            let at = self.here();
            if part > 0 {
                self.link()?;
            }
            match self.kind() {
                Kind::Mark(Mark::OpenIndex) => {
                    self.step();
                    value = self.index(value, depth - 1)?;
                }
                Kind::Mark(Mark::Open) => {
                    self.step();
                    let given = self.arguments(depth - 1)?;
                    value = self.called(at, value, given)?;
                }
                Kind::Mark(Mark::Dot) => {
                    self.step();
                    let name = self.name()?;
                    value = Expr::Member(at, self.boxed(value)?, name);
                }
                Kind::Mark(Mark::Arrow) => {
                    self.step();
                    let name = self.name()?;
                    value = Expr::Arrow(at, self.boxed(value)?, name);
                }
                Kind::Mark(mark @ (Mark::Increase | Mark::Decrease)) => {
                    self.step();
                    value = Expr::StepBehind(at, mark == Mark::Increase, self.boxed(value)?);
                }
                _ => return Ok(value),
            }
        }
        Ok(value)
    }

    fn called(&self, at: u32, value: Expr, given: Vec<Expr>) -> Result<Expr, AllocError> {
        let value = self.boxed(value)?;
        Ok(Expr::Call(at, value, given))
    }

    /// An index or a section behind its bracket. It stands where its array does.
    #[cycle(value)]
    fn index(&mut self, of: Expr, depth: u32) -> Result<Expr, ParseError> {
        if depth == 0 {
            return Err(self.fault(Why::Nesting));
        }
        let at = place_of(&of);
        let start = if self.is_mark(Mark::Colon) {
            None
        } else {
            Some(self.expression(depth - 1)?)
        };
        if !self.take(Mark::Colon) {
            self.want(Mark::CloseIndex)?;
            return match start {
                Some(start) => Ok(self.indexed(at, of, start)?),
                None => Err(self.fault(Why::NoValue)),
            };
        }
        let length = if self.is_mark(Mark::CloseIndex) {
            None
        } else {
            Some(self.expression(depth - 1)?)
        };
        self.want(Mark::CloseIndex)?;
        Ok(self.section(at, of, start, length)?)
    }

    fn indexed(&self, at: u32, of: Expr, index: Expr) -> Result<Expr, AllocError> {
        let of = self.boxed(of)?;
        let index = self.boxed(index)?;
        Ok(Expr::Index(at, of, index))
    }

    fn section(
        &self,
        at: u32,
        of: Expr,
        start: Option<Expr>,
        length: Option<Expr>,
    ) -> Result<Expr, AllocError> {
        let of = self.boxed(of)?;
        let start = self.boxed_some(start)?;
        let length = self.boxed_some(length)?;
        Ok(Expr::Section(at, of, start, length))
    }

    fn boxed_some(&self, value: Option<Expr>) -> Result<Option<Box<Expr>>, AllocError> {
        match value {
            Some(value) => Ok(Some(self.boxed(value)?)),
            None => Ok(None),
        }
    }

    /// Arguments up to their bracket. A type may stand among them.
    #[cycle(value)]
    fn arguments(&mut self, depth: u32) -> Result<Vec<Expr>, ParseError> {
        if depth == 0 {
            return Err(self.fault(Why::Nesting));
        }
        let mut given = Vec::new(self.alloc);
        for _ in 0..self.tokens.len() {
            if self.take(Mark::Close) {
                return Ok(given);
            }
            let at = self.here();
            if self.is_type(0) {
                let kind = self.type_name()?;
                given.push(Expr::Kind(at, kind))?;
            } else {
                let links = self.links;
                let value = self.assign(depth - 1)?;
                self.links = links;
                given.push(value)?;
            }
            if !self.take(Mark::Comma) && !self.is_mark(Mark::Close) {
                break;
            }
        }
        Err(self.fault(Why::Expected(Mark::Close)))
    }

    #[cycle(value)]
    fn primary(&mut self, depth: u32) -> Result<Expr, ParseError> {
        if depth == 0 {
            return Err(self.fault(Why::Nesting));
        }
        let at = self.here();
        match self.kind() {
            Kind::Number(value, kind) => {
                self.step();
                Ok(Expr::Number(at, value, kind))
            }
            Kind::Real(bytes) => {
                self.step();
                Ok(Expr::Real(at, bytes))
            }
            Kind::Text(_) => Ok(self.text(at)),
            Kind::Name(name) => self.named(at, name),
            Kind::Mark(Mark::Open) => {
                self.step();
                if self.is_mark(Mark::OpenBlock) {
                    return Err(self.fault(Why::NotRead));
                }
                let value = self.expression(depth - 1)?;
                self.want(Mark::Close)?;
                Ok(value)
            }
            _ => Err(self.fault(Why::NoValue)),
        }
    }

    /// Strings in a row, which are one.
    fn text(&mut self, at: u32) -> Expr {
        let mut len: u32 = 1;
        for _ in 0..self.tokens.len() {
            let Kind::Text(more) = self.kind() else {
                break;
            };
            len = len.saturating_add(more);
            self.step();
        }
        Expr::Text(at, len)
    }

    /// What a name stands for.
    fn named(&mut self, at: u32, name: u32) -> Result<Expr, ParseError> {
        if name == word::GENERIC {
            return Err(self.fault(Why::NotRead));
        }
        match self.scope.meaning(name) {
            Some(Meaning::Variable(variable)) => {
                self.step();
                Ok(Expr::Variable(at, variable))
            }
            Some(Meaning::Function(function)) => {
                self.step();
                Ok(Expr::Function(at, function))
            }
            Some(Meaning::Enumerator(enumerator)) => {
                self.step();
                Ok(Expr::Enumerator(at, enumerator))
            }
            Some(Meaning::Type(_)) => Err(self.fault(Why::NoValue)),
            None if self.ahead(1) == Kind::Mark(Mark::Open) && name > word::EXTENSION => {
                self.step();
                Ok(Expr::Undeclared(at, name))
            }
            None if name <= word::EXTENSION => Err(self.fault(Why::NoValue)),
            None => Err(self.fault(Why::NotDeclared)),
        }
    }
}

/// The token at which a value stands.
fn place_of(value: &Expr) -> u32 {
    match value {
        Expr::Number(at, _, _)
        | Expr::Real(at, _)
        | Expr::Text(at, _)
        | Expr::Variable(at, _)
        | Expr::Function(at, _)
        | Expr::Enumerator(at, _)
        | Expr::Undeclared(at, _)
        | Expr::Unary(at, _, _)
        | Expr::StepBefore(at, _, _)
        | Expr::StepBehind(at, _, _)
        | Expr::Binary(at, _, _, _)
        | Expr::Assign(at, _, _, _)
        | Expr::Choice(at, _, _, _)
        | Expr::Comma(at, _, _)
        | Expr::Cast(at, _, _)
        | Expr::SizeOfType(at, _)
        | Expr::SizeOf(at, _)
        | Expr::Literal(at, _, _)
        | Expr::Index(at, _, _)
        | Expr::Section(at, _, _, _)
        | Expr::Member(at, _, _)
        | Expr::Arrow(at, _, _)
        | Expr::Call(at, _, _)
        | Expr::Kind(at, _) => *at,
    }
}
