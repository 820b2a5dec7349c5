//! Expressions, by how tightly marks bind (ISO C11, section 6.5).
use crate::fault::{ParseError, Why};
use crate::marks::{assignment, binary, sign};
use crate::parser::{MAX_DEPTH, Parser};
use ot_exec_tokens::{Kind, Mark, word};
use ot_exec_tree::{Binary, Expr};
use std::alloc::AllocError;

impl Parser {
    /// An expression, and the lengths of types that it names.
    pub(crate) fn whole(&mut self) -> Result<Expr, ParseError> {
        self.links = 0;
        let value = self.expression(MAX_DEPTH)?;
        self.settle()?;
        Ok(value)
    }

    pub(crate) fn boxed(&self, value: Expr) -> Result<Box<Expr>, AllocError> {
        Ok(Box::new(self.alloc, value)?)
    }

    /// Values with commas between them.
    #[cycle(value)]
    pub(crate) fn expression(&mut self, depth: u32) -> Result<Expr, ParseError> {
        if depth == 0 {
            return Err(self.fault(Why::Nesting));
        }
        let mut value = self.assign(depth - 1)?;
        for _ in 0..self.tokens.len() {
            let at = self.here();
            if !self.take(Mark::Comma) {
                break;
            }
            self.link()?;
            let next = self.assign(depth - 1)?;
            value = self.comma(at, value, next)?;
        }
        Ok(value)
    }

    fn comma(&self, at: u32, one: Expr, other: Expr) -> Result<Expr, AllocError> {
        let one = self.boxed(one)?;
        let other = self.boxed(other)?;
        Ok(Expr::Comma(at, one, other))
    }

    /// An assignment, or a choice.
    #[cycle(value)]
    pub(crate) fn assign(&mut self, depth: u32) -> Result<Expr, ParseError> {
        if depth == 0 {
            return Err(self.fault(Why::Nesting));
        }
        let to = self.choice(depth - 1)?;
        let at = self.here();
        let Kind::Mark(mark) = self.kind() else {
            return Ok(to);
        };
        let Some(by) = assignment(mark) else {
            return Ok(to);
        };
        self.step();
        let from = self.assign(depth - 1)?;
        Ok(self.assigned(at, by, to, from)?)
    }

    fn assigned(
        &self,
        at: u32,
        by: Option<Binary>,
        to: Expr,
        from: Expr,
    ) -> Result<Expr, AllocError> {
        let to = self.boxed(to)?;
        let from = self.boxed(from)?;
        Ok(Expr::Assign(at, by, to, from))
    }

    /// `test ? one : other`, or a value without an assignment.
    #[cycle(value)]
    pub(crate) fn choice(&mut self, depth: u32) -> Result<Expr, ParseError> {
        if depth == 0 {
            return Err(self.fault(Why::Nesting));
        }
        let test = self.operation(1, depth - 1)?;
        let at = self.here();
        if !self.take(Mark::Question) {
            return Ok(test);
        }
        let one = self.expression(depth - 1)?;
        self.want(Mark::Colon)?;
        let other = self.choice(depth - 1)?;
        Ok(self.chosen(at, test, one, other)?)
    }

    fn chosen(&self, at: u32, test: Expr, one: Expr, other: Expr) -> Result<Expr, AllocError> {
        let test = self.boxed(test)?;
        let one = self.boxed(one)?;
        let other = self.boxed(other)?;
        Ok(Expr::Choice(at, test, one, other))
    }

    /// Operands with marks between them that bind at least so tightly.
    #[cycle(value)]
    fn operation(&mut self, least: u32, depth: u32) -> Result<Expr, ParseError> {
        if depth == 0 {
            return Err(self.fault(Why::Nesting));
        }
        let mut value = self.unary(depth - 1)?;
        for _ in 0..self.tokens.len() {
            let Kind::Mark(mark) = self.kind() else {
                return Ok(value);
            };
            let Some((by, tightly)) = binary(mark) else {
                return Ok(value);
            };
            if tightly < least {
                return Ok(value);
            }
            let at = self.here();
            self.step();
            self.link()?;
            let right = self.operation(tightly.saturating_add(1), depth - 1)?;
            value = self.joined(at, by, value, right)?;
        }
        Ok(value)
    }

    fn joined(&self, at: u32, by: Binary, one: Expr, other: Expr) -> Result<Expr, AllocError> {
        let one = self.boxed(one)?;
        let other = self.boxed(other)?;
        Ok(Expr::Binary(at, by, one, other))
    }

    /// An operand, with what stands before it.
    #[cycle(value)]
    pub(crate) fn unary(&mut self, depth: u32) -> Result<Expr, ParseError> {
        if depth == 0 {
            return Err(self.fault(Why::Nesting));
        }
        let at = self.here();
        match self.kind() {
            Kind::Mark(mark @ (Mark::Increase | Mark::Decrease)) => {
                self.step();
                let value = self.unary(depth - 1)?;
                Ok(Expr::StepBefore(at, mark == Mark::Increase, self.boxed(value)?))
            }
            Kind::Mark(Mark::Open) if self.is_type(1) => {
                self.step();
                self.cast(at, depth - 1)
            }
            Kind::Name(word::SIZEOF | word::ALIGNOF) => {
                self.step();
                self.size(at, depth - 1)
            }
            Kind::Mark(mark) => match sign(mark) {
                Some(sign) => {
                    self.step();
                    let value = self.unary(depth - 1)?;
                    Ok(Expr::Unary(at, sign, self.boxed(value)?))
                }
                None => self.postfix(depth - 1),
            },
            _ => self.postfix(depth - 1),
        }
    }

    /// A type in brackets, behind the first: a conversion, or a compound literal.
    #[cycle(value)]
    fn cast(&mut self, at: u32, depth: u32) -> Result<Expr, ParseError> {
        if depth == 0 {
            return Err(self.fault(Why::Nesting));
        }
        let kind = self.type_name()?;
        self.want(Mark::Close)?;
        if !self.is_mark(Mark::OpenBlock) {
            let value = self.unary(depth - 1)?;
            return Ok(Expr::Cast(at, kind, self.boxed(value)?));
        }
        let initial = self.initial(depth - 1)?;
        self.literal(at, kind, initial)
    }

    /// `sizeof`, of a type or of a value.
    #[cycle(value)]
    fn size(&mut self, at: u32, depth: u32) -> Result<Expr, ParseError> {
        if depth == 0 {
            return Err(self.fault(Why::Nesting));
        }
        if self.is_mark(Mark::Open) && self.is_type(1) {
            self.step();
            let kind = self.type_name()?;
            self.want(Mark::Close)?;
            return Ok(Expr::SizeOfType(at, kind));
        }
        let value = self.unary(depth - 1)?;
        Ok(Expr::SizeOf(at, self.boxed(value)?))
    }
}
