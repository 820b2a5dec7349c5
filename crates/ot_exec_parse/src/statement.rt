//! Statements (ISO C11, section 6.8).
use crate::fault::{ParseError, Why};
use crate::parser::Parser;
use ot_exec_tokens::{Kind, Mark, word};
use ot_exec_tree::{Expr, Stmt};
use std::alloc::AllocError;

impl Parser {
    /// A block, from its bracket on.
    #[cycle(statement)]
    pub(crate) fn block(&mut self, depth: u32) -> Result<Stmt, ParseError> {
        if depth == 0 {
            return Err(self.fault(Why::Nesting));
        }
        let at = self.here();
        self.want(Mark::OpenBlock)?;
        self.scope.open()?;
        let mut made = Vec::new(self.alloc);
        for _ in 0..self.tokens.len() {
            let end = self.here();
            if self.take(Mark::CloseBlock) {
                self.scope.close()?;
                return Ok(Stmt::Block(at, made, end));
            }
            if self.is_declaration() {
                let _ = self.declaration(&mut made)?;
            } else {
                let statement = self.statement(depth - 1)?;
                made.push(statement)?;
            }
        }
        Err(self.fault(Why::Expected(Mark::CloseBlock)))
    }

    /// Whether a declaration stands here: a label is none.
    pub(crate) fn is_declaration(&self) -> bool {
        (self.is_type(0) || self.is_word(word::STATIC_ASSERT))
            && self.ahead(1) != Kind::Mark(Mark::Colon)
    }

    fn boxed_statement(&self, statement: Stmt) -> Result<Box<Stmt>, AllocError> {
        Ok(Box::new(self.alloc, statement)?)
    }

    /// A statement that is a body: no directive that stands alone.
    #[cycle(statement)]
    pub(crate) fn body(&mut self, depth: u32) -> Result<Box<Stmt>, ParseError> {
        if depth == 0 {
            return Err(self.fault(Why::Nesting));
        }
        if self.kind() == Kind::Pragma {
            if let Kind::Name(
                word::TASKWAIT
                | word::TASKYIELD
                | word::BARRIER
                | word::FLUSH
                | word::CANCEL
                | word::CANCELLATION,
            ) = self.ahead(1)
            {
                return Err(self.fault(Why::Alone));
            }
        }
        let at = self.here();
        let statement = self.statement(depth - 1)?;
        if matches!(statement, Stmt::Label(_, _) | Stmt::Case(_, _)) {
            return self.labelled(at, statement, depth - 1);
        }
        Ok(self.boxed_statement(statement)?)
    }

    /// Labels with the statement behind them, as a block.
    #[cycle(statement)]
    fn labelled(&mut self, at: u32, label: Stmt, depth: u32) -> Result<Box<Stmt>, ParseError> {
        if depth == 0 {
            return Err(self.fault(Why::Nesting));
        }
        let mut made = Vec::new(self.alloc);
        made.push(label)?;
        for _ in 0..self.tokens.len() {
            let statement = self.statement(depth - 1)?;
            let is_label = matches!(statement, Stmt::Label(_, _) | Stmt::Case(_, _));
            made.push(statement)?;
            if !is_label {
                break;
            }
        }
        let end = self.here();
        Ok(self.boxed_statement(Stmt::Block(at, made, end))?)
    }

    #[cycle(statement)]
    pub(crate) fn statement(&mut self, depth: u32) -> Result<Stmt, ParseError> {
        if depth == 0 {
            return Err(self.fault(Why::Nesting));
        }
        let at = self.here();
        match self.kind() {
            Kind::Pragma => self.construct(depth - 1),
            Kind::Mark(Mark::OpenBlock) => self.block(depth - 1),
            Kind::Mark(Mark::Semicolon) => {
                self.step();
                Ok(Stmt::Empty(at))
            }
            Kind::Name(word::IF) => self.conditional(at, depth - 1),
            Kind::Name(word::FOR | word::WHILE | word::DO | word::SWITCH) => self.repeated(
                at,
                depth - 1,
            ),
            Kind::Name(name) => self.simple(at, name),
            _ => self.does(),
        }
    }

    /// A value in brackets.
    fn bracketed(&mut self) -> Result<Expr, ParseError> {
        self.want(Mark::Open)?;
        let value = self.whole()?;
        self.want(Mark::Close)?;
        Ok(value)
    }

    #[cycle(statement)]
    fn conditional(&mut self, at: u32, depth: u32) -> Result<Stmt, ParseError> {
        if depth == 0 {
            return Err(self.fault(Why::Nesting));
        }
        self.step();
        let test = self.bracketed()?;
        let one = self.body(depth - 1)?;
        let other = if self.take_word(word::ELSE) {
            Some(self.body(depth - 1)?)
        } else {
            None
        };
        Ok(Stmt::If(at, test, one, other))
    }

    /// A loop, or a `switch`.
    #[cycle(statement)]
    fn repeated(&mut self, at: u32, depth: u32) -> Result<Stmt, ParseError> {
        if depth == 0 {
            return Err(self.fault(Why::Nesting));
        }
        match self.kind() {
            Kind::Name(word::FOR) => self.counted(at, depth - 1),
            Kind::Name(word::DO) => {
                self.step();
                let body = self.body(depth - 1)?;
                let test = self.test_behind()?;
                Ok(Stmt::Do(at, body, test))
            }
            Kind::Name(word::WHILE) => {
                self.step();
                let test = self.bracketed()?;
                let body = self.body(depth - 1)?;
                Ok(Stmt::While(at, test, body))
            }
            _ => {
                self.step();
                let value = self.bracketed()?;
                let body = self.body(depth - 1)?;
                Ok(Stmt::Switch(at, value, body))
            }
        }
    }

    /// `while (..);` behind a body.
    fn test_behind(&mut self) -> Result<Expr, ParseError> {
        if !self.take_word(word::WHILE) {
            return Err(self.fault(Why::NotRead));
        }
        let test = self.bracketed()?;
        self.want(Mark::Semicolon)?;
        Ok(test)
    }

    #[cycle(statement)]
    fn counted(&mut self, at: u32, depth: u32) -> Result<Stmt, ParseError> {
        if depth == 0 {
            return Err(self.fault(Why::Nesting));
        }
        self.step();
        self.want(Mark::Open)?;
        self.scope.open()?;
        let mut first = Vec::new(self.alloc);
        if self.is_declaration() {
            let _ = self.declaration(&mut first)?;
        } else if !self.take(Mark::Semicolon) {
            first.push(self.does()?)?;
        }
        let test = self.value_before(Mark::Semicolon)?;
        let behind = self.value_before(Mark::Close)?;
        let body = self.body(depth - 1)?;
        self.scope.close()?;
        Ok(Stmt::For(at, first, test, behind, body))
    }

    /// A value, or none, before a mark.
    fn value_before(&mut self, mark: Mark) -> Result<Option<Expr>, ParseError> {
        if self.take(mark) {
            return Ok(None);
        }
        let value = self.whole()?;
        self.want(mark)?;
        Ok(Some(value))
    }

    /// A statement without a statement in it, or a label.
    fn simple(&mut self, at: u32, name: u32) -> Result<Stmt, ParseError> {
        match name {
            word::BREAK => {
                self.step();
                self.want(Mark::Semicolon)?;
                Ok(Stmt::Break(at))
            }
            word::CONTINUE => {
                self.step();
                self.want(Mark::Semicolon)?;
                Ok(Stmt::Continue(at))
            }
            word::RETURN => {
                self.step();
                Ok(Stmt::Return(at, self.value_before(Mark::Semicolon)?))
            }
            word::CASE => {
                self.step();
                Ok(Stmt::Case(at, self.value_before(Mark::Colon)?))
            }
            word::DEFAULT if self.ahead(1) == Kind::Mark(Mark::Colon) => {
                self.step();
                self.step();
                Ok(Stmt::Case(at, None))
            }
            word::GOTO => {
                self.step();
                let label = self.name()?;
                self.want(Mark::Semicolon)?;
                Ok(Stmt::Goto(at, label))
            }
            word::ASM | word::GNU_ASM => Err(self.fault(Why::NotRead)),
            _ if self.ahead(1) == Kind::Mark(Mark::Colon) => {
                self.step();
                self.step();
                Ok(Stmt::Label(at, name))
            }
            _ => self.does(),
        }
    }

    /// A value that is computed for what it does.
    pub(crate) fn does(&mut self) -> Result<Stmt, ParseError> {
        let value = self.whole()?;
        self.want(Mark::Semicolon)?;
        Ok(Stmt::Does(value))
    }
}
