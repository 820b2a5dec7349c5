//! A whole text.
use crate::declarator::Parameter;
use crate::fault::{ParseError, Why};
use crate::parser::{MAX_DEPTH, Parser};
use ot_exec_tokens::{Kind, Mark, Token, word};
use ot_exec_tree::{Stmt, Unit};
use std::alloc::Global;

/// The tree of a text with these tokens, or the first fault. The last token is `End`.
pub fn unit_of(alloc: Global, tokens: Vec<Token>) -> Result<Unit, ParseError> {
    let mut parser = Parser::new(alloc, tokens)?;
    for _ in 0..parser.tokens.len() {
        if parser.kind() == Kind::End {
            break;
        }
        parser.top()?;
    }
    parser.sign_enumerations()?;
    let Parser {
        alloc: _,
        tokens: _,
        at: _,
        scope: _,
        unit,
        pending: _,
        enumerations: _,
        is_inside: _,
        links: _,
        reductions: _,
    } = parser;
    Ok(unit)
}

impl Parser {
    /// What stands outside of functions.
    fn top(&mut self) -> Result<(), ParseError> {
        if self.kind() == Kind::Pragma {
            self.step();
            return match self.kind() {
                Kind::Name(word::THREADPRIVATE) => self.threadprivate(),
                Kind::Name(word::DECLARE) => self.declares(),
                _ => Err(self.fault(Why::Directive)),
            };
        }
        if self.take(Mark::Semicolon) {
            return Ok(());
        }
        let mut none: Vec<Stmt> = Vec::new(self.alloc);
        match self.declaration(&mut none)? {
            Some((function, parameters)) => self.function_body(function, &parameters),
            None => Ok(()),
        }
    }

    fn function_body(&mut self, function: u32, found: &[Parameter]) -> Result<(), ParseError> {
        self.scope.open()?;
        self.is_inside = true;
        let parameters = self.declare_parameters(found)?;
        let body = self.block(MAX_DEPTH)?;
        self.is_inside = false;
        self.scope.close()?;
        if let Some(it) = self.unit.functions.get_mut(function as usize) {
            it.parameters = parameters;
            it.body = Some(body);
        }
        Ok(())
    }
}
