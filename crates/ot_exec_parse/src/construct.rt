//! Constructs: a directive, its clauses, and the statement behind it.
use crate::directive::{directive_of, is_alone};
use crate::fault::{ParseError, Why};
use crate::parser::Parser;
use crate::scope::Meaning;
use ot_exec_tokens::{Kind, Mark, word};
use ot_exec_tree::{Clause, Directive, Stmt, Storage};

/// A directive, read.
#[derive(Drop)]
struct Head {
    directives: Vec<Directive>,
    name: Option<u32>,
    clauses: Vec<Clause>,
}

impl Parser {
    /// A directive with the statement behind it.
    #[cycle(statement)]
    pub(crate) fn construct(&mut self, depth: u32) -> Result<Stmt, ParseError> {
        if depth == 0 {
            return Err(self.fault(Why::Nesting));
        }
        let at = self.here();
        self.step();
        if self.is_word(word::THREADPRIVATE) {
            self.threadprivate()?;
            return Ok(Stmt::Empty(at));
        }
        if self.is_word(word::DECLARE) {
            self.declares()?;
            return Ok(Stmt::Empty(at));
        }
        if self.is_word(word::CANCEL) || self.is_word(word::CANCELLATION) {
            return self.cancels(at);
        }
        let Head {
            directives,
            name,
            clauses,
        } = self.head()?;
        let body = match directives.as_slice() {
            [only] if is_alone(*only) => None,
            _ => Some(self.body(depth - 1)?),
        };
        Ok(Stmt::Construct(at, directives, name, clauses, body))
    }

    /// `cancel` and `cancellation point`: both are ignored unless cancellation is activated, which it isn't at first (OpenMP API 5.2, section 16.1).
    /// The condition is evaluated.
    fn cancels(&mut self, at: u32) -> Result<Stmt, ParseError> {
        let is_point = self.is_word(word::CANCELLATION);
        self.step();
        if is_point {
            if !self.is_word(word::POINT) {
                return Err(self.fault(Why::Directive));
            }
            self.step();
        }
        match self.kind() {
            Kind::Name(word::PARALLEL | word::FOR | word::SECTIONS | word::TASKGROUP) =>
                self.step(),
            _ => return Err(self.fault(Why::Directive)),
        }
        let _ = self.take(Mark::Comma);
        let statement = if !is_point && self.is_word(word::IF) {
            self.cancels_if()?
        } else {
            Stmt::Empty(at)
        };
        if self.kind() != Kind::PragmaEnd {
            return Err(self.fault(Why::Clause));
        }
        self.step();
        Ok(statement)
    }

    fn cancels_if(&mut self) -> Result<Stmt, ParseError> {
        self.step();
        self.want(Mark::Open)?;
        if self.is_word(word::CANCEL) && self.ahead(1) == Kind::Mark(Mark::Colon) {
            self.step();
            self.step();
        }
        let condition = self.whole()?;
        self.want(Mark::Close)?;
        Ok(Stmt::Does(condition))
    }

    /// A directive to the end of its line.
    fn head(&mut self) -> Result<Head, ParseError> {
        let directives = self.directives()?;
        let mut name = None;
        if directives.last() == Some(&Directive::Critical) && self.take(Mark::Open) {
            name = Some(self.name()?);
            self.want(Mark::Close)?;
        }
        let clauses = if directives.last() == Some(&Directive::Flush) {
            self.at = self.end_of_line();
            Vec::new(self.alloc)
        } else {
            self.clauses()?
        };
        self.step();
        Ok(Head {
            directives,
            name,
            clauses,
        })
    }

    /// The token at which the line ends.
    fn end_of_line(&self) -> usize {
        for place in self.at..self.tokens.len() {
            if self.kind_at(place) == Kind::PragmaEnd {
                return place;
            }
        }
        self.tokens.len()
    }

    /// The names of a directive: of a combined one several.
    fn directives(&mut self) -> Result<Vec<Directive>, ParseError> {
        let mut found = Vec::new(self.alloc);
        for _ in 0..self.tokens.len() {
            let is_whole = matches!(
                found.last(),
                Some(Directive::Critical | Directive::Atomic | Directive::Flush)
            );
            let Kind::Name(name) = self.kind() else {
                break;
            };
            match directive_of(name) {
                Some(directive) if !is_whole => {
                    found.push(directive)?;
                    self.step();
                }
                _ => break,
            }
        }
        if found.is_empty() {
            return Err(self.fault(Why::Directive));
        }
        Ok(found)
    }

    /// `threadprivate(..)`: each thread has such a variable of its own. So it stands here from now on, as it is told here.
    pub(crate) fn threadprivate(&mut self) -> Result<(), ParseError> {
        let at = self.here();
        self.step();
        self.want(Mark::Open)?;
        for _ in 0..self.tokens.len() {
            if self.take(Mark::Close) {
                break;
            }
            let name = self.name()?;
            if let Some(Meaning::Variable(variable)) = self.scope.meaning(name) {
                if let Some(it) = self.unit.variables.get_mut(variable as usize) {
                    it.storage = Storage::Threadprivate;
                    it.at = at;
                }
            }
            let _ = self.take(Mark::Comma);
        }
        self.at = self.end_of_line();
        self.step();
        Ok(())
    }

    /// `declare reduction`, whose name is noted, and `declare simd`. How a reduction combines two values isn't looked at.
    pub(crate) fn declares(&mut self) -> Result<(), ParseError> {
        self.step();
        match self.kind() {
            Kind::Name(word::REDUCTION) => {
                self.step();
                self.want(Mark::Open)?;
                if let Kind::Name(name) = self.kind() {
                    self.reductions.insert(name)?;
                }
            }
            Kind::Name(word::SIMD) => {}
            _ => return Err(self.fault(Why::Directive)),
        }
        self.at = self.end_of_line();
        self.step();
        Ok(())
    }
}
