//! Declarators and the names of types (ISO C11, sections 6.7.6 and 6.7.7). The lengths of arrays are read later, by `settle`.
use crate::fault::{ParseError, Why};
use crate::parser::{MAX_DEPTH, Parser, Pending};
use ot_exec_tokens::{Kind, Mark, word};
use ot_exec_tree::{Length, Type};

/// A parameter: its name, its type and its token.
#[derive(Clone, Copy)]
pub(crate) struct Parameter {
    pub name: Option<u32>,
    pub kind: u32,
    pub at: u32,
}

/// What a declarator declares: a name, its type, its token, and the parameters of the last list that it has.
#[derive(Drop)]
pub(crate) struct Declared {
    pub name: Option<u32>,
    pub kind: u32,
    pub at: u32,
    pub parameters: Vec<Parameter>,
}

impl Parser {
    /// A declarator behind a type.
    #[cycle(declarator)]
    pub(crate) fn declarator(&mut self, base: u32, depth: u32) -> Result<Declared, ParseError> {
        if depth == 0 {
            return Err(self.fault(Why::Nesting));
        }
        let base = self.pointers(base)?;
        let is_inner = self.is_mark(Mark::Open)
            && !self.is_type(1)
            && self.ahead(1) != Kind::Mark(Mark::Close);
        if is_inner {
            return self.inner_declarator(base, depth - 1);
        }
        let at = self.here();
        let name = match self.kind() {
            Kind::Name(_) if !self.is_type_keyword() => Some(self.name()?),
            _ => None,
        };
        let mut parameters = Vec::new(self.alloc);
        let kind = self.suffix(base, &mut parameters, depth - 1)?;
        if self.take_word(word::ATTRIBUTE) || self.take_word(word::GNU_ASM) {
            self.skip_brackets();
        }
        Ok(Declared {
            name,
            kind,
            at,
            parameters,
        })
    }

    /// Whether a word of a type stands here that is no name.
    fn is_type_keyword(&self) -> bool {
        match self.kind() {
            Kind::Name(name) => name <= word::EXTENSION,
            _ => false,
        }
    }

    /// A declarator in brackets: what stands behind them counts first.
    #[cycle(declarator)]
    fn inner_declarator(&mut self, base: u32, depth: u32) -> Result<Declared, ParseError> {
        if depth == 0 {
            return Err(self.fault(Why::Nesting));
        }
        self.step();
        let inner = self.at;
        self.at = self.closing(inner);
        let mut parameters = Vec::new(self.alloc);
        let kind = self.suffix(base, &mut parameters, depth - 1)?;
        let end = self.at;
        self.at = inner;
        let declared = self.declarator(kind, depth - 1)?;
        self.want(Mark::Close)?;
        self.at = end;
        Ok(declared)
    }

    /// Pointers to a type.
    fn pointers(&mut self, base: u32) -> Result<u32, ParseError> {
        let mut kind = base;
        for _ in 0..self.tokens.len() {
            match self.kind() {
                Kind::Mark(Mark::Star) => {
                    self.step();
                    kind = self.make(Type::Pointer(kind))?;
                }
                Kind::Name(word::CONST | word::VOLATILE | word::RESTRICT | word::C_ATOMIC) =>
                    self.step(),
                Kind::Name(word::ATTRIBUTE) => {
                    self.step();
                    self.skip_brackets();
                }
                _ => return Ok(kind),
            }
        }
        Ok(kind)
    }

    /// What stands behind a name: lengths, or parameters.
    #[cycle(declarator)]
    fn suffix(
        &mut self,
        base: u32,
        parameters: &mut Vec<Parameter>,
        depth: u32,
    ) -> Result<u32, ParseError> {
        if depth == 0 {
            return Err(self.fault(Why::Nesting));
        }
        if self.take(Mark::OpenIndex) {
            let from = self.at;
            self.at = self.closing(from);
            let of = self.suffix(base, parameters, depth - 1)?;
            let kind = self.array_of(of)?;
            self.pending.push(Pending { kind, from })?;
            return Ok(kind);
        }
        if !self.take(Mark::Open) {
            return Ok(base);
        }
        let found = self.parameters(depth - 1)?;
        let mut kinds = Vec::new(self.alloc);
        for parameter in &found {
            kinds.push(parameter.kind)?;
        }
        *parameters = found;
        self.make_function(base, kinds)
    }

    fn make_function(&mut self, gives: u32, kinds: Vec<u32>) -> Result<u32, ParseError> {
        Ok(self.make(Type::Function(gives, kinds))?)
    }

    /// Parameters up to their bracket: arrays are pointers, and so are functions.
    #[cycle(declarator)]
    fn parameters(&mut self, depth: u32) -> Result<Vec<Parameter>, ParseError> {
        if depth == 0 {
            return Err(self.fault(Why::Nesting));
        }
        let mut found = Vec::new(self.alloc);
        if self.is_word(word::VOID) && self.ahead(1) == Kind::Mark(Mark::Close) {
            self.step();
        }
        for _ in 0..self.tokens.len() {
            if self.take(Mark::Close) {
                return Ok(found);
            }
            if !self.take(Mark::Dots) {
                let said = self.plain_specifiers()?;
                let declared = self.declarator(said.kind, depth - 1)?;
                let kind = self.adjusted(declared.kind)?;
                found.push(Parameter {
                    name: declared.name,
                    kind,
                    at: declared.at,
                })?;
            }
            let _ = self.take(Mark::Comma);
        }
        Err(self.fault(Why::Expected(Mark::Close)))
    }

    /// The type of a parameter that is declared so (section 6.7.6.3).
    fn adjusted(&mut self, kind: u32) -> Result<u32, ParseError> {
        match self.unit.types.get(kind as usize) {
            Some(Type::Array(of, _)) => {
                let of = *of;
                Ok(self.make(Type::Pointer(of))?)
            }
            Some(Type::Function(_, _)) => Ok(self.make(Type::Pointer(kind))?),
            _ => Ok(kind),
        }
    }

    /// The name of a type.
    pub(crate) fn type_name(&mut self) -> Result<u32, ParseError> {
        let said = self.plain_specifiers()?;
        Ok(self.declarator(said.kind, MAX_DEPTH)?.kind)
    }

    /// Reads the lengths that wait.
    pub(crate) fn settle(&mut self) -> Result<(), ParseError> {
        for _ in 0..self.tokens.len() {
            let Some(next) = self.pending.pop() else {
                return Ok(());
            };
            let back = self.at;
            self.at = next.from;
            self.settle_one(next.kind)?;
            self.at = back;
        }
        Ok(())
    }

    fn settle_one(&mut self, kind: u32) -> Result<(), ParseError> {
        for _ in 0..self.tokens.len() {
            match self.kind() {
                Kind::Name(word::STATIC | word::CONST | word::RESTRICT | word::VOLATILE) => {
                    self.step();
                }
                _ => break,
            }
        }
        let is_star = self.is_mark(Mark::Star) && self.ahead(1) == Kind::Mark(Mark::CloseIndex);
        if self.is_mark(Mark::CloseIndex) || is_star {
            return Ok(());
        }
        let links = self.links;
        self.links = 0;
        let length = self.assign(MAX_DEPTH)?;
        self.links = links;
        if !self.is_mark(Mark::CloseIndex) {
            return Err(self.fault(Why::Expected(Mark::CloseIndex)));
        }
        if let Some(Type::Array(_, at)) = self.unit.types.get_mut(kind as usize) {
            *at = Length::By(length);
        }
        Ok(())
    }
}
