//! Structs and unions (ISO C11, section 6.7.2.1).
use crate::fault::{ParseError, Why};
use crate::parser::{MAX_DEPTH, Parser, number};
use crate::specifier::{Specifiers, Words};
use ot_exec_tokens::{Kind, Mark, word};
use ot_exec_tree::{Member, Record, Type};

impl Parser {
    /// The type of a tag, which is new where there is none.
    pub(crate) fn tagged(&mut self, tag: u32, is_union: bool) -> Result<u32, ParseError> {
        match self.scope.tagged(tag) {
            Some(kind) => Ok(kind),
            None => self.new_record(Some(tag), is_union),
        }
    }

    fn new_record(&mut self, tag: Option<u32>, is_union: bool) -> Result<u32, ParseError> {
        let record = number(self.unit.records.len());
        self.unit.records.push(Record {
            name: tag,
            is_union,
            members: None,
        })?;
        let kind = self.make(Type::Record(record))?;
        if let Some(tag) = tag {
            self.scope.tag(tag, kind)?;
        }
        Ok(kind)
    }

    /// The words of a declaration, with the members that it declares.
    #[cycle(record)]
    pub(crate) fn specifiers(&mut self, depth: u32) -> Result<Specifiers, ParseError> {
        if depth == 0 {
            return Err(self.fault(Why::Nesting));
        }
        let mut words = Words::new();
        for _ in 0..self.tokens.len() {
            if self.take_specifier(&mut words) {
                continue;
            }
            match self.kind() {
                Kind::Name(word::STRUCT | word::UNION) => {
                    words.whole = Some(self.record(depth - 1)?);
                }
                Kind::Name(word::ENUM) => words.whole = Some(self.enumeration()?),
                _ => break,
            }
        }
        self.end_specifiers(&words)
    }

    /// A struct or a union, from its word on.
    #[cycle(record)]
    fn record(&mut self, depth: u32) -> Result<u32, ParseError> {
        if depth == 0 {
            return Err(self.fault(Why::Nesting));
        }
        let is_union = self.is_word(word::UNION);
        self.step();
        if self.take_word(word::ATTRIBUTE) {
            self.skip_brackets();
        }
        let tag = match self.kind() {
            Kind::Name(_) => Some(self.name()?),
            _ => None,
        };
        if !self.is_mark(Mark::OpenBlock) {
            return match tag {
                Some(tag) => self.tagged(tag, is_union),
                None => Err(self.fault(Why::NoName)),
            };
        }
        let kind = self.begun(tag, is_union)?;
        self.step();
        let members = self.members(depth - 1)?;
        if let Some(Type::Record(record)) = self.unit.types.get(kind as usize) {
            let record = *record;
            if let Some(record) = self.unit.records.get_mut(record as usize) {
                record.members = Some(members);
            }
        }
        if self.take_word(word::ATTRIBUTE) {
            self.skip_brackets();
        }
        Ok(kind)
    }

    /// The record whose members begin: one that was named before in this block, or a new one.
    fn begun(&mut self, tag: Option<u32>, is_union: bool) -> Result<u32, ParseError> {
        match tag {
            Some(tag) if self.scope.is_own_tag(tag) => self.tagged(tag, is_union),
            _ => self.new_record(tag, is_union),
        }
    }

    /// The members up to the end.
    #[cycle(record)]
    fn members(&mut self, depth: u32) -> Result<Vec<Member>, ParseError> {
        if depth == 0 {
            return Err(self.fault(Why::Nesting));
        }
        let mut members = Vec::new(self.alloc);
        for _ in 0..self.tokens.len() {
            if self.take(Mark::CloseBlock) {
                return Ok(members);
            }
            let said = self.specifiers(depth - 1)?;
            self.member_names(said, &mut members)?;
        }
        Err(self.fault(Why::Expected(Mark::CloseBlock)))
    }

    /// The members of one type.
    fn member_names(
        &mut self,
        said: Specifiers,
        members: &mut Vec<Member>,
    ) -> Result<(), ParseError> {
        if self.take(Mark::Semicolon) {
            members.push(Member {
                name: None,
                kind: said.kind,
            })?;
            return Ok(());
        }
        for _ in 0..self.tokens.len() {
            if !self.is_mark(Mark::Colon) {
                let declared = self.declarator(said.kind, MAX_DEPTH)?;
                self.settle()?;
                members.push(Member {
                    name: declared.name,
                    kind: declared.kind,
                })?;
            }
            if self.is_mark(Mark::Colon) {
                return Err(self.fault(Why::Width));
            }
            if !self.take(Mark::Comma) {
                break;
            }
        }
        self.want(Mark::Semicolon)
    }
}
