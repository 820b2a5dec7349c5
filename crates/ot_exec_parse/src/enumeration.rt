//! Enumerations (ISO C11, section 6.7.2.2).
use crate::fault::{ParseError, Why};
use crate::parser::{MAX_DEPTH, Parser, UNSIGNED, number};
use crate::scope::Meaning;
use ot_exec_layout::Layouts;
use ot_exec_tokens::{Kind, Mark};
use ot_exec_tree::{Enumerator, Expr, Integer, Type, Unit};
use std::alloc::AllocError;

impl Parser {
    /// An enumeration, from its word on. Its type is unsigned as long as its values aren't known.
    pub(crate) fn enumeration(&mut self) -> Result<u32, ParseError> {
        self.step();
        let tag = match self.kind() {
            Kind::Name(_) => Some(self.name()?),
            _ => None,
        };
        if !self.take(Mark::OpenBlock) {
            return Ok(match tag {
                Some(tag) => self.enumerated(tag),
                None => UNSIGNED,
            });
        }
        let kind = self.make(Type::Integer(Integer::Unsigned))?;
        if let Some(tag) = tag {
            self.scope.tag(tag, kind)?;
        }
        self.enumerators(kind)?;
        Ok(kind)
    }

    /// The type of an enumeration whose enumerators stand elsewhere.
    pub(crate) fn enumerated(&self, tag: u32) -> u32 {
        self.scope.tagged(tag).unwrap_or(UNSIGNED)
    }

    /// The enumerators up to the end.
    fn enumerators(&mut self, kind: u32) -> Result<(), ParseError> {
        let mut last = None;
        let mut more = 0;
        for _ in 0..self.tokens.len() {
            if self.take(Mark::CloseBlock) {
                return Ok(());
            }
            let name = self.name()?;
            if self.take(Mark::Assign) {
                let links = self.links;
                self.links = 0;
                let value = self.choice(MAX_DEPTH)?;
                self.links = links;
                last = Some(self.enumerator(kind, Some(value), 0)?);
                more = 0;
            } else {
                let value = last.map(|number: u32| Expr::Enumerator(self.here(), number));
                let _ = self.enumerator(kind, value, more)?;
            }
            more = more.saturating_add(1);
            let made = number(self.unit.enumerators.len()).saturating_sub(1);
            self.scope.declare(name, Meaning::Enumerator(made))?;
            let _ = self.take(Mark::Comma);
        }
        Err(self.fault(Why::Expected(Mark::CloseBlock)))
    }

    fn enumerator(&mut self, kind: u32, value: Option<Expr>, more: u32) -> Result<u32, ParseError> {
        let made = number(self.unit.enumerators.len());
        self.unit.enumerators.push(Enumerator { value, more })?;
        self.enumerations.push(kind)?;
        Ok(made)
    }

    /// An enumeration of which an enumerator is less than 0 is an `int`: compilers choose so.
    pub(crate) fn sign_enumerations(&mut self) -> Result<(), AllocError> {
        if self.enumerations.is_empty() {
            return Ok(());
        }
        let mut layouts = Layouts::of(self.alloc, &self.unit)?;
        for (enumerator, kind) in self.enumerations.iter().enumerate() {
            if is_negative(&mut layouts, &self.unit, number(enumerator))
                && let Some(it) = self.unit.types.get_mut(*kind as usize)
            {
                *it = Type::Integer(Integer::Int);
            }
        }
        Ok(())
    }
}

/// Whether it is known that an enumerator is less than 0.
fn is_negative(layouts: &mut Layouts, unit: &Unit, enumerator: u32) -> bool {
    match layouts.constant(unit, &Expr::Enumerator(0, enumerator)) {
        Some(value) => value.count().is_none(),
        None => false,
    }
}
