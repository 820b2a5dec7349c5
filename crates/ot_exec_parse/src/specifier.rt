//! The words of a declaration that say its type and its storage (ISO C11, sections 6.7.1 and 6.7.2).
use crate::fault::{ParseError, Why};
use crate::parser::{
    BOOL, CHAR, DOUBLE, FLOAT, INT, LONG, LONG_DOUBLE, Parser, SHORT, UNSIGNED, UNSIGNED_CHAR,
    UNSIGNED_LONG, UNSIGNED_SHORT, VOID, is_qualifier,
};
use crate::scope::Meaning;
use ot_exec_tokens::{Kind, word};

/// What a declaration says before its names.
#[derive(Clone, Copy)]
pub(crate) struct Specifiers {
    pub kind: u32,
    pub is_typedef: bool,
    pub is_extern: bool,
    pub is_static: bool,
    pub is_threads_own: bool,
    pub is_atomic: bool,
}

/// The words of a type, as far as they have been read.
#[derive(Clone, Copy)]
pub(crate) struct Words {
    pub said: Specifiers,
    /// A type that isn't made of words.
    pub whole: Option<u32>,
    base: Option<Base>,
    is_unsigned: bool,
    is_long: bool,
    is_any: bool,
}

#[derive(Clone, Copy)]
enum Base {
    Void,
    Bool,
    Char,
    Short,
    Float,
    Double,
    Complex,
}

impl Words {
    pub(crate) fn new() -> Words {
        Words {
            said: Specifiers {
                kind: INT,
                is_typedef: false,
                is_extern: false,
                is_static: false,
                is_threads_own: false,
                is_atomic: false,
            },
            whole: None,
            base: None,
            is_unsigned: false,
            is_long: false,
            is_any: false,
        }
    }

    /// Whether a type has been said.
    pub(crate) fn has_type(&self) -> bool {
        self.is_any || self.whole.is_some()
    }

    /// Takes a word in, if it is one of a type or a storage.
    fn take(&mut self, name: u32) -> bool {
        match name {
            word::TYPEDEF => self.said.is_typedef = true,
            word::EXTERN => self.said.is_extern = true,
            word::STATIC => self.said.is_static = true,
            word::THREAD_LOCAL | word::GNU_THREAD => self.said.is_threads_own = true,
            word::C_ATOMIC => self.said.is_atomic = true,
            word::UNSIGNED => self.word(None, true, false),
            word::SIGNED | word::GNU_SIGNED | word::INT => self.word(None, false, false),
            word::LONG => self.word(None, false, true),
            word::VOID => self.word(Some(Base::Void), false, false),
            word::BOOL => self.word(Some(Base::Bool), false, false),
            word::CHAR => self.word(Some(Base::Char), false, false),
            word::SHORT => self.word(Some(Base::Short), false, false),
            word::FLOAT => self.word(Some(Base::Float), false, false),
            word::DOUBLE => self.word(Some(Base::Double), false, false),
            word::COMPLEX | word::C_COMPLEX => self.word(Some(Base::Complex), false, false),
            _ => return is_qualifier(name),
        }
        true
    }

    fn word(&mut self, base: Option<Base>, is_unsigned: bool, is_long: bool) {
        self.is_any = true;
        self.is_unsigned = self.is_unsigned || is_unsigned;
        self.is_long = self.is_long || is_long;
        if !matches!(self.base, Some(Base::Complex)) && base.is_some() {
            self.base = base;
        }
    }

    /// The type that the words say.
    fn kind(&self) -> u32 {
        match (self.base, self.is_unsigned, self.is_long) {
            (Some(Base::Void), _, _) => VOID,
            (Some(Base::Bool), _, _) => BOOL,
            (Some(Base::Char), true, _) => UNSIGNED_CHAR,
            (Some(Base::Char), false, _) => CHAR,
            (Some(Base::Short), true, _) => UNSIGNED_SHORT,
            (Some(Base::Short), false, _) => SHORT,
            (Some(Base::Float), _, _) => FLOAT,
            (Some(Base::Double), _, true) | (Some(Base::Complex), _, _) => LONG_DOUBLE,
            (Some(Base::Double), _, false) => DOUBLE,
            (None, true, true) => UNSIGNED_LONG,
            (None, false, true) => LONG,
            (None, true, false) => UNSIGNED,
            (None, false, false) => INT,
        }
    }

    /// What has been said, with its type.
    pub(crate) fn told(&self) -> Specifiers {
        let kind = match self.whole {
            Some(kind) => kind,
            None => self.kind(),
        };
        Specifiers { kind, ..self.said }
    }
}

impl Parser {
    /// Goes past a word of a type, if one stands here.
    pub(crate) fn take_specifier(&mut self, words: &mut Words) -> bool {
        let Kind::Name(name) = self.kind() else {
            return false;
        };
        if words.take(name) {
            self.step();
            if matches!(name, word::ATTRIBUTE | word::ALIGNAS) {
                self.skip_brackets();
            }
            return true;
        }
        if words.has_type() {
            return false;
        }
        match self.scope.meaning(name) {
            Some(Meaning::Type(kind)) => {
                self.step();
                words.whole = Some(kind);
                true
            }
            _ => false,
        }
    }

    /// A struct, a union or an enumeration by its tag, whose members stand elsewhere.
    fn take_tagged(&mut self, words: &mut Words) -> Result<bool, ParseError> {
        let is_enumeration = self.is_word(word::ENUM);
        let is_union = self.is_word(word::UNION);
        if !is_enumeration && !is_union && !self.is_word(word::STRUCT) {
            return Ok(false);
        }
        self.step();
        let tag = self.name()?;
        words.whole = Some(if is_enumeration {
            self.enumerated(tag)
        } else {
            self.tagged(tag, is_union)?
        });
        Ok(true)
    }

    /// The words of a type that declares no members.
    pub(crate) fn plain_specifiers(&mut self) -> Result<Specifiers, ParseError> {
        let mut words = Words::new();
        for _ in 0..self.tokens.len() {
            if !self.take_specifier(&mut words) && !self.take_tagged(&mut words)? {
                break;
            }
        }
        self.end_specifiers(&words)
    }

    /// What the words say, of which one has to be a type.
    pub(crate) fn end_specifiers(&mut self, words: &Words) -> Result<Specifiers, ParseError> {
        if words.has_type() {
            Ok(words.told())
        } else if self.is_word(word::TYPEOF) || self.is_word(word::GNU_TYPEOF) {
            Err(self.fault(Why::NotRead))
        } else {
            Err(self.fault(Why::NoType))
        }
    }
}
