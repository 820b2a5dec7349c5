//! What is read, as far as it has come.
use crate::fault::{Fault, ParseError, Why};
use crate::scope::{Meaning, Scope};
use ot_exec_tokens::{Kind, Mark, Names, Token, word};
use ot_exec_tree::{Integer, Length, Type, Unit};
use std::alloc::{AllocError, Global};
use std::collections::BTreeSet;

/// How deep what is read nests: each pair of brackets is some seven.
pub(crate) const MAX_DEPTH: u32 = 1400;

/// How many operators, and parts behind operands, a value has at most on one way through its tree: they make it deeper, as brackets do.
const MAX_LINKS: u32 = 10_000;

/// Types that each unit has, by their numbers.
pub(crate) const VOID: u32 = 0;

pub(crate) const BOOL: u32 = 1;

pub(crate) const CHAR: u32 = 2;

pub(crate) const UNSIGNED_CHAR: u32 = 3;

pub(crate) const SHORT: u32 = 4;

pub(crate) const UNSIGNED_SHORT: u32 = 5;

pub(crate) const INT: u32 = 6;

pub(crate) const UNSIGNED: u32 = 7;

pub(crate) const LONG: u32 = 8;

pub(crate) const UNSIGNED_LONG: u32 = 9;

pub(crate) const FLOAT: u32 = 10;

pub(crate) const DOUBLE: u32 = 11;

pub(crate) const LONG_DOUBLE: u32 = 12;

pub(crate) const OPAQUE: u32 = 13;

const VOID_POINTER: u32 = 14;

/// The length of an array, which is read later: the array's type, and the tokens of the length.
#[derive(Clone, Copy)]
pub(crate) struct Pending {
    pub kind: u32,
    pub from: usize,
}

#[derive(Drop)]
pub(crate) struct Parser {
    pub alloc: Global,
    pub tokens: Vec<Token>,
    /// The next token.
    pub at: usize,
    pub scope: Scope,
    pub unit: Unit,
    pub pending: Vec<Pending>,
    /// By enumerator: the type of its enumeration.
    pub enumerations: Vec<u32>,
    /// Whether what is read stands in a function.
    pub is_inside: bool,
    /// How many links the value has that is being read.
    pub links: u32,
    /// The names of reductions that the text declares.
    pub reductions: BTreeSet<u32>,
}

/// A number that counts what has been made.
pub(crate) fn number(len: usize) -> u32 {
    u32::try_from(len).unwrap_or(u32::MAX)
}

impl Parser {
    pub(crate) fn new(alloc: Global, tokens: Vec<Token>) -> Result<Parser, AllocError> {
        let mut parser = Parser {
            alloc,
            tokens,
            at: 0,
            scope: Scope::new(alloc),
            unit: Unit {
                types: Vec::new(alloc),
                records: Vec::new(alloc),
                enumerators: Vec::new(alloc),
                variables: Vec::new(alloc),
                functions: Vec::new(alloc),
            },
            pending: Vec::new(alloc),
            enumerations: Vec::new(alloc),
            is_inside: false,
            links: 0,
            reductions: BTreeSet::new(alloc),
        };
        parser.put_types()?;
        parser.put_names(&KNOWN)?;
        Ok(parser)
    }

    fn put_types(&mut self) -> Result<(), AllocError> {
        let integers = [
            Integer::Bool,
            Integer::Char,
            Integer::UnsignedChar,
            Integer::Short,
            Integer::UnsignedShort,
            Integer::Int,
            Integer::Unsigned,
            Integer::Long,
            Integer::UnsignedLong,
        ];
        self.unit.types.push(Type::Void)?;
        for integer in integers {
            self.unit.types.push(Type::Integer(integer))?;
        }
        for bytes in [4, 8, 16] {
            self.unit.types.push(Type::Real(bytes))?;
        }
        self.unit.types.push(Type::Opaque)?;
        self.unit.types.push(Type::Pointer(VOID))?;
        Ok(())
    }

    fn put_names(&mut self, known: &[(u32, u32)]) -> Result<(), AllocError> {
        for (name, kind) in known {
            self.scope.declare(*name, Meaning::Type(*kind))?;
        }
        Ok(())
    }

    /// The value that is being read gets deeper.
    pub(crate) fn link(&mut self) -> Result<(), ParseError> {
        if self.links >= MAX_LINKS {
            return Err(self.fault(Why::Nesting));
        }
        self.links = self.links.saturating_add(1);
        Ok(())
    }

    /// A new type: its number.
    pub(crate) fn make(&mut self, kind: Type) -> Result<u32, AllocError> {
        let made = number(self.unit.types.len());
        self.unit.types.push(kind)?;
        Ok(made)
    }

    pub(crate) fn array_of(&mut self, of: u32) -> Result<u32, AllocError> {
        self.make(Type::Array(of, Length::Open))
    }

    // ---- tokens

    /// The number of the next token.
    pub(crate) fn here(&self) -> u32 {
        number(self.at)
    }

    /// What the token is that stands so many behind the next one.
    pub(crate) fn ahead(&self, more: usize) -> Kind {
        match self.tokens.get(self.at.saturating_add(more)) {
            Some(token) => token.kind,
            None => Kind::End,
        }
    }

    pub(crate) fn kind(&self) -> Kind {
        self.ahead(0)
    }

    pub(crate) fn kind_at(&self, place: usize) -> Kind {
        match self.tokens.get(place) {
            Some(token) => token.kind,
            None => Kind::End,
        }
    }

    pub(crate) fn step(&mut self) {
        self.at = self.at.saturating_add(1);
    }

    pub(crate) fn is_mark(&self, mark: Mark) -> bool {
        self.kind() == Kind::Mark(mark)
    }

    pub(crate) fn is_word(&self, word: u32) -> bool {
        self.kind() == Kind::Name(word)
    }

    /// Goes past a mark, if it stands here.
    pub(crate) fn take(&mut self, mark: Mark) -> bool {
        let is_here = self.is_mark(mark);
        if is_here {
            self.step();
        }
        is_here
    }

    pub(crate) fn take_word(&mut self, word: u32) -> bool {
        let is_here = self.is_word(word);
        if is_here {
            self.step();
        }
        is_here
    }

    /// Goes past a mark that has to stand here.
    pub(crate) fn want(&mut self, mark: Mark) -> Result<(), ParseError> {
        if self.take(mark) {
            Ok(())
        } else {
            Err(self.fault(Why::Expected(mark)))
        }
    }

    /// A name that has to stand here.
    pub(crate) fn name(&mut self) -> Result<u32, ParseError> {
        match self.kind() {
            Kind::Name(name) => {
                self.step();
                Ok(name)
            }
            _ => Err(self.fault(Why::NoName)),
        }
    }

    /// A fault at the next token.
    pub(crate) fn fault(&self, why: Why) -> ParseError {
        ParseError::Fault(Fault {
            at: self.here(),
            why,
        })
    }

    /// Whether a type begins with the token so many behind the next one.
    pub(crate) fn is_type(&self, more: usize) -> bool {
        match self.ahead(more) {
            Kind::Name(name) => {
                is_type_word(name) || matches!(self.scope.meaning(name), Some(Meaning::Type(_)))
            }
            _ => false,
        }
    }

    /// The place behind the mark that closes what is open: brackets in it are closed before.
    pub(crate) fn closing(&self, from: usize) -> usize {
        let mut depth: u32 = 0;
        for place in from..self.tokens.len() {
            match self.kind_at(place) {
                Kind::Mark(Mark::Open | Mark::OpenIndex | Mark::OpenBlock) => {
                    depth = depth.saturating_add(1);
                }
                Kind::Mark(Mark::Close | Mark::CloseIndex | Mark::CloseBlock) => {
                    if depth == 0 {
                        return place.saturating_add(1);
                    }
                    depth -= 1;
                }
                Kind::PragmaEnd | Kind::End => return place,
                _ => {}
            }
        }
        self.tokens.len()
    }

    /// Goes past brackets, if they stand here, with what is in them.
    pub(crate) fn skip_brackets(&mut self) {
        if self.take(Mark::Open) {
            self.at = self.closing(self.at);
        }
    }
}

/// Whether a word begins a type.
fn is_type_word(name: u32) -> bool {
    matches!(
        name,
        word::VOID
            | word::CHAR
            | word::SHORT
            | word::INT
            | word::LONG
            | word::FLOAT
            | word::DOUBLE
            | word::SIGNED
            | word::UNSIGNED
            | word::BOOL
            | word::STRUCT
            | word::UNION
            | word::ENUM
            | word::TYPEDEF
            | word::EXTERN
            | word::STATIC
            | word::C_COMPLEX
            | word::COMPLEX
            | word::GNU_SIGNED
            | word::TYPEOF
            | word::GNU_TYPEOF
    ) || is_qualifier(name)
}

/// Whether a word says of a type or a function what changes no order.
pub(crate) fn is_qualifier(name: u32) -> bool {
    matches!(
        name,
        word::CONST
            | word::VOLATILE
            | word::RESTRICT
            | word::REGISTER
            | word::INLINE
            | word::NORETURN
            | word::ATTRIBUTE
            | word::ALIGNAS
            | word::THREAD_LOCAL
            | word::GNU_THREAD
            | word::AUTO
            | word::C_ATOMIC
    )
}

/// Types of the library, by their names.
const KNOWN: [(u32, u32); 30] = [
    (word::SIZE_T, UNSIGNED_LONG),
    (word::SSIZE_T, LONG),
    (word::INT8_T, CHAR),
    (word::UINT8_T, UNSIGNED_CHAR),
    (word::INT16_T, SHORT),
    (word::UINT16_T, UNSIGNED_SHORT),
    (word::INT32_T, INT),
    (word::UINT32_T, UNSIGNED),
    (word::INT64_T, LONG),
    (word::UINT64_T, UNSIGNED_LONG),
    (word::INTPTR_T, LONG),
    (word::UINTPTR_T, UNSIGNED_LONG),
    (word::PTRDIFF_T, LONG),
    (word::INTMAX_T, LONG),
    (word::UINTMAX_T, UNSIGNED_LONG),
    (word::OMP_LOCK_T, LONG),
    (word::OMP_NEST_LOCK_T, LONG),
    (word::FILE, OPAQUE),
    (word::TIME_T, LONG),
    (word::CLOCK_T, LONG),
    (word::VA_LIST, VOID_POINTER),
    (word::OFF_T, LONG),
    (word::USECONDS_T, UNSIGNED),
    (word::OMP_EVENT_HANDLE_T, LONG),
    (word::OMP_DEPEND_T, LONG),
    (word::OMP_SCHED_T, INT),
    (word::UINT_FAST64_T, UNSIGNED_LONG),
    (word::ATOMIC_INT, INT),
    (word::ATOMIC_UINT, UNSIGNED),
    (word::ATOMIC_LONG, LONG),
];
