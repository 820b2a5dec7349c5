//! A text, preprocessed.
use crate::macros::{Hidden, Macro};
use crate::whole::Whole;
use ot_exec_lexemes::{
    Fault, Kind, Names, Raw, RawKind, ReadError, Token, Why, character_of, letters_of, number_of,
    raws_of, spelling, text_len,
};
use std::alloc::{AllocError, Global};
use std::collections::BTreeMap;

/// The tokens of a text, and its names.
#[derive(Drop)]
pub struct Tokens {
    /// The last one is `End`.
    pub tokens: Vec<Token>,
    pub names: Names,
}

/// How many tokens macros may become.
const MOST_TOKENS: u32 = 2_000_000;

/// How many bytes the files have that are included, each as often as it is.
const MOST_BYTES: usize = 50_000_000;

/// How deep files are included.
const DEPTH: u32 = 200;

/// What is preprocessed, as far as it has come.
#[derive(Drop)]
pub(crate) struct Reader<'a> {
    pub alloc: Global,
    pub whole: &'a Whole,
    /// The number of the file that is read; none where definitions are.
    pub part: Option<usize>,
    /// The files that are read once.
    pub once: Vec<usize>,
    /// How many bytes more may be included.
    pub bytes_left: usize,
    pub names: Names,
    /// The bytes of tokens that aren't names.
    pub spelled: Vec<u8>,
    pub macros: BTreeMap<u32, Macro>,
    pub hidden: Hidden,
    /// How many more tokens macros may become.
    pub left: u32,
    pub tokens: Vec<Token>,
}

impl<'a> Reader<'a> {
    fn new(alloc: Global, whole: &'a Whole) -> Result<Reader<'a>, AllocError> {
        Ok(Reader {
            alloc,
            whole,
            part: None,
            once: Vec::new(alloc),
            bytes_left: MOST_BYTES,
            names: Names::new(alloc)?,
            spelled: Vec::new(alloc),
            macros: BTreeMap::new(alloc),
            hidden: Hidden::new(alloc),
            left: MOST_TOKENS,
            tokens: Vec::new(alloc),
        })
    }

    /// The tokens of a text, before they are preprocessed, where so many bytes stand before it.
    pub(crate) fn raws(&mut self, text: &[u8], from: usize) -> Result<Vec<Raw>, ReadError> {
        let letters = match letters_of(self.alloc, text) {
            Ok(letters) => letters,
            Err(ReadError::Fault(fault)) => {
                return Err(ReadError::new(from.saturating_add(fault.at), fault.why));
            }
            Err(error) => return Err(error),
        };
        let mut raws = raws_of(self.alloc, &letters, &mut self.names, &mut self.spelled)?;
        for raw in raws.iter_mut() {
            raw.at = from.saturating_add(raw.at);
        }
        Ok(raws)
    }

    /// Puts a token behind the others.
    pub(crate) fn put(&mut self, raw: &Raw) -> Result<(), ReadError> {
        let text = spelling(raw, &self.names, &self.spelled);
        let kind = match raw.kind {
            RawKind::Name(name) => Some(Kind::Name(name)),
            RawKind::Mark(mark) => Some(Kind::Mark(mark)),
            RawKind::Text => Some(Kind::Text(text_len(text))),
            RawKind::Letter => character_of(text),
            RawKind::Number => number_of(text),
            RawKind::Other => return Err(ReadError::new(raw.at, Why::NoToken)),
        };
        match kind {
            Some(kind) => self.put_kind(kind, raw),
            None => Err(ReadError::new(raw.at, Why::NoNumber)),
        }
    }

    /// The tokens that were read.
    fn told(self) -> Tokens {
        let Reader {
            alloc: _,
            whole: _,
            part: _,
            once: _,
            bytes_left: _,
            names,
            spelled: _,
            macros: _,
            hidden: _,
            left: _,
            tokens,
        } = self;
        Tokens { tokens, names }
    }

    /// Puts one of this kind behind the others, where this stands.
    pub(crate) fn put_kind(&mut self, kind: Kind, raw: &Raw) -> Result<(), ReadError> {
        self.tokens.push(Token {
            kind,
            at: raw.at,
            origin: raw.origin,
        })?;
        Ok(())
    }
}

/// The tokens of a text, and of what it includes, behind these definitions, each `NAME=VALUE` or `NAME`, as a command line has them;
/// or its first fault.
pub fn tokens_of(
    alloc: Global,
    definitions: &[String],
    whole: &Whole,
) -> Result<Tokens, ReadError> {
    let mut reader = Reader::new(alloc, whole)?;
    reader.read(PREDEFINED.as_bytes(), 0, 0)?;
    for definition in definitions {
        let line = line_of(alloc, definition.as_str())?;
        match reader.read(&line, 0, 0) {
            Err(ReadError::Fault(fault)) => return Err(ReadError::Fault(Fault { at: 0, ..fault })),
            read => read?,
        }
    }
    reader.tokens.clear();
    reader.part = Some(0);
    let text = whole.first_text();
    reader.read(text, 0, DEPTH)?;
    reader.tokens.push(Token {
        kind: Kind::End,
        at: text.len(),
        origin: None,
    })?;
    Ok(reader.told())
}

/// The path of the first file that a text includes behind these definitions and that wasn't given yet.
pub fn wanted_by(
    alloc: Global,
    definitions: &[String],
    whole: &Whole,
) -> Result<Option<String>, AllocError> {
    match tokens_of(alloc, definitions, whole) {
        Err(ReadError::Wants(_, path)) => Ok(Some(path)),
        Err(ReadError::Memory) => Err(AllocError),
        _ => Ok(None),
    }
}

/// The line that a definition of a command line stands for.
fn line_of(alloc: Global, definition: &str) -> Result<Vec<u8>, AllocError> {
    let (name, value) = match definition.split_once('=') {
        Some(found) => found,
        None => (definition, "1"),
    };
    let mut line = Vec::new(alloc);
    for part in ["#define ", name, " ", value, "\n"] {
        line.extend_from_slice(part.as_bytes())?;
    }
    Ok(line)
}

/// What is defined before the text begins: of the compiler and of headers that are known.
const PREDEFINED: &str = "\
#define NULL ((void*)0)
#define RAND_MAX 2147483647
#define INT_MAX 2147483647
#define INT_MIN (-2147483647-1)
#define UINT_MAX 4294967295U
#define LONG_MAX 9223372036854775807L
#define LONG_MIN (-9223372036854775807L-1)
#define ULONG_MAX 18446744073709551615UL
#define CHAR_BIT 8
#define CHAR_MAX 127
#define SHRT_MAX 32767
#define LLONG_MAX 9223372036854775807LL
#define ULLONG_MAX 18446744073709551615ULL
#define UINT64_MAX 18446744073709551615UL
#define INT64_MAX 9223372036854775807L
#define INT64_MIN (-9223372036854775807L-1)
#define UINT32_MAX 4294967295U
#define INT32_MAX 2147483647
#define SIZE_MAX 18446744073709551615UL
#define EXIT_SUCCESS 0
#define EXIT_FAILURE 1
#define PRIu64 \"lu\"
#define PRId64 \"ld\"
#define PRIx64 \"lx\"
#define PRIu32 \"u\"
#define PRId32 \"d\"
#define UINT64_C(x) x##UL
#define INT64_C(x) x##L
#define bool _Bool
#define true 1
#define false 0
#define _OPENMP 202111
#define __STDC__ 1
#define __STDC_VERSION__ 201112L
#define DBL_MAX 1.7e308
#define DBL_MIN 2.2e-308
#define DBL_EPSILON 2.2e-16
#define FLT_MAX 3.4e38f
#define FLT_EPSILON 1.2e-7f
#define HUGE_VAL 1e999
#define INFINITY 1e999
#define stderr ((FILE*)1)
#define stdout ((FILE*)1)
#define stdin ((FILE*)1)
#define M_PI 3.14159265358979323846
#define CLOCK_REALTIME 0
#define CLOCK_MONOTONIC 1
#define CLOCKS_PER_SEC 1000000L
#define __func__ \"function\"
#define __FUNCTION__ \"function\"
#define __FILE__ \"file\"
#define __LINE__ 0
#define __restrict restrict
#define __restrict__ restrict
#define __inline inline
#define __inline__ inline
#define __volatile__ volatile
#define __const const
#define __extension__
#define __SIZE_TYPE__ unsigned long
#define __PTRDIFF_TYPE__ long
#define __INTPTR_TYPE__ long
#define __UINTPTR_TYPE__ unsigned long
#define __INT32_TYPE__ int
#define __UINT32_TYPE__ unsigned int
#define __INT64_TYPE__ long
#define __UINT64_TYPE__ unsigned long
#define __CHAR_BIT__ 8
#define __INT_MAX__ 2147483647
#define __LONG_MAX__ 9223372036854775807L
#define __x86_64__ 1
#define __linux__ 1
#define __unix__ 1
";
