//! Pointers that are cast from a scalar of one size to one of another: cells are scalars, and such a pointer would count others.
use ot_exec_tokens::{Kind, Mark, Token, word};
use ot_exec_tree::{Integer, Type, Unit};
use std::alloc::{AllocError, Global};
use std::collections::BTreeMap;

/// How many words a scalar's type has at most, and how deep a variable's type is looked into.
const WORDS: usize = 6;

const DEEPEST: usize = 16;

/// By the name of variables the bytes of the smallest and of the greatest scalars that one of them has, or points to.
type Sizes = BTreeMap<u32, (u32, u32)>;

/// The token of the first such cast of a variable that stands in the text by itself.
pub(crate) fn apart_cast(
    alloc: Global,
    tokens: &[Token],
    unit: &Unit,
) -> Result<Option<u32>, AllocError> {
    let sizes = sizes_of(alloc, unit)?;
    for (at, token) in tokens.iter().enumerate() {
        if token.kind != Kind::Mark(Mark::Open) {
            continue;
        }
        if let Some(cast) = cast_at(tokens, at)
            && is_apart(tokens, &sizes, cast)
        {
            return Ok(u32::try_from(at).ok());
        }
    }
    Ok(None)
}

fn sizes_of(alloc: Global, unit: &Unit) -> Result<Sizes, AllocError> {
    let mut sizes = BTreeMap::new(alloc);
    for variable in &unit.variables {
        if let Some(bytes) = scalar_of(unit, variable.kind) {
            let (least, most) = match sizes.get(&variable.name) {
                Some((least, most)) => (*least, *most),
                None => (bytes, bytes),
            };
            let _ = sizes.insert(variable.name, (bytes.min(least), bytes.max(most)))?;
        }
    }
    Ok(sizes)
}

/// A cast: the bytes of what is pointed to, and the token behind it.
#[derive(Clone, Copy)]
struct Cast {
    bytes: u32,
    behind: usize,
}

/// A cast to a pointer to a scalar that begins at a token: the words of the type, `*` and `)`.
fn cast_at(tokens: &[Token], at: usize) -> Option<Cast> {
    let mut bytes = None;
    let mut at = at.saturating_add(1);
    for _ in 0..WORDS {
        let Kind::Name(name) = tokens.get(at)?.kind else {
            break;
        };
        bytes = Some(with_word(bytes, name)?);
        at = at.saturating_add(1);
    }
    let bytes = bytes??;
    let close = at.saturating_add(1);
    if tokens.get(at)?.kind != Kind::Mark(Mark::Star)
        || tokens.get(close)?.kind != Kind::Mark(Mark::Close)
    {
        return None;
    }
    Some(Cast {
        bytes,
        behind: close.saturating_add(1),
    })
}

/// The bytes of a type with one more word, none where they aren't known yet; none at all of a word that is no such type's.
fn with_word(bytes: Option<Option<u32>>, name: u32) -> Option<Option<u32>> {
    let before = bytes.flatten();
    match name {
        word::CONST | word::VOLATILE => Some(before),
        word::CHAR | word::BOOL => Some(Some(1)),
        word::SHORT => Some(Some(2)),
        word::INT | word::UNSIGNED | word::SIGNED => Some(before.or(Some(4))),
        word::FLOAT => Some(Some(4)),
        word::LONG | word::DOUBLE => Some(Some(8)),
        _ => None,
    }
}

/// Whether what is cast is a variable of scalars of another size, or its address.
fn is_apart(tokens: &[Token], sizes: &Sizes, cast: Cast) -> bool {
    let mut at = cast.behind;
    for _ in 0..WORDS {
        match tokens.get(at) {
            Some(token) if is_before_operand(token.kind) => at = at.saturating_add(1),
            _ => break,
        }
    }
    let Some(token) = tokens.get(at) else {
        return false;
    };
    let Kind::Name(name) = token.kind else {
        return false;
    };
    match sizes.get(&name) {
        Some((least, most)) => *least != cast.bytes || *most != cast.bytes,
        None => false,
    }
}

fn is_before_operand(kind: Kind) -> bool {
    matches!(kind, Kind::Mark(Mark::Open | Mark::And))
}

/// The bytes of the scalars that a variable of this type has, or points to.
fn scalar_of(unit: &Unit, kind: u32) -> Option<u32> {
    let mut kind = kind;
    for _ in 0..DEEPEST {
        match unit.types.get(kind as usize)? {
            Type::Pointer(of) | Type::Array(of, _) => kind = *of,
            Type::Integer(Integer::Bool | Integer::Char | Integer::UnsignedChar) => return Some(1),
            Type::Integer(Integer::Short | Integer::UnsignedShort) => return Some(2),
            Type::Integer(Integer::Int | Integer::Unsigned) => return Some(4),
            Type::Integer(Integer::Long | Integer::UnsignedLong) => return Some(8),
            Type::Real(bytes) => return Some(*bytes),
            _ => return None,
        }
    }
    None
}
