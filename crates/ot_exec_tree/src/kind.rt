//! Types.
use crate::expr::Expr;

/// An integer type of C (ISO C11, section 6.2.5), as x86-64 has it: its bytes and whether it has a sign. `_Bool` is one of one byte.
#[derive(Clone, Copy, Debug, PartialEq, Eq)]
pub enum Integer {
    Bool,
    Char,
    UnsignedChar,
    Short,
    UnsignedShort,
    Int,
    Unsigned,
    Long,
    UnsignedLong,
}

/// How many elements an array has.
#[derive(Drop)]
pub enum Length {
    /// As many as its initial values, or whoever calls.
    Open,
    By(Expr),
}

/// A type, which names others by their numbers in the unit.
#[derive(Drop)]
pub enum Type {
    Void,
    Integer(Integer),
    /// A floating type of so many bytes.
    Real(u32),
    Pointer(u32),
    Array(u32, Length),
    /// A struct or a union, by its number among the records.
    Record(u32),
    /// What it gives, and its parameters' types.
    Function(u32, Vec<u32>),
    /// A type of the library of which nothing is known, as `FILE`.
    Opaque,
}

/// A member, with its name and its type.
#[derive(Clone, Copy, Debug, PartialEq, Eq)]
pub struct Member {
    /// None where it is an unnamed struct or union, whose members are those of the outer one.
    pub name: Option<u32>,
    pub kind: u32,
}

/// A struct, or a union.
#[derive(Drop)]
pub struct Record {
    /// Its tag, if it has one.
    pub name: Option<u32>,
    pub is_union: bool,
    /// None as long as they aren't declared.
    pub members: Option<Vec<Member>>,
}
