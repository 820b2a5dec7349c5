//! Types of values.
use ot_exec_code::{Kind, Width};
use ot_exec_tree::{Integer, Type, Unit};

/// What pointers, if any, lead to.
#[derive(Clone, Copy, Debug, PartialEq, Eq)]
pub enum Base {
    Void,
    Integer(Integer),
    /// A floating type of so many bytes.
    Real(u32),
    /// A type of the unit, by its number.
    Of(u32),
}

/// A type: a base, behind so many pointers.
#[derive(Clone, Copy, Debug, PartialEq, Eq)]
pub struct Sort {
    pub stars: u32,
    pub base: Base,
}

/// Of which form a type is.
#[derive(Clone, Copy, Debug, PartialEq, Eq)]
pub enum Class {
    Void,
    Integer(Integer),
    Real(u32),
    Pointer,
    /// The type of this number has that many.
    Array(u32),
    /// By its number among the records.
    Record(u32),
    /// What it gives, by that type's number.
    Function(u32),
    Opaque,
}

impl Sort {
    pub const INT: Sort = Sort {
        stars: 0,
        base: Base::Integer(Integer::Int),
    };

    pub const VOID: Sort = Sort {
        stars: 0,
        base: Base::Void,
    };

    pub const DOUBLE: Sort = Sort {
        stars: 0,
        base: Base::Real(8),
    };

    pub const ANY_POINTER: Sort = Sort {
        stars: 1,
        base: Base::Void,
    };

    /// An integer type.
    pub fn integer(integer: Integer) -> Sort {
        Sort {
            stars: 0,
            base: Base::Integer(integer),
        }
    }

    /// The unit's type of this number.
    pub fn of(unit: &Unit, kind: u32) -> Sort {
        let base = match unit.types.get(kind as usize) {
            Some(Type::Void) => Base::Void,
            Some(Type::Integer(integer)) => Base::Integer(*integer),
            Some(Type::Real(bytes)) => Base::Real(*bytes),
            _ => Base::Of(kind),
        };
        Sort { stars: 0, base }
    }

    /// A pointer to it.
    pub fn pointer(self) -> Sort {
        Sort {
            stars: self.stars.saturating_add(1),
            base: self.base,
        }
    }

    /// Which class of type it is: what its values are, and what may be done with them.
    pub fn class(self, unit: &Unit) -> Class {
        if self.stars > 0 {
            return Class::Pointer;
        }
        match self.base {
            Base::Void => Class::Void,
            Base::Integer(integer) => Class::Integer(integer),
            Base::Real(bytes) => Class::Real(bytes),
            Base::Of(kind) => class_of(unit, kind),
        }
    }

    /// What a pointer leads to, or what an array has.
    pub fn target(self, unit: &Unit) -> Option<Sort> {
        if self.stars > 0 {
            return Some(Sort {
                stars: self.stars - 1,
                base: self.base,
            });
        }
        let Base::Of(kind) = self.base else {
            return None;
        };
        match unit.types.get(kind as usize) {
            Some(Type::Pointer(to)) => Some(Sort::of(unit, *to)),
            Some(Type::Array(element, _)) => Some(Sort::of(unit, *element)),
            _ => None,
        }
    }

    /// The type that a value of it has: of an array a pointer to its first element (ISO C11, section 6.3.2.1).
    pub fn decayed(self, unit: &Unit) -> Sort {
        match self.class(unit) {
            Class::Array(element) => Sort::of(unit, element).pointer(),
            Class::Function(_) => self.pointer(),
            _ => self,
        }
    }

    /// The number of its type in the unit, or of that to which it points, where it is one of the unit's own.
    pub fn kind(self, unit: &Unit) -> Option<u32> {
        let Base::Of(kind) = self.base else {
            return None;
        };
        match unit.types.get(kind as usize) {
            Some(Type::Pointer(to)) => Some(*to),
            _ => Some(kind),
        }
    }

    /// The number of its type in the unit, where it is one of the unit's own.
    pub fn own_kind(self) -> Option<u32> {
        match (self.stars, self.base) {
            (0, Base::Of(kind)) => Some(kind),
            _ => None,
        }
    }

    /// What a call of it gives, of a function or a pointer to one.
    pub fn given(self, unit: &Unit) -> Option<Sort> {
        match self.class(unit) {
            Class::Function(gives) => Some(Sort::of(unit, gives)),
            Class::Pointer => {
                let Some(target) = self.target(unit) else {
                    return None;
                };
                match target.class(unit) {
                    Class::Function(gives) => Some(Sort::of(unit, gives)),
                    _ => None,
                }
            }
            _ => None,
        }
    }
}

fn class_of(unit: &Unit, kind: u32) -> Class {
    match unit.types.get(kind as usize) {
        Some(Type::Void) => Class::Void,
        Some(Type::Integer(integer)) => Class::Integer(*integer),
        Some(Type::Real(bytes)) => Class::Real(*bytes),
        Some(Type::Pointer(_)) => Class::Pointer,
        Some(Type::Array(element, _)) => Class::Array(*element),
        Some(Type::Record(record)) => Class::Record(*record),
        Some(Type::Function(gives, _)) => Class::Function(*gives),
        Some(Type::Opaque) | None => Class::Opaque,
    }
}

/// How many bytes it has.
pub fn bytes(integer: Integer) -> u32 {
    match integer {
        Integer::Bool | Integer::Char | Integer::UnsignedChar => 1,
        Integer::Short | Integer::UnsignedShort => 2,
        Integer::Int | Integer::Unsigned => 4,
        Integer::Long | Integer::UnsignedLong => 8,
    }
}

/// The machine's type of it.
pub fn kind_of(integer: Integer) -> Kind {
    let (width, signed) = match integer {
        Integer::Bool | Integer::UnsignedChar => (Width::Bits8, false),
        Integer::Char => (Width::Bits8, true),
        Integer::Short => (Width::Bits16, true),
        Integer::UnsignedShort => (Width::Bits16, false),
        Integer::Int => (Width::Bits32, true),
        Integer::Unsigned => (Width::Bits32, false),
        Integer::Long => (Width::Bits64, true),
        Integer::UnsignedLong => (Width::Bits64, false),
    };
    Kind { width, signed }
}

/// Of an operand of arithmetic (ISO C11, section 6.3.1.1).
pub fn promoted(integer: Integer) -> Integer {
    match integer {
        Integer::Bool
        | Integer::Char
        | Integer::UnsignedChar
        | Integer::Short
        | Integer::UnsignedShort => Integer::Int,
        other => other,
    }
}

/// The type in which two operands meet (ISO C11, section 6.3.1.8).
pub fn usual(one: Integer, other: Integer) -> Integer {
    match (promoted(one), promoted(other)) {
        (Integer::UnsignedLong, _) | (_, Integer::UnsignedLong) => Integer::UnsignedLong,
        (Integer::Long, _) | (_, Integer::Long) => Integer::Long,
        (Integer::Unsigned, _) | (_, Integer::Unsigned) => Integer::Unsigned,
        _ => Integer::Int,
    }
}

/// Whether each number of the one is a number of the other.
pub fn fits(one: Integer, other: Integer) -> bool {
    let (narrow, wide) = (bytes(one), bytes(other));
    match other {
        Integer::Bool => matches!(one, Integer::Bool),
        _ => {
            let (from, to) = (kind_of(one).signed, kind_of(other).signed);
            from == to && narrow <= wide || !from && to && narrow < wide
        }
    }
}
