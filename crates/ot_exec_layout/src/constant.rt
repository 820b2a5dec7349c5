//! Constants.
use crate::sort::{fits, kind_of, promoted, usual};
use ot_exec_code::{Operation, operate};
use ot_exec_tree::{Binary, Integer, Sign};

/// A number of an integer type, as the machine keeps it.
#[derive(Clone, Copy, Debug, PartialEq, Eq)]
pub struct Constant {
    pub number: u64,
    pub integer: Integer,
}

impl Constant {
    pub const ONE: Constant = Constant {
        number: 1,
        integer: Integer::Int,
    };

    /// What a comparison gives: 1 or 0, of type `int` (ISO C11, section 6.5.8).
    pub fn int(value: bool) -> Constant {
        Constant {
            number: u64::from(value),
            integer: Integer::Int,
        }
    }

    /// What `sizeof` gives: a number of bytes, of type `size_t` (ISO C11, section 6.5.3.4).
    pub fn size(bytes: u64) -> Constant {
        Constant {
            number: bytes,
            integer: Integer::UnsignedLong,
        }
    }

    /// Converted to this type (ISO C11, section 6.3.1).
    pub fn to(self, integer: Integer) -> Constant {
        let number = match integer {
            Integer::Bool => u64::from(self.number != 0),
            _ if fits(self.integer, integer) => self.number,
            _ => kind_of(integer).narrow(self.number),
        };
        Constant { number, integer }
    }

    /// As a length or an index, where it isn't below 0.
    pub fn count(self) -> Option<u64> {
        if kind_of(self.integer).signed && self.number >= 1 << 63 {
            None
        } else {
            Some(self.number)
        }
    }
}

/// By which operation of the machine, and whether its operands change places, and whether what it gives is turned.
pub fn operation_of(sign: Binary) -> Option<(Operation, bool, bool)> {
    match sign {
        Binary::Add => Some((Operation::Add, false, false)),
        Binary::Subtract => Some((Operation::Subtract, false, false)),
        Binary::Multiply => Some((Operation::Multiply, false, false)),
        Binary::Divide => Some((Operation::Divide, false, false)),
        Binary::Remainder => Some((Operation::Remainder, false, false)),
        Binary::And => Some((Operation::And, false, false)),
        Binary::Or => Some((Operation::Or, false, false)),
        Binary::Xor => Some((Operation::Xor, false, false)),
        Binary::ShiftLeft => Some((Operation::ShiftLeft, false, false)),
        Binary::ShiftRight => Some((Operation::ShiftRight, false, false)),
        Binary::Less => Some((Operation::Less, false, false)),
        Binary::LessOrEqual => Some((Operation::LessOrEqual, false, false)),
        Binary::Greater => Some((Operation::Less, true, false)),
        Binary::GreaterOrEqual => Some((Operation::LessOrEqual, true, false)),
        Binary::Equal => Some((Operation::Equal, false, false)),
        Binary::NotEqual => Some((Operation::Equal, false, true)),
        Binary::Both | Binary::Either => None,
    }
}

/// Whether it gives 0 or 1.
pub fn compares(sign: Binary) -> bool {
    matches!(
        sign,
        Binary::Less
            | Binary::LessOrEqual
            | Binary::Greater
            | Binary::GreaterOrEqual
            | Binary::Equal
            | Binary::NotEqual
    )
}

/// The type in which an operation on two integers is done: that of shifts is the left one's.
pub fn meeting(sign: Binary, one: Integer, other: Integer) -> Integer {
    match sign {
        Binary::ShiftLeft | Binary::ShiftRight => promoted(one),
        _ => usual(one, other),
    }
}

/// An operation on two constants.
pub(crate) fn operated(sign: Binary, one: Constant, other: Constant) -> Option<Constant> {
    match sign {
        Binary::Both => return Some(Constant::int(one.number != 0 && other.number != 0)),
        Binary::Either => return Some(Constant::int(one.number != 0 || other.number != 0)),
        _ => {}
    }
    let Some((operation, swapped, turned)) = operation_of(sign) else {
        return None;
    };
    let integer = meeting(sign, one.integer, other.integer);
    let left = one.to(integer).number;
    let right = match sign {
        Binary::ShiftLeft | Binary::ShiftRight => other.number,
        _ => other.to(integer).number,
    };
    let (left, right) = if swapped {
        (right, left)
    } else {
        (left, right)
    };
    let Some(number) = operate(operation, kind_of(integer), left, right) else {
        return None;
    };
    if !compares(sign) {
        return Some(Constant { number, integer });
    }
    Some(Constant::int(if turned { number == 0 } else { number != 0 }))
}

/// A sign before a constant.
pub(crate) fn signed(sign: Sign, one: Constant) -> Option<Constant> {
    let integer = promoted(one.integer);
    let zero = Constant { number: 0, integer };
    match sign {
        Sign::Plus => Some(one.to(integer)),
        Sign::Minus => operated(Binary::Subtract, zero, one),
        Sign::Complement => {
            let all = kind_of(integer).narrow(u64::MAX);
            let number = one.to(integer).number ^ all;
            Some(Constant { number, integer })
        }
        Sign::Not => Some(Constant::int(one.number == 0)),
        Sign::Address | Sign::Follow => None,
    }
}
