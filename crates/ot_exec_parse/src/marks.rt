//! Marks between operands, and how tightly they bind (ISO C11, sections 6.5.5 to 6.5.16).
use ot_exec_tokens::Mark;
use ot_exec_tree::{Binary, Sign};

/// What a mark between two operands does, and how tightly it binds, from 1.
pub(crate) fn binary(mark: Mark) -> Option<(Binary, u32)> {
    match mark {
        Mark::Either => Some((Binary::Either, 1)),
        Mark::Both => Some((Binary::Both, 2)),
        Mark::Or => Some((Binary::Or, 3)),
        Mark::Xor => Some((Binary::Xor, 4)),
        Mark::And => Some((Binary::And, 5)),
        Mark::Equal => Some((Binary::Equal, 6)),
        Mark::NotEqual => Some((Binary::NotEqual, 6)),
        Mark::Less => Some((Binary::Less, 7)),
        Mark::Greater => Some((Binary::Greater, 7)),
        Mark::LessOrEqual => Some((Binary::LessOrEqual, 7)),
        Mark::GreaterOrEqual => Some((Binary::GreaterOrEqual, 7)),
        Mark::ShiftLeft => Some((Binary::ShiftLeft, 8)),
        Mark::ShiftRight => Some((Binary::ShiftRight, 8)),
        Mark::Plus => Some((Binary::Add, 9)),
        Mark::Minus => Some((Binary::Subtract, 9)),
        Mark::Star => Some((Binary::Multiply, 10)),
        Mark::Slash => Some((Binary::Divide, 10)),
        Mark::Percent => Some((Binary::Remainder, 10)),
        _ => None,
    }
}

/// What an assignment does with what stands there: nothing for `=`. None where it is no assignment.
pub(crate) fn assignment(mark: Mark) -> Option<Option<Binary>> {
    match mark {
        Mark::Assign => Some(None),
        Mark::AssignTimes => Some(Some(Binary::Multiply)),
        Mark::AssignOver => Some(Some(Binary::Divide)),
        Mark::AssignRemainder => Some(Some(Binary::Remainder)),
        Mark::AssignPlus => Some(Some(Binary::Add)),
        Mark::AssignMinus => Some(Some(Binary::Subtract)),
        Mark::AssignLeft => Some(Some(Binary::ShiftLeft)),
        Mark::AssignRight => Some(Some(Binary::ShiftRight)),
        Mark::AssignAnd => Some(Some(Binary::And)),
        Mark::AssignXor => Some(Some(Binary::Xor)),
        Mark::AssignOr => Some(Some(Binary::Or)),
        _ => None,
    }
}

/// What a mark before an operand does.
pub(crate) fn sign(mark: Mark) -> Option<Sign> {
    match mark {
        Mark::Plus => Some(Sign::Plus),
        Mark::Minus => Some(Sign::Minus),
        Mark::Complement => Some(Sign::Complement),
        Mark::Not => Some(Sign::Not),
        Mark::And => Some(Sign::Address),
        Mark::Star => Some(Sign::Follow),
        _ => None,
    }
}
