//! The tests of `#if` (ISO C11, section 6.10.1), on 64 bits. A name that is no macro is 0.
use crate::value::{Value, joined, signed};
use ot_exec_lexemes::{
    Kind, Mark, Names, Raw, RawKind, character_of, is_unsigned, number_of, spelling,
};

/// A test, and how its tokens are spelled.
#[derive(Clone, Copy)]
pub(crate) struct Test<'a> {
    pub raws: &'a [Raw],
    pub names: &'a Names,
    pub spelled: &'a [u8],
}

/// How deep tests nest.
const MAX_DEPTH: u32 = 200;

/// How tightly marks bind between values.
fn binds(mark: Mark) -> u32 {
    match mark {
        Mark::Either => 1,
        Mark::Both => 2,
        Mark::Or => 3,
        Mark::Xor => 4,
        Mark::And => 5,
        Mark::Equal | Mark::NotEqual => 6,
        Mark::Less | Mark::Greater | Mark::LessOrEqual | Mark::GreaterOrEqual => 7,
        Mark::ShiftLeft | Mark::ShiftRight => 8,
        Mark::Plus | Mark::Minus => 9,
        Mark::Star | Mark::Slash | Mark::Percent => 10,
        _ => 0,
    }
}

impl Test<'_> {
    /// Whether the test holds, where it is one that is read, to its end.
    pub(crate) fn holds(&self) -> Option<bool> {
        let (value, end) = self.choice(0, MAX_DEPTH)?;
        if end == self.raws.len() {
            Some(value.holds())
        } else {
            None
        }
    }

    fn mark(&self, at: usize) -> Option<Mark> {
        match self.raws.get(at)?.kind {
            RawKind::Mark(mark) => Some(mark),
            _ => None,
        }
    }

    /// The value that begins there, and where it ends. The two between which a question chooses meet in a type.
    #[cycle(choice)]
    fn choice(&self, at: usize, depth: u32) -> Option<(Value, usize)> {
        if depth == 0 {
            return None;
        }
        let (test, end) = self.value(at, 1, depth - 1)?;
        if self.mark(end) != Some(Mark::Question) {
            return Some((test, end));
        }
        let (one, end) = self.choice(end.checked_add(1)?, depth - 1)?;
        if self.mark(end) != Some(Mark::Colon) {
            return None;
        }
        let (other, end) = self.choice(end.checked_add(1)?, depth - 1)?;
        let chosen = if test.holds() {
            one.beside(other)
        } else {
            other.beside(one)
        };
        Some((chosen, end))
    }

    /// One whose marks bind at least so tightly.
    #[cycle(choice)]
    fn value(&self, at: usize, least: u32, depth: u32) -> Option<(Value, usize)> {
        if depth == 0 {
            return None;
        }
        let (mut value, mut end) = self.operand(at, depth - 1)?;
        for _ in 0..self.raws.len() {
            let Some(mark) = self.mark(end) else {
                return Some((value, end));
            };
            let tightly = binds(mark);
            if tightly < least || tightly == 0 {
                return Some((value, end));
            }
            let (right, behind) = self.value(
                end.checked_add(1)?,
                tightly.checked_add(1)?,
                depth - 1,
            )?;
            value = joined(mark, value, right)?;
            end = behind;
        }
        Some((value, end))
    }

    #[cycle(choice)]
    fn operand(&self, at: usize, depth: u32) -> Option<(Value, usize)> {
        if depth == 0 {
            return None;
        }
        let raw = self.raws.get(at)?;
        let next = at.checked_add(1)?;
        match raw.kind {
            RawKind::Name(_) => Some((Value::told(false), next)),
            RawKind::Number | RawKind::Letter => Some((self.number(raw)?, next)),
            RawKind::Mark(Mark::Open) => {
                let (value, end) = self.choice(next, depth - 1)?;
                if self.mark(end) == Some(Mark::Close) {
                    Some((value, end.checked_add(1)?))
                } else {
                    None
                }
            }
            RawKind::Mark(mark) => {
                let (value, end) = self.operand(next, depth - 1)?;
                Some((signed(mark, value)?, end))
            }
            _ => None,
        }
    }

    fn number(&self, raw: &Raw) -> Option<Value> {
        let text = spelling(raw, self.names, self.spelled);
        let is_letter = matches!(raw.kind, RawKind::Letter);
        let kind = if is_letter {
            character_of(text)?
        } else {
            number_of(text)?
        };
        match kind {
            Kind::Number(bits, _) => Some(Value {
                bits,
                is_unsigned: !is_letter && is_unsigned(text, bits),
            }),
            _ => None,
        }
    }
}
