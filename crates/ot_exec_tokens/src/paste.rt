//! Tokens that become one, or a string.
use crate::reader::Reader;
use ot_exec_lexemes::{
    Mark, Raw, RawKind, ReadError, is_name_start, mark_of, name_of, quoted, spelling,
};
use std::alloc::AllocError;

fn is_paste(raw: Option<&Raw>) -> bool {
    match raw {
        Some(raw) => raw.kind == RawKind::Mark(Mark::Paste),
        None => false,
    }
}

impl Reader<'_> {
    /// The tokens, where those around each `##` are one (ISO C11, section 6.10.3.3). A comma before nothing goes.
    pub(crate) fn pasted(&mut self, raws: Vec<Raw>) -> Result<Vec<Raw>, ReadError> {
        if !raws
            .iter()
            .any(|raw| raw.kind == RawKind::Mark(Mark::Paste))
        {
            return Ok(raws);
        }
        let mut made: Vec<Raw> = Vec::new(self.alloc);
        let mut next = 0;
        for number in 0..raws.len() {
            if number < next {
                continue;
            }
            if !is_paste(raws.get(number)) {
                made.push(raws[number])?;
                continue;
            }
            let behind = raws.get(number.saturating_add(1)).copied();
            next = number.saturating_add(2);
            self.paste_last(&mut made, behind)?;
        }
        Ok(made)
    }

    /// Makes one token of the last one and this.
    fn paste_last(&mut self, made: &mut Vec<Raw>, behind: Option<Raw>) -> Result<(), ReadError> {
        let Some(before) = made.pop() else {
            if let Some(raw) = behind {
                made.push(raw)?;
            }
            return Ok(());
        };
        match behind {
            None if before.kind == RawKind::Mark(Mark::Comma) => {}
            None => made.push(before)?,
            Some(raw) if before.kind == RawKind::Mark(Mark::Comma) => {
                made.push(before)?;
                made.push(raw)?;
            }
            Some(raw) => made.push(self.joined(&before, &raw)?)?,
        }
        Ok(())
    }

    fn joined(&mut self, one: &Raw, other: &Raw) -> Result<Raw, AllocError> {
        let mut text = spelling(one, &self.names, &self.spelled).to_vec(self.alloc)?;
        text.extend_from_slice(spelling(other, &self.names, &self.spelled))?;
        let kind = match text.first() {
            Some(byte) if is_name_start(*byte) => {
                RawKind::Name(name_of(self.alloc, &text, &mut self.names)?)
            }
            Some(byte) if byte.is_ascii_digit() => RawKind::Number,
            _ => match mark_of(&text) {
                Some((mark, len)) if len == text.len() => RawKind::Mark(mark),
                _ => RawKind::Other,
            },
        };
        self.spelled_as(&text, kind, one)
    }

    /// A token that is spelled so, where this one stands.
    fn spelled_as(&mut self, text: &[u8], kind: RawKind, of: &Raw) -> Result<Raw, AllocError> {
        let from = self.spelled.len();
        self.spelled.extend_from_slice(text)?;
        Ok(Raw {
            kind,
            from,
            len: text.len(),
            ..*of
        })
    }

    /// The string that these tokens are.
    pub(crate) fn text_of(&mut self, raws: &[Raw], of: &Raw) -> Result<Raw, AllocError> {
        let text = quoted(self.alloc, raws, &self.names, &self.spelled)?;
        self.spelled_as(&text, RawKind::Text, of)
    }
}
