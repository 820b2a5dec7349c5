//! The page of a code.
use crate::page::page_of;
use crate::sentences::sentence_of;
use std::alloc::{AllocError, Global};

/// What is told of a code: its sentence, and a small example, a line and its reply. It is None for a number that
/// is no code.
pub fn code_page(alloc: Global, code: u32) -> Result<Option<String>, AllocError> {
    match page_of(code) {
        None => Ok(None),
        Some(page) => {
            let text = format!(in alloc;
                "{code}: {}\n{}\n{}\n{}\n",
                sentence_of(code),
                page.before,
                page.line,
                page.reply
            )?;
            Ok(Some(text))
        }
    }
}
