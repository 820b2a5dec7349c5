//! What is read and would be executed, and where a verdict could be wrong.
use crate::cast::apart_cast;
use crate::reading::byte_of;
use ot_exec_tokens::Token;
use ot_exec_tree::Unit;
use std::alloc::{AllocError, Global};

/// The first thing of a text that isn't executed yet: its byte, and why.
pub(crate) fn beyond(
    alloc: Global,
    tokens: &[Token],
    unit: &Unit,
) -> Result<Option<(usize, &'static str)>, AllocError> {
    if let Some(at) = apart_cast(alloc, tokens, unit)? {
        let words = "a pointer that is cast to a type of another size isn't executed yet";
        return Ok(Some((byte_of(tokens, at), words)));
    }
    Ok(None)
}
