//! A note behind a refusal.

/// A note: at the statement of this number, or where the request is refused, and its words.
#[derive(Drop)]
pub(crate) struct Note {
    pub(crate) number: Option<u32>,
    pub(crate) words: String,
}
