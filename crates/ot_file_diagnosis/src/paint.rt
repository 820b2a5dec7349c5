//! Colours of a terminal.

/// Whether words have colours.
#[derive(Clone, Copy, Debug, PartialEq, Eq)]
pub enum Paint {
    /// They have none.
    Plain,
    /// They have the colours of a terminal.
    Coloured,
}
