//! Marks: what stands between names and numbers (C17, section 6.4.6).
ghost use Rattle.std.specs.Prelude.{◌≡◌, ◌<◌, ◌≤◌, length, IfSome};
ghost use Rattle.ot_c_words.specs.Marks.{mark_at as longest};

use crate::table::begin;

#[derive(Clone, Copy, Debug, PartialEq, Eq)]
pub enum Mark {
    ShiftLeftAssign,
    ShiftRightAssign,
    AddAssign,
    SubtractAssign,
    MultiplyAssign,
    DivideAssign,
    RestAssign,
    AndAssign,
    OrAssign,
    XorAssign,
    Increment,
    Decrement,
    ShiftLeft,
    ShiftRight,
    Equal,
    Unequal,
    AtMost,
    AtLeast,
    Both,
    Either,
    Arrow,
    Open,
    Close,
    OpenIndex,
    CloseIndex,
    OpenBlock,
    CloseBlock,
    Semicolon,
    Comma,
    Colon,
    Question,
    Plus,
    Minus,
    Times,
    Over,
    Rest,
    And,
    Or,
    Xor,
    Not,
    Invert,
    Less,
    More,
    Assign,
}

/// Longer ones before those that begin them.
const MARKS: [(&str, Mark); 44] = [
    ("<<=", Mark::ShiftLeftAssign),
    (">>=", Mark::ShiftRightAssign),
    ("+=", Mark::AddAssign),
    ("-=", Mark::SubtractAssign),
    ("*=", Mark::MultiplyAssign),
    ("/=", Mark::DivideAssign),
    ("%=", Mark::RestAssign),
    ("&=", Mark::AndAssign),
    ("|=", Mark::OrAssign),
    ("^=", Mark::XorAssign),
    ("++", Mark::Increment),
    ("--", Mark::Decrement),
    ("<<", Mark::ShiftLeft),
    (">>", Mark::ShiftRight),
    ("==", Mark::Equal),
    ("!=", Mark::Unequal),
    ("<=", Mark::AtMost),
    (">=", Mark::AtLeast),
    ("&&", Mark::Both),
    ("||", Mark::Either),
    ("->", Mark::Arrow),
    ("(", Mark::Open),
    (")", Mark::Close),
    ("[", Mark::OpenIndex),
    ("]", Mark::CloseIndex),
    ("{", Mark::OpenBlock),
    ("}", Mark::CloseBlock),
    (";", Mark::Semicolon),
    (",", Mark::Comma),
    (":", Mark::Colon),
    ("?", Mark::Question),
    ("+", Mark::Plus),
    ("-", Mark::Minus),
    ("*", Mark::Times),
    ("/", Mark::Over),
    ("%", Mark::Rest),
    ("&", Mark::And),
    ("|", Mark::Or),
    ("^", Mark::Xor),
    ("!", Mark::Not),
    ("~", Mark::Invert),
    ("<", Mark::Less),
    (">", Mark::More),
    ("=", Mark::Assign),
];

/// The mark at the front, and how many bytes it has.
pub(crate) fn mark_at(bytes: &[u8]) -> Option<(Mark, usize)>
    ensures value { result ≡ longest bytes.now }
    ensures within { IfSome result (λ x. (0 < x.1) × (x.1 ≤ length bytes.now)) }
{
    begin(&MARKS, bytes)
}
