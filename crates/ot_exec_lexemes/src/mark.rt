//! Marks.

/// A mark of C (ISO C11, section 6.4.6).
#[derive(Clone, Copy, Debug, PartialEq, Eq)]
pub enum Mark {
    Open,
    Close,
    OpenIndex,
    CloseIndex,
    OpenBlock,
    CloseBlock,
    Dot,
    Arrow,
    Increase,
    Decrease,
    And,
    Star,
    Plus,
    Minus,
    Complement,
    Not,
    Slash,
    Percent,
    ShiftLeft,
    ShiftRight,
    Less,
    Greater,
    LessOrEqual,
    GreaterOrEqual,
    Equal,
    NotEqual,
    Xor,
    Or,
    Both,
    Either,
    Question,
    Colon,
    Semicolon,
    Dots,
    Assign,
    AssignTimes,
    AssignOver,
    AssignRemainder,
    AssignPlus,
    AssignMinus,
    AssignLeft,
    AssignRight,
    AssignAnd,
    AssignXor,
    AssignOr,
    Comma,
    Hash,
    Paste,
}

/// How marks are spelled: longer ones come first.
const MARKS: [(&str, Mark); 48] = [
    ("...", Mark::Dots),
    ("<<=", Mark::AssignLeft),
    (">>=", Mark::AssignRight),
    ("->", Mark::Arrow),
    ("++", Mark::Increase),
    ("--", Mark::Decrease),
    ("<<", Mark::ShiftLeft),
    (">>", Mark::ShiftRight),
    ("<=", Mark::LessOrEqual),
    (">=", Mark::GreaterOrEqual),
    ("==", Mark::Equal),
    ("!=", Mark::NotEqual),
    ("&&", Mark::Both),
    ("||", Mark::Either),
    ("*=", Mark::AssignTimes),
    ("/=", Mark::AssignOver),
    ("%=", Mark::AssignRemainder),
    ("+=", Mark::AssignPlus),
    ("-=", Mark::AssignMinus),
    ("&=", Mark::AssignAnd),
    ("^=", Mark::AssignXor),
    ("|=", Mark::AssignOr),
    ("##", Mark::Paste),
    ("(", Mark::Open),
    (")", Mark::Close),
    ("[", Mark::OpenIndex),
    ("]", Mark::CloseIndex),
    ("{", Mark::OpenBlock),
    ("}", Mark::CloseBlock),
    (".", Mark::Dot),
    ("&", Mark::And),
    ("*", Mark::Star),
    ("+", Mark::Plus),
    ("-", Mark::Minus),
    ("~", Mark::Complement),
    ("!", Mark::Not),
    ("/", Mark::Slash),
    ("%", Mark::Percent),
    ("<", Mark::Less),
    (">", Mark::Greater),
    ("^", Mark::Xor),
    ("|", Mark::Or),
    ("?", Mark::Question),
    (":", Mark::Colon),
    (";", Mark::Semicolon),
    ("=", Mark::Assign),
    (",", Mark::Comma),
    ("#", Mark::Hash),
];

/// The longest mark with which these bytes begin, and how many bytes it has.
pub fn mark_of(bytes: &[u8]) -> Option<(Mark, usize)> {
    begin(&MARKS, bytes)
}

/// How a mark is spelled.
pub(crate) fn text_of(mark: Mark) -> &'static str {
    spelled(&MARKS, mark)
}

fn begin(table: &[(&str, Mark)], bytes: &[u8]) -> Option<(Mark, usize)> {
    for (text, mark) in table {
        if bytes.starts_with(text.as_bytes()) {
            return Some((*mark, text.len()));
        }
    }
    None
}

fn spelled(table: &[(&'static str, Mark)], mark: Mark) -> &'static str {
    for (text, other) in table {
        if *other == mark {
            return text;
        }
    }
    ""
}
