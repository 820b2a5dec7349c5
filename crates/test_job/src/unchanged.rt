//! What is printed of a job, without the tables that are kept beside its tasks.

/// What a table begins with, or a list that is kept to work with, or the copies of a row that has not begun. A call
/// that is refused may have left lines in a table of cells or groups that nobody uses, in a list what it had looked
/// up, and in such a row room for its copies.
const TABLES: [&str; 5] = [
    ": Table {",
    ": Groups {",
    "spots: [",
    "earlier: [",
    "begun: false, copies: [",
];

/// Whether two jobs are printed alike, but for their tables.
pub(crate) fn are_alike(one: &str, other: &str) -> bool {
    let (mut one, mut other) = (one, other);
    for _ in 0..10_000_u32 {
        let (front, rest) = to_table(one);
        let (other_front, other_rest) = to_table(other);
        if front != other_front {
            return false;
        }
        if rest.is_empty() && other_rest.is_empty() {
            return true;
        }
        (one, other) = (rest, other_rest);
    }
    false
}

/// What stands before the first table, and what stands behind it.
fn to_table(text: &str) -> (&str, &str) {
    let mut first = text.len();
    for table in TABLES {
        first = first.min(text.find(table).unwrap_or(first));
    }
    match text.split_at_checked(first) {
        Some((front, table)) => (front, behind(table)),
        None => (text, ""),
    }
}

/// What stands behind the first brackets.
fn behind(text: &str) -> &str {
    let mut open = 0u32;
    for (at, byte) in text.bytes().enumerate() {
        match byte {
            b'{' | b'[' | b'(' => open = open.saturating_add(1),
            b'}' | b']' | b')' => {
                open = open.saturating_sub(1);
                if open == 0 {
                    return text.get(at.saturating_add(1)..).unwrap_or("");
                }
            }
            _ => {}
        }
    }
    ""
}
