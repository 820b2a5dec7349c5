//! Texts, each with what it stands for.
ghost use Rattle.std.specs.Prelude.{◌≡◌, ◌≤◌, map, length, IfSome};
ghost use Rattle.ot_c_words.specs.Tables.{looked_up, table_entry};

/// What a text stands for.
pub(crate) fn look_up<X: Copy>(table: &[(&str, X)], text: &[u8]) -> Option<X>
    ensures { result ≡ looked_up (map (λ e. (e.0.now, e.1)) table.now) text.now }
{
    for (word, meaning) in table {
        if word.as_bytes() == text {
            return Some(*meaning);
        }
    }
    None
}

/// The first that begins the bytes, and how many it has.
pub(crate) fn begin<X: Copy>(table: &[(&str, X)], bytes: &[u8]) -> Option<(X, usize)>
    ensures value { result ≡ table_entry (map (λ e. (e.0.now, e.1)) table.now) bytes.now }
    ensures within { IfSome result (λ x. x.1 ≤ length bytes.now) }
{
    for (word, meaning) in table {
        if bytes.starts_with(word.as_bytes()) {
            return Some((*meaning, word.len()));
        }
    }
    None
}
