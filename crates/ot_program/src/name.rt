ghost use Rattle.std.specs.Prelude.{◌≡◌};
ghost use Rattle.std.specs.List.{list_all};
ghost use Rattle.serde_json.specs.View.{view};
ghost use Rattle.ot_program.specs.Meanings.{is_name, is_name_byte, is_letter, is_word};

use serde_json::Value;

const MAX_NAME: usize = 16;

/// Whether a text is a name of an array or a variable: 1 to 16 bytes, a letter a to z, then letters
/// a to z, digits and `_`.
pub fn is_name(text: &str) -> bool
    ensures { result ≡ is_name text.now }
{
    let bytes = text.as_bytes();
    !bytes.is_empty() && bytes.len() <= MAX_NAME && is_letter(bytes[0]) && are_name_bytes(bytes)
}

fn are_name_bytes(bytes: &[u8]) -> bool
    ensures { result ≡ list_all is_name_byte bytes.now }
{
    bytes.iter().all(|byte| is_name_byte(*byte))
}

fn is_name_byte(byte: u8) -> bool
    ensures { result ≡ is_name_byte byte }
{
    is_letter(byte) || byte.is_ascii_digit() || byte == b'_'
}

fn is_letter(byte: u8) -> bool
    ensures { result ≡ is_letter byte }
{
    byte.is_ascii_lowercase()
}

/// Whether a value is the string `word`.
pub fn is_word(value: &Value, word: &str) -> bool
    ensures { result ≡ is_word (view value.now) word.now }
{
    match value {
        Value::String(text) => text.as_str() == word,
        _ => false,
    }
}
