ghost use Rattle.std.specs.Prelude.{◌≡◌, ◌&&◌};
ghost use Rattle.serde_json.specs.View.{view};
ghost use Rattle.ot_program.specs.Meanings.{profile_of, is_one, is_two, is_word};

use crate::name::is_word;
use serde_json::Value;

/// Which forms a program has. Most are those of both profiles.
#[derive(Clone, Copy, Debug, PartialEq, Eq)]
pub enum Profile {
    /// Those of `["program", shows, body]`: all that folds, folds by `+`.
    One,
    /// Those of `["program2", shows, body]`: folds, groups and `red` have an operation.
    Two,
}

impl Profile {
    /// Whether a value is a word that profile 1 alone has for its form, in that profile.
    pub fn one_has(self, value: &Value, word: &str) -> bool
        ensures { result ≡ is_one self && is_word (view value.now) word.now }
    {
        matches!(self, Profile::One) && is_word(value, word)
    }

    /// The same of profile 2.
    pub fn two_has(self, value: &Value, word: &str) -> bool
        ensures { result ≡ is_two self && is_word (view value.now) word.now }
    {
        matches!(self, Profile::Two) && is_word(value, word)
    }
}

/// The profile that a program's first word names.
pub fn read_profile(tag: &Value) -> Option<Profile>
    ensures { result ≡ profile_of (view tag.now) }
{
    if is_word(tag, "program") {
        return Some(Profile::One);
    }
    if is_word(tag, "program2") {
        return Some(Profile::Two);
    }
    None
}
