ghost use Rattle.std.specs.Prelude.{◌≡◌};
ghost use Rattle.serde_json.specs.View.{number_view};
ghost use Rattle.ot_program.specs.Meanings.{whole_number};

use serde_json::Number;

/// A whole number from 0 to 2^64 - 1.
pub(crate) fn whole_number(number: &Number) -> Option<u64>
    ensures { result ≡ whole_number (number_view number.now) }
{
    number.as_u64()
}
