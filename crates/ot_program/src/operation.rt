ghost use Rattle.std.specs.Prelude.{◌≡◌};
ghost use Rattle.serde_json.specs.View.{view};
ghost use Rattle.ot_program.specs.Meanings.{fold_of};

use ot_model::Fold;
use serde_json::Value;

/// An operation of folds and reductions.
pub(crate) fn read_operation(tag: &Value) -> Option<Fold>
    ensures { result ≡ fold_of (view tag.now) }
{
    match tag {
        Value::String(text) => Fold::of_identifier(text.as_str()),
        _ => None,
    }
}
