//! The forms of statements.
ghost use Rattle.std.specs.Prelude.{◌≡◌, ◌≤◌, ◌&&◌, max, Some, None, MatchOption};
ghost use Rattle.serde_json.specs.Data.{array, depth, items_depth};
ghost use Rattle.serde_json.specs.View.{view, items_view};
ghost use Rattle.ot_program.specs.declared.profile.Profile.{Profile as Defined};
ghost use Rattle.ot_why_place.specs.Texts.{text_by, body_depth, text_at, of_one, of_two, of_three, of_four, of_five};

use ot_program::{Profile, is_word};
use serde_json::Value;

/// The parts of a statement behind its word.
#[derive(Clone, Copy, Debug)]
pub enum Text<'a> {
    Set(&'a Value, &'a Value),
    Add(&'a Value, &'a Value),
    Fold(&'a Value, &'a Value, &'a Value),
    If(&'a Value, &'a Value, &'a Value),
    For(&'a Value, &'a Value, &'a Value, &'a Value),
    /// One turn of a loop.
    Turn,
    Task(&'a Value, &'a Value),
    Wait,
    WaitFor(&'a Value),
    Group(&'a Value, &'a Value),
    GroupBy(&'a Value, &'a Value, &'a Value),
    /// A program with its shows, before its body.
    Program(&'a Value, &'a Value),
    /// What is of no form.
    None,
}

/// The form of a statement.
#[tactic(auto, using(crate::proofs::CopyLemmas::no_text))]
pub fn text_of<'a>(profile: Profile, statement: &'a Value) -> Text<'a>
    ensures is { text_by profile result ≡ text_at profile (view statement.now) }
    ensures shallow { body_depth result ≤ depth (view statement.now) }
{
    match statement {
        Value::Array(items) => text_of_items(profile, items),
        _ => Text::None,
    }
}

#[tactic(auto, using(crate::proofs::CopyLemmas::texts))]
fn text_of_items<'a>(profile: Profile, items: &'a [Value]) -> Text<'a>
    ensures is { text_by profile result ≡ text_at profile (array (items_view items.now)) }
    ensures shallow { body_depth result ≤ items_depth (items_view items.now) }
{
    if items.is_empty() || items.len() > 5 {
        return Text::None;
    }
    match items {
        [tag] => of_one(tag),
        [tag, one] => of_two(profile, tag, one),
        [tag, one, two] => of_three(profile, tag, one, two),
        [tag, one, two, three] => of_four(profile, tag, one, two, three),
        [tag, one, two, three, four] => of_five(tag, one, two, three, four),
        _ => unreachable!(),
    }
}

fn of_one<'a>(tag: &Value) -> Text<'a>
    ensures is { (defined : Defined) → text_by defined result ≡ of_one (view tag.now) }
    ensures shallow { body_depth result ≡ 0 }
{
    if is_word(tag, "wait") {
        Text::Wait
    } else {
        Text::None
    }
}

fn of_two<'a>(profile: Profile, tag: &Value, one: &'a Value) -> Text<'a>
    ensures is { text_by profile result ≡ of_two profile (view tag.now) (view one.now) }
    ensures shallow { body_depth result ≡ 0 }
{
    if profile.two_has(tag, "wait") {
        Text::WaitFor(one)
    } else {
        Text::None
    }
}

fn of_three<'a>(profile: Profile, tag: &Value, one: &'a Value, two: &'a Value) -> Text<'a>
    ensures is { text_by profile result ≡ of_three profile (view tag.now) (view one.now) (view two.now) }
    ensures shallow { body_depth result ≤ depth (view two.now) }
{
    if is_word(tag, "set") {
        Text::Set(one, two)
    } else if is_word(tag, "add") {
        Text::Add(one, two)
    } else if is_word(tag, "task") {
        Text::Task(one, two)
    } else if profile.one_has(tag, "group") {
        Text::Group(one, two)
    } else {
        Text::None
    }
}

fn of_four<'a>(
    profile: Profile,
    tag: &Value,
    one: &'a Value,
    two: &'a Value,
    three: &'a Value,
) -> Text<'a>
    ensures is { text_by profile result ≡ of_four profile (view tag.now) (view one.now) (view two.now) (view three.now) }
    ensures shallow { body_depth result ≤ max (depth (view two.now)) (depth (view three.now)) }
{
    if profile.two_has(tag, "fold") {
        Text::Fold(one, two, three)
    } else if profile.two_has(tag, "group") {
        Text::GroupBy(one, two, three)
    } else if is_word(tag, "if") {
        Text::If(one, two, three)
    } else {
        Text::None
    }
}

fn of_five<'a>(
    tag: &Value,
    one: &'a Value,
    two: &'a Value,
    three: &'a Value,
    four: &'a Value,
) -> Text<'a>
    ensures is { (defined : Defined) → text_by defined result ≡ of_five (view tag.now) (view one.now) (view two.now) (view three.now) (view four.now) }
    ensures shallow { body_depth result ≤ depth (view four.now) }
{
    if is_word(tag, "for") {
        Text::For(one, two, three, four)
    } else {
        Text::None
    }
}
