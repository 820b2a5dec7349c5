//! What each code means, in a sentence.
ghost use Rattle.std.specs.Prelude.{◌≡◌};
ghost use Rattle.ot_why_reason.specs.Sentences.{sentence_of};

use ot_program::Refusal;

/// What a code means, in a sentence; empty for a number that is no code.
pub fn sentence_of(code: u32) -> &'static str
    ensures { result.now ≡ sentence_of code }
{
    match code {
        404 => "the server has no such tenant: in answer to a greeting alone",
        409 => "the tenant has a session already: in answer to a greeting alone",
        410 => "the line is no JSON, no UTF-8, or nested deeper than 127",
        411 => "the line is JSON, but no request",
        412 => "no array has this name",
        413 => "an array has this name already",
        414 => "the array has no such cells",
        415 => "too many cells",
        416 => "too many arrays",
        420 => "the program is of no form of the language",
        421 => "a size in the program is not exact or out of range, or a variable is unknown",
        422 => "the program is too large or too deep",
        423 => "the program has too many task statements",
        424 => "a section of the program has length 0",
        425 => "the body of a task touches a cell as the task doesn't declare it",
        426 => "a task declares more than the task around it",
        427 => "a touch, or a group, conflicts with a pending child",
        428 => "a task can end with a child pending",
        429 => "a reduction is misused",
        508 => "memory ran out",
        _ => "",
    }
}

/// What is wrong in a program that is refused without a place.
pub(crate) fn wrong_in_program(refusal: Refusal) -> &'static str {
    match refusal {
        Refusal::Form => "a part of the program has none of the forms of the language",
        Refusal::Size => {
            "a size, or a part of one, is not exact or above 2^32 - 1; or a variable is bound by no loop around"
        }
        Refusal::UnknownArray => "the tenant has no array of a name that the program names",
        Refusal::OutOfRange => {
            "the index of a cell is not below the length of its array; or start + length of a section is more than the length of its array"
        }
        Refusal::EmptySection => "the length of a section is 0",
        Refusal::TooLarge => {
            "a body stands at nesting 17; an expression has depth 25 or more; or a count passes its limit"
        }
        Refusal::TooManyTasks => "a task statement is one more than the tenant's limit",
        Refusal::MixedReduction => "one cell of a task stands under `red` and under another kind",
    }
}
