//! Events as lines of text.
use ot_core::Event;

/// The number, and 0 where it is none.
fn number(text: &str) -> u32 {
    text.parse::<u32>().unwrap_or(0)
}

/// What a tenant asks: its number, and then the line.
fn admit_of(rest: &str) -> Option<Event<'_>> {
    let (tenant, line) = rest.split_once(' ')?;
    Some(Event::Admit(number(tenant), line.as_bytes()))
}

/// A worker, a tenant and a pick.
fn start_of(rest: &str) -> Option<Event<'_>> {
    let (worker, rest) = rest.split_once(' ')?;
    let (tenant, pick) = rest.split_once(' ')?;
    Some(Event::Start(number(worker), number(tenant), number(pick)))
}

/// The event of a line such as `start 1 0 7`.
pub(crate) fn event_of(line: &str) -> Option<Event<'_>> {
    let (word, rest) = line.split_once(' ')?;
    match word {
        "admit" => admit_of(rest),
        "open" => Some(Event::Open(number(rest))),
        "start" => start_of(rest),
        "finish" => Some(Event::Finish(number(rest))),
        "reply" => Some(Event::Reply(number(rest))),
        "abort" => Some(Event::Abort(number(rest))),
        _ => None,
    }
}
