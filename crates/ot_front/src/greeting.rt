//! The greeting of a connection: its first line names the tenant, whose book is taken from the desk.
ghost use Rattle.std.specs.Prelude.{◌≡◌, ◌≢◌, ◌≤◌, ℕ, None, Some, Err, option_map, option_and_then, IfOk, IfErr, IfSome, OnOk, OnErr};
ghost use Rattle.serde_json.specs.Find.{as_array};
ghost use Rattle.serde_json.specs.View.{view, items_view};
ghost use Rattle.ot_book.specs.Answers.{value_of};
ghost use Rattle.ot_session.specs.Serving.{next_count, count_after};
ghost use Rattle.ot_lines.specs.Lines.{hearing_opened};
ghost use Rattle.ot_front.specs.FirstLines.{first_bounds};
ghost use Rattle.ot_front.specs.Greetings.{hello_of, greeting_of, hello_text, refusal_text, WritesReply, Answers, Greets, IsGiven, IsRefused};
ghost use Rattle.ot_front.specs.Racks.{with_taken, with_laid, Hands};
ghost use Rattle.ot_session.specs.declared.fault.FrontFault.TheVariants.{ReadFailed, WriteFailed, Memory};
ghost use Rattle.ot_front.specs.declared.refusal.Refusal.TheVariants.{NotJson, NotGreeting};

use crate::desk::{Desk, DeskFault};
use crate::first_line::{first_bounds, hear_first};
use crate::rack::{OnDesk, Rack};
use crate::refusal::Refusal;
use json::Writer;
use ot_book::{Book, read_name};
use ot_lines::{Heard, Lines, Source};
use ot_program::is_word;
use ot_session::{FrontFault, Sink, write_whole};
use serde_json::Value;
use std::alloc::{AllocError, Global};
use std::sync::Wait;

/// Takes the first line of a connection, byte by byte and nothing behind its LF, and the book of the
/// tenant that it names. The reply tells the name and the number of the next request, or the code of a
/// refusal; where the input ends before the LF there is none. A book that was taken lies on the desk
/// again before a fault is answered.
pub fn greet<R: Source, W: Sink, T: Wait>(
    rt: &T,
    alloc: Global,
    desk: &Desk,
    source: &mut R,
    sink: &mut W,
) -> Result<Option<Book>, FrontFault>
    ensures greets { Greets desk.now (R.flow source.old).ahead (R.flow source.new).ahead ((R.flow source.new).ends ≡ next_count (R.flow source.old).ends)
        (W.draft sink.old).held (W.draft sink.new).held result }
    ensures closed { IfOk result (λ given. IfSome given (λ book. book.pending ≡ None)) }
    ensures reads { (k : ℕ) × (k ≤ 65) × ((R.flow source.new).reads ≡ count_after k (R.flow source.old).reads) }
    ensures read_failed { result ≡ Err ReadFailed → (R.flow source.new).failures ≡ next_count (R.flow source.old).failures }
    ensures read_worked { result ≢ Err ReadFailed → (R.flow source.new).failures ≡ (R.flow source.old).failures }
    ensures write_failed { result ≡ Err WriteFailed → (W.draft sink.new).failures ≡ next_count (W.draft sink.old).failures }
    ensures write_worked { result ≢ Err WriteFailed → (W.draft sink.new).failures ≡ (W.draft sink.old).failures }
{
    let Ok(mut lines) = Lines::new(alloc, first_bounds()) else {
        return Err(FrontFault::Memory);
    };
    greet_from(alloc, &mut OnDesk { rt, desk }, &mut lines, source, sink)
}

/// Greets for any rack of books. Its line is the first of these lines, and the session's are heard behind it.
pub(crate) fn greet_from<B: Rack, R: Source, W: Sink>(
    alloc: Global,
    rack: &mut B,
    lines: &mut Lines,
    source: &mut R,
    sink: &mut W,
) -> Result<Option<Book>, FrontFault>
    requires { lines.old ≡ hearing_opened first_bounds }
    ensures greets { Greets (B.names rack.old) (R.flow source.old).ahead (R.flow source.new).ahead ((R.flow source.new).ends ≡ next_count (R.flow source.old).ends)
        (W.draft sink.old).held (W.draft sink.new).held result }
    ensures names { B.names rack.new ≡ B.names rack.old }
    ensures hands { Hands (B.moves rack.old) (B.moves rack.new) result }
    ensures closed { IfOk result (λ given. IfSome given (λ book. book.pending ≡ None)) }
    ensures end_untold { IfOk result (λ given. IfSome given (λ book. (R.flow source.new).ends ≡ (R.flow source.old).ends)) }
    ensures reads { (k : ℕ) × (k ≤ 65) × ((R.flow source.new).reads ≡ count_after k (R.flow source.old).reads) }
    ensures read_failed { result ≡ Err ReadFailed → (R.flow source.new).failures ≡ next_count (R.flow source.old).failures }
    ensures read_worked { result ≢ Err ReadFailed → (R.flow source.new).failures ≡ (R.flow source.old).failures }
    ensures write_failed { result ≡ Err WriteFailed → (W.draft sink.new).failures ≡ next_count (W.draft sink.old).failures }
    ensures write_worked { result ≢ Err WriteFailed → (W.draft sink.new).failures ≡ (W.draft sink.old).failures }
{
    match hear_first(lines, source) {
        Ok(Heard::Line) => answer_line(alloc, rack, lines.line(), sink),
        Ok(Heard::Long) => refuse(Refusal::NotGreeting, sink),
        Ok(Heard::End) => Ok(None),
        Err(_) => Err(FrontFault::ReadFailed),
    }
}

/// Answers a whole first line.
fn answer_line<B: Rack, W: Sink>(
    alloc: Global,
    rack: &mut B,
    line: &[u8],
    sink: &mut W,
) -> Result<Option<Book>, FrontFault>
    ensures answers { Answers (B.names rack.old) (greeting_of line.now) (W.draft sink.old).held (W.draft sink.new).held result }
    ensures names { B.names rack.new ≡ B.names rack.old }
    ensures hands { Hands (B.moves rack.old) (B.moves rack.new) result }
    ensures closed { IfOk result (λ given. IfSome given (λ book. book.pending ≡ None)) }
    ensures write_failed { result ≡ Err WriteFailed → (W.draft sink.new).failures ≡ next_count (W.draft sink.old).failures }
    ensures write_worked { result ≢ Err WriteFailed → (W.draft sink.new).failures ≡ (W.draft sink.old).failures }
{
    match find_book(alloc, rack, line) {
        Ok(book) => welcome(alloc, rack, book, sink),
        Err(NoBook::Refused(why)) => refuse(why, sink),
        Err(NoBook::Memory) => Err(FrontFault::Memory),
    }
}

/// Why a line gets no book.
#[derive(Clone, Copy, Debug)]
enum NoBook {
    Refused(Refusal),
    Memory,
}

/// The book of the tenant that a line names.
fn find_book<B: Rack>(alloc: Global, rack: &mut B, line: &[u8]) -> Result<Book, NoBook>
    ensures given { IfOk result (λ book. IsGiven (B.names rack.old) (greeting_of line.now) book) }
    ensures closed { IfOk result (λ book. book.pending ≡ None) }
    ensures refused { IfErr result (λ none. (why : Refusal) → none ≡ NoBook.Refused why → IsRefused (B.names rack.old) (greeting_of line.now) why) }
    ensures names { B.names rack.new ≡ B.names rack.old }
    ensures taken { IfOk result (λ book. B.moves rack.new ≡ with_taken book (B.moves rack.old)) }
    ensures untaken { OnErr result (B.moves rack.new ≡ B.moves rack.old) }
{
    let value = read_line(alloc, line)?;
    let Some(name) = read_greeting(&value) else {
        return Err(NoBook::Refused(Refusal::NotGreeting));
    };
    match rack.take(name) {
        Ok(book) => Ok(book),
        Err(DeskFault::Unknown) => Err(NoBook::Refused(Refusal::Unknown)),
        Err(DeskFault::Busy) => Err(NoBook::Refused(Refusal::Busy)),
    }
}

/// The value of a line.
fn read_line(alloc: Global, line: &[u8]) -> Result<Value, NoBook>
    ensures ok { IfOk result (λ value. value_of line.now ≡ Some (view value)) }
    ensures refused { IfErr result (λ none. (why : Refusal) → none ≡ NoBook.Refused why → (why ≡ NotJson) × (value_of line.now ≡ None)) }
{
    match Value::from_slice(alloc, line) {
        Ok(value) => Ok(value),
        Err(error) => {
            if error.is_memory() {
                return Err(NoBook::Memory);
            }
            Err(NoBook::Refused(Refusal::NotJson))
        }
    }
}

/// The name in a greeting.
fn read_greeting(value: &Value) -> Option<&str>
    ensures { option_map (λ name. name.now) result ≡ option_and_then hello_of (as_array (view value.now)) }
{
    match value {
        Value::Array(items) => read_hello(items),
        _ => None,
    }
}

#[tactic(auto, using(crate::proofs::GreetingLemmas::no_hello))]
fn read_hello(items: &[Value]) -> Option<&str>
    ensures { option_map (λ name. name.now) result ≡ hello_of (items_view items.now) }
{
    if items.len() != 2 {
        return None;
    }
    match items {
        [tag, name] => {
            if is_word(tag, "hello") {
                read_name(name)
            } else {
                None
            }
        }
        _ => unreachable!(),
    }
}

/// Tells why there is no book.
fn refuse<W: Sink>(why: Refusal, sink: &mut W) -> Result<Option<Book>, FrontFault>
    ensures writes { WritesReply (W.draft sink.old).held (W.draft sink.new).held (refusal_text why) result }
    ensures none { IfOk result (λ given. given ≡ None) }
    ensures write_failed { result ≡ Err WriteFailed → (W.draft sink.new).failures ≡ next_count (W.draft sink.old).failures }
    ensures write_worked { result ≢ Err WriteFailed → (W.draft sink.new).failures ≡ (W.draft sink.old).failures }
{
    match write_whole(sink, why.text()) {
        Ok(()) => Ok(None),
        Err(_) => Err(FrontFault::WriteFailed),
    }
}

/// Tells the tenant that it may begin, and gives its book. Where that fails the book is laid back.
fn welcome<B: Rack, W: Sink>(
    alloc: Global,
    rack: &mut B,
    book: Book,
    sink: &mut W,
) -> Result<Option<Book>, FrontFault>
    requires { book.pending ≡ None }
    ensures names { B.names rack.new ≡ B.names rack.old }
    ensures kept { OnOk result (B.moves rack.new ≡ B.moves rack.old) }
    ensures laid { OnErr result (B.moves rack.new ≡ with_laid book (B.moves rack.old)) }
    ensures writes { WritesReply (W.draft sink.old).held (W.draft sink.new).held (hello_text book) result }
    ensures given { IfOk result (λ given. given ≡ Some book) }
    ensures write_failed { result ≡ Err WriteFailed → (W.draft sink.new).failures ≡ next_count (W.draft sink.old).failures }
    ensures write_worked { result ≢ Err WriteFailed → (W.draft sink.new).failures ≡ (W.draft sink.old).failures }
{
    match say_hello(alloc, &book, sink) {
        Ok(()) => Ok(Some(book)),
        Err(fault) => {
            rack.lay_back(book);
            Err(fault)
        }
    }
}

/// Writes the reply to a greeting that gets this book.
fn say_hello<W: Sink>(alloc: Global, book: &Book, sink: &mut W) -> Result<(), FrontFault>
    ensures writes { WritesReply (W.draft sink.old).held (W.draft sink.new).held (hello_text book.now) result }
    ensures write_failed { result ≡ Err WriteFailed → (W.draft sink.new).failures ≡ next_count (W.draft sink.old).failures }
    ensures write_worked { result ≢ Err WriteFailed → (W.draft sink.new).failures ≡ (W.draft sink.old).failures }
{
    let Ok(text) = hello_text(alloc, book) else {
        return Err(FrontFault::Memory);
    };
    match write_whole(sink, &text) {
        Ok(()) => Ok(()),
        Err(_) => Err(FrontFault::WriteFailed),
    }
}

/// `["hello", name, n]` and an LF.
fn hello_text(alloc: Global, book: &Book) -> Result<Vec<u8>, AllocError>
    ensures { IfOk result (λ text. text.items ≡ hello_text book.now) }
{
    let mut out = Writer::new(Vec::new(alloc));
    out.begin_array()?;
    out.string("hello")?;
    out.string(book.name())?;
    out.u64(book.next_number())?;
    out.end_array()?;
    let mut text = out.into_inner();
    text.push(b'\n')?;
    Ok(text)
}
