//! Sources and sinks over readers and writers of std, and the writing of a whole text.
ghost use Rattle.std.specs.Prelude.{◌≡◌, ◌++◌, ◌≤◌, IfOk, take};

use crate::fakes::{Faltering, Narrow};
use ot_session::{Failed, Reading, Sink, Source, Writing, write_whole};
use std::alloc::Global;

const REPLY: &str = "[\"ok\",1]\n";

/// After how many bytes a failing write is answered or leaves otherwise than the text's front, first.
fn first_other_front(alloc: Global) -> Option<usize> {
    let text = REPLY.as_bytes();
    for may_take in 0..11 {
        let mut sink = Narrow {
            taken: Vec::new(alloc),
            may_take,
            failures: 0,
        };
        let written = write_whole(&mut sink, text);
        let fails = may_take < 9;
        let front = &text[..may_take.min(text.len())];
        let told = (written.is_err(), sink.taken.as_slice(), sink.failures);
        if told != (fails, front, u64::from(fails)) {
            return Some(may_take);
        }
    }
    None
}

#[test]
fn what_is_written_before_a_failure(rt: HostRuntime) {
    assert_eq!(rt; first_other_front(rt.alloc()), None);
}

/// What reads of two bytes give of `abcde`, one after another.
const PARTS: [&str; 5] = ["ab", "cd", "e", "", ""];

/// The number of the first read that gives something else, or that of the last and more, where the
/// source has bytes left.
fn first_other_part() -> Option<usize> {
    let mut source = Reading::new("abcde".as_bytes());
    let mut buffer = [0; 2];
    for (number, part) in PARTS.iter().enumerate() {
        let count = source.read(&mut buffer);
        if count != Ok(part.len()) || &buffer[..part.len().min(2)] != part.as_bytes() {
            return Some(number);
        }
    }
    let left = source.into_inner().len();
    if left > 0 { Some(5) } else { None }
}

#[test]
fn a_source_over_memory(rt: HostRuntime) {
    assert_eq!(rt; first_other_part(), None);
}

/// A source over a slice tells every byte: what it gave and what is left are what it had.
fn first_bytes<'a>(bytes: &'a [u8], buffer: &mut [u8; 4]) -> Result<(usize, &'a [u8]), Failed>
    ensures bound { IfOk result (λ r. r.0 ≤ 4) }
    ensures all { IfOk result (λ r. bytes.entry.now ≡ take r.0 buffer.new ++ r.1.now) }
{
    let mut source = Reading::new(bytes);
    let count = source.read(buffer)?;
    Ok((count, source.into_inner()))
}

/// A sink over a `Vec` tells every byte: it holds what was written.
fn written(alloc: Global, first: &[u8], second: &[u8]) -> Result<Vec<u8>, Failed>
    ensures { IfOk result (λ all. all.items ≡ first.now ++ second.now) }
{
    let mut sink = Writing::new(Vec::new(alloc));
    write_whole(&mut sink, first)?;
    write_whole(&mut sink, second)?;
    Ok(sink.into_inner())
}

/// Whether they do.
fn writes_both(alloc: Global) -> bool {
    match written(alloc, REPLY.as_bytes(), b"[\"ok\",2]\n") {
        Ok(all) => all.as_slice() == b"[\"ok\",1]\n[\"ok\",2]\n".as_slice(),
        Err(_) => false,
    }
}

#[test]
fn devices_over_memory_tell_every_byte(rt: HostRuntime) {
    let mut buffer = [0; 4];
    assert_eq!(rt;
        first_bytes(b"abcdef", &mut buffer),
        Ok((4, b"ef".as_slice()))
    );
    assert!(rt; writes_both(rt.alloc()));
}

#[test]
fn a_reader_that_fails_once(rt: HostRuntime) {
    let mut source = Reading::new(Faltering { calls: 0 });
    let mut buffer = [0; 4];
    let first = source.read(&mut buffer);
    let second = source.read(&mut buffer);
    let third = source.read(&mut buffer);
    assert_eq!(rt; (first, second, third), (Ok(1), Err(Failed), Ok(1)));
    assert_eq!(rt; buffer[0], 3);
}

#[test]
fn a_writer_that_takes_no_byte_once(rt: HostRuntime) {
    let mut sink = Writing::new(Faltering { calls: 0 });
    let first = sink.write(b"ab");
    let second = sink.write(b"ab");
    let third = write_whole(&mut sink, b"ab");
    assert_eq!(rt; (first, second, third), (Ok(2), Err(Failed), Ok(())));
    assert_eq!(rt; sink.into_inner().calls, 3);
}
