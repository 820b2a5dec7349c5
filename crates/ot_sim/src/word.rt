//! Words of a line: what stands between two spaces.
ghost use Rattle.std.specs.Prelude.{◌≡◌, Some, None, option_map, if◌then◌else◌};
ghost use Rattle.ot_program.specs.Meanings.{is_name, is_digit};
ghost use Rattle.ot_sim.specs.Lines.{word_before, behind_space, digits_behind, number_in_word, worker_of};

use memchr::memchr;
use ot_program::is_name;

/// The bytes before the first space, and those behind it where there is one.
pub(crate) fn split(line: &[u8]) -> (&[u8], Option<&[u8]>)
    ensures word { result.0.now ≡ word_before line.now }
    ensures behind { option_map (λ rest. rest.now) result.1 ≡ behind_space line.now }
{
    match memchr(b' ', line) {
        Some(at) => {
            let (first, space) = line.split_at(at);
            let (_, rest) = space.split_at(1);
            (first, Some(rest))
        }
        None => (line, None),
    }
}

/// The word as a name.
pub(crate) fn name(word: &[u8]) -> Option<&str>
    ensures { option_map (λ name. name.now) result ≡ (if is_name word.now then Some word.now else None) }
{
    let Ok(text) = str::from_utf8(word) else {
        return None;
    };
    if is_name(text) { Some(text) } else { None }
}

/// The word as a worker's number, 1 to 16.
pub(crate) fn worker(word: &[u8]) -> Option<u32>
    ensures { result ≡ worker_of word.now }
{
    let Some(worker) = number(word) else {
        return None;
    };
    if 1 <= worker && worker <= 16 {
        Some(worker)
    } else {
        None
    }
}

/// The word as a number below 2^32, in decimal and without leading zeros.
pub(crate) fn number(word: &[u8]) -> Option<u32>
    ensures { result ≡ number_in_word word.now }
{
    match word {
        [] => None,
        [first, after @ ..] => {
            if *first == b'0' {
                if after.is_empty() { Some(0) } else { None }
            } else {
                digits(word)
            }
        }
    }
}

fn digits(word: &[u8]) -> Option<u32>
    ensures { result ≡ digits_behind 0 word.now }
{
    let mut number = 0;
    let mut rest = word;
    while let [first, after @ ..] = rest {
        if !is_digit(*first) {
            return None;
        }
        let next = 10 * u64::from(number) + u64::from(*first - b'0');
        let Ok(next) = u32::try_from(next) else {
            return None;
        };
        number = next;
        rest = after;
    }
    Some(number)
}

fn is_digit(byte: u8) -> bool
    ensures { result ≡ is_digit byte }
{
    byte.is_ascii_digit()
}
