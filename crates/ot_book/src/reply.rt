ghost use Rattle.std.specs.Prelude.{◌≡◌, [], ◌∷◌, ◌++◌, map, IfOk, OnOk, string_bytes};
ghost use Rattle.json.specs.Token as token;
ghost use Rattle.serde_json.specs.Data.{array, string};
ghost use Rattle.serde_json.specs.View.{items_of};
ghost use Rattle.ot_model.specs.Programs.{arrays_of};
ghost use Rattle.ot_book.specs.Answers.{json_of, nat, nats, name_and_length, text_of};
ghost use Rattle.ot_book.specs.ReplyView.{told_of};
ghost use Rattle.ot_book.specs.Pieces.{tokens_of, tokens_of_all};

use crate::told::Told;
use json::Writer;
use ot_model::ArrayShape;
use std::alloc::{AllocError, Global};

/// What was told of a request, and the number of the request.
#[derive(Debug, Drop)]
pub struct Reply<'a> {
    pub number: u64,
    pub told: &'a Told,
}

/// The reply as compact JSON, with no LF. It is written straight from its numbers.
pub fn reply_text(alloc: Global, reply: &Reply<'_>) -> Result<String, AllocError>
    ensures { IfOk result (λ text. string_bytes text ≡ text_of reply.now.number (told_of reply.now.told.now)) }
{
    let mut out = Writer::new(Vec::new(alloc));
    write_told(reply.number, reply.told, &mut out)?;
    Ok(String::from_utf8(out.into_inner()).unwrap())
}

fn write_told(number: u64, told: &Told, out: &mut Writer) -> Result<(), AllocError>
    ensures tokens { OnOk result (out.new.tokens ≡ out.old.tokens ++ tokens_of (json_of number (told_of told.now))) }
    ensures before { out.new.before ≡ out.old.before }
{
    match told {
        Told::Accepted => write_list("ok", &[number], out),
        Told::Cells(values) => {
            write_front("cells", &[number], out)?;
            write_numbers(values.as_slice(), out)?;
            out.end_array()
        }
        Told::Arrays(arrays) => {
            write_front("arrays", &[number], out)?;
            write_arrays(arrays.as_slice(), out)?;
            out.end_array()
        }
        Told::Used(units) => write_list("used", &[number, *units], out),
        Told::Done(tasks, units, shows) => {
            let counts = [number, u64::from(*tasks), u64::from(*units)];
            write_front("done", &counts, out)?;
            write_shows(shows.as_slice(), out)?;
            out.end_array()
        }
        Told::Refused(code) => write_list("err", &[number, u64::from(code.number())], out),
        Told::Offends(offence, place) => {
            let offence = u64::from(offence.code());
            write_list("err", &[number, offence, u64::from(*place)], out)
        }
        Told::Lost => write_list("err", &[number, 508], out),
    }
}

/// An array of a word, and then numbers.
fn write_list(word: &str, numbers: &[u64], out: &mut Writer) -> Result<(), AllocError>
    ensures tokens { OnOk result (out.new.tokens ≡ out.old.tokens ++ tokens_of (array (items_of (string word.now ∷ map nat numbers.now)))) }
    ensures before { out.new.before ≡ out.old.before }
{
    write_front(word, numbers, out)?;
    out.end_array()
}

/// The same without its end.
fn write_front(word: &str, numbers: &[u64], out: &mut Writer) -> Result<(), AllocError>
    ensures tokens { OnOk result
        (out.new.tokens ≡ out.old.tokens ++ (token.begin_array ∷ token.string word.now ∷ tokens_of_all (map nat numbers.now))) }
    ensures before { out.new.before ≡ out.old.before }
{
    out.begin_array()?;
    out.string(word)?;
    for number in numbers {
        out.u64(*number)?;
    }
    Ok(())
}

/// Writes numbers as an array of JSON.
pub fn write_numbers(numbers: &[u64], out: &mut Writer) -> Result<(), AllocError>
    ensures tokens { OnOk result (out.new.tokens ≡ out.old.tokens ++ tokens_of (nats numbers.now)) }
    ensures before { out.new.before ≡ out.old.before }
{
    out.begin_array()?;
    for number in numbers {
        out.u64(*number)?;
    }
    out.end_array()
}

fn write_shows(shows: &[Vec<u64>], out: &mut Writer) -> Result<(), AllocError>
    ensures tokens { OnOk result
        (out.new.tokens ≡ out.old.tokens ++ tokens_of (array (items_of (map nats (map (λ s. s.items) shows.now))))) }
    ensures before { out.new.before ≡ out.old.before }
{
    out.begin_array()?;
    for numbers in shows {
        write_numbers(numbers.as_slice(), out)?;
    }
    out.end_array()
}

fn write_arrays(arrays: &[ArrayShape], out: &mut Writer) -> Result<(), AllocError>
    ensures tokens { OnOk result
        (out.new.tokens ≡ out.old.tokens ++ tokens_of (array (items_of (map name_and_length (arrays_of arrays.now))))) }
    ensures before { out.new.before ≡ out.old.before }
{
    out.begin_array()?;
    for array in arrays {
        write_list(array.name.as_str(), &[u64::from(array.len)], out)?;
    }
    out.end_array()
}
