//! What stands in the nodes of a picture.
use crate::naming::cell_name;
use crate::placing::short_place;
use crate::telling::Source;
use ot_model::Cell;
use std::alloc::{AllocError, Global};

/// How many bytes of a line are shown, and how many are looked at for its begin.
const WIDTH: usize = 48;

const BACK: usize = 200;

/// The line and the column of an event, and what stands there.
pub(crate) fn line_label(
    alloc: Global,
    source: &Source<'_>,
    place: u32,
) -> Result<String, AllocError> {
    let byte = source.byte_of_event(place);
    let mut label = short_place(alloc, source.whole, byte)?;
    label.push_str(": ")?;
    put_line(source.whole.text(), byte, &mut label)?;
    Ok(label)
}

/// The line and the column of a touch, and what it does with the cell.
pub(crate) fn touch_label(
    alloc: Global,
    source: &Source<'_>,
    place: u32,
    cell: Cell,
) -> Result<String, AllocError> {
    let at = short_place(alloc, source.whole, source.byte_of_event(place))?;
    let at = at.as_str();
    let name = cell_name(alloc, source.reading, source.whole, source.run, cell)?;
    let happens = source.happens(place, cell);
    format!(in alloc; "{at}: {name} {happens}")
}

/// Puts the line around a byte, from its first word on, as far as there is room.
fn put_line(text: &[u8], byte: usize, label: &mut String) -> Result<(), AllocError> {
    let mut begins = true;
    for byte in line_at(text, byte).iter().take(BACK) {
        if *byte == b'\n' {
            break;
        }
        if begins && byte.is_ascii_whitespace() {
            continue;
        }
        begins = false;
        if label.len() >= WIDTH {
            return label.push_str("..");
        }
        let shown = if byte.is_ascii_graphic() || *byte == b' ' {
            *byte
        } else {
            b'?'
        };
        label.push(shown as char)?;
    }
    Ok(())
}

/// A text from the begin of the line of a byte on, or from so many bytes before it.
fn line_at(text: &[u8], byte: usize) -> &[u8] {
    let before = match text.get(..byte) {
        Some(before) => before,
        None => text,
    };
    let mut back = 0usize;
    for byte in before.iter().rev().take(BACK) {
        if *byte == b'\n' {
            break;
        }
        back = back.saturating_add(1);
    }
    match text.get(before.len().saturating_sub(back)..) {
        Some(line) => line,
        None => &[],
    }
}
