//! The arguments of a macro.
use crate::macros::Macro;
use ot_exec_lexemes::{Mark, Raw, RawKind, ReadError, Why};
use std::alloc::Global;

/// How many tokens arguments have at most.
const MOST: u32 = 2_000_000;

/// Takes the arguments behind an open bracket from the tokens that are left, of which the next one is the last.
pub(crate) fn arguments(
    alloc: Global,
    at: usize,
    it: &Macro,
    names: usize,
    todo: &mut Vec<Raw>,
) -> Result<Vec<Vec<Raw>>, ReadError> {
    let mut all = Vec::new(alloc);
    let mut one = Vec::new(alloc);
    let mut depth: u32 = 0;
    for _ in 0..MOST {
        let Some(raw) = todo.pop() else {
            return Err(ReadError::new(at, Why::Arguments));
        };
        match raw.kind {
            RawKind::Mark(Mark::Close) if depth == 0 => {
                if names > 0 || !one.is_empty() {
                    all.push(one)?;
                }
                return checked(alloc, at, it, names, all);
            }
            RawKind::Mark(Mark::Comma)
                if depth == 0 && !(it.takes_rest && all.len().saturating_add(1) == names) => {
                all.push(std::mem::replace(&mut one, Vec::new(alloc)))?;
                continue;
            }
            RawKind::Mark(Mark::Open | Mark::OpenIndex | Mark::OpenBlock) => depth =
                depth.saturating_add(1),
            RawKind::Mark(Mark::Close | Mark::CloseIndex | Mark::CloseBlock) => depth =
                depth.saturating_sub(1),
            _ => {}
        }
        one.push(raw)?;
    }
    Err(ReadError::new(at, Why::Arguments))
}

/// The arguments, where they are as many as the parameters: the last one may be left out where it stands for the rest.
fn checked(
    alloc: Global,
    at: usize,
    it: &Macro,
    names: usize,
    mut all: Vec<Vec<Raw>>,
) -> Result<Vec<Vec<Raw>>, ReadError> {
    if it.takes_rest && all.len().saturating_add(1) == names {
        all.push(Vec::new(alloc))?;
    }
    if all.len() == names {
        Ok(all)
    } else {
        Err(ReadError::new(at, Why::Arguments))
    }
}
