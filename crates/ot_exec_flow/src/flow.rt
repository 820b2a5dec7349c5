//! What branches and indexes rest on: values that come from memory, or aren't known. What an automatic variable has that only its own task
//! changes isn't from memory; nor are numbers of which the turns of loops and lengths are made, nor branches that decide them before anything is created.
use crate::deciding::{Deciding, unmark};
use crate::graph::{Graph, Touches};
use crate::trace::{Asked, Trace, traced};
use ot_exec_code::{Code, Form};
use std::alloc::{AllocError, Global};

/// By form, whether its branch or its index is from memory, or isn't known, or whether a task is deferred. None where it is too much.
pub fn marks_of(
    alloc: Global,
    code: &Code,
    parameters: &[u32],
    closed: &[bool],
) -> Result<Option<Vec<bool>>, AllocError> {
    let Trace {
        mut graph,
        asked,
        loads,
        stores,
        starts,
        bounds,
        meetings,
        free_stores,
        globals,
        ..
    } = traced(alloc, code, parameters, closed)?;
    let mut marks = vec![in alloc; false; code.forms.len()]?;
    if !graph.is_full {
        let touches = Touches {
            loads: &loads,
            stores: &stores,
            starts: &starts,
            bounds: &bounds,
            globals: &globals,
        };
        let fixed = graph.settle(alloc, &touches)?;
        mark(code, &graph, &asked, true, &mut marks);
        graph.comes_from_memory(alloc, &fixed)?;
        mark(code, &graph, &asked, false, &mut marks);
        let deciding = Deciding {
            loads: &loads,
            bounds: &bounds,
            meetings: &meetings,
            stores: &free_stores,
        };
        let decides = deciding.forms(alloc, code, &mut graph)?;
        unmark(code, &asked, &decides, &mut marks);
    }
    if graph.is_full {
        return Ok(None);
    }
    Ok(Some(marks))
}

/// Marks the indexes that come from memory, or all else that does.
fn mark(code: &Code, graph: &Graph, asked: &[Asked], of_indexes: bool, marks: &mut [bool]) {
    for it in asked {
        let is_index = matches!(code.forms.get(it.at), Some(Form::Advance(_, _, _, _, _)));
        if is_index == of_indexes {
            if let Some(mark) = marks.get_mut(it.at) {
                *mark = graph.is_memory(it.value);
            }
        }
    }
}
