//! A run as text.
ghost use Rattle.std.specs.Prelude.{◌≡◌, ◌++◌, flat_map, IfOk, OnOk};
ghost use Rattle.std.specs.Fmt.{decimal};
ghost use Rattle.ot_show_races.specs.Pictures as meant;

use crate::picture::{Link, Pair, Picture, Task, Touch, Wait};
use std::alloc::{AllocError, Global};

/// A run as a digraph in the language of `dot`. Each task is a node, and a dashed edge leads to it from the task that created it. A
/// wait is a node, too, to which dotted edges lead from those that it awaits; and an edge leads from a task to one that waits for it
/// by itself. Two touches that race are red boxes, each at its task, with a dashed red line between them. It takes as long as its text
/// is.
#[tactic(auto, unfolding(crate::specs::Pictures::picture_text))]
pub fn dot_text(alloc: Global, picture: &Picture) -> Result<Vec<u8>, AllocError>
    ensures { IfOk result (λ text. text.items ≡ meant.picture_text picture.now) }
{
    let mut out = Vec::new(alloc);
    put_head(&mut out)?;
    put_tasks(alloc, &picture.tasks, &mut out)?;
    put_more(alloc, picture.more, &mut out)?;
    put_waits(alloc, &picture.waits, &mut out)?;
    put_links(alloc, &picture.links, &mut out)?;
    put_race(alloc, &picture.race, &mut out)?;
    put_words("}\n", &mut out)?;
    Ok(out)
}

#[tactic(auto, unfolding(crate::specs::Pictures::head))]
fn put_head(out: &mut Vec<u8>) -> Result<(), AllocError>
    ensures { OnOk result (out.new.items ≡ out.old.items ++ meant.head) }
{
    put_words("digraph tasks {\n  t0 [label=\"program\"];\n", out)
}

fn put_words(words: &str, out: &mut Vec<u8>) -> Result<(), AllocError>
    ensures { OnOk result (out.new.items ≡ out.old.items ++ words.now) }
{
    out.extend_from_slice(words.as_bytes())
}

/// Writes words, and a number behind them.
fn put_numbered(
    alloc: Global,
    words: &str,
    number: u32,
    out: &mut Vec<u8>,
) -> Result<(), AllocError>
    ensures { OnOk result (out.new.items ≡ out.old.items ++ (words.now ++ decimal number)) }
{
    let text = format!(in alloc; "{words}{number}")?;
    put_words(&text, out)
}

/// Writes a text as it stands within quotes.
fn put_quoted(text: &str, out: &mut Vec<u8>) -> Result<(), AllocError>
    ensures { OnOk result (out.new.items ≡ out.old.items ++ meant.quoted_text text.now) }
{
    for byte in text.as_bytes() {
        put_byte(*byte, out)?;
    }
    Ok(())
}

fn put_byte(byte: u8, out: &mut Vec<u8>) -> Result<(), AllocError>
    ensures { OnOk result (out.new.items ≡ out.old.items ++ meant.quoted_byte byte) }
{
    if byte == b'"' || byte == b'\\' {
        out.push(b'\\')?;
    }
    out.push(byte)?;
    Ok(())
}

#[tactic(auto, unfolding(crate::specs::Pictures::label_text))]
fn put_label(label: &str, out: &mut Vec<u8>) -> Result<(), AllocError>
    ensures { OnOk result (out.new.items ≡ out.old.items ++ meant.label_text label.now) }
{
    put_words("label=\"", out)?;
    put_quoted(label, out)?;
    put_words("\"];\n", out)
}

/// Writes a node of a name with a number.
fn put_node(
    alloc: Global,
    name: &str,
    number: u32,
    label: &str,
    out: &mut Vec<u8>,
) -> Result<(), AllocError>
    ensures { OnOk result (out.new.items ≡ out.old.items ++ meant.node_text name.now number label.now) }
{
    put_numbered(alloc, name, number, out)?;
    put_words(" [", out)?;
    put_label(label, out)
}

/// Writes an edge from a node of a name with a number to such a node.
fn put_edge(
    alloc: Global,
    from: (&str, u32),
    to: (&str, u32),
    style: &str,
    out: &mut Vec<u8>,
) -> Result<(), AllocError>
    ensures { OnOk result (out.new.items ≡ out.old.items ++ meant.edge_text from.entry.0.now from.entry.1 to.entry.0.now to.entry.1 style.now) }
{
    put_numbered(alloc, from.0, from.1, out)?;
    put_numbered(alloc, to.0, to.1, out)?;
    put_words(style, out)
}

fn put_tasks(alloc: Global, tasks: &[Task], out: &mut Vec<u8>) -> Result<(), AllocError>
    ensures { OnOk result (out.new.items ≡ out.old.items ++ flat_map meant.task_text tasks.now) }
{
    for task in tasks {
        put_task(alloc, task, out)?;
    }
    Ok(())
}

#[tactic(auto, unfolding(crate::specs::Pictures::task_text))]
fn put_task(alloc: Global, task: &Task, out: &mut Vec<u8>) -> Result<(), AllocError>
    ensures { OnOk result (out.new.items ≡ out.old.items ++ meant.task_text task.now) }
{
    let number = task.number;
    put_node(alloc, "  t", number, &task.label, out)?;
    put_edge(
        alloc,
        ("  t", task.parent),
        (" -> t", number),
        " [style=dashed];\n",
        out,
    )
}

fn put_more(alloc: Global, more: u32, out: &mut Vec<u8>) -> Result<(), AllocError>
    ensures { OnOk result (out.new.items ≡ out.old.items ++ meant.more_text more) }
{
    if more == 0 {
        Ok(())
    } else {
        put_count(alloc, more, out)
    }
}

#[tactic(auto, unfolding(crate::specs::Pictures::count_text))]
fn put_count(alloc: Global, more: u32, out: &mut Vec<u8>) -> Result<(), AllocError>
    ensures { OnOk result (out.new.items ≡ out.old.items ++ meant.count_text more) }
{
    put_numbered(alloc, "  more [label=\"", more, out)?;
    put_words(" more tasks\"];\n", out)
}

fn put_waits(alloc: Global, waits: &[Wait], out: &mut Vec<u8>) -> Result<(), AllocError>
    ensures { OnOk result (out.new.items ≡ out.old.items ++ flat_map meant.wait_text waits.now) }
{
    for wait in waits {
        put_wait(alloc, wait, out)?;
    }
    Ok(())
}

#[tactic(auto, unfolding(crate::specs::Pictures::wait_text))]
fn put_wait(alloc: Global, wait: &Wait, out: &mut Vec<u8>) -> Result<(), AllocError>
    ensures { OnOk result (out.new.items ≡ out.old.items ++ meant.wait_text wait.now) }
{
    let number = wait.number;
    put_node(alloc, "  w", number, &wait.label, out)?;
    put_edge(
        alloc,
        ("  t", wait.task),
        (" -> w", number),
        " [style=dashed];\n",
        out,
    )?;
    put_awaited(alloc, number, &wait.awaited, out)
}

/// Writes an edge to a wait from each task that it awaits.
fn put_awaited(
    alloc: Global,
    wait: u32,
    awaited: &[u32],
    out: &mut Vec<u8>,
) -> Result<(), AllocError>
    ensures { OnOk result (out.new.items ≡ out.old.items ++ flat_map (meant.awaited_text wait) awaited.now) }
{
    for task in awaited {
        put_edge(
            alloc,
            ("  t", *task),
            (" -> w", wait),
            " [style=dotted];\n",
            out,
        )?;
    }
    Ok(())
}

fn put_links(alloc: Global, links: &[Link], out: &mut Vec<u8>) -> Result<(), AllocError>
    ensures { OnOk result (out.new.items ≡ out.old.items ++ flat_map meant.link_text links.now) }
{
    for link in links {
        put_edge(
            alloc,
            ("  t", link.earlier),
            (" -> t", link.later),
            ";\n",
            out,
        )?;
    }
    Ok(())
}

fn put_race(alloc: Global, race: &Option<Pair>, out: &mut Vec<u8>) -> Result<(), AllocError>
    ensures { OnOk result (out.new.items ≡ out.old.items ++ meant.race_text race.now) }
{
    match race {
        Some(pair) => put_pair(alloc, pair, out),
        None => Ok(()),
    }
}

/// Writes two touches, and the line between them.
#[tactic(auto, unfolding(crate::specs::Pictures::pair_text))]
fn put_pair(alloc: Global, pair: &Pair, out: &mut Vec<u8>) -> Result<(), AllocError>
    ensures { OnOk result (out.new.items ≡ out.old.items ++ meant.pair_text pair.now) }
{
    put_touch(alloc, "first", &pair.first, out)?;
    put_touch(alloc, "second", &pair.second, out)?;
    put_words(
        "  first -> second [style=dashed, color=red, dir=none];\n",
        out,
    )
}

/// Writes a touch as a box of this name, and the edge from its task.
#[tactic(auto, unfolding(crate::specs::Pictures::touch_text))]
fn put_touch(alloc: Global, name: &str, touch: &Touch, out: &mut Vec<u8>) -> Result<(), AllocError>
    ensures { OnOk result (out.new.items ≡ out.old.items ++ meant.touch_text name.now touch.now) }
{
    put_touch_node(name, &touch.label, out)?;
    put_numbered(alloc, "  t", touch.task, out)?;
    put_words(" -> ", out)?;
    put_words(name, out)?;
    put_words(" [style=dashed];\n", out)
}

fn put_touch_node(name: &str, label: &str, out: &mut Vec<u8>) -> Result<(), AllocError>
    ensures { OnOk result (out.new.items ≡ out.old.items ++ meant.touch_node name.now label.now) }
{
    put_words("  ", out)?;
    put_words(name, out)?;
    put_box(out)?;
    put_label(label, out)
}

#[tactic(auto, unfolding(crate::specs::Pictures::red_box))]
fn put_box(out: &mut Vec<u8>) -> Result<(), AllocError>
    ensures { OnOk result (out.new.items ≡ out.old.items ++ meant.red_box) }
{
    put_words(" [shape=box, color=red, ", out)
}
