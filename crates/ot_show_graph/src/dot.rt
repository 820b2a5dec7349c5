//! A task graph in the language of `dot`.
ghost use Rattle.std.specs.Prelude.{◌≡◌, ◌+◌, ◌++◌, ◌<◌, ◌^◌, IfOk, OnOk, decimal, length, map, option_copied, string_bytes};
ghost use Rattle.ot_show_print.specs.Shown.{names_of};
ghost use Rattle.ot_show_graph.specs.Children.{created_of, all_of, decls_of};
ghost use Rattle.ot_show_graph.specs.Graphs.{marks_of, passed_of};
ghost use Rattle.ot_show_graph.specs.Links.{AreLinks};
ghost use Rattle.ot_show_graph.specs.Written.{AreLabels, cells_with};
ghost use Rattle.ot_show_print.specs.Shown as shown;
ghost use Rattle.ot_show_graph.specs.Dot as dot;

use crate::child::Child;
use crate::family::Family;
use crate::graph::Graph;
use crate::label::labels_of;
use crate::link::Link;
use crate::mark::Mark;
use crate::met::Met;
use ot_model::{ArrayShape, Cell, Decl, Fold};
use ot_show_print::Printer;
use std::alloc::{AllocError, Global};

/// The graph as a digraph of `dot`. Each task is a node with the number of its statement and what it declares;
/// a group is a box around the tasks that are created in it, and a wait is a node in a box. Dashed edges lead from
/// each task to what its body creates and to its waits; solid ones from a task to one that waits for it by itself,
/// with the cells; dotted ones from a child to the wait that awaits it.
pub fn dot_text(
    alloc: Global,
    graph: &Graph<'_>,
    arrays: &[ArrayShape],
) -> Result<String, AllocError>
    ensures { IfOk result (λ text. string_bytes text ≡ dot.text (names_of arrays.now) graph.now) }
{
    let mut out = Printer::new(alloc, arrays);
    out.words("digraph tasks {\n  t0 [label=\"program\"];\n")?;
    nodes(&mut out, &graph.marks)?;
    creations(&mut out, &graph.marks)?;
    edges_of(alloc, &mut out, &graph.families)?;
    out.words("}\n")?;
    Ok(out.into_text())
}

/// The tasks and waits, with a box around those of each group.
fn nodes(out: &mut Printer<'_>, marks: &[Mark<'_>]) -> Result<(), AllocError>
    ensures text { OnOk result (out.new.text ≡ out.old.text ++ dot.nodes out.old.names 0 0 (marks_of marks.now)) }
    ensures names { out.new.names ≡ out.old.names }
{
    let mut waits: u64 = 0;
    let mut groups: u64 = 0;
    for mark in marks {
        node(out, waits + 1, groups + 1, mark)?;
        waits += waits_in(mark);
        groups += groups_in(mark);
    }
    Ok(())
}

/// What is written of a mark: of a wait with the one number, of the beginning of a group with the other.
fn node(out: &mut Printer<'_>, wait: u64, group: u64, mark: &Mark<'_>) -> Result<(), AllocError>
    ensures text { OnOk result (out.new.text ≡ out.old.text ++ dot.node out.old.names wait group (passed_of mark.now)) }
    ensures names { out.new.names ≡ out.old.names }
{
    match mark {
        Mark::Task(_, child) => task_node(out, *child),
        Mark::Wait(_, decl, _) => wait_node(out, wait, *decl),
        Mark::Enter(op, cells) => open_box(out, group, *op, cells),
        Mark::Leave => out.words("  }\n"),
    }
}

/// One for a wait.
fn waits_in(mark: &Mark<'_>) -> u64
    ensures { result ≡ dot.waits_in (passed_of mark.now) }
{
    match mark {
        Mark::Wait(_, _, _) => 1,
        Mark::Task(_, _) | Mark::Enter(_, _) | Mark::Leave => 0,
    }
}

/// One for the beginning of a group.
fn groups_in(mark: &Mark<'_>) -> u64
    ensures { result ≡ dot.groups_in (passed_of mark.now) }
{
    match mark {
        Mark::Enter(_, _) => 1,
        Mark::Task(_, _) | Mark::Wait(_, _, _) | Mark::Leave => 0,
    }
}

fn task_node(out: &mut Printer<'_>, child: Child<'_>) -> Result<(), AllocError>
    ensures text { OnOk result (out.new.text ≡ out.old.text ++ dot.task_node out.old.names (created_of child.entry)) }
    ensures names { out.new.names ≡ out.old.names }
{
    numbered(out, "  t", u64::from(child.number))?;
    numbered(out, " [label=\"", u64::from(child.place))?;
    out.words(": ")?;
    out.task(child.decl)?;
    out.words("\"];\n")
}

fn wait_node(out: &mut Printer<'_>, number: u64, wait: Option<&Decl>) -> Result<(), AllocError>
    ensures text { OnOk result (out.new.text ≡ out.old.text ++ dot.wait_node out.old.names number (option_copied wait.entry)) }
    ensures names { out.new.names ≡ out.old.names }
{
    numbered(out, "  w", number)?;
    out.words(" [shape=box, label=\"")?;
    wait_label(out, wait)?;
    out.words("\"];\n")
}

fn wait_label(out: &mut Printer<'_>, wait: Option<&Decl>) -> Result<(), AllocError>
    ensures text { OnOk result (out.new.text ≡ out.old.text ++ shown.wait out.old.names (option_copied wait.entry)) }
    ensures names { out.new.names ≡ out.old.names }
{
    match wait {
        None => out.wait_for_all(),
        Some(decl) => out.wait_for(decl),
    }
}

/// The beginning of the box around what is created in a group.
fn open_box(out: &mut Printer<'_>, number: u64, op: Fold, cells: &[Cell]) -> Result<(), AllocError>
    ensures text { OnOk result (out.new.text ≡ out.old.text ++ dot.box out.old.names number op cells.now) }
    ensures names { out.new.names ≡ out.old.names }
{
    numbered(out, "  subgraph cluster_", number)?;
    out.words(" {\n  label=\"")?;
    out.group(op, cells)?;
    out.words("\";\n")
}

/// Words with a number behind them.
fn numbered(out: &mut Printer<'_>, words: &str, number: u64) -> Result<(), AllocError>
    ensures text { OnOk result (out.new.text ≡ out.old.text ++ dot.words_numbered words.now number) }
    ensures names { out.new.names ≡ out.old.names }
{
    out.words(words)?;
    out.number(number)
}

/// Who creates whom, and what each wait awaits.
fn creations(out: &mut Printer<'_>, marks: &[Mark<'_>]) -> Result<(), AllocError>
    ensures text { OnOk result (out.new.text ≡ out.old.text ++ dot.creations 0 (marks_of marks.now)) }
    ensures names { out.new.names ≡ out.old.names }
{
    let mut waits: u64 = 0;
    for mark in marks {
        creation(out, waits + 1, mark)?;
        waits += waits_in(mark);
    }
    Ok(())
}

/// The edges of a mark, which has this number where it is a wait.
fn creation(out: &mut Printer<'_>, wait: u64, mark: &Mark<'_>) -> Result<(), AllocError>
    ensures text { OnOk result (out.new.text ≡ out.old.text ++ dot.creation wait (passed_of mark.now)) }
    ensures names { out.new.names ≡ out.old.names }
{
    match mark {
        Mark::Task(parent, child) => {
            numbered(out, "  t", u64::from(*parent))?;
            numbered(out, " -> t", u64::from(child.number))?;
            out.words(" [style=dashed];\n")
        }
        Mark::Wait(parent, _, awaited) => {
            numbered(out, "  t", u64::from(*parent))?;
            numbered(out, " -> w", wait)?;
            out.words(" [style=dashed];\n")?;
            awaited_edges(out, wait, awaited)
        }
        Mark::Enter(_, _) | Mark::Leave => Ok(()),
    }
}

fn awaited_edges(out: &mut Printer<'_>, wait: u64, awaited: &[Child<'_>]) -> Result<(), AllocError>
    ensures text { OnOk result (out.new.text ≡ out.old.text ++ dot.awaited_edges wait (all_of awaited.now)) }
    ensures names { out.new.names ≡ out.old.names }
{
    for child in awaited {
        numbered(out, "  t", u64::from(child.number))?;
        numbered(out, " -> w", wait)?;
        out.words(" [style=dotted];\n")?;
    }
    Ok(())
}

/// Who of each family waits for whom by itself.
fn edges_of(alloc: Global, out: &mut Printer<'_>, families: &[Family<'_>]) -> Result<(), AllocError>
    ensures text { OnOk result (out.new.text ≡ out.old.text ++ dot.edges_of out.old.names families.now) }
    ensures names { out.new.names ≡ out.old.names }
{
    for family in families {
        edges(alloc, out, &family.children, &family.links)?;
    }
    Ok(())
}

fn edges(
    alloc: Global,
    out: &mut Printer<'_>,
    children: &[Child<'_>],
    links: &[Link],
) -> Result<(), AllocError>
    requires { AreLinks (decls_of children.now) links.now }
    ensures text { OnOk result (out.new.text ≡ out.old.text ++ dot.edges out.old.names children.now links.now) }
    ensures names { out.new.names ≡ out.old.names }
{
    let labels = labels_of(alloc, children)?;
    for link in links {
        edge(out, children, &labels, *link)?;
    }
    Ok(())
}

/// The edge of a link between two of these children, each of which has its labels.
fn edge(
    out: &mut Printer<'_>,
    children: &[Child<'_>],
    labels: &[Met],
    link: Link,
) -> Result<(), AllocError>
    requires labels { AreLabels (decls_of children.now) labels.now }
    requires len { length labels.now ≡ length children.now }
    requires order { link.earlier < link.later }
    ensures text { OnOk result (out.new.text ≡ out.old.text ++ dot.edge out.old.names children.now link) }
    ensures names { out.new.names ≡ out.old.names }
{
    if link.earlier >= children.len() || link.later >= children.len() {
        return Ok(());
    }
    let earlier = children[link.earlier];
    let later = children[link.later];
    numbered(out, "  t", u64::from(earlier.number))?;
    numbered(out, " -> t", u64::from(later.number))?;
    out.words(" [label=\"")?;
    put_label(out, &labels[link.later], link.earlier)?;
    out.words("\"];\n")
}

/// The cells at which a child waits by itself for the earlier one at a place.
fn put_label(out: &mut Printer<'_>, met: &Met, earlier: usize) -> Result<(), AllocError>
    ensures text { OnOk result (out.new.text ≡ out.old.text ++ shown.sections out.old.names (shown.sections_of (cells_with met.now earlier))) }
    ensures names { out.new.names ≡ out.old.names }
{
    match met.get(&earlier) {
        Some(cells) => out.cells(cells),
        None => Ok(()),
    }
}
