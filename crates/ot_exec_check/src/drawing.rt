//! A picture of a run: its tasks, and a race in it.
use crate::label::{line_label, touch_label};
use crate::telling::Source;
use ot_exec_outline::{Did, Noted};
use ot_model::Decl;
use ot_race::Race;
use ot_show_races::{Link, Pair, Picture, Task, Touch, Wait, dot_text};
use std::alloc::{AllocError, Global};

/// How many tasks are drawn, and how many waits.
const MOST: usize = 60;

/// A task that began: its number, who created it, where in the run, and what it declares.
#[derive(Clone, Copy)]
struct Begun<'a> {
    number: u32,
    parent: u32,
    place: u32,
    declared: &'a Decl,
}

/// The picture of a run up to a race, or of the whole run where there is none.
pub(crate) fn drawn(
    alloc: Global,
    source: &Source<'_>,
    race: Option<Race>,
) -> Result<Vec<u8>, AllocError> {
    let log = source.run.log.as_slice();
    let end = match race {
        Some(race) => (race.later as usize).saturating_add(1).min(log.len()),
        None => log.len(),
    };
    let begun = begun_in(alloc, &log[..end])?;
    let kept = match race {
        Some(race) => kept_around(alloc, log, &begun, race)?,
        None => first_kept(alloc, &begun)?,
    };
    let picture = Picture {
        tasks: tasks_of(alloc, source, &kept)?,
        more: u32::try_from(begun.len().saturating_sub(kept.len())).unwrap_or(u32::MAX),
        waits: waits_of(alloc, source, &log[..end], &kept)?,
        links: links_of(alloc, &kept)?,
        race: pair_of(alloc, source, race)?,
    };
    dot_text(alloc, &picture)
}

/// The tasks that begin in a part of a run.
fn begun_in<'a>(alloc: Global, log: &'a [Noted]) -> Result<Vec<Begun<'a>>, AllocError> {
    let mut begun = Vec::new(alloc);
    for noted in log {
        if let Did::Begins(parent, declared) = &noted.did {
            begun.push(Begun {
                number: noted.task,
                parent: *parent,
                place: noted.place,
                declared,
            })?;
        }
    }
    Ok(begun)
}

fn first_kept<'a>(alloc: Global, begun: &[Begun<'a>]) -> Result<Vec<Begun<'a>>, AllocError> {
    let mut kept = Vec::new(alloc);
    for one in begun.iter().take(MOST) {
        kept.push(*one)?;
    }
    Ok(kept)
}

/// The tasks that touch, those that created them, and of the others the last ones.
fn kept_around<'a>(
    alloc: Global,
    log: &[Noted],
    begun: &[Begun<'a>],
    race: Race,
) -> Result<Vec<Begun<'a>>, AllocError> {
    let mut is_kept = Vec::new(alloc);
    is_kept.resize(begun.len(), false)?;
    let mut count = 0;
    for place in [race.place, race.later] {
        count = mark_around(begun, task_at(log, place), &mut is_kept, count);
    }
    for it in is_kept.iter_mut().rev() {
        if count < MOST && !*it {
            *it = true;
            count = count.saturating_add(1);
        }
    }
    let mut kept = Vec::new(alloc);
    for (one, is_kept) in begun.iter().zip(is_kept.iter()) {
        if *is_kept {
            kept.push(*one)?;
        }
    }
    Ok(kept)
}

/// The task that does what stands at a place of a run.
fn task_at(log: &[Noted], place: u32) -> u32 {
    match log.get(place as usize) {
        Some(noted) => noted.task,
        None => 0,
    }
}

/// Marks a task and those around it, as far as there is room, and tells how many are marked.
fn mark_around(begun: &[Begun<'_>], task: u32, is_kept: &mut [bool], count: usize) -> usize {
    let mut count = count;
    let mut task = task;
    for at in (0..begun.len().min(is_kept.len())).rev() {
        if begun[at].number == task && count < MOST {
            if !is_kept[at] {
                is_kept[at] = true;
                count = count.saturating_add(1);
            }
            task = begun[at].parent;
        }
    }
    count
}

fn tasks_of(
    alloc: Global,
    source: &Source<'_>,
    kept: &[Begun<'_>],
) -> Result<Vec<Task>, AllocError> {
    let mut tasks = Vec::new(alloc);
    for one in kept {
        tasks.push(Task {
            number: one.number,
            parent: shown_parent(kept, one.parent),
            label: line_label(alloc, source, one.place)?,
        })?;
    }
    Ok(tasks)
}

/// Who created a task, as it is drawn: the program, where that one isn't drawn.
fn shown_parent(kept: &[Begun<'_>], parent: u32) -> u32 {
    if kept.iter().any(|one| one.number == parent) {
        parent
    } else {
        0
    }
}

/// Which of the tasks wait for which by what both declare, but where that follows from others.
fn links_of(alloc: Global, kept: &[Begun<'_>]) -> Result<Vec<Link>, AllocError> {
    let mut links: Vec<Link> = Vec::new(alloc);
    for (at, later) in kept.iter().enumerate() {
        let mut behind: Vec<u32> = Vec::new(alloc);
        for earlier in kept[..at].iter().rev() {
            if earlier.parent != later.parent || !later.declared.depends_on(earlier.declared) {
                continue;
            }
            if !behind.contains(&earlier.number) {
                links.push(Link {
                    earlier: earlier.number,
                    later: later.number,
                })?;
            }
            put_before(&links, earlier.number, &mut behind)?;
        }
    }
    Ok(links)
}

/// Puts a task, and those for which it waits by links, to others.
fn put_before(links: &[Link], task: u32, behind: &mut Vec<u32>) -> Result<(), AllocError> {
    if behind.contains(&task) {
        return Ok(());
    }
    behind.push(task)?;
    for link in links.iter().rev() {
        if behind.contains(&link.later) && !behind.contains(&link.earlier) {
            behind.push(link.earlier)?;
        }
    }
    Ok(())
}

/// A task that nothing has awaited, and how many events were before it.
type Pending<'a> = (usize, Begun<'a>);

/// The waits that await tasks which are drawn.
fn waits_of(
    alloc: Global,
    source: &Source<'_>,
    log: &[Noted],
    kept: &[Begun<'_>],
) -> Result<Vec<Wait>, AllocError> {
    let mut pending: Vec<Pending<'_>> = Vec::new(alloc);
    let mut waits = Vec::new(alloc);
    let mut next = kept.iter();
    let mut child = next.next();
    for (at, noted) in log.iter().enumerate() {
        if let Some(one) = child
            && one.place == noted.place
        {
            pending.push((at, *one))?;
            child = next.next();
            continue;
        }
        let awaited = awaited_by(alloc, &mut pending, at, noted)?;
        if !awaited.is_empty() && waits.len() < MOST {
            waits.push(Wait {
                number: u32::try_from(waits.len()).unwrap_or(0).saturating_add(1),
                task: shown_parent(kept, noted.task),
                label: line_label(alloc, source, noted.place)?,
                awaited,
            })?;
        }
    }
    Ok(waits)
}

/// Takes out those whom an event awaits.
fn awaited_by(
    alloc: Global,
    pending: &mut Vec<Pending<'_>>,
    at: usize,
    noted: &Noted,
) -> Result<Vec<u32>, AllocError> {
    let mut awaited = Vec::new(alloc);
    if matches!(noted.did, Did::Touches | Did::Begins(..)) {
        return Ok(awaited);
    }
    for (since, child) in pending.iter() {
        if is_awaited(noted, at, *since, *child) {
            awaited.push(child.number)?;
        }
    }
    pending.retain(|(since, child)| !is_awaited(noted, at, *since, *child));
    Ok(awaited)
}

/// Whether an event awaits a task before which so many events were: a wait children of its task, the end of a group all tasks in it.
fn is_awaited(noted: &Noted, at: usize, since: usize, child: Begun<'_>) -> bool {
    match &noted.did {
        Did::Awaits(None) => child.parent == noted.task,
        Did::Awaits(Some(declared)) => {
            child.parent == noted.task && declared.depends_on(child.declared)
        }
        Did::Leaves(inside) => at.saturating_sub(since) <= *inside as usize,
        Did::Touches | Did::Begins(..) => false,
    }
}

/// The two touches of a race.
fn pair_of(
    alloc: Global,
    source: &Source<'_>,
    race: Option<Race>,
) -> Result<Option<Pair>, AllocError> {
    let Some(race) = race else {
        return Ok(None);
    };
    let log = source.run.log.as_slice();
    Ok(Some(Pair {
        first: Touch {
            task: task_at(log, race.place),
            label: touch_label(alloc, source, race.place, race.cell)?,
        },
        second: Touch {
            task: task_at(log, race.later),
            label: touch_label(alloc, source, race.later, race.cell)?,
        },
    }))
}
