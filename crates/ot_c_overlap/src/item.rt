//! Items of `depend` clauses.
ghost use Rattle.std.specs.Prelude.{◌≡◌, ◌++◌, OnOk, map};
ghost use Rattle.ot_c_overlap.specs.Items.{item_of, list_items, each_cell};

use crate::clause::short;
use ot_model::Section;
use std::alloc::AllocError;

/// An item of a `depend` clause: the entry that has it, that of the task in whose body it is, 0 for the program's own, and whether
/// its clause writes.
#[derive(Clone, Copy, Debug, PartialEq, Eq)]
pub(crate) struct Item {
    pub(crate) parent: u32,
    pub(crate) entry: u32,
    pub(crate) writes: bool,
    pub(crate) section: Section,
}

/// The items of a clause that names a section: the section, or each of its cells where an iterator names them.
pub(crate) fn note_items(
    whole: Item,
    is_iterated: bool,
    noted: &mut Vec<Item>,
) -> Result<(), AllocError>
    ensures { OnOk result (noted.new.items ≡ noted.old.items ++ map (item_of whole.parent whole.entry) (list_items whole.writes is_iterated whole.section)) }
{
    if is_iterated {
        return note_cells(whole, noted);
    }
    noted.push(whole)?;
    Ok(())
}

fn note_cells(whole: Item, noted: &mut Vec<Item>) -> Result<(), AllocError>
    ensures { OnOk result (noted.new.items
        ≡ noted.old.items ++ map (item_of whole.parent whole.entry) (each_cell whole.writes whole.section.array whole.section.start whole.section.len)) }
{
    let start = u64::from(whole.section.start);
    let len = u64::from(whole.section.len);
    for index in start..start + len {
        let section = Section {
            array: whole.section.array,
            start: short(index)?,
            len: 1,
        };
        noted.push(Item { section, ..whole })?;
    }
    Ok(())
}
