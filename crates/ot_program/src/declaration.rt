ghost use Rattle.std.specs.Prelude.{◌≡◌, ◌++◌, ◌≤◌, length, All, OnOk, IfOk, Some, None, if◌then◌else◌, flat_map};
ghost use Rattle.std.specs.Map.{keys_of};
ghost use Rattle.std.specs.List.Sorted.{IsStrictlySortedBy};
ghost use Rattle.ot_model.specs.Cells.{AreInOrder, same_fold};
ghost use Rattle.ot_model.specs.Tree.{cells_of};
ghost use Rattle.ot_model.specs.declared.stmt.Mode.TheVariants.{Folds};
ghost use Rattle.ot_program.specs.Returned.{Gives};
ghost use Rattle.ot_program.specs.walk.Namings.{fits, together, cell_order, before, name_cell, name_clause};
ghost use Rattle.ot_program.specs.walk.Parts.{uses_of, declaration};

use crate::clause::Clause;
use crate::fault::{ProgramFault, Refusal};
use ot_model::{Cell, Decl, Fold, Mode, Section, Use};
use std::alloc::{AllocError, Global};

// A cell, by its array and its index.
type Key = (u32, u32);

// Cells in order, each once with its mode, or with none where one clause that names it is `red` and another isn't, or is
// `red` with another operation.
type Named = Vec<(Key, Option<Mode>)>;

/// The declaration of a task with these clauses. What they name in all counts, and not how they stand to each
/// other: they are sorted by where they begin, so that a cell that no clause before named goes to the end.
pub(crate) fn declare(alloc: Global, clauses: Vec<Clause>) -> Result<Decl, ProgramFault>
    requires { All (λ c. fits c.section) clauses.items }
    ensures { Gives (λ d. d) result (declaration clauses.items) }
{
    let mut sorted = clauses;
    sorted.sort_unstable_by_key(|clause| (clause.section.array, clause.section.start));
    let mut named = Vec::new(alloc);
    for clause in &sorted {
        name_clause(&mut named, *clause)?;
    }
    let uses = uses_of(alloc, &named)?;
    Ok(Decl::new(uses))
}

// Names each cell of a clause once more.
fn name_clause(named: &mut Named, clause: Clause) -> Result<(), AllocError>
    requires fits { fits clause.section }
    requires ordered { IsStrictlySortedBy cell_order (keys_of named.old.items) }
    ensures { OnOk result (named.new.items ≡ name_clause named.old.items clause) }
{
    let Section { array, start, len } = clause.section;
    let mut place = place_of(named, (array, start));
    for step in 0..len {
        name_cell(named, place, clause.mode, (array, start + step))?;
        place += 1;
    }
    Ok(())
}

// How many of the cells come before this one.
fn place_of(named: &Named, key: Key) -> usize
    requires { IsStrictlySortedBy cell_order (keys_of named.now.items) }
    ensures { result ≡ before key named.now.items }
{
    named.partition_point(|one| one.0 < key)
}

// Names a cell once more, before which so many come.
fn name_cell(named: &mut Named, place: usize, mode: Mode, key: Key) -> Result<(), AllocError>
    requires ordered { IsStrictlySortedBy cell_order (keys_of named.old.items) }
    requires place { place ≡ before key named.old.items }
    ensures { OnOk result (named.new.items ≡ name_cell mode named.old.items (record { array = key.0; index = key.1 })) }
{
    if place < named.len() && named[place].0 == key {
        named[place].1 = together(named[place].1, mode);
        return Ok(());
    }
    named.insert(place, (key, Some(mode)))?;
    Ok(())
}

// One mode for two. A cell is only read where it is named as read alone.
fn together(earlier: Option<Mode>, mode: Mode) -> Option<Mode>
    ensures { result ≡ together earlier mode }
{
    match (earlier?, mode) {
        (Mode::Folds(one), Mode::Folds(two)) => one_fold(one, two),
        (Mode::Folds(_), _) | (_, Mode::Folds(_)) => None,
        (Mode::Reads, Mode::Reads) => Some(Mode::Reads),
        (_, _) => Some(Mode::Writes),
    }
}

// One fold for two.
fn one_fold(one: Fold, two: Fold) -> Option<Mode>
    ensures { result ≡ if same_fold one two then Some (Folds one) else None }
{
    if one == two {
        Some(Mode::Folds(one))
    } else {
        None
    }
}

fn uses_of(alloc: Global, named: &Named) -> Result<Vec<Use>, ProgramFault>
    requires { IsStrictlySortedBy cell_order (keys_of named.now.items) }
    ensures uses { Gives (λ v. v.items) result (uses_of named.now.items) }
    ensures ordered { IfOk result (λ v. AreInOrder v.items) }
{
    let mut uses = Vec::with_capacity(alloc, named.len())?;
    for one in named {
        let ((array, index), Some(mode)) = *one else {
            return Err(ProgramFault::Refused(Refusal::MixedReduction));
        };
        let cell = Cell { array, index };
        uses.push(Use { cell, mode })?;
    }
    Ok(uses)
}

/// The cells of sections in their order.
pub(crate) fn sections_cells(alloc: Global, sections: &[Section]) -> Result<Vec<Cell>, AllocError>
    requires { All fits sections.now }
    ensures { IfOk result (λ v. v.items ≡ flat_map cells_of sections.now) }
{
    let mut cells = Vec::new(alloc);
    for section in sections {
        push_cells(&mut cells, *section)?;
    }
    Ok(cells)
}

fn push_cells(cells: &mut Vec<Cell>, section: Section) -> Result<(), AllocError>
    requires { fits section }
    ensures { OnOk result (cells.new.items ≡ cells.old.items ++ cells_of section) }
{
    for step in 0..section.len {
        cells.push(Cell {
            array: section.array,
            index: section.start + step,
        })?;
    }
    Ok(())
}
