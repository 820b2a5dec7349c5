ghost use Rattle.std.specs.Prelude.{◌≡◌, IsTrue};
ghost use Rattle.ot_parts.specs.Parts.{part_of, parts_of};

use crate::part::Part;
use ot_model::Cell;

/// Whether bodies have the same parts, one by one: then they are the same body. A body may be put into parts in several ways,
/// so nothing is said where it tells no. It takes no memory.
#[cycle(same)]
pub fn same_parts(ones: &Vec<Part>, twos: &Vec<Part>) -> bool
    ensures { IsTrue result → parts_of ones.now.items ≡ parts_of twos.now.items }
{
    if ones.len() != twos.len() {
        return false;
    }
    for i in 0..ones.len() {
        if !same_part(&ones[i], &twos[i]) {
            return false;
        }
    }
    true
}

/// Whether two have the same sets and folds, and the same control statement in the same parts.
#[cycle(same)]
fn same_part(one: &Part, two: &Part) -> bool
    ensures { IsTrue result → part_of one.now ≡ part_of two.now }
{
    one.assigns().same_as(two.assigns()) && same_control(one, two)
}

/// Whether two have the same control statement in the same parts.
#[cycle(same)]
fn same_control(one: &Part, two: &Part) -> bool
    ensures { IsTrue result → (part_of one.now).control ≡ (part_of two.now).control }
{
    match (one, two) {
        (Part::End(_), Part::End(_)) => true,
        (Part::If(a, one, two), Part::If(x, three, four)) => {
            a.test().same_as(x.test()) && same_parts(one, three) && same_parts(two, four)
        }
        (Part::Task(_, d, one), Part::Task(_, e, two)) => d.same_as(e) && same_parts(one, two),
        (Part::Wait(_, None), Part::Wait(_, None)) => true,
        (Part::Wait(_, Some(d)), Part::Wait(_, Some(e))) => d.same_as(e),
        (Part::Group(_, o, c, one), Part::Group(_, p, d, two)) => {
            o == p && same_cells(c, d) && same_parts(one, two)
        }
        (_, _) => false,
    }
}

fn same_cells(ones: &[Cell], twos: &[Cell]) -> bool
    ensures { IsTrue result → ones.now ≡ twos.now }
{
    ones == twos
}
