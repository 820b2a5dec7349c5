ghost use Rattle.std.specs.Prelude.{◌≡◌, ◌<◌, ◌^◌, drop};
ghost use Rattle.ot_parts.specs.Parts.{part_of, parts_of, whole, weight};

use crate::part::Part;

/// The weight of the parts of a body from a place on.
#[cycle(weigh)]
pub(crate) fn weigh(parts: &Vec<Part>, at: usize) -> u64
    requires { weight (parts_of (drop at parts.now.items)) < 2 ^ 64 }
    ensures { result ≡ weight (parts_of (drop at parts.now.items)) }
{
    let mut sum = 0;
    for i in at..parts.len() {
        sum += weigh_part(&parts[i]);
    }
    sum
}

/// The weight of a part.
#[cycle(weigh)]
fn weigh_part(part: &Part) -> u64
    requires { weight (whole (part_of part.now)) < 2 ^ 64 }
    ensures { result ≡ weight (whole (part_of part.now)) }
{
    if !part.has_control() {
        return 0;
    }
    match part {
        Part::If(_, one, two) => {
            let one = weigh(one, 0);
            let two = weigh(two, 0);
            1 + one.max(two)
        }
        Part::Task(_, _, body) => 2 + weigh(body, 0),
        Part::Wait(_, _) => 1,
        Part::Group(_, _, _, body) => 2 + weigh(body, 0),
        Part::End(_) => 0,
    }
}
