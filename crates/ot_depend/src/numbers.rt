//! Lists of children by their numbers, in the order in which the children were created.
ghost use Rattle.std.specs.Prelude.{◌≡◌, OnOk, not};
ghost use Rattle.ot_depend.specs.Kept.{ends_with, with_last, HasRoom, Admits};

use std::alloc::AllocError;

/// Makes room for one more number.
pub(crate) fn make_room(numbers: &mut Vec<usize>) -> Result<(), AllocError>
    ensures same { numbers.new.items ≡ numbers.old.items }
    ensures made { OnOk result (HasRoom numbers.new) }
{
    numbers.reserve(1)
}

/// Puts a number at the end, where it doesn't stand there already, and tells whether it did so.
/// There is to be room for it. It takes no memory.
pub(crate) fn put_last(numbers: &mut Vec<usize>, number: usize) -> bool
    requires { Admits number numbers.old }
    ensures put { numbers.new.items ≡ with_last number numbers.old.items }
    ensures told { result ≡ not (ends_with number numbers.old.items) }
    ensures admits { Admits number numbers.new }
{
    if numbers.last().copied() == Some(number) {
        return false;
    }
    numbers.push_reserved(number);
    true
}
