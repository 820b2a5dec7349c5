use crate::assign::Assign;
use crate::bytes::bytes_of;
use crate::step::Step;
use crate::steps::steps_of;
use ot_model::Use;
use std::alloc::{AllocError, Global};
use std::marker::Model;

/// Sets and folds, with their bytes, by which two lists are compared, and their steps, by which they are made. Of
/// the same sets and folds the bytes are the same; where the steps look for cells depends on what else is used.
#[derive(Debug, Drop)]
pub(crate) struct Listed {
    list: Vec<Assign>,
    bytes: Vec<u8>,
    steps: Vec<Step>,
}

impl Model for Listed {
    ghost use Rattle.std.specs.Coded.{codes};
    ghost use Rattle.ot_model.specs.Code.{body_code};
    ghost use Rattle.ot_model.specs.Tree.{Body};
    ghost use Rattle.std.specs.Prelude.{◌≡◌, map};
    ghost use Rattle.ot_parts.specs.Assigns.{assigns_of};
    ghost use Rattle.ot_parts.specs.Bytes.{bytes_of};
    ghost use Rattle.ot_parts.specs.Steps.{deed_of, deeds_of};

    ghost Value = { Body };

    ghost coded = { Prim.hlevel (codes, body_code) };

    ghost view = { λ l. assigns_of l.list.items };

    ghost invariant = { λ l. (l.bytes.items ≡ bytes_of (assigns_of l.list.items)) × (map deed_of l.steps.items ≡ deeds_of (assigns_of l.list.items)) };
}

impl Listed {
    ghost use Rattle.std.specs.Prelude.{◌≡◌, IfOk, map};
    ghost use Rattle.ot_parts.specs.Assigns.{assigns_of};
    ghost use Rattle.ot_parts.specs.Bytes.{bytes_of};
    ghost use Rattle.ot_parts.specs.Steps.{deed_of, deeds_of};

    /// Those of a list, which these uses are for.
    pub(crate) fn new(alloc: Global, list: Vec<Assign>, uses: &[Use]) -> Result<Listed, AllocError>
        ensures { IfOk result (λ l. l ≡ assigns_of list.items) }
    {
        let bytes = bytes_of(alloc, &list)?;
        let steps = steps_of(alloc, &list, uses)?;
        Ok(Listed { list, bytes, steps })
    }

    /// All of them, in their order.
    pub(crate) fn as_slice(&self) -> &[Assign]
        ensures { assigns_of result.now ≡ self.now }
    {
        &self.list
    }

    /// Their bytes.
    pub(crate) fn bytes(&self) -> &[u8]
        ensures { result.now ≡ bytes_of self.now }
    {
        &self.bytes
    }

    /// Their steps.
    pub(crate) fn steps(&self) -> &[Step]
        ensures { map deed_of result.now ≡ deeds_of self.now }
    {
        &self.steps
    }
}
