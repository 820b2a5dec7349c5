ghost use Rattle.std.specs.Prelude.{◌≡◌, ◌↔◌, IsTrue, IfOk, MatchResult, map};
ghost use Rattle.ot_parts.specs.Assigns.{assigns_of};

use crate::assign::Assign;
use crate::bytes::same_bytes;
use crate::listed::Listed;
use crate::step::Step;
use ot_model::Use;
use std::alloc::{AllocError, Global};
use std::marker::Model;
use std::sync::Arc;

/// Sets and folds that come one behind the other, shared by all that hold them.
#[derive(Debug, Drop)]
pub struct Assigns {
    /// None where there are none, which takes no memory.
    list: Option<Arc<Listed>>,
}

impl Model for Assigns {
    ghost use Rattle.std.specs.Coded.{codes};
    ghost use Rattle.ot_model.specs.Code.{body_code};
    ghost use Rattle.ot_model.specs.Tree.{Body};
    ghost use Rattle.std.specs.Prelude.{option_map};
    ghost use Rattle.std.specs.Arc.{arc_value};
    ghost use Rattle.ot_parts.specs.Assigns.{assigns_in};

    ghost Value = { Body };

    ghost coded = { Prim.hlevel (codes, body_code) };

    ghost view = { λ a. assigns_in (option_map arc_value a.list) };
}

impl Assigns {
    ghost use Rattle.ot_model.specs.Tree.{End};
    ghost use Rattle.ot_parts.specs.Parts.{leading, leading_len};
    ghost use Rattle.ot_parts.specs.Bytes.{bytes_of};
    ghost use Rattle.ot_parts.specs.Steps.{deed_of, deeds_of};

    /// None. It takes no memory.
    pub(crate) fn none() -> Assigns
        ensures { result ≡ End }
    {
        Assigns { list: None }
    }

    /// Those of a list, which these uses are for. Of none it takes no memory.
    pub(crate) fn new(alloc: Global, list: Vec<Assign>, uses: &[Use]) -> Result<Assigns, AllocError>
        ensures { IfOk result (λ a. a ≡ assigns_of list.items) }
    {
        if list.is_empty() {
            return Ok(Assigns::none());
        }
        match Arc::new(alloc, Listed::new(alloc, list, uses)?) {
            Ok(list) => Ok(Assigns { list: Some(list) }),
            Err(_) => Err(AllocError),
        }
    }

    /// The same ones, held once more. It takes no memory, and is refused only where more hold them than
    /// can be counted.
    pub fn share(&self) -> Result<Assigns, AllocError>
        ensures { IfOk result (λ a. a ≡ self.now) }
    {
        match &self.list {
            None => Ok(Assigns::none()),
            Some(list) => Ok(Assigns {
                list: Some(Arc::try_clone(list)?),
            }),
        }
    }

    /// All of them, in their order.
    pub fn as_slice(&self) -> &[Assign]
        ensures { assigns_of result.now ≡ self.now }
    {
        match &self.list {
            None => &[],
            Some(list) => list.as_slice(),
        }
    }

    /// Whether there are none.
    pub fn is_empty(&self) -> bool
        ensures is { IsTrue result ↔ self.now ≡ End }
        ensures only { leading self.now ≡ self.now }
    {
        self.as_slice().is_empty()
    }

    /// How many they are.
    pub fn len(&self) -> usize
        ensures { result ≡ leading_len self.now }
    {
        self.as_slice().len()
    }

    /// Whether they are the same sets and folds.
    pub fn same_as(&self, other: &Assigns) -> bool
        ensures { IsTrue result ↔ self.now ≡ other.now }
    {
        // Both are lists of sets and folds: of these alone the bytes tell which they are.
        let _one = self.as_slice();
        let _two = other.as_slice();
        same_bytes(self.bytes(), other.bytes())
    }

    /// The steps by which they are made, from the first to the last. Each looks for its cell first where that is
    /// lent with all that the run touches.
    pub fn steps(&self) -> &[Step]
        ensures { map deed_of result.now ≡ deeds_of self.now }
    {
        match &self.list {
            None => &[],
            Some(list) => list.steps(),
        }
    }

    /// Their bytes.
    fn bytes(&self) -> &[u8]
        ensures { result.now ≡ bytes_of self.now }
    {
        match &self.list {
            None => &[],
            Some(list) => list.bytes(),
        }
    }
}
