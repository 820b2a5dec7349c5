ghost use Rattle.std.specs.Prelude.{◌≡◌, IfOk};
ghost use Rattle.std.specs.Arc.{arc_value};

use ot_model::Decl;
use std::alloc::{AllocError, Global};
use std::sync::Arc;

/// A declaration that several keep.
pub(crate) fn share(alloc: Global, decl: Decl) -> Result<Arc<Decl>, AllocError>
    ensures { IfOk result (λ shared. arc_value shared ≡ decl) }
{
    match Arc::new(alloc, decl) {
        Ok(shared) => Ok(shared),
        Err(_) => Err(AllocError),
    }
}
