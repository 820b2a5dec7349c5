//! The children of one body.
ghost use Rattle.ot_show_graph.specs.Links.{AreLinks};
ghost use Rattle.ot_show_graph.specs.Children.{decls_of};

use crate::child::Child;
use crate::link::{Link, links_of};
use std::alloc::{AllocError, Global};

/// The children of one body that was run, in the order of their creation, and which of them waits for which by
/// itself.
#[derive(Debug, Drop)]
pub struct Family<'a> {
    /// The number of the task whose body it is, and 0 for the program's own.
    pub parent: u32,
    pub children: Vec<Child<'a>>,
    pub links: Vec<Link>,
    ghost exact: { AreLinks (decls_of children.items) links.items },
}

impl<'a> Family<'a> {
    ghost use Rattle.std.specs.Prelude.{◌≡◌, IfOk};

    /// The family of these children.
    pub(crate) fn of(
        alloc: Global,
        parent: u32,
        children: Vec<Child<'a>>,
    ) -> Result<Family<'a>, AllocError>
        ensures parent { IfOk result (λ family. family.parent ≡ parent) }
        ensures children { IfOk result (λ family. family.children ≡ children.entry) }
    {
        let links = links_of(alloc, &children)?;
        Ok(Family {
            parent,
            children,
            links,
        })
    }
}
