//! Who of the children of one body waits for whom by itself.
ghost use Rattle.std.specs.Prelude.{◌≡◌, ◌++◌, OnOk, IfOk, map};
ghost use Rattle.ot_show_graph.specs.Links.{AreLinks, siblings_with};
ghost use Rattle.ot_show_graph.specs.Written.{link_from};
ghost use Rattle.ot_show_graph.specs.Children.{decls_of};

use crate::child::Child;
use ot_depend::Siblings;
use std::alloc::{AllocError, Global};
use std::sync::Arc;

/// Of two children of one body, by their places in the order of creation, from 0: the later waits for the
/// earlier by itself (OpenMP API 5.2, section 15.9.5).
#[derive(Clone, Copy, Debug, PartialEq, Eq)]
pub struct Link {
    pub earlier: usize,
    pub later: usize,
}

/// All links of these children. The children finish in the order of their creation, and each tells who has waited
/// for it.
pub(crate) fn links_of(alloc: Global, children: &[Child<'_>]) -> Result<Vec<Link>, AllocError>
    ensures { IfOk result (λ links. AreLinks (decls_of children.now) links.items) }
{
    let mut siblings = enrolled(alloc, children)?;
    let mut links = Vec::new(alloc);
    for earlier in 0..children.len() {
        let waiters = siblings.release(earlier);
        put_links(&mut links, earlier, &waiters)?;
    }
    Ok(links)
}

/// The children as siblings, none of which has finished.
fn enrolled(alloc: Global, children: &[Child<'_>]) -> Result<Siblings, AllocError>
    ensures { IfOk result (λ siblings. siblings ≡ siblings_with (decls_of children.now)) }
{
    let mut siblings = Siblings::new(alloc);
    for child in children {
        let decl = Arc::new(alloc, child.decl.copy(alloc)?)?;
        siblings.add(alloc, decl, &[])?;
    }
    Ok(siblings)
}

/// A link for each that has waited for a child.
fn put_links(links: &mut Vec<Link>, earlier: usize, waiters: &[usize]) -> Result<(), AllocError>
    ensures { OnOk result (links.new.items ≡ links.old.items ++ map (link_from earlier) waiters.now) }
{
    for later in waiters {
        links.push(Link {
            earlier,
            later: *later,
        })?;
    }
    Ok(())
}
