//! What open groups around a place combine over: a layer for each directive, which inner places share.
ghost use Rattle.std.specs.Prelude.{◌≡◌, ◌==◌, ◌++◌, [], find, map, option_map, IfOk};
ghost use Rattle.std.specs.Option.{option_or};
ghost use Rattle.std.specs.List.{list_any};
ghost use Rattle.ot_c_scope.specs.Scopes as around;
ghost use Rattle.ot_c_scope.specs.Scopes.{extent_of};
ghost use Rattle.ot_c_scope.specs.Layers.{opened_by, opened_in, portions_by, portions_in};

use crate::openings::Openings;
use crate::portions::Portions;
use crate::scope::{Opening, Portion, not_own};
use std::alloc::{AllocError, Global};
use std::rc::Rc;

/// What a directive opens.
#[derive(Drop)]
pub(crate) struct Frame<'a> {
    pub(crate) openings: Openings,
    pub(crate) portions: Portions<'a>,
}

/// What a directive around a place opens.
#[derive(Drop)]
pub(crate) struct Layer<'a> {
    pub(crate) frame: Rc<Frame<'a>>,
    /// Whether no task stands between: in one, no copy is its own.
    pub(crate) own: bool,
}

impl<'a> Layer<'a> {
    /// The same, in a task that stands within or in none.
    fn shared(&self, own: bool) -> Result<Layer<'a>, AllocError>
        ensures frame { IfOk result (λ l. l.frame.value ≡ self.now.frame.value) }
        ensures own { IfOk result (λ l. l.own ≡ own) }
    {
        Ok(Layer {
            frame: self.frame.clone()?,
            own,
        })
    }

    /// The innermost opening by this name.
    fn opening(&self, name: usize) -> Option<Opening>
        ensures { result ≡ find (λ o. o.array == name) (opened_by self.now) }
    {
        let opening = self.frame.openings.of(name);
        if self.own { opening } else { none_own(opening) }
    }
}

fn none_own(opening: Option<Opening>) -> Option<Opening>
    ensures { result ≡ option_map around.not_own opening }
{
    match opening {
        Some(opening) => Some(not_own(opening)),
        None => None,
    }
}

/// The innermost opening by this name.
pub(crate) fn opening_in(layers: &[Layer<'_>], name: usize) -> Option<Opening>
    ensures { result ≡ find (λ o. o.array == name) (opened_in layers.now) }
{
    let mut found = None;
    for layer in layers {
        found = inner_or(layer.opening(name), found);
    }
    found
}

fn inner_or(inner: Option<Opening>, outer: Option<Opening>) -> Option<Opening>
    ensures { result ≡ option_or inner outer }
{
    match inner {
        Some(opening) => Some(opening),
        None => outer,
    }
}

/// The first part of this array.
pub(crate) fn portion_in<'a>(layers: &[Layer<'a>], array: usize) -> Option<Portion<'a>>
    ensures { option_map extent_of result ≡ find (λ p. p.array == array) (portions_in layers.now) }
{
    for layer in layers {
        if let Some(portion) = layer.frame.portions.of(array) {
            return Some(portion);
        }
    }
    None
}

/// Whether there are openings.
pub(crate) fn combine(layers: &[Layer<'_>]) -> bool
    ensures { result ≡ around.combines (opened_in layers.now) }
{
    for layer in layers {
        if layer.frame.openings.are_some() {
            return true;
        }
    }
    false
}

/// Whether an opening is by a pointer to one of these cells of an array.
pub(crate) fn point_into(layers: &[Layer<'_>], array: usize, cells: Option<(u64, u64)>) -> bool
    ensures { result ≡ list_any (λ o. around.points_into array cells o.pointee) (opened_in layers.now) }
{
    for layer in layers {
        if layer.frame.openings.point_into(array, cells) {
            return true;
        }
    }
    false
}

/// The same layers.
pub(crate) fn shared<'a>(alloc: Global, layers: &[Layer<'a>]) -> Result<Vec<Layer<'a>>, AllocError>
    ensures opened { IfOk result (λ v. opened_in v.items ≡ opened_in layers.now) }
    ensures portions { IfOk result (λ v. portions_in v.items ≡ portions_in layers.now) }
{
    let mut same = Vec::new(alloc);
    for layer in layers {
        same.push(layer.shared(layer.own)?)?;
    }
    Ok(same)
}

/// The same layers, in a task.
pub(crate) fn within_task<'a>(
    alloc: Global,
    layers: &[Layer<'a>],
) -> Result<Vec<Layer<'a>>, AllocError>
    ensures opened { IfOk result (λ v. opened_in v.items ≡ map around.not_own (opened_in layers.now)) }
    ensures portions { IfOk result (λ v. portions_in v.items ≡ portions_in layers.now) }
{
    let mut inner = Vec::new(alloc);
    for layer in layers {
        inner.push(layer.shared(false)?)?;
    }
    Ok(inner)
}

/// What the innermost directive opens, to be gone on with, and the layers around it.
#[derive(Drop)]
pub(crate) struct Innermost<'a> {
    pub(crate) frame: Frame<'a>,
    pub(crate) around: Vec<Layer<'a>>,
}

/// What is opened goes into the last layer, or into a new one where others share that.
pub(crate) fn innermost_of<'a>(
    alloc: Global,
    layers: Vec<Layer<'a>>,
) -> Result<Innermost<'a>, AllocError>
    ensures opened { IfOk result (λ i. i.frame.openings ++ opened_in i.around.items ≡ opened_in layers.entry.items) }
    ensures portions { IfOk result (λ i. portions_in i.around.items ++ i.frame.portions ≡ portions_in layers.entry.items) }
{
    let mut around = layers;
    match around.pop() {
        None => Ok(Innermost {
            frame: no_frame(alloc),
            around,
        }),
        Some(layer) => unshared(alloc, layer, around),
    }
}

fn no_frame<'a>(alloc: Global) -> Frame<'a>
    ensures openings { result.openings ≡ [] }
    ensures portions { result.portions ≡ [] }
{
    Frame {
        openings: Openings::new(alloc),
        portions: Portions::new(alloc),
    }
}

fn unshared<'a>(
    alloc: Global,
    layer: Layer<'a>,
    around: Vec<Layer<'a>>,
) -> Result<Innermost<'a>, AllocError>
    ensures opened { IfOk result (λ i. i.frame.openings ++ opened_in i.around.items ≡ opened_by layer.entry ++ opened_in around.entry.items) }
    ensures portions { IfOk result (λ i. portions_in i.around.items ++ i.frame.portions ≡ portions_in around.entry.items ++ portions_by layer.entry) }
{
    if !layer.own {
        return within(alloc, layer, around);
    }
    match Rc::try_unwrap(layer.frame) {
        Ok(frame) => Ok(Innermost { frame, around }),
        Err(frame) => within(alloc, Layer { frame, own: true }, around),
    }
}

/// Nothing yet, within a layer and those around it.
fn within<'a>(
    alloc: Global,
    layer: Layer<'a>,
    around: Vec<Layer<'a>>,
) -> Result<Innermost<'a>, AllocError>
    ensures opened { IfOk result (λ i. i.frame.openings ++ opened_in i.around.items ≡ opened_by layer.entry ++ opened_in around.entry.items) }
    ensures portions { IfOk result (λ i. portions_in i.around.items ++ i.frame.portions ≡ portions_in around.entry.items ++ portions_by layer.entry) }
{
    let mut around = around;
    around.push(layer)?;
    Ok(Innermost {
        frame: no_frame(alloc),
        around,
    })
}

/// The layers, of which the innermost opens this.
pub(crate) fn layered<'a>(
    alloc: Global,
    frame: Frame<'a>,
    around: Vec<Layer<'a>>,
) -> Result<Vec<Layer<'a>>, AllocError>
    ensures opened { IfOk result (λ v. opened_in v.items ≡ frame.entry.openings ++ opened_in around.entry.items) }
    ensures portions { IfOk result (λ v. portions_in v.items ≡ portions_in around.entry.items ++ frame.entry.portions) }
{
    let mut layers = around;
    layers.push(Layer {
        frame: Rc::new(alloc, frame)?,
        own: true,
    })?;
    Ok(layers)
}
