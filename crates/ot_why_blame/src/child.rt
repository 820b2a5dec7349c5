use ot_model::Decl;

/// A child that may be unawaited: the place of its task, and what it declares.
#[derive(Clone, Copy, Debug)]
pub(crate) struct Child<'a> {
    pub(crate) place: u32,
    pub(crate) decl: &'a Decl,
}
