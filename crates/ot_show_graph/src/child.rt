//! A task of a run.
use ot_model::Decl;

/// A task that a run created.
#[derive(Clone, Copy, Debug)]
pub struct Child<'a> {
    /// Its number: the tasks of a run are counted from 1 in the order of their creation.
    pub number: u32,
    /// The number of its statement, from 1.
    pub place: u32,
    /// What it declares.
    pub decl: &'a Decl,
}
