//! An array that a server told.

/// An array of a tenant.
#[derive(Debug, Drop)]
pub(crate) struct Array {
    pub(crate) name: String,
    pub(crate) cells: Vec<u64>,
}
