//! The arrays of one tenant, by name in order of creation, and the tenant's limits.
#![tactic(auto)]

pub mod fault;
pub mod limits;
pub mod store;

pub use fault::{StoreFault, StoreRefusal};
pub use limits::Limits;
pub use store::Store;
