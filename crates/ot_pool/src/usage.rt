/// The units that were settled.
#[derive(Debug, PartialEq, Eq, Drop)]
pub struct Usage {
    /// For each tenant, in order of their numbers.
    pub by_tenant: Vec<u64>,
    /// For all tenants.
    pub total: u64,
}
