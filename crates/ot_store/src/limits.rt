ghost use Rattle.std.specs.Prelude.{◌≡◌};

/// How much one tenant may have.
#[derive(Clone, Copy, Debug, PartialEq, Eq)]
pub struct Limits {
    /// Arrays at one time.
    pub arrays: u32,
    /// Cells of all arrays at one time.
    pub cells: u32,
    /// Task statements of one expanded program.
    pub tasks: u32,
    /// Requests in the log, refused ones among them.
    pub log: u32,
}

impl Limits {
    ghost use Rattle.ot_store.specs.Refusals.{usual_limits};

    /// What a tenant has unless told otherwise: 16 arrays, 65,536 cells, 1,024 task statements and
    /// 4,096 requests.
    pub fn usual() -> Limits
        ensures { result ≡ usual_limits }
    {
        Limits {
            arrays: 16,
            cells: 65_536,
            tasks: 1_024,
            log: 4_096,
        }
    }
}
