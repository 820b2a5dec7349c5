//! Jobs over one array.
use ot_check::JobSpec;
use ot_program::ProgramFault;
use std::alloc::Global;
use test_reading::job_over;

/// The job of a body over 1, 2, 3 and so on, up to so many.
pub(crate) fn job_of(alloc: Global, cells: u64, body: &str) -> Result<JobSpec, ProgramFault> {
    let array = (1..cells.saturating_add(1)).collect::<Vec<u64>>(alloc)?;
    job_over(alloc, array, body)
}
