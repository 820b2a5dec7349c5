//! A program that a session ran.
use ot_check::JobSpec;
use ot_model::ArrayShape;

/// A program that a session ran: the checked program with the cells before it, and the arrays' names and
/// lengths, in the order in which its cells name them.
#[derive(Debug, Drop)]
pub struct LastRun {
    pub spec: JobSpec,
    pub arrays: Vec<ArrayShape>,
}
