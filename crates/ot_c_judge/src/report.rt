//! What is told of a C text.
use ot_file_diagnosis::Diagnosis;

/// What is told of a C text that is judged.
#[derive(Clone, Copy, Debug, PartialEq, Eq)]
pub enum Verdict {
    /// No way through its branches races; the server may still refuse it.
    Clean,
    /// Nothing races in its run, and of its other ways nothing is known: there are too many.
    OnlyRun,
    /// Two touches race.
    Races,
}

/// What is told of a C text that is judged, and what is found in it.
#[derive(Drop)]
pub struct Report {
    pub verdict: Verdict,
    pub found: Vec<Diagnosis>,
}
