//! Laws of faults. Each is the contract of a function that does nothing.
ghost use Rattle.ot_why_reason.specs.Faults.{FaultsAreDue};

/// The book refuses a request that runs no program exactly where there is a fault, by the fault's code.
pub fn faults_are_due()
    ensures { FaultsAreDue }
{}
