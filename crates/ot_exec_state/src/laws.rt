//! Laws of what isn't known. Each is the contract of a function that does nothing.
ghost use Rattle.ot_exec_state.specs.Laws.{OperationCovers, ConversionCovers, AdvanceCovers, DistanceCovers, BranchCovers};

/// What an operation gives of values stands for what it gives of those for which they stand.
pub fn operation_covers()
    ensures { OperationCovers }
{}

/// So does a conversion.
pub fn conversion_covers()
    ensures { ConversionCovers }
{}

/// A place that is moved on.
pub fn advance_covers()
    ensures { AdvanceCovers }
{}

/// And a distance.
pub fn distance_covers()
    ensures { DistanceCovers }
{}

/// A branch goes by what stands for a value as it goes by the value.
pub fn branch_covers()
    ensures { BranchCovers }
{}
