//! What programs may have at most.

/// Bodies in one another, the program's own among them.
pub const MAX_NESTING: u32 = 16;

/// The depth of an expression.
pub const MAX_DEPTH: u32 = 24;

/// Statements of the expanded program.
pub const MAX_STATEMENTS: u64 = 20_000;

/// Turns of all `for`s.
pub const MAX_TURNS: u32 = 40_000;

/// Numbers, variables, cells, operations and picks in the values of all statements.
pub const MAX_NODES: u64 = 200_000;

/// Cells of all sections, as often as they are named.
pub const MAX_CELLS: u64 = 1_048_576;
