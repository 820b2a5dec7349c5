//! Laws of graphs. Each is the contract of a function that does nothing: a caller that needs the law
//! calls it.
ghost use Rattle.ot_show_graph.specs.Links.{WaitsAtCells};

/// Of two children of one body the later waits for the earlier by itself exactly where there is a cell
/// at which it does: no link is without cells.
pub fn waits_at_cells()
    ensures { WaitsAtCells }
{}
