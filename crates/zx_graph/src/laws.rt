// What the numbers of a graph's edges name.
ghost use Rattle.zx_graph.specs.Graphs.{EdgesJoinTheirCells};

/// The edge of a pipe stands between the nodes of the pipe's low and high cell, in any diagram.
pub fn edges_join_their_cells()
    ensures { EdgesJoinTheirCells }
{}
