//! What holds of graphs, their edges and the cleaning of batches. Each function does nothing: its contract is the law.

ghost use Rattle.kc_graph.specs.Laws.{InsertionsKeepGraph, RemovalsKeepGraph, AscendingEdgesFillEmptyGraph, NeighboursAreJoined, GraphIsItsEdges};
ghost use Rattle.kc_graph.specs.CleaningLaws.{CleanedFitsGraph, CleanedLeadsAsItems, EachItemCountsOnce};

/// A graph into which edges between its vertices come is a graph.
pub fn insertions_keep_graph()
    ensures { InsertionsKeepGraph }
{}

/// A graph that edges leave is a graph.
pub fn removals_keep_graph()
    ensures { RemovalsKeepGraph }
{}

/// Ascending edges that come into the graph without edges become its edges. They may come in if there are at most
/// `MAX_EDGES`.
pub fn ascending_edges_fill_empty_graph()
    ensures { AscendingEdgesFillEmptyGraph }
{}

/// The neighbours of v are the vertices that share an edge with v, and counting over them is
/// counting over all vertices.
pub fn neighbours_are_joined()
    ensures { NeighboursAreJoined }
{}

/// Two graphs with the same vertices and the same edges are one.
#[tactic(auto, using(crate::proofs::EdgeLemmas::same_graph))]
pub fn graph_is_its_edges()
    ensures { GraphIsItsEdges }
{}

/// The edges that a cleaned batch removes are in the graph and may leave it. The edges that it adds aren't, and may
/// come in afterwards if there is room.
pub fn cleaned_fits_graph()
    ensures { CleanedFitsGraph }
{}

/// Removing and adding the edges of a cleaned batch leads to the same graph as its items, one after another.
#[tactic(auto, using(crate::proofs::CleaningLawLemmas::cleaned_leads_as_items))]
pub fn cleaned_leads_as_items()
    ensures { CleanedLeadsAsItems }
{}

/// Each item of a batch is counted once: as a loop, a repeat or idle, or by the edge that it removes
/// or adds.
#[tactic(auto, using(crate::proofs::CountingLemmas::each_item_counts_once))]
pub fn each_item_counts_once()
    ensures { EachItemCountsOnce }
{}
