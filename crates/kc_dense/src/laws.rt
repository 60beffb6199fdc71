//! What holds of peeling lists and dense parts. Each function does nothing: its contract is the law.

ghost use Rattle.kc_dense.specs.Laws.{EachHasPeelingList, PeelingListIsOne, EachHasDensePart, DensePartIsOne, DensePartIsHalfAsDense};

/// Each graph has exactly one peeling list.
#[tactic(auto, using(crate::proofs::PeelingLemmas::each_has_peeling_list, crate::proofs::PeelingLemmas::peeling_list_is_one))]
pub fn peeling_list_is_one()
    ensures some { EachHasPeelingList }
    ensures one { PeelingListIsOne }
{}

/// Each graph with a vertex has exactly one dense part.
pub fn dense_part_is_one()
    ensures some { EachHasDensePart }
    ensures one { DensePartIsOne }
{}

/// The dense part is at least half as dense as any set of vertices of the graph.
#[tactic(auto, using(crate::proofs::FactorLemmas::dense_part_is_half_as_dense))]
pub fn dense_part_is_half_as_dense()
    ensures { DensePartIsHalfAsDense }
{}
