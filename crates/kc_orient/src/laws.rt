//! What holds of orientations and colourings. Each function does nothing: its contract is the law.

ghost use Rattle.kc_orient.specs.Laws.{AboveIsAnOrder, EachEdgeOnce, NoCycle, OutNeighboursAreFew, ColouringIsOne, ColouringIsProper, ColoursAreFew};

/// Each edge stands in exactly one of the lists of its ends. The lists have nothing else and ascend, and no walk from
/// out-neighbour to out-neighbour comes back to its start.
#[tactic(auto, using(crate::proofs::Upward::above_is_an_order, crate::proofs::Arcs::each_edge_once, crate::proofs::Upward::no_cycle))]
pub fn edges_lead_upward()
    ensures order { AboveIsAnOrder }
    ensures once { EachEdgeOnce }
    ensures acyclic { NoCycle }
{}

/// A vertex that meets the upper invariant has at most as many out-neighbours as its band allows neighbours. That is at
/// most six times the lower bound of the band, in profile 2 four times.
#[tactic(auto, using(crate::proofs::Upward::out_neighbours_are_few))]
pub fn out_neighbours_are_few()
    ensures { OutNeighboursAreFew }
{}

/// Each orientation has exactly one colouring. It is proper, and no colour is above the number of its vertex's
/// out-neighbours. So there is at most one more colour than the greatest of these numbers.
#[tactic(auto, using(crate::proofs::Existence::colouring_is_one, crate::proofs::Colourings::colouring_is_proper, crate::proofs::Colourings::colours_are_few))]
pub fn colouring_is_one()
    ensures one { ColouringIsOne }
    ensures proper { ColouringIsProper }
    ensures few { ColoursAreFew }
{}
