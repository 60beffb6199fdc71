//! What holds of coreness, and how the invariants of levels bound it. Each function does nothing: its contract is the
//! law.

ghost use Rattle.kc_bound.specs.Laws.{CoresAreLists, EachHasCoreness, CorenessIsOne, HighBoundsCoreness, LoBoundsCoreness, EstimateIsNearCoreness, BothAreNear, EachPointIsNear};

/// Each core is the members of a list of vertices, so sets and lists give the same cores.
#[tactic(auto, using(crate::proofs::Members::cores_are_lists))]
pub fn cores_are_lists()
    ensures { CoresAreLists }
{}

/// Each vertex of a graph has exactly one coreness.
#[tactic(auto, using(crate::proofs::Existence::each_has_coreness, crate::proofs::LevelBounds::coreness_is_one))]
pub fn coreness_is_one()
    ensures some { EachHasCoreness }
    ensures one { CorenessIsOne }
{}

/// If the upper invariant holds at each vertex, no coreness is above the upper bound of its vertex's level.
#[tactic(auto, using(crate::proofs::LevelBounds::high_bounds_coreness))]
pub fn high_bounds_coreness()
    ensures { HighBoundsCoreness }
{}

/// If the lower invariant holds at each vertex, no coreness is below the lower bound of its vertex's level.
#[tactic(auto, using(crate::proofs::LevelBounds::lo_bounds_coreness))]
pub fn lo_bounds_coreness()
    ensures { LoBoundsCoreness }
{}

/// If both invariants hold at each vertex, the estimate of its level is at most twice its coreness. The coreness is at
/// most three times the estimate, in the second profile twice.
#[tactic(auto, using(crate::proofs::LevelBounds::estimate_is_near_coreness))]
pub fn estimate_is_near_coreness()
    ensures { EstimateIsNearCoreness }
{}

/// Both invariants hold at each point of a history of phases. So the coreness of each vertex lies between the bounds of
/// its level, and its estimate is near, there and wherever both invariants hold.
pub fn each_point_is_near()
    ensures both { BothAreNear }
    ensures point { EachPointIsNear }
{}
