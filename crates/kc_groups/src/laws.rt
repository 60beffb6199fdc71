//! What follows from the definitions of labels, groups and plans of phases. The functions do nothing: each has laws as
//! its contract.

ghost use Rattle.kc_groups.specs.Laws.{LabelsAreOne, PlanIsOne, PlanIsWellFormed, MovesAreInTheirGroups, EdgesAreDealtOnce, EntriesLeadOver, PointsLieBetween, PlanAscends, PhasesLead};

/// Each graph with two lists of levels has exactly one list of labels.
#[tactic(auto, using(crate::proofs::LabelLaw::labels_are_one))]
pub fn labels_are_one()
    ensures { LabelsAreOne }
{}

/// Exactly one plan has the entries of a phase.
#[tactic(auto, using(crate::proofs::PlanLaw::plan_is_one))]
pub fn plan_is_one()
    ensures { PlanIsOne }
{}

/// The plan of a phase is well formed.
pub fn plan_is_well_formed()
    ensures { PlanIsWellFormed }
{}

/// The moves of a plan are those of the vertices that move. Each is in the entry of its label, with its levels before
/// and after.
#[tactic(auto, using(crate::proofs::MovesLaw::moves_are_in_their_groups))]
pub fn moves_are_in_their_groups()
    ensures { MovesAreInTheirGroups }
{}

/// Each edge of a phase is in exactly one of its entries, and no other pair is in one.
pub fn edges_are_dealt_once()
    ensures { EdgesAreDealtOnce }
{}

/// The entries of a phase lead from the graph and levels before the phase to those after it.
#[tactic(auto, using(crate::proofs::LeadLaw::entries_lead_over))]
pub fn entries_lead_over()
    ensures { EntriesLeadOver }
{}

/// At each point of a phase the graph and levels lie between those before and those after the phase. So both invariants
/// hold at the point if they hold before and after.
#[tactic(auto, using(crate::proofs::BetweenLaw::points_lie_between))]
pub fn points_lie_between()
    ensures { PointsLieBetween }
{}

/// Moves ascend by vertex in each entry of a phase, and its edges ascend.
#[tactic(auto, using(crate::proofs::AscendLaw::plan_ascends))]
pub fn plan_ascends()
    ensures { PlanAscends }
{}

/// The entries of phases, one after another, lead from the graph and levels before the first to those after the last.
/// More phases lead on from there.
#[tactic(auto, using(crate::proofs::PhaseLaw::phases_lead))]
pub fn phases_lead()
    ensures { PhasesLead }
{}
