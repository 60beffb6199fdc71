//! What batches and their phases make of a sound state. The functions do nothing: each has laws as its contract.

ghost use Rattle.kc_engine.specs.Laws.{StartIsSound, BatchHasOneState, BatchKeepsSound, BatchKeepsBoth, PhasesAreOne, PhasesAreNumberedOn, PhasesAreWellFormed, PhasesLeadOver, PhasesLeadOn, PhasesLeadOneByOne};
ghost use Rattle.kc_engine.specs.Showing.{PhasesContinue, ShownIsAbreast};

/// The state before the first batch is sound.
pub fn start_is_sound()
    ensures { StartIsSound }
{}

/// There is exactly one state after each batch.
pub fn batch_has_one_state()
    ensures { BatchHasOneState }
{}

/// A batch that isn't refused keeps the facts of each state, both invariants among them.
pub fn batch_keeps_sound()
    ensures sound { BatchKeepsSound }
    ensures both { BatchKeepsBoth }
{}

/// Each batch has exactly one list of phases.
pub fn phases_are_one()
    ensures { PhasesAreOne }
{}

/// The phases of a batch are numbered on from those before it, and each has its plan.
#[tactic(auto, using(crate::proofs::PhaseLaw::phases_are_numbered_on))]
pub fn phases_are_numbered_on()
    ensures { PhasesAreNumberedOn }
{}

/// The phases of a batch are well formed.
pub fn phases_are_well_formed()
    ensures { PhasesAreWellFormed }
{}

/// The entries of the phases of a batch lead from the graph and levels before it to those after it. That holds at the
/// end of a history too.
pub fn phases_lead_over()
    ensures over { PhasesLeadOver }
    ensures on { PhasesLeadOn }
{}

/// Each phase of a batch leads from the graph and levels before it to those after it. Its edges come in and the levels
/// rise, or its edges leave and the levels fall.
pub fn phases_lead_one_by_one()
    ensures { PhasesLeadOneByOne }
{}

/// The phases of a batch continue the history of a writer that is up to date with the state before the batch. Once they
/// are shown, the writer is up to date with the state after it.
pub fn phases_continue()
    ensures continues { PhasesContinue }
    ensures abreast { ShownIsAbreast }
{}
