//! What follows from the definitions of verdicts and printed runs. The functions do nothing: each has laws as its
//! contract.

ghost use Rattle.kc_audit.specs.Laws.{ExplainedPasses, HasVerdict, IsOneVerdict, LinesExplain};
ghost use Rattle.kc_audit.specs.Printed.{LinesSayKinds, PrintedRunIsReadBack};
ghost use Rattle.kc_audit.specs.ReadBack.{RunIsReadBack};

/// A run whose readers are explained by definition gets no other verdict than `Explained`.
#[tactic(auto, using(crate::proofs::VerdictLemmas::explained_passes))]
pub fn explained_passes()
    ensures { ExplainedPasses }
{}

/// Each run has a verdict, even if there is no memory for an audit.
#[tactic(auto, using(crate::proofs::SomeVerdict::has_verdict))]
pub fn has_verdict()
    ensures { HasVerdict }
{}

/// A run has no two verdicts.
#[tactic(auto, using(crate::proofs::VerdictLemmas::one_verdict))]
pub fn one_verdict()
    ensures { IsOneVerdict }
{}

/// If a history explains replies, the group lines of its entries explain them too. Neither the entries without moves
/// matter, nor the level of a vertex before a move.
#[tactic(auto, using(crate::proofs::LineLemmas::lines_explain))]
pub fn lines_explain()
    ensures { LinesExplain }
{}

/// Lines with the kinds of a run's lines are read as the run's group lines and readers.
#[tactic(auto, using(crate::proofs::RunBack::run_is_read_back))]
pub fn run_is_read_back()
    ensures { RunIsReadBack }
{}

/// Each line of a run has, by its words as they are printed, the kind that is meant.
#[tactic(auto, using(crate::proofs::PrintedForms::lines_say_kinds))]
pub fn lines_say_kinds()
    ensures { LinesSayKinds }
{}

/// The printed lines of a run are read as its group lines and readers, from bytes on.
#[tactic(auto, using(crate::proofs::PrintedForms::printed_run_is_read_back))]
pub fn printed_run_is_read_back()
    ensures { PrintedRunIsReadBack }
{}
