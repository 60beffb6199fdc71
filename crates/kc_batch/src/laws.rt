//! What follows from the definitions of headers and batches. The functions do nothing: each has a law as its contract.
ghost use Rattle.kc_batch.specs.FaultLaw.{FirstFaultDecides, BatchesFollow};
ghost use Rattle.kc_batch.specs.HeaderLaw.{FirstOtherLineEnds};
ghost use Rattle.kc_batch.specs.LineLaw.{LinesEndOnce};
ghost use Rattle.kc_batch.specs.RangeLaw.{BatchesKeepRanges};
ghost use Rattle.kc_batch.specs.Laws.{ReadsSnap, ReadsHeaders, RefusesAsks, ReadsBatches, RefusesBatches, ReadsIsolations, PassesOver};

/// The first fault of a batch decides its result, and which lines are passed over after it.
#[tactic(auto, using(crate::proofs::FaultDecides::first_fault_decides))]
pub fn first_fault_decides()
    ensures { FirstFaultDecides }
{}

/// The batches of an input are the first one, as `first_fault_decides` has it, and then those of the lines after it. No
/// batch follows one that is refused for the input's limit.
pub fn batches_follow()
    ensures { BatchesFollow }
{}

/// The lines of an input that aren't skipped end with one `End` or `Limit`, and no line before it is either. The lines
/// are numbered from 1 on, so no header is refused at a line 0.
#[tactic(auto, using(crate::proofs::LineEnds::lines_end_once))]
pub fn lines_end_once()
    ensures { LinesEndOnce }
{}

/// A header ends before the first line that is no ask line. It is refused at its first faulty line.
#[tactic(auto, using(crate::proofs::HeaderEnds::first_other_line_ends))]
pub fn first_other_line_ends()
    ensures { FirstOtherLineEnds }
{}

/// Example: a SNAP edge file between `batch` and `end`.
pub fn snap_text_is_a_batch()
    ensures { ReadsSnap }
{}

/// Examples: headers, and the first line at which one is refused.
pub fn headers_read()
    ensures { ReadsHeaders }
{}

/// Examples: each fault of an ask line.
pub fn asks_refused()
    ensures { RefusesAsks }
{}

/// Example: a refused batch between two others.
pub fn batches_read()
    ensures { ReadsBatches }
{}

/// Examples: each fault of a batch, and which of two faults decides.
pub fn batches_refused()
    ensures { RefusesBatches }
{}

/// Examples: lines that isolate a vertex, under both profiles.
pub fn isolations_read()
    ensures { ReadsIsolations }
{}

/// Examples: the lines that are passed over after a fault.
pub fn lines_passed_over()
    ensures { PassesOver }
{}

/// Each batch of any lines keeps its ranges: its items are at most the limit, and their vertices below n.
#[tactic(auto, using(crate::proofs::BatchRanges::batches_keep_ranges))]
pub fn batches_keep_ranges()
    ensures { BatchesKeepRanges }
{}
