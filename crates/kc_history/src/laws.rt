//! What holds of the points of a history and of the replies that it explains. Each function does nothing: its contract
//! is the law.

ghost use Rattle.kc_history.specs.Laws.{PointsStay, HistoryStartsEmpty, EntriesLeadOn, PointsLeadOn, LongerExplains, EarlierExplains, EndExplainsMore, StartExplainsZeros};

/// A point of a history is the same point of every history that continues it.
#[tactic(auto, using(crate::proofs::PointLemmas::points_stay))]
pub fn points_stay()
    ensures { PointsStay }
{}

/// At point 0 the graph has no edges and each vertex is on level 0.
#[tactic(auto, using(crate::proofs::PointLemmas::history_starts_empty))]
pub fn history_starts_empty()
    ensures { HistoryStartsEmpty }
{}

/// If entries follow a history, each point after its end is what the entries up to there make of that end.
#[tactic(auto, using(crate::proofs::PointLemmas::entries_lead_on, crate::proofs::PointLemmas::points_lead_on))]
pub fn entries_lead_on()
    ensures end { EntriesLeadOn }
    ensures points { PointsLeadOn }
{}

/// A history that continues another explains what the other explains.
#[tactic(auto, using(crate::proofs::ReplyLemmas::longer_explains))]
pub fn longer_explains()
    ensures { LongerExplains }
{}

/// Replies explained from a point on are explained from each earlier point on.
#[tactic(auto, using(crate::proofs::ReplyLemmas::earlier_explains))]
pub fn earlier_explains()
    ensures { EarlierExplains }
{}

/// A reply with the level of its vertex at the end of the history can follow explained replies.
#[tactic(auto, using(crate::proofs::ReplyLemmas::end_explains_more))]
pub fn end_explains_more()
    ensures { EndExplainsMore }
{}

/// Every history explains replies of level 0, from its start on.
#[tactic(auto, using(crate::proofs::ReplyLemmas::start_explains_zeros))]
pub fn start_explains_zeros()
    ensures { StartExplainsZeros }
{}
