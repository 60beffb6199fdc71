//! What holds of thresholds, of raised and lowered levels and of both invariants. Each function does nothing: its
//! contract is the law.

ghost use Rattle.kc_levels.specs.Laws.{FirstProfileBegins, SecondProfileBegins, EstimateIsNear, RaisedIsOneList, TopIsRaisable, LesserIsRaisable, InsertionsAloneGiveOneList, LoweredIsOneList, ZerosAreLowerable, GreaterIsLowerable, InsertionKeepsBoth, DeletionKeepsBoth, SequencesRise, HeightIsLeast, LastGroupIsLeast, TopIsLow, NoneBreaksBoth};
ghost use Rattle.kc_levels.specs.Between.{BetweenMeetsBoth};
ghost use Rattle.kc_levels.specs.Sweep.{SweptIsRaised};

/// The first numbers of each sequence of profile 1, and the height and the last band for 1 to 8 vertices.
pub fn profile_one_begins()
    ensures { FirstProfileBegins }
{}

/// The first numbers of each sequence of profile 2, and the height and the last band for 1 to 8 vertices.
pub fn profile_two_begins()
    ensures { SecondProfileBegins }
{}

/// The estimate of a band is twice its lower bound. Its upper bound is at most three times the estimate, and in profile
/// 2 at most twice.
pub fn estimate_is_near()
    ensures { EstimateIsNear }
{}

/// From each level list within the top exactly one list is raised. The top everywhere is raisable from it, and so is
/// the lesser of two raisable lists.
pub fn raised_is_one_list()
    ensures one { RaisedIsOneList }
    ensures top { TopIsRaisable }
    ensures lesser { LesserIsRaisable }
{}

/// A list raised in a graph, and raised again in one with more edges, is raised in the second at once. So levels after
/// insertions alone, from the same start, don't depend on how the edges were cut into batches.
pub fn insertions_alone_give_one_list()
    ensures { InsertionsAloneGiveOneList }
{}

/// From each level list exactly one list is lowered. Level 0 everywhere is lowerable from it, and so is the greater of
/// two lowerable lists.
pub fn lowered_is_one_list()
    ensures one { LoweredIsOneList }
    ensures zeros { ZerosAreLowerable }
    ensures greater { GreaterIsLowerable }
{}

/// If both invariants hold before a phase, they hold after it.
pub fn phases_keep_both()
    ensures insertion { InsertionKeepsBoth }
    ensures deletion { DeletionKeepsBoth }
{}

/// The sequences of a profile never fall. The height of a band and the last band are the least numbers for their
/// purpose, for every number of vertices. The top is at most 5,042 in profile 1 and 16,769 in profile 2, for up to
/// `MAX_VERTICES` vertices. No vertex breaks both invariants.
#[tactic(auto, using(crate::proofs::FitLaws::sequences_rise, crate::proofs::FitLaws::height_is_least, crate::proofs::FitLaws::last_group_is_least, crate::proofs::FitLaws::top_is_low, crate::proofs::FitLaws::none_breaks_both))]
pub fn thresholds_fit()
    ensures rise { SequencesRise }
    ensures height { HeightIsLeast }
    ensures last { LastGroupIsLeast }
    ensures top { TopIsLow }
    ensures apart { NoneBreaksBoth }
{}

/// Both invariants hold in a state between two in which they hold. Each vertex whose level differs in the two has to be
/// as in one of them. So they hold at every point of a phase that takes effect part by part.
pub fn between_meets_both()
    ensures { BetweenMeetsBoth }
{}

/// The swept lists are the raised ones. Above each level stand the vertices that were above it before. With them stand
/// the vertices that have more neighbours among those on the level or above than its band allows.
pub fn swept_is_raised()
    ensures { SweptIsRaised }
{}
