//! What follows from the definitions of the texts of `kcore`. The functions do nothing: each has a law as its contract.
ghost use Rattle.std.specs.Prelude.{◌≡◌};
ghost use Rattle.kc_graph.specs.declared.limits.TheConstants.{MAX_VERTICES, MAX_EDGES, MAX_ITEMS};
ghost use Rattle.kc_history.specs.declared.limits.TheConstants.{MAX_PHASE};
ghost use Rattle.kcore.specs.declared.limits.TheConstants.{LINE_LIMIT, RUN_LINE_LIMIT, INPUT_LIMIT};
ghost use Rattle.kcore.specs.Laws.{InputHasOneHistory, InputHasText, RepliesHaveText, TextsAreAlike, HasOneText, StatesArePoints, EachPointIsNear, EachStateHolds};
ghost use Rattle.kcore.specs.AuditLaw.{RunIsExplained};
ghost use Rattle.kcore.specs.CertificateLaw.{FinalIsCertified};
ghost use Rattle.kcore.specs.ExactText.{IsExactText};
ghost use Rattle.kcore.specs.FinalText.{IsFinalText};
ghost use Rattle.kcore.specs.OrientText.{IsOrientText};
ghost use Rattle.kcore.specs.DenseText.{IsDenseText};
ghost use Rattle.kcore.specs.LoadText.{IsLoadText};

/// The limits that the definitions name, each as its number. The other limits are numbers in the definitions:
///
/// - 64 asks and 65,536 questions of each ask (`Headers` of `kc_batch`);
/// - 64 workers and the sizes of a load (`Commands`);
/// - levels up to 65,535 in a run text (`kc_audit`).
pub fn limits_are()
    ensures line { LINE_LIMIT ≡ 65536 }
    ensures run_line { RUN_LINE_LIMIT ≡ 1073741824 }
    ensures input { INPUT_LIMIT ≡ 1073741824 }
    ensures vertices { MAX_VERTICES ≡ 16777216 }
    ensures edges { MAX_EDGES ≡ 16777216 }
    ensures items { MAX_ITEMS ≡ 1048576 }
    ensures phases { MAX_PHASE ≡ 16777215 }
{}

/// Each input has exactly one list of steps, one step for each of its batches. So it has exactly one history.
pub fn input_has_one_history()
    ensures { InputHasOneHistory }
{}

/// Each input has a text of a run. So has each list of replies that fits its asks and that the history of its batches
/// explains.
pub fn input_has_text()
    ensures text { InputHasText }
    ensures replies { RepliesHaveText }
{}

/// Two texts of runs of one input differ in the lines of its readers alone, and both say the same about refusal. So
/// everything else in them is the same for every number of workers, and for every way in which the readers ran beside
/// the batches.
pub fn texts_are_alike()
    ensures { TextsAreAlike }
{}

/// Take an input with a header, and a text that `run` writes of it within the limit of an input. The text is read as
/// the groups of the history and the replies of the readers. The groups explain each reader, and `audit` writes
/// `explained` for the text.
pub fn run_is_explained()
    ensures { RunIsExplained }
{}

/// For each input there is exactly one exact text.
pub fn input_has_one_exact_text()
    ensures { HasOneText IsExactText }
{}

/// For each input there is exactly one text of `final`, so it is the same for every number of workers.
pub fn input_has_one_final_text()
    ensures { HasOneText IsFinalText }
{}

/// Take an input with a header, and the text that `final` writes of it, within the limit of an input. The text is read
/// as the certificate of the last graph and levels, and `check` writes `certified` for it.
pub fn final_is_certified()
    ensures { FinalIsCertified }
{}

/// For each input there is exactly one oriented text.
pub fn input_has_one_orient_text()
    ensures { HasOneText IsOrientText }
{}

/// For each input there is exactly one dense text.
pub fn input_has_one_dense_text()
    ensures { HasOneText IsDenseText }
{}

/// For each input there is exactly one line of `gen`. So the text for a generated load is the same at each run, and for
/// every number of workers.
pub fn input_has_one_load_text()
    ensures { HasOneText IsLoadText }
{}

/// The states of each input are points of its history, and the history is that of its phases, one after another.
pub fn states_are_points()
    ensures { StatesArePoints }
{}

/// Facts at each point of the history of each input, also between two groups of one phase:
///
/// - both invariants hold;
/// - the coreness of each vertex lies between the bounds of its level;
/// - the estimate is at most twice the coreness, and the coreness at most three times the estimate, in the second
///   profile at most twice.
pub fn each_point_is_near()
    ensures { EachPointIsNear }
{}

/// Facts in each state of each input, the first and the one after each batch. Both invariants hold, and the printed
/// numbers of each vertex bound its coreness: `low <= coreness <= high`, `est <= 2 * coreness` and
/// `coreness <= 3 * est`. If the header has the second profile, also `coreness <= 2 * est`.
pub fn each_state_holds()
    ensures { EachStateHolds }
{}
