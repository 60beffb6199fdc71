//! What follows from the definitions of lines, words and numbers. The functions do nothing: each has a law as its
//! contract.
pub mod read_back;

ghost use Rattle.kc_text.specs.Laws.{CutsAtEnds, StopsAtLimit, AreLongestRuns, CutsSevenBytes, CutsWithinThirdLine, MeasuresLines, PartsWords, ReadsNumbers};

/// The lines of an input are its pieces between line feeds.
#[tactic(auto, using(crate::proofs::Pieces::cuts_at_ends))]
pub fn lines_are_pieces()
    ensures { CutsAtEnds }
{}

/// No line lies beyond the input limit.
#[tactic(auto, using(crate::proofs::Pieces::stops_at_limit))]
pub fn lines_stop_at_limit()
    ensures { StopsAtLimit }
{}

/// The words of a line are its longest runs of bytes that aren't blank.
#[tactic(auto, using(crate::proofs::Runs::are_longest_runs))]
pub fn words_are_runs()
    ensures { AreLongestRuns }
{}

/// Example: `a`, a carriage return, two line feeds, `#x` and a line feed are three lines.
pub fn lines_of_seven_bytes()
    ensures { CutsSevenBytes }
{}

/// Example: an input limit within a third line.
pub fn limit_within_third_line()
    ensures { CutsWithinThirdLine }
{}

/// Example: lines at the line limit and above it.
pub fn lines_at_line_limit()
    ensures { MeasuresLines }
{}

/// Example: the words of a line with blanks before, between and after them.
pub fn words_between_blanks()
    ensures { PartsWords }
{}

/// Example: the greatest number, and bytes that are no number.
pub fn numbers_at_limits()
    ensures { ReadsNumbers }
{}
