//! The first line of bytes that were read.
ghost use Rattle.std.specs.Prelude.{ℕ, take, IfSome, IfNone};
ghost use Rattle.kc_text.specs.Lines.{without_cr};
ghost use Rattle.kc_text.specs.Words.{words};
ghost use Rattle.kc_text.specs.WholeLines.{EndsAt};
ghost use Rattle.kc_text.specs.NumberLines.{SayNumbers, IsNoNumberLine};

use crate::NumberLine;
use crate::number_line::number_line;

/// Returns the first line of these bytes if its line feed is among them and it is two numbers, as for
/// `LineReader::number_line`. No limit is set to its length.
///
/// Returns None only if there is no such line. Cost: one pass over the bytes of the line, or two if a number has more
/// than 8 digits.
#[inline(always)]
pub fn first_numbers(bytes: &[u8]) -> Option<NumberLine>
    ensures ends { IfSome result (λ line. EndsAt bytes.now line.len) }
    ensures says { IfSome result (λ line. SayNumbers (words (without_cr (take line.len bytes.now))) line.sign line.first line.second) }
    ensures none { IfNone result ((len : ℕ) → EndsAt bytes.now len → IsNoNumberLine (without_cr (take len bytes.now))) }
{
    number_line(bytes)
}
