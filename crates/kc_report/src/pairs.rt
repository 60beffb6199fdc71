//! Two numbers with a byte between them, as in the lines of groups and readers.
ghost use Rattle.std.specs.Prelude.{◌≡◌, ◌+◌, ◌≤◌, ◌∷◌, ◌++◌, OnOk, length, drop, decimal};

use itoa::write_digits;
use kc_text::LineBuf;
use std::alloc::AllocError;

/// The most bytes of two numbers, each with a byte before it.
pub(crate) const LONGEST: usize = 22;

/// Writes a blank, a number, a byte and a second number so that they end at `end`. Returns where they start.
#[inline]
#[tactic(auto, using(crate::proofs::LineLemmas::short))]
pub fn write_pair(first: u32, between: u8, second: u32, words: &mut [u8], end: usize) -> usize
    requires { (22 ≤ end) × (end ≤ length words.old) }
    ensures start { (result ≤ end) × (end ≤ result + 22) }
    ensures written { drop result words.new ≡ 32 ∷ (decimal first ++ between ∷ (decimal second ++ drop end words.old)) }
{
    let middle = write_digits(u64::from(second), words, end) - 1;
    words[middle] = between;
    let start = write_digits(u64::from(first), words, middle) - 1;
    words[start] = b' ';
    start
}

/// Appends a blank, a number, a byte and a second number. They are composed first, and cost one copy.
///
/// Fails only if memory runs out; the line is then unchanged.
pub fn put_pair(buf: &mut LineBuf, first: u32, between: u8, second: u32) -> Result<(), AllocError>
    ensures { OnOk result (buf.new ≡ buf.old ++ 32 ∷ (decimal first ++ between ∷ decimal second)) }
{
    let mut words = [0; LONGEST];
    let start = write_pair(first, between, second, &mut words, LONGEST);
    buf.put(&words[start..])
}
