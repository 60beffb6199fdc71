//! The words of vertex lines that a level decides. They are composed once for each level.
ghost use Rattle.std.specs.Prelude.{◌≡◌, ℕ, ◌<◌, ◌≤◌, ◌++◌, IfOk, OnOk, length, slice_index, decimal, codes};
ghost use Rattle.kc_levels.specs.Thresholds.{top_level};
ghost use Rattle.kc_report.specs.private.LevelWords.{level_words, AreLevelWords, AreShort};

use kc_levels::{Estimate, Thresholds};
use kc_text::LineBuf;
use std::alloc::{AllocError, Global};

/// Appends the words of a vertex line for the level and its estimate.
pub fn fill_bounds(buf: &mut LineBuf, level: u16, estimate: Estimate) -> Result<(), AllocError>
    ensures { OnOk result (buf.new ≡ (((((((buf.old ++ codes " level ") ++ decimal level)
        ++ codes " est ") ++ decimal estimate.est)
        ++ codes " low ") ++ decimal estimate.lo)
        ++ codes " high ") ++ decimal estimate.hi) }
{
    buf.put_named(b" level ", u32::from(level))?;
    buf.put_named(b" est ", estimate.est)?;
    buf.put_named(b" low ", estimate.lo)?;
    buf.put_named(b" high ", estimate.hi)
}

// Composes the words of a level, from its name to the name of the count after them.
fn fill_level(buf: &mut LineBuf, level: u16, estimate: Estimate) -> Result<(), AllocError>
    ensures words { OnOk result (buf.new ≡ level_words level estimate) }
    ensures short { OnOk result (length buf.new ≤ 62) }
{
    buf.clear();
    fill_bounds(buf, level, estimate)?;
    buf.put(b" up ")
}

// Composes the words of further levels, up to those of `level`.
fn compose_up_to(
    alloc: Global,
    words: &mut Vec<LineBuf>,
    th: &Thresholds,
    level: u16,
) -> Result<(), AllocError>
    requires words { AreLevelWords th.now.profile th.now.vertices words.old.items }
    requires short { AreShort words.old.items }
    requires within { level ≤ top_level th.now.profile th.now.vertices }
    ensures words { OnOk result (AreLevelWords th.now.profile th.now.vertices words.new.items) }
    ensures short { OnOk result (AreShort words.new.items) }
    ensures reached { OnOk result (level < length words.new.items) }
    ensures kept { OnOk result (length words.old.items ≤ length words.new.items) }
{
    for next in words.len()..level as usize + 1 {
        let mut buf = LineBuf::new(alloc);
        fill_level(&mut buf, next as u16, th.estimate(next as u16))?;
        words.push(buf)?;
    }
    Ok(())
}

/// Composes the words of each level from 0 to the greatest of the list. They are those of a vertex line from its level
/// to the name of its first count. Each level of the list is at most the top.
///
/// Takes memory for some 100 bytes a level, and time for that and for one pass over the list. Fails only if memory
/// runs out.
pub fn compose_words(
    alloc: Global,
    th: &Thresholds,
    levels: &[u16],
) -> Result<Vec<LineBuf>, AllocError>
    requires { (v : ℕ) → v < length levels.now → slice_index levels.now v ≤ top_level th.now.profile th.now.vertices }
    ensures words { IfOk result (λ w. AreLevelWords th.now.profile th.now.vertices w.items) }
    ensures short { IfOk result (λ w. AreShort w.items) }
    ensures enough { IfOk result (λ w. (v : ℕ) → v < length levels.now → slice_index levels.now v < length w.items) }
{
    let mut words = Vec::new(alloc);
    for level in levels {
        compose_up_to(alloc, &mut words, th, *level)?;
    }
    Ok(words)
}
