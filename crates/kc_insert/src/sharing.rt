//! Passes over all ranges. If there is much to do, threads share the ranges, and one thread at a time writes each.

ghost use Rattle.std.specs.Prelude.{◌≡◌, ◌+◌, ◌<◌, ℕ, false, All, OnOk, length, slice_index_or};
ghost use Rattle.kc_insert.specs.private.Parts.{CanHearLess, CanHearMore, CanPart, CanRise, HasHeardLess, HasParted, HasRisen, HaveMet};
ghost use Rattle.kc_insert.specs.private.Ranges.{EachCan, EachDid};
ghost use Rattle.kc_insert.specs.private.Sharing.{AllParted, AreFew, AreTold, CanLessen, CanMeet, CanPartAll, HearLess, HearMore, told_all};
ghost use Rattle.kc_insert.specs.private.Telling.{heard_by};

use crate::layout::Layout;
use crate::passes::Step;
use crate::range::Range;
use crate::telling::Told;
use std::alloc::{AllocError, Global};
use std::thread::Threads;
use std::{mem, thread};

/// Fails if memory ran out in a pass.
pub fn check(items: &[Range]) -> Result<(), AllocError>
    ensures { OnOk result (All (λ p. p.is_short ≡ false) items.now) }
{
    for range in items {
        if range.is_short {
            return Err(AllocError);
        }
    }
    Ok(())
}

/// Runs `Range::part` for each range.
pub fn part_each<R: Threads + Sync>(rt: &R, step: &Step<'_>, items: &mut [Range])
    requires { EachCan (λ _. CanPart step.now) items.old }
    ensures { EachDid (λ _. HasParted step.now) items.old items.new }
{
    thread::for_each_mut(
        rt,
        items,
        step.sharing.threads,
        &|_: usize, range: &mut Range|
            requires { CanPart step.now range.old }
            ensures { range.new.is_short ≡ false → HasParted step.entry.now range.old range.new }
        { range.try_part(step) },
    );
}

/// Runs `Range::rise` for each range.
pub fn rise_each<R: Threads + Sync>(rt: &R, alloc: Global, step: &Step<'_>, items: &mut [Range])
    requires { EachCan (λ _. CanRise step.now) items.old }
    ensures { EachDid (λ _. HasRisen step.now) items.old items.new }
{
    thread::for_each_mut(
        rt,
        items,
        step.sharing.threads,
        &|_: usize, range: &mut Range|
            requires { CanRise step.now range.old }
            ensures { range.new.is_short ≡ false → HasRisen step.entry.now range.old range.new }
        { range.try_rise(alloc, step) },
    );
}

/// Runs `Range::hear_less` for each range: the vertices on its lists count one less.
pub fn hear_less_each<R: Threads + Sync>(
    rt: &R,
    step: &Step<'_>,
    told: &[Told],
    items: &mut [Range],
)
    requires { EachCan (CanHearLess told.now) items.old }
    ensures { EachDid (λ own. HasHeardLess (heard_by own told.now)) items.old items.new }
{
    thread::for_each_mut(
        rt,
        items,
        step.sharing.threads,
        &|own: usize, range: &mut Range|
            requires { CanHearLess told.now own range.old }
            ensures { range.new.is_short ≡ false → HasHeardLess (heard_by own told.entry.now) range.old range.new }
        { range.try_hear_less(told, own) },
    );
}

/// Runs `Range::hear_more` for each range: the vertices on its lists, all on the next level, count one more. They wait
/// there if they then count more than `most`.
pub fn hear_more_each<R: Threads + Sync>(
    rt: &R,
    step: &Step<'_>,
    most: u32,
    told: &[Told],
    items: &mut [Range],
)
    requires { EachCan (λ own. CanHearMore told.now own (step.now.level + 1)) items.old }
    ensures { EachDid (λ own. HaveMet (step.now.level + 1) most (heard_by own told.now)) items.old items.new }
{
    let level = step.level + 1;
    thread::for_each_mut(
        rt,
        items,
        step.sharing.threads,
        &|own: usize, range: &mut Range|
            requires { CanHearMore told.now own level range.old }
            ensures { range.new.is_short ≡ false → HaveMet level most (heard_by own told.entry.now) range.old range.new }
        { range.try_hear_more(told, own, level, most) },
    );
}

/// Puts what each range told into the list of its place, where all ranges can hear it.
pub fn collect(items: &mut [Range], told: &mut [Told])
    requires { length told.old ≡ length items.old }
    ensures items { (i : ℕ) (d e : _) → i < length items.old → slice_index_or items.new i d ≡ record (slice_index_or items.old i d) { tell = slice_index_or told.old i e } }
    ensures told { (i : ℕ) (d e : _) → i < length items.old → slice_index_or told.new i e ≡ (slice_index_or items.old i d).tell }
{
    for i in 0..items.len() {
        let range = &mut items[i];
        mem::swap(&mut range.told, &mut told[i]);
    }
}

/// Lessens the count of each vertex of the list, once for each time that it is there. Fails only if memory runs out.
pub fn hear_less_all(layout: Layout, told: &[u32], items: &mut [Range]) -> Result<(), AllocError>
    requires { CanLessen layout.width told.now items.old }
    ensures { OnOk result (HearLess layout.width told.now items.old items.new) }
{
    for v in told {
        let range = &mut items[layout.range_of(*v)];
        range.watched.lessen(*v)?;
    }
    Ok(())
}

/// Adds one to the count of each vertex of the list, all on the level, for each time that it is there. It waits on the
/// level if it then counts more than `most`. Fails only if memory runs out.
pub fn hear_more_all(
    layout: Layout,
    level: u16,
    most: u32,
    told: &[u32],
    items: &mut [Range],
) -> Result<(), AllocError>
    requires { CanMeet layout.width level told.now items.old }
    ensures { OnOk result (HearMore layout.width level most told.now items.old items.new) }
{
    for v in told {
        let range = &mut items[layout.range_of(*v)];
        range.meet(level, most, *v)?;
    }
    Ok(())
}

/// Lessens the counts of the vertices on the lists, once for each time. If the lists are dealt, each range hears its
/// own; else the caller hears one list after another. Fails only if memory runs out.
pub fn hear_less<R: Threads + Sync>(
    rt: &R,
    step: &Step<'_>,
    told: &[Told],
    items: &mut [Range],
) -> Result<(), AllocError>
    requires lists { AreTold step.now.width step.now.is_dealt (length items.old) told.now }
    requires ready { CanLessen step.now.width (told_all told.now) items.old }
    ensures { OnOk result (HearLess step.now.width (told_all told.now) items.old items.new) }
{
    let layout = step.sharing.layout;
    if step.sharing.is_dealt {
        hear_less_each(rt, step, told, items);
        check(items)?;
        return Ok(());
    }
    for i in 0..told.len() {
        hear_less_all(layout, told[i].all(), items)?;
    }
    Ok(())
}

/// Adds one to the counts of the vertices on the lists, all on the level, for each time. They wait on the level if they
/// then count more than `most`. The lists are heard as in `hear_less`. Fails only if memory runs out.
pub fn hear_more<R: Threads + Sync>(
    rt: &R,
    step: &Step<'_>,
    most: u32,
    told: &[Told],
    items: &mut [Range],
) -> Result<(), AllocError>
    requires lists { AreTold step.now.width step.now.is_dealt (length items.old) told.now }
    requires ready { CanMeet step.now.width (step.now.level + 1) (told_all told.now) items.old }
    requires few { AreFew items.old }
    ensures { OnOk result (HearMore step.now.width (step.now.level + 1) most (told_all told.now) items.old items.new) }
{
    let layout = step.sharing.layout;
    let next = step.level + 1;
    if step.sharing.is_dealt {
        hear_more_each(rt, step, most, told, items);
        check(items)?;
        return Ok(());
    }
    for i in 0..told.len() {
        hear_more_all(layout, next, most, told[i].all(), items)?;
    }
    Ok(())
}

/// Lessens the counts of rising vertices by their neighbours that stay, in all ranges. Fails only if memory runs out.
pub fn part_all<R: Threads + Sync>(
    rt: &R,
    step: &Step<'_>,
    told: &mut [Told],
    items: &mut [Range],
) -> Result<(), AllocError>
    requires { CanPartAll step.now items.old told.old }
    ensures parted { OnOk result (AllParted step.now items.old items.new) }
    ensures told { OnOk result (All (λ t. length t.lists ≡ length items.old) told.new) }
{
    part_each(rt, step, items);
    check(items)?;
    collect(items, told);
    hear_less(rt, step, told, items)?;
    Ok(())
}
