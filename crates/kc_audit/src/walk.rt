//! The walk through the history of a run, with all its readers side by side.
//!
//! At each point a reader passes its next replies as long as each has the level of its vertex there. So each reply gets
//! the earliest point that it may have, and a reply that gets none has none. `passed` has the number of replies that
//! each reader has passed.
//!
//! A reader whose next reply doesn't fit waits until the vertex of that reply moves. `awaited` is true for each vertex
//! with a waiting reader. So a group costs no pass over the readers if none of its members is awaited.
ghost use Rattle.std.specs.Prelude.{◌≡◌, ◌≤◌, length, replicate, All, get_or, false, IfOk};
ghost use Rattle.kc_history.specs.Points.{with_moves};
ghost use Rattle.kc_audit.specs.Runs.{AreBelow, moves_of, IsAuditable};
ghost use Rattle.kc_audit.specs.private.Walks.{GoesOn, EachGoesOn, AreWithin, HaveTold, IsAwaited, Tells};
ghost use Rattle.kc_audit.specs.Verdicts.{IsVerdict};

use crate::{AuditVerdict, RunText};
use kc_history::{Replies, Reply};
use std::alloc::{AllocError, Global};

// Returns the first reply at or after `from` that doesn't have the present level of its vertex. Returns the number of
// replies if there is none.
fn next_unfit(levels: &[u16], replies: &[Reply], from: usize) -> usize
    requires within { from ≤ length replies.now }
    requires below { AreBelow (length levels.now) replies.now }
    ensures { GoesOn levels.now replies.now from result }
{
    for at in from..replies.len() {
        let reply = replies[at];
        if levels[reply.vertex as usize] != reply.level {
            return at;
        }
    }
    replies.len()
}

// Moves each reader on over the replies that have the present levels. The vertex of a reader that moves is no longer
// awaited.
fn go_on(levels: &[u16], awaited: &mut [bool], readers: &[Replies], passed: &mut [usize])
    requires below { All (AreBelow (length levels.now)) readers.now }
    requires sized { length awaited.old ≡ length levels.now }
    requires within { AreWithin readers.now passed.old }
    ensures { EachGoesOn levels.now readers.now passed.old passed.new }
{
    for reader in 0..readers.len() {
        let replies = readers[reader].as_slice();
        let from = passed[reader];
        let at = next_unfit(levels, replies, from);
        if from < at {
            awaited[replies[from].vertex as usize] = false;
        }
        passed[reader] = at;
    }
}

// Marks the next vertex of each reader with a reply left as awaited. Returns whether there is such a reader.
fn mark_awaited(awaited: &mut [bool], readers: &[Replies], passed: &[usize]) -> bool
    requires below { All (AreBelow (length awaited.old)) readers.now }
    requires within { AreWithin readers.now passed.now }
    ensures awaited { IsAwaited awaited.new readers.now passed.now }
    ensures none { result ≡ false → HaveTold readers.now passed.now }
{
    let mut waits = false;
    for reader in 0..readers.len() {
        let replies = readers[reader].as_slice();
        let next = passed[reader];
        if next < replies.len() {
            awaited[replies[next].vertex as usize] = true;
            waits = true;
        }
    }
    waits
}

// Puts each member on its level. Returns whether one of them is awaited.
fn move_members(levels: &mut [u16], awaited: &[bool], members: &[Reply]) -> bool
    requires below { AreBelow (length levels.old) members.now }
    requires sized { length awaited.now ≡ length levels.old }
    ensures levels { levels.new ≡ with_moves levels.old (moves_of members.now) }
    ensures unmet { result ≡ false → All (λ m. get_or awaited.now m.vertex false ≡ false) members.now }
{
    let mut met = false;
    for member in members {
        let vertex = member.vertex as usize;
        levels[vertex] = member.level;
        met |= awaited[vertex];
    }
    met
}

// Returns the verdict if each reader has passed the number of its replies in `passed`, and can pass no more.
fn verdict_of(readers: &[Replies], passed: &[usize]) -> AuditVerdict
    requires within { AreWithin readers.now passed.now }
    requires few { length readers.now ≤ 4294967294 }
    requires asks { All (λ rs. length rs ≤ 4294967294) readers.now }
    ensures { Tells readers.now passed.now result }
{
    for reader in 0..readers.len() {
        if passed[reader] < readers[reader].len() {
            return AuditVerdict::Unexplained {
                reader: reader as u32,
                ask: passed[reader] as u32 + 1,
            };
        }
    }
    AuditVerdict::Explained
}

// Moves each reader on at the present levels, and then marks the vertex of its next reply as awaited. Returns whether a
// reader waits.
fn advance(levels: &[u16], awaited: &mut [bool], readers: &[Replies], passed: &mut [usize]) -> bool
    requires below { All (AreBelow (length levels.now)) readers.now }
    requires sized { length awaited.old ≡ length levels.now }
    requires within { AreWithin readers.now passed.old }
    ensures passed { EachGoesOn levels.now readers.now passed.old passed.new }
    ensures awaited { IsAwaited awaited.new readers.now passed.new }
    ensures none { result ≡ false → HaveTold readers.now passed.new }
{
    go_on(levels, awaited, readers, passed);
    mark_awaited(awaited, readers, passed)
}

// Walks through the history, from levels that are 0 and readers that have passed nothing.
fn walk(
    run: &RunText,
    levels: &mut [u16],
    awaited: &mut [bool],
    passed: &mut [usize],
) -> AuditVerdict
    requires run { IsAuditable run.now }
    requires levels { levels.old ≡ replicate run.now.vertices 0 }
    requires awaited { length awaited.old ≡ run.now.vertices }
    requires passed { passed.old ≡ replicate (length run.now.readers) 0 }
    ensures { IsVerdict run.now result }
{
    let readers = run.readers.as_slice();
    let mut waits = advance(levels, awaited, readers, passed);
    let mut point = 0;
    while waits && point < run.groups.len() {
        if move_members(levels, awaited, run.groups.members(point)) {
            waits = advance(levels, awaited, readers, passed);
        }
        point += 1;
    }
    verdict_of(readers, passed)
}

/// Returns whether the group lines of a run explain the replies of each of its readers, as `IsVerdict` of
/// `specs/Verdicts` defines.
///
/// Fails with `AllocError` only if there is no memory for 3 bytes a vertex and 8 a reader. Cost:
///
/// - one pass over the group lines and one over the replies;
/// - a test of each reader for each group with a member for which a reader waits.
pub fn audit(alloc: Global, run: &RunText) -> Result<AuditVerdict, AllocError>
    requires { IsAuditable run.now }
    ensures { IfOk result (IsVerdict run.now) }
{
    let mut levels = vec![in alloc; 0u16; run.vertices as usize]?;
    let mut awaited = vec![in alloc; false; run.vertices as usize]?;
    let mut passed = vec![in alloc; 0usize; run.readers.len()]?;
    Ok(walk(run, &mut levels, &mut awaited, &mut passed))
}
