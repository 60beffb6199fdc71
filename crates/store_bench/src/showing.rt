//! How a writer shows a plan in a store: it looks whether the phase may begin, and then each group is marked, published
//! and cleared.
ghost use Rattle.std.specs.Prelude.{◌≡◌, ◌+◌, ◌<◌, ◌≤◌, [], length, All};
ghost use Rattle.std.specs.Bool.{OnTrue};
ghost use Rattle.kc_groups.specs.WellFormed.{IsWellFormed};
ghost use Rattle.kc_store.specs.Plans.{group_at};
ghost use Rattle.kc_store.specs.States.{MayBegin, last_level};
ghost use Rattle.kc_store.specs.private.Showing.{HasMarked, HasCleared, HasShownGroup};
ghost use Rattle.kc_store.specs.Showing.{AreCurrent, IsIdle};
ghost use Rattle.store_bench.specs.private.Showing.{IsShowing};

use kc_groups::PhasePlan;
use kc_groups::sizes::plans_are_small;
use kc_history::{Entry, MAX_PHASE};
use kc_store::{Store, Writer};

// Returns the number of groups of a plan for n vertices.
fn groups_of(plan: &PhasePlan, n: u32) -> u32
    requires { IsWellFormed n plan.now }
    ensures { result ≡ length plan.now.groups }
{
    // Evidence for the check: the number of groups is below 2^32.
    plans_are_small();
    plan.groups.len() as u32
}

// Returns the number of moves of the group at place g.
fn moves_of(plan: &PhasePlan, n: u32, g: u32) -> u32
    requires formed { IsWellFormed n plan.now }
    requires inside { g < length plan.now.groups }
    ensures { result ≡ length (group_at plan.now g).moves }
{
    // Evidence for the check: the number of moves is below 2^32.
    plans_are_small();
    plan.groups.as_slice()[g as usize].moves.len() as u32
}

// Marks each move of the group at place g.
fn mark_group(store: &Store, writer: &mut Writer, plan: &PhasePlan, g: u32, moves: u32)
    requires table { writer.old.table ≡ store.now.table }
    requires plan { plan.now ≡ writer.old.state.plan }
    requires early { writer.old.state.published ≤ g }
    requires moves { moves ≡ length (group_at plan.now g).moves }
    ensures table { writer.new.table ≡ writer.old.table }
    ensures marked { HasMarked g moves writer.old.state writer.new.state }
{
    for i in 0..moves {
        writer.mark(store, plan, g, i);
    }
}

// Clears each move of the group at place g.
fn clear_group(store: &Store, writer: &mut Writer, plan: &PhasePlan, g: u32, moves: u32)
    requires table { writer.old.table ≡ store.now.table }
    requires plan { plan.now ≡ writer.old.state.plan }
    requires late { g < writer.old.state.published }
    requires moves { moves ≡ length (group_at plan.now g).moves }
    ensures table { writer.new.table ≡ writer.old.table }
    ensures cleared { HasCleared g moves writer.old.state writer.new.state }
{
    for i in 0..moves {
        writer.clear(store, plan, g, i);
    }
}

// Returns the level of v at the end of the history. Reads it by a pass of its own.
fn level_now(store: &Store, writer: &mut Writer, v: u32) -> u16
    requires table { writer.old.table ≡ store.now.table }
    requires vertex { v < store.now.vertices }
    ensures table { writer.new.table ≡ writer.old.table }
    ensures same { writer.new.state ≡ record writer.old.state { joined = writer.new.state.joined } }
    ensures level { last_level store.now.vertices writer.old.state.history v ≡ result }
{
    let mut pass = writer.pass(store);
    let level = store.read(&mut pass, v);
    writer.take_in(store, pass);
    level
}

// Returns whether each move of a group is from the level of its vertex at the end of the history.
fn is_current(store: &Store, writer: &mut Writer, n: u32, group: &Entry) -> bool
    requires table { writer.old.table ≡ store.now.table }
    requires vertices { n ≡ store.now.vertices }
    ensures table { writer.new.table ≡ writer.old.table }
    ensures same { writer.new.state ≡ record writer.old.state { joined = writer.new.state.joined } }
    ensures current { OnTrue result (AreCurrent n writer.old.state.history group.now) }
{
    let moves = group.moves.as_slice();
    for i in 0..moves.len() {
        let m = moves[i];
        if m.vertex >= n || level_now(store, writer, m.vertex) != m.old {
            return false;
        }
    }
    true
}

// Returns whether `is_current` holds of each group of a plan.
fn are_current(store: &Store, writer: &mut Writer, n: u32, plan: &PhasePlan) -> bool
    requires table { writer.old.table ≡ store.now.table }
    requires vertices { n ≡ store.now.vertices }
    ensures table { writer.new.table ≡ writer.old.table }
    ensures same { writer.new.state ≡ record writer.old.state { joined = writer.new.state.joined } }
    ensures current { OnTrue result (All (AreCurrent n writer.old.state.history) plan.now.groups) }
{
    let groups = plan.groups.as_slice();
    for g in 0..groups.len() {
        if !is_current(store, writer, n, &groups[g]) {
            return false;
        }
    }
    true
}

/// Returns whether the phase of a plan may begin. It may if it is the next one, `phase + 1`, and its moves are from the
/// levels at the end of the history.
pub fn may_begin(store: &Store, writer: &mut Writer, n: u32, phase: u32, plan: &PhasePlan) -> bool
    requires table { writer.old.table ≡ store.now.table }
    requires vertices { (n ≡ store.now.vertices) × (writer.old.state.vertices ≡ n) }
    requires idle { IsIdle writer.old.state }
    requires phase { writer.old.state.phase ≡ phase }
    requires formed { IsWellFormed n plan.now }
    ensures table { writer.new.table ≡ writer.old.table }
    ensures vertices { writer.new.state.vertices ≡ n }
    ensures idle { IsIdle writer.new.state }
    ensures phase { writer.new.state.phase ≡ phase }
    ensures begins { OnTrue result (MayBegin writer.new.state plan.now) }
{
    if phase >= MAX_PHASE {
        return false;
    }
    if plan.quiet.phase != phase + 1 {
        return false;
    }
    are_current(store, writer, n, plan)
}

/// Begins the phase of a plan, and marks all of its moves.
pub fn mark(store: &Store, writer: &mut Writer, plan: &PhasePlan, n: u32)
    requires table { writer.old.table ≡ store.now.table }
    requires vertices { n ≡ writer.old.state.vertices }
    requires begins { MayBegin writer.old.state plan.now }
    ensures { writer.new.table ≡ writer.old.table }
{
    writer.begin(store, plan);
    for place in 0..groups_of(plan, n) {
        let moves = moves_of(plan, n, place);
        mark_group(store, writer, plan, place, moves);
    }
}

// Marks, publishes and clears the group at place g.
fn show_group(store: &Store, writer: &mut Writer, plan: &PhasePlan, g: u32, moves: u32)
    requires table { writer.old.table ≡ store.now.table }
    requires plan { plan.now ≡ writer.old.state.plan }
    requires next { g ≡ writer.old.state.published }
    requires inside { g < length plan.now.groups }
    requires loans { writer.old.state.loans ≡ [] }
    requires moves { moves ≡ length (group_at plan.now g).moves }
    ensures table { writer.new.table ≡ writer.old.table }
    ensures shown { HasShownGroup g writer.old.state writer.new.state }
{
    mark_group(store, writer, plan, g, moves);
    writer.publish(store, plan, g);
    clear_group(store, writer, plan, g, moves);
}

/// Begins the phase of a plan, and marks, publishes and clears one group after another.
pub fn show(store: &Store, writer: &mut Writer, plan: &PhasePlan, n: u32)
    requires table { writer.old.table ≡ store.now.table }
    requires vertices { n ≡ writer.old.state.vertices }
    requires begins { MayBegin writer.old.state plan.now }
    ensures table { writer.new.table ≡ writer.old.table }
    ensures shown { IsShowing plan.now (length plan.now.groups) writer.old.state writer.new.state }
{
    writer.begin(store, plan);
    for g in 0..groups_of(plan, n) {
        let moves = moves_of(plan, n, g);
        show_group(store, writer, plan, g, moves);
    }
}

/// Shows the plan of the phase `phase + 1` if it may begin, and returns whether it may.
pub fn show_next(store: &Store, writer: &mut Writer, n: u32, phase: u32, plan: &PhasePlan) -> bool
    requires table { writer.old.table ≡ store.now.table }
    requires vertices { (n ≡ store.now.vertices) × (writer.old.state.vertices ≡ n) }
    requires idle { IsIdle writer.old.state }
    requires phase { writer.old.state.phase ≡ phase }
    requires formed { IsWellFormed n plan.now }
    ensures table { writer.new.table ≡ writer.old.table }
    ensures vertices { writer.new.state.vertices ≡ n }
    ensures idle { IsIdle writer.new.state }
    ensures phase { OnTrue result (writer.new.state.phase ≡ phase + 1) }
{
    let may = may_begin(store, writer, n, phase, plan);
    if may {
        show(store, writer, plan, n);
    }
    may
}

/// Shows the plans of the phases from 1 on, up to the first that may not begin. Returns whether all could begin.
pub fn show_all(store: &Store, writer: &mut Writer, n: u32, plans: &[PhasePlan]) -> bool
    requires table { writer.old.table ≡ store.now.table }
    requires vertices { (n ≡ store.now.vertices) × (writer.old.state.vertices ≡ n) }
    requires idle { IsIdle writer.old.state }
    requires phase { writer.old.state.phase ≡ 0 }
    requires formed { All (IsWellFormed n) plans.now }
{
    let count = plans.len().min(MAX_PHASE as usize) as u32;
    for k in 0..count {
        if !show_next(store, writer, n, k, &plans[k as usize]) {
            return false;
        }
    }
    true
}
