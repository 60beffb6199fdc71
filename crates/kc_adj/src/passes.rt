//! Vertices that go up together, with passes over their neighbours by threads. Each thread passes over the neighbours
//! of a piece of the list and writes no count. Then one thread writes what the threads found, in order. If the list has
//! half of all neighbours (`have_half`), all counts are made afresh instead.
//!
//! `specs/private/Passing` defines what is found.

ghost use Rattle.std.specs.Prelude.{◌≡◌, ◌+◌, ◌<◌, ◌++◌, All, IfOk, OnOk, OnErr, true, drop, take, length};
ghost use Rattle.std.specs.Result.{is_ok};
ghost use Rattle.kc_adj.specs.LeveledGraph.{IsAdjacency};
ghost use Rattle.kc_adj.specs.private.Lifting.{lift_cost, AreLifted, CanGain, HaveGained, IsLifting};
ghost use Rattle.kc_adj.specs.private.Passing.{is_touched as touches, touched_by, visit_of, ArePassed};

use crate::afresh::{count_afresh, have_half};
use crate::counts::{Counts, as_one, gain, is_reached};
use crate::lifting::{Lift, count_steps, lift_counts, renew};
use crate::runs::{put_where, run_of};
use crate::steps::Steps;
use kc_graph::Crew;
use std::alloc::{AllocError, Global};
use std::sync::ledger::Ledger;
use std::thread;
use std::thread::Threads;

// A list is cut into at most one piece for each full `LEAST_LIFTED` vertices. So a piece costs far more than to start
// and join a thread.
const LEAST_LIFTED: usize = 4_096;

/// The result of a pass over the neighbours of a vertex.
#[derive(Clone, Copy)]
pub struct Visit {
    /// The number of neighbours on its new level or above.
    pub own: u32,
    /// The number of neighbours on the level below that or above.
    pub below: u32,
    /// The number of neighbours that stay and may gain by its move.
    pub touched: u32,
}

/// The results of the passes at the vertices of a piece, in their order.
#[derive(Drop)]
pub struct Passed {
    /// The result at each vertex.
    pub visits: Vec<Visit>,
    /// The neighbours that stay and may gain, those of the first vertex first.
    pub touched: Vec<u32>,
}

// Returns whether w stays and may gain by a neighbour that goes up from a level to another.
fn is_touched(lift: &Lift<'_>, w: u32, from: u16, to: u16) -> bool
    requires { w < lift.now.graph.vertices }
    ensures { result ≡ touches lift.now from to w }
{
    let level = lift.new[w as usize];
    let stays = lift.old[w as usize] == level;
    stays && is_reached(from, to, level)
}

// Passes over the neighbours of v, and appends those that it touches to `touched`. Fails only if memory runs out; the
// content of `touched` is then unspecified.
fn visit_vertex(lift: &Lift<'_>, v: u32, touched: &mut Vec<u32>) -> Result<Visit, AllocError>
    requires { v < lift.now.graph.vertices }
    ensures visit { IfOk result (λ t. t ≡ visit_of lift.now v) }
    ensures touched { OnOk result (touched.new.items ≡ touched.old.items ++ touched_by lift.now v) }
{
    let from = lift.old[v as usize];
    let to = lift.new[v as usize];
    let under = to.saturating_sub(1);
    let row = lift.graph.neighbours(v);
    let start = touched.len();
    let mut end = start;
    let mut own = 0;
    let mut below = 0;
    touched.resize(end + row.len(), 0)?;
    for w in row {
        let level = lift.new[*w as usize];
        own += as_one(level >= to);
        below += as_one(level >= under);
        end = put_where(touched, end, *w, is_touched(lift, *w, from, to));
    }
    touched.truncate(end);
    Ok(Visit {
        own,
        below,
        touched: (end - start) as u32,
    })
}

// Passes over the neighbours of the vertices of a piece. Fails only if memory runs out.
fn visit_piece(alloc: Global, lift: &Lift<'_>, piece: &[u32]) -> Result<Passed, AllocError>
    requires { All (λ v. v < lift.now.graph.vertices) piece.now }
    ensures { IfOk result (ArePassed lift.now piece.now) }
{
    let mut visits = Vec::with_capacity(alloc, piece.len())?;
    let mut touched = Vec::new(alloc);
    for i in 0..piece.len() {
        let v = lift.graph.vertex_with_prefetch(piece, i);
        visits.push(visit_vertex(lift, v, &mut touched)?)?;
    }
    Ok(Passed { visits, touched })
}

// Lets the vertices that v touches gain by its move.
#[tactic(auto, using(crate::proofs::PassLemmas::touched_is, crate::proofs::LiftLemmas::gaining_is))]
fn gain_all(lift: &Lift<'_>, counts: &mut Counts, v: u32, touched: &[u32])
    requires vertex { v < lift.now.graph.vertices }
    requires own { CanGain lift.now counts.old.own.items }
    requires below { CanGain lift.now counts.old.below.items }
    requires touched { touched.now ≡ touched_by lift.now v }
    ensures own { HaveGained lift.now v 0 counts.old.own.items counts.new.own.items }
    ensures below { HaveGained lift.now v 1 counts.old.below.items counts.new.below.items }
{
    let from = lift.old[v as usize];
    let to = lift.new[v as usize];
    for w in touched {
        gain(counts, *w, from, to, lift.new[*w as usize]);
    }
}

// Writes the results of the first vertices of the list into the counts.
fn write_down<L: Ledger>(
    lift: &Lift<'_>,
    counts: &mut Counts,
    vertices: &[u32],
    passed: &Passed,
    steps: &mut Steps<L>,
)
    requires vertices { All (λ v. v < lift.now.graph.vertices) vertices.now }
    requires passed { ArePassed lift.now (take (length passed.now.visits.items) vertices.now) passed.now }
    requires own { IsLifting lift.now 0 vertices.now counts.old.own.items }
    requires below { IsLifting lift.now 1 vertices.now counts.old.below.items }
    ensures own { IsLifting lift.now 0 (drop (length passed.now.visits.items) vertices.now) counts.new.own.items }
    ensures below { IsLifting lift.now 1 (drop (length passed.now.visits.items) vertices.now) counts.new.below.items }
    ensures cost { steps.new + lift_cost lift.now (drop (length passed.now.visits.items) vertices.now) ≡ steps.old + lift_cost lift.now vertices.now }
{
    let graph = lift.graph;
    let mut place = 0;
    for i in 0..passed.visits.len() {
        let v = vertices[i];
        let visit = passed.visits[i];
        let touched = run_of(&passed.touched, place, visit.touched as usize);
        gain_all(lift, counts, v, touched);
        renew(lift, counts, v, visit.own, visit.below);
        place += visit.touched as usize;
        steps.add(graph.neighbours(v).len());
        steps.tick();
    }
}

// Returns whether there was memory for each piece.
fn are_made(pieces: &[Result<Passed, AllocError>]) -> bool
    ensures { result ≡ true → All (λ r. is_ok r ≡ true) pieces.now }
{
    for piece in pieces {
        if piece.is_err() {
            return false;
        }
    }
    true
}

/// Does what `lift_counts` does, but threads share the passes if the list is long. Fails only if memory runs out; then
/// all is unchanged.
///
/// If the list has half of all neighbours (`have_half`), all counts are made afresh (`count_afresh`), without memory.
/// Otherwise the list is cut in pieces. They have one length, but the last may be shorter. Each goes to a thread of its
/// own if one can be made. Nothing is written before all pieces are done.
pub fn par_lift_counts<R: Threads + Sync, L: Ledger>(
    crew: &Crew<'_, R>,
    lift: &Lift<'_>,
    counts: &mut Counts,
    vertices: &[u32],
    steps: &mut Steps<L>,
) -> Result<(), AllocError>
    requires adjacency { IsAdjacency lift.now.graph lift.now.old counts.old.own.items counts.old.below.items }
    requires vertices { AreLifted lift.now vertices.now }
    ensures adjacency { OnOk result (IsAdjacency lift.now.graph lift.now.new counts.new.own.items counts.new.below.items) }
    ensures cost { OnOk result (steps.new ≡ steps.old + lift_cost lift.now vertices.now) }
    ensures err { OnErr result (counts.new ≡ counts.old) }
    ensures steps_kept { OnErr result (steps.new ≡ steps.old) }
{
    if have_half(vertices, lift.graph) {
        count_afresh(crew, lift.graph, lift.new, counts);
        count_steps(lift, vertices, steps);
        return Ok(());
    }
    let size = crew.piece_len(vertices.len(), LEAST_LIFTED);
    if vertices.len() <= size {
        lift_counts(lift, counts, vertices, steps);
        return Ok(());
    }
    let alloc = crew.alloc;
    // Evidence for the check: the edges of the graph ascend.
    let _n = lift.graph.vertices();
    let found = thread::map_chunks(
        crew.rt,
        alloc,
        vertices,
        size,
        &|_start: usize, piece: &[u32]| -> Result<Passed, AllocError>
            requires { All (λ v. v < lift.now.graph.vertices) piece.now }
            ensures { IfOk result (ArePassed lift.entry.now piece.entry.now) }
        { visit_piece(alloc, lift, piece) },
    )?;
    if !are_made(&found) {
        return Err(AllocError);
    }
    let mut rest = vertices;
    for piece in &found {
        match piece {
            Ok(passed) => {
                write_down(lift, counts, rest, passed, steps);
                rest = &rest[passed.visits.len()..];
            }
            // Never: all pieces are made.
            Err(_) => unreachable!(),
        }
    }
    Ok(())
}
