//! A graph with levels and counts of neighbours, which follow each edge that comes or leaves and each vertex that
//! moves.

ghost use Rattle.std.specs.Prelude.{◌≡◌, ◌+◌, ◌*◌, ◌-◌, ◌<◌, ◌≤◌, ℕ, [], OnOk, OnErr, IfOk, true, false, length, replicate, slice_index, slice_set};
ghost use Rattle.kc_graph.specs.Shape.{EdgesFrom, IsGraph, neighbours_of, has_edge, with_edge, without_edge, with_edges, without_edges};
ghost use Rattle.kc_graph.specs.Numbers.{has_number};
ghost use Rattle.kc_graph.specs.Changes.{AllAbsent, AllPresent};
ghost use Rattle.kc_levels.specs.LevelList.{at_least, IsBelow, IsDesired, IsWithinAt};
ghost use Rattle.kc_levels.specs.Following.{AreDistinct};
ghost use Rattle.kc_adj.specs.Degrees.{degrees};
ghost use Rattle.kc_adj.specs.LeveledGraph.{LeveledGraph, IsCounted};

use crate::counts::Counts;
use crate::lifting::{Lift, lift_counts, take_up};
use crate::passes::par_lift_counts;
use crate::standing::Standing;
use crate::steps::Steps;
use crate::{afresh, desired, links, moves};
use kc_graph::{Crew, Edge, Graph, MAX_EDGES, MAX_VERTICES};
use kc_levels::{Levels, Move, Thresholds};
use std::alloc::{AllocError, Global};
use std::marker::Model;
use std::sync::ledger::Ledger;
use std::thread::Threads;

/// A graph with a level and two counts for each vertex. The counts are of the neighbours on its level or above, and on
/// the level below or above.
///
/// Contracts see a `LeveledGraph`: the graph and the list of the levels. A level is 0 to 65,535. Besides the graph it
/// takes 10 bytes a vertex.
///
/// `link`, `unlink`, `rise`, `lift` and `fall` count one step for themselves, and one for each half-edge that they
/// visit. That is a neighbour of the vertex that moves, or an end of the edge. `link_all`, `unlink_all`, `lift_all` and
/// `par_lift_all` count the same for each edge or vertex of their list.
#[derive(Drop)]
pub struct LevelAdj {
    // The graph; `levels` and `counts` are for its vertices.
    graph: Graph,
    // The level of each vertex, any from 0 to 65,535: the invariants of levels aren't required here.
    levels: Levels,
    // The value of `at_least` for each vertex, from its level and from the level below on.
    counts: Counts,
}

impl Model for LevelAdj {
    ghost use Rattle.kc_adj.specs.LeveledGraph.{LeveledGraph, IsAdjacency};

    ghost Value = { LeveledGraph };

    ghost view = { λ a. record { graph = a.graph; levels = a.levels } };

    ghost invariant = { λ a. IsAdjacency a.graph a.levels a.counts.own.items a.counts.below.items };
}

impl LevelAdj {
    /// Makes the graph on n vertices without edges, all on level 0; n is 1 to `MAX_VERTICES`.
    ///
    /// Takes memory and time for n vertices. Fails only if memory runs out.
    pub fn new(alloc: Global, n: u32) -> Result<LevelAdj, AllocError>
        requires positive { 1 ≤ n }
        requires small { n ≤ MAX_VERTICES }
        ensures { IfOk result (λ a. a ≡ record { graph = record { vertices = n; edges = [] }; levels = replicate n 0 }) }
    {
        let graph = Graph::new(alloc, n)?;
        let levels = Levels::zeros(alloc, n)?;
        let own = vec![in alloc; 0u32; n as usize]?;
        let below = vec![in alloc; 0u32; n as usize]?;
        Ok(LevelAdj {
            graph,
            levels,
            counts: Counts { own, below },
        })
    }

    /// Returns the graph.
    pub fn graph(&self) -> &Graph
        ensures { result.now ≡ self.now.graph }
    {
        &self.graph
    }

    /// Returns the levels, one for each vertex of the graph.
    pub fn levels(&self) -> &Levels
        ensures value { result.now ≡ self.now.levels }
        ensures sized { length self.now.levels ≡ self.now.graph.vertices }
    {
        &self.levels
    }

    /// Returns the level of `v`, a vertex of the graph.
    pub fn level(&self, v: u32) -> u16
        requires { v < self.now.graph.vertices }
        ensures { result ≡ slice_index self.now.levels v }
    {
        self.levels.get(v)
    }

    /// Returns how many neighbours of `v` are on its level or above (`at_least`). Costs O(1).
    pub fn at_least_own(&self, v: u32) -> u32
        requires { v < self.now.graph.vertices }
        ensures value { result ≡ at_least self.now.graph self.now.levels v (slice_index self.now.levels v) }
        ensures few { result < self.now.graph.vertices }
    {
        self.counts.own[v as usize]
    }

    /// Returns for each vertex how many of its neighbours are on its level or above. These are the values of
    /// `at_least_own`, for loops that read or copy many of them.
    pub fn own_counts(&self) -> &[u32]
        ensures { IsCounted self.now.graph self.now.levels 0 result.now }
    {
        &self.counts.own
    }

    /// Returns how many neighbours of `v` are on the level below its own or above (`at_least`). On level 0 all count,
    /// so this is the degree. Costs O(1).
    pub fn at_least_below(&self, v: u32) -> u32
        requires { v < self.now.graph.vertices }
        ensures value { result ≡ at_least self.now.graph self.now.levels v (slice_index self.now.levels v - 1) }
        ensures degree { slice_index self.now.levels v ≡ 0 → result ≡ length (neighbours_of v self.now.graph.edges) }
        ensures few { result < self.now.graph.vertices }
    {
        self.counts.below[v as usize]
    }

    /// Returns the greatest level, from 0 up to its own, on which `v` has enough neighbours to stand (`IsDesired`).
    /// That is 0, or a level with as many neighbours from the level below on as the lower level's band needs.
    ///
    /// The thresholds are for this number of vertices, and the level of `v` is at most their top. Takes no memory.
    ///
    /// Cost:
    ///
    /// - O(1) if `v` can stay on its level;
    /// - one pass over its neighbours if it can stand on the next level below;
    /// - otherwise about two more passes for each doubling of the number of levels that it would fall, at most 27.
    pub fn desired(&self, th: &Thresholds, v: u32) -> u16
        requires vertex { v < self.now.graph.vertices }
        requires within { IsWithinAt th.now self.now.graph self.now.levels v }
        ensures { IsDesired th.now.profile self.now.graph self.now.levels v result }
    {
        let at = Standing { adj: self, th, v };
        if desired::meets_lower(at) {
            return self.level(v);
        }
        desired::desired_below(at, self.level(v) - 1)
    }

    /// Returns the same as `desired`, faster for a close `guess`; any guess is allowed. Takes no memory.
    ///
    /// Costs O(1) if `v` can stay on its level, and else two passes over its neighbours if the guess is right. A guess
    /// that is too high costs about two more for each doubling of its distance in levels.
    pub fn desired_near(&self, th: &Thresholds, v: u32, guess: u16) -> u16
        requires vertex { v < self.now.graph.vertices }
        requires within { IsWithinAt th.now self.now.graph self.now.levels v }
        ensures { IsDesired th.now.profile self.now.graph self.now.levels v result }
    {
        let at = Standing { adj: self, th, v };
        if desired::meets_lower(at) {
            return self.level(v);
        }
        let near = desired::bound_near(at, self.level(v) - 1, guess);
        desired::desired_below(at, near)
    }

    /// Adds an edge that is not there (`with_edge`); fewer than `MAX_EDGES` edges may be there. Levels stay.
    ///
    /// Counts 3 steps. Fails only if memory runs out; then all is unchanged, the steps too. Costs what `Graph::insert`
    /// costs.
    pub fn link<L: Ledger>(
        &mut self,
        alloc: Global,
        e: Edge,
        steps: &mut Steps<L>,
    ) -> Result<(), AllocError>
        requires below { e.1 < self.old.graph.vertices }
        requires absent { has_edge e self.old.graph.edges ≡ false }
        requires room { length self.old.graph.edges < MAX_EDGES }
        ensures ok { OnOk result (self.new ≡ record self.old { graph = with_edge self.old.graph e }) }
        ensures cost { OnOk result (steps.new ≡ steps.old + 3) }
        ensures err { OnErr result (self.new ≡ self.old) }
        ensures steps_kept { OnErr result (steps.new ≡ steps.old) }
    {
        self.graph.insert(alloc, e)?;
        links::count_edge(&self.levels, &mut self.counts, e.a, e.b);
        steps.add_edges(1);
        Ok(())
    }

    /// Removes an edge that is there (`without_edge`). Levels stay. Counts 3 steps. Takes no memory.
    ///
    /// Costs what `Graph::remove` costs.
    pub fn unlink<L: Ledger>(&mut self, e: Edge, steps: &mut Steps<L>)
        requires below { e.1 < self.old.graph.vertices }
        requires present { has_edge e self.old.graph.edges ≡ true }
        ensures value { self.new ≡ record self.old { graph = without_edge self.old.graph e } }
        ensures cost { steps.new ≡ steps.old + 3 }
    {
        self.graph.remove(e);
        links::uncount_edge(&self.levels, &mut self.counts, e.a, e.b);
        steps.add_edges(1);
    }

    /// Adds ascending edges that are not there (`with_edges`); at most `MAX_EDGES` edges are there afterwards. Levels
    /// stay.
    ///
    /// Counts 3 steps an edge. Fails only if memory runs out; then all is unchanged, the steps too.
    ///
    /// Costs what `Graph::par_insert_all` costs, and each edge changes four counts. All counts are made afresh instead
    /// if the graph had no edges, and the list has one for every two vertices, or more. That costs a look at each
    /// vertex on level 0, and a pass over the neighbours of each other one. Only time and memory depend on the crew.
    pub fn link_all<R: Threads + Sync, L: Ledger>(
        &mut self,
        crew: &Crew<'_, R>,
        edges: &[Edge],
        steps: &mut Steps<L>,
    ) -> Result<(), AllocError>
        requires ascending { EdgesFrom self.old.graph.vertices 0 0 edges.now }
        requires absent { AllAbsent self.old.graph edges.now }
        requires room { length self.old.graph.edges + length edges.now ≤ MAX_EDGES }
        ensures ok { OnOk result (self.new ≡ record self.old { graph = with_edges self.old.graph edges.now }) }
        ensures cost { OnOk result (steps.new ≡ steps.old + 3 * length edges.now) }
        ensures err { OnErr result (self.new ≡ self.old) }
        ensures steps_kept { OnErr result (steps.new ≡ steps.old) }
    {
        self.graph.par_insert_all(crew, edges)?;
        if afresh::are_many(edges, &self.graph) {
            afresh::count_afresh(crew, &self.graph, self.levels.as_slice(), &mut self.counts);
        } else {
            links::count_edges(&self.graph, &self.levels, &mut self.counts, edges);
        }
        steps.add_edges(edges.len());
        Ok(())
    }

    /// Removes ascending edges that are there (`without_edges`). Levels stay.
    ///
    /// Counts 3 steps an edge. Fails only if memory runs out; then all is unchanged, the steps too.
    ///
    /// Costs what `Graph::par_remove_all` costs, and each edge changes four counts. All counts are made afresh, as by
    /// `link_all`, if half of all edges leave, and half as many as there are vertices, or more. Only time and memory
    /// depend on the crew.
    pub fn unlink_all<R: Threads + Sync, L: Ledger>(
        &mut self,
        crew: &Crew<'_, R>,
        edges: &[Edge],
        steps: &mut Steps<L>,
    ) -> Result<(), AllocError>
        requires ascending { EdgesFrom self.old.graph.vertices 0 0 edges.now }
        requires present { AllPresent self.old.graph edges.now }
        ensures ok { OnOk result (self.new ≡ record self.old { graph = without_edges self.old.graph edges.now }) }
        ensures cost { OnOk result (steps.new ≡ steps.old + 3 * length edges.now) }
        ensures err { OnErr result (self.new ≡ self.old) }
        ensures steps_kept { OnErr result (steps.new ≡ steps.old) }
    {
        self.graph.par_remove_all(crew, edges)?;
        if afresh::are_many(edges, &self.graph) {
            afresh::count_afresh(crew, &self.graph, self.levels.as_slice(), &mut self.counts);
        } else {
            links::uncount_edges(&self.graph, &self.levels, &mut self.counts, edges);
        }
        steps.add_edges(edges.len());
        Ok(())
    }

    /// Moves `v` one level up; its level is below 65,535. Takes no memory.
    ///
    /// Costs one pass over its neighbours. Counts a step for each of them, and one more.
    pub fn rise<L: Ledger>(&mut self, v: u32, steps: &mut Steps<L>)
        requires vertex { v < self.old.graph.vertices }
        requires room { slice_index self.old.levels v < 65535 }
        ensures value { self.new ≡ record self.old { levels = slice_set self.old.levels v (slice_index self.old.levels v + 1) } }
        ensures cost { steps.new ≡ steps.old + (length (neighbours_of v self.old.graph.edges) + 1) }
    {
        let to = self.level(v) + 1;
        self.lift(v, to, steps);
    }

    // Moves `v` to the level `to`. Takes no memory. Costs and counts what `lift` does.
    fn shift<L: Ledger>(&mut self, v: u32, to: u16, steps: &mut Steps<L>)
        requires { v < self.old.graph.vertices }
        ensures value { self.new ≡ record self.old { levels = slice_set self.old.levels v to } }
        ensures cost { steps.new ≡ steps.old + (length (neighbours_of v self.old.graph.edges) + 1) }
    {
        let moved = Move {
            vertex: v,
            old: self.level(v),
            new: to,
        };
        moves::shift(
            &self.graph,
            &mut self.levels,
            &mut self.counts,
            moved,
            steps,
        );
    }

    /// Moves `v` up to the level `to`, which is at least its own. Takes no memory.
    ///
    /// Costs one pass over its neighbours, however far it rises. Counts a step for each of them, and one more.
    pub fn lift<L: Ledger>(&mut self, v: u32, to: u16, steps: &mut Steps<L>)
        requires vertex { v < self.old.graph.vertices }
        requires over { slice_index self.old.levels v ≤ to }
        ensures value { self.new ≡ record self.old { levels = slice_set self.old.levels v to } }
        ensures cost { steps.new ≡ steps.old + (length (neighbours_of v self.old.graph.edges) + 1) }
    {
        self.shift(v, to, steps);
    }

    /// Moves each vertex of the list up to its level in `new`; all other levels in `new` are the present ones. Takes no
    /// memory.
    ///
    /// A level is 0 to 65,535, and no vertex is lower in `new` than before; a vertex of the list may stay. Each vertex
    /// is in the list once, in any order.
    ///
    /// Costs one pass over the neighbours of each vertex, however far it rises; nothing is written at a neighbour that
    /// moves too. An ascending list costs least. Counts a step for each neighbour, and one more for each vertex.
    pub fn lift_all<L: Ledger>(&mut self, vertices: &[u32], new: &Levels, steps: &mut Steps<L>)
        requires sized { length new.now ≡ self.old.graph.vertices }
        requires vertices { (v : ℕ) → has_number v vertices.now ≡ true → v < self.old.graph.vertices }
        requires over { IsBelow self.old.graph.vertices self.old.levels new.now }
        requires moved { (v : ℕ) → slice_index self.old.levels v < slice_index new.now v → has_number v vertices.now ≡ true }
        requires once { AreDistinct vertices.now }
        ensures value { self.new ≡ record self.old { levels = new.now } }
        ensures cost { steps.new ≡ steps.old + (degrees self.old.graph vertices.now + length vertices.now) }
    {
        let lift = Lift::new(&self.graph, &self.levels, new);
        lift_counts(&lift, &mut self.counts, vertices, steps);
        take_up(&mut self.levels, vertices, new);
    }

    /// Does what `lift_all` does, by threads if the list is long.
    ///
    /// Only time and memory depend on the crew. If the list is a quarter of all vertices or more, and they have half of
    /// all neighbours or more, all counts are made afresh. That costs a look at each vertex that `new` has on level 0,
    /// and a pass over the neighbours of each other one. So it visits at most twice as many neighbours as it counts
    /// steps for. If the graph has 32,768 vertices or more, threads share it. It takes no memory.
    ///
    /// Otherwise the list is cut into a piece for each worker, but at most one for each full 4,096 vertices. So with
    /// one worker, or fewer than 8,192 vertices in the list, it is `lift_all`, and takes no memory. Else each piece
    /// goes to a thread of its own if one can be made. The thread passes over the neighbours and writes nothing. Then
    /// one thread writes what the others found. Memory is taken for that:
    ///
    /// - 12 bytes a vertex;
    /// - 4 to 8 bytes for each neighbour that stays and may gain;
    /// - in each piece the same for each neighbour of one more vertex.
    ///
    /// Fails only if memory runs out; then all is unchanged, the steps too. Counts what `lift_all` counts.
    pub fn par_lift_all<R: Threads + Sync, L: Ledger>(
        &mut self,
        crew: &Crew<'_, R>,
        vertices: &[u32],
        new: &Levels,
        steps: &mut Steps<L>,
    ) -> Result<(), AllocError>
        requires sized { length new.now ≡ self.old.graph.vertices }
        requires vertices { (v : ℕ) → has_number v vertices.now ≡ true → v < self.old.graph.vertices }
        requires over { IsBelow self.old.graph.vertices self.old.levels new.now }
        requires moved { (v : ℕ) → slice_index self.old.levels v < slice_index new.now v → has_number v vertices.now ≡ true }
        requires once { AreDistinct vertices.now }
        ensures ok { OnOk result (self.new ≡ record self.old { levels = new.now }) }
        ensures cost { OnOk result (steps.new ≡ steps.old + (degrees self.old.graph vertices.now + length vertices.now)) }
        ensures err { OnErr result (self.new ≡ self.old) }
        ensures steps_kept { OnErr result (steps.new ≡ steps.old) }
    {
        let lift = Lift::new(&self.graph, &self.levels, new);
        par_lift_counts(crew, &lift, &mut self.counts, vertices, steps)?;
        take_up(&mut self.levels, vertices, new);
        Ok(())
    }

    /// Moves `v` down to the level `to`, which is at most its own. Takes no memory.
    ///
    /// Costs one pass over its neighbours, however far it falls. Counts a step for each of them, and one more.
    pub fn fall<L: Ledger>(&mut self, v: u32, to: u16, steps: &mut Steps<L>)
        requires vertex { v < self.old.graph.vertices }
        requires under { to ≤ slice_index self.old.levels v }
        ensures value { self.new ≡ record self.old { levels = slice_set self.old.levels v to } }
        ensures cost { steps.new ≡ steps.old + (length (neighbours_of v self.old.graph.edges) + 1) }
    {
        self.shift(v, to, steps);
    }
}
