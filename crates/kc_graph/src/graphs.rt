//! A graph as a row of neighbours for each vertex: look-ups, and edges that come in or leave, singly or many together.

ghost use Rattle.std.specs.Prelude.{◌≡◌, ℕ, ◌+◌, ◌<◌, ◌≤◌, [], get_or, length, slice_index, false, true, All, IfOk, OnOk, OnErr};
ghost use Rattle.kc_graph.specs.Numbers.{RisesFrom};
ghost use Rattle.kc_graph.specs.Shape.{GraphShape, EdgesFrom, IsGraph, neighbours_of, has_edge, with_edge, without_edge, with_edges, without_edges};
ghost use Rattle.kc_graph.specs.Changes.{AllAbsent, AllPresent, CanRemove};

use crate::crew::Crew;
use crate::edges::Edge;
use crate::halves::Halves;
use crate::limits::{MAX_EDGES, MAX_VERTICES};
use crate::links;
use crate::rows::Row;
use crate::sharing::{give_alone, give_by, take_alone, take_by};
use crate::sorted_halves::{greater_halves, greater_halves_by};
use std::alloc::{AllocError, Global};
use std::marker::Model;
use std::thread::Threads;

/// The number of rows that are prefetched together.
pub(crate) const TOGETHER: usize = 16;

// The least number of edges whose halves are worth a sort, so that the row of each vertex is gone through once.
const LEAST_BY_ROWS: usize = 2_048;

/// A graph on the vertices 0 to n - 1, without loops, each edge once.
///
/// Contracts see it as a `GraphShape`: the number n and the ascending list of the edges.
#[derive(Drop)]
pub struct Graph {
    // The number of vertices, 1 to `MAX_VERTICES`.
    n: u32,
    // The number of edges, at most `MAX_EDGES`.
    count: u32,
    // A row for each vertex: its neighbours in the graph that all rows together stand for.
    rows: Vec<Row>,
}

impl Model for Graph {
    ghost use Rattle.kc_graph.specs.Shape.{GraphShape};
    ghost use Rattle.kc_graph.specs.KeptRows.{edges_of, IsKept};

    ghost Value = { GraphShape };

    ghost view = { λ g. record { vertices = g.n; edges = edges_of 0 g.rows.items } };

    ghost invariant = { λ g. IsKept g.n g.rows.items g.count };
}

impl Graph {
    /// Makes the graph on n vertices without edges; n is 1 to `MAX_VERTICES`.
    ///
    /// Takes memory for n empty rows. Fails only if memory runs out.
    pub fn new(alloc: Global, n: u32) -> Result<Graph, AllocError>
        requires positive { 1 ≤ n }
        requires small { n ≤ MAX_VERTICES }
        ensures { IfOk result (λ g. g ≡ record { vertices = n; edges = [] }) }
    {
        let mut rows = Vec::with_capacity(alloc, n as usize)?;
        for _ in 0..n {
            rows.push(Row::new(alloc))?;
        }
        Ok(Graph { n, count: 0, rows })
    }

    /// Returns the number of vertices.
    pub fn vertices(&self) -> u32
        ensures count { result ≡ self.now.vertices }
        ensures graph { IsGraph self.now }
        ensures positive { 1 ≤ self.now.vertices }
        ensures small { self.now.vertices ≤ MAX_VERTICES }
    {
        self.n
    }

    /// Returns the number of edges.
    pub fn edge_count(&self) -> u32
        ensures count { result ≡ length self.now.edges }
        ensures few { length self.now.edges ≤ MAX_EDGES }
    {
        self.count
    }

    /// Returns whether the edge is there. Costs a binary search in one row.
    pub fn has(&self, e: Edge) -> bool
        requires { e.1 < self.now.vertices }
        ensures { result ≡ has_edge e self.now.edges }
    {
        self.rows[e.a as usize].has(e.b)
    }

    /// Returns the neighbours of v, ascending (`neighbours_of`). Costs O(1).
    pub fn neighbours(&self, v: u32) -> &[u32]
        requires { v < self.now.vertices }
        ensures value { result.now ≡ neighbours_of v self.now.edges }
        ensures ascending { RisesFrom 0 result.now }
        ensures below { All (λ w. w < self.now.vertices) result.now }
        ensures fewer { length result.now < self.now.vertices }
        ensures small { self.now.vertices ≤ MAX_VERTICES }
    {
        self.rows[v as usize].as_slice()
    }

    /// Prefetches the row of v: loads its first and its last neighbour, so that they are in the cache for a pass over
    /// the row. Always returns true; the caller tests the answer.
    ///
    /// Rows lie anywhere in memory, and loads from several rows take little longer than from one. So a loop over many
    /// rows prefetches some of them before it passes over these. The compiler can't know that the answer is true, so it
    /// keeps the loads.
    pub fn prefetch_row(&self, v: u32) -> bool
        ensures { result ≡ true }
    {
        match self.rows.get(v as usize) {
            Some(row) => row.prefetch(),
            None => true,
        }
    }

    /// Returns `vertices[place]`, for loops over the rows of a list of vertices. At every 16th place it prefetches the
    /// next 16 rows (`prefetch_row`).
    pub fn vertex_with_prefetch(&self, vertices: &[u32], place: usize) -> u32
        requires { place < length vertices.now }
        ensures { result ≡ slice_index vertices.now place }
    {
        let v = vertices[place];
        if place % TOGETHER > 0 {
            return v;
        }
        for k in place..vertices.len().min(place + TOGETHER) {
            if !self.prefetch_row(vertices[k]) {
                // Never: `prefetch_row` always returns true.
                return 0;
            }
        }
        v
    }

    /// Puts in an edge that isn't there (`with_edge`). Fewer than `MAX_EDGES` edges are there before.
    ///
    /// Fails only if memory runs out; the graph is then unchanged. The memory comes from the allocator of `new`.
    ///
    /// Costs a binary search and a move of the greater neighbours in the rows of both ends. If the new neighbour is the
    /// greatest of its row it costs neither, so edges in ascending order cost O(1) each, amortized.
    pub fn insert(&mut self, _alloc: Global, e: Edge) -> Result<(), AllocError>
        requires below { e.1 < self.old.vertices }
        requires absent { has_edge e self.old.edges ≡ false }
        requires room { length self.old.edges < MAX_EDGES }
        ensures ok { OnOk result (self.new ≡ with_edge self.old e) }
        ensures err { OnErr result (self.new ≡ self.old) }
    {
        links::join(&mut self.rows, e.a, e.b)?;
        self.count += 1;
        Ok(())
    }

    /// Takes out an edge that is there (`without_edge`). Takes no memory, and gives none back.
    ///
    /// Costs a binary search and a move of the greater neighbours in the rows of both ends.
    pub fn remove(&mut self, e: Edge)
        requires below { e.1 < self.old.vertices }
        requires present { has_edge e self.old.edges ≡ true }
        ensures { self.new ≡ without_edge self.old e }
    {
        links::part(&mut self.rows, e.a, e.b);
        self.count -= 1;
    }

    /// Puts in ascending edges that aren't there (`with_edges`). At most `MAX_EDGES` edges are there afterwards.
    ///
    /// Fails only if memory runs out; the graph is then unchanged.
    ///
    /// Costs a sort of one pair an edge, for which it takes memory. Each vertex that gets neighbours costs one pass
    /// over them and over its old neighbours above the least of them. From 2,048 edges on the sort takes linear time,
    /// and memory for the pairs once more, which it gives back before rows change.
    pub fn insert_all(&mut self, alloc: Global, edges: &[Edge]) -> Result<(), AllocError>
        requires ascending { EdgesFrom self.old.vertices 0 0 edges.now }
        requires absent { AllAbsent self.old edges.now }
        requires room { length self.old.edges + length edges.now ≤ MAX_EDGES }
        ensures ok { OnOk result (self.new ≡ with_edges self.old edges.now) }
        ensures err { OnErr result (self.new ≡ self.old) }
    {
        let greater = greater_halves(alloc, edges)?;
        let halves = Halves::of(&greater, edges);
        if let Err(error) = give_alone(halves, &mut self.rows) {
            take_alone(halves, &mut self.rows);
            return Err(error);
        }
        self.count += edges.len() as u32;
        Ok(())
    }

    // Returns `edges[place]`, for loops over edges that come in or leave one by one. At every 16th place it prefetches
    // the rows of both ends of the next 16 edges (`prefetch_row`).
    fn edge_with_prefetch(&self, edges: &[Edge], place: usize) -> Edge
        requires { place < length edges.now }
        ensures { result ≡ get_or edges.now place (0, 0) }
    {
        let e = edges[place];
        if place % TOGETHER > 0 {
            return e;
        }
        for k in place..edges.len().min(place + TOGETHER) {
            let near = edges[k];
            if !(self.prefetch_row(near.a) && self.prefetch_row(near.b)) {
                // Never: `prefetch_row` always returns true.
                return near;
            }
        }
        e
    }

    // Does what `par_insert_all` does, one edge after another. Takes no memory but that of rows.
    fn insert_each(&mut self, alloc: Global, edges: &[Edge]) -> Result<(), AllocError>
        requires ascending { EdgesFrom self.old.vertices 0 0 edges.now }
        requires absent { AllAbsent self.old edges.now }
        requires room { length self.old.edges + length edges.now ≤ MAX_EDGES }
        ensures ok { OnOk result (self.new ≡ with_edges self.old edges.now) }
        ensures err { OnErr result (self.new ≡ self.old) }
    {
        // Evidence for the check: the edges of the graph ascend.
        let _n = self.vertices();
        for k in 0..edges.len() {
            let e = self.edge_with_prefetch(edges, k);
            if let Err(error) = self.insert(alloc, e) {
                self.remove_each(&edges[..k]);
                return Err(error);
            }
        }
        Ok(())
    }

    // Takes out edges that are there, one after another.
    fn remove_each(&mut self, edges: &[Edge])
        requires { CanRemove self.old edges.now }
        ensures { self.new ≡ without_edges self.old edges.now }
    {
        for k in 0..edges.len() {
            let e = self.edge_with_prefetch(edges, k);
            self.remove(e);
        }
    }

    /// Does what `insert_all` does, with the threads of the crew if the edges are many, each at rows of its own. The
    /// graph doesn't depend on them.
    ///
    /// Fails only if memory runs out; the graph is then unchanged.
    ///
    /// Fewer than 2,048 edges come in one after another, and cost what `insert` costs for each. More cost what
    /// `insert_all` costs, but threads share the passes over neighbours. From 4,096 edges on there are two of them, and
    /// up to one a worker with 2,048 edges for each. To share the passes costs a few passes over the pairs. From 65,536
    /// edges on threads share the sort too.
    pub fn par_insert_all<R: Threads + Sync>(
        &mut self,
        crew: &Crew<'_, R>,
        edges: &[Edge],
    ) -> Result<(), AllocError>
        requires ascending { EdgesFrom self.old.vertices 0 0 edges.now }
        requires absent { AllAbsent self.old edges.now }
        requires room { length self.old.edges + length edges.now ≤ MAX_EDGES }
        ensures ok { OnOk result (self.new ≡ with_edges self.old edges.now) }
        ensures err { OnErr result (self.new ≡ self.old) }
    {
        if edges.len() < LEAST_BY_ROWS {
            return self.insert_each(crew.alloc, edges);
        }
        let greater = greater_halves_by(crew, edges)?;
        let halves = Halves::of(&greater, edges);
        if let Err(error) = give_by(crew, halves, &mut self.rows) {
            take_by(crew, halves, &mut self.rows);
            return Err(error);
        }
        self.count += edges.len() as u32;
        Ok(())
    }

    /// Takes out ascending edges that are there (`without_edges`). If they are many, the threads of the crew do it,
    /// each at rows of its own. The graph doesn't depend on them.
    ///
    /// Fails only if memory runs out; the graph is then unchanged.
    ///
    /// Fewer than 2,048 edges leave one after another, without memory, and cost what `remove` costs for each. More cost
    /// a sort of one pair an edge, for which it takes memory. Each vertex that loses neighbours then costs at most one
    /// pass over its old neighbours. If it loses few of many, it costs a binary search for each and one move of those
    /// that stay. Threads share these passes and the sort as in `par_insert_all`.
    pub fn par_remove_all<R: Threads + Sync>(
        &mut self,
        crew: &Crew<'_, R>,
        edges: &[Edge],
    ) -> Result<(), AllocError>
        requires ascending { EdgesFrom self.old.vertices 0 0 edges.now }
        requires present { AllPresent self.old edges.now }
        ensures ok { OnOk result (self.new ≡ without_edges self.old edges.now) }
        ensures err { OnErr result (self.new ≡ self.old) }
    {
        if edges.len() < LEAST_BY_ROWS {
            self.remove_each(edges);
            return Ok(());
        }
        let greater = greater_halves_by(crew, edges)?;
        let halves = Halves::of(&greater, edges);
        take_by(crew, halves, &mut self.rows);
        self.count -= edges.len() as u32;
        Ok(())
    }
}
