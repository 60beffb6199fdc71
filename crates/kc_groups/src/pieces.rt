//! A forest over the moves of a phase, made piece by piece, by a thread for each piece.
ghost use Rattle.std.specs.Prelude.{◌+◌, ◌<◌, ◌≤◌, IfOk, length};
ghost use Rattle.kc_groups.specs.private.Forest.{AreGathered};
ghost use Rattle.kc_groups.specs.Gathering.{vertices};
ghost use Rattle.kc_groups.specs.private.Gathering.{AreNumbered, in_piece, in_rows};

use crate::forest::join_forest;
use crate::linking::{link_rows, lone_places};
use kc_graph::{Crew, Graph, MAX_VERTICES};
use kc_history::Move;
use std::alloc::{AllocError, Global};
use std::ops::Range;
use std::thread;
use std::thread::Threads;

// Moves are cut into at most one piece for each `LEAST_LINKED` moves. Each piece joins most of the moves once more in a
// forest of its own. So fewer than twice as many take one thread no more time than several.
const LEAST_LINKED: usize = 65_536;

// The most pieces. The forest of each takes 4 bytes for every move, and one thread goes through all of them.
const MOST_PIECES: u32 = 8;

// Makes a forest over the moves, in which the moves of a piece are joined with those of their neighbours at lesser
// places. The piece has the moves at the places of a part, and as many at the other end of the list.
//
// The later a place, the more lesser places there are. So pieces of two such parts take about as long as one another.
fn link_piece(
    alloc: Global,
    graph: &Graph,
    moves: &[Move],
    places: &[u32],
    part: Range<usize>,
) -> Result<Vec<u32>, AllocError>
    requires small { length moves.now ≤ MAX_VERTICES }
    requires numbered { AreNumbered graph.now.vertices (vertices moves.now) places.now }
    requires order { part.start ≤ part.end }
    requires inside { part.end ≤ length moves.now }
    ensures { IfOk result (λ own. AreGathered (length moves.now) (in_piece graph.now (vertices moves.now) part.start part.end) own.items) }
{
    let m = moves.len();
    let mut own = lone_places(alloc, m as u32)?;
    let parents = own.as_mut_slice();
    link_rows(graph, moves, places, parents, part.start..part.end);
    link_rows(graph, moves, places, parents, m - part.end..m - part.start);
    Ok(own)
}

// Makes a forest over the moves, in which moves with an edge of the graph between them are in one tree.
//
// Each piece gets a forest in a thread of its own if one can be made, and this thread joins these forests. A single
// piece starts no thread.
pub(crate) fn gather_rows<R: Threads + Sync>(
    crew: &Crew<'_, R>,
    graph: &Graph,
    moves: &[Move],
    places: &[u32],
) -> Result<Vec<u32>, AllocError>
    requires small { length moves.now ≤ MAX_VERTICES }
    requires numbered { AreNumbered graph.now.vertices (vertices moves.now) places.now }
    ensures { IfOk result (λ parents. AreGathered (length moves.now) (in_rows graph.now (vertices moves.now) 0 (length moves.now)) parents.items) }
{
    let alloc = crew.alloc;
    let mut forest = lone_places(alloc, moves.len() as u32)?;
    let parents = forest.as_mut_slice();
    let half = moves.len().div_ceil(2);
    let few = crew.with(crew.workers.min(MOST_PIECES));
    let size = few.piece_len(half, LEAST_LINKED / 2);
    if half <= size {
        link_rows(graph, moves, places, parents, 0..moves.len());
        return Ok(forest);
    }
    let found = thread::map_chunks(
        crew.rt,
        alloc,
        &moves[..half],
        size,
        &|start: usize, piece: &[Move]| -> Result<Vec<u32>, AllocError>
            requires { (length moves.now ≤ MAX_VERTICES) × AreNumbered graph.now.vertices (vertices moves.now) places.now × (start + length piece.now ≤ length moves.now) }
            ensures { IfOk result (λ own. AreGathered (length moves.entry.now) (in_piece graph.entry.now (vertices moves.entry.now) start (start + length piece.entry.now)) own.items) }
        { link_piece(alloc, graph, moves, places, start..start + piece.len()) },
    )?;
    for own in &found {
        match own {
            Ok(own) => join_forest(own, parents),
            Err(_) => return Err(AllocError),
        }
    }
    Ok(forest)
}
