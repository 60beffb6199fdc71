//! A colour for each vertex that none of its out-neighbours has. Vertices are coloured from the greatest level down.
ghost use Rattle.std.specs.Prelude.{◌≡◌, ◌≢◌, ℕ, ◌+◌, ◌<◌, ◌≤◌, [], All, IfOk, length, slice_index, slice_index_or};
ghost use Rattle.kc_graph.specs.declared.limits.TheConstants.{MAX_VERTICES};
ghost use Rattle.kc_orient.specs.Colouring.{IsLeastFree, IsColouring};
ghost use Rattle.kc_orient.specs.private.Descent.{AreLinked, IsColouredTo, IsNext};
ghost use Rattle.kc_orient.specs.private.Marks.{IsMarked};
ghost use Rattle.kc_orient.specs.Shape.{IsOriented};

use crate::descent::{Descent, descend};
use crate::orientation::Orientation;
use std::alloc::{AllocError, Global};

// Returns the greatest number of out-neighbours of a vertex.
fn most_out(orientation: &Orientation) -> u32
    ensures { (v : ℕ) → v < length orientation.now.levels → length (slice_index_or orientation.now.outs v []) ≤ result }
{
    let mut most = 0;
    for v in 0..orientation.vertices() {
        most = (orientation.out(v).len() as u32).max(most);
    }
    most
}

// Returns the least colour that none of the vertices has. Marks their colours by a stamp that no mark has yet.
fn least_free(vertices: &[u32], colours: &[u32], marks: &mut Vec<u32>, stamp: u32) -> u32
    requires below { All (λ w. (w < length colours.now) × (slice_index colours.now w < length marks.old.items)) vertices.now }
    requires few { length vertices.now ≤ MAX_VERTICES }
    requires room { length vertices.now < length marks.old.items }
    requires fresh { (k : ℕ) → k < length marks.old.items → slice_index marks.old.items k ≢ stamp }
    ensures least { IsLeastFree vertices.now colours.now result }
    ensures few { result ≤ length vertices.now }
    ensures marks { IsMarked stamp marks.old.items marks.new.items }
{
    for w in vertices {
        marks[colours[*w as usize] as usize] = stamp;
    }
    let mut colour = 0;
    while marks[colour as usize] == stamp {
        colour += 1;
    }
    colour
}

// Colours the vertices of a level, from the greatest down. Vertices on greater levels have their colours.
fn colour_level(
    orientation: &Orientation,
    descent: &Descent,
    level: usize,
    colours: &mut Vec<u32>,
    marks: &mut Vec<u32>,
)
    requires oriented { IsOriented orientation.now }
    requires linked { AreLinked orientation.now.levels descent.now.firsts.items descent.now.nexts.items }
    requires level { level < length descent.now.firsts.items }
    requires coloured { IsColouredTo orientation.now level (length orientation.now.levels) colours.old.items marks.old.items }
    ensures { IsColouredTo orientation.now level 0 colours.new.items marks.new.items }
{
    let mut next = descent.firsts[level];
    while next > 0 {
        let v = next - 1;
        colours[v as usize] = least_free(orientation.out(v), colours, marks, next);
        next = descent.nexts[v as usize];
    }
}

/// Returns the colour of each vertex: the least number, from 0 on, that none of its out-neighbours has (`IsColouring`).
///
/// The ends of an edge have different colours, and no colour is above the number of its vertex's out-neighbours.
///
/// Costs one pass over the vertices and their out-neighbours, and one over the levels up to the highest. Takes memory
/// for two numbers a vertex, of which it returns one, and a number for each level and each colour. Fails only if memory
/// runs out.
pub fn colour(alloc: Global, orientation: &Orientation) -> Result<Vec<u32>, AllocError>
    ensures { IfOk result (λ colours. IsColouring orientation.now.outs colours.items) }
{
    let descent = descend(alloc, orientation.levels.as_slice())?;
    let mut colours = vec![in alloc; 0u32; orientation.vertices() as usize]?;
    let mut marks = vec![in alloc; 0u32; most_out(orientation) as usize + 1]?;
    for level in (0..descent.firsts.len()).rev() {
        colour_level(orientation, &descent, level, &mut colours, &mut marks);
    }
    Ok(colours)
}
