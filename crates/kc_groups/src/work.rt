//! The workspace of a plan: a number for each vertex, and spare entries.
ghost use Rattle.std.specs.Prelude.{◌≡◌, ◌≤◌, ℕ, List, ◌<◌, IfOk, length};
ghost use Rattle.kc_groups.specs.private.Forest.{IsForest};
ghost use Rattle.kc_groups.specs.Gathering.{vertices, clean, AreInOrder};
ghost use Rattle.kc_groups.specs.private.Gathering.{AreNumbered, AreLabelled, HaveNone};

use crate::PhasePlan;
use crate::spares::keep_small;
use kc_graph::MAX_VERTICES;
use kc_history::{Entry, Move};
use std::alloc::{AllocError, Global};
use std::marker::Model;

/// The workspace of `plan_moves`, kept between phases. Contracts see a list with a number for each vertex, which is
/// clean (`clean`) between phases. Plans don't depend on the spare entries that it also keeps.
#[derive(Drop)]
pub struct GroupWork {
    // A number for each vertex. It is the number of vertices if the vertex doesn't move, so for each vertex between
    // phases.
    //
    // While a phase is planned, the number of a vertex that moves is at first the place of its move. Then it is the
    // label of its group, and at last the place of the group's entry.
    pub(crate) places: Vec<u32>,
    // Entries of plans that were taken back. The next plan takes their memory first.
    pub(crate) spares: Vec<Entry>,
}

impl Model for GroupWork {
    ghost use Rattle.std.specs.Prelude.{List, ℕ};

    ghost Value = { List ℕ };

    ghost view = { λ w. w.places.items };
}

impl GroupWork {
    /// Makes the workspace of a graph with n vertices. Takes memory for n numbers. Fails only if memory runs out.
    pub fn new(alloc: Global, n: u32) -> Result<GroupWork, AllocError>
        ensures { IfOk result (λ work. work ≡ clean n) }
    {
        Ok(GroupWork {
            places: vec![in alloc; n; n as usize]?,
            spares: Vec::new(alloc),
        })
    }

    /// Takes back a plan that is no longer needed: the memory of its small groups serves the plans of later phases. The
    /// numbers stay as they are.
    ///
    /// Keeps at most 16,384 entries, each with at most 8 moves and 8 edges, and drops the others: less than 4 MB. Costs
    /// a step for each group.
    pub fn take_back(&mut self, plan: PhasePlan)
        ensures { self.new ≡ self.old }
    {
        keep_small(plan.groups.into_vec(), &mut self.spares);
    }
}

// Gives each vertex that moves the place of its move.
pub(crate) fn number(moves: &[Move], places: &mut [u32])
    requires few { length places.old ≤ MAX_VERTICES }
    requires clean { places.old ≡ clean (length places.old) }
    requires order { AreInOrder (length places.old) moves.now }
    ensures { AreNumbered (length places.old) (vertices moves.now) places.new }
{
    for place in 0..moves.len() {
        places[moves[place].vertex as usize] = place as u32;
    }
}

// Gives each vertex that moves the vertex of its root. A place points to a lesser place, whose vertex already has its
// root's.
pub(crate) fn label(moves: &[Move], parents: &[u32], places: &mut [u32])
    requires numbered { AreNumbered (length places.old) (vertices moves.now) places.old }
    requires forest { (roots : List ℕ) × IsForest parents.now roots }
    requires same { length parents.now ≡ length moves.now }
    ensures { (roots : List ℕ) → IsForest parents.now roots → AreLabelled (length places.old) (vertices moves.now) roots places.new }
{
    for place in 0..moves.len() {
        let v = moves[place].vertex;
        let up = parents[place] as usize;
        places[v as usize] = if up == place {
            v
        } else {
            places[moves[up].vertex as usize]
        };
    }
}

// Resets the number of each vertex that moves to the number of vertices, so that the numbers are clean again.
pub(crate) fn reset(moves: &[Move], places: &mut [u32])
    requires few { length places.old ≤ MAX_VERTICES }
    requires order { AreInOrder (length places.old) moves.now }
    requires none { HaveNone (length places.old) (vertices moves.now) places.old }
    ensures { places.new ≡ clean (length places.old) }
{
    let n = places.len() as u32;
    for m in moves {
        places[m.vertex as usize] = n;
    }
}
