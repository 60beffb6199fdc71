//! A show: phases that take effect in a store, and the threads that mark and clear their moves.

use kc_groups::PhasePlan;
use kc_store::Store;
use std::marker::Model;

// The phases that are shown, the store in which they take effect, and the threads that mark and clear the moves of
// their groups. Contracts see the store's table, the phases and the number of vertices.
#[derive(Drop)]
pub(crate) struct Show<'a, R, G> {
    // The runtime that starts the threads.
    pub(crate) rt: &'a R,
    // The gate that gets a spot before each range and each publication.
    pub(crate) gate: &'a G,
    // The store.
    pub(crate) store: &'a Store,
    // The phases, in order.
    pub(crate) phases: &'a [PhasePlan],
    // The number of vertices of each phase.
    pub(crate) n: u32,
}

impl<'a, R, G> Model for Show<'a, R, G> {
    ghost use Rattle.kc_engine.specs.private.Shows.{ShowShape};

    ghost Value = { ShowShape };

    ghost view = { λ s. record { table = s.store.now.table; phases = s.phases.now; n = s.n } };
}
