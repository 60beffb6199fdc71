//! Loans of the moves of a group: they are lent in ranges, and given back.
ghost use Rattle.std.specs.Prelude.{◌≡◌, ◌≤◌, [], vec_len, vec_capacity, All};
ghost use Rattle.kc_engine.specs.private.Lending.{AreLent, all_returned};

use crate::showing::planned::PlannedGroup;
use crate::showing::sizes::{range_end, range_size};
use kc_store::{Marker, Store, Writer};

// Lends the moves of a group in ranges, to no more markers than there are workers. No marker is out or in the list.
pub(crate) fn lend_all(
    store: &Store,
    writer: &mut Writer,
    group: &PlannedGroup<'_>,
    workers: u32,
    markers: &mut Vec<Marker>,
)
    requires table { writer.old.table ≡ store.now.table }
    requires plan { group.now.plan.now ≡ writer.old.state.plan }
    requires workers { 1 ≤ workers }
    requires none_out { writer.old.state.loans ≡ [] }
    requires empty { (markers.old.items ≡ []) × (vec_len markers.old ≡ 0) }
    requires room { workers ≤ vec_capacity markers.old }
    ensures table { writer.new.table ≡ writer.old.table }
    ensures lent { AreLent writer.old.table group.now.g group.now.moves writer.old.state writer.new.state markers.new.items }
    ensures few { vec_len markers.new ≤ workers }
    ensures room { workers ≤ vec_capacity markers.new }
{
    let PlannedGroup { plan, g, moves } = *group;
    let size = range_size(moves, workers);
    let mut from = 0;
    for _worker in 0..workers {
        if from < moves {
            let to = range_end(from, size, moves);
            let marker = writer.lend(store, plan, g, from, to);
            markers.push(marker).unwrap();
            from = to;
        }
    }
}

// Gives the markers back, the last one first.
pub(crate) fn give_back_all(store: &Store, writer: &mut Writer, markers: &mut Vec<Marker>)
    requires table { writer.old.table ≡ store.now.table }
    requires markers { All (λ m. m.table ≡ store.now.table) markers.old.items }
    ensures table { writer.new.table ≡ writer.old.table }
    ensures returned { writer.new.state ≡ all_returned markers.old.items writer.old.state }
    ensures empty { (markers.new.items ≡ []) × (vec_len markers.new ≡ 0) }
    ensures room { vec_capacity markers.new ≡ vec_capacity markers.old }
{
    for _turn in 0..markers.len() {
        if let Some(marker) = markers.pop() {
            writer.give_back(store, marker);
        }
    }
}
