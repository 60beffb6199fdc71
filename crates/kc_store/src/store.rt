//! The table of levels, and how a reader looks a level up.
ghost use Rattle.std.specs.Prelude.{◌≡◌, ◌≤◌, ◌<◌, length, IfOk};
ghost use mathlib.Core.List.{IsPrefix};
ghost use Rattle.kc_store.specs.States.{opened, last_level};

use crate::roles::Role;
use crate::rule::{FirstLoad, Place, Rule, SecondLoad, Size, ThirdLoad};
use crate::writer::Writer;
use atomic_table::Table;
use kc_history::{MAX_PHASE, MAX_VERTICES};
use kc_words::unpack;
use std::alloc::{AllocError, Global};
use std::marker::Model;

/// The levels of the vertices 0 to n - 1. Contracts see its table and n.
#[derive(Drop)]
pub struct Store {
    // The number of phases. Then for each vertex its mark, for each label its stamp, and for each vertex its old level.
    pub(crate) table: Table<u8, Role, Size, Rule, Global>,
    pub(crate) n: u32,
}

impl Model for Store {
    ghost use Rattle.std.specs.Prelude.{◌≡◌, ◌+◌, ◌*◌};
    ghost use Rattle.kc_store.specs.Seats.{StoreShape};

    ghost Value = { StoreShape };

    ghost view = { λ s. record { table = s.table.shared.table_id; vertices = s.n } };

    ghost invariant = { λ s. (s.table.shared.key.vertices ≡ s.n) × (s.table.shared.table_id.words ≡ 3 * s.n + 1) };
}

/// The state of a reader. Contracts see the part of the history that the pass has seen, and the length of the history
/// when the pass was made.
#[derive(Drop)]
pub struct Pass {
    pub(crate) seat: Place,
}

impl Model for Pass {
    ghost use Rattle.kc_store.specs.Seats.{PassShape, pass_shape, IsPass};

    ghost Value = { PassShape };

    ghost view = { λ p. pass_shape p.seat };

    ghost invariant = { λ p. IsPass p.seat };
}

impl Store {
    /// Opens a store for the vertices 0 to n - 1, each on level 0, and its writer. The history is empty, and the first
    /// phase has the number after `phases_before`.
    ///
    /// n is 1 to `MAX_VERTICES`, and `phases_before` at most `MAX_PHASE`. Takes all memory that the store and its
    /// writer, markers and passes ever need: 24 bytes a vertex. Until it returns it takes twice that, since the table
    /// copies the words with which it begins. Fails only if memory runs out.
    pub fn open(alloc: Global, n: u32, phases_before: u32) -> Result<(Store, Writer), AllocError>
        requires vertices { (1 ≤ n) × (n ≤ MAX_VERTICES) }
        requires phases { phases_before ≤ MAX_PHASE }
        ensures vertices { IfOk result (λ r. r.0.vertices ≡ n) }
        ensures writer { IfOk result (λ r. r.1 ≡ record { table = r.0.table; state = opened n phases_before }) }
    {
        let mut words = vec![in alloc; 0u64; 3 * n as usize + 1]?;
        words[0] = u64::from(phases_before);
        let size = Size {
            vertices: n,
            before: phases_before,
        };
        let (table, seat) = Table::of_words(alloc, words.as_slice(), &size)?;
        Ok((Store { table, n }, Writer { seat }))
    }

    /// Returns the number of vertices.
    pub fn vertices(&self) -> u32
        ensures { result ≡ self.now.vertices }
    {
        self.n
    }

    /// Returns the level of v at a point of the history that is not before the part that the pass had seen. The pass
    /// has then seen the history up to that point. The pass is of this store, and v is below n.
    ///
    /// Cost: one to three loads, and no memory. It never waits, and never starts again.
    pub fn read(&self, pass: &mut Pass, v: u32) -> u16
        requires table { pass.old.table ≡ self.now.table }
        requires vertex { v < self.now.vertices }
        ensures same { pass.new ≡ record pass.old { seen = pass.new.seen } }
        ensures later { IsPrefix pass.old.seen pass.new.seen }
        ensures level { last_level self.now.vertices pass.new.seen v ≡ result }
    {
        let words = &self.table.shared;
        let mark = unpack(words.load::<FirstLoad>(&mut pass.seat, v as usize + 1));
        if mark.phase == 0 {
            return mark.new;
        }
        // The label may be published again in a later phase between the two loads. Then the stamp is greater than the
        // mark's phase.
        let stamp = words.load::<SecondLoad>(
            &mut pass.seat,
            self.n as usize + 1 + mark.label as usize,
        );
        if u64::from(mark.phase) <= stamp {
            return mark.new;
        }
        // Later writers store the level of v at that time. So the value was the level of v at some time since the first
        // load.
        words.load::<ThirdLoad>(&mut pass.seat, 2 * self.n as usize + 1 + v as usize) as u16
    }
}
