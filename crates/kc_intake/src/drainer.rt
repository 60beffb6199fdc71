//! The drainer, which takes updates out of an intake, with the batch that it took last.
ghost use Rattle.std.specs.Prelude.{◌≡◌};

use crate::rule::Pass;
use crate::updates::Update;
use std::marker::Model;

/// The drainer that takes updates out of an intake.
///
/// Contracts see its intake, the last `batch`, and the number of clients. They also see `taken`, the drained batches,
/// and `joined`, the items that each client sent that was taken in.
#[derive(Drop)]
pub struct Drainer {
    // The rights of the drainer at the queue, all drained updates, and the clients that were taken in.
    pub(crate) pass: Pass,
    // The updates of the last drain. It has room for the capacity of the intake, so that no drain takes memory.
    pub(crate) batch: Vec<Update>,
}

impl Model for Drainer {
    ghost use Rattle.std.specs.Prelude.{◌≤◌, vec_capacity};
    ghost use Rattle.kc_intake.specs.Views.{DrainerShape, drainer_shape, IsDrainer};

    ghost Value = { DrainerShape };

    ghost view = { λ d. drainer_shape d.pass d.batch.items };

    ghost invariant = { λ d. IsDrainer d.pass × ((drainer_shape d.pass d.batch.items).intake.capacity ≤ vec_capacity d.batch) };
}

impl Drainer {
    /// Returns the updates of the last drain, oldest first. There are none before the first drain, and after a drain
    /// that found the intake empty.
    pub fn batch(&self) -> &[Update]
        ensures { result.now ≡ self.now.batch }
    {
        self.batch.as_slice()
    }
}
