//! A client, which submits items to an intake under its number.

use crate::rule::Pass;
use std::marker::Model;

/// A client that submits items to an intake. Contracts see its intake, its number, and `sent`, the items that it
/// submitted.
#[derive(Drop)]
pub struct Client {
    // The rights of the client at the queue, and all items that it has sent. The pass is for the client's number.
    pub(crate) pass: Pass,
    // The number of the client, from 0 on. No other client of its intake has it.
    pub(crate) number: u32,
    // The number of items that the client has sent: the serial of the next item.
    pub(crate) serial: u32,
}

impl Model for Client {
    ghost use Rattle.std.specs.Prelude.{◌≡◌, length};
    ghost use Rattle.kc_intake.specs.Views.{ClientShape, client_shape, IsClient};

    ghost Value = { ClientShape };

    ghost view = { λ c. client_shape c.pass };

    ghost invariant = { λ c. IsClient c.pass × ((client_shape c.pass).number ≡ c.number) × (length (client_shape c.pass).sent ≡ c.serial) };
}
