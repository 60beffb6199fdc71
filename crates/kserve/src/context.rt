//! What stays the same while scripts are served.

use crate::scripts::Scripts;
use kc_rounds::Rounds;
use std::marker::Model;

/// What stays the same while scripts are served: the rounds of phases and the scripts. Contracts see the scripts alone.
#[derive(Drop)]
pub struct ServeContext<'a, R, G> {
    /// Has the threads of phases and clients, the allocator, and the gate of both.
    pub rounds: Rounds<'a, R, G>,
    /// The scripts that are served.
    pub asked: &'a Scripts,
}

impl<'a, R, G> Model for ServeContext<'a, R, G> {
    ghost use Rattle.kserve.specs.declared.scripts.Scripts.{Scripts};

    ghost Value = { Scripts };

    ghost view = { λ c. c.asked.now };
}
