//! An engine beside the audience of its phases.
ghost use Rattle.std.specs.Prelude.{◌≡◌};

use crate::audience::Audience;
use kc_engine::Engine;

/// An engine, and the audience to which the phases of its batches are shown.
#[derive(Drop)]
pub struct Watched<'a> {
    /// The engine that takes the batches.
    pub engine: Engine,
    /// The audience to which its phases are shown.
    pub audience: Audience<'a>,
}

// Drops the audience: nothing more is shown.
fn leave(_audience: Audience<'_>) {}

impl<'a> Watched<'a> {
    /// Returns the engine, and drops the audience.
    pub fn into_engine(self) -> Engine
        ensures { result ≡ self.entry.engine }
    {
        let Watched { engine, audience } = self;
        leave(audience);
        engine
    }
}
