//! The part that a service and its readers share.
ghost use Rattle.std.specs.Prelude.{◌≡◌, IfOk};
ghost use Rattle.std.specs.Arc.{arc_value};
ghost use Rattle.kc_store.specs.States as states;
ghost use Rattle.kc_service.specs.Opening.{IsInRange};

use crate::options::Options;
use kc_levels::{Profile, Thresholds};
use kc_store::{Store, Writer};
use std::alloc::{AllocError, Global};
use std::sync::Arc;

/// The levels that a service shows to its readers, and the bounds of coreness that each level stands for.
#[derive(Drop)]
pub struct Board {
    /// The levels that readers look up.
    pub store: Store,
    /// The profile of the levels' thresholds.
    pub profile: Profile,
    /// The thresholds of this profile.
    pub thresholds: Thresholds,
    ghost of: { thresholds.profile ≡ profile },
    ghost scale: { thresholds.vertices ≡ store.vertices },
}

/// Makes a board for options that are in range, and the writer of its store.
pub(crate) fn open_board(
    alloc: Global,
    options: Options,
) -> Result<(Arc<Board, Global>, Writer), AllocError>
    requires { IsInRange options }
    ensures profile { IfOk result (λ r. (arc_value r.0).thresholds.profile ≡ options.profile) }
    ensures vertices { IfOk result (λ r. (arc_value r.0).store.vertices ≡ options.vertices) }
    ensures writer { IfOk result (λ r. r.1 ≡ record { table = (arc_value r.0).store.table; state = states.opened options.vertices 0 }) }
{
    let thresholds = Thresholds::new(alloc, options.profile, options.vertices)?;
    let (store, writer) = Store::open(alloc, options.vertices, 0)?;
    let board = Board {
        store,
        profile: options.profile,
        thresholds,
    };
    Ok((Arc::new(alloc, board)?, writer))
}
