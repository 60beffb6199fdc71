//! What an input of `kserve` says once it is read: the number of vertices, and a script for each client.
ghost use Rattle.std.specs.Prelude.{◌≡◌};
ghost use Rattle.kserve.specs.Inputs.{items_in};
ghost use Rattle.kserve.specs.private.Scripts.{AreScripts};

use kc_batch::Items;

/// The scripts of an input.
#[derive(Drop, Debug)]
pub struct Scripts {
    /// The number of vertices, 1 to `MAX_VERTICES`.
    pub n: u32,
    /// The script of each client, in the order of their numbers: at most `MAX_CLIENTS`. Their items are due
    /// (`AreScripts`).
    pub scripts: Vec<Items>,
    /// How many items they have together: at most `MAX_ITEMS`.
    pub count: u32,
    ghost ranges: { AreScripts n scripts.items },
    ghost counted: { count ≡ items_in scripts.items },
}
