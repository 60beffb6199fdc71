//! Whether a source over a reader, or a sink over a writer, tells its bytes.
use std::marker::Brand;

/// Says whether contracts see the bytes. The type parameter of a call is picked by [`Brand`] and doesn't exist at run
/// time.
///
/// By the contracts of std some readers tell the bytes that they have left, and some writers the bytes that they hold.
/// These are the ones in memory, and the ones over another one that tells its bytes. For a given reader the contracts
/// don't say whether it does.
///
/// So a function over any reader has a type parameter with this bound. If the parameter is true, the function requires
/// that the reader tells its bytes.
pub trait Told {
    ghost use Rattle.std.specs.Prelude.{Bool};

    ghost told: { Bool };
}

/// The source or sink doesn't tell its bytes.
pub struct Untold;

impl Told for Untold {
    ghost use Rattle.std.specs.Prelude.{false};

    ghost told = { false };
}

impl Told for Brand {
    ghost use Rattle.std.specs.Prelude.{false};

    ghost told = { false };
}
