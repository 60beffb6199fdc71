//! A reader of std as a source.
ghost use Rattle.std.specs.Prelude.{◌≡◌, None, true};
ghost use Rattle.kc_text.specs.Telling.{IsTold, told_of};

use crate::{Failed, Source, Told, Untold};
use std::io::{ErrorKind, Read};
use std::marker::{Model, PhantomData};

/// A source over a reader, such as the program's standard input. If `K` says so, the source tells the bytes that its
/// reader tells. By default it tells none.
///
/// Each error of the reader is a fault, except that a read that a signal interrupted is made again. A contract sees the
/// source as an `Inlet`: the bytes left, if the source tells them, and the count of faults.
#[derive(Drop)]
pub struct StdSource<R: Read, K: Told = Untold> {
    // The origin of the bytes.
    reader: R,
    // The number of failed calls, without interrupted ones.
    faults: u64,
    // Whether the source tells its bytes.
    told: PhantomData<K>,
}

impl<R: Read, K: Told> Model for StdSource<R, K> {
    ghost use Rattle.std.specs.Prelude.{◌≡◌, true};
    ghost use Rattle.kc_text.specs.Causes.{Inlet};
    ghost use Rattle.kc_text.specs.Telling.{IsTold, told_of};

    ghost Value = { Inlet };

    ghost view = { λ s. record { left = told_of K.told (R.remaining s.reader); faults = s.faults } };

    ghost invariant = { λ s. K.told ≡ true → IsTold (R.remaining s.reader) };
}

impl<R: Read + Drop> StdSource<R, Untold> {
    /// Returns a source that reads from `reader` and tells no bytes.
    pub fn new(reader: R) -> Self
        ensures { result ≡ record { left = None; faults = 0 } }
    {
        StdSource::telling(reader)
    }
}

impl<R: Read + Drop, K: Told> StdSource<R, K> {
    /// Returns a source that reads from `reader`. If `K` says so (`Told`), contracts see the bytes that the reader has
    /// left; the reader then has to tell them.
    pub fn telling(reader: R) -> Self
        requires { K.told ≡ true → IsTold (R.remaining reader) }
        ensures { result ≡ record { left = told_of K.told (R.remaining reader); faults = 0 } }
    {
        StdSource {
            reader,
            faults: 0,
            told: PhantomData,
        }
    }
}

impl<R: Read + Drop, K: Told> Source for StdSource<R, K> {
    ghost left = { λ s. s.left };

    ghost faults = { λ s. s.faults };

    #[tactic(auto, using(crate::proofs::Telling::read_left, crate::proofs::Telling::read_tells, crate::proofs::Telling::kept, crate::proofs::Telling::kept_tells, crate::proofs::Telling::at_end))]
    fn read(&mut self, buf: &mut [u8]) -> Result<usize, Failed> {
        for _turn in 0..u64::MAX {
            match self.reader.read(buf) {
                Ok(count) => return Ok(count),
                Err(e) if e.kind() == ErrorKind::Interrupted => {}
                Err(_) => break,
            }
        }
        self.faults = self.faults.saturating_add(1);
        Err(Failed)
    }
}
