//! A buffer between a source and the scanner that reads it.
ghost use Rattle.std.specs.Prelude.{◌≡◌, ℕ, ◌<◌, ◌≤◌, [], List, length, drop, IfOk, OnOk, OnErr};
ghost use Rattle.std.specs.Io.KnownBytes.{prepend_known, IsAtEnd};
ghost use Rattle.kc_text.specs.Causes.{Rose};

use crate::{Failed, Source};
use std::alloc::{AllocError, Global};
use std::marker::Model;

// The most bytes of a first read: the default capacity of a pipe.
const FIRST_SIZE: usize = 65_536;

// The most bytes of a later read: those of some hundred thousand lines. A long batch then lies in the buffer for the
// most part, and is read ahead from there.
const MAX_SIZE: usize = 4_194_304;

/// The bytes of a source that were read and not yet taken. A contract sees them as a list.
#[derive(Drop)]
pub struct Window {
    // The buffer that reads fill: never empty.
    buf: Vec<u8>,
    // The bytes from here to `to` were read and not yet taken.
    from: usize,
    // At least `from`, and at most the length of `buf`.
    to: usize,
    // Whether the last read filled `buf`.
    is_full: bool,
}

impl Model for Window {
    ghost use Rattle.std.specs.Prelude.{List, ℕ, ◌≤◌, ◌<◌, vec_len};
    ghost use Rattle.std.specs.List.{slice_range};

    ghost Value = { List ℕ };

    ghost view = { λ w. slice_range w.buf.items w.from w.to };

    ghost invariant = { λ w. (w.from ≤ w.to) × (w.to ≤ vec_len w.buf) × (0 < vec_len w.buf) };
}

impl Window {
    /// Makes an empty window. Takes memory for a first read of 64 KiB. Fails only if there is none.
    pub fn new(alloc: Global) -> Result<Self, AllocError>
        ensures { IfOk result (λ w. w ≡ []) }
    {
        Ok(Window {
            buf: vec![in alloc; 0u8; FIRST_SIZE]?,
            from: 0,
            to: 0,
            is_full: false,
        })
    }

    /// Returns the bytes that were read and not yet taken.
    pub fn ready(&self) -> &[u8]
        ensures { result.now ≡ self.now }
    {
        &self.buf[self.from..self.to]
    }

    /// Takes the first n bytes. The window has at least n.
    pub fn pass(&mut self, n: usize)
        requires { n ≤ length self.old }
        ensures { self.new ≡ drop n self.old }
    {
        self.from += n;
    }

    /// Takes all bytes.
    pub fn clear(&mut self)
        ensures { self.new ≡ [] }
    {
        self.from = 0;
        self.to = 0;
    }

    // Doubles the buffer, if there is memory and it stays within `MAX_SIZE` bytes. The window is empty.
    fn grow(&mut self, alloc: Global)
        requires { self.old ≡ [] }
        ensures { self.new ≡ [] }
    {
        let size = self.buf.len();
        if size <= MAX_SIZE / 2 {
            if let Ok(buf) = vec![in alloc; 0u8; size * 2] {
                self.buf = buf;
                self.clear();
            }
        }
    }

    /// Reads once. The window is empty before. At the end of the input it stays empty. After a read that filled the
    /// window the next one may bring twice as much, up to 4 MiB.
    pub fn fill<S: Source>(&mut self, alloc: Global, src: &mut S) -> Result<(), Failed>
        requires { self.old ≡ [] }
        ensures given { OnOk result (S.left src.old ≡ prepend_known self.new (S.left src.new)) }
        ensures end { OnOk result (self.new ≡ [] → IsAtEnd (S.left src.new)) }
        ensures failed { OnErr result (S.left src.new ≡ S.left src.old) }
        ensures same { OnErr result (self.new ≡ []) }
        ensures cause { OnErr result (Rose (S.faults src.old) (S.faults src.new)) }
        ensures quiet { OnOk result (S.faults src.new ≡ S.faults src.old) }
    {
        if self.is_full {
            self.grow(alloc);
        }
        let count = src.read(&mut self.buf)?;
        self.from = 0;
        self.to = count;
        self.is_full = count == self.buf.len();
        Ok(())
    }
}
