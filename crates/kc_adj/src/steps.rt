//! A count of steps for bounds on the work of a call. Contracts and a proof see the count, and a running program has
//! none of it.

ghost use Rattle.std.specs.Prelude.{ℕ, ◌≡◌, ◌+◌, ◌*◌, ◌<◌};

use std::marker::Model;
use std::sync::ledger::{Blank, Book, Ledger, Share};

/// The number of steps, from 0 on without a limit. Contracts see that number.
///
/// It takes no bytes and no time when the program runs, and only `tick` and `add` change it. The number is kept in the
/// ledger `L`.
#[derive(Drop)]
pub struct Steps<L: Ledger> {
    // The sum of what was added to the ledger: the number of steps.
    book: Book<L>,
    // Parts of the same ledger, at least one: only a holder of parts can add to the book.
    share: Share<L>,
}

impl<L: Ledger> Model for Steps<L> {
    ghost Value = { ℕ };

    ghost view = { λ s. s.book.total };

    ghost invariant = { λ s. 0 < s.share.parts };
}

impl<L: Ledger> Steps<L> {
    /// Makes a counter at 0, from a blank ledger of L's name and parts, of which there is at least one. Takes no
    /// memory.
    pub fn new(blank: Blank) -> Steps<L>
        requires name { blank.name ≡ L.name }
        requires parts { blank.parts ≡ L.parts }
        requires positive { 0 < L.parts }
        ensures { result ≡ 0 }
    {
        let (book, share) = blank.open::<L>();
        Steps { book, share }
    }

    /// Counts one step.
    pub fn tick(&mut self)
        ensures { self.new ≡ self.old + 1 }
    {
        self.book.add(&mut self.share, 1);
    }

    /// Counts `count` steps at once.
    pub fn add(&mut self, count: usize)
        ensures { self.new ≡ self.old + count }
    {
        self.book.add(&mut self.share, count as u64);
    }

    // Counts three steps an edge: one for the edge itself, and one for each of its ends.
    pub(crate) fn add_edges(&mut self, edges: usize)
        ensures { self.new ≡ self.old + 3 * edges }
    {
        self.add(edges);
        self.add(edges);
        self.add(edges);
    }
}
