//! Generated loads, read in pieces of several sizes. A program in another language made the texts, by the rules of a
//! load.
ghost use Rattle.std.specs.Prelude.{◌<◌, ◌≤◌};
ghost use Rattle.kc_session.specs.Generated.{IsLoad};

use crate::tests::support::{Bench, put};
use kc_session::GenSource;
use kc_text::Source;

// Returns whether the source has this text, if it is read in pieces of this size, at most 1,000 of them.
fn has_text(rt: &impl Bench, source: GenSource, piece: usize, wanted: &[u8]) -> bool
    requires { (0 < piece) × (piece ≤ 1000) }
{
    let mut source = source;
    let mut buf = [0u8; 1000];
    let mut text = Vec::new(rt.alloc());
    for _ in 0..1000 {
        let count = source.read(&mut buf[..piece]).unwrap_or(0);
        put(rt, &mut text, &buf[..count]);
    }
    text.as_slice() == wanted
}

// Ends the test unless the load has its text, whatever the pieces.
fn expect_text(rt: &impl Bench, seed: u32, n: u32, batches: u32, items: u32, text: &[u8])
    requires { IsLoad n batches items }
{
    assert!(rt; has_text(rt, GenSource::new(seed, n, batches, items), 1, text));
    assert!(rt; has_text(rt, GenSource::new(seed, n, batches, items), 7, text));
    assert!(rt; has_text(rt, GenSource::new(seed, n, batches, items), 64, text));
    assert!(rt; has_text(rt, GenSource::new(seed, n, batches, items), 1000, text));
}

// An edge leaves that isn't there, and the readers ask for 16 of 17 vertices.
const MANY_ASKED: &[u8] =
    b"kcore 1\nvertices 17\nask 4 0 1 2 3 4 5 6 7 8 9 10 11 12 13 14 15\nask 4 0 1 2 3 4 5 6 7 8 9 10 11 12 13 14 15\nbatch\n- 14 3\n+ 4 14\nend\nbatch\n+ 2 3\n+ 8 14\nend\n";

// There is one vertex.
const ONE_VERTEX: &[u8] = b"kcore 1\nvertices 1\nask 4 0\nask 4 0\nbatch\n- 0 0\nend\n";

// There are as many vertices as a graph may have.
const MOST_VERTICES: &[u8] =
    b"kcore 1\nvertices 16777216\nask 4 0 1 2 3 4 5 6 7 8 9 10 11 12 13 14 15\nask 4 0 1 2 3 4 5 6 7 8 9 10 11 12 13 14 15\nbatch\n+ 3967065 6195333\n+ 11825978 847981\n+ 12998365 9331295\nend\n";

// The batches have no items.
const NO_ITEMS: &[u8] =
    b"kcore 1\nvertices 2\nask 4 0 1\nask 4 0 1\nbatch\nend\nbatch\nend\nbatch\nend\n";

#[test]
fn loads_in_any_pieces(rt: HostRuntime) {
    expect_text(&rt, 4_294_967_295, 17, 2, 2, MANY_ASKED);
    expect_text(&rt, 7, 1, 1, 1, ONE_VERTEX);
    expect_text(&rt, 1, 16_777_216, 1, 3, MOST_VERTICES);
    expect_text(&rt, 3, 2, 3, 0, NO_ITEMS);
}
