// A move and an edge are put into an entry, and entries into a list.

use kc_graph::Edge;
use kc_history::{Entries, Entry, Move, Moves};

#[test]
fn an_entry_keeps_what_is_put_into_it(rt: HostRuntime) {
    let rise = Move {
        vertex: 3,
        old: 0,
        new: 1,
    };
    let edge = Edge { a: 3, b: 4 };
    let mut entry = Entry::new(rt.alloc(), 1, Some(3), true);
    assert!(rt; entry.moves.is_empty() && entry.edges.is_empty());
    entry.push_move(rise).expect(&rt, "memory");
    entry.push_edge(edge).expect(&rt, "memory");
    assert!(rt;
        entry.moves.as_slice() == [rise].as_slice() && entry.edges.as_slice() == [edge].as_slice()
    );
    let mut entries = Entries::from_vec(Entries::new(rt.alloc()).into_vec());
    entries.push(entry).expect(&rt, "memory");
    entries
        .push(Entry::new(rt.alloc(), 2, None, false))
        .expect(&rt, "memory");
    let entries = entries.as_slice();
    assert!(rt; entries.len() == 2 && entries[0].label == Some(3) && entries[1].label.is_none());
}
