// Batches whose rounds go to several workers.
use super::gates::{Counts, Holding, all_pass};
use kc_rounds::{Gate, Spot};
use std::sync::atomic::AtomicU64;
use std::sync::atomic::Ordering::SeqCst;
use std::test::Fail;

// Keeps the greatest index of a piece, and holds the second update until the first was printed.
#[derive(Drop)]
struct Greatest<'a> {
    holding: Holding<'a>,
    index: AtomicU64,
}

impl Gate for Greatest<'_> {
    fn at(&self, spot: Spot) {
        if let Spot::Piece { index } = spot {
            self.index.fetch_max(u64::from(index), SeqCst);
        }
        self.holding.at(spot);
    }
}

// One script: a loop, 64 edges of 128 vertices, and a loop.
const EDGES: &[u8] = b"kserve 1\nvertices 128\nbatch\n0 0\n\
    0 64\n1 65\n2 66\n3 67\n4 68\n5 69\n6 70\n7 71\n8 72\n9 73\n10 74\n11 75\n12 76\n13 77\n14 78\n15 79\n\
    16 80\n17 81\n18 82\n19 83\n20 84\n21 85\n22 86\n23 87\n24 88\n25 89\n26 90\n27 91\n28 92\n29 93\n\
    30 94\n31 95\n32 96\n33 97\n34 98\n35 99\n36 100\n37 101\n38 102\n39 103\n40 104\n41 105\n42 106\n\
    43 107\n44 108\n45 109\n46 110\n47 111\n48 112\n49 113\n50 114\n51 115\n52 116\n53 117\n54 118\n55 119\n\
    56 120\n57 121\n58 122\n59 123\n60 124\n61 125\n62 126\n63 127\n0 0\nend\n";

// A number of workers, and the greatest index of a piece.
const WORKERS: &[(&str, u64)] = &[("1", 0), ("2", 1), ("3", 2), ("5", 4), ("64", 63)];

// The first batch is the first loop alone. While the line of it is held, all edges are submitted, and so they are in
// the second batch. Its first round has 128 candidates, so each worker gets a piece.
#[test]
fn a_first_round_has_a_piece_for_each_worker(rt: HostRuntime) -> Result<(), Fail> {
    for (workers, greatest) in WORKERS {
        let counts = Counts::new();
        let gate = Greatest {
            holding: Holding {
                counts: &counts,
                held: 1,
            },
            index: AtomicU64::new(0),
        };
        assert!(rt; all_pass(&rt, &gate, &counts, *workers, EDGES, 66, 66));
        assert!(rt; gate.index.load(SeqCst) == *greatest);
    }
    Ok(())
}
