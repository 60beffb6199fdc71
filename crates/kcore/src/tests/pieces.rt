// Rounds whose pieces go to several workers.
use super::support::{WHOLE, answer, answer_beside, answers, in_pieces};
use kc_rounds::{Gate, Spot};
use kc_shell::Status;
use std::process::Abort;
use std::sync::atomic::Ordering::SeqCst;
use std::sync::atomic::{AtomicBool, AtomicU64};
use std::test::Fail;
use std::thread;
use std::thread::Threads;

const TURNS: u64 = 10_000_000;

// Holds the first piece 0 that it gets until it gets piece 1, for at most `TURNS` turns.
#[derive(Drop)]
struct Holding {
    has_held: AtomicBool,
    told: AtomicBool,
    turns_left: AtomicU64,
}

impl Gate for Holding {
    fn at(&self, spot: Spot) {
        match spot {
            Spot::Piece { index: 0 } => {
                if self.has_held.swap(true, SeqCst) {
                    return;
                }
                for turn in 0..TURNS {
                    if self.told.load(SeqCst) {
                        self.turns_left.store(TURNS - turn, SeqCst);
                        return;
                    }
                    thread::yield_now();
                }
            }
            Spot::Piece { index: 1 } => self.told.store(true, SeqCst),
            _ => {}
        }
    }
}

// A star, without and with a reader.
const STARS: &[&[u8]] = &[
    b"kcore 1\nvertices 5\nbatch\n0 1\n0 2\n0 3\n0 4\nend\n",
    b"kcore 1\nvertices 5\nask 3 0 4\nbatch\n0 1\n0 2\n0 3\n0 4\nend\n",
];

#[test]
fn a_first_round_has_two_pieces_at_once(rt: HostRuntime) -> Result<(), Fail> {
    for star in STARS {
        let gate = Holding {
            has_held: AtomicBool::new(false),
            told: AtomicBool::new(false),
            turns_left: AtomicU64::new(0),
        };
        let (status, _sink) = answer_beside(&rt, &gate, in_pieces("run 2", *star, WHOLE));
        assert!(rt; status == Status::Done);
        assert!(rt; gate.turns_left.load(SeqCst) > 0);
    }
    Ok(())
}

// Keeps the greatest index of the pieces that it gets.
#[derive(Drop)]
struct Greatest {
    index: AtomicU64,
}

impl Gate for Greatest {
    fn at(&self, spot: Spot) {
        if let Spot::Piece { index } = spot {
            self.index.fetch_max(u64::from(index), SeqCst);
        }
    }
}

// Returns whether a command ends well, and this is the greatest index of a piece that the gate gets.
fn has_greatest_piece<R: Threads + Sync + AllocGlobal + Abort>(
    rt: &R,
    line: &str,
    index: u64,
) -> bool {
    let gate = Greatest {
        index: AtomicU64::new(0),
    };
    let (status, _sink) = answer_beside(rt, &gate, in_pieces(line, EDGES, WHOLE));
    status == Status::Done && gate.index.load(SeqCst) == index
}

// 64 edges of 128 vertices.
const EDGES: &[u8] = b"kcore 1\nvertices 128\nbatch\n\
    0 64\n1 65\n2 66\n3 67\n4 68\n5 69\n6 70\n7 71\n8 72\n9 73\n10 74\n11 75\n12 76\n13 77\n14 78\n15 79\n\
    16 80\n17 81\n18 82\n19 83\n20 84\n21 85\n22 86\n23 87\n24 88\n25 89\n26 90\n27 91\n28 92\n29 93\n\
    30 94\n31 95\n32 96\n33 97\n34 98\n35 99\n36 100\n37 101\n38 102\n39 103\n40 104\n41 105\n42 106\n\
    43 107\n44 108\n45 109\n46 110\n47 111\n48 112\n49 113\n50 114\n51 115\n52 116\n53 117\n54 118\n55 119\n\
    56 120\n57 121\n58 122\n59 123\n60 124\n61 125\n62 126\n63 127\nend\n";

const COMMANDS: &[(&str, u64)] = &[
    ("run 1", 0),
    ("run 2", 1),
    ("run 3", 2),
    ("run 5", 4),
    ("run 64", 63),
    ("final 5", 4),
    ("orient 5", 4),
    ("gen 0 128 1 128 5", 4),
];

// The first round has 128 candidates, and that of the load has more than 64, so each worker gets a piece.
#[test]
fn a_first_round_has_a_piece_for_each_worker(rt: HostRuntime) -> Result<(), Fail> {
    for command in COMMANDS {
        assert!(rt; has_greatest_piece(&rt, command.0, command.1));
    }
    Ok(())
}

// Inputs of one vertex less than two pieces of vertex lines, of two pieces, and of more than four. The edges are at the
// ends of pieces, so that their lines differ from those beside them.
const MANY: &[&[u8]] = &[
    b"kcore 1\nvertices 16383\nbatch\n0 8191\n8191 8192\n8192 16382\nend\n",
    b"kcore 1\nvertices 16384\nbatch\n0 8191\n8191 8192\n8192 16383\nend\n",
    b"kcore 1\nvertices 40000\nbatch\n8191 8192\n16384 24575\n24576 24575\n32767 39999\nend\n",
];

// Several workers share the lines of the vertices. The text is that of one worker.
#[test]
fn workers_write_the_same_vertices(rt: HostRuntime) -> Result<(), Fail> {
    for input in MANY {
        let (_, sink) = answer(&rt, in_pieces("run 1", input, WHOLE));
        for line in ["run 3", "run 4", "run 64"] {
            assert!(rt;
                answers(
                    &rt,
                    in_pieces(line, input, WHOLE),
                    Status::Done,
                    sink.bytes()
                )
            );
        }
    }
    Ok(())
}
