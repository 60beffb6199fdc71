// Readers beside batches: a gate counts their questions.
use super::faults::ASKED;
use super::support::{Call, WHOLE, answer_beside};
use kc_rounds::{Gate, Spot};
use kc_shell::Status;
use std::process::Abort;
use std::sync::atomic::AtomicU64;
use std::sync::atomic::Ordering::SeqCst;
use std::test::Fail;
use std::thread::Threads;

// Counts the questions of readers, and the replies.
#[derive(Drop)]
struct Counting {
    asked: AtomicU64,
    replied: AtomicU64,
}

impl Gate for Counting {
    fn at(&self, spot: Spot) {
        match spot {
            Spot::Asking { .. } => {
                self.asked.fetch_add(1, SeqCst);
            }
            Spot::Replied { .. } => {
                self.replied.fetch_add(1, SeqCst);
            }
            _ => {}
        }
    }
}

// Returns whether a call ends with this status and text, after all readers have put their 40 questions.
fn asks_forty<R: Threads + Sync + AllocGlobal + Abort>(
    rt: &R,
    call: Call<'_>,
    status: Status,
    text: &[u8],
) -> bool {
    let gate = Counting {
        asked: AtomicU64::new(0),
        replied: AtomicU64::new(0),
    };
    let (got, sink) = answer_beside(rt, &gate, call);
    got == status
        && sink.bytes() == text
        && gate.asked.load(SeqCst) == 40
        && gate.replied.load(SeqCst) == 40
}

// The batches end with a fault right after the header lines. The call returns once the readers have ended too, which
// have put all their questions by then.
#[test]
fn both_branches_have_ended_after_a_fault(rt: HostRuntime) -> Result<(), Fail> {
    let head = b"kcore-run 1\nvertices 5\n";
    let call = Call {
        line: "run 2",
        input: ASKED,
        piece: 40,
        reads: &[2],
        writes: &[],
    };
    assert!(rt; asks_forty(&rt, call, Status::ReadFault, head));
    let call = Call {
        piece: WHOLE,
        reads: &[],
        writes: &[3],
        ..call
    };
    assert!(rt; asks_forty(&rt, call, Status::WriteFault, head));
    Ok(())
}

// Two readers ask four times each for five vertices.
#[test]
fn a_load_has_readers(rt: HostRuntime) -> Result<(), Fail> {
    let call = Call {
        line: "gen 0 5 1 3 2",
        input: b"",
        piece: WHOLE,
        reads: &[1],
        writes: &[],
    };
    let text = b"gen batches 1 refused 0 phases 1 groups 1 moves 4 edges 3 replies 40 top 1\n";
    assert!(rt; asks_forty(&rt, call, Status::Done, text));
    Ok(())
}
