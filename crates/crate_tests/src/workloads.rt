//! The gate that the agents of a workload pass.
use std::sync::atomic::{AtomicU64, Ordering};
use std::test::Fail;
use tc_desk::Gate;
use tc_io::{MemDoor, Source, SureSink, SureSource};
use tucson::{Status, tucson};

// A gate that counts how often it is passed, adds up the numbers, and counts how often another than
// the first agent passes it.
#[derive(Drop)]
struct Counted {
    calls: AtomicU64,
    sum: AtomicU64,
    others: AtomicU64,
}

impl Gate for Counted {
    fn pass(&self, agent: u32, number: u64) {
        self.calls.fetch_add(1, Ordering::SeqCst);
        self.sum.fetch_add(number, Ordering::SeqCst);
        if agent != 0 {
            self.others.fetch_add(1, Ordering::SeqCst);
        }
    }
}

const SUMMARY: &[u8] = b"load 1 42
c0 drawn 1 counted 1
c1 drawn 1 counted 1
c2 drawn 1 counted 1
c3 drawn 3 counted 3
end ended
";

// That a workload's agent passes the gate before each of its calls, no clause says.
#[test]
fn a_workload_is_run_at_the_gate(rt: HostRuntime) -> Result<(), Fail> {
    let alloc = rt.alloc();
    let words = vec![in alloc;
        b"load".to_vec(alloc)?,
        b"1".to_vec(alloc)?,
        b"42".to_vec(alloc)?,
    ]?;
    let mut source = SureSource::new(Vec::new(alloc));
    let mut sink = SureSink::new(alloc);
    let mut door = MemDoor::new(alloc, Vec::new(alloc), Vec::new(alloc))?;
    let gate = Counted {
        calls: AtomicU64::new(0),
        sum: AtomicU64::new(0),
        others: AtomicU64::new(0),
    };
    let status = tucson(&rt, alloc, &words, &mut source, &mut sink, &gate, &mut door);
    assert!(rt; status == Status::Ended);
    assert_eq!(rt; sink.taken(), SUMMARY);
    assert_eq!(rt; gate.calls.load(Ordering::SeqCst), 12);
    assert_eq!(rt; gate.sum.load(Ordering::SeqCst), 78);
    assert_eq!(rt; gate.others.load(Ordering::SeqCst), 0);
    Ok(())
}
