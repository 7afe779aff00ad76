//! That the workers of decode run at the same time.

use crate::decode_rows::{CHANGED_PAIR, PAIR_REPORT};
use crate::descriptors::{HERMITIAN_4, with};
use crate::rig::{Row, done, is_met_through};
use ag_pool::Gate;
use std::sync::atomic::{AtomicBool, Ordering};
use std::test::Fail;

// Whoever enters sets the flag of its index and looks for the other's.
#[derive(Drop)]
struct Meeting {
    came: [AtomicBool; 2],
    saw: [AtomicBool; 2],
}

// Whether a flag is set within many looks.
fn is_seen(flag: &AtomicBool) -> bool {
    for _ in 0..200_000_000u32 {
        if flag.load(Ordering::SeqCst) {
            return true;
        }
    }
    false
}

impl Gate for Meeting {
    fn enter(&self, index: u32) {
        let mine = (index % 2) as usize;
        self.came[mine].store(true, Ordering::SeqCst);
        self.saw[mine].store(is_seen(&self.came[1 - mine]), Ordering::SeqCst);
    }
}

// A body on one thread fails this test, and does not hang. The one window has two codewords.
#[test]
fn two_workers_decode_at_the_same_time(rt: HostRuntime) -> Result<(), Fail> {
    let alloc = rt.alloc();
    let pairs = with(alloc, HERMITIAN_4, "depth = 1", "depth = 2")?;
    let meeting = Meeting {
        came: [AtomicBool::new(false), AtomicBool::new(false)],
        saw: [AtomicBool::new(false), AtomicBool::new(false)],
    };
    let row = Row {
        report: PAIR_REPORT.as_bytes(),
        ..done("decode --workers 2 D", pairs.as_str(), &CHANGED_PAIR, &[])
    };
    assert!(rt; is_met_through(&rt, alloc, &row, &meeting)?);
    assert!(rt; meeting.saw[0].load(Ordering::SeqCst));
    assert!(rt; meeting.saw[1].load(Ordering::SeqCst));
    Ok(())
}
