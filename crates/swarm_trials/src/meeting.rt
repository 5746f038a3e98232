//! A worker and a renderer that go on at one time.

use crate::runs::{is_played, nine, swarmed};
use decode_rounds::Post;
use std::sync::atomic::{AtomicBool, AtomicU64, Ordering};
use std::test::Fail;

// Of the tasks but the mover, who begins first looks for another that has begun, 2^30 times at most. What began and
// what ended is counted in a digit of base 16 for each task.
#[derive(Drop)]
struct Meeting {
    came: AtomicU64,
    other: AtomicBool,
    met: AtomicBool,
    begun: AtomicU64,
    ended: AtomicU64,
}

// One more in the digit of a task.
fn count(digits: &AtomicU64, task: usize) {
    if task < 16 {
        digits.fetch_add(1 << (4 * task as u32), Ordering::SeqCst);
    }
}

impl Meeting {
    fn new() -> Meeting {
        Meeting {
            came: AtomicU64::new(0),
            other: AtomicBool::new(false),
            met: AtomicBool::new(false),
            begun: AtomicU64::new(0),
            ended: AtomicU64::new(0),
        }
    }

    // Looks until another has come.
    fn look(&self) {
        for _ in 0..1u32 << 30 {
            if self.other.load(Ordering::SeqCst) {
                self.met.store(true, Ordering::SeqCst);
                return;
            }
        }
    }
}

impl Post for Meeting {
    fn begun(&self, task: usize) {
        count(&self.begun, task);
        if task == 0 {
            return;
        }
        if self.came.fetch_add(1, Ordering::SeqCst) == 0 {
            self.look();
        } else {
            self.other.store(true, Ordering::SeqCst);
        }
    }

    fn ended(&self, task: usize) {
        count(&self.ended, task);
    }
}

// Activities done one after another never meet.
#[test]
fn a_renderer_goes_on_beside_a_worker(rt: HostRuntime) -> Result<(), Fail> {
    let alloc = rt.alloc();
    let store = nine(alloc)?;
    let post = Meeting::new();
    let swarm = swarmed(&rt, alloc, &store, 1, 1, &post)?;
    assert!(rt; post.met.load(Ordering::SeqCst));
    assert_eq!(rt; post.begun.load(Ordering::SeqCst), 0x111);
    assert_eq!(rt; post.ended.load(Ordering::SeqCst), 0x111);
    assert!(rt; is_played(&rt, alloc, &store, &swarm)?);
    Ok(())
}
