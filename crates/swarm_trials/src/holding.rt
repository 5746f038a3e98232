//! Hostile schedules: activities of one kind are held up until one of the other kind has ended.

use crate::runs::{is_played, nine, swarmed};
use decode_rounds::Post;
use std::sync::atomic::{AtomicBool, Ordering};
use std::test::Fail;

// Holds the tasks from `first` to `last` up until another one, not the mover, has ended, or for 2^30 looks.
#[derive(Drop)]
struct Holding {
    first: usize,
    last: usize,
    ended: AtomicBool,
}

impl Holding {
    fn new(first: usize, last: usize) -> Holding {
        Holding {
            first,
            last,
            ended: AtomicBool::new(false),
        }
    }

    fn holds(&self, task: usize) -> bool {
        self.first <= task && task <= self.last
    }
}

impl Post for Holding {
    fn begun(&self, task: usize) {
        if !self.holds(task) {
            return;
        }
        for _ in 0..1u32 << 30 {
            if self.ended.load(Ordering::SeqCst) {
                return;
            }
        }
    }

    fn ended(&self, task: usize) {
        if task != 0 && !self.holds(task) {
            self.ended.store(true, Ordering::SeqCst);
        }
    }
}

// Two workers and two renderers are the tasks 1 to 4.
#[test]
fn workers_before_renderers(rt: HostRuntime) -> Result<(), Fail> {
    let alloc = rt.alloc();
    let store = nine(alloc)?;
    let swarm = swarmed(&rt, alloc, &store, 2, 2, &Holding::new(3, 4))?;
    assert!(rt; !swarm.full);
    assert!(rt; is_played(&rt, alloc, &store, &swarm)?);
    Ok(())
}

#[test]
fn renderers_before_workers(rt: HostRuntime) -> Result<(), Fail> {
    let alloc = rt.alloc();
    let store = nine(alloc)?;
    let swarm = swarmed(&rt, alloc, &store, 2, 2, &Holding::new(1, 2))?;
    assert!(rt; !swarm.full);
    assert!(rt; is_played(&rt, alloc, &store, &swarm)?);
    Ok(())
}
