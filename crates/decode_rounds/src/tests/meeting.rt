//! A draw and a fill that go on at one time.

use crate::tests::desk::Desk;
use crate::{Post, Quiet};
use height_pyramid::Grid;
use std::sync::atomic::{AtomicBool, AtomicU64, Ordering};
use std::test::Fail;

// Who begins first looks for another that has begun, so often. What began and what ended is counted in a digit of
// base 16 for each task.
#[derive(Drop)]
struct Meeting {
    looks: u32,
    came: AtomicU64,
    other: AtomicBool,
    met: AtomicBool,
    begun: AtomicU64,
    ended: AtomicU64,
}

// One more in the digit of a task.
fn count(digits: &AtomicU64, task: usize) {
    if task < 16 {
        digits.fetch_add(1 << (4 * task as u32), Ordering::SeqCst);
    }
}

impl Meeting {
    fn new(looks: u32) -> Meeting {
        Meeting {
            looks,
            came: AtomicU64::new(0),
            other: AtomicBool::new(false),
            met: AtomicBool::new(false),
            begun: AtomicU64::new(0),
            ended: AtomicU64::new(0),
        }
    }

    // Looks until another has come.
    fn look(&self) {
        for _ in 0..self.looks {
            if self.other.load(Ordering::SeqCst) {
                self.met.store(true, Ordering::SeqCst);
                return;
            }
        }
    }
}

impl Post for Meeting {
    fn begun(&self, task: usize) {
        count(&self.begun, task);
        if self.came.fetch_add(1, Ordering::SeqCst) == 0 {
            self.look();
        } else {
            self.other.store(true, Ordering::SeqCst);
        }
    }

    fn ended(&self, task: usize) {
        count(&self.ended, task);
    }
}

// The 3 x 3 samples of heights 1 to 9.
fn desk_of_nine(rt: &HostRuntime) -> Result<Desk, Fail> {
    let alloc = rt.alloc();
    let grid = Grid::new(3, 3, vec![in alloc; 1i16, 2, 3, 4, 5, 6, 7, 8, 9]?);
    Desk::new(alloc, &grid, 1, 4, 1)
}

// Tasks done one after another never meet.
#[test]
fn a_draw_goes_on_beside_a_fill(rt: HostRuntime) -> Result<(), Fail> {
    let mut desk = desk_of_nine(&rt)?;
    let _actives = desk.begin(&rt)?;
    let jobs = desk.jobs(rt.alloc(), 1)?;
    assert_eq!(rt; jobs.len(), 1);
    let post = Meeting::new(1 << 30);
    let all = desk.drawn(&rt, rt.alloc(), jobs, &post)?;
    assert!(rt; post.met.load(Ordering::SeqCst));
    assert_eq!(rt; post.begun.load(Ordering::SeqCst), 0x11);
    assert_eq!(rt; post.ended.load(Ordering::SeqCst), 0x11);
    assert!(rt; desk.give_back(&rt, all).is_some());
    Ok(())
}

// Each task of a larger round begins and ends once.
#[test]
fn each_task_is_told_once(rt: HostRuntime) -> Result<(), Fail> {
    let mut desk = desk_of_nine(&rt)?;
    let _actives = desk.begin(&rt)?;
    let jobs = desk.jobs(rt.alloc(), 15)?;
    assert_eq!(rt; jobs.len(), 4);
    let post = Meeting::new(0);
    let all = desk.drawn(&rt, rt.alloc(), jobs, &post)?;
    assert_eq!(rt; post.begun.load(Ordering::SeqCst), 0x11111);
    assert_eq!(rt; post.ended.load(Ordering::SeqCst), 0x11111);
    assert!(rt; desk.give_back(&rt, all).is_some());
    Ok(())
}

// A round of nothing.
#[test]
fn no_task(rt: HostRuntime) -> Result<(), Fail> {
    let mut desk = desk_of_nine(&rt)?;
    let jobs = desk.jobs(rt.alloc(), 0)?;
    let all = desk.filled(&rt, rt.alloc(), jobs, &Quiet)?;
    assert!(rt; all.is_empty());
    assert!(rt; desk.give_back(&rt, all).is_none());
    Ok(())
}
