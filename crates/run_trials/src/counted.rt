//! A filler that counts its calls.

ghost use Rattle.std.specs.Prelude.{◌≡◌};
ghost use Rattle.terrain_store.specs.Stores.{land_of};
ghost use Rattle.decode_workers.specs.Fills.{IsFilling};

use crate::runs::{nine, run};
use clip_book::{FilledJob, Job};
use clip_runs::{Course, Filler};
use std::sync::atomic::{AtomicUsize, Ordering};
use std::test::Fail;
use terrain_store::{Shape, Store};

// A store, and how many jobs it was asked to fill.
#[derive(Drop)]
struct Counted {
    store: Store,
    calls: AtomicUsize,
}

impl Filler for Counted {
    ghost land = { λ counted. land_of counted.store };

    fn shape(&self) -> Shape
        ensures names { result ≡ land_of self.now.store }
    {
        self.store.shape()
    }

    fn fill(&self, job: Job) -> FilledJob
        requires names { job.land ≡ land_of self.now.store }
        ensures filled { IsFilling job result }
    {
        self.calls.fetch_add(1, Ordering::Relaxed);
        Filler::fill(&self.store, job)
    }
}

#[test]
fn the_first_frame_asks_for_nine_pieces(rt: HostRuntime) -> Result<(), Fail> {
    let counted = Counted {
        store: nine(rt.alloc(), 1)?,
        calls: AtomicUsize::new(0),
    };
    let left = run(&rt, &counted, &Course::Frame { k: 4, x: 1, y: 1 })?;
    assert_eq!(rt; counted.calls.load(Ordering::Relaxed), 9);
    let log = "frame 0 vertices 225 triangles 392\n";
    assert_eq!(rt; left.log(), log.as_bytes());
    Ok(())
}
