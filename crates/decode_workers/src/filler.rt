//! Whatever fills jobs.

ghost use Rattle.std.specs.Prelude.{◌≡◌};
ghost use Rattle.terrain_store.specs.Shapes.{Land};
ghost use Rattle.terrain_store.specs.Stores.{land_of};
ghost use Rattle.decode_workers.specs.Fills.{IsFilling};

use crate::fill::fill_piece;
use clip_book::{FilledJob, Job};
use terrain_store::{Shape, Store};

/// Whatever fills the jobs of a book's terrain. It names a terrain with its levels, and no call tells a height of it.
pub trait Filler {
    ghost land: { Self → Land };

    /// The name of the terrain.
    fn shape(&self) -> Shape
        ensures names { result ≡ land self.now };

    /// Fills a job that names this terrain, in the job's own tile. It takes no memory.
    fn fill(&self, job: Job) -> FilledJob
        requires names { job.land ≡ land self.now }
        ensures filled { IsFilling job result };
}

impl Filler for Store {
    ghost land = { λ store. land_of store };

    fn shape(&self) -> Shape
        ensures names { result ≡ land_of self.now }
    {
        Store::shape(self)
    }

    fn fill(&self, job: Job) -> FilledJob
        requires names { job.land ≡ land_of self.now }
        ensures filled { IsFilling job result }
    {
        let _bytes = self.bytes();
        let block = self.block(job.level(), job.bx(), job.by());
        fill_piece(&block, job)
    }
}
