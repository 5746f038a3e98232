//! A book with the jobs of its passes, which are filled from the book's terrain.

ghost use Rattle.std.specs.Prelude.{◌≡◌, ◌<◌, replicate, IfOk, None};
ghost use Rattle.plan_model.specs.Limits.{IsSize, IsLevelCount};

use crate::tests::events::take;
use crate::tests::looks::look;
use clip_book::{Book, Job};
use height_pyramid::Grid;
use plan_model::{Answer, Event};
use std::alloc::{AllocError, Global};
use std::marker::Model;
use std::process::Abort;
use std::test::Fail;
use terrain_store::pack;

/// A book with the jobs of its passes, and the grid of its terrain.
#[derive(Drop)]
pub struct Keeper {
    grid: Grid,
    book: Book,
    jobs: Vec<Option<Job>>,
}

impl Model for Keeper {
    ghost use Rattle.grid_fills.specs.Holding.{Kept, AreKept};

    ghost Value = { Kept };

    ghost view = { λ s. record { terrain = s.grid; book = s.book; jobs = s.jobs.items } };

    ghost invariant = { λ s. AreKept (record { terrain = s.grid; book = s.book; jobs = s.jobs.items }) };
}

// No job of 16 passes.
#[tactic(auto, using(std::proofs::lemmas::List::replicate_more))]
fn no_jobs(alloc: Global, count: u8) -> Result<Vec<Option<Job>>, AllocError>
    ensures { IfOk result (λ v. v.items ≡ replicate count None) }
{
    let mut jobs = Vec::new(alloc);
    'made: for _ in 0..count {
        jobs.push(None)?;
    }
    Ok(jobs)
}

impl Keeper {
    /// A book of a grid at the start.
    #[tactic(auto, using(crate::proofs::Holding::start_kept))]
    pub fn start(alloc: Global, grid: Grid, k: u8, levels: u8) -> Result<Keeper, Fail>
        requires k { IsSize k }
        requires levels { IsLevelCount levels }
    {
        let Ok(store) = pack(alloc, &grid, levels) else {
            return Err("no memory".into());
        };
        let Ok(grid) = store.grid(alloc) else {
            return Err("no memory".into());
        };
        let shape = store.shape();
        let _levels = shape.levels();
        let Ok(book) = Book::start(alloc, shape, k) else {
            return Err("no memory".into());
        };
        let jobs = no_jobs(alloc, 16)?;
        Ok(Keeper { grid, book, jobs })
    }

    /// Takes an event of a pass, and tells the answer.
    pub fn step(&mut self, rt: &impl Abort, pass: u8, event: Event) -> Answer {
        take(
            rt,
            &self.grid,
            &mut self.book,
            self.jobs.as_mut_slice(),
            pass,
            event,
        )
    }

    /// The job of a pass.
    pub fn job(&self, pass: u8) -> Option<&Job>
        requires { pass < 16 }
    {
        self.jobs[pass as usize].as_ref()
    }

    /// Compares the heights of the frame of a pass, if it has one, with the level heights.
    pub fn look(&self, rt: &impl Abort, pass: u8)
        requires { pass < 16 }
    {
        look(rt, &self.grid, &self.book, pass);
    }
}
