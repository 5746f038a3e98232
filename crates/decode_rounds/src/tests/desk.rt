//! A store and the book of its terrain, whose passes work in rounds.

ghost use Rattle.std.specs.Prelude.{◌≡◌, ◌+◌, ◌<◌, ◌≤◌, List, All, IfOk, OnOk};
ghost use Rattle.plan_model.specs.Limits.{IsSize};
ghost use Rattle.terrain_store.specs.Stores.{land_of};
ghost use Rattle.decode_rounds.specs.Rounds.{IsTaskOf};
ghost use Rattle.decode_rounds.specs.declared.tasks.Done.{Done};
ghost use Rattle.decode_rounds.specs.Homes.{AreJobTasks, GoesBack, AllGoBack};

use crate::{Done, Post, Task, round};
use active_region::Actives;
use clip_book::{Begun, Book, Claimed, Given};
use decode_workers::filled_jobs_go_back;
use height_pyramid::Grid;
use obj_frames::Mesh;
use plan_histories::others_keep_parts;
use std::alloc::Global;
use std::process::Abort;
use std::test::Fail;
use std::thread::Threads;
use terrain_store::{Store, pack};

/// A store and the book of its terrain.
#[derive(Drop)]
pub struct Desk {
    store: Store,
    book: Book,
    ghost names: { land_of store ≡ book.land },
}

// The jobs that passes 0, 1, 2 and so on claim, at most so many, until one is given none.
fn claimed(alloc: Global, book: &mut Book, most: u8) -> Result<Vec<Task>, Fail>
    requires passes { most ≤ 15 }
    ensures land { book.new.land ≡ book.old.land }
    ensures jobs { IfOk result (λ tasks. AreJobTasks book.new 0 tasks.items) }
{
    others_keep_parts();
    let mut tasks = Vec::new(alloc);
    for pass in 0..most {
        match book.claim(pass) {
            Claimed::Job(job) => tasks.push(Task::Fill { pass, job })?,
            _ => return Ok(tasks),
        }
    }
    Ok(tasks)
}

// Gives back what a pass has filled, or hands on what is drawn.
fn one_back(rt: &impl Abort, book: &mut Book, pass: u8, done: Done) -> Option<Mesh>
    requires pass { pass < 16 }
    requires back { GoesBack book.old pass done }
    ensures land { book.new.land ≡ book.old.land }
    ensures rest { (rest : List Done) → AllGoBack book.old (pass + 1) rest → AllGoBack book.new (pass + 1) rest }
{
    others_keep_parts();
    match done {
        Done::Drawn { pass: by, mesh } => {
            assert_eq!(rt; by, 15);
            Some(mesh)
        }
        Done::Filled { pass: by, job } => {
            assert_eq!(rt; by, pass);
            assert_eq!(rt; book.give_back(pass, job), Given::Kept);
            None
        }
    }
}

// Gives back what is filled, and hands on what is drawn.
fn given_back(rt: &impl Abort, book: &mut Book, all: Vec<Done>) -> Option<Mesh>
    requires back { AllGoBack book.old 0 all.items }
    ensures land { book.new.land ≡ book.old.land }
{
    let mut drawn = None;
    let mut pass = 0u8;
    for done in all {
        assert!(rt; pass < 16);
        drawn = one_back(rt, book, pass, done).or(drawn);
        pass += 1;
    }
    drawn
}

// Publishes each level that is ripe.
fn publish_all(book: &mut Book)
    ensures { book.new.land ≡ book.old.land }
{
    for level in 0..book.levels() {
        if level < book.levels() {
            book.publish(level);
        }
    }
}

impl Desk {
    /// The book of a grid's terrain, packed in so many levels, for K, with the viewer at a place.
    pub fn new(alloc: Global, grid: &Grid, levels: u8, k: u8, at: i32) -> Result<Desk, Fail>
        requires size { IsSize k }
        requires some { 1 ≤ levels }
        requires few { levels ≤ 12 }
    {
        let Ok(store) = pack(alloc, grid, levels) else {
            return Err("no memory".into());
        };
        let Ok(mut book) = Book::start(alloc, store.shape(), k) else {
            return Err("no memory".into());
        };
        if -1000 <= at && at <= 1000 {
            book.move_to(at, at, 0);
        }
        Ok(Desk { store, book })
    }

    /// Pass 15 begins a frame. Its active regions.
    pub fn begin(&mut self, rt: &impl Abort) -> Result<Actives, Fail> {
        assert!(rt; self.book.begun() < 1000);
        match self.book.begin(15) {
            Begun::Frame { actives, .. } => Ok(actives),
            _ => Err("no frame".into()),
        }
    }

    /// Pass 15 ends its frame, and what is ripe is published.
    pub fn end(&mut self) {
        self.book.end(15);
        publish_all(&mut self.book);
    }

    /// Claims.
    pub fn jobs(&mut self, alloc: Global, most: u8) -> Result<Vec<Task>, Fail>
        requires passes { most ≤ 15 }
        ensures jobs { IfOk result (λ tasks. AreJobTasks self.new.book 0 tasks.items) }
    {
        claimed(alloc, &mut self.book, most)
    }

    /// Fills the jobs of passes in one round, where pass 15 draws too.
    pub fn drawn<R: Threads + Sync + Abort, P: Post + Sync>(
        &self,
        rt: &R,
        alloc: Global,
        mut jobs: Vec<Task>,
        post: &P,
    ) -> Result<Vec<Done>, Fail>
        requires jobs { AreJobTasks self.now.book 0 jobs.items }
        ensures back { IfOk result (λ all. AllGoBack self.now.book 0 all.items) }
    {
        filled_jobs_go_back();
        assert!(rt; self.book.frame_of(15).is_some());
        jobs.push(Task::Draw { pass: 15 })?;
        match round(rt, alloc, &self.book, &self.store, jobs, post) {
            Ok(all) => Ok(all),
            Err(_) => Err("no memory".into()),
        }
    }

    /// Fills the jobs of passes in one round.
    pub fn filled<R: Threads + Sync, P: Post + Sync>(
        &self,
        rt: &R,
        alloc: Global,
        jobs: Vec<Task>,
        post: &P,
    ) -> Result<Vec<Done>, Fail>
        requires jobs { AreJobTasks self.now.book 0 jobs.items }
        ensures back { IfOk result (λ all. AllGoBack self.now.book 0 all.items) }
    {
        filled_jobs_go_back();
        match round(rt, alloc, &self.book, &self.store, jobs, post) {
            Ok(all) => Ok(all),
            Err(_) => Err("no memory".into()),
        }
    }

    /// Gives back what is filled, and hands on what is drawn.
    pub fn give_back(&mut self, rt: &impl Abort, all: Vec<Done>) -> Option<Mesh>
        requires back { AllGoBack self.old.book 0 all.items }
    {
        given_back(rt, &mut self.book, all)
    }
}

// A book at the start has jobs for passes 0 to 14. They name the terrain of another book of the store.
fn more_jobs(alloc: Global, store: &Store, book: &Book, tasks: &mut Vec<Task>) -> Result<(), Fail>
    requires names { land_of store.now ≡ book.now.land }
    requires tasks { All (IsTaskOf book.now) tasks.old.items }
    ensures tasks { OnOk result (All (IsTaskOf book.now) tasks.new.items) }
{
    let Ok(mut other) = Book::start(alloc, store.shape(), 5) else {
        return Err("no memory".into());
    };
    for pass in 0..15u8 {
        match other.claim(pass) {
            Claimed::Job(job) => tasks.push(Task::Fill { pass, job })?,
            _ => return Err("no job".into()),
        }
    }
    Ok(())
}

impl Desk {
    /// What a round does of 15 jobs each of so many books of the terrain.
    pub fn of_books<R: Threads + Sync, P: Post + Sync>(
        &self,
        rt: &R,
        alloc: Global,
        books: u32,
        post: &P,
    ) -> Result<Vec<Done>, Fail> {
        let mut tasks = Vec::new(alloc);
        for _ in 0..books {
            more_jobs(alloc, &self.store, &self.book, &mut tasks)?;
        }
        match round(rt, alloc, &self.book, &self.store, tasks, post) {
            Ok(all) => Ok(all),
            Err(_) => Err("no memory".into()),
        }
    }
}
