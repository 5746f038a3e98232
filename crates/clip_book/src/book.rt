//! The book.

ghost use Rattle.std.specs.Prelude.{◌≡◌, ◌+◌, ◌^◌, ◌<◌, length, is_some, IfOk};
ghost use Rattle.std.specs.Option.{option_map};
ghost use Rattle.terrain_model.specs.Terrain.{level_height};
ghost use Rattle.plan_model.specs.Limits.{IsSize, IsViewer};
ghost use Rattle.plan_model.specs.States.{finest_at, filled_at, pass_at, job_of, frame_of};
ghost use Rattle.plan_model.specs.declared.events.Event.TheVariants.{Move, Claim, Finish, Publish, Begin, End};
ghost use Rattle.plan_model.specs.declared.events.Answer.TheVariants.{Moved};
ghost use Rattle.plan_model.specs.Rounds.{is_ripe};
ghost use Rattle.book_plan.specs.Books.{unfinished_on};
ghost use Rattle.book_plan.specs.Notes.{open_frame};
ghost use Rattle.clip_book.specs.Answers.{said_of_claim, said_of_given, said_of_published};
ghost use Rattle.clip_book.specs.Answers.{said_of_begun, said_of_ended};
ghost use Rattle.clip_book.specs.Books.{Does, IsFilledOf, GivesJobOf, HandsOutWithJob, GivesActivesOf, Shows, started};

use crate::answers::{
    Begun, Claimed, Ended, Given, Published, begun_frame, ended_answer, given_answer,
    published_answer, refused_begin, refused_claim, told_frame, told_job,
};
use crate::jobs::{FilledJob, Job};
use crate::patches::job_patch;
use crate::tiles::Tiles;
use book_cells::{
    cells_at_the_start, cells_come_home, cells_go_out, cells_stay, claims_give_jobs,
    drawn_cells_have_heights, needed_cells_have_heights,
};
use book_plan::{BookPlan, FrameNote, NoMemory};
use clip_regions::Region;
use plan_holds::{kept_at_the_start, kept_by_each_step, steps_go_on};
use plan_laws::{needs_lie_in_patches, pieces_have_cells, pieces_lie_in_blocks};
use plan_model::refusals_change_nothing;
use std::alloc::Global;
use std::marker::Model;
use std::snapshot::Snapshot;
use strip_planner::tile_of;
use terrain_store::Shape;

/// The book of a terrain: the plan of the passes over all levels, with the heights of what is filled.
///
/// A contract sees the state of the plan, the number of moves, the terrain with its levels, and for each
/// pass with a job the 64 heights of its tile as it was handed out. After `start` no call takes memory.
#[derive(Drop)]
pub struct Book {
    plan: BookPlan,
    tiles: Tiles,
    shape: Shape,
}

impl Model for Book {
    ghost use Rattle.clip_book.specs.Books.{BookView, IsBook};

    ghost Value = { BookView };

    ghost view = { λ s. record { plan = s.plan; land = s.shape; handed = s.tiles.handed } };

    ghost invariant = { λ s. IsBook s.plan s.shape s.tiles };
}

impl Book {
    /// The book of a terrain at the start, for K from 4 to 8: viewer (0, 0) at altitude 0, nothing filled, 16
    /// free passes. It fails where memory runs out.
    pub fn start(alloc: Global, shape: Shape, k: u8) -> Result<Book, NoMemory>
        requires size { IsSize k }
        ensures plan { IfOk result (λ book. book.plan ≡ started k shape) }
        ensures land { IfOk result (λ book. book.land ≡ shape) }
    {
        kept_at_the_start();
        cells_at_the_start();
        let levels = shape.levels();
        let Ok(plan) = BookPlan::start(alloc, k, levels) else {
            return Err(NoMemory);
        };
        let Ok(tiles) = Tiles::start(alloc, k, levels) else {
            return Err(NoMemory);
        };
        Ok(Book { plan, tiles, shape })
    }

    /// The viewer moves to sample (`x`, `y`) of the mosaic, each from −4194304 to 4194304, at altitude `a`,
    /// up to 1048576. There are at most 2^40 moves.
    pub fn move_to(&mut self, x: i32, y: i32, a: u32)
        requires viewer { IsViewer x y a }
        requires moves { self.old.plan.moves < 2 ^ 40 }
        ensures does { Does 0 (Move x y a) Moved self.old self.new }
        ensures handed { self.new.handed ≡ self.old.handed }
    {
        kept_by_each_step();
        steps_go_on();
        cells_stay();
        self.plan.move_to(x, y, a);
    }

    /// The filled region of a level takes its current strip in, where all of the strip's pieces are finished.
    pub fn publish(&mut self, level: u8) -> Published
        requires { level < length self.old.plan.state.levels }
        ensures does { Does 0 (Publish level) (said_of_published result) self.old self.new }
        ensures handed { self.new.handed ≡ self.old.handed }
    {
        kept_by_each_step();
        steps_go_on();
        cells_stay();
        published_answer(self.plan.publish(level))
    }

    /// Pass `pass`, 0 to 15, ends its frame.
    pub fn end(&mut self, pass: u8) -> Ended
        requires { pass < 16 }
        ensures does { Does pass End (said_of_ended result) self.old self.new }
        ensures handed { self.new.handed ≡ self.old.handed }
    {
        kept_by_each_step();
        steps_go_on();
        cells_stay();
        ended_answer(self.plan.end(pass))
    }

    /// Pass `pass`, 0 to 15, claims the first piece that can be claimed. Its tile goes out with the job.
    pub fn claim(&mut self, pass: u8) -> Claimed
        requires { pass < 16 }
        ensures does { Does pass Claim (said_of_claim result) self.old self.new }
        ensures job { GivesJobOf self.new pass result }
        ensures handed { HandsOutWithJob result self.old self.new }
    {
        kept_by_each_step();
        steps_go_on();
        cells_go_out();
        claims_give_jobs();
        needed_cells_have_heights();
        pieces_have_cells();
        pieces_lie_in_blocks();
        needs_lie_in_patches();
        refusals_change_nothing();
        self.plan.is_sound();
        let answer = self.plan.claim(pass);
        match told_job(answer) {
            Some(note) => {
                let patch = job_patch(&self.tiles, &self.shape, note);
                let id = tile_of(self.plan.k(), note.piece.bx, note.piece.by);
                let tile = self.tiles.take_out(pass, note.level, id);
                Claimed::Job(Job::new(Snapshot::of(&self.shape), note, patch, tile))
            }
            None => refused_claim(answer),
        }
    }

    /// Pass `pass`, 0 to 15, gives back the job that it claimed, with its cells filled. The tile goes home.
    pub fn give_back(&mut self, pass: u8, job: FilledJob) -> Given
        requires pass { pass < 16 }
        requires job { IsFilledOf self.old pass job }
        ensures does { Does pass Finish (said_of_given result) self.old self.new }
        ensures handed { self.new.handed ≡ self.old.handed }
    {
        kept_by_each_step();
        steps_go_on();
        cells_come_home();
        let FilledJob {
            land: _,
            note,
            tile,
        } = job;
        let id = tile_of(self.plan.k(), note.piece.bx, note.piece.by);
        self.tiles.bring_home(note.level, id, tile);
        given_answer(self.plan.finish(pass))
    }

    /// Pass `pass`, 0 to 15, begins a frame of the active regions. There are at most 2^40 frames.
    pub fn begin(&mut self, pass: u8) -> Begun
        requires pass { pass < 16 }
        requires begun { self.old.plan.state.begun < 2 ^ 40 }
        ensures does { Does pass Begin (said_of_begun result) self.old self.new }
        ensures handed { self.new.handed ≡ self.old.handed }
        ensures actives { GivesActivesOf self.new pass result }
    {
        kept_by_each_step();
        steps_go_on();
        cells_stay();
        self.plan.is_sound();
        let answer = self.plan.begin(pass);
        match told_frame(answer) {
            Some(number) => begun_frame(number, self.plan.frame_of(pass)),
            None => refused_begin(answer),
        }
    }

    /// The height of the cell in column `i` and row `j` of a level, in metres. The frame of the pass shows it.
    pub fn height(&self, pass: u8, level: u8, i: i32, j: i32) -> i16
        requires { Shows self.now.plan.state pass level i j }
        ensures { result ≡ level_height self.now.land.terrain level i j }
    {
        drawn_cells_have_heights();
        self.plan.is_sound();
        self.tiles.height(level, i, j)
    }

    /// K, from 4 to 8.
    pub fn k(&self) -> u8
        ensures value { result ≡ self.now.plan.state.k }
        ensures size { IsSize result }
    {
        self.plan.k()
    }

    /// How many levels there are.
    pub fn levels(&self) -> u8
        ensures { result ≡ length self.now.plan.state.levels }
    {
        self.plan.levels()
    }

    /// The viewer: a sample of the mosaic, by its column and its row.
    pub fn viewer(&self) -> (i32, i32)
        ensures { result ≡ (self.now.plan.state.x, self.now.plan.state.y) }
    {
        self.plan.viewer()
    }

    /// The viewer's altitude.
    pub fn altitude(&self) -> u32
        ensures { result ≡ self.now.plan.state.altitude }
    {
        self.plan.altitude()
    }

    /// The finest level in use.
    pub fn finest(&self) -> u8
        ensures { result ≡ finest_at self.now.plan.state }
    {
        self.plan.finest()
    }

    /// The filled region of a level.
    pub fn filled(&self, level: u8) -> Region
        requires { level < length self.now.plan.state.levels }
        ensures { result ≡ filled_at self.now.plan.state level }
    {
        self.plan.filled(level)
    }

    /// How many pieces of a level's current strip aren't finished: None exactly where there is no current
    /// strip.
    pub fn unfinished(&self, level: u8) -> Option<u32>
        requires { level < length self.now.plan.state.levels }
        ensures { result ≡ unfinished_on self.now.plan.state level }
    {
        self.plan.unfinished(level)
    }

    /// Whether all pieces of a level's current strip are finished, so that it can be published. No piece is counted.
    pub fn is_ripe(&self, level: u8) -> bool
        requires { level < length self.now.plan.state.levels }
        ensures { result ≡ is_ripe self.now.plan.state level }
    {
        self.plan.is_ripe(level)
    }

    /// How many moves there were.
    pub fn moves(&self) -> u64
        ensures { result ≡ self.now.plan.moves }
    {
        self.plan.moves()
    }

    /// How many frames were begun.
    pub fn begun(&self) -> u64
        ensures { result ≡ self.now.plan.state.begun }
    {
        self.plan.begun()
    }

    /// Whether a pass, 0 to 15, has a job.
    pub fn has_job(&self, pass: u8) -> bool
        requires { pass < 16 }
        ensures { result ≡ is_some (job_of (pass_at self.now.plan.state pass)) }
    {
        self.plan.has_job(pass)
    }

    /// The frame of a pass, 0 to 15, where it has one.
    pub fn frame_of(&self, pass: u8) -> Option<FrameNote>
        requires { pass < 16 }
        ensures { option_map open_frame result ≡ frame_of (pass_at self.now.plan.state pass) }
    {
        self.plan.frame_of(pass)
    }
}
