//! The plan of a book.

ghost use Rattle.std.specs.Prelude.{◌≡◌, ℕ, ◌+◌, ◌^◌, ◌<◌, ◌≤◌, map, length, slice_index_or, IfOk};
ghost use Rattle.std.specs.Prelude.{is_some, Some};
ghost use Rattle.std.specs.Option.{option_map};
ghost use Rattle.std.specs.List.{range_with_len};
ghost use Rattle.clip_regions.specs.Regions.{empty_region};
ghost use Rattle.plan_model.specs.Limits.{IsSize, IsLevelCount, IsViewer};
ghost use Rattle.plan_model.specs.States.{start_state, finest_at, filled_at, pass_at, job_of, frame_of};
ghost use Rattle.plan_model.specs.Claims.{strip_at, unfinished_pieces};
ghost use Rattle.plan_model.specs.Rounds.{is_ripe};
ghost use Rattle.plan_model.specs.Sound.{IsReady, IsTaken};
ghost use Rattle.plan_model.specs.declared.events.Event.TheVariants.{Move, Claim, Finish, Publish, Begin, End};
ghost use Rattle.plan_model.specs.declared.events.Work.TheVariants.{Free};
ghost use Rattle.book_plan.specs.Desks.{state_of, HaveSlots, IsStanding};
ghost use Rattle.book_plan.specs.Books.{Does, unfinished_on};
ghost use Rattle.book_plan.specs.Notes.{open_frame};
ghost use Rattle.book_plan.specs.Starts.{started, HasStarted};

use crate::desk::{PlanDesk, PlanFrame};
use crate::in_use::roomy_window;
use crate::levels::PlanLevel;
use crate::moves::fill_in;
use crate::passes::Passes;
use active_region::Actives;
use clip_regions::Region;
use plan_model::{Answer, Event, JobNote, Work};
use plan_sound::{starts_are_sound, steps_keep_soundness};
use std::alloc::{AllocError, Global};
use std::marker::Model;

/// Memory ran out.
#[derive(Clone, Copy, Debug, PartialEq, Eq)]
pub struct NoMemory;

/// A frame that was begun and hasn't ended.
#[derive(Clone, Copy, Debug, PartialEq, Eq)]
pub struct FrameNote {
    /// The frame's number.
    pub number: u64,
    /// The viewer's column when it was begun.
    pub x: i32,
    /// The viewer's row then.
    pub y: i32,
    /// The active regions, the finest level first.
    pub actives: Actives,
}

/// The plan of a book: every event of the passes over all levels, in place, without heights.
///
/// A contract sees the state of the plan, and how many moves there were. After `start` no call takes
/// memory.
#[derive(Drop)]
pub struct BookPlan {
    desk: PlanDesk,
    moves: u64,
}

impl Model for BookPlan {
    ghost use Rattle.book_plan.specs.Desks.{state_of};
    ghost use Rattle.book_plan.specs.Books.{PlanView, IsBook};

    ghost Value = { PlanView };

    ghost view = { λ s. record { state = state_of s.desk; moves = s.moves } };

    ghost invariant = { λ s. IsBook s.desk s.moves };
}

// What is told of the frame of one of some passes.
fn note_in(passes: &[Work<PlanFrame>], p: u8) -> Option<FrameNote>
    requires { p < length passes.now }
    ensures { option_map open_frame result ≡ frame_of (slice_index_or passes.now p Free) }
{
    note_of(&passes[p as usize])
}

// What is told of the frame of a pass.
fn note_of(pass: &Work<PlanFrame>) -> Option<FrameNote>
    ensures { option_map open_frame result ≡ frame_of pass.now }
{
    match pass {
        Work::Draws(frame) => Some(FrameNote {
            number: frame.number,
            x: frame.x,
            y: frame.y,
            actives: frame.actives,
        }),
        Work::Free | Work::Fills(_) => None,
    }
}

// One more level of which nothing is filled, for a viewer at (0, 0).
fn start_level(alloc: Global, k: u8, l: u8) -> Result<PlanLevel, AllocError>
    requires k { IsSize k }
    requires level { l ≤ 11 }
    ensures { IfOk result (λ level. level ≡ started k l) }
{
    let window = roomy_window(k, l, 0, 0);
    let mut level = PlanLevel::new(alloc)?;
    fill_in(&mut level, true, Region::empty(), 0, window);
    Ok(level)
}

// Levels of which nothing is filled, for a viewer at (0, 0).
fn start_levels(alloc: Global, k: u8, count: u8) -> Result<Vec<PlanLevel>, AllocError>
    requires k { IsSize k }
    requires count { count ≤ 12 }
    ensures { IfOk result (λ v. v.items ≡ map (started k) (range_with_len 0 count)) }
{
    let mut out = Vec::with_capacity(alloc, count as usize)?;
    for l in 0..count {
        let level = start_level(alloc, k, l)?;
        out.push(level)?;
    }
    Ok(out)
}

impl PlanDesk {
    // The plan at the start.
    fn start(alloc: Global, k: u8, levels: u8) -> Result<PlanDesk, AllocError>
        requires k { IsSize k }
        requires levels { IsLevelCount levels }
        ensures { IfOk result (λ d. HasStarted k levels d) }
    {
        let levels = start_levels(alloc, k, levels)?;
        let passes = Passes::start(alloc, 16)?;
        Ok(PlanDesk {
            k,
            x: 0,
            y: 0,
            altitude: 0,
            levels,
            begun: 0,
            passes,
        })
    }
}

impl BookPlan {
    /// The plan at the start, for K from 4 to 8 and 1 to 12 levels: viewer (0, 0) at altitude 0, nothing
    /// filled, 16 free passes. It fails where memory runs out.
    pub fn start(alloc: Global, k: u8, levels: u8) -> Result<BookPlan, NoMemory>
        requires k { IsSize k }
        requires levels { IsLevelCount levels }
        ensures { IfOk result (λ plan. plan ≡ record { state = start_state k levels; moves = 0 }) }
    {
        starts_are_sound();
        match PlanDesk::start(alloc, k, levels) {
            Ok(desk) => Ok(BookPlan { desk, moves: 0 }),
            Err(_) => Err(NoMemory),
        }
    }

    /// The viewer moves to sample (`x`, `y`) of the mosaic, each from −4194304 to 4194304, at altitude `a`,
    /// up to 1048576. There are at most 2^40 moves.
    pub fn move_to(&mut self, x: i32, y: i32, a: u32) -> Answer
        requires viewer { IsViewer x y a }
        requires moves { self.old.moves < 2 ^ 40 }
        ensures { Does 0 (Move x y a) result self.old self.new }
    {
        steps_keep_soundness();
        self.moves += 1;
        self.desk.move_to(x, y, a)
    }

    /// Pass `pass`, 0 to 15, claims the first piece that can be claimed.
    pub fn claim(&mut self, pass: u8) -> Answer
        requires { pass < 16 }
        ensures { Does pass Claim result self.old self.new }
    {
        steps_keep_soundness();
        self.desk.claim(pass)
    }

    /// Pass `pass`, 0 to 15, gives its job back. A pass without a job has none to give back: the answer is
    /// Idle, and nothing changes.
    pub fn finish(&mut self, pass: u8) -> Answer
        requires { pass < 16 }
        ensures { Does pass Finish result self.old self.new }
    {
        steps_keep_soundness();
        self.desk.finish(pass)
    }

    /// The filled region of a level takes its current strip in, where all of the strip's pieces are
    /// finished.
    pub fn publish(&mut self, level: u8) -> Answer
        requires { level < length self.old.state.levels }
        ensures { Does 0 (Publish level) result self.old self.new }
    {
        steps_keep_soundness();
        self.desk.publish(level)
    }

    /// Pass `pass`, 0 to 15, begins a frame of the active regions. There are at most 2^40 frames.
    pub fn begin(&mut self, pass: u8) -> Answer
        requires pass { pass < 16 }
        requires begun { self.old.state.begun < 2 ^ 40 }
        ensures { Does pass Begin result self.old self.new }
    {
        steps_keep_soundness();
        self.desk.begin(pass)
    }

    /// Pass `pass`, 0 to 15, ends its frame.
    pub fn end(&mut self, pass: u8) -> Answer
        requires { pass < 16 }
        ensures { Does pass End result self.old self.new }
    {
        steps_keep_soundness();
        self.desk.end(pass)
    }

    /// Any event of a pass: the pass of a move or a publication decides nothing. A published level is there,
    /// a viewer is within the limits, and moves and frames are fewer than 2^40.
    pub fn step(&mut self, pass: u8, event: Event) -> Answer
        requires pass { pass < 16 }
        requires taken { IsTaken (length self.old.state.levels) event }
        requires moves { self.old.moves < 2 ^ 40 }
        requires begun { self.old.state.begun < 2 ^ 40 }
        ensures { Does pass event result self.old self.new }
    {
        match event {
            Event::Move { x, y, a } => self.move_to(x, y, a),
            Event::Claim => self.claim(pass),
            Event::Finish => self.finish(pass),
            Event::Publish { level } => self.publish(level),
            Event::Begin => self.begin(pass),
            Event::End => self.end(pass),
        }
    }

    /// A law: the state of every plan is sound, with 16 passes and 1 to 12 levels.
    pub fn is_sound(&self)
        ensures { IsReady self.now.state }
    {
        let _moves = self.moves;
    }

    /// K.
    pub fn k(&self) -> u8
        ensures { result ≡ self.now.state.k }
    {
        self.desk.k
    }

    /// How many levels there are.
    pub fn levels(&self) -> u8
        ensures { result ≡ length self.now.state.levels }
    {
        self.desk.level_count()
    }

    /// The viewer: a sample of the mosaic, by its column and its row.
    pub fn viewer(&self) -> (i32, i32)
        ensures { result ≡ (self.now.state.x, self.now.state.y) }
    {
        (self.desk.x, self.desk.y)
    }

    /// The viewer's altitude.
    pub fn altitude(&self) -> u32
        ensures { result ≡ self.now.state.altitude }
    {
        self.desk.altitude
    }

    /// The finest level in use.
    pub fn finest(&self) -> u8
        ensures { result ≡ finest_at self.now.state }
    {
        self.desk.finest()
    }

    /// The filled region of a level.
    pub fn filled(&self, level: u8) -> Region
        requires { level < length self.now.state.levels }
        ensures { result ≡ filled_at self.now.state level }
    {
        self.desk.filled_at(level)
    }

    /// How many pieces of a level's current strip aren't finished: None exactly where there is no current
    /// strip.
    pub fn unfinished(&self, level: u8) -> Option<u32>
        requires { level < length self.now.state.levels }
        ensures { result ≡ unfinished_on self.now.state level }
    {
        match self.desk.strip_at(level) {
            Some(_) => Some(self.desk.unfinished_count(level)),
            None => None,
        }
    }

    /// Whether all pieces of a level's current strip are finished, so that it can be published. No piece is counted.
    pub fn is_ripe(&self, level: u8) -> bool
        requires { level < length self.now.state.levels }
        ensures { result ≡ is_ripe self.now.state level }
    {
        self.desk.is_ripe(level)
    }

    /// How many moves there were.
    pub fn moves(&self) -> u64
        ensures { result ≡ self.now.moves }
    {
        self.moves
    }

    /// How many frames were begun.
    pub fn begun(&self) -> u64
        ensures { result ≡ self.now.state.begun }
    {
        self.desk.begun
    }

    /// The job of a pass, 0 to 15, where it has one.
    pub fn job_of(&self, pass: u8) -> Option<JobNote>
        requires { pass < 16 }
        ensures { result ≡ job_of (pass_at self.now.state pass) }
    {
        self.desk.job_at(pass)
    }

    /// Whether a pass, 0 to 15, has a job.
    pub fn has_job(&self, pass: u8) -> bool
        requires { pass < 16 }
        ensures { result ≡ is_some (job_of (pass_at self.now.state pass)) }
    {
        self.desk.job_at(pass).is_some()
    }

    /// The frame of a pass, 0 to 15, where it has one.
    pub fn frame_of(&self, pass: u8) -> Option<FrameNote>
        requires { pass < 16 }
        ensures { option_map open_frame result ≡ frame_of (pass_at self.now.state pass) }
    {
        note_in(self.desk.passes.as_slice(), pass)
    }
}
