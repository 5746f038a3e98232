//! Pieces that a pass claims and gives back, and strips that are published.

ghost use Rattle.std.specs.Prelude.{◌≡◌, ◌<◌, ◌≤◌, true, Some, length, slice_index_or, slice_set};
ghost use Rattle.plan_model.specs.States.{pass_at, job_of};
ghost use Rattle.plan_model.specs.Claims.{strip_at, unfinished_pieces};
ghost use Rattle.plan_model.specs.Steps.{claim_step, kept_job, stale_job, finished_job, finish_step, published};
ghost use Rattle.plan_model.specs.Steps.{publish_step, job_answer};
ghost use Rattle.plan_model.specs.Laws.{IsFilledIn};
ghost use Rattle.plan_model.specs.declared.events.Work.TheVariants.{Free};
ghost use Rattle.book_plan.specs.Slots.{empty_shelf, marked_shelf, open_pieces, HaveDifferentBlocks};
ghost use Rattle.book_plan.specs.Desks.{state_of, shelf_at, HaveSlots, IsStanding};
ghost use Rattle.book_plan.specs.Moves.{filled_shelf, IsRoomy};

use crate::desk::PlanDesk;
use crate::levels::PlanLevel;
use crate::moves::fill_in;
use clip_regions::Region;
use plan_laws::{hulls_are_even_inside, inside_is_held, pieces_have_different_blocks};
use plan_model::{Answer, JobNote, Piece, Work};
use strip_planner::hull;

// The answer that tells a job.
fn job_answer(job: JobNote) -> Answer
    ensures { result ≡ job_answer job }
{
    Answer::Job {
        level: job.level,
        bx: job.piece.bx,
        by: job.piece.by,
        cells: job.piece.cells,
        plan: job.plan,
    }
}

// Marks a piece of one of some levels finished.
fn mark_level(levels: &mut [PlanLevel], level: u8, piece: Piece)
    requires level { level < length levels.old }
    requires blocks { HaveDifferentBlocks (slice_index_or levels.old level empty_shelf).slots }
    ensures { levels.new
        ≡ slice_set levels.old level (marked_shelf piece (slice_index_or levels.old level empty_shelf)) }
{
    levels[level as usize].mark(piece);
}

// Gives one of some levels, which is in use, another filled region in its window.
fn grow_level(levels: &mut [PlanLevel], level: u8, filled: Region, window: Region)
    requires level { level < length levels.old }
    requires filled { IsFilledIn filled window }
    requires window { IsRoomy window }
    ensures { levels.new ≡ slice_set levels.old level
        (filled_shelf true filled (slice_index_or levels.old level empty_shelf).plan window) }
{
    let plan = levels[level as usize].plan();
    fill_in(&mut levels[level as usize], true, filled, plan, window);
}

// How many pieces of the current strip of one of some levels aren't finished.
fn open_of(levels: &[PlanLevel], level: u8) -> u32
    requires { level < length levels.now }
    ensures { result ≡ length (open_pieces (slice_index_or levels.now level empty_shelf).slots) }
{
    levels[level as usize].open_count()
}

impl PlanDesk {
    // Pass `p` claims the first claimable piece.
    #[tactic(auto, unfolding(plan_model::specs::Steps::claim_step))]
    pub(crate) fn claim(&mut self, p: u8) -> Answer
        requires standing { IsStanding self.old }
        requires pass { p < 16 }
        ensures answer { result ≡ (claim_step (state_of self.old) p).answer }
        ensures state { state_of self.new ≡ (claim_step (state_of self.old) p).state }
        ensures slots { HaveSlots self.new }
    {
        if self.has_work(p) {
            return Answer::HasWork;
        }
        match self.first_job() {
            Some(job) => {
                self.set_pass(p, Work::Fills(job));
                job_answer(job)
            }
            None => self.no_offer(),
        }
    }

    // Marks a piece of a level finished.
    fn mark(&mut self, level: u8, piece: Piece)
        requires level { level < length self.old.levels }
        requires blocks { HaveDifferentBlocks (shelf_at self.old level).slots }
        ensures { self.new ≡ record self.old {
          levels = slice_set self.old.levels level (marked_shelf piece (shelf_at self.old level));
        } }
    {
        mark_level(self.levels.as_mut_slice(), level, piece);
    }

    // Pass p gives a job of the level's plan back.
    fn keep_job(&mut self, p: u8, job: JobNote) -> Answer
        requires standing { IsStanding self.old }
        requires pass { p < 16 }
        requires level { job.level < length self.old.levels }
        ensures answer { result ≡ (kept_job (state_of self.old) p job).answer }
        ensures state { state_of self.new ≡ (kept_job (state_of self.old) p job).state }
        ensures slots { HaveSlots self.new }
    {
        pieces_have_different_blocks();
        self.mark(job.level, job.piece);
        self.set_pass(p, Work::Free);
        Answer::Kept
    }

    // Pass p gives a job of an older plan back.
    fn drop_job(&mut self, p: u8, job: JobNote) -> Answer
        requires standing { IsStanding self.old }
        requires pass { p < 16 }
        requires level { job.level < length self.old.levels }
        ensures answer { result ≡ (stale_job (state_of self.old) p job).answer }
        ensures state { state_of self.new ≡ (stale_job (state_of self.old) p job).state }
        ensures slots { HaveSlots self.new }
    {
        let now = self.plan_at(job.level);
        self.set_pass(p, Work::Free);
        Answer::Stale {
            plan: job.plan,
            now,
        }
    }

    // Pass p gives this job back.
    #[tactic(auto, unfolding(plan_model::specs::Steps::finished_job))]
    fn finish_job(&mut self, p: u8, job: JobNote) -> Answer
        requires standing { IsStanding self.old }
        requires pass { p < 16 }
        requires level { job.level < length self.old.levels }
        ensures answer { result ≡ (finished_job (state_of self.old) p job).answer }
        ensures state { state_of self.new ≡ (finished_job (state_of self.old) p job).state }
        ensures slots { HaveSlots self.new }
    {
        if job.plan == self.plan_at(job.level) {
            return self.keep_job(p, job);
        }
        self.drop_job(p, job)
    }

    // Pass `p` gives its job back. A pass without a job has none to give back: the answer is Idle, and
    // nothing changes.
    #[tactic(auto, unfolding(plan_model::specs::Steps::finish_step))]
    pub(crate) fn finish(&mut self, p: u8) -> Answer
        requires standing { IsStanding self.old }
        requires pass { p < 16 }
        ensures answer { result ≡ (finish_step (state_of self.old) p).answer }
        ensures state { state_of self.new ≡ (finish_step (state_of self.old) p).state }
        ensures slots { HaveSlots self.new }
    {
        match self.job_at(p) {
            Some(job) => self.finish_job(p, job),
            None => Answer::Idle,
        }
    }

    // How many pieces of a level's current strip aren't finished.
    pub(crate) fn unfinished_count(&self, level: u8) -> u32
        requires standing { IsStanding self.now }
        requires level { level < length self.now.levels }
        ensures { result ≡ length (unfinished_pieces (state_of self.now) level) }
    {
        pieces_have_different_blocks();
        open_of(self.levels.as_slice(), level)
    }

    // Gives a level, which is in use, another filled region in its window.
    fn grow(&mut self, level: u8, filled: Region, window: Region)
        requires level { level < length self.old.levels }
        requires filled { IsFilledIn filled window }
        requires window { IsRoomy window }
        ensures { self.new ≡ record self.old {
          levels = slice_set self.old.levels level (filled_shelf true filled (shelf_at self.old level).plan window);
        } }
    {
        grow_level(self.levels.as_mut_slice(), level, filled, window);
    }

    // The filled region of a level takes this strip in, where all its pieces are finished.
    fn publish_strip(&mut self, level: u8, strip: Region) -> Answer
        requires standing { IsStanding self.old }
        requires level { level < length self.old.levels }
        requires strip { strip_at (state_of self.old) level ≡ Some strip }
        ensures answer { result ≡ (published (state_of self.old) level (Some strip)).answer }
        ensures state { state_of self.new ≡ (published (state_of self.old) level (Some strip)).state }
        ensures slots { HaveSlots self.new }
    {
        hulls_are_even_inside();
        inside_is_held();
        let pieces = self.unfinished_count(level);
        if pieces != 0 {
            return Answer::Waiting { pieces };
        }
        let region = hull(self.filled_at(level), strip);
        let window = self.window_at(level);
        self.grow(level, region, window);
        Answer::Grown { region }
    }

    // The filled region of a level takes its current strip in, where all of the strip's pieces are
    // finished.
    #[tactic(auto, unfolding(plan_model::specs::Steps::publish_step))]
    pub(crate) fn publish(&mut self, level: u8) -> Answer
        requires standing { IsStanding self.old }
        requires level { level < length self.old.levels }
        ensures answer { result ≡ (publish_step (state_of self.old) level).answer }
        ensures state { state_of self.new ≡ (publish_step (state_of self.old) level).state }
        ensures slots { HaveSlots self.new }
    {
        match self.strip_at(level) {
            Some(strip) => self.publish_strip(level, strip),
            None => Answer::Whole,
        }
    }
}
