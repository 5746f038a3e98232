//! Pieces that a pass claims and gives back, and strips that are published.

ghost use Rattle.std.specs.Prelude.{◌≡◌, ◌<◌, ◌≤◌, [], Some, None, All, IfOk, OnOk, OnErr, length, slice_index_or, slice_set};
ghost use Rattle.std.specs.Option.{option_map};
ghost use Rattle.plan_model.specs.Strips.{first_of};
ghost use Rattle.plan_model.specs.Claims.{strip_at};
ghost use Rattle.plan_model.specs.Steps.{claim_step, kept_job, stale_job, finished_job, finish_step, grown_level, published, publish_step, claimed_job, job_answer, finished_level};
ghost use Rattle.plan_model.specs.Claims.{pieces_at};
ghost use Rattle.plan_model.specs.States.{empty_level, level_at, with_level};
ghost use Rattle.plan_model.specs.Sound.{IsReady};
ghost use Rattle.plan_model.specs.declared.events.Work.TheVariants.{Free, Fills};

use crate::finished::finished_more;
use crate::offers::PlainOffer;
use crate::state::{PlainLevel, PlainState};
use clip_regions::Region;
use plan_model::{Answer, JobNote, Piece, Work};
use plan_plain_pieces::hull;
use std::alloc::{AllocError, Global};

// The answer that tells a job.
fn job_answer(job: JobNote) -> Answer
    ensures value { result ≡ job_answer job }
{
    Answer::Job {
        level: job.level,
        bx: job.piece.bx,
        by: job.piece.by,
        cells: job.piece.cells,
        plan: job.plan,
    }
}

// Forgets what one of some levels has finished, and puts this region in the place of what it has filled.
fn fill_level(alloc: Global, levels: &mut [PlainLevel], level: u8, filled: Region)
    requires { level < length levels.old }
    ensures value { levels.new ≡ slice_set levels.old level
        (record { filled = filled; finished = []; plan = (slice_index_or levels.old level empty_level).plan }) }
{
    let plan = levels[level as usize].plan();
    levels[level as usize] = PlainLevel {
        filled,
        finished: Vec::new(alloc),
        plan,
    };
}

// Puts these pieces in the place of what one of some levels has finished.
fn finish_level(levels: &mut [PlainLevel], level: u8, finished: Vec<Piece>)
    requires { level < length levels.old }
    ensures value { levels.new ≡ slice_set levels.old level
        (record (slice_index_or levels.old level empty_level) { finished = finished.items }) }
{
    let filled = levels[level as usize].filled();
    let plan = levels[level as usize].plan();
    levels[level as usize] = PlainLevel {
        filled,
        finished,
        plan,
    };
}

impl PlainState {
    // The job that a claimed piece makes.
    fn claimed_job(&self, offer: &PlainOffer) -> JobNote
        requires { offer.now.level < length self.now.levels }
        ensures value { result ≡ claimed_job self.now offer.now }
    {
        JobNote {
            level: offer.level(),
            piece: offer.piece(),
            plan: self.plan_at(offer.level()),
        }
    }

    // The job that the first of some offers makes, where there is one.
    fn first_job(&self, offers: &[PlainOffer]) -> Option<JobNote>
        requires { All (λ offer. offer.level < length self.now.levels) offers.now }
        ensures value { result ≡ option_map (claimed_job self.now) (first_of offers.now) }
    {
        match offers.first() {
            Some(offer) => Some(self.claimed_job(offer)),
            None => None,
        }
    }

    /// Pass `p` claims the first claimable piece. Where memory runs out it fails and changes nothing.
    #[tactic(auto, unfolding(plan_model::specs::Steps::claim_step))]
    pub fn claim(&mut self, alloc: Global, p: u8) -> Result<Answer, AllocError>
        requires sound { IsReady self.old }
        requires pass { p < 16 }
        ensures answer { IfOk result (λ answer. answer ≡ (claim_step self.old p).answer) }
        ensures state { OnOk result (self.new ≡ (claim_step self.old p).state) }
        ensures unchanged { OnErr result (self.new ≡ self.old) }
    {
        if self.has_work(p) {
            return Ok(Answer::HasWork);
        }
        let offers = self.offers(alloc)?;
        match self.first_job(offers.as_slice()) {
            Some(job) => {
                self.set_pass(p, Work::Fills(job));
                Ok(job_answer(job))
            }
            None => self.no_offer(alloc),
        }
    }

    // Puts these pieces in the place of what a level has finished.
    fn set_finished(&mut self, level: u8, finished: Vec<Piece>)
        requires { level < length self.old.levels }
        ensures value { self.new ≡ with_level self.old level
            (record (level_at self.old level) { finished = finished.items }) }
    {
        finish_level(self.levels.as_mut_slice(), level, finished);
    }

    // Pass p gives a job of the level's plan back.
    fn keep_job(&mut self, alloc: Global, p: u8, job: JobNote) -> Result<Answer, AllocError>
        requires sound { IsReady self.old }
        requires pass { p < 16 }
        requires level { job.level < length self.old.levels }
        ensures answer { IfOk result (λ answer. answer ≡ (kept_job self.old p job).answer) }
        ensures state { OnOk result (self.new ≡ (kept_job self.old p job).state) }
        ensures unchanged { OnErr result (self.new ≡ self.old) }
    {
        let all = self.pieces_at(alloc, job.level)?;
        let levels = self.levels.as_slice();
        let finished = finished_more(alloc, levels, job.level, all.as_slice(), job.piece)?;
        self.set_pass(p, Work::Free);
        self.set_finished(job.level, finished);
        Ok(Answer::Kept)
    }

    // Pass p gives a job of an older plan back.
    fn drop_job(&mut self, p: u8, job: JobNote) -> Answer
        requires sound { IsReady self.old }
        requires pass { p < 16 }
        requires level { job.level < length self.old.levels }
        ensures answer { result ≡ (stale_job self.old p job).answer }
        ensures state { self.new ≡ (stale_job self.old p job).state }
    {
        let now = self.plan_at(job.level);
        self.set_pass(p, Work::Free);
        Answer::Stale {
            plan: job.plan,
            now,
        }
    }

    // Pass p gives this job back.
    #[tactic(auto, unfolding(plan_model::specs::Steps::finished_job))]
    fn finish_job(&mut self, alloc: Global, p: u8, job: JobNote) -> Result<Answer, AllocError>
        requires sound { IsReady self.old }
        requires pass { p < 16 }
        requires level { job.level < length self.old.levels }
        ensures answer { IfOk result (λ answer. answer ≡ (finished_job self.old p job).answer) }
        ensures state { OnOk result (self.new ≡ (finished_job self.old p job).state) }
        ensures unchanged { OnErr result (self.new ≡ self.old) }
    {
        if job.plan == self.plan_at(job.level) {
            return self.keep_job(alloc, p, job);
        }
        Ok(self.drop_job(p, job))
    }

    /// Pass `p` gives its job back. A pass without a job has none to give back: the answer is Idle, and
    /// nothing changes. Where memory runs out it fails and changes nothing.
    #[tactic(auto, unfolding(plan_model::specs::Steps::finish_step))]
    pub fn finish(&mut self, alloc: Global, p: u8) -> Result<Answer, AllocError>
        requires sound { IsReady self.old }
        requires pass { p < 16 }
        ensures answer { IfOk result (λ answer. answer ≡ (finish_step self.old p).answer) }
        ensures state { OnOk result (self.new ≡ (finish_step self.old p).state) }
        ensures unchanged { OnErr result (self.new ≡ self.old) }
    {
        match self.job_at(p) {
            Some(job) => self.finish_job(alloc, p, job),
            None => Ok(Answer::Idle),
        }
    }

    // The filled region of a level takes this strip in, where all its pieces are finished.
    fn publish_strip(
        &mut self,
        alloc: Global,
        level: u8,
        strip: Region,
    ) -> Result<Answer, AllocError>
        requires sound { IsReady self.old }
        requires level { level < length self.old.levels }
        ensures answer { IfOk result (λ answer. answer ≡ (published self.old level (Some strip)).answer) }
        ensures state { OnOk result (self.new ≡ (published self.old level (Some strip)).state) }
        ensures unchanged { OnErr result (self.new ≡ self.old) }
    {
        let unfinished = self.unfinished_pieces(alloc, level)?;
        if unfinished.len() != 0 {
            return Ok(Answer::Waiting {
                pieces: unfinished.len() as u32,
            });
        }
        let region = hull(self.filled_at(level), strip);
        fill_level(alloc, self.levels.as_mut_slice(), level, region);
        Ok(Answer::Grown { region })
    }

    /// The filled region of a level takes its current strip in, where all of the strip's pieces are
    /// finished. Where memory runs out it fails and changes nothing.
    #[tactic(auto, unfolding(plan_model::specs::Steps::publish_step))]
    pub fn publish(&mut self, alloc: Global, level: u8) -> Result<Answer, AllocError>
        requires sound { IsReady self.old }
        requires level { level < length self.old.levels }
        ensures answer { IfOk result (λ answer. answer ≡ (publish_step self.old level).answer) }
        ensures state { OnOk result (self.new ≡ (publish_step self.old level).state) }
        ensures unchanged { OnErr result (self.new ≡ self.old) }
    {
        match self.strip_at(alloc, level)? {
            Some(strip) => self.publish_strip(alloc, level, strip),
            None => Ok(Answer::Whole),
        }
    }
}
