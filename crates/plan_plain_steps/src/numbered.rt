//! The levels and the passes of a state by their numbers.

ghost use Rattle.std.specs.Prelude.{◌≡◌, ◌<◌, length, slice_index_or, slice_set};
ghost use Rattle.plan_model.specs.States.{empty_level, job_of, frame_of, has_work, level_at, pass_at, with_level, with_pass};
ghost use Rattle.plan_model.specs.declared.events.Work.TheVariants.{Free};
ghost use Rattle.plan_plain_steps.specs.Frames.{number_of};

use crate::state::{PlainFrame, PlainLevel, PlainState, frame_number, has_work, job_of};
use plan_model::{JobNote, Work};

// The plan number of one of some levels.
fn plan_of(levels: &[PlainLevel], level: u8) -> u64
    requires { level < length levels.now }
    ensures value { result ≡ (slice_index_or levels.now level empty_level).plan }
{
    levels[level as usize].plan()
}

// The job of one of some passes.
fn job_in(passes: &[Work<PlainFrame>], p: u8) -> Option<JobNote>
    requires { p < length passes.now }
    ensures value { result ≡ job_of (slice_index_or passes.now p Free) }
{
    job_of(&passes[p as usize])
}

// The number of the frame of one of some passes.
fn frame_in(passes: &[Work<PlainFrame>], p: u8) -> Option<u64>
    requires { p < length passes.now }
    ensures value { result ≡ number_of (frame_of (slice_index_or passes.now p Free)) }
{
    frame_number(&passes[p as usize])
}

// Whether one of some passes has a job or a frame.
fn works(passes: &[Work<PlainFrame>], p: u8) -> bool
    requires { p < length passes.now }
    ensures value { result ≡ has_work (slice_index_or passes.now p Free) }
{
    has_work(&passes[p as usize])
}

// Puts another level in the place of one.
fn put_level(levels: &mut [PlainLevel], level: u8, new: PlainLevel)
    requires { level < length levels.old }
    ensures value { levels.new ≡ slice_set levels.old level new }
{
    levels[level as usize] = new;
}

// Puts another pass in the place of one.
fn put_pass(passes: &mut [Work<PlainFrame>], p: u8, new: Work<PlainFrame>)
    requires { p < length passes.old }
    ensures value { passes.new ≡ slice_set passes.old p new }
{
    passes[p as usize] = new;
}

impl PlainState {
    /// K.
    pub fn k(&self) -> u8
        ensures value { result ≡ self.now.k }
    {
        self.k
    }

    /// What each pass has.
    pub fn passes(&self) -> &[Work<PlainFrame>]
        ensures value { result.now ≡ self.now.passes }
    {
        self.passes.as_slice()
    }

    /// The plan number of a level.
    pub fn plan_at(&self, level: u8) -> u64
        requires { level < length self.now.levels }
        ensures value { result ≡ (level_at self.now level).plan }
    {
        plan_of(self.levels.as_slice(), level)
    }

    /// The job that a pass has.
    pub fn job_at(&self, p: u8) -> Option<JobNote>
        requires { p < length self.now.passes }
        ensures value { result ≡ job_of (pass_at self.now p) }
    {
        job_in(self.passes.as_slice(), p)
    }

    /// The number of the frame that a pass has.
    pub fn frame_at(&self, p: u8) -> Option<u64>
        requires { p < length self.now.passes }
        ensures value { result ≡ number_of (frame_of (pass_at self.now p)) }
    {
        frame_in(self.passes.as_slice(), p)
    }

    /// Whether a pass has a job or a frame.
    pub fn has_work(&self, p: u8) -> bool
        requires { p < length self.now.passes }
        ensures value { result ≡ has_work (pass_at self.now p) }
    {
        works(self.passes.as_slice(), p)
    }

    // Puts another level in the place of one.
    pub(crate) fn set_level(&mut self, level: u8, new: PlainLevel)
        requires { level < length self.old.levels }
        ensures value { self.new ≡ with_level self.old level new }
    {
        put_level(self.levels.as_mut_slice(), level, new);
    }

    // Puts this in the place of what pass p has.
    pub(crate) fn set_pass(&mut self, p: u8, new: Work<PlainFrame>)
        requires { p < length self.old.passes }
        ensures value { self.new ≡ with_pass self.old p new }
    {
        put_pass(self.passes.as_mut_slice(), p, new);
    }
}
