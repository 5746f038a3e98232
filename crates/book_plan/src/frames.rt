//! Frames that a pass begins and ends.

ghost use Rattle.std.specs.Prelude.{◌≡◌, ◌+◌, ◌-◌, ◌^◌, ◌<◌, ◌≤◌, None, take, map, flat_map, length};
ghost use Rattle.std.specs.Prelude.{slice_index_or, unwrap_or};
ghost use Rattle.std.specs.Option.{option_or};
ghost use Rattle.clip_regions.specs.Regions.{empty_region};
ghost use Rattle.plan_model.specs.Strips.{first_of};
ghost use Rattle.plan_model.specs.States.{from_coarsest};
ghost use Rattle.plan_model.specs.Claims.{held_tiles, held_answer};
ghost use Rattle.plan_model.specs.Steps.{actives_at, next_frame, frame_begun, begin_step, end_step};
ghost use Rattle.plan_model.specs.declared.events.Answer.TheVariants.{Idle};
ghost use Rattle.book_plan.specs.Desks.{state_of, HaveSlots, IsStanding};
ghost use Rattle.book_plan.specs.Found.{answers_on, answers_under};

use crate::desk::{PlanDesk, PlanFrame};
use crate::levels::PlanLevel;
use active_region::{Actives, actives};
use clip_regions::Region;
use plan_laws::actives_are_as_many;
use plan_model::{Answer, Work};

// The filled regions of 1 to 12 levels, the finest first, and behind them empty ones.
fn filled_regions(levels: &[PlanLevel]) -> [Region; 12]
    requires { length levels.now ≤ 12 }
    ensures { take (length levels.now) result ≡ map (λ level. level.filled) levels.now }
{
    let mut filled = [Region::empty(); 12];
    for l in 0..levels.len() {
        filled[l] = levels[l].filled();
    }
    filled
}

impl PlanDesk {
    // The active regions, the finest first: a level that is left out shows nothing.
    pub(crate) fn actives(&self) -> Actives
        requires standing { IsStanding self.now }
        ensures value { result ≡ actives_at (state_of self.now) }
        ensures many { length result ≡ length self.now.levels }
    {
        actives_are_as_many();
        let filled = filled_regions(self.levels.as_slice());
        actives(&filled[..self.levels.len()], self.k, self.finest())
    }

    // The answer for the first held tile of a level that a region meets, where one is held.
    fn held_on(&self, level: u8, region: Region) -> Option<Answer>
        requires standing { IsStanding self.now }
        ensures { result ≡ first_of (answers_on (state_of self.now) level region) }
    {
        match self.first_held(level, region) {
            Some(tile) => Some(self.held_answer(level, tile).unwrap_or(Answer::Idle)),
            None => None,
        }
    }

    // The answer for a coarser level, where there is one, and else for a level.
    fn held_or(&self, first: Option<Answer>, level: u8, region: Region) -> Option<Answer>
        requires standing { IsStanding self.now }
        ensures { result ≡ option_or first (first_of (answers_on (state_of self.now) level region)) }
    {
        match first {
            Some(answer) => Some(answer),
            None => self.held_on(level, region),
        }
    }

    // The answer for the first held tile that some active regions meet, where one is held: the levels from
    // the coarsest, each in the order of tiles.
    fn held_under(&self, actives: &Actives) -> Option<Answer>
        requires standing { IsStanding self.now }
        requires many { length actives.now ≡ length self.now.levels }
        ensures { result
            ≡ first_of (flat_map (answers_under (state_of self.now) actives.now) (from_coarsest (state_of self.now))) }
    {
        let mut first = None;
        for level in (0..self.level_count()).rev() {
            first = self.held_or(first, level, actives.at(level));
        }
        first
    }

    // Counts one more frame.
    fn count_frame(&mut self) -> u64
        requires { self.old.begun < 2 ^ 64 - 1 }
        ensures value { result ≡ self.old.begun }
        ensures counted { self.new ≡ record self.old { begun = self.old.begun + 1 } }
    {
        let number = self.begun;
        self.begun = number + 1;
        number
    }

    // The frame that would be begun.
    fn next_frame(&self, actives: Actives) -> PlanFrame
        requires { actives ≡ actives_at (state_of self.now) }
        ensures { result ≡ next_frame (state_of self.now) }
    {
        PlanFrame {
            number: self.begun,
            x: self.x,
            y: self.y,
            actives,
        }
    }

    // Pass p has a new frame of these active regions.
    fn open_frame(&mut self, p: u8, actives: Actives) -> Answer
        requires standing { IsStanding self.old }
        requires pass { p < 16 }
        requires actives { actives ≡ actives_at (state_of self.old) }
        ensures answer { result ≡ (frame_begun (state_of self.old) p None).answer }
        ensures state { state_of self.new ≡ (frame_begun (state_of self.old) p None).state }
        ensures slots { HaveSlots self.new }
    {
        let frame = self.next_frame(actives);
        self.set_pass(p, Work::Draws(frame));
        let number = self.count_frame();
        Answer::Frame { number }
    }

    // Pass `p` begins a frame of the active regions.
    #[tactic(auto, unfolding(plan_model::specs::Steps::begin_step))]
    pub(crate) fn begin(&mut self, p: u8) -> Answer
        requires standing { IsStanding self.old }
        requires pass { p < 16 }
        ensures answer { result ≡ (begin_step (state_of self.old) p).answer }
        ensures state { state_of self.new ≡ (begin_step (state_of self.old) p).state }
        ensures slots { HaveSlots self.new }
    {
        if self.has_work(p) {
            return Answer::HasWork;
        }
        let actives = self.actives();
        match self.held_under(&actives) {
            Some(answer) => answer,
            None => self.open_frame(p, actives),
        }
    }

    // Pass `p` ends its frame.
    #[tactic(auto, unfolding(plan_model::specs::Steps::end_step))]
    pub(crate) fn end(&mut self, p: u8) -> Answer
        requires standing { IsStanding self.old }
        requires pass { p < 16 }
        ensures answer { result ≡ (end_step (state_of self.old) p).answer }
        ensures state { state_of self.new ≡ (end_step (state_of self.old) p).state }
        ensures slots { HaveSlots self.new }
    {
        match self.frame_at(p) {
            Some(number) => {
                self.set_pass(p, Work::Free);
                Answer::Closed { number }
            }
            None => Answer::NoFrame,
        }
    }
}
