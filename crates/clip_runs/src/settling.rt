//! A book that is filled until every level in use is whole.

ghost use Rattle.std.specs.Prelude.{◌≡◌, ◌<◌, ◌^◌, IsTrue, IsFalse, is_some, length};
ghost use Rattle.plan_model.specs.Strips.{first_of};
ghost use Rattle.plan_model.specs.Claims.{offers};
ghost use Rattle.plan_model.specs.Rounds.{is_job, is_ripe, is_settled, publishes, round};
ghost use Rattle.plan_model.specs.Histories.{run_from};
ghost use Rattle.plan_flights.specs.Flights.{IsAtRest};
ghost use Rattle.clip_desk.specs.Desks.{Stays};
ghost use Rattle.clip_runs.specs.Settles.{IsAlike, published_if_ripe};

use clip_desk::Desk;
use decode_workers::Filler;
use plan_flights::laws_below;
use plan_histories::{others_keep_parts, passes_are_kept};
use plan_holds::steps_go_on;
use plan_model::{Answer, Event};

// Publishes a level, where it is ripe.
fn publish_if_ripe<F: Filler>(filler: &F, desk: &mut Desk, level: u8)
    requires land { F.land filler.now ≡ desk.old.land }
    requires level { level < length desk.old.plan.state.levels }
    requires moves { desk.old.plan.moves < 2 ^ 40 }
    requires begun { desk.old.plan.state.begun < 2 ^ 40 }
    ensures state { desk.new.plan.state ≡ published_if_ripe desk.old.plan.state level }
    ensures stays { Stays desk.old desk.new }
{
    steps_go_on();
    if desk.book().is_ripe(level) {
        let _ = desk.take(filler, 0, Event::Publish { level });
    }
}

// Publishes each level that is ripe, from the coarsest.
fn publish_ripe<F: Filler>(filler: &F, desk: &mut Desk)
    requires land { F.land filler.now ≡ desk.old.land }
    requires moves { desk.old.plan.moves < 2 ^ 40 }
    requires begun { desk.old.plan.state.begun < 2 ^ 40 }
    ensures state { desk.new.plan.state ≡ (publishes (run_from desk.old.plan.state)).state }
    ensures stays { Stays desk.old desk.new }
{
    let levels = desk.book().levels();
    for level in (0..levels).rev() {
        publish_if_ripe(filler, desk, level);
    }
}

// Whether an answer gives a job.
fn is_job(answer: Answer) -> bool
    ensures { result ≡ is_job answer }
{
    match answer {
        Answer::Job { .. } => true,
        _ => false,
    }
}

// Fills the next piece and publishes what is ripe, unless every level in use is whole. Whether there was a piece.
fn fill_next<F: Filler>(filler: &F, desk: &mut Desk) -> bool
    requires land { F.land filler.now ≡ desk.old.land }
    requires rest { IsAtRest desk.old.plan.state }

    // There is room for the events.
    requires moves { desk.old.plan.moves < 2 ^ 40 }
    requires begun { desk.old.plan.state.begun < 2 ^ 40 }

    // A piece was offered and is filled, as by one round of one worker; or every level was whole, and nothing changes.
    ensures filled { IsTrue result → desk.new.plan.state ≡ (round 1 (run_from desk.old.plan.state)).state }
    ensures offered { IsTrue result → IsTrue (is_some (first_of (offers desk.old.plan.state))) }
    ensures settled { IsFalse result → IsTrue (is_settled desk.old.plan.state) }
    ensures same { IsFalse result → desk.new.plan.state ≡ desk.old.plan.state }

    // The rest of the book stays.
    ensures stays { Stays desk.old desk.new }
{
    laws_below();
    steps_go_on();
    others_keep_parts();
    passes_are_kept();
    let answer = desk.take(filler, 0, Event::Claim);
    if is_job(answer) {
        let _ = desk.take(filler, 0, Event::Finish);
        publish_ripe(filler, desk);
        true
    } else {
        false
    }
}

// Fills a book at rest until every level in use is whole.
pub(crate) fn settle<F: Filler>(filler: &F, desk: &mut Desk)
    requires land { F.land filler.now ≡ desk.old.land }
    requires rest { IsAtRest desk.old.plan.state }

    // There is room for the events.
    requires moves { desk.old.plan.moves < 2 ^ 40 }
    requires begun { desk.old.plan.state.begun < 2 ^ 40 }

    // Then every level in use is whole, and the rest of the book stays.
    ensures rest { IsAtRest desk.new.plan.state }
    ensures settled { IsTrue (is_settled desk.new.plan.state) }
    ensures alike { IsAlike desk.old.plan.state desk.new.plan.state }
    ensures stays { Stays desk.old desk.new }
{
    laws_below();
    let mut filling = true;
    while filling {
        filling = fill_next(filler, desk);
    }
}
