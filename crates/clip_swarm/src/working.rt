//! The mover and the workers.

ghost use Rattle.std.specs.Prelude.{◌≡◌, ◌∷◌, [], All};
ghost use Rattle.plan_model.specs.declared.events.Work.TheVariants.{Free};
ghost use Rattle.clip_script.specs.Ranges.{IsMove};
ghost use Rattle.clip_gate.specs.Passes.{part_of};
ghost use Rattle.swarm_laws.specs.Shares.{moves_share, claims_share};
ghost use Rattle.swarm_passes.specs.Going.{Goes};

use clip_book::Claimed;
use clip_gate::{Clip, Pass};
use decode_workers::Filler;
use plan_holds::histories_go_on;
use std::sync::Wait;

// Makes one move. It tells whether the journal was full.
fn make_move(rt: &impl Wait, clip: &Clip, pass: &mut Pass, place: (i32, i32, u32)) -> bool
    requires clip { pass.old.clip ≡ clip.now }
    requires place { IsMove place }
    requires free { part_of pass.old ≡ Free }
    ensures goes { Goes (moves_share (place ∷ [])) result [] pass.old pass.new }
{
    let _number = pass.number();
    match clip.move_to(rt, pass, place.0, place.1, place.2) {
        Ok(()) => false,
        Err(_) => true,
    }
}

// Makes the moves, in their order, as long as the journal isn't full. It tells whether it was.
pub(crate) fn make_moves(
    rt: &impl Wait,
    clip: &Clip,
    pass: &mut Pass,
    moves: &[(i32, i32, u32)],
) -> bool
    requires clip { pass.old.clip ≡ clip.now }
    requires moves { All IsMove moves.now }
    requires free { part_of pass.old ≡ Free }
    ensures goes { Goes (moves_share moves.now) result [] pass.old pass.new }
{
    for place in moves {
        if make_move(rt, clip, pass, *place) {
            return true;
        }
    }
    false
}

// Makes one claim. A job is filled and given back, and a ripe level is published. It tells whether the journal was
// full.
fn make_claim<F: Filler>(rt: &impl Wait, clip: &Clip, filler: &F, pass: &mut Pass) -> bool
    requires clip { pass.old.clip ≡ clip.now }
    requires land { clip.now.land ≡ F.land filler.now }
    requires free { part_of pass.old ≡ Free }
    ensures goes { Goes (claims_share 1) result [] pass.old pass.new }
{
    histories_go_on();
    let _number = pass.number();
    match clip.claim(rt, pass) {
        Ok(Claimed::Job(job)) => {
            clip.give_back(rt, pass, filler.fill(job));
            false
        }
        Ok(Claimed::Ripe { level }) => match clip.publish(rt, pass, level) {
            Ok(_) => false,
            Err(_) => true,
        },
        Ok(Claimed::Idle) => false,
        Ok(Claimed::Busy { .. }) => false,
        Ok(Claimed::Held { .. }) => false,
        Ok(Claimed::HasWork) => unreachable!(),
        Err(_) => true,
    }
}

// Makes so many claims, as long as the journal isn't full. It tells whether it was.
pub(crate) fn make_claims<F: Filler>(
    rt: &impl Wait,
    clip: &Clip,
    filler: &F,
    pass: &mut Pass,
    claims: u32,
) -> bool
    requires clip { pass.old.clip ≡ clip.now }
    requires land { clip.now.land ≡ F.land filler.now }
    requires free { part_of pass.old ≡ Free }
    ensures goes { Goes (claims_share claims) result [] pass.old pass.new }
{
    for _made in 0..claims {
        if make_claim(rt, clip, filler, pass) {
            return true;
        }
    }
    false
}
