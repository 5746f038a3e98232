//! Reading a frame of a pass, level by level.

ghost use Rattle.std.specs.Prelude.{◌≡◌, ◌+◌, ◌<◌, ◌≤◌, length, IfOk};
ghost use Rattle.plan_model.specs.Limits.{IsSize};
ghost use Rattle.book_plan.specs.Notes.{open_frame};
ghost use Rattle.decode_workers.specs.Copies.{AreCopiesOf};
ghost use Rattle.clip_gate.specs.Calls.{HasWaited};
ghost use Rattle.clip_frames.specs.Reading.{HasOpen, AreRead};

use clip_gate::{Clip, FrameNote, Pass};
use decode_workers::LevelCopies;
use obj_frames::NoMemory;
use plan_holds::steps_go_on;
use plan_laws::actives_are_as_many;
use std::alloc::Global;
use std::sync::Wait;

// Reads a level of the frame of a pass.
fn read_one(
    rt: &impl Wait,
    clip: &Clip,
    pass: &mut Pass,
    note: &FrameNote,
    level: u8,
    copies: &mut LevelCopies,
)
    requires clip { pass.old.clip ≡ clip.now }
    requires level { level < clip.now.land.levels }
    requires there { level < length copies.old.actives }

    // The frame is open, and the levels below this one are read.
    requires frame { HasOpen pass.old (open_frame note.now) }
    requires regions { copies.old.actives ≡ note.now.actives }
    requires read { AreRead clip.now.land.terrain level copies.old }

    // The pass has waited for its turn, and one level more is read.
    ensures waited { HasWaited pass.old pass.new }
    ensures size { copies.new.k ≡ copies.old.k }
    ensures regions { copies.new.actives ≡ copies.old.actives }
    ensures read { AreRead clip.now.land.terrain (level + 1) copies.new }
{
    let out = copies.level_mut(level);
    clip.read_level(rt, pass, level, out);
}

// Reads the levels of the frame of a pass.
fn read_all(
    rt: &impl Wait,
    clip: &Clip,
    pass: &mut Pass,
    note: &FrameNote,
    copies: &mut LevelCopies,
)
    requires clip { pass.old.clip ≡ clip.now }
    requires levels { length note.now.actives ≡ clip.now.land.levels }

    // The frame is open, and no level is read yet.
    requires frame { HasOpen pass.old (open_frame note.now) }
    requires regions { copies.old.actives ≡ note.now.actives }
    requires read { AreRead clip.now.land.terrain 0 copies.old }

    // The pass has waited for its turns, and all heights are those of the terrain.
    ensures waited { HasWaited pass.old pass.new }
    ensures size { copies.new.k ≡ copies.old.k }
    ensures regions { copies.new.actives ≡ copies.old.actives }
    ensures copies { AreCopiesOf clip.now.land.terrain copies.new }
{
    let _number = pass.number();
    for level in 0..note.actives.levels() {
        read_one(rt, clip, pass, note, level, copies);
    }
}

/// The heights of a pass's frame, in metres, each level read in a turn of its own. K is that of the clip. It makes no
/// entry, and fails where memory runs out.
pub fn read_frame(
    rt: &impl Wait,
    alloc: Global,
    clip: &Clip,
    pass: &mut Pass,
    note: &FrameNote,
    k: u8,
) -> Result<LevelCopies, NoMemory>
    requires clip { pass.old.clip ≡ clip.now }
    requires frame { HasOpen pass.old (open_frame note.now) }
    requires size { IsSize k }

    // The pass has waited for its turns; the heights are those of the terrain in the regions of the frame.
    ensures waited { HasWaited pass.old pass.new }
    ensures size { IfOk result (λ copies. copies.k ≡ k) }
    ensures regions { IfOk result (λ copies. copies.actives ≡ note.now.actives) }
    ensures heights { IfOk result (λ copies. AreCopiesOf clip.now.land.terrain copies) }
{
    actives_are_as_many();
    steps_go_on();
    let _number = pass.number();
    let mut copies = LevelCopies::room(alloc, k, &note.actives)?;
    read_all(rt, clip, pass, note, &mut copies);
    Ok(copies)
}
