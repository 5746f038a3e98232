//! What a pass has of the book: nothing, a job or a frame.

ghost use Rattle.clip_gate.specs.Parts.{IsPart};
ghost use Rattle.plan_model.specs.States.{pass_at};
ghost use Rattle.std.specs.Prelude.{◌<◌};

use clip_book::{Book, FrameNote};

// A part, as the code keeps it.
#[derive(Clone, Copy)]
pub(crate) struct Part {
    // Whether there is neither a job nor a frame.
    pub(crate) free: bool,
    pub(crate) frame: Option<FrameNote>,
}

// The part of a pass.
pub(crate) fn part_of(book: &Book, pass: u8) -> Part
    requires { pass < 16 }
    ensures { IsPart result (pass_at book.now.plan.state pass) }
{
    let frame = book.frame_of(pass);
    let free = !book.has_job(pass) && frame.is_none();
    Part { free, frame }
}
