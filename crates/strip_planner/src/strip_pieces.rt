//! The pieces of a strip.

ghost use Rattle.std.specs.Prelude.{◌≡◌, ◌≤◌, ◌*◌, length};
ghost use Rattle.plan_model.specs.Strips.{pieces};
ghost use Rattle.strip_planner.specs.Planned.{IsPlanned, RegionsInWindowsArePlanned};

use crate::piece_walk::{Pieces, block_count};
use clip_regions::Region;
use plan_laws::{inside_is_held, pieces_are_counted};
use plan_sound::windows_are_near;

/// The pieces of a strip that is empty or lies in some window: its meets with the world blocks, row by row
/// from the north and each row from the west.
pub fn pieces(strip: Region) -> Pieces
    requires { IsPlanned strip }
    ensures { result ≡ pieces strip }
{
    Pieces::over(strip)
}

/// How many pieces a strip has that is empty or lies in some window: at most 1,089.
pub fn piece_count(strip: Region) -> u32
    requires { IsPlanned strip }
    ensures value { result ≡ length (pieces strip) }
    ensures most { result ≤ 1089 }
{
    pieces_are_counted();
    if strip.is_empty() {
        return 0;
    }
    block_count(strip.x0, strip.x1) * block_count(strip.y0, strip.y1)
}

/// A law: each region in a window of a viewer within the limits has the condition of `pieces`.
pub fn regions_in_windows_are_planned()
    ensures { RegionsInWindowsArePlanned }
{
    windows_are_near();
    inside_is_held();
}
