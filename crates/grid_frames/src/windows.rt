//! The active regions of a frame with every window whole.

ghost use Rattle.std.specs.Prelude.{◌≡◌, ◌++◌, ◌-◌, ◌≤◌, replicate};
ghost use Rattle.clip_regions.specs.Regions.{empty_region};
ghost use Rattle.plan_model.specs.Limits.{IsSize, IsLevelCount, IsViewed};
ghost use Rattle.grid_frames.specs.Whole.{whole_regions, whole_windows};

use active_region::{Actives, actives};
use clip_regions::Region;
use level_frame::window;
use plan_model::windows_have_even_corners;

/// Where a viewer stands.
#[derive(Clone, Copy, PartialEq, Eq, Debug)]
pub struct Viewer {
    /// The column, in samples of the mosaic; it grows east.
    pub x: i32,
    /// The row, in samples of the mosaic; it grows south.
    pub y: i32,
}

// The windows of the levels round a viewer, the finest first, and behind them empty regions, twelve together.
fn twelve_windows(k: u8, levels: u8, viewer: &Viewer) -> [Region; 12]
    requires k { IsSize k }
    requires levels { levels ≤ 12 }
    requires x { IsViewed viewer.now.x }
    requires y { IsViewed viewer.now.y }
    ensures { result ≡ whole_windows k levels viewer.now.x viewer.now.y ++ replicate (12 - levels) empty_region }
{
    let mut windows = [Region::empty(); 12];
    for level in 0..levels {
        windows[usize::from(level)] = window(k, level, viewer.x, viewer.y);
    }
    windows
}

/// The active regions of a frame whose windows of 1 to 12 levels round a viewer are all filled.
pub fn whole_regions(k: u8, levels: u8, viewer: &Viewer) -> Actives
    requires k { IsSize k }
    requires levels { IsLevelCount levels }
    requires x { IsViewed viewer.now.x }
    requires y { IsViewed viewer.now.y }
    ensures value { result ≡ whole_regions k levels viewer.now.x viewer.now.y }
{
    windows_have_even_corners();
    let windows = twelve_windows(k, levels, viewer);
    actives(&windows[..usize::from(levels)], k, 0)
}
