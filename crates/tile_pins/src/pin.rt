//! A region that a frame pins.

use clip_regions::Region;

/// What a pass has pinned of a level: the number of its frame, and the region of the level that it shows.
#[derive(Clone, Copy, PartialEq, Eq, Debug)]
pub struct Pin {
    /// The frame's number.
    pub frame: u64,
    /// The region, in cells of the level.
    pub region: Region,
}
