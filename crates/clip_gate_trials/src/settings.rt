//! Clips of small terrains, with their stores.

ghost use Rattle.std.specs.Prelude.{◌≡◌};
ghost use Rattle.plan_model.specs.Limits.{IsSize, IsLevelCount};
ghost use Rattle.terrain_store.specs.Stores.{land_of};

use clip_gate::{Clip, Pass};
use height_pyramid::Grid;
use std::alloc::Global;
use terrain_store::{Store, pack};

// What a trial stops at.
#[derive(Clone, Copy, PartialEq, Eq, Debug)]
pub(crate) enum Wrong {
    // Memory, or a pass that is split off, was refused.
    NoMemory,
    NoPass,
    // Pieces weren't filled, or no frame was drawn.
    Jobs,
    Frame,
    // A thread failed, or a turn was out at the end.
    Thread,
    TurnOut,
    // The journal isn't legal, or wasn't played, or has few entries.
    NotLegal,
    NotPlayed,
    Few,
    // A frame's text isn't that of its regions over the terrain, or not that of the play.
    Text,
}

// K, and how many levels there are.
#[derive(Clone, Copy)]
pub(crate) struct Size {
    pub(crate) k: u8,
    pub(crate) levels: u8,
    ghost size: { IsSize k },
    ghost count: { IsLevelCount levels },
}

// A store of a terrain, a clip of it, and the first pass of the clip.
#[derive(Drop)]
pub(crate) struct Setting {
    pub(crate) store: Store,
    pub(crate) clip: Clip,
    pub(crate) pass: Pass,
    ghost names: { clip.land ≡ land_of store },
    ghost first: { pass.clip ≡ clip },
}

impl Setting {
    // Of a grid.
    pub(crate) fn new(alloc: Global, grid: &Grid, size: Size) -> Result<Setting, Wrong> {
        let Ok(store) = pack(alloc, grid, size.levels) else {
            return Err(Wrong::NoMemory);
        };
        let Ok((clip, pass)) = Clip::start(alloc, store.shape(), size.k) else {
            return Err(Wrong::NoMemory);
        };
        Ok(Setting { store, clip, pass })
    }
}

// The 3 x 3 samples of heights 1 to 9.
pub(crate) fn nine(alloc: Global) -> Result<Grid, Wrong> {
    match vec![in alloc; 1i16, 2, 3, 4, 5, 6, 7, 8, 9] {
        Ok(heights) => Ok(Grid::new(3, 3, heights)),
        Err(_) => Err(Wrong::NoMemory),
    }
}

// A terrain of 40 x 40 samples.
pub(crate) fn hills(alloc: Global) -> Result<Grid, Wrong> {
    let mut heights = Vec::new(alloc);
    if heights.resize(1600, 0i16).is_err() {
        return Err(Wrong::NoMemory);
    }
    let mut seed = 7u32;
    for height in heights.as_mut_slice() {
        seed = seed.wrapping_mul(1664525).wrapping_add(1013904223);
        *height = (seed >> 20) as i16;
    }
    Ok(Grid::new(40, 40, heights))
}
