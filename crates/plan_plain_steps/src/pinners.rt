//! Which torus tiles are pinned by a frame that shows them.

ghost use Rattle.std.specs.Prelude.{◌≡◌, ◌^◌, None, All, IfOk, IfSome, fold, flat_map, length, slice_index_or};
ghost use Rattle.std.specs.List.{list_any};
ghost use Rattle.clip_regions.specs.Regions.{empty_region, IsWithin};
ghost use Rattle.plan_model.specs.Limits.{IsSize};
ghost use Rattle.plan_model.specs.States.{frame_of};
ghost use Rattle.plan_model.specs.Tiles.{meets_tile, pins_of, lesser, pinner, is_pinned, frame_is, is_open};
ghost use Rattle.plan_plain_steps.specs.Frames.{listed, lesser_of};
ghost use Rattle.plan_model.specs.Sound.{IsReady};

use crate::state::{PlainFrame, PlainState};
use clip_regions::Region;
use plan_model::{TileId, Work};
use plan_plain_pieces::meets_tile;
use plan_sound::actives_are_near;
use std::alloc::{AllocError, Global};

// One of some regions, and the empty one where there are fewer.
pub(crate) fn region_at(regions: &[Region], level: u8) -> Region
    requires { All (IsWithin (2 ^ 24)) regions.now }
    ensures value { result ≡ slice_index_or regions.now level empty_region }
    ensures within { IsWithin (2 ^ 24) result }
{
    if (level as usize) < regions.len() {
        regions[level as usize]
    } else {
        Region::empty()
    }
}

impl PlainFrame {
    // Whether the frame's active region of a level meets the tile.
    fn pins(&self, alloc: Global, k: u8, level: u8, t: TileId) -> Result<bool, AllocError>
        requires k { IsSize k }
        requires actives { All (IsWithin (2 ^ 24)) self.now.actives }
        ensures value { IfOk result (λ met. met ≡ meets_tile k (slice_index_or self.now.actives level empty_region) t) }
    {
        let region = region_at(self.actives.as_slice(), level);
        meets_tile(alloc, k, region, t)
    }

    // The frame's number, where it pins the tile of a level.
    fn pinning(&self, alloc: Global, k: u8, level: u8, t: TileId) -> Result<Option<u64>, AllocError>
        requires k { IsSize k }
        requires actives { All (IsWithin (2 ^ 24)) self.now.actives }
        ensures value { IfOk result (λ number. listed number ≡ pins_of k level t (Some self.now)) }
    {
        let pins = self.pins(alloc, k, level, t)?;
        Ok(if pins { Some(self.number) } else { None })
    }
}

// The number of a pass's frame, where it pins the tile of a level.
fn pinning(
    alloc: Global,
    k: u8,
    pass: &Work<PlainFrame>,
    level: u8,
    t: TileId,
) -> Result<Option<u64>, AllocError>
    requires k { IsSize k }
    requires frame { IfSome (frame_of pass.now) (λ frame. All (IsWithin (2 ^ 24)) frame.actives) }
    ensures value { IfOk result (λ number. listed number ≡ pins_of k level t (frame_of pass.now)) }
{
    match pass {
        Work::Draws(frame) => frame.pinning(alloc, k, level, t),
        Work::Free | Work::Fills(_) => Ok(None),
    }
}

// The lesser of two numbers that may be there.
fn lesser_of(least: Option<u64>, other: Option<u64>) -> Option<u64>
    ensures value { result ≡ lesser_of least other }
{
    match (least, other) {
        (Some(m), Some(n)) => Some(m.min(n)),
        (None, other) => other,
        (least, None) => least,
    }
}

/// The least number of a frame, of some passes, that pins the tile of a level. It fails where memory runs
/// out.
pub fn pinner_of(
    alloc: Global,
    k: u8,
    passes: &[Work<PlainFrame>],
    level: u8,
    t: TileId,
) -> Result<Option<u64>, AllocError>
    requires k { IsSize k }
    requires frames { All (λ pass. IfSome (frame_of pass) (λ frame. All (IsWithin (2 ^ 24)) frame.actives)) passes.now }
    ensures value { IfOk result (λ least. least ≡
        fold lesser None (flat_map (λ pass. pins_of k level t (frame_of pass)) passes.now)) }
{
    let mut least = None;
    for p in 0..passes.len() {
        let number = pinning(alloc, k, &passes[p], level, t)?;
        least = lesser_of(least, number);
    }
    Ok(least)
}

// Whether the pass has the frame of that number.
fn frame_is(number: u64, pass: &Work<PlainFrame>) -> bool
    ensures value { result ≡ frame_is number (frame_of pass.now) }
{
    match pass {
        Work::Draws(frame) => frame.number == number,
        Work::Free | Work::Fills(_) => false,
    }
}

// Whether one of some passes has the frame of that number.
fn any_is(number: u64, passes: &[Work<PlainFrame>]) -> bool
    ensures value { result ≡ list_any (λ pass. frame_is number (frame_of pass)) passes.now }
{
    passes.iter().any(|pass| frame_is(number, pass))
}

impl PlainState {
    /// Whether the frame of that number was begun and hasn't ended.
    #[tactic(auto, unfolding(plan_model::specs::Tiles::is_open))]
    pub fn is_open(&self, number: u64) -> bool
        ensures value { result ≡ is_open self.now number }
    {
        any_is(number, self.passes.as_slice())
    }

    /// The least number of a frame that pins the tile of a level. It fails where memory runs out.
    #[tactic(auto, unfolding(plan_model::specs::Tiles::pinner, plan_model::specs::Tiles::pinning_frames))]
    pub fn pinner(&self, alloc: Global, level: u8, t: TileId) -> Result<Option<u64>, AllocError>
        requires { IsReady self.now }
        ensures value { IfOk result (λ number. number ≡ pinner self.now level t) }
    {
        actives_are_near();
        pinner_of(alloc, self.k, self.passes.as_slice(), level, t)
    }

    /// Whether the tile of a level is pinned. It fails where memory runs out.
    #[tactic(auto, unfolding(plan_model::specs::Tiles::is_pinned))]
    pub fn is_pinned(&self, alloc: Global, level: u8, t: TileId) -> Result<bool, AllocError>
        requires { IsReady self.now }
        ensures value { IfOk result (λ pinned. pinned ≡ is_pinned self.now level t) }
    {
        let number = self.pinner(alloc, level, t)?;
        Ok(number.is_some())
    }
}
