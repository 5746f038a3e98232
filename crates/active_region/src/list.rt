//! The list of a frame's active regions.

ghost use Rattle.std.specs.Prelude.{◌≡◌, ℕ, ◌-◌, ◌<◌, ◌≤◌, List, length, take, drop, replicate, slice_index_or, ◌++◌};
ghost use Rattle.clip_regions.specs.declared.region.Region.{Region as PlainRegion};
ghost use Rattle.clip_regions.specs.Regions.{empty_region};
ghost use Rattle.active_region.specs.Active.{AreActive, IsTwelve, restored};

use clip_regions::Region;
use std::marker::Model;

/// The active regions of a frame, the finest level first: 1 to 12 of them.
///
/// It is made by [`actives`](crate::actives) alone. A contract sees it as the list of its regions.
#[derive(Clone, Copy, PartialEq, Eq, Debug)]
pub struct Actives {
    regions: [Region; 12],
    count: u8,
}

impl Model for Actives {
    ghost Value = { List PlainRegion };

    ghost view = { λ a. take a.count a.regions };

    ghost invariant = { λ a. IsTwelve a.count a.regions };

    ghost inverse = { λ regions. record {
      regions = regions ++ replicate (12 - length regions) empty_region;
      count = length regions;
    } };

    ghost inverse_ok = { λ a h i. record {
      regions = restored a.count a.regions h i;
      count = h.counted i;
    } };
}

impl Actives {
    // The first regions of these twelve.
    pub(crate) fn new(regions: [Region; 12], count: u8) -> Actives
        requires counted { length (take count regions) ≡ count }
        requires unused { drop count regions ≡ replicate (12 - count) empty_region }
        requires active { AreActive (take count regions) }
        ensures value { result ≡ take count regions }
    {
        Actives { regions, count }
    }

    /// The number of levels.
    pub fn levels(&self) -> u8
        ensures value { result ≡ length self.now }
        ensures active { AreActive self.now }
    {
        self.count
    }

    /// The active region of a level, 0 the finest.
    pub fn at(&self, level: u8) -> Region
        requires { level < length self.now }
        ensures value { result ≡ slice_index_or self.now level empty_region }
        ensures active { AreActive self.now }
    {
        self.regions[usize::from(level)]
    }
}
