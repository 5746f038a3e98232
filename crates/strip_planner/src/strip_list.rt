//! A short list of strips.

ghost use Rattle.std.specs.Prelude.{◌≡◌, ◌++◌, ◌∷◌, [], ◌<◌, ◌≤◌, length, Some};
ghost use Rattle.std.specs.List.{slice_get};

use clip_regions::Region;
use std::marker::Model;

/// Up to four strips, in the order in which they are filled. A contract sees the list of them.
#[derive(Drop)]
pub struct Strips {
    regions: [Region; 4],
    used: u8,
}

impl Model for Strips {
    ghost use Rattle.std.specs.Prelude.{◌≡◌, List, take, length, ◌≤◌};
    ghost use Rattle.clip_regions.specs.declared.region.Region.{Region};

    ghost Value = { List Region };

    ghost view = { λ s. take s.used s.regions };

    ghost invariant = { λ s. (s.used ≤ 4) × (length s.regions ≡ 4) };
}

impl Strips {
    // No strip yet.
    pub(crate) fn none() -> Self
        ensures { result ≡ [] }
    {
        Strips {
            regions: [Region::empty(); 4],
            used: 0,
        }
    }

    // Adds a strip after those that are there.
    pub(crate) fn push(&mut self, strip: Region)
        requires { length self.old < 4 }
        ensures { self.new ≡ self.old ++ strip ∷ [] }
    {
        self.regions[self.used as usize] = strip;
        self.used += 1;
    }

    /// How many strips there are: 0 to 4.
    pub fn count(&self) -> u8
        ensures value { result ≡ length self.now }
        ensures most { result ≤ 4 }
    {
        self.used
    }

    /// The strip of an index below `count`.
    pub fn at(&self, index: u8) -> Region
        requires { index < length self.now }
        ensures { slice_get self.now index ≡ Some result }
    {
        self.regions[index as usize]
    }
}
