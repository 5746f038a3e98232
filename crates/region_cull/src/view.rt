//! Views.

ghost use Rattle.std.specs.Prelude.{◌≡◌, ◌+◌, ◌-◌, ◌<◌, ◌≤◌, ◌++◌, List, [], ◌∷◌, All, length, take, replicate};
ghost use Rattle.mesh_model.specs.declared.shapes.HalfSpace.{HalfSpace as PlainHalfSpace};
ghost use Rattle.region_cull.specs.Views.{IsHalfSpace, IsSix, no_space, restored};

use mesh_model::HalfSpace;
use std::marker::Model;

/// The most half-spaces that a view has.
pub const HALF_SPACES: u8 = 6;

// What stands in the unused places.
const UNUSED: HalfSpace = HalfSpace {
    a: 0,
    b: 0,
    c: 0,
    d: 0,
};

/// A view: up to [`HALF_SPACES`] half-spaces, in the order in which they were added. Without one, all is seen.
///
/// A contract sees it as the list of its half-spaces. No call takes memory.
#[derive(Clone, Copy, PartialEq, Eq, Debug)]
pub struct View {
    spaces: [HalfSpace; 6],
    count: u8,
}

impl Model for View {
    ghost Value = { List PlainHalfSpace };

    ghost view = { λ v. take v.count v.spaces };

    ghost invariant = { λ v. IsSix v.count v.spaces };

    ghost inverse = { λ spaces. record {
      spaces = spaces ++ replicate (6 - length spaces) no_space;
      count = length spaces;
    } };

    ghost inverse_ok = { λ v h i. record {
      spaces = restored v.count v.spaces h i;
      count = h.counted i;
    } };
}

impl View {
    /// The view without a half-space.
    pub fn empty() -> View
        ensures { result ≡ [] }
    {
        View {
            spaces: [UNUSED; 6],
            count: 0,
        }
    }

    /// Adds a half-space, whose factors are no farther from zero than 2^20, and whose last number no farther than 2^40.
    pub fn add(&mut self, half: HalfSpace)
        requires room { length self.old < 6 }
        requires half { IsHalfSpace half }
        ensures { self.new ≡ self.old ++ half ∷ [] }
    {
        self.spaces[usize::from(self.count)] = half;
        self.count += 1;
    }

    /// The number of half-spaces.
    pub fn count(&self) -> u8
        ensures value { result ≡ length self.now }
        ensures few { length self.now ≤ 6 }
        ensures spaces { All IsHalfSpace self.now }
    {
        self.count
    }

    /// The half-spaces, in the order in which they were added.
    pub fn spaces(&self) -> &[HalfSpace]
        ensures { result.now ≡ self.now }
    {
        &self.spaces[..usize::from(self.count)]
    }
}
