//! The name of a terrain.

ghost use Rattle.std.specs.Prelude.{◌≡◌};
ghost use Rattle.terrain_store.specs.Shapes.{IsLand, HasSides};

use height_pyramid::Grid;
use std::marker::Model;
use std::snapshot::Snapshot;
use store_reader::Header;

/// The sides of a store's terrain, in samples, and its number of levels.
///
/// It names the terrain: clauses see the terrain with its heights, and a running program the three numbers. It is made
/// by `Store::shape` alone. Whoever is to name the same terrain keeps a `Snapshot` of it, which has no bytes.
#[derive(Drop)]
pub struct Shape {
    width: u32,
    height: u32,
    levels: u8,
    terrain: Snapshot<Snapshot<Grid>>,
}

impl Model for Shape {
    ghost use Rattle.terrain_store.specs.Shapes.{Land, HasSides};

    ghost Value = { Land };

    ghost view = { λ s. record { terrain = s.terrain.value.value; levels = s.levels } };

    ghost invariant = { λ s.
        HasSides (record { terrain = s.terrain.value.value; levels = s.levels }) s.width s.height s.levels };
}

impl Shape {
    ghost use Rattle.std.specs.Prelude.{◌≤◌};
    ghost use Rattle.terrain_model.specs.Terrain.{IsTerrain};

    // The shape of a terrain with what its store's header says.
    pub(crate) fn new(header: Header, terrain: &Snapshot<Grid>) -> Shape
        requires { HasSides (record { terrain = terrain.now.value; levels = header.levels })
            header.width header.height header.levels }
        ensures { result ≡ record { terrain = terrain.now.value; levels = header.levels } }
    {
        Shape {
            width: header.width,
            height: header.height,
            levels: header.levels,
            terrain: Snapshot::of(terrain),
        }
    }

    /// How many columns the terrain has, 1 to 2^26 samples.
    pub fn width(&self) -> u32
        ensures value { result ≡ self.now.terrain.width }
        ensures named { IsLand self.now }
    {
        self.width
    }

    /// How many rows the terrain has, 1 to 2^26 samples.
    pub fn height(&self) -> u32
        ensures value { result ≡ self.now.terrain.height }
        ensures named { IsLand self.now }
    {
        self.height
    }

    /// How many levels there are, 1 to 12.
    pub fn levels(&self) -> u8
        ensures value { result ≡ self.now.levels }
        ensures named { IsLand self.now }
    {
        self.levels
    }
}
