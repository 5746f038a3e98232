//! The demo.

ghost use Rattle.std.specs.Prelude.{◌≡◌, All, IfOk};
ghost use Rattle.clip_script.specs.Ranges.{AreSizes, IsFlown};
ghost use Rattle.clip_script.specs.Scripts.{fly_view};
ghost use Rattle.demo_flight.specs.Demo.{demo_lines, demo_terrain};

use crate::flight::draw_lines;
use crate::generator::Generator;
use crate::lattice::draw_lattice;
use crate::samples::{SIDE, draw_samples};
use clip_script::FlyScript;
use height_pyramid::Grid;
use std::alloc::{AllocError, Global};

/// There was no memory.
#[derive(Debug, Clone, Copy, PartialEq, Eq)]
pub struct NoMemory;

impl From<AllocError> for NoMemory {
    fn from(_: AllocError) -> NoMemory {
        NoMemory
    }
}

/// A terrain and a flight over it.
#[derive(Drop)]
pub struct Demo {
    /// The terrain, of 1201 × 1201 samples.
    pub terrain: Grid,
    /// The flight: the viewer settles over the terrain's middle, and makes 64 moves with a frame each.
    pub script: FlyScript,
}

/// The demo of this seed.
pub fn demo_of(alloc: Global, seed: u64) -> Result<Demo, NoMemory>
    ensures terrain { IfOk result (λ demo. demo.terrain ≡ demo_terrain seed) }

    // The flight, with six levels of 63 × 63 vertices.
    ensures lines { IfOk result (λ demo. demo.script.lines.items ≡ demo_lines seed) }
    ensures sizes { IfOk result (λ demo. demo.script.k ≡ 6 × demo.script.levels ≡ 6) }
    ensures flown { IfOk result (λ demo. All IsFlown demo.script.lines.items) }
{
    let mut generator = Generator { state: seed };
    let lattice = draw_lattice(alloc, seed, &mut generator)?;
    let samples = draw_samples(alloc, lattice.as_slice(), seed, &mut generator)?;
    let terrain = Grid::new(SIDE, SIDE, samples);
    let lines = draw_lines(alloc, seed, &mut generator)?;
    Ok(Demo {
        terrain,
        script: FlyScript {
            k: 6,
            levels: 6,
            lines,
        },
    })
}
