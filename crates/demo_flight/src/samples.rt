//! The samples of the demo's terrain.

ghost use Rattle.std.specs.Prelude.{◌≡◌, ◌<◌, ◌≤◌, ◌+◌, ◌*◌, OnOk, IfOk};
ghost use Rattle.demo_flight.specs.Generator.{next_state, state_after};
ghost use Rattle.demo_flight.specs.Demo.{first_samples, next_line, sample, smooth};
ghost use Rattle.demo_flight.specs.Parts.{lattice_heights};

use crate::generator::Generator;
use crate::lattice::{between, height_at};
use std::alloc::{AllocError, Global};

// The number of columns and of rows of the terrain.
pub(crate) const SIDE: u32 = 1201;

// The lattice's next column or row, and of the last one itself.
#[tactic(auto, unfolding(crate::specs::Demo::next_line))]
fn next_line(line: u32) -> u32
    requires { line < 26 }
    ensures value { result ≡ next_line line }
    ensures small { result < 26 }
{
    (line + 1).min(25)
}

// 48 · 48 times the height above −500 metres that the lattice has at a sample.
#[tactic(auto, unfolding(crate::specs::Demo::smooth))]
fn smooth(lattice: &[u16], seed: u64, x: u32, y: u32) -> u32
    requires lattice { lattice.now ≡ lattice_heights seed }
    requires x { x < 1201 }
    requires y { y < 1201 }
    ensures value { result ≡ smooth seed x y }
    ensures small { result ≤ 2304 * 2000 }
{
    let (column, row) = (x / 48, y / 48);
    let (next_column, next_row) = (next_line(column), next_line(row));
    let north = between(
        x % 48,
        height_at(lattice, seed, column, row),
        height_at(lattice, seed, next_column, row),
    );
    let south = between(
        x % 48,
        height_at(lattice, seed, column, next_row),
        height_at(lattice, seed, next_column, next_row),
    );
    between(y % 48, north, south)
}

// Draws one sample, counted row by row.
#[tactic(auto, unfolding(crate::specs::Demo::sample))]
fn draw_sample(lattice: &[u16], seed: u64, generator: &mut Generator, place: u32) -> i16
    requires lattice { lattice.now ≡ lattice_heights seed }
    requires place { place < 1442401 }
    requires state { generator.old.state ≡ state_after seed (676 + place) }
    ensures value { result ≡ sample seed place }
    ensures next { generator.new.state ≡ next_state generator.old.state }
{
    let height = smooth(lattice, seed, place % SIDE, place / SIDE) / 2304;
    let roughness = generator.below(7);
    (height + roughness) as i16 - 503
}

// Draws all samples, row by row.
pub(crate) fn draw_samples(
    alloc: Global,
    lattice: &[u16],
    seed: u64,
    generator: &mut Generator,
) -> Result<Vec<i16>, AllocError>
    requires lattice { lattice.now ≡ lattice_heights seed }
    requires state { generator.old.state ≡ state_after seed 676 }
    ensures samples { IfOk result (λ samples. samples.items ≡ first_samples seed 1442401) }
    ensures next { OnOk result (generator.new.state ≡ state_after seed 1443077) }
{
    let mut samples = Vec::with_capacity(alloc, 1442401)?;
    for place in 0..1442401u32 {
        samples.push(draw_sample(lattice, seed, generator, place))?;
    }
    Ok(samples)
}
