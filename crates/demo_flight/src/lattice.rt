//! The lattice of heights.

ghost use Rattle.std.specs.Prelude.{ℕ, ◌≡◌, ◌<◌, ◌≤◌, ◌+◌, ◌*◌, OnOk, IfOk, map, vec_len};
ghost use Rattle.std.specs.List.{range_with_len};
ghost use Rattle.demo_flight.specs.Generator.{draw, state_after};
ghost use Rattle.demo_flight.specs.Demo.{between, lattice_height};
ghost use Rattle.demo_flight.specs.Parts.{lattice_draw, lattice_heights};

use crate::generator::Generator;
use std::alloc::{AllocError, Global};

// Draws the heights of the lattice's points above −500 metres, row by row.
pub(crate) fn draw_lattice(
    alloc: Global,
    seed: u64,
    generator: &mut Generator,
) -> Result<Vec<u16>, AllocError>
    requires { generator.old.state ≡ seed }
    ensures heights { IfOk result (λ heights. heights.items ≡ lattice_heights seed) }
    ensures state { OnOk result (generator.new.state ≡ state_after seed 676) }
{
    let mut heights = Vec::with_capacity(alloc, 676)?;
    for number in 0..676u32 {
        let _ = number;
        heights.push(generator.below(2001) as u16)?;
    }
    Ok(heights)
}

// The height of a lattice point above −500 metres.
pub(crate) fn height_at(heights: &[u16], seed: u64, column: u32, row: u32) -> u32
    requires lattice { heights.now ≡ lattice_heights seed }
    requires column { column < 26 }
    requires row { row < 26 }
    ensures value { result ≡ lattice_height seed column row }
    ensures small { result ≤ 2000 }
{
    let _ = seed;
    heights[(26 * row + column) as usize] as u32
}

// 48 times the height at `part` forty-eighths of the way from one height to another.
#[tactic(auto, unfolding(crate::specs::Demo::between))]
pub(crate) fn between(part: u32, first: u32, second: u32) -> u32
    requires part { part ≤ 48 }
    requires first { first ≤ 96000 }
    requires second { second ≤ 96000 }
    ensures value { result ≡ between part first second }
    ensures small { (most : ℕ) → first ≤ most → second ≤ most → result ≤ 48 * most }
{
    (48 - part) * first + part * second
}
