//! The flight over the demo's terrain.

ghost use Rattle.std.specs.Prelude.{◌≡◌, ◌<◌, ◌≤◌, ◌+◌, ◌++◌, ◌*◌, All, OnOk, IfOk, vec_len};
ghost use Rattle.demo_flight.specs.Generator.{next_state, state_after};
ghost use Rattle.demo_flight.specs.Demo.{column_after, demo_lines, leg_to, moved, row_after};
ghost use Rattle.clip_script.specs.Ranges.{IsFlown};

use crate::generator::Generator;
use clip_script::FlyLine;
use std::alloc::{AllocError, Global};

// Where the viewer is, in samples.
#[derive(Clone, Copy)]
struct Place {
    x: u32,
    y: u32,
}

// A coordinate after one more move, of −32 to 32 samples, kept from 0 to 1200.
#[tactic(auto, unfolding(crate::specs::Demo::moved))]
fn moved(generator: &mut Generator, seed: u64, number: u32, at: u32) -> u32
    requires number { number < 128 }
    requires at { at ≤ 1200 }
    requires state { generator.old.state ≡ state_after seed (1443077 + number) }
    ensures value { result ≡ moved seed number at }
    ensures small { result ≤ 1200 }
    ensures next { generator.new.state ≡ next_state generator.old.state }
{
    let _ = (seed, number);
    (at + generator.below(65)).saturating_sub(32).min(1200)
}

// Appends a move, a frame and a settling.
#[tactic(auto, unfolding(crate::specs::Demo::leg_to))]
fn add_leg(lines: &mut Vec<FlyLine>, place: Place) -> Result<(), AllocError>
    requires { place.x ≤ 1200 × place.y ≤ 1200 }
    ensures lines { OnOk result (lines.new.items ≡ lines.old.items ++ leg_to place.x place.y) }
{
    lines.push(FlyLine::Move {
        x: place.x as i32,
        y: place.y as i32,
        a: 0,
    })?;
    lines.push(FlyLine::Frame)?;
    lines.push(FlyLine::Settle)?;
    Ok(())
}

// Draws the lines of the flight.
pub(crate) fn draw_lines(
    alloc: Global,
    seed: u64,
    generator: &mut Generator,
) -> Result<Vec<FlyLine>, AllocError>
    requires { generator.old.state ≡ state_after seed 1443077 }
    ensures lines { IfOk result (λ lines. lines.items ≡ demo_lines seed) }
    ensures ranges { IfOk result (λ lines. All IsFlown lines.items) }
{
    let mut lines = Vec::with_capacity(alloc, 195)?;
    lines.push(FlyLine::Move {
        x: 600,
        y: 600,
        a: 0,
    })?;
    lines.push(FlyLine::Settle)?;
    lines.push(FlyLine::Frame)?;
    let mut place = Place { x: 600, y: 600 };
    for moves in 0..64u32 {
        let x = moved(generator, seed, 2 * moves, place.x);
        let y = moved(generator, seed, 2 * moves + 1, place.y);
        place = Place { x, y };
        add_leg(&mut lines, place)?;
    }
    Ok(lines)
}
