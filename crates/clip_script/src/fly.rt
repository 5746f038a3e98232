//! Fly scripts.

ghost use Rattle.std.specs.Prelude.{◌≡◌, ◌≤◌, ◌⊎◌, All, Ok, Err, IfOk, IfErr, IfSome, vec_len, None, Some};
ghost use Rattle.clip_script.specs.Lines.{words_after};
ghost use Rattle.clip_script.specs.Ranges.{AreSizes, IsFlown};
ghost use Rattle.clip_script.specs.Scripts.{alone, flight_of, flown, fly_named, fly_of, fly_view};

use crate::cut::{first_word, next_word};
use crate::fault::ScriptFault;
use crate::lines::{Grammar, read_all};
use crate::numbers::place_of;
use crate::sizes::{count_lines, read_size};
use plan_model::FlyLine;
use std::alloc::Global;

/// A fly script: the lines of a flight.
#[derive(Drop)]
pub struct FlyScript {
    /// The size of the grids: 2^k − 1 vertices a side; from 4 to 8.
    pub k: u8,
    /// The number of levels, from 1 to 12.
    pub levels: u8,
    /// The lines, in their order.
    pub lines: Vec<FlyLine>,
}

// The lines of a fly script.
#[derive(Drop)]
struct FlyLines;

// A move.
fn flown(rest: &[u8]) -> Option<FlyLine>
    ensures value { result ≡ flown (words_after rest.now) }
    ensures range { IfSome result IsFlown }
{
    let place = place_of(rest)?;
    Some(FlyLine::Move {
        x: place.x,
        y: place.y,
        a: place.a,
    })
}

// A line that is a word alone.
fn alone(line: FlyLine, rest: &[u8]) -> Option<FlyLine>
    ensures value { result ≡ alone line (words_after rest.now) }
{
    match next_word(rest) {
        None => Some(line),
        Some(_) => None,
    }
}

// A line of a flight, by its first word and what stands behind it.
#[tactic(auto, unfolding(crate::specs::Scripts::fly_named))]
fn fly_named(name: &[u8], rest: &[u8]) -> Option<FlyLine>
    ensures value { result ≡ fly_named name.now (words_after rest.now) }
    ensures range { IfSome result IsFlown }
{
    if name == b"move".as_slice() {
        flown(rest)
    } else if name == b"frame".as_slice() {
        alone(FlyLine::Frame, rest)
    } else if name == b"settle".as_slice() {
        alone(FlyLine::Settle, rest)
    } else {
        None
    }
}

impl Grammar<FlyLine> for FlyLines {
    ghost says = { λ _ line. fly_of line };

    ghost fits = { λ _ line. IsFlown line };

    #[tactic(auto, unfolding(crate::specs::Scripts::fly_of))]
    fn read(&self, line: &[u8]) -> Option<FlyLine> {
        let word = first_word(line);
        fly_named(word.front, word.rest)
    }
}

/// The fly script that these bytes are. Its faults are those of [`read_play`](crate::read_play).
pub fn read_fly(alloc: Global, bytes: &[u8]) -> Result<FlyScript, ScriptFault>
    ensures script { IfOk result (λ script. flight_of bytes.now ≡ Ok (fly_view script)) }
    ensures sizes { IfOk result (λ script. AreSizes script.k script.levels) }
    ensures lines { IfOk result (λ script. All IsFlown script.lines.items) }
    ensures few { IfOk result (λ script. vec_len script.lines ≤ 1048577) }
    ensures fault { IfErr result (λ fault. (fault ≡ ScriptFault.NoMemory) ⊎ (flight_of bytes.now ≡ Err fault)) }
{
    count_lines(bytes)?;
    let size = read_size(bytes)?;
    let lines = read_all(alloc, &FlyLines, size.left)?;
    Ok(FlyScript {
        k: size.said.first as u8,
        levels: size.said.second as u8,
        lines,
    })
}
