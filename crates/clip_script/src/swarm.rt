//! Swarm scripts.

ghost use Rattle.std.specs.Prelude.{◌≡◌, ◌⊎◌, ◌≤◌, All, Ok, Err, IfOk, IfErr, IfSome, vec_len};
ghost use Rattle.clip_script.specs.Lines.{words_after};
ghost use Rattle.clip_script.specs.Ranges.{AreSizes, IsMove, IsWork};
ghost use Rattle.clip_script.specs.Scripts.{gone, move_of, swarm_of, swarm_view, work_of};

use crate::cut::first_word;
use crate::fault::ScriptFault;
use crate::lines::{Grammar, read_all, read_opening};
use crate::numbers::{Pair, Ranges, place_of, two_numbers};
use crate::sizes::{count_lines, read_size};
use std::alloc::Global;

/// A swarm script: the work of each pass, and the moves.
#[derive(Drop)]
pub struct SwarmScript {
    /// The size of the grids: 2^k − 1 vertices a side; from 4 to 8.
    pub k: u8,
    /// The number of levels, from 1 to 12.
    pub levels: u8,
    /// How many claims each worker makes, 0 to 100000.
    pub claims: u32,
    /// How many frames each renderer begins, 0 to 1000.
    pub begins: u32,
    /// The moves in their order: the viewer's column and row, in samples, and its altitude.
    pub moves: Vec<(i32, i32, u32)>,
}

// The line that says the work of each pass.
#[derive(Drop)]
struct WorkLine;

impl Grammar<Pair> for WorkLine {
    ghost says = { λ _ line. work_of line };

    ghost fits = { λ _ work. IsWork work.first work.second };

    #[tactic(auto, unfolding(crate::specs::Scripts::work_of))]
    fn read(&self, line: &[u8]) -> Option<Pair> {
        let word = first_word(line);
        if word.front != b"work".as_slice() {
            return None;
        }
        let ranges = Ranges {
            first: (0, 100_000),
            second: (0, 1000),
        };
        two_numbers(word.rest, ranges)
    }
}

// The moves of a swarm script.
#[derive(Drop)]
struct MoveLines;

// A move, by the words behind its first one.
fn gone(rest: &[u8]) -> Option<(i32, i32, u32)>
    ensures value { result ≡ gone (words_after rest.now) }
    ensures range { IfSome result IsMove }
{
    let place = place_of(rest)?;
    Some((place.x, place.y, place.a))
}

impl Grammar<(i32, i32, u32)> for MoveLines {
    ghost says = { λ _ line. move_of line };

    ghost fits = { λ _ place. IsMove place };

    #[tactic(auto, unfolding(crate::specs::Scripts::move_of))]
    fn read(&self, line: &[u8]) -> Option<(i32, i32, u32)> {
        let word = first_word(line);
        if word.front != b"move".as_slice() {
            return None;
        }
        gone(word.rest)
    }
}

/// The swarm script that these bytes are. Its faults are those of [`read_play`](crate::read_play).
pub fn read_swarm(alloc: Global, bytes: &[u8]) -> Result<SwarmScript, ScriptFault>
    ensures script { IfOk result (λ script. swarm_of bytes.now ≡ Ok (swarm_view script)) }
    ensures sizes { IfOk result (λ script. AreSizes script.k script.levels) }
    ensures work { IfOk result (λ script. IsWork script.claims script.begins) }
    ensures moves { IfOk result (λ script. All IsMove script.moves.items) }
    ensures few { IfOk result (λ script. vec_len script.moves ≤ 1048577) }
    ensures fault { IfErr result (λ fault. (fault ≡ ScriptFault.NoMemory) ⊎ (swarm_of bytes.now ≡ Err fault)) }
{
    count_lines(bytes)?;
    let size = read_size(bytes)?;
    let work = read_opening(&WorkLine, size.left)?;
    let moves = read_all(alloc, &MoveLines, work.left)?;
    Ok(SwarmScript {
        k: size.said.first as u8,
        levels: size.said.second as u8,
        claims: work.said.first as u32,
        begins: work.said.second as u32,
        moves,
    })
}
