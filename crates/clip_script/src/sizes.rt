//! The sizes that every script begins with.

ghost use Rattle.std.specs.Prelude.{◌≡◌, ◌+◌, ◌<◌, ◌≤◌, Ok, IfOk, IfErr, OnOk, OnErr, length};
ghost use Rattle.clip_script.specs.Lines.{lines};
ghost use Rattle.clip_script.specs.Reading.{IsStop, opened, opened_as};
ghost use Rattle.clip_script.specs.Ranges.{AreSizes};
ghost use Rattle.clip_script.specs.Scripts.{size_of};

use crate::cut::first_word;
use crate::fault::{LINE_LIMIT, ScriptFault};
use crate::lines::{Grammar, Left, Opening, line_count, read_opening};
use crate::numbers::{Pair, Ranges, two_numbers};

// The lines that say the sizes of a script.
struct SizeLine;

impl Grammar<Pair> for SizeLine {
    ghost says = { λ _ line. size_of line };

    ghost fits = { λ _ sizes. AreSizes sizes.first sizes.second };

    #[tactic(auto, unfolding(crate::specs::Scripts::size_of))]
    fn read(&self, line: &[u8]) -> Option<Pair> {
        let word = first_word(line);
        if word.front != b"size".as_slice() {
            return None;
        }
        let ranges = Ranges {
            first: (4, 8),
            second: (1, 12),
        };
        two_numbers(word.rest, ranges)
    }
}

// Refuses a script of too many lines.
pub(crate) fn count_lines(bytes: &[u8]) -> Result<(), ScriptFault>
    ensures few { OnOk result (length (lines bytes.now) ≤ 1048577) }
    ensures many { IfErr result (λ fault. fault ≡ ScriptFault.TooMany (length (lines bytes.now))) }
    ensures over { OnErr result (1048577 < length (lines bytes.now)) }
{
    let lines = line_count(bytes);
    if lines > LINE_LIMIT {
        return Err(ScriptFault::TooMany { lines });
    }
    Ok(())
}

// The sizes of a script, and its other lines.
pub(crate) fn read_size(bytes: &[u8]) -> Result<Opening<'_, Pair>, ScriptFault>
    requires few { length (lines bytes.now) ≤ 1048577 }
    ensures said { IfOk result (λ opening. opened size_of 0 (lines bytes.now) ≡ Ok (opened_as opening)) }
    ensures few { IfOk result (λ opening. opening.left.before + length (lines opening.left.text.now) ≤ 1048577) }
    ensures sizes { IfOk result (λ opening. AreSizes opening.said.first opening.said.second) }
    ensures stop { IfErr result (IsStop (opened size_of 0 (lines bytes.now))) }
{
    let left = Left {
        before: 0,
        text: bytes,
    };
    read_opening(&SizeLine, left)
}
