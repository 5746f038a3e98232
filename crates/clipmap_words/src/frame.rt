//! The words of `frame`.
ghost use Rattle.std.specs.Prelude.{◌≡◌, map, string_bytes, IfSome};
ghost use Rattle.std.specs.Option.{option_map};
ghost use Rattle.clipmap_words.specs.Frame.{IsFrameInRange, frame_of, frame_view};

use crate::names::{is_inputs, is_name};
use crate::numbers::coordinate;
use number_words::natural;

/// The words `frame K L X Y OUT INPUT+`, read.
#[derive(Clone, Copy)]
pub struct FrameWords<'a> {
    /// The size of the grids: 2^k − 1 vertices a side; from 4 to 8.
    pub k: u8,
    /// The number of levels, from 1 to 12.
    pub levels: u8,
    /// The viewer's column, in samples.
    pub x: i32,
    /// The viewer's row, in samples.
    pub y: i32,
    /// The name of the file to write.
    pub out: &'a str,
    /// The names of the files to read.
    pub inputs: &'a [String],
}

// The words after `frame`, read. `None` exactly where they aren't well spelled and in range.
#[tactic(auto, unfolding(crate::specs::Frame::frame_of))]
pub(crate) fn read_frame<'a>(words: &'a [String]) -> Option<FrameWords<'a>>
    ensures value { option_map frame_view result ≡ frame_of (map string_bytes words.now) }
    ensures in_range { IfSome result (λ frame. IsFrameInRange (frame_view frame)) }
{
    let [k, levels, x, y, out, inputs @ ..] = words else {
        return None;
    };
    let k = natural(k.as_str(), 4, 8)?;
    let levels = natural(levels.as_str(), 1, 12)?;
    let x = coordinate(x.as_str())?;
    let y = coordinate(y.as_str())?;
    if !is_name(out.as_str()) || !is_inputs(inputs) {
        return None;
    }
    Some(FrameWords {
        k: k as u8,
        levels: levels as u8,
        x,
        y,
        out: out.as_str(),
        inputs,
    })
}
