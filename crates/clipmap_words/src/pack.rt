//! The words of `pack`.
ghost use Rattle.std.specs.Prelude.{◌≡◌, map, string_bytes, IfSome};
ghost use Rattle.std.specs.Option.{option_map};
ghost use Rattle.clipmap_words.specs.Pack.{IsPackInRange, pack_of, pack_view};

use crate::names::{is_inputs, is_name};
use number_words::natural;

/// The words `pack L OUT INPUT+`, read.
#[derive(Clone, Copy)]
pub struct PackWords<'a> {
    /// The number of levels, from 1 to 12.
    pub levels: u8,
    /// The name of the store to write.
    pub out: &'a str,
    /// The names of the files to read.
    pub inputs: &'a [String],
}

// The words after `pack`, read. `None` exactly where they aren't well spelled and in range.
#[tactic(auto, unfolding(crate::specs::Pack::pack_of))]
pub(crate) fn read_pack<'a>(words: &'a [String]) -> Option<PackWords<'a>>
    ensures value { option_map pack_view result ≡ pack_of (map string_bytes words.now) }
    ensures in_range { IfSome result (λ pack. IsPackInRange (pack_view pack)) }
{
    let [levels, out, inputs @ ..] = words else {
        return None;
    };
    let levels = natural(levels.as_str(), 1, 12)?;
    if !is_name(out.as_str()) || !is_inputs(inputs) {
        return None;
    }
    Some(PackWords {
        levels: levels as u8,
        out: out.as_str(),
        inputs,
    })
}
