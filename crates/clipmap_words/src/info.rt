//! The words of `info`.
ghost use Rattle.std.specs.Prelude.{◌≡◌, map, string_bytes, IfSome};
ghost use Rattle.std.specs.Option.{option_map};
ghost use Rattle.clipmap_words.specs.Info.{IsInfoInRange, info_of, info_view};

use crate::names::is_inputs;

/// The words `info INPUT+`, read.
#[derive(Clone, Copy)]
pub struct InfoWords<'a> {
    /// The names of the files to read.
    pub inputs: &'a [String],
}

// The words after `info`, read. `None` exactly where they are no inputs.
#[tactic(auto, unfolding(crate::specs::Info::info_of))]
pub(crate) fn read_info<'a>(words: &'a [String]) -> Option<InfoWords<'a>>
    ensures value { option_map info_view result ≡ info_of (map string_bytes words.now) }
    ensures in_range { IfSome result (λ info. IsInfoInRange (info_view info)) }
{
    if !is_inputs(words) {
        return None;
    }
    Some(InfoWords { inputs: words })
}
