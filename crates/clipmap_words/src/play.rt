//! The words of `play`.
ghost use Rattle.std.specs.Prelude.{◌≡◌, map, string_bytes, IfSome};
ghost use Rattle.std.specs.Option.{option_map};
ghost use Rattle.clipmap_words.specs.Play.{IsPlayInRange, play_of, play_view};

use crate::names::{is_inputs, is_name};

/// The words `play SCRIPT OUT INPUT+`, read.
#[derive(Clone, Copy)]
pub struct PlayWords<'a> {
    /// The name of the script.
    pub script: &'a str,
    /// The front of the names of the frames to write.
    pub out: &'a str,
    /// The names of the files to read.
    pub inputs: &'a [String],
}

// The words after `play`, read. `None` exactly where they aren't names and inputs.
#[tactic(auto, unfolding(crate::specs::Play::play_of))]
pub(crate) fn read_play<'a>(words: &'a [String]) -> Option<PlayWords<'a>>
    ensures value { option_map play_view result ≡ play_of (map string_bytes words.now) }
    ensures in_range { IfSome result (λ play. IsPlayInRange (play_view play)) }
{
    let [script, out, inputs @ ..] = words else {
        return None;
    };
    if !is_name(script.as_str()) || !is_name(out.as_str()) {
        return None;
    }
    if !is_inputs(inputs) {
        return None;
    }
    Some(PlayWords {
        script: script.as_str(),
        out: out.as_str(),
        inputs,
    })
}
