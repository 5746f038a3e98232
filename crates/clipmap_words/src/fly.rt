//! The words of `fly`.
ghost use Rattle.std.specs.Prelude.{◌≡◌, map, string_bytes, IfSome};
ghost use Rattle.std.specs.Option.{option_map};
ghost use Rattle.clipmap_words.specs.Fly.{IsFlyInRange, fly_of, fly_view};

use crate::names::{is_inputs, is_name};
use number_words::natural;

/// The words `fly N SCRIPT OUT INPUT+`, read.
#[derive(Clone, Copy)]
pub struct FlyWords<'a> {
    /// How many passes work, from 1 to 15.
    pub workers: u8,
    /// The name of the script.
    pub script: &'a str,
    /// The front of the names of the frames to write.
    pub out: &'a str,
    /// The names of the files to read.
    pub inputs: &'a [String],
}

// The words after `fly`, read. `None` exactly where they aren't well spelled and in range.
#[tactic(auto, unfolding(crate::specs::Fly::fly_of))]
pub(crate) fn read_fly<'a>(words: &'a [String]) -> Option<FlyWords<'a>>
    ensures value { option_map fly_view result ≡ fly_of (map string_bytes words.now) }
    ensures in_range { IfSome result (λ fly. IsFlyInRange (fly_view fly)) }
{
    let [workers, script, out, inputs @ ..] = words else {
        return None;
    };
    let workers = natural(workers.as_str(), 1, 15)?;
    if !is_name(script.as_str()) || !is_name(out.as_str()) {
        return None;
    }
    if !is_inputs(inputs) {
        return None;
    }
    Some(FlyWords {
        workers: workers as u8,
        script: script.as_str(),
        out: out.as_str(),
        inputs,
    })
}
