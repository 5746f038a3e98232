//! The words of `swarm`, the other top call.
ghost use Rattle.std.specs.Prelude.{◌≡◌, map, string_bytes, IfSome};
ghost use Rattle.std.specs.Option.{option_map};
ghost use Rattle.clipmap_words.specs.Swarm.{IsSwarmInRange, names_swarm, swarm_of, swarm_view, swarm_words_of};

use crate::names::{is_inputs, is_name};
use number_words::natural;

/// The words `swarm N R SCRIPT OUT INPUT+`, read.
#[derive(Clone, Copy)]
pub struct SwarmWords<'a> {
    /// How many passes work, from 1 to 15.
    pub workers: u8,
    /// How many passes draw, from 0 to 14. With those that work they are at most 15.
    pub renderers: u8,
    /// The name of the script.
    pub script: &'a str,
    /// The front of the names of the frames to write.
    pub out: &'a str,
    /// The names of the files to read.
    pub inputs: &'a [String],
}

// The words after `swarm`, read. `None` exactly where they aren't well spelled and in range.
#[tactic(auto, unfolding(crate::specs::Swarm::swarm_of))]
fn read_named<'a>(words: &'a [String]) -> Option<SwarmWords<'a>>
    ensures value { option_map swarm_view result ≡ swarm_of (map string_bytes words.now) }
    ensures in_range { IfSome result (λ swarm. IsSwarmInRange (swarm_view swarm)) }
{
    let [workers, renderers, script, out, inputs @ ..] = words else {
        return None;
    };
    let workers = natural(workers.as_str(), 1, 15)?;
    let renderers = natural(renderers.as_str(), 0, 14)?;
    if workers + renderers > 15 {
        return None;
    }
    if !is_name(script.as_str()) || !is_name(out.as_str()) {
        return None;
    }
    if !is_inputs(inputs) {
        return None;
    }
    Some(SwarmWords {
        workers: workers as u8,
        renderers: renderers as u8,
        script: script.as_str(),
        out: out.as_str(),
        inputs,
    })
}

/// The swarm that the words are: those after the program's name. `None` exactly where they are none.
pub fn read_swarm<'a>(words: &'a [String]) -> Option<SwarmWords<'a>>
    ensures value { option_map swarm_view result ≡ swarm_words_of (map string_bytes words.now) }
    ensures in_range { IfSome result (λ swarm. IsSwarmInRange (swarm_view swarm)) }
{
    let [name, words @ ..] = words else {
        return None;
    };
    if name.as_str() == "swarm" {
        return read_named(words);
    }
    None
}

/// Whether the words are for the top call `swarm`: it is the first of them.
pub fn is_swarm(words: &[String]) -> bool
    ensures value { result ≡ names_swarm (map string_bytes words.now) }
{
    let [name, ..] = words else {
        return false;
    };
    name.as_str() == "swarm"
}
