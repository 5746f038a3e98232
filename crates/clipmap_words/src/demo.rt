//! The words of `demo`.
ghost use Rattle.std.specs.Prelude.{◌≡◌, map, string_bytes};
ghost use Rattle.std.specs.Option.{option_map};
ghost use Rattle.clipmap_words.specs.Demo.{demo_of, demo_view};

use number_words::natural;

/// The words `demo SEED`, read.
#[derive(Clone, Copy)]
pub struct DemoWords {
    /// The seed.
    pub seed: u64,
}

// The words after `demo`, read. `None` exactly where they are no one number of 64 bits.
#[tactic(auto, unfolding(crate::specs::Demo::demo_of))]
pub(crate) fn read_demo(words: &[String]) -> Option<DemoWords>
    ensures value { option_map demo_view result ≡ demo_of (map string_bytes words.now) }
{
    let [seed] = words else {
        return None;
    };
    let seed = natural(seed.as_str(), 0, u64::MAX)?;
    Some(DemoWords { seed })
}
