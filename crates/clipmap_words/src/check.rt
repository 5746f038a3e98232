//! The words of `check`.
ghost use Rattle.std.specs.Prelude.{◌≡◌, map, string_bytes};
ghost use Rattle.std.specs.Option.{option_map};
ghost use Rattle.clipmap_words.specs.Check.{check_of, check_view};

use crate::names::is_name;

/// The words `check FILE`, read.
#[derive(Clone, Copy)]
pub struct CheckWords<'a> {
    /// The name of the file to judge.
    pub file: &'a str,
}

// The words after `check`, read. `None` exactly where they are no one name.
#[tactic(auto, unfolding(crate::specs::Check::check_of))]
pub(crate) fn read_check<'a>(words: &'a [String]) -> Option<CheckWords<'a>>
    ensures value { option_map check_view result ≡ check_of (map string_bytes words.now) }
{
    let [file] = words else {
        return None;
    };
    if !is_name(file.as_str()) {
        return None;
    }
    Some(CheckWords {
        file: file.as_str(),
    })
}
