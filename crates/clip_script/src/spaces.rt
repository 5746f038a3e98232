//! The half-spaces of a view.

ghost use Rattle.std.specs.Prelude.{◌≡◌, ◌∷◌, IfSome};
ghost use Rattle.std.specs.Option.{option_map};
ghost use Rattle.region_cull.specs.Views.{IsHalfSpace};
ghost use Rattle.clip_script.specs.Lines.{words_after};
ghost use Rattle.clip_script.specs.Steps.{space_of, space_said, spaces_of};

use crate::cut::{Cut, next_word};
use number_words::{whole_bytes, wide_whole_bytes};
use region_cull::{HALF_SPACES, HalfSpace, View};

// The greatest factor of a half-space; the least one is its negative.
const FACTOR_LIMIT: u32 = 1 << 20;

// The greatest last number of a half-space; the least one is its negative.
const OFFSET_LIMIT: u64 = 1 << 40;

// A half-space, and what stands behind its words.
#[derive(Clone, Copy)]
struct Group<'a> {
    space: HalfSpace,
    rest: &'a [u8],
}

// A half-space `a b c d`, whose first word is given.
#[tactic(auto, unfolding(crate::specs::Steps::space_of))]
fn space_from(a: Cut<'_>) -> Option<Group<'_>>
    ensures value { option_map space_said result ≡ space_of (a.entry.front.now ∷ words_after a.entry.rest.now) }
    ensures limits { IfSome result (λ group. IsHalfSpace group.space) }
{
    let b = next_word(a.rest)?;
    let c = next_word(b.rest)?;
    let d = next_word(c.rest)?;
    let space = HalfSpace {
        a: whole_bytes(a.front, FACTOR_LIMIT)?,
        b: whole_bytes(b.front, FACTOR_LIMIT)?,
        c: whole_bytes(c.front, FACTOR_LIMIT)?,
        d: wide_whole_bytes(d.front, OFFSET_LIMIT)?,
    };
    Some(Group {
        space,
        rest: d.rest,
    })
}

// The view of up to six half-spaces, by the words behind a word.
pub(crate) fn view_of(words: &[u8]) -> Option<View>
    ensures value { result ≡ spaces_of 6 (words_after words.now) }
{
    let mut view = View::empty();
    let mut rest = words;
    'groups: for _seen in 0..HALF_SPACES {
        let word = match next_word(rest) {
            Some(word) => word,
            None => return Some(view),
        };
        let group = match space_from(word) {
            Some(group) => group,
            None => return None,
        };
        view.add(group.space);
        rest = group.rest;
    }
    match next_word(rest) {
        None => Some(view),
        Some(_) => None,
    }
}
