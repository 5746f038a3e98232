//! Lines cut out of a text, and words out of a line.

ghost use Rattle.std.specs.Prelude.{◌≡◌, ◌+◌, ◌<◌, ◌≤◌, ◌==◌, [], ◌∷◌, length, IfSome, IfNone, MatchOption};
ghost use Rattle.std.specs.List.{position_or_len};
ghost use Rattle.mesh_lists.specs.Lines.{cut_line, parts_after, parts_at, whole_lines};

use memchr::memchr;

// The front of a text, and what is left of it.
#[derive(Clone, Copy)]
pub(crate) struct Cut<'a> {
    // A line, or a part of one.
    pub(crate) front: &'a [u8],
    // The text behind it.
    pub(crate) rest: &'a [u8],
}

// The first place of a byte in a text, or the text's length.
fn place_of(text: &[u8], byte: u8) -> usize
    ensures value { result ≡ position_or_len (λ b. b == byte) text.now }
    ensures within { result ≤ length text.now }
{
    for (at, b) in text.iter().enumerate() {
        if *b == byte {
            return at;
        }
    }
    text.len()
}

// The first line of a text, where it has a line feed, and the text behind that.
pub(crate) fn next_line(text: &[u8]) -> Option<Cut<'_>>
    ensures lines { MatchOption result (whole_lines text.now ≡ []) (λ cut. whole_lines text.now
        ≡ cut.front.now ∷ whole_lines cut.rest.now) }
    ensures end { MatchOption result (cut_line text.now ≡ text.now) (λ cut. cut_line text.now ≡ cut_line cut.rest.now) }
    ensures shorter { IfSome result (λ cut. length cut.rest.now < length text.now) }
{
    match memchr(b'\n', text) {
        None => None,
        Some(at) => Some(Cut {
            front: &text[..at],
            rest: &text[at + 1..],
        }),
    }
}

// The part before the first of these bytes, and what stands behind it, with the byte.
pub(crate) fn first_part(text: &[u8], byte: u8) -> Cut<'_>
    ensures value { parts_at byte text.now ≡ result.front.now ∷ parts_after byte result.rest.now }
{
    let at = place_of(text, byte);
    Cut {
        front: &text[..at],
        rest: &text[at..],
    }
}

// The next part behind a part, where there is one.
pub(crate) fn next_part(rest: &[u8], byte: u8) -> Option<Cut<'_>>
    ensures value { MatchOption result (parts_after byte rest.now ≡ []) (λ cut. parts_after byte rest.now
        ≡ cut.front.now ∷ parts_after byte cut.rest.now) }
{
    match rest {
        [] => None,
        [_, text @ ..] => Some(first_part(text, byte)),
    }
}
