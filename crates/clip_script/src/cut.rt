//! Lines cut out of a text, and words out of a line.

ghost use Rattle.std.specs.Prelude.{◌≡◌, ◌+◌, ◌<◌, ◌≤◌, ◌==◌, [], ◌∷◌, take, drop, length, MatchOption};
ghost use Rattle.std.specs.List.{position_or_len};
ghost use Rattle.clip_script.specs.Lines.{is_skipped, lines, words, words_after, IsNextWord};

// The front of a text, and what is left of it.
#[derive(Clone, Copy)]
pub(crate) struct Cut<'a> {
    // A line, or a word.
    pub(crate) front: &'a [u8],
    // The text behind it.
    pub(crate) rest: &'a [u8],
}

// The first place of a byte in a text, or the text's length.
fn place_of(text: &[u8], byte: u8) -> usize
    ensures value { result ≡ position_or_len (λ b. b == byte) text.now }
    ensures within { result ≤ length text.now }
{
    for (at, b) in text.iter().enumerate() {
        if *b == byte {
            return at;
        }
    }
    text.len()
}

// The text behind a place.
fn text_behind(text: &[u8], at: usize) -> &[u8]
    requires { at ≤ length text.now }
    ensures { result.now ≡ drop (at + 1) text.now }
{
    if at < text.len() {
        &text[at + 1..]
    } else {
        &[]
    }
}

// The first line of a text that isn't empty, and the text behind its line feed.
pub(crate) fn next_line(text: &[u8]) -> Cut<'_>
    requires { 0 < length text.now }
    ensures value { lines text.now ≡ result.front.now ∷ lines result.rest.now }
    ensures shorter { length result.rest.now < length text.now }
{
    let at = place_of(text, b'\n');
    Cut {
        front: &text[..at],
        rest: text_behind(text, at),
    }
}

// The first word of a line, and what stands behind it, with the space before it.
pub(crate) fn first_word(line: &[u8]) -> Cut<'_>
    ensures value { words line.now ≡ result.front.now ∷ words_after result.rest.now }
    ensures shorter { length result.rest.now ≤ length line.now }
{
    let at = place_of(line, b' ');
    Cut {
        front: &line[..at],
        rest: &line[at..],
    }
}

// The next word behind a word, where there is one.
pub(crate) fn next_word(rest: &[u8]) -> Option<Cut<'_>>
    ensures value { MatchOption result (rest.now ≡ []) (IsNextWord rest.now) }
{
    match rest {
        [] => None,
        [_, line @ ..] => Some(first_word(line)),
    }
}

// Whether a line is skipped.
pub(crate) fn is_skipped(line: &[u8]) -> bool
    ensures value { result ≡ is_skipped line.now }
{
    match line {
        [] => true,
        [first, ..] => *first == b'#',
    }
}
