//! Names in words.
ghost use Rattle.std.specs.Prelude.{◌≡◌, ◌==◌, not, map, string_bytes};
ghost use Rattle.std.specs.List.{list_all, list_any};
ghost use Rattle.clipmap_words.specs.Names.{is_name, is_store, is_inputs};

/// The most bytes that a name may have.
pub const NAME_LIMIT: usize = 200;

/// The most inputs that a command takes.
pub const INPUTS_LIMIT: usize = 64;

// Whether the word is a name: 1 to [`NAME_LIMIT`] bytes without a zero byte.
pub(crate) fn is_name(word: &str) -> bool
    ensures value { result ≡ is_name word.now }
{
    if word.is_empty() || word.len() > NAME_LIMIT {
        return false;
    }
    has_no_zero(word.as_bytes())
}

fn has_no_zero(bytes: &[u8]) -> bool
    ensures value { result ≡ list_all (λ b. not (b == 0)) bytes.now }
{
    bytes.iter().all(|byte| *byte != 0)
}

/// Whether the name is that of a store: it ends in `.gct`, in either case of the letters.
pub fn is_store_name(word: &str) -> bool
    ensures value { result ≡ is_store word.now }
{
    let bytes = word.as_bytes();
    let tail = &bytes[bytes.len().saturating_sub(4)..];
    tail.eq_ignore_ascii_case(b".gct")
}

// Whether the words are inputs: one store, or 1 to [`INPUTS_LIMIT`] names of which none is a store's.
pub(crate) fn is_inputs(words: &[String]) -> bool
    ensures value { result ≡ is_inputs (map string_bytes words.now) }
{
    if words.is_empty() || words.len() > INPUTS_LIMIT || !are_names(words) {
        return false;
    }
    words.len() == 1 || !has_store(words)
}

fn are_names(words: &[String]) -> bool
    ensures value { result ≡ list_all (λ word. is_name (string_bytes word)) words.now }
{
    words.iter().all(|word| is_name(word.as_str()))
}

fn has_store(words: &[String]) -> bool
    ensures value { result ≡ list_any (λ word. is_store (string_bytes word)) words.now }
{
    words.iter().any(|word| is_store_name(word.as_str()))
}
