//! A text in parts.

ghost use Rattle.std.specs.Prelude.{◌≡◌, ◌++◌, IfOk, flat_map};

use std::alloc::AllocError;

// A text in parts: the first, and those behind it, in their order.
#[derive(Drop)]
pub(crate) struct Texts {
    pub(crate) first: Vec<u8>,
    pub(crate) others: Vec<Vec<u8>>,
}

// Adds a text's parts behind those of another.
fn follow(texts: &mut Vec<Vec<u8>>, behind: Texts) -> Result<(), AllocError>
    ensures { IfOk result (λ none. flat_map (λ other. other.items) texts.new.items
        ≡ flat_map (λ other. other.items) texts.old.items
        ++ (behind.first.items ++ flat_map (λ other. other.items) behind.others.items)) }
{
    let Texts { first, mut others } = behind;
    texts.push(first)?;
    texts.append(&mut others)
}

// A text in parts, and another behind it.
pub(crate) fn followed(before: Texts, behind: Texts) -> Result<Texts, AllocError>
    ensures { IfOk result (λ new. new.first.items ++ flat_map (λ other. other.items) new.others.items
        ≡ (before.first.items ++ flat_map (λ other. other.items) before.others.items)
        ++ (behind.first.items ++ flat_map (λ other. other.items) behind.others.items)) }
{
    let Texts { first, mut others } = before;
    follow(&mut others, behind)?;
    Ok(Texts { first, others })
}

// The parts in one. Each is let go once it is appended.
pub(crate) fn joined(texts: Texts) -> Result<Vec<u8>, AllocError>
    ensures { IfOk result (λ text. text.items
        ≡ texts.first.items ++ flat_map (λ other. other.items) texts.others.items) }
{
    let Texts { first, others } = texts;
    let mut text = first;
    for other in others {
        text.extend_from_slice(other.as_slice())?;
    }
    Ok(text)
}
