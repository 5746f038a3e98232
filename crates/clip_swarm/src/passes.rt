//! The passes of a run.

ghost use Rattle.std.specs.Prelude.{◌≡◌, ◌+◌, ◌<◌, ◌≤◌, ◌++◌, ◌∷◌, [], IfOk, OnOk, length};
ghost use Rattle.clip_gate.specs.Passes.{first_pass};
ghost use Rattle.swarm_passes.specs.Playing.{left_from, IsStarted, AreStarted, FirstLeaves};

use clip_gate::{Clip, Pass};
use obj_frames::NoMemory;
use std::alloc::Global;

// Puts an item behind the others.
pub(crate) fn put<T: Drop>(items: &mut Vec<T>, item: T) -> Result<(), NoMemory>
    ensures { OnOk result (items.new.items ≡ items.old.items ++ item ∷ []) }
{
    match items.push(item) {
        Ok(()) => Ok(()),
        Err(_) => Err(NoMemory),
    }
}

// One pass more is split off the first one.
fn split_off(clip: &Clip, first: &mut Pass, number: u8) -> Pass
    requires low { number < 16 }
    requires first { IsStarted clip.now 0 first.old }
    requires left { first.old.left ≡ left_from number }
    ensures first { IsStarted clip.now 0 first.new }
    ensures left { first.new.left ≡ left_from (number + 1) }
    ensures other { IsStarted clip.now number result }
{
    match clip.split(first) {
        Ok(other) => other,
        Err(_) => unreachable!(),
    }
}

// So many passes that are split off the first one, in the order of their numbers.
fn others_of(
    alloc: Global,
    clip: &Clip,
    first: &mut Pass,
    others: u8,
) -> Result<Vec<Pass>, NoMemory>
    requires few { others ≤ 15 }
    requires first { first.old ≡ first_pass clip.now }
    ensures first { IsStarted clip.now 0 first.new }
    ensures left { OnOk result (first.new.left ≡ left_from (1 + others)) }
    ensures count { IfOk result (λ all. length all.items ≡ others) }
    ensures others { IfOk result (λ all. AreStarted clip.now 1 all.items) }
{
    let mut all = Vec::new(alloc);
    for made in 0..others {
        let other = split_off(clip, first, made + 1);
        put(&mut all, other)?;
    }
    Ok(all)
}

// The first pass of a clip, and so many others that are split off it, in the order of their numbers.
pub(crate) fn all_passes(
    alloc: Global,
    clip: &Clip,
    first: Pass,
    others: u8,
) -> Result<Vec<Pass>, NoMemory>
    requires few { others ≤ 15 }
    requires first { first ≡ first_pass clip.now }
    ensures count { IfOk result (λ all. length all.items ≡ 1 + others) }
    ensures started { IfOk result (λ all. AreStarted clip.now 0 all.items) }
    ensures left { IfOk result (λ all. FirstLeaves (left_from (1 + others)) all.items) }
{
    let mut first = first;
    let mut rest = others_of(alloc, clip, &mut first, others)?;
    let mut all = Vec::new(alloc);
    put(&mut all, first)?;
    all.append(&mut rest)?;
    Ok(all)
}
