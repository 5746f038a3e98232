//! Bytes of a store that aren't those of heights: its header, and the lengths of its blocks.

ghost use Rattle.std.specs.Prelude.{◌≡◌, ◌<◌, ◌++◌, length, OnOk, IfOk};
ghost use Rattle.store_model.specs.Format.{IsVersion, head_bytes, entry};
ghost use Rattle.store_model.specs.Restored.{head_of};

use height_pyramid::Grid;
use rice_residuals::NoMemory;
use std::alloc::Global;

// Puts bytes behind those that are there.
pub(crate) fn append(out: &mut Vec<u8>, bytes: &[u8]) -> Result<(), NoMemory>
    ensures { OnOk result (out.new.items ≡ out.old.items ++ bytes.now) }
{
    if out.extend_from_slice(bytes).is_err() {
        return Err(NoMemory);
    }
    Ok(())
}

// Puts the length of a block, in two bytes, the high one first, and the block.
#[tactic(auto, unfolding(store_model::specs::Format::entry))]
pub(crate) fn append_entry(out: &mut Vec<u8>, content: &[u8]) -> Result<(), NoMemory>
    requires { length content.now < 65536 }
    ensures { OnOk result (out.new.items ≡ out.old.items ++ entry content.now) }
{
    let length = content.len() as u16;
    append(out, &length.to_be_bytes())?;
    append(out, content)
}

// The header of a grid's store: 13 bytes in version 1, and one more, the step, in version 2.
#[tactic(auto, unfolding(store_model::specs::Format::head_bytes))]
pub(crate) fn head(
    alloc: Global,
    grid: &Grid,
    version: u8,
    levels: u8,
    step: u8,
) -> Result<Vec<u8>, NoMemory>
    requires { IsVersion version step }
    ensures { IfOk result (λ bytes. bytes.items ≡ head_bytes (head_of version grid.now levels step)) }
{
    let mut out = Vec::new(alloc);
    append(&mut out, &[b'G', b'C', b'T', b'0' + version])?;
    append(&mut out, &grid.width().to_be_bytes())?;
    append(&mut out, &grid.height().to_be_bytes())?;
    append(&mut out, &[levels])?;
    if version == 2 {
        append(&mut out, &[step])?;
    }
    Ok(out)
}
