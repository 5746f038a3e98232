//! The line of a file that is no store.

ghost use Rattle.std.specs.Prelude.{◌≡◌, IfOk, string_bytes};
ghost use Rattle.terrain_lines.specs.Faults.{block_line, block_name, block_number, field_line, store_fault_line};

use rice_residuals::BlockFault;
use std::alloc::{AllocError, Global};
use store_model::{Field, StoreFault};

// The line of a field of the header.
fn field_line(alloc: Global, field: Field) -> Result<String, AllocError>
    ensures line { IfOk result (λ line. string_bytes line ≡ field_line field) }
{
    match field {
        Field::Width => format!(in alloc; "fault: store BadHeader width\n"),
        Field::Height => format!(in alloc; "fault: store BadHeader height\n"),
        Field::Samples => format!(in alloc; "fault: store BadHeader samples\n"),
        Field::Levels => format!(in alloc; "fault: store BadHeader levels\n"),
        Field::Step => format!(in alloc; "fault: store BadHeader step\n"),
    }
}

// What is wrong with the bytes of a block.
fn block_name(fault: BlockFault) -> &'static str
    ensures value { result.now ≡ block_name fault }
{
    match fault {
        BlockFault::CutShort { .. } => "CutShort",
        BlockFault::LongForm { .. } => "LongForm",
        BlockFault::TooWide { .. } => "TooWide",
        BlockFault::BadPadding { .. } => "BadPadding",
        BlockFault::Excess { .. } => "Excess",
    }
}

// The bit where it is, or how many bytes are too many.
fn block_number(fault: BlockFault) -> u32
    ensures value { result ≡ block_number fault }
{
    match fault {
        BlockFault::CutShort { bit }
        | BlockFault::LongForm { bit }
        | BlockFault::TooWide { bit }
        | BlockFault::BadPadding { bit } => bit,
        BlockFault::Excess { bytes } => bytes,
    }
}

// The line of a block.
fn block_line(
    alloc: Global,
    level: u8,
    bx: u32,
    by: u32,
    fault: BlockFault,
) -> Result<String, AllocError>
    ensures line { IfOk result (λ line. string_bytes line ≡ block_line level bx by fault) }
{
    let name = block_name(fault);
    let number = block_number(fault);
    format!(in alloc; "fault: store BadBlock {level} {bx} {by} {name} {number}\n")
}

/// The line that tells a user of the first fault of a file that is no store. Want of memory is no fault of the file and
/// has no line.
pub fn store_fault_line(alloc: Global, fault: StoreFault) -> Result<String, AllocError>
    ensures line { IfOk result (λ line. string_bytes line ≡ store_fault_line fault) }
{
    match fault {
        StoreFault::BadMagic => format!(in alloc; "fault: store BadMagic\n"),
        StoreFault::BadHeader { field } => field_line(alloc, field),
        StoreFault::CutShort { offset } => format!(in alloc; "fault: store CutShort {offset}\n"),
        StoreFault::BadBlock {
            level,
            bx,
            by,
            fault,
        } => block_line(alloc, level, bx, by, fault),
        StoreFault::OutOfRange { level, i, j, value } => {
            format!(in alloc; "fault: store OutOfRange {level} {i} {j} {value}\n")
        }
        StoreFault::Excess { offset } => format!(in alloc; "fault: store Excess {offset}\n"),
        StoreFault::NoMemory => Ok(String::new(alloc)),
    }
}
