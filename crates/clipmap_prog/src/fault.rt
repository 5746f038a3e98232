//! Why a command is refused. A fault of a lower crate is kept as that crate has it, and one function a crate writes
//! its line.
ghost use Rattle.std.specs.Prelude.{◌≡◌, IfOk, string_bytes};
ghost use Rattle.clipmap_prog.specs.Faults.{cause_line, cause_of, file_line, mosaic_line, script_line, tile_line};

use crate::verdicts::verdict_line;
use clip_script::ScriptFault;
use hgt_tiles::{Corner, TileFault};
use mesh_check::Verdict;
use mosaic::MosaicFault;
use std::alloc::{AllocError, Global};
use store_model::StoreFault;
use terrain_lines::store_fault_line;

// Why a file can't be had.
#[derive(Clone, Copy)]
pub(crate) enum FileFault {
    // There is no file of that name.
    Absent,
    // The file is longer than the limit.
    TooLong {
        // How many bytes it has, or as many as were read before it was known to be too long.
        length: u64,
        // The most bytes that it may have.
        limit: u64,
    },
}

// Why a command is refused.
#[derive(Clone, Copy)]
pub(crate) enum Fault<'a> {
    // The words are no command.
    Words,
    // The word is no name of an HGT tile.
    BadName(&'a str),
    // The file of that name can't be had.
    File(&'a str, FileFault),
    // The file of that name is no tile.
    Tile(&'a str, TileFault),
    // The tiles make no terrain together.
    Mosaic(MosaicFault),
    // The file is no store.
    Store(StoreFault),
    // The store has another number of levels than was asked for.
    LevelsDiffer {
        // How many levels it has.
        stored: u8,
        // How many were asked for.
        asked: u8,
    },
    // The mesh of the file isn't watertight, or the file is no frame.
    Mesh(Verdict),
    // The file is no script.
    Script(ScriptFault),
    // The script asks for more cells in all frames than a swarm may draw.
    TooMuch {
        // How many it asks for.
        cells: u64,
        // The most that it may.
        limit: u64,
    },
}

// The line of a file of that name that can't be had.
fn file_line(alloc: Global, name: &str, fault: FileFault) -> Result<String, AllocError>
    ensures line { IfOk result (λ line. string_bytes line ≡ file_line name.now fault) }
{
    match fault {
        FileFault::Absent => format!(in alloc; "fault: Absent {name}\n"),
        FileFault::TooLong { length, limit } => {
            format!(in alloc; "fault: TooLong {name} {length} {limit}\n")
        }
    }
}

// The line of a file of that name that is no tile. Want of memory is no refusal and has no line.
fn tile_line(alloc: Global, name: &str, fault: TileFault) -> Result<String, AllocError>
    ensures line { IfOk result (λ line. string_bytes line ≡ tile_line name.now fault) }
{
    match fault {
        TileFault::BadLength { length } => format!(in alloc; "fault: BadLength {name} {length}\n"),
        TileFault::NoMemory => Ok(String::new(alloc)),
    }
}

// The line of tiles that make no terrain together. Every command has a tile, and want of memory is no refusal: these
// two have no line.
fn mosaic_line(alloc: Global, fault: MosaicFault) -> Result<String, AllocError>
    ensures line { IfOk result (λ line. string_bytes line ≡ mosaic_line fault) }
{
    match fault {
        MosaicFault::Twice { corner } => {
            let Corner { lat, lon } = corner;
            format!(in alloc; "fault: Twice {lat} {lon}\n")
        }
        MosaicFault::SidesDiffer { first, other } => {
            format!(in alloc; "fault: SidesDiffer {first} {other}\n")
        }
        MosaicFault::TooLarge { samples } => format!(in alloc; "fault: TooLarge {samples}\n"),
        MosaicFault::Empty | MosaicFault::NoMemory => Ok(String::new(alloc)),
    }
}

// The line of a file that is no script. Want of memory is no refusal and has no line.
fn script_line(alloc: Global, fault: ScriptFault) -> Result<String, AllocError>
    ensures line { IfOk result (λ line. string_bytes line ≡ script_line fault) }
{
    match fault {
        ScriptFault::TooMany { lines } => format!(in alloc; "fault: TooMany {lines}\n"),
        ScriptFault::BadLine { line } => format!(in alloc; "fault: BadLine {line}\n"),
        ScriptFault::NoMemory => Ok(String::new(alloc)),
    }
}

// The line that tells a user of the fault.
pub(crate) fn fault_line(alloc: Global, fault: Fault<'_>) -> Result<String, AllocError>
    ensures line { IfOk result (λ line. string_bytes line ≡ cause_line (cause_of fault.entry)) }
{
    match fault {
        Fault::Words => format!(in alloc; "fault: words\n"),
        Fault::BadName(word) => format!(in alloc; "fault: BadName {word}\n"),
        Fault::File(name, fault) => file_line(alloc, name, fault),
        Fault::Tile(name, fault) => tile_line(alloc, name, fault),
        Fault::Mosaic(fault) => mosaic_line(alloc, fault),
        Fault::Store(fault) => store_fault_line(alloc, fault),
        Fault::LevelsDiffer { stored, asked } => {
            format!(in alloc; "fault: LevelsDiffer {stored} {asked}\n")
        }
        Fault::Mesh(verdict) => verdict_line(alloc, verdict),
        Fault::Script(fault) => script_line(alloc, fault),
        Fault::TooMuch { cells, limit } => format!(in alloc; "fault: TooMuch {cells} {limit}\n"),
    }
}
