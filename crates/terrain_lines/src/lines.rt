//! The lines of `info` and `pack`.

ghost use Rattle.std.specs.Prelude.{◌≡◌, ◌*◌, ◌^◌, ◌≤◌, IfOk, string_bytes};
ghost use Rattle.store_reader.specs.Headers.{head_of};
ghost use Rattle.terrain_lines.specs.Extremes.{all_blocks};
ghost use Rattle.terrain_lines.specs.Lines.{heights_line, packed_line, store_line, stored_line, terrain_line, tiles_line};

use crate::extremes::{all_blocks, least, most};
use height_pyramid::Grid;
use std::alloc::{AllocError, Global};
use store_reader::Header;

/// The line of a terrain's width and height, in samples.
pub fn terrain_line(alloc: Global, grid: &Grid) -> Result<String, AllocError>
    ensures line { IfOk result (λ line. string_bytes line ≡ terrain_line grid.now) }
{
    let width = grid.width();
    let height = grid.height();
    format!(in alloc; "terrain {width} {height}\n")
}

/// The line of a terrain's least and greatest height, in metres.
pub fn heights_line(alloc: Global, grid: &Grid) -> Result<String, AllocError>
    ensures line { IfOk result (λ line. string_bytes line ≡ heights_line grid.now) }
{
    let least = least(grid);
    let most = most(grid);
    format!(in alloc; "heights {least} {most}\n")
}

/// The line of so many tiles, with the samples of a side of each and the voids of all.
pub fn tiles_line(alloc: Global, number: usize, side: u32, voids: u64) -> Result<String, AllocError>
    ensures line { IfOk result (λ line. string_bytes line ≡ tiles_line number side voids) }
{
    format!(in alloc; "tiles {number} side {side} voids {voids}\n")
}

// The line of a store with so many blocks and bytes.
fn stored_line(
    alloc: Global,
    header: Header,
    blocks: u64,
    length: usize,
) -> Result<String, AllocError>
    ensures line { IfOk result (λ line. string_bytes line ≡ stored_line (head_of header) blocks length) }
{
    let Header {
        version,
        levels,
        step,
        ..
    } = header;
    if version == 2 {
        format!(in alloc;
            "store version 2 step {step} levels {levels} blocks {blocks} bytes {length}\n"
        )
    } else {
        format!(in alloc; "store version 1 levels {levels} blocks {blocks} bytes {length}\n")
    }
}

/// The line of a store with this header and so many bytes: its version, its step in version 2, its levels and its
/// blocks.
pub fn store_line(alloc: Global, header: Header, length: usize) -> Result<String, AllocError>
    requires some_columns { 1 ≤ header.width }
    requires some_rows { 1 ≤ header.height }
    requires few_samples { header.width * header.height ≤ 2 ^ 26 }
    requires few_levels { header.levels ≤ 12 }
    ensures line { IfOk result (λ line. string_bytes line ≡ store_line (head_of header) length) }
{
    let blocks = all_blocks(header.width, header.height, header.levels);
    stored_line(alloc, header, blocks, length)
}

/// The line of a grid that was packed in so many levels, 1 to 12, with the bytes of its store.
pub fn packed_line(
    alloc: Global,
    grid: &Grid,
    levels: u8,
    length: usize,
) -> Result<String, AllocError>
    requires levels { levels ≤ 12 }
    ensures line { IfOk result (λ line.
        string_bytes line ≡ packed_line length (all_blocks grid.now.width grid.now.height levels)) }
{
    let blocks = all_blocks(grid.width(), grid.height(), levels);
    format!(in alloc; "packed {length} bytes {blocks} blocks\n")
}
