//! How a job is filled from one block of a store.

ghost use Rattle.std.specs.Prelude.{◌≡◌, ◌≤◌, pos, ◌+ℤ◌, ◌-ℤ◌, ◌≤ℤ◌, length};
ghost use Rattle.std.specs.Int.{int_gap};
ghost use Rattle.clip_regions.specs.Regions.{area};
ghost use Rattle.terrain_model.specs.Terrain.{level_height};
ghost use Rattle.block_heights.specs.Decoded.{IsNearZero};
ghost use Rattle.block_heights.specs.Pieces.{IsPieceUpTo};
ghost use Rattle.decode_workers.specs.Fills.{HasFewCells, IsBlockOfJob, IsFilling};

use block_heights::{Block, Kind, piece_heights};
use clip_book::{FilledJob, Job, read_by_places_are_listed};
use clip_regions::Region;
use store_pieces::pieces_of_blocks;

// How many columns or rows lie from the first to the last of at most eight.
fn span(first: i32, last: i32) -> usize
    requires order { first ≤ℤ last }
    requires short { (last -ℤ first) ≤ℤ pos 7 }
    ensures value { result ≡ int_gap first (last +ℤ pos 1) }
    ensures few { result ≤ 8 }
{
    (last - first + 1) as usize
}

// How many cells a piece of a block has.
#[tactic(auto, unfolding(clip_regions::specs::Regions::area, clip_regions::specs::Regions::columns, clip_regions::specs::Regions::rows))]
fn cell_count(cells: Region) -> usize
    requires { HasFewCells cells }
    ensures value { result ≡ area cells }
    ensures few { result ≤ 64 }
{
    span(cells.x0, cells.x1) * span(cells.y0, cells.y1)
}

// Writes a 0 for each cell of a region.
fn write_zeros(cells: Region, out: &mut [i16])
    ensures many { length out.new ≡ length out.old }
    ensures zeros { IsPieceUpTo (length out.new) (λ i j. pos 0) cells out.new }
{
    out.fill(0);
}

// Writes the heights of a job's cells, row by row, where the block has cells in the terrain.
fn write_inside(block: &Block<'_>, job: &Job, out: &mut [i16])
    requires block { IsBlockOfJob block.now job.now }
    requires near { IsNearZero block.now.bx block.now.by }
    requires places { length out.old ≡ area job.now.note.piece.cells }
    ensures many { length out.new ≡ area job.now.note.piece.cells }
    ensures heights { IsPieceUpTo (length out.new) (level_height job.now.land.terrain job.now.note.level)
        job.now.note.piece.cells out.new }
{
    pieces_of_blocks();
    match piece_heights(block, job.patch(), job.cells(), out) {
        Ok(()) => {}
        Err(_) => unreachable!(),
    }
}

// Writes the heights of a job's cells, row by row.
fn write_heights(block: &Block<'_>, job: &Job, out: &mut [i16])
    requires block { IsBlockOfJob block.now job.now }
    requires places { length out.old ≡ area job.now.note.piece.cells }
    ensures many { length out.new ≡ area job.now.note.piece.cells }
    ensures heights { IsPieceUpTo (length out.new) (level_height job.now.land.terrain job.now.note.level)
        job.now.note.piece.cells out.new }
{
    pieces_of_blocks();
    let _patch = job.patch();
    match block.kind {
        Kind::Outside => write_zeros(job.cells(), out),
        Kind::Plain(_) => write_inside(block, job, out),
        Kind::Words(_) => write_inside(block, job, out),
    }
}

/// Fills a job from the job's block of the job's level, of a store that stands for the job's terrain: the job's cells
/// get the terrain's level heights, in metres, and all other cells of its tile stay. It takes no memory.
pub fn fill_piece(block: &Block<'_>, job: Job) -> FilledJob
    requires block { IsBlockOfJob block.now job }
    ensures filled { IsFilling job result }
{
    read_by_places_are_listed();
    let _patch = job.patch();
    let mut heights = [0i16; 64];
    let out = &mut heights[..cell_count(job.cells())];
    write_heights(block, &job, out);
    job.write(out)
}
