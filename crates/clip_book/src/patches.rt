//! The patches of jobs.

ghost use Rattle.std.specs.Prelude.{◌≡◌, ℕ, ℤ, pos, ◌-ℤ◌, ◌*ℤ◌, ◌+◌, ◌<◌, false, length, IsTrue};
ghost use Rattle.clip_regions.specs.Regions.{is_empty, holds};
ghost use Rattle.plan_model.specs.Blocks.{block_cells};
ghost use Rattle.plan_model.specs.Strips.{need};
ghost use Rattle.plan_laws.specs.Needs.{patch_of};
ghost use Rattle.plan_holds.specs.Apart.{HasCell};
ghost use Rattle.clip_book.specs.Tiles.{grid_on, AreHome, IsCorner};
ghost use Rattle.clip_book.specs.Jobs.{needed, IsPatch};
ghost use Rattle.clip_book.specs.Reading.{IsBlockPlace, IsInBlock, IsSeenPatch, IsReadable};

use crate::tiles::Tiles;
use clip_regions::Region;
use four_point::Patch;
use plan_model::{JobNote, Piece};
use strip_planner::need;
use terrain_store::Shape;

// The first column or row of the patch of a block's column or row.
fn corner(block: i32) -> i32
    requires { IsBlockPlace block }
    ensures value { result ≡ pos 4 *ℤ block -ℤ pos 1 }
    ensures near { IsCorner result }
{
    4 * block - 1
}

// The patch of a piece's block, with a level's heights of the cells of a region, whose tiles are at home.
fn block_patch(tiles: &Tiles, level: u8, region: Region, piece: Piece) -> Patch
    requires level { level < length tiles.now.grids }
    requires home { AreHome (grid_on tiles.now.grids level) region }
    requires block { IsInBlock piece }
    ensures { IsSeenPatch (grid_on tiles.now.grids level) region piece result }
{
    tiles.patch(level, region, corner(piece.bx), corner(piece.by))
}

// The patch of a job, with the coarser heights of its need.
pub(crate) fn job_patch(tiles: &Tiles, shape: &Shape, note: JobNote) -> Patch
    requires levels { length tiles.now.grids ≡ shape.now.levels }
    requires level { note.level < shape.now.levels }
    requires block { IsInBlock note.piece }
    requires inside { IsTrue (holds (patch_of note.piece.bx note.piece.by) (need note.piece.cells)) }
    requires readable { (i j : ℤ) → HasCell (needed shape.now.levels note) i j →
        IsReadable shape.now.terrain (grid_on tiles.now.grids (note.level + 1)) (note.level + 1) i j }
    ensures { IsPatch shape.now note result }
{
    let levels = shape.levels();
    if note.level + 1 == levels {
        block_patch(tiles, note.level, Region::empty(), note.piece)
    } else {
        block_patch(tiles, note.level + 1, need(note.piece.cells), note.piece)
    }
}
