//! A piece of a block of a store.

ghost use Rattle.std.specs.Prelude.{◌≡◌, ◌+◌, ◌<◌, ℤ, true, length};
ghost use Rattle.clip_regions.specs.Regions.{contains, area};
ghost use Rattle.terrain_model.specs.Terrain.{level_height};
ghost use Rattle.four_point.specs.Patches.{patch_height};
ghost use Rattle.four_point.specs.Prediction.{prediction};
ghost use Rattle.block_heights.specs.Pieces.{IsPieceUpTo};
ghost use Rattle.block_heights.specs.Decoded.{IsNearZero, IsPart, IsPatchOf};
ghost use Rattle.store_pieces.specs.Laws.{Predicts};

use crate::laws::pieces_of_blocks;
use block_heights::piece_heights;
use clip_regions::Region;
use four_point::Patch;
use terrain_store::Store;

/// Writes the heights of some cells of a block of a level, row by row from the north and each row from the west, in
/// metres; 0 outside the terrain. `patch` is the block's patch of coarser heights, and has to predict the cells that
/// lie in the terrain as the next coarser level does. No memory is taken.
pub fn stored_piece(
    store: &Store,
    level: u8,
    bx: i32,
    by: i32,
    patch: &Patch,
    cells: Region,
    out: &mut [i16],
)
    requires level { level < store.now.head.levels }
    requires placed { IsNearZero bx by }
    requires cells { IsPart bx by cells }

    // The patch predicts the cells as the next coarser level does, and there are as many places as cells.
    requires patch { IsPatchOf bx by patch.now }
    requires predicts { Predicts patch.now store.now level cells }
    requires places { length out.old ≡ area cells }

    // The places get the terrain's level heights.
    ensures { IsPieceUpTo (length out.new) (level_height store.now.terrain level) cells out.new }
{
    pieces_of_blocks();
    let _bytes = store.bytes();
    let block = store.block(level, bx, by);
    match piece_heights(&block, patch, cells, out) {
        Ok(()) => {}
        Err(_) => unreachable!(),
    }
}
