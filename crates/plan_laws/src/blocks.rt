//! Laws of the pieces of a region.

ghost use Rattle.plan_laws.specs.Pieces.{PiecesAreMeets, PiecesHaveCells, PiecesInBlocks, PiecesInRegion};
ghost use Rattle.plan_laws.specs.Pieces.{PiecesInTiles, DifferentBlocks, OnePieceABlock, PiecesAreCounted};
ghost use Rattle.plan_laws.specs.Pieces.{WindowsHaveFewPieces};
ghost use Rattle.plan_laws.specs.Finished.{FinishedAreFound, FinishedAndUnfinished};

use plan_model::blocks_have_one_tile;

/// The cells of each piece are those that the region shares with the piece's block.
pub fn pieces_are_meets()
    ensures { PiecesAreMeets }
{}

/// Each piece has a cell.
pub fn pieces_have_cells()
    ensures { PiecesHaveCells }
{}

/// Each piece lies in its block.
pub fn pieces_lie_in_blocks()
    ensures { PiecesInBlocks }
{}

/// Each piece lies in the region.
pub fn pieces_lie_in_the_region()
    ensures { PiecesInRegion }
{}

/// All cells of a piece have the torus tile of its block.
pub fn pieces_lie_in_tiles()
    ensures { PiecesInTiles }
{
    blocks_have_one_tile();
}

/// Two pieces of one region have different blocks.
pub fn pieces_have_different_blocks()
    ensures { DifferentBlocks }
{}

/// Pieces of one region that have one block are one piece.
pub fn pieces_of_one_block_are_one()
    ensures { OnePieceABlock }
{}

/// The pieces of a region are as many as their count says.
pub fn pieces_are_counted()
    ensures { PiecesAreCounted }
{}

/// A region in a window has at most 1,089 pieces, for K up to 8.
pub fn windows_have_few_pieces()
    ensures { WindowsHaveFewPieces }
{}

/// Some of a region's pieces, as finished ones, are those that are found finished.
pub fn finished_pieces_are_found()
    ensures { FinishedAreFound }
{}

/// The finished and the unfinished pieces are together as many as the region's.
pub fn finished_and_unfinished_are_all()
    ensures { FinishedAndUnfinished }
{}
