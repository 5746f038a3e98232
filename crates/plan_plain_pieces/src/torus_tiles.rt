//! The torus tiles that a region meets.

ghost use Rattle.std.specs.Prelude.{◌≡◌, ◌^◌, ◌≤◌, ◌++◌, map, filter, IfOk};
ghost use Rattle.std.specs.List.{range_with_len, list_any};
ghost use Rattle.clip_regions.specs.Regions.{IsWithin};
ghost use Rattle.plan_model.specs.Limits.{IsSize};
ghost use Rattle.plan_model.specs.Blocks.{tile_of, same_tile};
ghost use Rattle.plan_model.specs.Tiles.{tiles, meets_tile, tiles_met};

use crate::blocks::{same_tile, tile_of, tiles_per_side};
use crate::strip_pieces::pieces;
use clip_regions::Region;
use plan_model::{Piece, TileId};
use std::alloc::{AllocError, Global};

// Adds the tiles of one row of a torus.
fn push_row(out: &mut Vec<TileId>, side: u8, ty: u8) -> Result<(), AllocError>
    ensures value { IfOk result (λ _. out.new.items ≡ out.old.items ++
        map (λ tx. record { tx = tx; ty = ty }) (range_with_len 0 side)) }
{
    for tx in 0..side {
        out.push(TileId { tx, ty })?;
    }
    Ok(())
}

/// The tiles of a torus: by row, then by column. It fails where memory runs out.
pub fn tiles(alloc: Global, k: u8) -> Result<Vec<TileId>, AllocError>
    requires { IsSize k }
    ensures value { IfOk result (λ v. v.items ≡ tiles k) }
{
    let side = tiles_per_side(k);
    let mut out = Vec::new(alloc);
    for ty in 0..side {
        push_row(&mut out, side, ty)?;
    }
    Ok(out)
}

/// Whether a piece's block is kept in the tile.
pub fn lies_in(k: u8, piece: Piece, t: TileId) -> bool
    requires { IsSize k }
    ensures value { result ≡ same_tile (tile_of k piece.bx piece.by) t }
{
    same_tile(tile_of(k, piece.bx, piece.by), t)
}

// Whether the block of one of some pieces is kept in the tile.
fn any_lies_in(k: u8, some: &[Piece], t: TileId) -> bool
    requires { IsSize k }
    ensures value { result ≡ list_any (λ p. same_tile (tile_of k p.bx p.by) t) some.now }
{
    some.iter().any(|piece| lies_in(k, *piece, t))
}

/// Whether the region has a cell in a block of the tile. It fails where memory runs out.
#[tactic(auto, unfolding(plan_model::specs::Tiles::meets_tile))]
pub fn meets_tile(alloc: Global, k: u8, region: Region, t: TileId) -> Result<bool, AllocError>
    requires k { IsSize k }
    requires region { IsWithin (2 ^ 24) region }
    ensures value { IfOk result (λ met. met ≡ meets_tile k region t) }
{
    let all = pieces(alloc, region)?;
    Ok(any_lies_in(k, all.as_slice(), t))
}

// Those of some tiles in which the block of one of some pieces is kept.
fn tiles_of(alloc: Global, k: u8, all: &[TileId], some: &[Piece]) -> Result<Vec<TileId>, AllocError>
    requires { IsSize k }
    ensures value { IfOk result (λ v. v.items ≡
        filter (λ t. list_any (λ p. same_tile (tile_of k p.bx p.by) t) some.now) all.now) }
{
    all.iter()
        .copied()
        .filter(|t| any_lies_in(k, some, *t))
        .collect(alloc)
}

/// The tiles that a region meets: by row, then by column. It fails where memory runs out.
pub fn tiles_met(alloc: Global, k: u8, region: Region) -> Result<Vec<TileId>, AllocError>
    requires k { IsSize k }
    requires region { IsWithin (2 ^ 24) region }
    ensures value { IfOk result (λ v. v.items ≡ tiles_met k region) }
{
    let all = tiles(alloc, k)?;
    let some = pieces(alloc, region)?;
    tiles_of(alloc, k, all.as_slice(), some.as_slice())
}
