//! How a store is made of a grid.

ghost use Rattle.std.specs.Prelude.{◌≡◌, ◌≤◌, IfOk};
ghost use Rattle.four_point.specs.Steps.{IsStep};
ghost use Rattle.terrain_store.specs.Stores.{packed, packed_by};

use crate::reading::read_store;
use crate::store::{Store, keep};
use height_pyramid::Grid;
use rice_residuals::NoMemory;
use std::alloc::Global;
use store_reader::Header;
use store_writer::{canonical_bytes, canonical_bytes_by};

/// Packs a grid in `levels` levels, 1 to 12, exactly: the store is the canonical one of version 1.
pub fn pack(alloc: Global, grid: &Grid, levels: u8) -> Result<Store, NoMemory>
    requires some { 1 ≤ levels }
    requires few { levels ≤ 12 }
    ensures { IfOk result (λ store. store ≡ packed grid.now levels) }
{
    store_model::laws::stores_by_one();
    let header = Header {
        version: 1,
        width: grid.width(),
        height: grid.height(),
        levels,
        step: 1,
    };
    let bytes = canonical_bytes(alloc, grid, levels)?;
    keep(alloc, bytes, header, grid)
}

/// Packs a grid in `levels` levels, 1 to 12, by an odd step of 1 to 255 metres: the store is the canonical one of
/// version 2, and stands for the restored terrain, whose heights lie within (`step` - 1) / 2 metres of the grid's.
///
/// The bytes are read once, for the extremes of the restored terrain.
pub fn pack_by(alloc: Global, grid: &Grid, levels: u8, step: u8) -> Result<Store, NoMemory>
    requires some { 1 ≤ levels }
    requires few { levels ≤ 12 }
    requires step { IsStep step }
    ensures { IfOk result (λ store. store ≡ packed_by grid.now levels step) }
{
    store_model::laws::canonical_stores();
    let _width = grid.width();
    let bytes = canonical_bytes_by(alloc, grid, levels, step)?;
    match read_store(alloc, bytes) {
        Ok(store) => Ok(store),
        Err(_) => Err(NoMemory),
    }
}
