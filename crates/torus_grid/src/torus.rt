//! The torus of a level.

ghost use Rattle.std.specs.Prelude.{◌≡◌, ℕ, ◌+◌, ◌-◌, ◌*◌, ◌<◌, ◌≤◌, pos, ◌+ℤ◌, [], map, replicate, Some, None};
ghost use Rattle.std.specs.Prelude.{IsTrue, IfOk, length, slice_index_or};
ghost use Rattle.std.specs.List.{range_with_len};
ghost use Rattle.clip_regions.specs.FloorDivision.{floor_div, floor_rem};
ghost use Rattle.plan_model.specs.Limits.{IsSize};
ghost use Rattle.plan_model.specs.Blocks.{tile_of_cell, tiles_per_side};
ghost use Rattle.torus_grid.specs.Grids.{tile_at, is_home, has_tile, tile_number, height_at, new_grid, SameBut};
ghost use Rattle.torus_grid.specs.Shown.{shown};
ghost use Rattle.torus_grid.specs.Patches.{among_four, AreSevenHome, HasSixMore};

use crate::tile::{Tile, place_of, seven_of_four};
use plan_model::blocks_have_one_tile;
use std::alloc::{AllocError, Global};
use std::marker::Model;
use strip_planner::{TileId, tile_of, tiles_per_side};

/// Memory ran out.
#[derive(Clone, Copy, Debug, PartialEq, Eq)]
pub struct NoMemory;

/// The 2^K × 2^K cells of a level, as boxed tiles of 8 × 8 cells that are at home or out. A contract sees K
/// and the 64 heights of each tile that is at home.
#[derive(Drop)]
pub struct Torus {
    k: u8,
    // By row, then by column.
    tiles: Vec<Option<Box<Tile>>>,
}

impl Model for Torus {
    ghost use Rattle.std.specs.Prelude.{◌≡◌, ◌*◌, map, length};
    ghost use Rattle.plan_model.specs.Limits.{IsSize};
    ghost use Rattle.plan_model.specs.Blocks.{tiles_per_side};
    ghost use Rattle.torus_grid.specs.Grids.{Grid};

    ghost Value = { Grid };

    ghost use Rattle.torus_grid.specs.Shown.{shown};

    ghost view = { λ s. record { k = s.k; tiles = map shown s.tiles.items } };

    ghost invariant = { λ s. IsSize s.k × (length s.tiles.items ≡ tiles_per_side s.k * tiles_per_side s.k) };
}

// So many tiles of heights 0.
fn flat_tiles(alloc: Global, count: usize) -> Result<Vec<Option<Box<Tile>>>, AllocError>
    ensures { IfOk result (λ v. map shown v.items ≡ replicate count (Some (replicate 64 (pos 0)))) }
{
    let mut tiles = Vec::with_capacity(alloc, count)?;
    for _n in 0..count {
        let tile = Box::new(alloc, Tile::flat())?;
        tiles.push(Some(tile))?;
    }
    Ok(tiles)
}

// The number of a tile of the torus.
fn number_of(k: u8, tile: TileId) -> usize
    requires k { IsSize k }
    requires column { tile.tx < tiles_per_side k }
    requires row { tile.ty < tiles_per_side k }
    ensures value { result ≡ tile_number k tile }
    ensures inside { result < tiles_per_side k * tiles_per_side k }
{
    usize::from(tiles_per_side(k)) * usize::from(tile.ty) + usize::from(tile.tx)
}

// Whether the torus has the tile.
fn has_tile(k: u8, tile: TileId) -> bool
    requires { IsSize k }
    ensures { result ≡ has_tile k tile }
{
    let side = tiles_per_side(k);
    tile.tx < side && tile.ty < side
}

// The eighth part of a cell's column or row, rounded down: that of its block.
#[tactic(auto, unfolding(clip_regions::specs::FloorDivision::floor_div))]
fn eighth(cell: i32) -> i32
    ensures { result ≡ floor_div cell 8 }
{
    cell.div_euclid(8)
}

// The torus tile of a cell.
fn tile_of_cell(k: u8, i: i32, j: i32) -> TileId
    requires { IsSize k }
    ensures { result ≡ tile_of_cell k i j }
{
    blocks_have_one_tile();
    tile_of(k, eighth(i), eighth(j))
}

// Seven by seven heights of two pairs of tiles, the second to the south of the first, row by row from column x and
// row y of the first tile on.
#[inline(always)]
fn rows_of_four(nw: &Tile, ne: &Tile, sw: &Tile, se: &Tile, x: usize, y: usize) -> [[i16; 7]; 7]
    requires column { x < 8 }
    requires row { y < 8 }
    ensures { (a b : ℕ) → a < 7 → b < 7 →
        slice_index_or (slice_index_or result b []) a (pos 0)
        ≡ among_four nw.now ne.now sw.now se.now (x + a) (y + b) }
{
    [
        seven_of_four(nw, ne, sw, se, x, y),
        seven_of_four(nw, ne, sw, se, x, y + 1),
        seven_of_four(nw, ne, sw, se, x, y + 2),
        seven_of_four(nw, ne, sw, se, x, y + 3),
        seven_of_four(nw, ne, sw, se, x, y + 4),
        seven_of_four(nw, ne, sw, se, x, y + 5),
        seven_of_four(nw, ne, sw, se, x, y + 6),
    ]
}

// The same. The patch of a block begins in column and row 3 or 7 of a tile: there the compiler knows for each height
// which tile it is of.
fn patch_of_four(nw: &Tile, ne: &Tile, sw: &Tile, se: &Tile, x: usize, y: usize) -> [[i16; 7]; 7]
    requires column { x < 8 }
    requires row { y < 8 }
    ensures { (a b : ℕ) → a < 7 → b < 7 →
        slice_index_or (slice_index_or result b []) a (pos 0)
        ≡ among_four nw.now ne.now sw.now se.now (x + a) (y + b) }
{
    match (x, y) {
        (3, 3) => rows_of_four(nw, ne, sw, se, 3, 3),
        (3, 7) => rows_of_four(nw, ne, sw, se, 3, 7),
        (7, 3) => rows_of_four(nw, ne, sw, se, 7, 3),
        (7, 7) => rows_of_four(nw, ne, sw, se, 7, 7),
        _ => rows_of_four(nw, ne, sw, se, x, y),
    }
}

impl Torus {
    /// The torus of K, from 4 to 8, with all tiles at home and all heights 0. It fails where memory runs out.
    pub fn new(alloc: Global, k: u8) -> Result<Torus, NoMemory>
        requires { IsSize k }
        ensures { IfOk result (λ torus. torus ≡ new_grid k) }
    {
        let side = usize::from(tiles_per_side(k));
        match flat_tiles(alloc, side * side) {
            Ok(tiles) => Ok(Torus { k, tiles }),
            Err(_) => Err(NoMemory),
        }
    }

    /// Whether the torus has the tile, and it is at home.
    pub fn at_home(&self, tile: TileId) -> bool
        ensures { result ≡ is_home self.now tile }
    {
        has_tile(self.k, tile) && self.tiles[number_of(self.k, tile)].is_some()
    }

    // The tile, which is at home.
    fn tile(&self, tile: TileId) -> &Tile
        requires { IsTrue (is_home self.now tile) }
        ensures { tile_at self.now tile ≡ Some result.now }
    {
        match &self.tiles[number_of(self.k, tile)] {
            Some(there) => there,
            None => unreachable!(),
        }
    }

    /// The height of the cell in column `i` and row `j`, in metres. Its tile is at home.
    pub fn cell(&self, i: i32, j: i32) -> i16
        requires { IsTrue (is_home self.now (tile_of_cell self.now.k i j)) }
        ensures { result ≡ height_at self.now i j }
    {
        self.tile(tile_of_cell(self.k, i, j)).cell(i, j)
    }

    /// The heights of the cells from column `i` to the end of its tile, in row `j`, in metres: 8 less i
    /// modulo 8 of them. Their tile is at home.
    pub fn row(&self, i: i32, j: i32) -> &[i16]
        requires { IsTrue (is_home self.now (tile_of_cell self.now.k i j)) }
        ensures { result.now ≡ map (λ n. height_at self.now (i +ℤ pos n) j) (range_with_len 0 (8 - floor_rem i 8)) }
    {
        blocks_have_one_tile();
        self.tile(tile_of_cell(self.k, i, j)).row(i, j)
    }

    // The tile of the cell in column `i` and row `j`, which is at home.
    fn tile_with(&self, i: i32, j: i32) -> &Tile
        requires { IsTrue (is_home self.now (tile_of_cell self.now.k i j)) }
        ensures tile { tile_at self.now (tile_of_cell self.now.k i j) ≡ Some result.now }
        ensures size { IsSize self.now.k }
    {
        self.tile(tile_of_cell(self.k, i, j))
    }

    /// The heights of seven by seven cells from column `i0` and row `j0` on, in metres: seven rows of seven. Their
    /// tiles are at home.
    pub fn patch(&self, i0: i32, j0: i32) -> [[i16; 7]; 7]
        requires column { HasSixMore i0 }
        requires row { HasSixMore j0 }
        requires home { AreSevenHome self.now i0 j0 }
        ensures { (a b : ℕ) → a < 7 → b < 7 →
            slice_index_or (slice_index_or result b []) a (pos 0) ≡ height_at self.now (i0 +ℤ pos a) (j0 +ℤ pos b) }
    {
        blocks_have_one_tile();
        let nw = self.tile_with(i0, j0);
        let ne = self.tile_with(i0 + 6, j0);
        let sw = self.tile_with(i0, j0 + 6);
        let se = self.tile_with(i0 + 6, j0 + 6);
        patch_of_four(nw, ne, sw, se, place_of(i0), place_of(j0))
    }

    /// Takes a tile out, with its heights. It is at home.
    pub fn take(&mut self, tile: TileId) -> Box<Tile>
        requires { IsTrue (is_home self.old tile) }
        ensures heights { tile_at self.old tile ≡ Some result.value }
        ensures there { IsTrue (has_tile self.new.k tile) }
        ensures out { tile_at self.new tile ≡ None }
        ensures others { SameBut tile self.old self.new }
    {
        let number = number_of(self.k, tile);
        let out = self.tiles[number].take();
        out.unwrap()
    }

    /// Puts a tile back, with its heights. The torus has that tile, and it is out.
    pub fn put(&mut self, tile: TileId, back: Box<Tile>)
        requires there { IsTrue (has_tile self.old.k tile) }
        requires out { tile_at self.old tile ≡ None }
        ensures home { tile_at self.new tile ≡ Some back.value }
        ensures others { SameBut tile self.old self.new }
    {
        let number = number_of(self.k, tile);
        self.tiles[number] = Some(back);
    }
}
