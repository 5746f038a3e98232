//! The tiles of all levels of a book.

ghost use Rattle.std.specs.Prelude.{◌≡◌, ℕ, ◌+◌, ◌<◌, ◌≤◌, pos, ◌+ℤ◌, List, [], ◌++◌, length, replicate, slice_index_or, slice_set, Some, None, IsOk, IfOk, IsTrue};
ghost use Rattle.plan_model.specs.Limits.{IsSize};
ghost use Rattle.plan_model.specs.Blocks.{tile_of_cell};
ghost use Rattle.torus_grid.specs.Grids.{tile_at, is_home, has_tile, height_at, new_grid};
ghost use Rattle.book_cells.specs.Cells.{GoesOut, SameCellsBut};
ghost use Rattle.clip_book.specs.Tiles.{grid_on, handed_to, cells_of, SameSizes, IsTakenFrom, IsPutIn, AreHome, IsCorner, HoldsRow, seen};

use clip_regions::Region;
use four_point::Patch;
use plan_model::TileId;
use std::alloc::{AllocError, Global};
use std::marker::Model;
use std::snapshot::Snapshot;
use torus_grid::{Tile, Torus};

// The 64 heights of a tile as it was handed out. It has no bytes.
#[derive(Drop)]
pub(crate) struct Handed {
    heights: Snapshot<Tile>,
}

impl Model for Handed {
    ghost use Rattle.std.specs.Prelude.{ℤ, List};

    ghost Value = { List ℤ };

    ghost view = { λ s. s.heights.value };
}

// The torus of each level, the finest first, and what each pass was handed.
#[derive(Drop)]
pub(crate) struct Tiles {
    grids: Vec<Torus>,
    handed: Vec<Option<Handed>>,
}

impl Model for Tiles {
    ghost use Rattle.clip_book.specs.Tiles.{Tiles as TilesView};

    ghost Value = { TilesView };

    ghost view = { λ s. record { grids = s.grids.items; handed = s.handed.items } };
}

// So many toruses of K.
#[tactic(auto, using(std::proofs::lemmas::List::replicate_more))]
fn start_grids(alloc: Global, k: u8, count: u8) -> Result<Vec<Torus>, AllocError>
    requires { IsSize k }
    ensures { IfOk result (λ v. v.items ≡ replicate count (new_grid k)) }
{
    let mut grids = Vec::with_capacity(alloc, count as usize)?;
    'made: for _ in 0..count {
        let Ok(torus) = Torus::new(alloc, k) else {
            return Err(AllocError);
        };
        grids.push(torus)?;
    }
    Ok(grids)
}

// So many passes that were handed nothing.
#[tactic(auto, using(std::proofs::lemmas::List::replicate_more))]
fn start_handed(alloc: Global, count: u8) -> Result<Vec<Option<Handed>>, AllocError>
    ensures { IfOk result (λ v. v.items ≡ replicate count None) }
{
    let mut handed = Vec::with_capacity(alloc, count as usize)?;
    'made: for _ in 0..count {
        handed.push(None)?;
    }
    Ok(handed)
}

// Takes a tile of a level out.
fn take_from(grids: &mut [Torus], level: u8, tile: TileId) -> Box<Tile>
    requires level { level < length grids.old }
    requires home { IsTrue (is_home (grid_on grids.old level) tile) }
    ensures { IsTakenFrom level tile result.value grids.old grids.new }
{
    grids[level as usize].take(tile)
}

// Puts a tile of a level back.
fn put_in(grids: &mut [Torus], level: u8, tile: TileId, back: Box<Tile>)
    requires level { level < length grids.old }
    requires there { IsTrue (has_tile (grid_on grids.old level).k tile) }
    requires out { tile_at (grid_on grids.old level) tile ≡ None }
    ensures { IsPutIn level tile back.value grids.old grids.new }
{
    grids[level as usize].put(tile, back)
}

// Keeps what a tile's heights are, without a byte, as those that a pass was handed.
fn keep_handed(handed: &mut [Option<Handed>], pass: u8, tile: &Tile)
    requires { pass < length handed.old }
    ensures { handed.new ≡ slice_set handed.old pass (Some tile.now) }
{
    handed[pass as usize] = Some(Handed {
        heights: Snapshot::of(tile),
    });
}

// The height of a cell of a region, and 0 elsewhere.
#[tactic(auto, unfolding(crate::specs::Tiles::seen))]
fn seen(torus: &Torus, region: Region, i: i32, j: i32) -> i16
    requires { AreHome torus.now region }
    ensures { result ≡ seen torus.now region i j }
{
    if region.contains(i, j) {
        torus.cell(i, j)
    } else {
        0
    }
}

// The heights of seven cells of a row, from column `i0` on, each found by itself.
fn clipped_row(torus: &Torus, region: Region, i0: i32, j: i32) -> [i16; 7]
    requires home { AreHome torus.now region }
    requires column { IsCorner i0 }
    ensures { (a : ℕ) → a < 7 → slice_index_or result a (pos 0) ≡ seen torus.now region (i0 +ℤ pos a) j }
{
    [
        seen(torus, region, i0, j),
        seen(torus, region, i0 + 1, j),
        seen(torus, region, i0 + 2, j),
        seen(torus, region, i0 + 3, j),
        seen(torus, region, i0 + 4, j),
        seen(torus, region, i0 + 5, j),
        seen(torus, region, i0 + 6, j),
    ]
}

// The height at a place of two runs of heights, one after the other.
fn height_of(west: &[i16], east: &[i16], n: usize) -> i16
    requires { n < length west.now + length east.now }
    ensures { result ≡ slice_index_or (west.now ++ east.now) n (pos 0) }
{
    if n < west.len() {
        west[n]
    } else {
        east[n - west.len()]
    }
}

// The first seven of two runs of heights, one after the other.
fn first_seven(west: &[i16], east: &[i16]) -> [i16; 7]
    requires { 7 ≤ length west.now + length east.now }
    ensures { (a : ℕ) → a < 7 → slice_index_or result a (pos 0) ≡ slice_index_or (west.now ++ east.now) a (pos 0) }
{
    [
        height_of(west, east, 0),
        height_of(west, east, 1),
        height_of(west, east, 2),
        height_of(west, east, 3),
        height_of(west, east, 4),
        height_of(west, east, 5),
        height_of(west, east, 6),
    ]
}

// The heights of seven cells of a row, from column `i0` on, which all lie in a region: those of one tile, and
// then those of the next one.
fn whole_row(torus: &Torus, region: Region, i0: i32, j: i32) -> [i16; 7]
    requires home { AreHome torus.now region }
    requires column { IsCorner i0 }
    requires inside { HoldsRow region i0 j }
    ensures { (a : ℕ) → a < 7 → slice_index_or result a (pos 0) ≡ seen torus.now region (i0 +ℤ pos a) j }
{
    let west = torus.row(i0, j);
    let next = west.len().min(6) as i32;
    let east = torus.row(i0 + next, j);
    first_seven(west, east)
}

// The heights of seven cells of a row, from column `i0` on.
fn seen_row(torus: &Torus, region: Region, i0: i32, j: i32) -> [i16; 7]
    requires home { AreHome torus.now region }
    requires column { IsCorner i0 }
    ensures { (a : ℕ) → a < 7 → slice_index_or result a (pos 0) ≡ seen torus.now region (i0 +ℤ pos a) j }
{
    if region.contains(i0, j) && region.contains(i0 + 6, j) {
        whole_row(torus, region, i0, j)
    } else {
        clipped_row(torus, region, i0, j)
    }
}

// The heights of seven by seven cells from column `i0` and row `j0` on, a row at a time.
fn seen_rows(torus: &Torus, region: Region, i0: i32, j0: i32) -> [[i16; 7]; 7]
    requires home { AreHome torus.now region }
    requires column { IsCorner i0 }
    requires row { IsCorner j0 }
    ensures { (a b : ℕ) → a < 7 → b < 7 →
        slice_index_or (slice_index_or result b []) a (pos 0) ≡ seen torus.now region (i0 +ℤ pos a) (j0 +ℤ pos b) }
{
    [
        seen_row(torus, region, i0, j0),
        seen_row(torus, region, i0, j0 + 1),
        seen_row(torus, region, i0, j0 + 2),
        seen_row(torus, region, i0, j0 + 3),
        seen_row(torus, region, i0, j0 + 4),
        seen_row(torus, region, i0, j0 + 5),
        seen_row(torus, region, i0, j0 + 6),
    ]
}

// The heights of seven by seven cells from column `i0` and row `j0` on, of which not all lie in the region: 0 at once
// where it has no cell.
fn cut_square(torus: &Torus, region: Region, i0: i32, j0: i32) -> [[i16; 7]; 7]
    requires home { AreHome torus.now region }
    requires column { IsCorner i0 }
    requires row { IsCorner j0 }
    ensures { (a b : ℕ) → a < 7 → b < 7 →
        slice_index_or (slice_index_or result b []) a (pos 0) ≡ seen torus.now region (i0 +ℤ pos a) (j0 +ℤ pos b) }
{
    if region.is_empty() {
        [[0; 7]; 7]
    } else {
        seen_rows(torus, region, i0, j0)
    }
}

// The heights of seven by seven cells from column `i0` and row `j0` on: all at once where they all lie in the region.
fn seen_square(torus: &Torus, region: Region, i0: i32, j0: i32) -> [[i16; 7]; 7]
    requires home { AreHome torus.now region }
    requires column { IsCorner i0 }
    requires row { IsCorner j0 }
    ensures { (a b : ℕ) → a < 7 → b < 7 →
        slice_index_or (slice_index_or result b []) a (pos 0) ≡ seen torus.now region (i0 +ℤ pos a) (j0 +ℤ pos b) }
{
    if region.contains(i0, j0) && region.contains(i0 + 6, j0 + 6) {
        torus.patch(i0, j0)
    } else {
        cut_square(torus, region, i0, j0)
    }
}

// The patch of seven by seven cells from column `i0` and row `j0` on.
fn seen_patch(torus: &Torus, region: Region, i0: i32, j0: i32) -> Patch
    requires home { AreHome torus.now region }
    requires column { IsCorner i0 }
    requires row { IsCorner j0 }
    ensures column { result.i0 ≡ i0 }
    ensures row { result.j0 ≡ j0 }
    ensures heights { (a b : ℕ) → a < 7 → b < 7 →
        slice_index_or (slice_index_or result.h b []) a (pos 0) ≡ seen torus.now region (i0 +ℤ pos a) (j0 +ℤ pos b) }
{
    let h = seen_square(torus, region, i0, j0);
    Patch { i0, j0, h }
}

impl Tiles {
    // The tiles of so many levels, all of them at home, and 16 passes that were handed nothing.
    pub(crate) fn start(alloc: Global, k: u8, levels: u8) -> Result<Tiles, AllocError>
        requires { IsSize k }
        ensures { IfOk result (λ t. t ≡ record { grids = replicate levels (new_grid k); handed = replicate 16 None }) }
    {
        let grids = start_grids(alloc, k, levels)?;
        let handed = start_handed(alloc, 16)?;
        Ok(Tiles { grids, handed })
    }

    // Hands the tile of a level out to a pass.
    pub(crate) fn take_out(&mut self, pass: u8, level: u8, tile: TileId) -> Box<Tile>
        requires level { level < length self.old.grids }
        requires pass { pass < length self.old.handed }
        requires home { IsTrue (is_home (grid_on self.old.grids level) tile) }

        // The tile is the pass's, and nothing else moves.
        ensures moves { GoesOut level tile pass (cells_of self.old) (cells_of self.new) }
        ensures sizes { SameSizes self.old self.new }

        // The pass is noted as having its heights.
        ensures heights { result.value ≡ handed_to self.new.handed pass }
        ensures others { self.new.handed ≡ slice_set self.old.handed pass (Some result.value) }
    {
        let out = take_from(self.grids.as_mut_slice(), level, tile);
        keep_handed(self.handed.as_mut_slice(), pass, &out);
        out
    }

    // Takes the tile of a level back from a pass.
    pub(crate) fn bring_home(&mut self, level: u8, tile: TileId, back: Box<Tile>)
        requires level { level < length self.old.grids }
        requires there { IsTrue (has_tile (grid_on self.old.grids level).k tile) }
        requires out { tile_at (grid_on self.old.grids level) tile ≡ None }

        // The tile is at home as it came, and all else is as it was.
        ensures home { tile_at (grid_on self.new.grids level) tile ≡ Some back.value }
        ensures others { (p : ℕ) → SameCellsBut level tile p (cells_of self.old) (cells_of self.new) }
        ensures sizes { SameSizes self.old self.new }
        ensures handed { self.new.handed ≡ self.old.handed }
    {
        put_in(self.grids.as_mut_slice(), level, tile, back)
    }

    // The patch of seven by seven cells of a level from column `i0` and row `j0` on: the heights of the cells of
    // a region, whose tiles are at home, and 0 elsewhere.
    pub(crate) fn patch(&self, level: u8, region: Region, i0: i32, j0: i32) -> Patch
        requires level { level < length self.now.grids }
        requires home { AreHome (grid_on self.now.grids level) region }
        requires column { IsCorner i0 }
        requires row { IsCorner j0 }

        // It stands at that corner, and has what is seen of the region.
        ensures column { result.i0 ≡ i0 }
        ensures row { result.j0 ≡ j0 }
        ensures heights { (a b : ℕ) → a < 7 → b < 7 →
            slice_index_or (slice_index_or result.h b []) a (pos 0)
            ≡ seen (grid_on self.now.grids level) region (i0 +ℤ pos a) (j0 +ℤ pos b) }
    {
        seen_patch(&self.grids[level as usize], region, i0, j0)
    }

    // The height of the cell in column `i` and row `j` of a level, in metres. Its tile is at home.
    pub(crate) fn height(&self, level: u8, i: i32, j: i32) -> i16
        requires level { level < length self.now.grids }
        requires home { IsTrue
            (is_home (grid_on self.now.grids level) (tile_of_cell (grid_on self.now.grids level).k i j)) }
        ensures { result ≡ height_at (grid_on self.now.grids level) i j }
    {
        self.grids[level as usize].cell(i, j)
    }
}
