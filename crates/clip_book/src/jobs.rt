//! Jobs that a pass takes from a book and gives back filled.

ghost use Rattle.std.specs.Prelude.{◌≡◌};
ghost use Rattle.terrain_model.specs.Terrain.{level_height};
ghost use Rattle.book_cells.specs.Cells.{IsPainted};
ghost use Rattle.clip_book.specs.Jobs.{JobView, FilledView, IsJob, heights_of};

use clip_regions::Region;
use four_point::Patch;
use plan_model::JobNote;
use std::marker::Model;
use std::snapshot::Snapshot;
use terrain_store::Shape;
use torus_grid::{Tile, cells_stand_in_rows};

/// A piece of a level that a pass is to fill, with the tile to fill it in and the coarser heights round it.
///
/// Its level is one of the terrain's that it names, and its cells are some cells of its block. A contract
/// sees the terrain, the level, the piece and the plan number, the patch and the 64 heights of the tile.
#[derive(Drop)]
pub struct Job {
    land: Snapshot<Shape>,
    note: JobNote,
    patch: Patch,
    tile: Box<Tile>,
}

impl Model for Job {
    ghost use Rattle.clip_book.specs.Jobs.{JobView, IsJob};

    ghost Value = { JobView };

    ghost view = { λ s. record { land = s.land.value; note = s.note; patch = s.patch; tile = s.tile.value } };

    ghost invariant = { λ s. IsJob s.land.value s.note s.patch };
}

/// A job whose cells are filled. It has the tile.
#[derive(Drop)]
pub struct FilledJob {
    pub(crate) land: Snapshot<Shape>,
    pub(crate) note: JobNote,
    pub(crate) tile: Box<Tile>,
}

impl Model for FilledJob {
    ghost use Rattle.clip_book.specs.Jobs.{FilledView};

    ghost Value = { FilledView };

    ghost view = { λ s. record { land = s.land.value; note = s.note; tile = s.tile.value } };
}

impl Job {
    // A job of a terrain, with its patch and its tile.
    pub(crate) fn new(land: Snapshot<Shape>, note: JobNote, patch: Patch, tile: Box<Tile>) -> Job
        requires { IsJob land.value note patch }
        ensures { result ≡ record { land = land.value; note = note; patch = patch; tile = tile.value } }
    {
        Job {
            land,
            note,
            patch,
            tile,
        }
    }

    /// The level, 0 the finest.
    pub fn level(&self) -> u8
        ensures { result ≡ self.now.note.level }
    {
        self.note.level
    }

    /// The column of the block.
    pub fn bx(&self) -> i32
        ensures { result ≡ self.now.note.piece.bx }
    {
        self.note.piece.bx
    }

    /// The row of the block.
    pub fn by(&self) -> i32
        ensures { result ≡ self.now.note.piece.by }
    {
        self.note.piece.by
    }

    /// The cells to fill.
    pub fn cells(&self) -> Region
        ensures { result ≡ self.now.note.piece.cells }
    {
        self.note.piece.cells
    }

    /// The plan number of the level at the claim.
    pub fn plan(&self) -> u64
        ensures { result ≡ self.now.note.plan }
    {
        self.note.plan
    }

    /// The coarser heights of what the cells need, in metres, and 0 elsewhere; at the coarsest level all are 0.
    pub fn patch(&self) -> &Patch
        ensures value { result.now ≡ self.now.patch }
        ensures kept { IsJob self.now.land self.now.note self.now.patch }
    {
        &self.patch
    }

    /// Writes the terrain's level heights of the cells, in metres and row by row, in the job's own tile.
    pub fn write(self, heights: &[i16]) -> FilledJob
        requires { heights.now ≡ heights_of self.land.terrain self.note }
        ensures land { result.land ≡ self.land }
        ensures note { result.note ≡ self.note }
        ensures painted { IsPainted self.land.terrain self.note.level self.note.piece.cells self.tile result.tile }
    {
        cells_stand_in_rows();
        let Job {
            land,
            note,
            patch: _,
            mut tile,
        } = self;
        tile.write(note.piece.cells, heights);
        FilledJob { land, note, tile }
    }
}
