//! The inputs of a command that takes stores too.
ghost use Rattle.std.specs.Prelude.{◌≡◌, ◌≤◌, IfSome, length, map as list_map, string_bytes};
ghost use Rattle.outer_shelf.specs.Counts.{Rose};
ghost use Rattle.clipmap_prog.specs.Reading.{Finds, OnStop};
ghost use Rattle.run_actions.specs.Runs.{CallsWithin};
ghost use Rattle.clipmap_prog.specs.Sources.{source_view, sources_reading, terrain_of};
ghost use Rattle.clipmap_prog.specs.Stores.{ByVerdict, Verdict};

use crate::inputs::{Inputs, store_name};
use crate::reading::Stop;
use crate::store_file::fetch_store;
use crate::stored::StoreFile;
use crate::tile_files::read_tiles;
use height_pyramid::Grid;
use outer_shelf::Shelf;
use std::alloc::Global;
use std::thread::Threads;

// The inputs of a command, read.
#[derive(Drop)]
pub(crate) enum Source {
    // Tiles, put together.
    Tiles(Inputs),
    // A store.
    Store(StoreFile),
}

impl Source {
    // The terrain.
    pub(crate) fn grid(&self) -> &Grid
        ensures value { result.now ≡ terrain_of (source_view self.now) }
    {
        match self {
            Source::Tiles(inputs) => &inputs.grid,
            Source::Store(file) => &file.grid,
        }
    }
}

// The inputs of a command: one store, or tiles.
pub(crate) fn read_sources<'a, R: Threads + Sync, S: Shelf>(
    rt: &R,
    alloc: Global,
    shelf: &mut S,
    inputs: &'a [String],
) -> Result<Source, Stop<'a>>
    requires few { length inputs.now ≤ 64 }
    ensures found { ByVerdict (list_map string_bytes inputs.now) (S.told shelf.old).files
        (λ verdict. IfSome (S.told shelf.old).files (λ files. Finds source_view result
        (sources_reading verdict (list_map string_bytes inputs.now) files).found)) }
    ensures calls { (verdict : Verdict) → IfSome (S.told shelf.old).files
        (λ files. CallsWithin (sources_reading verdict (list_map string_bytes inputs.now) files).fetches
        (S.told shelf.old).calls (S.told shelf.new).calls) }
    ensures reason { OnStop result (Rose (S.told shelf.old).faults (S.told shelf.new).faults) }
    ensures files_stay { (S.told shelf.new).files ≡ (S.told shelf.old).files }
    ensures faults_stay { (S.told shelf.old).faults ≤ (S.told shelf.new).faults }
{
    match store_name(inputs) {
        Some(name) => Ok(Source::Store(fetch_store(rt, alloc, shelf, name)?)),
        None => Ok(Source::Tiles(read_tiles(alloc, shelf, inputs)?)),
    }
}
