//! HGT tiles by the names of their files: names are judged, files fetched and read, and the tiles joined.
ghost use Rattle.std.specs.Prelude.{◌≡◌, ◌+◌, ◌≤◌, ◌++◌, ◌∷◌, [], IfOk, OnOk, IfSome, Some};
ghost use Rattle.std.specs.Prelude.{length, map as list_map, option_map, string_bytes, sum_by, vec_len};
ghost use Rattle.std.specs.FinMap as finite;
ghost use Rattle.outer_shelf.specs.Counts.{Rose, one_more};
ghost use Rattle.terrain_model.specs.Mosaic.{first_side};
ghost use Rattle.hgt_tiles.specs.TileView.{most_voids, placed};
ghost use Rattle.clipmap_prog.specs.Inputs.{inputs_view, joined, name_reading, named_reading, named_view};
ghost use Rattle.clipmap_prog.specs.Inputs.{tile_of_file, tile_reading, tiles_reading};
ghost use Rattle.clipmap_prog.specs.Reading.{Finds, OnStop, each_of};
ghost use Rattle.run_actions.specs.Runs.{CallsWithin};

use crate::fault::{Fault, FileFault};
use crate::inputs::Inputs;
use crate::reading::Stop;
use hgt_tiles::{Corner, HgtTile, TileFault, read_name, read_tile};
use mosaic::{MosaicFault, join};
use outer_shelf::{Fetched, Shelf};
use run_actions::Halt;
use std::alloc::{AllocError, Global};

/// The most bytes that an HGT file may have: a square of 3601 samples a side, two bytes a sample.
pub const HGT_LIMIT: u64 = 25_934_402;

// The name of a tile, with the corner that it gives.
#[derive(Clone, Copy)]
pub(crate) struct Named<'a> {
    name: &'a str,
    corner: Corner,
}

// Appends an item to a list.
fn append<T: Drop>(list: &mut Vec<T>, item: T) -> Result<(), AllocError>
    ensures items { OnOk result (list.new.items ≡ list.old.items ++ item ∷ []) }
    ensures length { OnOk result (vec_len list.new ≡ vec_len list.old + 1) }
{
    list.push(item)?;
    Ok(())
}

// The name of a tile, judged.
fn judge_name<'a>(name: &'a str) -> Result<Named<'a>, Stop<'a>>
    ensures found { Finds named_view result (name_reading name.now).found }
    ensures reason { OnStop result ⊥ }
{
    match read_name(name) {
        Ok(corner) => Ok(Named { name, corner }),
        Err(_) => Err(Stop::Refused(Fault::BadName(name))),
    }
}

// The names of tiles, judged in their order.
fn judge_names<'a>(alloc: Global, names: &'a [String]) -> Result<Vec<Named<'a>>, Stop<'a>>
    ensures found { Finds (λ named. list_map named_view named.items) result
        (each_of name_reading (list_map string_bytes names.now)).found }
    ensures all { IfOk result (λ named. vec_len named ≡ length names.now) }
    ensures reason { OnStop result ⊥ }
{
    let mut judged = Vec::new(alloc);
    for name in names {
        let named = judge_name(name.as_str())?;
        if append(&mut judged, named).is_err() {
            return Err(Stop::Halted(Halt::NoMemory));
        }
    }
    Ok(judged)
}

// The tile of the bytes of a file, if it is one.
fn tile_of_file<'a>(alloc: Global, named: &Named<'a>, bytes: &[u8]) -> Result<HgtTile, Stop<'a>>
    requires in_limit { length bytes.now ≤ 25934402 }
    ensures found { Finds (λ tile. tile) result (tile_of_file (named_view named.now) (Some bytes.now)) }
    ensures reason { OnStop result ⊥ }
{
    match read_tile(alloc, named.corner, bytes) {
        Ok(tile) => Ok(tile),
        Err(TileFault::BadLength { length }) => {
            let fault = TileFault::BadLength { length };
            Err(Stop::Refused(Fault::Tile(named.name, fault)))
        }
        Err(TileFault::NoMemory) => Err(Stop::Halted(Halt::NoMemory)),
    }
}

// The tile of the file of that name, by one fetch. The file's bytes are gone once it is read.
fn fetch_tile<'a, S: Shelf>(
    alloc: Global,
    shelf: &mut S,
    named: &Named<'a>,
) -> Result<HgtTile, Stop<'a>>
    ensures found { IfSome (S.told shelf.old).files (λ files. Finds (λ tile. tile) result
        (tile_of_file (named_view named.now) (finite.get files named.now.name.now))) }
    ensures counted { (S.told shelf.new).calls ≡ option_map one_more (S.told shelf.old).calls }
    ensures reason { OnStop result (Rose (S.told shelf.old).faults (S.told shelf.new).faults) }
    ensures files_stay { (S.told shelf.new).files ≡ (S.told shelf.old).files }
    ensures faults_stay { (S.told shelf.old).faults ≤ (S.told shelf.new).faults }
{
    match shelf.fetch(alloc, named.name, HGT_LIMIT) {
        Fetched::Found(bytes) => tile_of_file(alloc, named, bytes.as_slice()),
        Fetched::Absent => Err(Stop::Refused(Fault::File(named.name, FileFault::Absent))),
        Fetched::TooLong { length, limit } => {
            let fault = FileFault::TooLong { length, limit };
            Err(Stop::Refused(Fault::File(named.name, fault)))
        }
        Fetched::Failed => Err(Stop::Halted(Halt::ShelfFailed)),
        Fetched::NoMemory => Err(Stop::Halted(Halt::NoMemory)),
    }
}

// The tiles of named files, each by one fetch, in their order.
fn fetch_tiles<'a, S: Shelf>(
    alloc: Global,
    shelf: &mut S,
    named: &[Named<'a>],
) -> Result<Vec<HgtTile>, Stop<'a>>
    ensures found { IfSome (S.told shelf.old).files (λ files. Finds (λ tiles. tiles.items) result
        (each_of (tile_reading files) (list_map named_view named.now)).found) }
    ensures all { IfOk result (λ tiles. vec_len tiles ≡ length named.now) }
    ensures calls { IfSome (S.told shelf.old).files
        (λ files. CallsWithin (each_of (tile_reading files) (list_map named_view named.now)).fetches
        (S.told shelf.old).calls (S.told shelf.new).calls) }
    ensures reason { OnStop result (Rose (S.told shelf.old).faults (S.told shelf.new).faults) }
    ensures files_stay { (S.told shelf.new).files ≡ (S.told shelf.old).files }
    ensures faults_stay { (S.told shelf.old).faults ≤ (S.told shelf.new).faults }
{
    let mut tiles = Vec::new(alloc);
    for one in named {
        let tile = fetch_tile(alloc, shelf, one)?;
        if append(&mut tiles, tile).is_err() {
            return Err(Stop::Halted(Halt::NoMemory));
        }
    }
    Ok(tiles)
}

// The side of the first of some tiles, and 0 where there is none.
fn first_side(tiles: &[HgtTile]) -> u32
    ensures value { result ≡ first_side (list_map placed tiles.now) }
{
    match tiles {
        [first, ..] => first.side(),
        [] => 0,
    }
}

// How many voids some tiles had in their files.
fn all_voids(tiles: &[HgtTile]) -> u64
    requires few { length tiles.now ≤ 64 }
    ensures value { result ≡ sum_by (λ tile. tile.voids) tiles.now }
{
    let mut voids = 0u64;
    for tile in tiles {
        voids += tile.voids();
    }
    voids
}

// Tiles put together.
fn join_tiles<'a>(alloc: Global, tiles: Vec<HgtTile>) -> Result<Inputs, Stop<'a>>
    requires few { vec_len tiles ≤ 64 }
    ensures found { Finds inputs_view result (joined tiles.items) }
    ensures reason { OnStop result ⊥ }
{
    let number = tiles.len();
    let side = first_side(tiles.as_slice());
    let voids = all_voids(tiles.as_slice());
    match join(alloc, tiles) {
        Ok(grid) => Ok(Inputs {
            grid,
            number,
            side,
            voids,
        }),
        Err(MosaicFault::NoMemory) => Err(Stop::Halted(Halt::NoMemory)),
        Err(fault) => Err(Stop::Refused(Fault::Mosaic(fault))),
    }
}

// Named tiles, fetched and read one after another and then put together.
fn read_named<'a, S: Shelf>(
    alloc: Global,
    shelf: &mut S,
    named: &[Named<'a>],
) -> Result<Inputs, Stop<'a>>
    requires few { length named.now ≤ 64 }
    ensures found { IfSome (S.told shelf.old).files (λ files. Finds inputs_view result
        (named_reading files (list_map named_view named.now)).found) }
    ensures calls { IfSome (S.told shelf.old).files
        (λ files. CallsWithin (named_reading files (list_map named_view named.now)).fetches
        (S.told shelf.old).calls (S.told shelf.new).calls) }
    ensures reason { OnStop result (Rose (S.told shelf.old).faults (S.told shelf.new).faults) }
    ensures files_stay { (S.told shelf.new).files ≡ (S.told shelf.old).files }
    ensures faults_stay { (S.told shelf.old).faults ≤ (S.told shelf.new).faults }
{
    let tiles = fetch_tiles(alloc, shelf, named)?;
    join_tiles(alloc, tiles)
}

// Tiles by their names. All names are judged before any file is fetched.
pub(crate) fn read_tiles<'a, S: Shelf>(
    alloc: Global,
    shelf: &mut S,
    names: &'a [String],
) -> Result<Inputs, Stop<'a>>
    requires few { length names.now ≤ 64 }
    ensures found { IfSome (S.told shelf.old).files (λ files. Finds inputs_view result
        (tiles_reading (list_map string_bytes names.now) files).found) }
    ensures calls { IfSome (S.told shelf.old).files
        (λ files. CallsWithin (tiles_reading (list_map string_bytes names.now) files).fetches
        (S.told shelf.old).calls (S.told shelf.new).calls) }
    ensures reason { OnStop result (Rose (S.told shelf.old).faults (S.told shelf.new).faults) }
    ensures files_stay { (S.told shelf.new).files ≡ (S.told shelf.old).files }
    ensures faults_stay { (S.told shelf.old).faults ≤ (S.told shelf.new).faults }
{
    let named = judge_names(alloc, names)?;
    read_named(alloc, shelf, named.as_slice())
}
