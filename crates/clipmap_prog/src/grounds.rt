//! The store that a run is over: made of tiles, or read.
ghost use Rattle.std.specs.Prelude.{◌≡◌, ◌≤◌, IfOk, IfSome, length, map as list_map, option_map, string_bytes, vec_len};
ghost use Rattle.std.specs.FinMap as finite;
ghost use Rattle.outer_shelf.specs.Counts.{Rose, one_more};
ghost use Rattle.terrain_store.specs.Stores.{land_of};
ghost use Rattle.clipmap_prog.specs.Lands.{ground_view, kept_view, land_reading, land_with};
ghost use Rattle.clipmap_prog.specs.Reading.{Finds, OnStop};
ghost use Rattle.run_actions.specs.Runs.{CallsWithin};
ghost use Rattle.clipmap_prog.specs.Sources.{sources_reading};
ghost use Rattle.clipmap_prog.specs.Stores.{ByVerdict, IsVerdict, IsVerdictOnFile, Verdict, store_by, store_of_file};

use crate::fault::{Fault, FileFault};
use crate::inputs::{Inputs, store_name};
use crate::reading::Stop;
use crate::store_file::STORE_LIMIT;
use crate::tile_files::read_tiles;
use outer_shelf::{Fetched, Shelf};
use run_actions::Halt;
use std::alloc::Global;
use std::thread::Threads;
use store_model::StoreFault;
use terrain_store::{Store, pack, read_store_beside};

// The inputs of a run, read.
#[derive(Drop)]
pub(crate) enum Ground {
    // Tiles, put together.
    Tiles(Inputs),
    // A store.
    Store(Store),
}

// The store of the bytes of a file, if they are one.
fn judge_kept<'a, R: Threads + Sync>(
    rt: &R,
    alloc: Global,
    bytes: Vec<u8>,
) -> Result<Store, Stop<'a>>
    ensures found { (verdict : Verdict) → IsVerdict bytes.items verdict
        → Finds kept_view result (store_by (vec_len bytes) verdict) }
    ensures reason { OnStop result ⊥ }
{
    match read_store_beside(rt, alloc, bytes) {
        Ok(store) => Ok(store),
        Err(StoreFault::NoMemory) => Err(Stop::Halted(Halt::NoMemory)),
        Err(fault) => Err(Stop::Refused(Fault::Store(fault))),
    }
}

// The store of the file of that name, by one fetch.
fn fetch_kept<'a, R: Threads + Sync, S: Shelf>(
    rt: &R,
    alloc: Global,
    shelf: &mut S,
    name: &'a str,
) -> Result<Store, Stop<'a>>
    ensures found { (verdict : Verdict)
        → IfSome (S.told shelf.old).files (λ files. IsVerdictOnFile (finite.get files name.now) verdict)
        → IfSome (S.told shelf.old).files (λ files. Finds kept_view result
        (store_of_file name.now verdict (finite.get files name.now))) }
    ensures counted { (S.told shelf.new).calls ≡ option_map one_more (S.told shelf.old).calls }
    ensures reason { OnStop result (Rose (S.told shelf.old).faults (S.told shelf.new).faults) }
    ensures files_stay { (S.told shelf.new).files ≡ (S.told shelf.old).files }
    ensures faults_stay { (S.told shelf.old).faults ≤ (S.told shelf.new).faults }
{
    match shelf.fetch(alloc, name, STORE_LIMIT) {
        Fetched::Found(bytes) => judge_kept(rt, alloc, bytes),
        Fetched::Absent => Err(Stop::Refused(Fault::File(name, FileFault::Absent))),
        Fetched::TooLong { length, limit } => {
            let fault = FileFault::TooLong { length, limit };
            Err(Stop::Refused(Fault::File(name, fault)))
        }
        Fetched::Failed => Err(Stop::Halted(Halt::ShelfFailed)),
        Fetched::NoMemory => Err(Stop::Halted(Halt::NoMemory)),
    }
}

// The inputs of a run: one store, or tiles.
fn read_ground<'a, R: Threads + Sync, S: Shelf>(
    rt: &R,
    alloc: Global,
    shelf: &mut S,
    inputs: &'a [String],
) -> Result<Ground, Stop<'a>>
    requires few { length inputs.now ≤ 64 }
    ensures found { ByVerdict (list_map string_bytes inputs.now) (S.told shelf.old).files
        (λ verdict. IfSome (S.told shelf.old).files (λ files. Finds ground_view result
        (sources_reading verdict (list_map string_bytes inputs.now) files).found)) }
    ensures calls { (verdict : Verdict) → IfSome (S.told shelf.old).files
        (λ files. CallsWithin (sources_reading verdict (list_map string_bytes inputs.now) files).fetches
        (S.told shelf.old).calls (S.told shelf.new).calls) }
    ensures reason { OnStop result (Rose (S.told shelf.old).faults (S.told shelf.new).faults) }
    ensures files_stay { (S.told shelf.new).files ≡ (S.told shelf.old).files }
    ensures faults_stay { (S.told shelf.old).faults ≤ (S.told shelf.new).faults }
{
    match store_name(inputs) {
        Some(name) => Ok(Ground::Store(fetch_kept(rt, alloc, shelf, name)?)),
        None => Ok(Ground::Tiles(read_tiles(alloc, shelf, inputs)?)),
    }
}

// The store of tiles, exactly, with so many levels. Their grid is gone then.
fn packed<'a>(alloc: Global, tiles: Inputs, levels: u8) -> Result<Store, Stop<'a>>
    requires some { 1 ≤ levels }
    requires few { levels ≤ 12 }
    ensures found { Finds land_of result (land_with levels (ground_view (Ground.Tiles tiles))) }
    ensures levels { IfOk result (λ store. (land_of store).levels ≡ levels) }
    ensures reason { OnStop result ⊥ }
{
    match pack(alloc, &tiles.grid, levels) {
        Ok(store) => Ok(store),
        Err(_) => Err(Stop::Halted(Halt::NoMemory)),
    }
}

// A store, if it has so many levels.
fn levelled<'a>(store: Store, asked: u8) -> Result<Store, Stop<'a>>
    ensures found { Finds land_of result (land_with asked (ground_view (Ground.Store store))) }
    ensures levels { IfOk result (λ store. (land_of store).levels ≡ asked) }
    ensures reason { OnStop result ⊥ }
{
    let stored = store.shape().levels();
    if stored != asked {
        return Err(Stop::Refused(Fault::LevelsDiffer { stored, asked }));
    }
    Ok(store)
}

// The inputs of a run with so many levels, as a store: tiles are packed, and a store has to have as many.
#[tactic(auto, unfolding(crate::specs::Lands::land_reading))]
pub(crate) fn read_land<'a, R: Threads + Sync, S: Shelf>(
    rt: &R,
    alloc: Global,
    shelf: &mut S,
    inputs: &'a [String],
    levels: u8,
) -> Result<Store, Stop<'a>>
    requires few_inputs { length inputs.now ≤ 64 }
    requires some { 1 ≤ levels }
    requires few { levels ≤ 12 }

    // It finds what the definition's reading finds, by as many calls at most.
    ensures found { ByVerdict (list_map string_bytes inputs.now) (S.told shelf.old).files
        (λ verdict. IfSome (S.told shelf.old).files (λ files. Finds land_of result
        (land_reading verdict (list_map string_bytes inputs.now) levels files).found)) }
    ensures levels { IfOk result (λ store. (land_of store).levels ≡ levels) }
    ensures calls { (verdict : Verdict) → IfSome (S.told shelf.old).files
        (λ files. CallsWithin (land_reading verdict (list_map string_bytes inputs.now) levels files).fetches
        (S.told shelf.old).calls (S.told shelf.new).calls) }

    // A stop has a reason, and no file changes.
    ensures reason { OnStop result (Rose (S.told shelf.old).faults (S.told shelf.new).faults) }
    ensures files_stay { (S.told shelf.new).files ≡ (S.told shelf.old).files }
    ensures faults_stay { (S.told shelf.old).faults ≤ (S.told shelf.new).faults }
{
    match read_ground(rt, alloc, shelf, inputs)? {
        Ground::Tiles(tiles) => packed(alloc, tiles, levels),
        Ground::Store(store) => levelled(store, levels),
    }
}
