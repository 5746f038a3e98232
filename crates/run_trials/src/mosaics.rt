//! A flight of forty lines over a mosaic of two tiles, by several numbers of workers.

ghost use Rattle.std.specs.Prelude.{◌≡◌, IfOk};
ghost use Rattle.clip_runs.specs.Courses.{AreWorkers, IsFlyInRange};
ghost use Rattle.clip_script.specs.Scripts.{fly_view};
ghost use Rattle.terrain_store.specs.Stores.{land_of};

use crate::runs::{Left, flight_of, run, script_of};
use clip_runs::Course;
use clip_script::{FlyScript, write_step};
use hgt_tiles::{Corner, HgtTile, read_tile};
use mosaic::join;
use plan_plain::fly_events;
use std::alloc::{AllocError, Global};
use std::test::Fail;
use std::thread::Threads;
use terrain_store::{Store, pack};

// The lines of the flight with the sizes: frames of windows that are filled in part and of whole ones.
const FLIGHT: &str =
    "size 4 3\nmove 20 9\nframe\nsettle\nmove 24 12\nframe\nsettle\nmove 31 16\nframe\nsettle\n\
    move 40 16\nframe\nsettle\nmove 47 18\nframe\nsettle\nmove 44 25\nframe\nsettle\nmove 12 25\nframe\nsettle\n\
    frame\nmove -9 -9\nframe\nsettle\nmove 64 32\nframe\nsettle\nmove 30 2 7\nframe\nsettle\n\
    move 30 3 3\nframe\nsettle\nmove 33 3\nmove 34 4\nframe\nsettle\nframe\n";

// A tile of 33 × 33 samples at a corner, with heights from 0 to 4095 that are drawn from a seed.
fn drawn_tile(alloc: Global, corner: Corner, seed: u32) -> Result<HgtTile, Fail> {
    let mut bytes = Vec::new(alloc);
    let mut state = seed;
    'drawn: for _ in 0..1089u16 {
        state = state.wrapping_mul(1664525).wrapping_add(1013904223);
        let [high, low, ..] = state.to_be_bytes();
        bytes.push(high % 16)?;
        bytes.push(low)?;
    }
    Ok(read_tile(alloc, corner, bytes.as_slice())?)
}

// The store of two such tiles, the second to the east of the first, in three levels.
fn two_tiles(alloc: Global) -> Result<Store, Fail>
    ensures { IfOk result (λ store. (land_of store).levels ≡ 3) }
{
    let mut tiles = Vec::new(alloc);
    tiles.push(drawn_tile(alloc, Corner { lat: 0, lon: 0 }, 1)?)?;
    tiles.push(drawn_tile(alloc, Corner { lat: 0, lon: 1 }, 2)?)?;
    let grid = join(alloc, tiles)?;
    Ok(pack(alloc, &grid, 3)?)
}

// The play script of the events that the flight has by its definition.
fn events_text(alloc: Global, script: &FlyScript, workers: u8) -> Result<Vec<u8>, Fail>
    requires in_range { IsFlyInRange 3 (fly_view script.now) }
    requires workers { AreWorkers workers }
{
    let events = fly_events(
        alloc,
        script.k,
        script.levels,
        workers,
        script.lines.as_slice(),
    )?;
    let mut text = Vec::new(alloc);
    text.extend_from_slice(b"size 4 3\n")?;
    for asked in &events {
        write_step(&mut text, asked.pass, &asked.event)?;
    }
    Ok(text)
}

// Whether two runs left the same frames, all fourteen.
fn same_frames(alloc: Global, one: &Left, other: &Left) -> Result<bool, AllocError> {
    let mut same = true;
    for number in 0..14u8 {
        let name = format!(in alloc; "out-{number}.obj")?;
        let file = one.file(name.as_str());
        same &= !file.is_empty() && file == other.file(name.as_str());
    }
    Ok(same)
}

// Flies over the store, and plays the events that the flight has by its definition: what was flown, where both left the
// same log and the same frames.
fn flown_and_played<R: Threads + Sync + AllocGlobal>(
    rt: &R,
    store: &Store,
    workers: u8,
) -> Result<Left, Fail>
    requires levels { (land_of store.now).levels ≡ 3 }
    requires workers { AreWorkers workers }
{
    let alloc = rt.alloc();
    let script = flight_of(alloc, FLIGHT.as_bytes(), 3)?;
    let text = events_text(alloc, &script, workers)?;
    let course = Course::Fly {
        script: &script,
        workers,
    };
    let flown = run(rt, store, &course)?;
    let play = script_of(alloc, text.as_slice(), 3)?;
    let played = run(rt, store, &Course::Play(&play))?;
    if flown.log() != played.log() || !same_frames(alloc, &flown, &played)? {
        return Err("a flight isn't a play of its events".into());
    }
    Ok(flown)
}

#[test]
fn a_flight_by_any_number_of_workers(rt: HostRuntime) -> Result<(), Fail> {
    let store = two_tiles(rt.alloc())?;
    let first = flown_and_played(&rt, &store, 1)?;
    for workers in [2u8, 3, 15] {
        if 1 <= workers && workers <= 15 {
            let left = flown_and_played(&rt, &store, workers)?;
            assert!(rt; left.log() != first.log());
            assert!(rt; same_frames(rt.alloc(), &left, &first)?);
        }
    }
    Ok(())
}
