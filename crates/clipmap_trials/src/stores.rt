//! Stores that are cut and changed: the reader, an `info` and a frame say the same of them.
use crate::changes::{below, changed, next};
use memory_runs::{STORE, TILE, run};
use std::alloc::{AllocError, Global};
use std::test::Fail;
use std::thread::Threads;
use terrain_lines::store_fault_line;
use terrain_store::{Store, read_store};

// What is to be said of bytes: by `info`, and by a frame of two levels.
#[derive(Drop)]
struct Said {
    info: String,
    frame: String,
    is_store: bool,
    is_drawn: bool,
}

// The lines of an `info` of a store.
fn lines_of(alloc: Global, store: &Store) -> Result<String, AllocError> {
    let shape = store.shape();
    let (width, height, levels) = (shape.width(), shape.height(), shape.levels());
    let (least, most) = (store.least(), store.most());
    let (blocks, bytes) = (store.blocks(), store.bytes().len());
    let step = store.step();
    let head = format!(in alloc; "terrain {width} {height}\nheights {least} {most}\n")?;
    if store.version() == 1 {
        format!(in alloc; "{head}store version 1 levels {levels} blocks {blocks} bytes {bytes}\n")
    } else {
        format!(in alloc;
            "{head}store version 2 step {step} levels {levels} blocks {blocks} bytes {bytes}\n"
        )
    }
}

// What the reader of stores says of bytes, in the words of the commands.
fn said_of(alloc: Global, bytes: &[u8]) -> Result<Said, AllocError> {
    match read_store(alloc, Vec::from_slice(alloc, bytes)?) {
        Ok(store) => {
            let levels = store.shape().levels();
            let is_drawn = levels == 2;
            let frame = if is_drawn {
                format!(in alloc; "frame 0 vertices 386 triangles 714\n")?
            } else {
                format!(in alloc; "fault: LevelsDiffer {levels} 2\n")?
            };
            Ok(Said {
                info: lines_of(alloc, &store)?,
                frame,
                is_store: true,
                is_drawn,
            })
        }
        Err(fault) => Ok(Said {
            info: store_fault_line(alloc, fault)?,
            frame: store_fault_line(alloc, fault)?,
            is_store: false,
            is_drawn: false,
        }),
    }
}

// Whether `info` and a frame of two levels do with these bytes what the reader of stores says of them: they end with
// one line of its fault, or are done. Nothing else is written, and the store stays as it was.
fn agree<R: Threads + Sync + AllocGlobal>(rt: &R, bytes: &[u8]) -> Result<bool, Fail> {
    let said = said_of(rt.alloc(), bytes)?;
    let files = [("a.gct", bytes)];
    let left = run(rt, &["info", "a.gct"], &files)?;
    let told = left.status == if said.is_store { 0 } else { 2 }
        && left.log() == said.info.as_bytes()
        && left.file("o").is_none()
        && left.file("a.gct") == Some(bytes);
    let left = run(rt, &["frame", "4", "2", "1", "1", "o", "a.gct"], &files)?;
    let drawn = left.status == if said.is_drawn { 0 } else { 2 }
        && left.log() == said.frame.as_bytes()
        && left.file("o").is_some() == said.is_drawn
        && left.file("a.gct") == Some(bytes);
    Ok(told && drawn)
}

// The first line of an `info` of bytes.
fn is_cut_at(alloc: Global, bytes: &[u8]) -> Result<bool, Fail> {
    let length = bytes.len();
    let want = format!(in alloc; "fault: store CutShort {length}\n")?;
    Ok(said_of(alloc, bytes)?.info.as_bytes() == want.as_bytes())
}

// Each byte of the first store set to each other value, and each front of it.
#[test]
fn the_first_store_changed_and_cut(rt: HostRuntime) -> Result<(), Fail> {
    for place in 0..33usize {
        for change in 1..=255u8 {
            let mut bytes = STORE;
            bytes[place] ^= change;
            assert!(rt; agree(&rt, &bytes)?, "byte {place} by {change}");
        }
        assert!(rt; is_cut_at(rt.alloc(), &STORE[..place])?, "cut to {place}");
        assert!(rt; agree(&rt, &STORE[..place])?, "cut to {place}");
    }
    assert!(rt; agree(&rt, &STORE)?);
    Ok(())
}

// The two levels of 20 × 20 random heights in a store, by a step.
fn random_store<R: Threads + Sync + AllocGlobal>(
    rt: &R,
    step: &str,
    seed: u64,
) -> Result<Vec<u8>, Fail> {
    let alloc = rt.alloc();
    let mut tile = Vec::new(alloc);
    let mut seed = seed;
    for _ in 0..800u32 {
        seed = next(seed);
        tile.push(below(seed, 256) as u8)?;
    }
    let files = [(TILE, tile.as_slice())];
    let left = if step == "1" {
        run(rt, &["pack", "2", "o", TILE], &files)?
    } else {
        run(rt, &["packq", "2", step, "o", TILE], &files)?
    };
    Ok(Vec::from_slice(alloc, left.out())?)
}

// Each front of a store of random heights.
#[test]
fn random_stores_cut(rt: HostRuntime) -> Result<(), Fail> {
    for step in ["1", "3"] {
        let store = random_store(&rt, step, 7)?;
        assert!(rt; store.len() > 400 && said_of(rt.alloc(), &store)?.is_drawn);
        let mut front = Vec::new(rt.alloc());
        for byte in &store {
            assert!(rt; is_cut_at(rt.alloc(), &front)?, "cut to {}", front.len());
            assert!(rt; agree(&rt, &front)?, "cut to {}", front.len());
            front.push(*byte)?;
        }
    }
    Ok(())
}

// Random heights, of whose store one to four bytes are changed at random.
#[test]
fn random_stores_changed(rt: HostRuntime) -> Result<(), Fail> {
    for (step, cases) in [("1", 20000u64), ("3", 5000)] {
        let store = random_store(&rt, step, 8)?;
        let mut sound = 0u32;
        for seed in 0..cases {
            let bytes = changed(rt.alloc(), &store, seed, false)?;
            assert!(rt; agree(&rt, &bytes)?, "step {step} seed {seed}");
            if said_of(rt.alloc(), &bytes)?.is_drawn {
                sound = sound.saturating_add(1);
            }
        }
        assert!(rt; sound > 0 && u64::from(sound) < cases, "{sound}");
    }
    Ok(())
}
