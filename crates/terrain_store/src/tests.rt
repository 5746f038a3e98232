ghost use Rattle.std.specs.Prelude.{◌≡◌};

use super::*;
use block_heights::{Block, Kind};
use clip_regions::Region;
use height_pyramid::Grid;
use rice_residuals::BlockFault;
use std::alloc::Global;
use std::mem::size_of;
use std::snapshot::Snapshot;
use std::test::Fail;

// 3 x 3 samples, all 0 but the middle one.
fn peak(alloc: Global, height: i16) -> Result<Grid, Fail> {
    Ok(Grid::new(3, 3, vec![in alloc; 0i16, 0, 0, 0, height, 0, 0, 0, 0]?))
}

// The first file: the peak of 30000 metres in two levels.
const FIRST: [u8; 33] = [
    0x47, 0x43, 0x54, 0x31, 0, 0, 0, 3, 0, 0, 0, 3, 2, 0, 8, 0, 0, 0, 0, 0, 0, 0, 0, 0, 8, 0x03,
    0xff, 0xff, 0xff, 0xfc, 0xea, 0x60, 0x00,
];

// The first heights of a terrain, row by row.
fn heights_of(grid: &Grid) -> [[i16; 3]; 3] {
    let at = |x: i32, y: i32| grid.level_height(0, x, y);
    [
        [at(0, 0), at(1, 0), at(2, 0)],
        [at(0, 1), at(1, 1), at(2, 1)],
        [at(0, 2), at(1, 2), at(2, 2)],
    ]
}

#[test]
fn the_first_file(rt: HostRuntime) -> Result<(), Fail> {
    let alloc = rt.alloc();
    let store = pack(alloc, &peak(alloc, 30000)?, 2)?;
    assert_eq!(rt; store.bytes(), &FIRST[..]);
    assert_eq!(rt;
        (store.least(), store.most(), store.blocks()),
        (0, 30000, 2)
    );
    assert_eq!(rt; (store.version(), store.step()), (1, 1));
    let shape = store.shape();
    assert_eq!(rt; (shape.width(), shape.height(), shape.levels()), (3, 3, 2));
    let wanted = [[0, 0, 0], [0, 30000, 0], [0, 0, 0]];
    assert_eq!(rt; heights_of(&store.grid(alloc)?), wanted);
    Ok(())
}

#[test]
fn a_store_by_steps_of_nine(rt: HostRuntime) -> Result<(), Fail> {
    let alloc = rt.alloc();
    let store = pack_by(alloc, &peak(alloc, 32767)?, 2, 9)?;
    // 3641 steps of 9 metres are 32769, which is brought to 32767.
    assert_eq!(rt;
        store.bytes(),
        &[
            0x47, 0x43, 0x54, 0x32, 0, 0, 0, 3, 0, 0, 0, 3, 2, 9, 0, 8, 0, 0, 0, 0, 0, 0, 0, 0, 0,
            8, 0x03, 0xff, 0xff, 0xff, 0xfc, 0x1c, 0x72, 0x00,
        ][..]
    );
    assert_eq!(rt; (store.version(), store.step(), store.blocks()), (2, 9, 2));
    // By 7 the peak of 1000 metres becomes one of 143 steps, 1001 metres.
    let store = pack_by(alloc, &peak(alloc, 1000)?, 2, 7)?;
    assert_eq!(rt; (store.least(), store.most()), (0, 1001));
    assert_eq!(rt; heights_of(&store.grid(alloc)?)[1], [0, 1001, 0]);
    Ok(())
}

// The fault of bytes, or the number of blocks of a store.
fn read(alloc: Global, bytes: Vec<u8>) -> Result<u64, StoreFault> {
    Ok(read_store(alloc, bytes)?.blocks())
}

#[test]
fn reads_bytes(rt: HostRuntime) -> Result<(), Fail> {
    let alloc = rt.alloc();
    let mut bytes = Vec::new(alloc);
    bytes.extend_from_slice(&FIRST)?;
    assert_eq!(rt; read(alloc, bytes.clone()?), Ok(2));
    bytes.push(0)?;
    let excess = StoreFault::Excess { offset: 33 };
    assert_eq!(rt; read(alloc, bytes.clone()?), Err(excess));
    let fault = BlockFault::BadPadding { bit: 63 };
    let bad = StoreFault::BadBlock {
        level: 0,
        bx: 0,
        by: 0,
        fault,
    };
    bytes[32] = 1;
    assert_eq!(rt; read(alloc, bytes), Err(bad));
    assert_eq!(rt;
        read(alloc, Vec::new(alloc)),
        Err(StoreFault::CutShort { offset: 0 })
    );
    Ok(())
}

#[test]
fn reads_bytes_side_by_side(rt: HostRuntime) -> Result<(), Fail> {
    let alloc = rt.alloc();
    let mut heights = Vec::new(alloc);
    for n in 0..160801u32 {
        heights.push((n % 401 * 3 + n / 401 * 5 % 700) as i16)?;
    }
    let mut whole = heights;
    whole.resize(160801, 0)?;
    let packed = pack(alloc, &Grid::new(401, 401, whole), 4)?;
    let mut bytes = Vec::new(alloc);
    bytes.extend_from_slice(packed.bytes())?;
    let store = read_store_beside(&rt, alloc, bytes.clone()?)?;
    assert!(rt; store.bytes() == packed.bytes());
    assert_eq!(rt;
        (store.least(), store.most(), store.blocks()),
        (0, 1895, packed.blocks())
    );
    bytes.push(0)?;
    let excess = StoreFault::Excess {
        offset: packed.bytes().len() as u64,
    };
    match read_store_beside(&rt, alloc, bytes) {
        Ok(_) => panic!(rt; "a store"),
        Err(fault) => assert_eq!(rt; fault, excess),
    }
    Ok(())
}

// The cells from one to another.
fn region(x0: i32, y0: i32, x1: i32, y1: i32) -> Region {
    Region { x0, y0, x1, y1 }
}

// The bytes of a block.
fn content_of(block: Block<'_>) -> &[u8] {
    match block.kind {
        Kind::Outside => &[],
        Kind::Plain(bytes) => bytes,
        Kind::Words(bytes) => bytes,
    }
}

#[test]
fn blocks_of_the_first_file(rt: HostRuntime) -> Result<(), Fail> {
    let alloc = rt.alloc();
    let store = pack(alloc, &peak(alloc, 30000)?, 2)?;
    let coarse = store.block(1, 0, 0);
    assert_eq!(rt;
        (coarse.level, coarse.bx, coarse.by, coarse.step),
        (1, 0, 0, 1)
    );
    assert_eq!(rt; coarse.inside, region(0, 0, 1, 1));
    assert!(rt; matches!(coarse.kind, Kind::Plain(_)));
    assert_eq!(rt; content_of(coarse), &FIRST[15..23]);
    let fine = store.block(0, 0, 0);
    assert_eq!(rt; fine.inside, region(0, 0, 2, 2));
    assert!(rt; matches!(fine.kind, Kind::Words(_)));
    assert_eq!(rt; content_of(fine), &FIRST[25..33]);
    for (level, bx, by) in [(0, 1, 0), (0, 0, -1), (0, i32::MAX, i32::MIN), (2, 0, 0)] {
        let none = store.block(level, bx, by);
        assert!(rt; none.inside.is_empty());
        assert!(rt; matches!(none.kind, Kind::Outside));
    }
    Ok(())
}

// 300 columns and 100 rows of heights that jump: sample k has 7919 k mod 2001, less 1000.
fn rough(alloc: Global) -> Result<Grid, Fail> {
    let mut heights = Vec::new(alloc);
    for k in 0..30000u32 {
        heights.push((k * 7919 % 2001) as i16 - 1000)?;
    }
    if heights.len() != 30000 {
        return Err(Fail::new("not 30000 heights"));
    }
    Ok(Grid::new(300, 100, heights))
}

// The bytes of a block with their number before them, unless it has no cells.
fn put_block(out: &mut Vec<u8>, block: Block<'_>) -> Result<(), Fail> {
    if matches!(block.kind, Kind::Outside) {
        return Ok(());
    }
    let content = content_of(block);
    if content.len() > 65535 {
        return Err(Fail::new("a long block"));
    }
    out.extend_from_slice(&(content.len() as u16).to_be_bytes())?;
    out.extend_from_slice(content)?;
    Ok(())
}

#[test]
fn a_store_is_its_header_and_its_blocks(rt: HostRuntime) -> Result<(), Fail> {
    let alloc = rt.alloc();
    for step in [1, 9] {
        let store = pack_by(alloc, &rough(alloc)?, 4, step)?;
        let mut out = Vec::new(alloc);
        out.extend_from_slice(&[0x47, 0x43, 0x54, 0x32, 0, 0, 1, 44, 0, 0, 0, 100, 4, step])?;
        for n in 0..4 {
            for by in -1..14 {
                for bx in -1..40 {
                    put_block(&mut out, store.block(3 - n, bx, by))?;
                }
            }
        }
        assert!(rt; store.bytes() == out.as_slice());
        // 5 x 2, 10 x 4, 19 x 7 and 38 x 13 blocks.
        assert_eq!(rt; store.blocks(), 10 + 40 + 133 + 494);
    }
    Ok(())
}

// Takes what threads may share.
fn shared<T: Send + Sync>(_value: &T) {}

#[test]
fn threads_share_stores_and_shapes(rt: HostRuntime) -> Result<(), Fail> {
    let alloc = rt.alloc();
    let store = pack(alloc, &peak(alloc, 7)?, 1)?;
    shared(&store);
    shared(&store.shape());
    Ok(())
}

// The name of a shape's terrain, once more.
fn named(shape: &Shape) -> Snapshot<Shape>
    ensures { result.value ≡ shape.now }
{
    Snapshot::of(shape)
}

#[test]
fn a_snapshot_names_the_terrain_of_a_shape(rt: HostRuntime) -> Result<(), Fail> {
    let alloc = rt.alloc();
    let shape = pack(alloc, &peak(alloc, 7)?, 1)?.shape();
    let first = named(&shape);
    let second = named(&shape);
    shared(&first);
    shared(&second);
    assert_eq!(rt; size_of::<Snapshot<Shape>>(), 0);
    Ok(())
}
