ghost use Rattle.std.specs.Prelude.{◌<◌};

use super::*;
use rice_residuals::BlockFault;
use std::alloc::Global;
use std::test::Fail;
use std::thread::Threads;
use store_model::{Field, StoreFault};

// 3 x 3 samples, all 0 but the middle one of 30000, in two levels.
const FIRST: [u8; 33] = [
    0x47, 0x43, 0x54, 0x31, 0, 0, 0, 3, 0, 0, 0, 3, 2, 0, 8, 0, 0, 0, 0, 0, 0, 0, 0, 0, 8, 0x03,
    0xff, 0xff, 0xff, 0xfc, 0xea, 0x60, 0x00,
];

// The same by steps of 3.
const SECOND: [u8; 34] = [
    0x47, 0x43, 0x54, 0x32, 0, 0, 0, 3, 0, 0, 0, 3, 2, 3, 0, 8, 0, 0, 0, 0, 0, 0, 0, 0, 0, 8, 0x03,
    0xff, 0xff, 0xff, 0xfc, 0x4e, 0x20, 0x00,
];

// The first fault of bytes, or none where they are a store.
fn fault_of(alloc: Global, bytes: &[u8]) -> Option<StoreFault> {
    match read_heights(alloc, bytes) {
        Ok(_) => None,
        Err(fault) => Some(fault),
    }
}

// What a store's header says, and the heights of its terrain's first three columns and rows.
fn stored(alloc: Global, bytes: &[u8]) -> Result<(Header, [[i16; 3]; 3]), StoreFault> {
    let StoredHeights { header, grid } = read_heights(alloc, bytes)?;
    let at = |x: i32, y: i32| grid.level_height(0, x, y);
    let heights = [
        [at(0, 0), at(1, 0), at(2, 0)],
        [at(0, 1), at(1, 1), at(2, 1)],
        [at(0, 2), at(1, 2), at(2, 2)],
    ];
    Ok((header, heights))
}

// A header of 3 x 3 samples and two levels.
fn header(version: u8, step: u8) -> Header {
    Header {
        version,
        width: 3,
        height: 3,
        levels: 2,
        step,
    }
}

// 3 x 3 heights of 0, but for the middle one.
fn middle(height: i16) -> [[i16; 3]; 3] {
    [[0, 0, 0], [0, height, 0], [0, 0, 0]]
}

#[test]
fn reads_both_versions(rt: HostRuntime) {
    let alloc = rt.alloc();
    assert_eq!(rt; stored(alloc, &FIRST), Ok((header(1, 1), middle(30000))));
    assert_eq!(rt; stored(alloc, &SECOND), Ok((header(2, 3), middle(30000))));
    let mut by_seven = SECOND;
    by_seven[13] = 7;
    by_seven[31] = 0x01;
    by_seven[32] = 0x1e;
    // 143 steps of 7 metres.
    assert_eq!(rt; fault_of(alloc, &by_seven), None);
    let mut by_nine = SECOND;
    by_nine[13] = 9;
    by_nine[31] = 0x1c;
    by_nine[32] = 0x72;
    // 3641 steps of 9 metres are 32769, which is brought to 32767.
    assert_eq!(rt; stored(alloc, &by_nine), Ok((header(2, 9), middle(32767))));
    by_nine[32] = 0x74;
    let out = StoreFault::OutOfRange {
        level: 0,
        i: 1,
        j: 1,
        value: 32778,
    };
    assert_eq!(rt; fault_of(alloc, &by_nine), Some(out));
}

#[test]
fn cut_files(rt: HostRuntime) {
    let alloc = rt.alloc();
    for n in 0..33 {
        let wanted = StoreFault::CutShort { offset: n as u64 };
        assert_eq!(rt; fault_of(alloc, &FIRST[..n]), Some(wanted), "at {n}");
    }
    for n in 0..34 {
        let wanted = StoreFault::CutShort { offset: n as u64 };
        assert_eq!(rt; fault_of(alloc, &SECOND[..n]), Some(wanted), "at {n}");
    }
    assert_eq!(rt; fault_of(alloc, b"H"), Some(StoreFault::BadMagic));
    assert_eq!(rt; fault_of(alloc, b"GCS"), Some(StoreFault::BadMagic));
    assert_eq!(rt; fault_of(alloc, b"GCT3"), Some(StoreFault::BadMagic));
}

// The first file with one byte changed.
fn changed(place: usize, byte: u8) -> [u8; 33]
    requires { place < 33 }
{
    let mut bytes = FIRST;
    bytes[place] = byte;
    bytes
}

#[test]
fn changed_files(rt: HostRuntime) {
    let alloc = rt.alloc();
    let bad = |level: u8, fault: BlockFault| StoreFault::BadBlock {
        level,
        bx: 0,
        by: 0,
        fault,
    };
    let of_field = |field: Field| StoreFault::BadHeader { field };
    for (place, byte, wanted) in [
        (0, 0x46, StoreFault::BadMagic),
        (3, 0x33, StoreFault::BadMagic),
        (7, 0, of_field(Field::Width)),
        (4, 4, of_field(Field::Width)),
        (11, 0, of_field(Field::Height)),
        (8, 4, of_field(Field::Height)),
        (12, 0, of_field(Field::Levels)),
        (12, 13, of_field(Field::Levels)),
        (14, 9, bad(1, BlockFault::Excess { bytes: 1 })),
        (32, 1, bad(0, BlockFault::BadPadding { bit: 63 })),
        (24, 9, StoreFault::CutShort { offset: 33 }),
    ] {
        assert!(rt; place < 33);
        assert_eq!(rt;
            fault_of(alloc, &changed(place, byte)),
            Some(wanted),
            "at {place}"
        );
    }
    let mut long = FIRST;
    long[30] = 0;
    long[31] = 5;
    assert_eq!(rt;
        fault_of(alloc, &long),
        Some(bad(0, BlockFault::LongForm { bit: 6 }))
    );
    let mut far = FIRST;
    far[29] = 0xfd;
    far[30] = 0x38;
    far[31] = 0x80;
    let out = StoreFault::OutOfRange {
        level: 0,
        i: 1,
        j: 1,
        value: 40000,
    };
    assert_eq!(rt; fault_of(alloc, &far), Some(out));
    let mut sides = SECOND;
    sides[4] = 1;
    sides[8] = 1;
    assert_eq!(rt; fault_of(alloc, &sides), Some(of_field(Field::Samples)));
    let mut step = SECOND;
    step[13] = 4;
    assert_eq!(rt; fault_of(alloc, &step), Some(of_field(Field::Step)));
}

#[test]
fn a_byte_more(rt: HostRuntime) -> Result<(), Fail> {
    let alloc = rt.alloc();
    let mut bytes = Vec::new(alloc);
    bytes.extend_from_slice(&FIRST)?;
    bytes.push(0)?;
    let wanted = StoreFault::Excess { offset: 33 };
    assert_eq!(rt; fault_of(alloc, bytes.as_slice()), Some(wanted));
    // A bad block comes before it.
    bytes[32] = 1;
    let fault = BlockFault::BadPadding { bit: 63 };
    let bad = StoreFault::BadBlock {
        level: 0,
        bx: 0,
        by: 0,
        fault,
    };
    assert_eq!(rt; fault_of(alloc, bytes.as_slice()), Some(bad));
    Ok(())
}

// 10 x 9 heights.
const HEIGHTS: [[i16; 10]; 9] = [
    [-90, -83, -62, -27, 22, 85, 162, 253, 358, 477],
    [-113, -103, -79, -41, 11, 62, 142, 236, 344, 466],
    [-136, -123, -96, -70, -15, 39, 122, 219, 315, 440],
    [-159, -143, -128, -84, -41, 16, 102, 187, 301, 414],
    [-182, -163, -145, -113, -67, -7, 82, 170, 272, 388],
    [-205, -198, -177, -142, -93, -30, 47, 138, 243, 362],
    [-228, -218, -194, -156, -104, -53, 27, 121, 229, 351],
    [-251, -238, -211, -185, -130, -76, 7, 104, 200, 325],
    [-274, -258, -243, -199, -156, -99, -13, 72, 186, 299],
];

// These heights in three levels, the finest of four blocks, as another program packed them.
const SLOPE: [u8; 117] = [
    0x47, 0x43, 0x54, 0x31, 0x00, 0x00, 0x00, 0x0a, 0x00, 0x00, 0x00, 0x09, 0x03, 0x00, 0x12, 0xff,
    0xa6, 0x00, 0x16, 0x01, 0x66, 0xff, 0x4a, 0xff, 0xbd, 0x01, 0x10, 0xfe, 0xee, 0xff, 0x64, 0x00,
    0xba, 0x00, 0x0f, 0x50, 0x7a, 0x20, 0x2c, 0x17, 0x9b, 0x5d, 0x8d, 0x99, 0xd8, 0x53, 0xb8, 0x65,
    0xa9, 0xba, 0x00, 0x25, 0x44, 0x00, 0x1e, 0xb3, 0x40, 0x22, 0x1a, 0x7a, 0x7f, 0x5b, 0x9e, 0xfe,
    0x70, 0x4c, 0xf3, 0x01, 0xe1, 0xf6, 0xe2, 0x03, 0xfc, 0x20, 0x73, 0xde, 0xf7, 0xbf, 0xdb, 0x50,
    0x5f, 0xd7, 0xa3, 0xdd, 0xc9, 0x35, 0x02, 0x47, 0x38, 0x00, 0x10, 0x8c, 0x78, 0x23, 0xc4, 0x18,
    0x70, 0x1d, 0x7f, 0x5c, 0x00, 0xfb, 0x02, 0xc0, 0x0f, 0xd2, 0xc0, 0x00, 0x04, 0x4d, 0xce, 0x7f,
    0x94, 0x00, 0x02, 0x8a, 0x10,
];

#[test]
fn blocks_row_by_row(rt: HostRuntime) -> Result<(), Fail> {
    let alloc = rt.alloc();
    let StoredHeights { header, grid } = match read_heights(alloc, &SLOPE) {
        Ok(stored) => stored,
        Err(fault) => panic!(rt; "{fault:?}"),
    };
    assert_eq!(rt; (header.version, header.levels, header.step), (1, 3, 1));
    assert_eq!(rt; (grid.width(), grid.height()), (10, 9));
    for y in 0..9 {
        for x in 0..10 {
            assert_eq!(rt; grid.level_height(0, x as i32, y as i32), HEIGHTS[y][x]);
        }
    }
    Ok(())
}

// Sides of a store of one level, in samples. It has 2,500 blocks, and is read in parts where there are processors.
const SIDE: usize = 400;

// The height in a column and a row of it.
fn height_at(x: usize, y: usize) -> i16
    requires column { x < 400 }
    requires row { y < 400 }
{
    ((x * 7 + y * 13) % 5000) as i16 - 2000
}

// The store, where blocks in some columns and rows of blocks have a byte too many.
fn plain_store(alloc: Global, long: &[(usize, usize)]) -> Result<Vec<u8>, Fail> {
    let mut bytes = Vec::new(alloc);
    bytes.extend_from_slice(b"GCT1\x00\x00\x01\x90\x00\x00\x01\x90\x01")?;
    for by in 0..SIDE / 8 {
        for bx in 0..SIDE / 8 {
            let more = long.contains(&(bx, by));
            bytes.extend_from_slice(&[0, if more { 129 } else { 128 }])?;
            for y in 0..8 {
                for x in 0..8 {
                    let height = height_at(8 * bx + x, 8 * by + y);
                    bytes.extend_from_slice(&height.to_be_bytes())?;
                }
            }
            if more {
                bytes.push(0)?;
            }
        }
    }
    Ok(bytes)
}

#[test]
fn blocks_side_by_side(rt: HostRuntime) -> Result<(), Fail> {
    let alloc = rt.alloc();
    let bytes = plain_store(alloc, &[])?;
    let StoredHeights { header, grid } = match read_heights_beside(&rt, alloc, bytes.as_slice()) {
        Ok(stored) => stored,
        Err(fault) => panic!(rt; "{fault:?}"),
    };
    assert_eq!(rt; (header.version, header.levels, header.step), (1, 1, 1));
    for y in 0..SIDE {
        for x in 0..SIDE {
            assert_eq!(rt; grid.level_height(0, x as i32, y as i32), height_at(x, y));
        }
    }
    Ok(())
}

// The first fault of bytes that are read side by side, or none where they are a store.
fn fault_beside<R: Threads + Sync>(rt: &R, alloc: Global, bytes: &[u8]) -> Option<StoreFault> {
    match read_heights_beside(rt, alloc, bytes) {
        Ok(_) => None,
        Err(fault) => Some(fault),
    }
}

#[test]
fn first_of_faults_side_by_side(rt: HostRuntime) -> Result<(), Fail> {
    let alloc = rt.alloc();
    let bad = |bx: u32, by: u32| StoreFault::BadBlock {
        level: 0,
        bx,
        by,
        fault: BlockFault::Excess { bytes: 1 },
    };
    let both = plain_store(alloc, &[(3, 11), (2, 41)])?;
    assert_eq!(rt; fault_beside(&rt, alloc, both.as_slice()), Some(bad(3, 11)));
    let mut late = plain_store(alloc, &[(2, 41)])?;
    assert_eq!(rt; fault_beside(&rt, alloc, late.as_slice()), Some(bad(2, 41)));
    // The same where the last block is cut short.
    let _ = late.pop();
    assert_eq!(rt; fault_beside(&rt, alloc, late.as_slice()), Some(bad(2, 41)));
    let mut cut = plain_store(alloc, &[])?;
    cut.truncate(300000);
    let wanted = StoreFault::CutShort { offset: 300000 };
    assert_eq!(rt; fault_beside(&rt, alloc, cut.as_slice()), Some(wanted));
    Ok(())
}
