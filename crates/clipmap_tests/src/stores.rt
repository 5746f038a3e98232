//! Worked examples of stores, over a shelf and a sink in memory.
use height_pyramid::Grid;
use memory_runs::{Left, STORE, TILE, run};
use outer_shelf::NoMemory;
use std::alloc::Global;
use std::thread::Threads;
use store_reader::read_heights;
use store_writer::canonical_bytes;

// Bytes in hexadecimal.
fn hex(alloc: Global, bytes: &[u8]) -> Result<String, NoMemory> {
    let mut text = String::new(alloc);
    for byte in bytes {
        if write!(text, "{byte:02x}").is_err() {
            return Err(NoMemory);
        }
    }
    Ok(text)
}

// The tile of 3 × 3 samples that are 0, but for the middle one.
fn peak(height: u16) -> [u8; 18] {
    let mut bytes = [0u8; 18];
    bytes[8] = (height / 256) as u8;
    bytes[9] = (height % 256) as u8;
    bytes
}

#[test]
fn packs_a_tile(rt: HostRuntime) {
    let alloc = rt.alloc();
    // 32767 where x + y is even, and -32767 elsewhere.
    let mut board = [0u8; 18];
    for n in 0..9usize {
        board[2 * n] = if n % 2 == 0 { 0x7f } else { 0x80 };
        board[2 * n + 1] = if n % 2 == 0 { 0xff } else { 0x01 };
    }
    let (first, second, third) = (peak(30000), peak(1000), peak(32767));
    let exact = ["pack", "2", "o", TILE].as_slice();
    let by_three = ["packq", "2", "3", "o", TILE].as_slice();
    let by_seven = ["packq", "2", "7", "o", TILE].as_slice();
    let by_nine = ["packq", "2", "9", "o", TILE].as_slice();
    let table = [
        (
            exact,
            first.as_slice(),
            "4743543100000003000000030200080000000000000000000803fffffffcea6000",
            "packed 33 bytes 2 blocks\n",
        ),
        (
            exact,
            board.as_slice(),
            "4743543100000003000000030200087fff7fff7fff7fff000dff1ffbf1ffb43fff1ffbf1ffb0",
            "packed 38 bytes 2 blocks\n",
        ),
        (
            by_three,
            first.as_slice(),
            "474354320000000300000003020300080000000000000000000803fffffffc4e2000",
            "packed 34 bytes 2 blocks\n",
        ),
        (
            by_seven,
            second.as_slice(),
            "47435432000000030000000302070008000000000000000000065000ff780000",
            "packed 32 bytes 2 blocks\n",
        ),
        (
            by_nine,
            third.as_slice(),
            "474354320000000300000003020900080000000000000000000803fffffffc1c7200",
            "packed 34 bytes 2 blocks\n",
        ),
    ];
    for (words, tile, bytes, output) in table {
        let Ok(left) = run(&rt, words, &[(TILE, tile)]) else {
            panic!(rt; "no memory");
        };
        assert!(rt; left.log() == output.as_bytes(), "{output}");
        let Some(file) = left.done("o") else {
            panic!(rt; "no file");
        };
        let Ok(found) = hex(alloc, file) else {
            panic!(rt; "no memory");
        };
        assert!(rt; found.as_str() == bytes, "{output}");
    }
}

// A store of version 1 is carried over to version 2 by the step 1.
#[test]
fn carries_a_store_over(rt: HostRuntime) {
    let words = ["packq", "2", "1", "o", "out.gct"];
    let Ok(left) = run(&rt, &words, &[("out.gct", &STORE)]) else {
        panic!(rt; "no memory");
    };
    let Some(file) = left.done("o") else {
        panic!(rt; "no file");
    };
    let Ok(found) = hex(rt.alloc(), file) else {
        panic!(rt; "no memory");
    };
    let want = "474354320000000300000003020100080000000000000000000803fffffffcea6000";
    assert_eq!(rt; found.as_str(), want);
    let Ok(left) = told(&rt, file) else {
        panic!(rt; "no memory");
    };
    let line = "terrain 3 3\nheights 0 30000\nstore version 2 step 1 levels 2 blocks 2 bytes 34\n";
    assert_eq!(rt; left.status, 0);
    assert!(rt; left.log() == line.as_bytes());
}

// A store with other bytes in these places.
fn changed(first: usize, second: usize, bytes: [u8; 2]) -> [u8; 33] {
    let mut store = STORE;
    if first < 33 && second < 33 {
        store[first] = bytes[0];
        store[second] = bytes[1];
    }
    store
}

#[test]
fn tells_of_tiles_and_stores(rt: HostRuntime) {
    let voids = [
        128, 0, 128, 0, 128, 0, 128, 0, 0, 5, 128, 0, 0, 7, 128, 0, 0, 9u8,
    ];
    let by_nine = [
        0x47, 0x43, 0x54, 0x32, 0, 0, 0, 3, 0, 0, 0, 3, 2, 9, 0, 8, 0, 0, 0, 0, 0, 0, 0, 0, 0, 8,
        0x03, 0xff, 0xff, 0xff, 0xfc, 0x1c, 0x72, 0x00u8,
    ];
    let mut out = by_nine;
    out[32] = 0x74;
    let table = [
        (
            TILE,
            voids.as_slice(),
            0,
            "terrain 3 3\nheights 0 9\ntiles 1 side 3 voids 6\n",
        ),
        (
            "a/b.GcT",
            STORE.as_slice(),
            0,
            "terrain 3 3\nheights 0 30000\nstore version 1 levels 2 blocks 2 bytes 33\n",
        ),
        (
            "o.gct",
            by_nine.as_slice(),
            0,
            "terrain 3 3\nheights 0 32767\nstore version 2 step 9 levels 2 blocks 2 bytes 34\n",
        ),
        (
            "o.gct",
            out.as_slice(),
            2,
            "fault: store OutOfRange 0 1 1 32778\n",
        ),
        (TILE, &voids[..17], 2, "fault: BadLength N00E000.hgt 17\n"),
    ];
    for (name, bytes, status, output) in table {
        let Ok(left) = run(&rt, &["info", name], &[(name, bytes)]) else {
            panic!(rt; "no memory");
        };
        assert_eq!(rt; left.status, status, "{output}");
        assert!(rt; left.log() == output.as_bytes(), "{output}");
    }
}

// What `info` says of bytes as a store.
fn told<R: Threads + Sync + AllocGlobal>(rt: &R, bytes: &[u8]) -> Result<Left, NoMemory> {
    run(rt, &["info", "out.gct"], &[("out.gct", bytes)])
}

// Every fault of a store, once, with its line.
#[test]
fn faulty_stores(rt: HostRuntime) {
    let longer = {
        let mut bytes = [0u8; 34];
        for n in 0..33usize {
            bytes[n] = STORE[n];
        }
        bytes
    };
    let mut even = longer;
    even[3] = 0x32;
    even[13] = 2;
    let magic = changed(0, 1, [0x47, 0x42]);
    let width = changed(6, 7, [0, 0]);
    let height = changed(8, 11, [4, 1]);
    let samples = changed(4, 8, [2, 2]);
    let levels = changed(12, 12, [13, 13]);
    let padding = changed(31, 32, [0x60, 1]);
    let short_block = changed(24, 24, [7, 7]);
    let long_form = changed(30, 31, [0, 5]);
    let mut range = changed(29, 30, [0xfd, 0x38]);
    range[31] = 0x80;
    let table = [
        (magic.as_slice(), "BadMagic"),
        (width.as_slice(), "BadHeader width"),
        (height.as_slice(), "BadHeader height"),
        (samples.as_slice(), "BadHeader samples"),
        (levels.as_slice(), "BadHeader levels"),
        (even.as_slice(), "BadHeader step"),
        (&STORE[..12], "CutShort 12"),
        (padding.as_slice(), "BadBlock 0 0 0 BadPadding 63"),
        (short_block.as_slice(), "BadBlock 0 0 0 CutShort 56"),
        (long_form.as_slice(), "BadBlock 0 0 0 LongForm 6"),
        (range.as_slice(), "OutOfRange 0 1 1 40000"),
        (longer.as_slice(), "Excess 33"),
    ];
    for (bytes, words) in table {
        let Ok(left) = told(&rt, bytes) else {
            panic!(rt; "no memory");
        };
        let want = format!(in rt.alloc(); "fault: store {words}\n").expect(&rt, "memory");
        assert_eq!(rt; left.status, 2, "{words}");
        assert!(rt; left.log() == want.as_bytes(), "{words}");
    }
}

// Which inputs each command takes, and what comes first.
#[test]
fn refused_stores(rt: HostRuntime) {
    let tile = peak(1);
    let files = [(TILE, tile.as_slice()), ("a.gct", [0u8; 3].as_slice())];
    let table = [
        (
            ["pack", "2", "o", "a.gct"].as_slice(),
            2,
            "fault: BadName a.gct\n",
        ),
        (
            ["pack", "2", "o", "b.GCT"].as_slice(),
            2,
            "fault: BadName b.GCT\n",
        ),
        (
            ["pack", "2", "o", "a.gct", TILE].as_slice(),
            1,
            "fault: words\n",
        ),
        (
            ["packq", "2", "3", "o", "a.gct"].as_slice(),
            2,
            "fault: store BadMagic\n",
        ),
        (
            ["packq", "2", "3", "o", "b.gct"].as_slice(),
            2,
            "fault: Absent b.gct\n",
        ),
        (
            ["packq", "2", "4", "o", "a.gct"].as_slice(),
            1,
            "fault: words\n",
        ),
        (["info", "b.gct"].as_slice(), 2, "fault: Absent b.gct\n"),
        (["info", TILE, "b.gct"].as_slice(), 1, "fault: words\n"),
        (
            ["info", "N00E001.hgt"].as_slice(),
            2,
            "fault: Absent N00E001.hgt\n",
        ),
        (["info"].as_slice(), 1, "fault: words\n"),
    ];
    for (words, status, output) in table {
        let Ok(left) = run(&rt, words, &files) else {
            panic!(rt; "no memory");
        };
        assert_eq!(rt; left.status, status, "{output}");
        assert!(rt; left.log() == output.as_bytes(), "{output}");
        assert!(rt; left.file("o").is_none(), "{output}");
    }
}

// A frame over a store by the step 7 of the tile with 1000 in the middle: the height that comes back is 1001.
#[test]
fn draws_over_a_store(rt: HostRuntime) {
    let store = [
        0x47, 0x43, 0x54, 0x32, 0, 0, 0, 3, 0, 0, 0, 3, 2, 7, 0, 8, 0, 0, 0, 0, 0, 0, 0, 0, 0, 6,
        0x50, 0, 0xff, 0x78, 0, 0u8,
    ];
    let files = [("o.gct", store.as_slice())];
    let words = ["frame", "4", "2", "1", "1", "o", "o.gct"];
    let Ok(left) = run(&rt, &words, &files) else {
        panic!(rt; "no memory");
    };
    let Some(file) = left.done("o") else {
        panic!(rt; "no file");
    };
    let vertices = file
        .split(|byte| *byte == b'\n')
        .filter(|line| line.starts_with(b"v ".as_slice()));
    assert!(rt; vertices.skip(112).next() == Some(b"v 1 1001.00000 1".as_slice()));
    let words = ["frame", "4", "3", "1", "1", "o", "o.gct"];
    let Ok(left) = run(&rt, &words, &files) else {
        panic!(rt; "no memory");
    };
    assert_eq!(rt; left.status, 2);
    assert!(rt; left.log() == b"fault: LevelsDiffer 2 3\n".as_slice());
    assert!(rt; left.file("o").is_none());
}

// 100 × 67 heights drawn at random, from the lowest to the highest of 16 bits.
fn random_heights(alloc: Global) -> Option<Grid> {
    let mut heights = Vec::new(alloc);
    let mut state = 1u64;
    for _ in 0..6700u32 {
        state = state
            .wrapping_mul(6_364_136_223_846_793_005)
            .wrapping_add(1_442_695_040_888_963_407);
        let drawn = i32::from((state >> 48) as u16) - 32768;
        if heights.push(drawn as i16).is_err() {
            return None;
        }
    }
    if heights.len() == 6700 {
        Some(Grid::new(100, 67, heights))
    } else {
        None
    }
}

// The greatest distance in metres of the heights in two exact stores of one level and one size. Behind the first byte
// they are pairs of bytes: of the header and of lengths, which are the same in both, and of heights.
fn farthest(first: &[u8], second: &[u8]) -> i32 {
    let ([_, first @ ..], [_, second @ ..]) = (first, second) else {
        return 0;
    };
    let mut most = 0;
    for (one, other) in first.chunks(2).zip(second.chunks(2)) {
        let ([a, b], [c, d]) = (one, other) else {
            continue;
        };
        let height = i32::from(i16::from_be_bytes([*a, *b]));
        let distance = (height - i32::from(i16::from_be_bytes([*c, *d]))).abs();
        if distance > most {
            most = distance;
        }
    }
    most
}

// Random heights by any number of levels: the exact store is carried over by a step, and what is read of the file lies
// within half a step of the heights.
#[test]
fn packs_and_reads_back(rt: HostRuntime) {
    let alloc = rt.alloc();
    let Some(grid) = random_heights(alloc) else {
        panic!(rt; "no memory");
    };
    let flat = canonical_bytes(alloc, &grid, 1).expect(&rt, "memory");
    for (levels, word) in [(1u8, "1"), (3, "3"), (7, "7"), (12, "12")] {
        if levels < 1 || levels > 12 {
            panic!(rt; "no number of levels");
        }
        let exact = canonical_bytes(alloc, &grid, levels).expect(&rt, "memory");
        for (step, half) in [("1", 0), ("3", 1), ("255", 127)] {
            let words = ["packq", word, step, "o", "a.gct"];
            let Ok(left) = run(&rt, &words, &[("a.gct", exact.as_slice())]) else {
                panic!(rt; "no memory");
            };
            let Some(file) = left.done("o") else {
                panic!(rt; "no file");
            };
            let Ok(read) = read_heights(alloc, file) else {
                panic!(rt; "no store");
            };
            assert_eq!(rt; (read.grid.width(), read.grid.height()), (100, 67));
            let back = canonical_bytes(alloc, &read.grid, 1).expect(&rt, "memory");
            assert_eq!(rt; back.len(), flat.len());
            let most = farthest(flat.as_slice(), back.as_slice());
            assert!(rt; most <= half, "{word} {step} {most}");
        }
    }
}
