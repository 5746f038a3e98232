//! Worked examples of sets of tiles, over a shelf and a sink in memory.
use memory_runs::{line, run};
use std::alloc::{AllocError, Global};
use std::thread::Threads;

// The bytes of a tile of nine samples of one height, a small one.
fn flat(height: u8) -> [u8; 18] {
    let mut bytes = [0u8; 18];
    for n in 0..9usize {
        bytes[2 * n + 1] = height;
    }
    bytes
}

// The bytes of a tile of side 1201 at height 0.
pub(crate) fn sea(alloc: Global) -> Result<Vec<u8>, AllocError> {
    let mut bytes = Vec::with_capacity(alloc, 2_884_802)?;
    for _ in 0..2_884_802u32 {
        bytes.push(0)?;
    }
    Ok(bytes)
}

// The text of the frame that the words ask for over these files, where it is drawn.
fn drawn<R: Threads + Sync + AllocGlobal>(
    rt: &R,
    words: &[&str],
    files: &[(&str, &[u8])],
) -> Option<Vec<u8>> {
    let left = run(rt, words, files).ok()?;
    let text = left.done("out.obj")?;
    Vec::from_slice(rt.alloc(), text).ok()
}

// The place of the vertex at (x, z) in the text of a frame of size 4 round the viewer (1, 1), counted in lines.
fn place(x: usize, z: usize) -> usize {
    3usize
        .saturating_add(z.saturating_add(6).saturating_mul(15))
        .saturating_add(x)
        .saturating_add(6)
}

// Four tiles round (0, 0): south of the equator and west of the meridian too. The seams belong to the north and then
// to the west.
#[test]
fn four_corners(rt: HostRuntime) {
    let (one, two, three, four) = (flat(1), flat(2), flat(3), flat(4));
    let files = [
        ("S01W001.hgt", one.as_slice()),
        ("S01E000.hgt", two.as_slice()),
        ("N00W001.hgt", three.as_slice()),
        ("N00E000.hgt", four.as_slice()),
    ];
    let words = [
        "frame",
        "4",
        "1",
        "1",
        "1",
        "out.obj",
        "S01E000.hgt",
        "N00W001.hgt",
        "S01W001.hgt",
        "N00E000.hgt",
    ];
    let Some(text) = drawn(&rt, &words, &files) else {
        panic!(rt; "no frame");
    };
    let vertices = [
        (0, 0, "v 0 3.00000 0"),
        (2, 1, "v 2 3.00000 1"),
        (3, 1, "v 3 4.00000 1"),
        (1, 2, "v 1 3.00000 2"),
        (2, 2, "v 2 3.00000 2"),
        (3, 2, "v 3 4.00000 2"),
        (2, 3, "v 2 1.00000 3"),
        (3, 3, "v 3 2.00000 3"),
        (4, 4, "v 4 2.00000 4"),
        (5, 4, "v 5 0.00000 4"),
        (4, 5, "v 4 0.00000 5"),
    ];
    for (x, z, want) in vertices {
        assert!(rt;
            line(text.as_slice(), place(x, z)) == want.as_bytes(),
            "{want}"
        );
    }
}

// The rows V V V, V 5 V and 7 V 9, where V is a void, become 0 0 0, 5 5 5 and 7 7 9.
#[test]
fn voids_are_filled(rt: HostRuntime) {
    let tile = [
        128, 0, 128, 0, 128, 0, 128, 0, 0, 5, 128, 0, 0, 7, 128, 0, 0, 9u8,
    ];
    let words = ["frame", "4", "1", "1", "1", "out.obj", "N00E000.hgt"];
    let files = [("N00E000.hgt", tile.as_slice())];
    let Some(text) = drawn(&rt, &words, &files) else {
        panic!(rt; "no frame");
    };
    let vertices = [
        (0, 0, "v 0 0.00000 0"),
        (2, 0, "v 2 0.00000 0"),
        (0, 1, "v 0 5.00000 1"),
        (1, 1, "v 1 5.00000 1"),
        (2, 1, "v 2 5.00000 1"),
        (0, 2, "v 0 7.00000 2"),
        (1, 2, "v 1 7.00000 2"),
        (2, 2, "v 2 9.00000 2"),
    ];
    for (x, z, want) in vertices {
        assert!(rt;
            line(text.as_slice(), place(x, z)) == want.as_bytes(),
            "{want}"
        );
    }
}

// Tiles that touch the 180th meridian lie at the two ends of the terrain: 721 columns by 3 rows.
#[test]
fn both_sides_of_the_180th_meridian(rt: HostRuntime) {
    let (west, east) = (flat(8), flat(9));
    let files = [
        ("N00W180.hgt", west.as_slice()),
        ("N00E179.hgt", east.as_slice()),
    ];
    let table = [
        ("1", (2, 1, "v 2 8.00000 1"), (3, 1, "v 3 0.00000 1")),
        ("719", (0, 1, "v 718 9.00000 1"), (3, 1, "v 721 0.00000 1")),
    ];
    for (viewer, inside, outside) in table {
        let words = [
            "frame",
            "4",
            "1",
            viewer,
            "1",
            "out.obj",
            "N00E179.hgt",
            "N00W180.hgt",
        ];
        let Some(text) = drawn(&rt, &words, &files) else {
            panic!(rt; "no frame");
        };
        for (x, z, want) in [inside, outside] {
            assert!(rt;
                line(text.as_slice(), place(x, z)) == want.as_bytes(),
                "{want}"
            );
        }
    }
}

// Sets of small tiles that are refused, and which of several faults is told.
#[test]
fn faulty_sets(rt: HostRuntime) {
    let tile = flat(1);
    let files = [
        ("a/N00E000.hgt", tile.as_slice()),
        ("b/n00e000.HGT", tile.as_slice()),
        ("S01W001.hgt", tile.as_slice()),
        ("c/S01W001.hgt", tile.as_slice()),
        ("N00E001.hgt", [0u8; 32].as_slice()),
        ("N00E002.hgt", &tile[..17]),
    ];
    let table = [
        (
            ["a/N00E000.hgt", "b/n00e000.HGT", "S01W001.hgt"].as_slice(),
            "fault: Twice 0 0\n",
        ),
        (
            ["N00E001.hgt", "S01W001.hgt", "c/S01W001.hgt"].as_slice(),
            "fault: Twice -1 -1\n",
        ),
        (
            ["a/N00E000.hgt", "N00E001.hgt"].as_slice(),
            "fault: SidesDiffer 3 4\n",
        ),
        (
            ["N00E001.hgt", "a/N00E000.hgt"].as_slice(),
            "fault: SidesDiffer 4 3\n",
        ),
        (
            ["a/N00E000.hgt", "b/n00e000.HGT", "N00E009.hgt"].as_slice(),
            "fault: Absent N00E009.hgt\n",
        ),
        (
            ["a/N00E000.hgt", "b/n00e000.HGT", "N00E002.hgt"].as_slice(),
            "fault: BadLength N00E002.hgt 17\n",
        ),
        (
            ["N00E009.hgt", "N00E002.hgt"].as_slice(),
            "fault: Absent N00E009.hgt\n",
        ),
        (
            ["N00E002.hgt", "N00E009.hgt"].as_slice(),
            "fault: BadLength N00E002.hgt 17\n",
        ),
        (
            ["N00E009.hgt", "N90E000.hgt"].as_slice(),
            "fault: BadName N90E000.hgt\n",
        ),
    ];
    for (names, want) in table {
        let alloc = rt.alloc();
        let head = ["frame", "4", "1", "1", "1", "out.obj"];
        let mut words = Vec::from_slice(alloc, &head).expect(&rt, "memory");
        words.extend_from_slice(names).expect(&rt, "memory");
        let Ok(left) = run(&rt, words.as_slice(), &files) else {
            panic!(rt; "no memory");
        };
        assert_eq!(rt; left.status, 2, "{want}");
        assert!(rt; left.log() == want.as_bytes(), "{want}");
        assert!(rt; left.file("out.obj").is_none(), "{want}");
    }
}

// Tiles of side 1201 that lie too far apart: 171 * 1200 + 1 columns by 81 * 1200 + 1 rows, and 360 * 1200 + 1 columns
// by 1201 rows.
#[test]
fn too_large_sets(rt: HostRuntime) {
    let Ok(tile) = sea(rt.alloc()) else {
        panic!(rt; "no memory");
    };
    let table = [
        (
            "N00E000.hgt",
            "N80E170.hgt",
            "fault: TooLarge 19945742401\n",
        ),
        ("N00W180.hgt", "N00E179.hgt", "fault: TooLarge 518833201\n"),
    ];
    for (first, second, want) in table {
        let files = [(first, tile.as_slice()), (second, tile.as_slice())];
        let words = ["frame", "4", "1", "1", "1", "out.obj", first, second];
        let Ok(left) = run(&rt, &words, &files) else {
            panic!(rt; "no memory");
        };
        assert_eq!(rt; left.status, 2, "{want}");
        assert!(rt; left.log() == want.as_bytes(), "{want}");
    }
}
