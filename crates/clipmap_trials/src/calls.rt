//! Each call of the shelf and of the sink failing in turn, for the commands that put at most one file.
use crate::trial::try_each;
use memory_runs::{NINE, STORE};
use std::test::Fail;

// Tiles side by side, a store, faulty files, a text without a triangle, and the old file under the name OUT.
const FILES: [(&str, &[u8]); 7] = [
    ("N00E000.hgt", &NINE),
    ("N00E001.hgt", &NINE),
    ("N00E002.hgt", &NINE),
    ("N00E003.hgt", b"short"),
    ("a.gct", &STORE),
    (
        "a.obj",
        b"# clipmap frame 0\n# viewer 0 0\n# level 0 empty\n",
    ),
    ("o", b"old"),
];

#[test]
fn each_call_fails(rt: HostRuntime) -> Result<(), Fail> {
    let table = [
        (
            "frame 4 1 1 1 o N00E000.hgt N00E001.hgt N00E002.hgt",
            3,
            0,
            [("o", "frame 0 vertices 225 triangles 392\n")].as_slice(),
        ),
        (
            "frame 4 2 1 1 o a.gct",
            1,
            0,
            [("o", "frame 0 vertices 386 triangles 714\n")].as_slice(),
        ),
        (
            "pack 1 o N00E000.hgt N00E001.hgt N00E002.hgt",
            3,
            0,
            [("o", "packed 57 bytes 1 blocks\n")].as_slice(),
        ),
        (
            "packq 1 3 o N00E000.hgt N00E001.hgt N00E002.hgt",
            3,
            0,
            [("o", "packed 58 bytes 1 blocks\n")].as_slice(),
        ),
        (
            "info N00E000.hgt N00E001.hgt N00E002.hgt",
            3,
            0,
            [
                ("", "terrain 7 3\n"),
                ("", "heights 1 9\n"),
                ("", "tiles 3 side 3 voids 0\n"),
            ]
            .as_slice(),
        ),
        (
            "packq 2 3 o a.gct",
            1,
            0,
            [("o", "packed 34 bytes 2 blocks\n")].as_slice(),
        ),
        (
            "info a.gct",
            1,
            0,
            [
                ("", "terrain 3 3\n"),
                ("", "heights 0 30000\n"),
                ("", "store version 1 levels 2 blocks 2 bytes 33\n"),
            ]
            .as_slice(),
        ),
        (
            "frame 4 3 1 1 o a.gct",
            1,
            2,
            [("", "fault: LevelsDiffer 2 3\n")].as_slice(),
        ),
        (
            "frame 4 1 1 1 o N00E000.hgt N00E009.hgt N00E001.hgt",
            2,
            2,
            [("", "fault: Absent N00E009.hgt\n")].as_slice(),
        ),
        (
            "pack 1 o a.gct",
            0,
            2,
            [("", "fault: BadName a.gct\n")].as_slice(),
        ),
        (
            "pack 1 o N00E000.hgt N00E003.hgt",
            2,
            2,
            [("", "fault: BadLength N00E003.hgt 5\n")].as_slice(),
        ),
        (
            "packq 1 3 o N00E000.hgt N00E000.hgt",
            2,
            2,
            [("", "fault: Twice 0 0\n")].as_slice(),
        ),
        (
            "info N00E000.hgt N91E000.hgt",
            0,
            2,
            [("", "fault: BadName N91E000.hgt\n")].as_slice(),
        ),
        (
            "check a.gct",
            1,
            2,
            [("", "fault: bad line 1\n")].as_slice(),
        ),
        ("check a.obj", 1, 0, [("", "watertight 0\n")].as_slice()),
        ("check", 0, 1, [("", "fault: words\n")].as_slice()),
        ("frame", 0, 1, [("", "fault: words\n")].as_slice()),
    ];
    try_each(&rt, &FILES, &table)
}
