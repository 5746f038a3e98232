//! Worked frames of one level, refused inputs, and failing calls.
use memory_runs::{NINE, TILE, line, run, run_failing};

// The words of the first frame.
const FIRST: [&str; 7] = ["frame", "4", "1", "1", "1", "out.obj", TILE];

// The first run of the program. It refuses a body that always answers want of memory, which no clause can.
#[test]
fn first_frame(rt: HostRuntime) {
    let Ok(left) = run(&rt, &FIRST, &[(TILE, &NINE)]) else {
        panic!(rt; "no memory");
    };
    let Some(text) = left.done("out.obj") else {
        panic!(rt; "no file");
    };
    assert_eq!(rt;
        left.log(),
        b"frame 0 vertices 225 triangles 392\n".as_slice()
    );
    assert_eq!(rt; text.iter().filter(|byte| **byte == b'\n').count(), 620);
    let lines = [
        (0, "# clipmap frame 0"),
        (1, "# viewer 1 1"),
        (2, "# level 0 active -6 -6 8 8"),
        (3, "v -6 0.00000 -6"),
        (99, "v 0 1.00000 0"),
        (100, "v 1 2.00000 0"),
        (131, "v 2 9.00000 2"),
        (228, "f 1 16 17"),
        (229, "f 1 17 2"),
        (618, "f 209 224 225"),
        (619, "f 209 225 210"),
        (620, ""),
    ];
    for (number, want) in lines {
        assert!(rt; line(text, number) == want.as_bytes(), "line {number}");
    }
}

#[test]
fn frame_far_from_the_tile(rt: HostRuntime) {
    let words = ["frame", "4", "1", "-4194304", "4194304", "out.obj", TILE];
    let Ok(left) = run(&rt, &words, &[(TILE, &NINE)]) else {
        panic!(rt; "no memory");
    };
    let Some(text) = left.done("out.obj") else {
        panic!(rt; "no file");
    };
    let head = "# level 0 active -4194310 4194298 -4194296 4194312";
    assert!(rt; line(text, 2) == head.as_bytes());
    assert!(rt; line(text, 3) == "v -4194310 0.00000 4194298".as_bytes());
    let mut flat = 0u32;
    for number in 3..228usize {
        let vertex = line(text, number);
        if vertex.windows(9).any(|part| part == " 0.00000 ".as_bytes()) {
            flat = flat.saturating_add(1);
        }
    }
    assert_eq!(rt; flat, 225);
}

#[test]
fn refused_inputs(rt: HostRuntime) {
    let long = "fault: BadLength N00E000.hgt 17\n";
    let none = "fault: BadLength N00E000.hgt 0\n";
    let table = [
        ("1", TILE, &NINE[..17], long),
        ("1", TILE, &NINE[..0], none),
        (
            "2",
            "N90E000.hgt",
            &NINE[..17],
            "fault: BadName N90E000.hgt\n",
        ),
        ("1", "tile.GCT", &NINE[..17], "fault: Absent tile.GCT\n"),
        (
            "1",
            "N90E000.hgt",
            &NINE[..17],
            "fault: BadName N90E000.hgt\n",
        ),
        (
            "1",
            "a/N45E006.hgt.zip",
            &NINE[..17],
            "fault: BadName a/N45E006.hgt.zip\n",
        ),
        (
            "1",
            "N45E006.hgt",
            &NINE[..17],
            "fault: Absent N45E006.hgt\n",
        ),
    ];
    for (levels, input, bytes, want) in table {
        let words = ["frame", "4", levels, "1", "1", "out.obj", input];
        let Ok(left) = run(&rt, &words, &[(TILE, bytes)]) else {
            panic!(rt; "no memory");
        };
        assert_eq!(rt; left.status, 2, "{want}");
        assert!(rt; left.log() == want.as_bytes(), "{want}");
        assert!(rt; left.file("out.obj").is_none(), "{want}");
    }
}

#[test]
fn failing_calls(rt: HostRuntime) {
    let wrong = ["frame"];
    let table = [
        (FIRST.as_slice(), [0].as_slice(), [].as_slice(), 3, false),
        (FIRST.as_slice(), [1].as_slice(), [].as_slice(), 3, false),
        (FIRST.as_slice(), [].as_slice(), [0].as_slice(), 4, true),
        (wrong.as_slice(), [].as_slice(), [0].as_slice(), 4, false),
    ];
    for (words, shelf_failing, sink_failing, status, stands) in table {
        let files = [(TILE, NINE.as_slice())];
        let Ok(left) = run_failing(&rt, words, &files, shelf_failing, sink_failing) else {
            panic!(rt; "no memory");
        };
        assert_eq!(rt; left.status, status);
        assert!(rt; left.log().is_empty());
        assert_eq!(rt; left.file("out.obj").is_some(), stands);
    }
}
