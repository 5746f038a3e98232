//! Worked examples of `play`, over a shelf and a sink in memory.
use memory_runs::{Left, NINE, STORE, TILE, line, run, run_failing};
use outer_shelf::NoMemory;
use std::alloc::Global;
use std::thread::Threads;

// The 3 × 3 tile of the height 0.
const SEA: [u8; 18] = [0; 18];

// The calls that fail in a run.
#[derive(Clone, Copy)]
struct Failing<'a> {
    shelf: &'a [u64],
    sink: &'a [u64],
}

// No call fails.
const NONE: Failing<'static> = Failing {
    shelf: &[],
    sink: &[],
};

// Plays a script over a tile.
fn run_script<R: Threads + Sync + AllocGlobal>(
    rt: &R,
    script: &[u8],
    tile: &[u8],
    failing: &Failing<'_>,
) -> Result<Left, NoMemory> {
    let files = [("s", script), (TILE, tile)];
    let words = ["play", "s", "out", TILE];
    run_failing(rt, &words, &files, failing.shelf, failing.sink)
}

// So many pairs of a claim and a finish of pass 0.
fn write_pairs(script: &mut String, pairs: u8) -> Result<(), NoMemory> {
    for _ in 0..pairs {
        if write!(script, "claim 0\nfinish 0\n").is_err() {
            return Err(NoMemory);
        }
    }
    Ok(())
}

// A script that fills so many levels of windows of nine pieces, and what it does then.
fn filling(alloc: Global, front: &str, levels: u8, rest: &str) -> Result<String, NoMemory> {
    let mut script = String::from_str(alloc, front)?;
    for n in 0..levels {
        write_pairs(&mut script, 9)?;
        let level = levels.saturating_sub(n).saturating_sub(1);
        if write!(script, "publish {level}\n").is_err() {
            return Err(NoMemory);
        }
    }
    if write!(script, "{rest}").is_err() {
        return Err(NoMemory);
    }
    Ok(script)
}

#[test]
fn plays_without_a_job(rt: HostRuntime) {
    let script = b"size 4 1\nfinish 3\nend 3\nbegin 0\nbegin 0\nclaim 0\nend 0\n";
    let Ok(left) = run_script(&rt, script.as_slice(), &NINE, &NONE) else {
        panic!(rt; "no memory");
    };
    let log =
        "finish 3: nojob\nend 3: noframe\nbegin 0: frame 0\nbegin 0: haswork\nclaim 0: haswork\n\
        end 0: closed 0 vertices 0 triangles 0\n";
    let text = "# clipmap frame 0\n# viewer 0 0\n# level 0 empty\n";
    assert_eq!(rt; left.status, 0);
    assert_eq!(rt; left.log(), log.as_bytes());
    assert!(rt; left.file("out-0.obj") == Some(text.as_bytes()));
    assert!(rt; left.file("out-1.obj").is_none());
}

// Both frames are drawn after the move, which gives them no new piece.
#[test]
fn plays_two_open_frames(rt: HostRuntime) {
    let alloc = rt.alloc();
    let rest = "begin 0\nbegin 1\nmove 41 1\nclaim 2\nend 0\nclaim 2\nend 1\nclaim 2\n";
    let Ok(script) = filling(alloc, "size 4 1\nmove 1 1\n", 1, rest) else {
        panic!(rt; "no memory");
    };
    let Ok(left) = run_script(&rt, script.as_bytes(), &NINE, &NONE) else {
        panic!(rt; "no memory");
    };
    let words = ["frame", "4", "1", "1", "1", "out.obj", TILE];
    let Ok(whole) = run(&rt, &words, &[(TILE, NINE.as_slice())]) else {
        panic!(rt; "no memory");
    };
    assert_eq!(rt; left.status, 0);
    let lines = [
        (18, "finish 0: kept"),
        (19, "publish 0: grown -6 -6 8 8"),
        (20, "begin 0: frame 0"),
        (21, "begin 1: frame 1"),
        (23, "claim 2: busy level 0 tile 0 1 frame 0"),
        (24, "end 0: closed 0 vertices 225 triangles 392"),
        (25, "claim 2: busy level 0 tile 0 1 frame 1"),
        (26, "end 1: closed 1 vertices 225 triangles 392"),
        (
            27,
            "claim 2: job level 0 block 4 -1 cells 34 -6 39 -1 plan 1",
        ),
        (28, ""),
    ];
    for (number, want) in lines {
        assert_eq!(rt; line(left.log(), number), want.as_bytes());
    }
    let (first, second) = (left.file("out-0.obj"), left.file("out-1.obj"));
    let one = whole.done("out.obj");
    assert!(rt; one.is_some() && first == one);
    let front = b"# clipmap frame 0".len();
    let number = second.and_then(|text| text.get(..front));
    assert!(rt; number == Some(b"# clipmap frame 1".as_slice()));
    let after = second.and_then(|text| text.get(front..));
    assert!(rt; after == one.and_then(|text| text.get(front..)));
}

#[test]
fn plays_two_levels(rt: HostRuntime) {
    let alloc = rt.alloc();
    let table = [
        (
            "begin 0\nend 0\n",
            "end 0: closed 0 vertices 386 triangles 714",
        ),
        (
            "see 1 0 0 -9\nbegin 0\nendseen 0\n",
            "endseen 0: closed 0 kept 3 of 9 vertices 165 triangles 252",
        ),
    ];
    for (rest, want) in table {
        let Ok(script) = filling(alloc, "size 4 2\n", 2, rest) else {
            panic!(rt; "no memory");
        };
        let Ok(left) = run_script(&rt, script.as_bytes(), &SEA, &NONE) else {
            panic!(rt; "no memory");
        };
        assert_eq!(rt; left.status, 0);
        let log = left.log();
        let count = log.iter().filter(|byte| **byte == b'\n').count();
        assert_eq!(rt; line(log, count.saturating_sub(1)), want.as_bytes());
        assert!(rt; left.file("out-0.obj").is_some());
    }
}

// A frame of a book of which nothing is filled has no part that a view can keep.
#[test]
fn plays_a_view_of_nothing(rt: HostRuntime) {
    let script = b"size 4 1\nsee\nbegin 0\nendseen 0\n";
    let Ok(left) = run_script(&rt, script.as_slice(), &SEA, &NONE) else {
        panic!(rt; "no memory");
    };
    let log = "see: view 0\nbegin 0: frame 0\n\
        endseen 0: closed 0 kept 0 of 0 vertices 0 triangles 0\n";
    let text = "# clipmap frame 0\n# viewer 0 0\n# level 0 empty\n# kept 0 of 0\n";
    assert_eq!(rt; left.status, 0);
    assert_eq!(rt; left.log(), log.as_bytes());
    assert!(rt; left.file("out-0.obj") == Some(text.as_bytes()));
}

// The script is judged before the names of the inputs, and all of them before an input is fetched. Nothing is put.
#[test]
fn refuses(rt: HostRuntime) {
    let files = [
        ("s", b"size 4 1\nbegin 0\nend 0\n".as_slice()),
        ("two", b"size 4 2\nbegin 0\nend 0\n".as_slice()),
        ("bad", b"size 4 1\n\nclaim 16\n".as_slice()),
        ("a.gct", STORE.as_slice()),
        ("b.gct", b"GCT".as_slice()),
        (TILE, NINE.as_slice()),
    ];
    let table = [
        ("t", "x", "fault: Absent t\n"),
        ("bad", "x", "fault: BadLine 3\n"),
        ("a.gct", TILE, "fault: BadLine 1\n"),
        ("s", "x", "fault: BadName x\n"),
        ("s", "N01E001.hgt", "fault: Absent N01E001.hgt\n"),
        ("s", "c.gct", "fault: Absent c.gct\n"),
        ("s", "b.gct", "fault: store CutShort 3\n"),
        ("s", "a.gct", "fault: LevelsDiffer 2 1\n"),
    ];
    for (script, input, want) in table {
        let Ok(left) = run(&rt, &["play", script, "out", input], &files) else {
            panic!(rt; "no memory");
        };
        assert_eq!(rt; left.status, 2);
        assert_eq!(rt; left.log(), want.as_bytes());
        assert!(rt; left.file("out-0.obj").is_none());
    }
    let Ok(left) = run(&rt, &["play", "two", "out", "a.gct"], &files) else {
        panic!(rt; "no memory");
    };
    assert_eq!(rt; left.status, 0);
    assert!(rt; left.file("out-0.obj").is_some());
}

// The calls of the shelf are the script's fetch, the tile's, and the two puts; those of the sink are the lines.
#[test]
fn fails_on_its_calls(rt: HostRuntime) {
    let script = b"size 4 1\nbegin 0\nend 0\nbegin 0\nend 0\n";
    let first = "begin 0: frame 0\n";
    let third = "begin 0: frame 0\nend 0: closed 0 vertices 0 triangles 0\nbegin 0: frame 1\n";
    let table: [(&[u64], &[u64], u8, &str, bool); 4] = [
        (&[0], &[], 3, "", false),
        (&[1], &[], 3, "", false),
        (&[3], &[], 3, third, true),
        (&[], &[1], 4, first, true),
    ];
    for (shelf, sink, status, log, stands) in table {
        let failing = Failing { shelf, sink };
        let Ok(left) = run_script(&rt, script.as_slice(), &NINE, &failing) else {
            panic!(rt; "no memory");
        };
        assert_eq!(rt; left.status, status);
        assert_eq!(rt; left.log(), log.as_bytes());
        assert_eq!(rt; left.file("out-0.obj").is_some(), stands);
        assert!(rt; left.file("out-1.obj").is_none());
    }
}
